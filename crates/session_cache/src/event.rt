//! Events of a cache's connection, and its answers.

ghost use Rattle.std.specs.Prelude.{◌≡◌};
ghost use Rattle.session_cache.specs.ReasonTexts.{reason_text};

use rtr_base::error_code::ErrorCode;
use session_router::head::{Fault, Head};

/// The session and the serial number of a cache's newest data, if it has any.
#[derive(Clone, Copy)]
pub struct Present {
    /// Whether there are any; otherwise the session and the serial number have no meaning.
    pub has: bool,
    pub session: u16,
    pub serial: u32,
}

/// An event of a connection that the caller reports to a cache.
#[derive(Clone, Copy)]
pub enum CacheEvent {
    /// Time passed, or there are new data.
    Tick,
    /// The connection exceeds the cache's limit of connections.
    Full,
    /// A unit came. For a serial query: whether the cache can send the changes since the data of
    /// the present session with its serial number.
    Came(Head, bool),
    /// A unit came that is refused, or that the close of the connection cut off.
    Faulty(Fault),
    /// The connection is gone, or the router didn't take in time what was sent.
    Lost,
}

/// What the caller has to do, and complete, before it reports the next event. Everything is sent in
/// the version of the connection.
#[derive(Clone, Copy)]
pub enum Answer {
    /// Nothing, until something comes, there are new data, or the time of `wakes` is reached.
    Wait,
    /// Send a cache response, all present data and an end of data.
    All,
    /// Send a cache response, the changes from the data with this serial number to the present
    /// ones, and an end of data.
    Changes(u32),
    /// Send a cache reset.
    Reset,
    /// Send a report of code 2 about the query. The connection stays open.
    NoData,
    /// Send a notify of the present data.
    Notify,
    /// End the connection.
    End(Closing),
}

/// How a connection ends.
#[derive(Clone, Copy)]
pub struct Closing {
    /// The report that is sent before, if one is owed.
    pub report: Option<OwedReport>,
    pub reason: Reason,
}

/// A report that is owed.
#[derive(Clone, Copy)]
pub struct OwedReport {
    /// The version in which it is sent.
    pub version: u8,
    /// Its code (RFC 8210 section 12).
    pub code: ErrorCode,
}

/// Why a connection ends.
#[derive(Clone, Copy)]
pub enum Reason {
    /// The connection is gone.
    Lost,
    /// No query came in time.
    Slow,
    /// The limit of connections is reached.
    Full,
    /// A unit is refused.
    Faulty,
    /// The router sent an error report.
    Reported,
    /// The router sent a unit that isn't a query.
    NoQuery,
    /// The router sent a unit of another version than the connection.
    OtherVersion,
    /// The router's first unit has an unsupported version.
    NoVersion,
    /// The router has data of a session that isn't the present one.
    NewSession,
    /// The changes that a serial query asks for aren't available.
    Unknown,
}

impl Reason {
    /// The text of the reason, which a report has too.
    pub fn text(self) -> &'static str
        ensures { result.now ≡ reason_text self }
    {
        match self {
            Reason::Lost => "the router closed the connection",
            Reason::Slow => "the router is too slow",
            Reason::Full => "too many connections",
            Reason::Faulty => "unit is refused",
            Reason::Reported => "the router reports an error",
            Reason::NoQuery => "unit is not a query",
            Reason::OtherVersion => "unit of another version than the session",
            Reason::NoVersion => "version is not supported",
            Reason::NewSession => "the data are of a new session",
            Reason::Unknown => "no data of this session and serial number",
        }
    }
}
