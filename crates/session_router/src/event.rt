//! Events of a router, and its actions.

ghost use Rattle.std.specs.Prelude.{◌≡◌};
ghost use Rattle.session_router.specs.Texts.{cause_text};

use crate::head::{Fault, Head, Query};
use rtr_base::error_code::ErrorCode;

/// An event that the caller reports to a router.
#[derive(Clone, Copy)]
pub enum Event {
    /// Time passed.
    Tick,
    /// The caller requests the present data: the router asks for them as soon as it may.
    Asked,
    /// The connection is made.
    Connected,
    /// No connection could be made, or it is gone. If the close cut off a unit, report `Faulty`
    /// instead.
    Lost,
    /// A unit came.
    Came(Head),
    /// A unit came that is refused, or that the close of the connection cut off.
    Faulty(Fault),
    /// All changes of the response were applied.
    Applied,
    /// No changes were applied, or a unit couldn't be kept; with the code of the report that is
    /// owed.
    NotApplied(Option<ErrorCode>),
}

/// What its caller has to do.
#[derive(Clone, Copy)]
pub enum Action {
    /// Nothing, until something comes or the time of `wakes` is reached.
    Wait,
    /// Open a connection.
    Connect,
    /// Send this query.
    Ask(Query),
    /// Drop the units that are kept: a response begins.
    Begin,
    /// Keep the unit that came.
    Keep,
    /// Apply all kept changes, in their order, or none: to the data if true, and otherwise to no
    /// data. Then report `Applied` or `NotApplied`, before the expire time of the answer is over.
    Apply(bool),
    /// The result of the changes is now the data.
    Show,
    /// The cache has no data yet. It is asked again.
    NoData,
    /// Drop the data: they have expired while there is no connection.
    Drop,
    /// End the connection.
    End(Ending),
}

/// How a connection ends.
#[derive(Clone, Copy)]
pub struct Ending {
    /// Whether the data are dropped.
    pub drop: bool,
    /// The code of the report that is sent before (RFC 8210 section 12).
    pub report: Option<ErrorCode>,
    pub cause: Cause,
}

/// Why a connection ends.
#[derive(Clone, Copy)]
pub enum Cause {
    /// The connection couldn't be made, or is gone.
    Lost,
    /// A deadline has passed.
    Slow,
    /// A unit is refused.
    Faulty,
    /// The cache sent an error report.
    Reported,
    /// A unit of this kind is not allowed at this point.
    OutOfPlace,
    /// The version of the session has no such payloads.
    NoSuchPayload,
    /// The unit is of another version than the session.
    OtherVersion,
    /// The answer has a higher version than the query.
    HigherVersion,
    /// The unit is of another session than the data, or than the response.
    OtherSession,
    /// The serial number of the end of data comes before that of the query.
    OldSerial,
    /// The answer has changes, but the same serial number as the query.
    OtherData,
    /// The answer has too many units or bytes.
    TooLong,
    /// The changes couldn't be kept or applied.
    NotApplied,
    /// The data have expired.
    Expired,
    /// The cache may have a lower version, in which the next connection begins at once. This is not
    /// a failure.
    Lower,
    /// The cache may support a higher version than the one that the router fell to at a silent
    /// close. The next connection begins in the highest version, at once. This is not a failure.
    Higher,
}

impl Cause {
    /// The text of the cause, which a report has too.
    pub fn text(self) -> &'static str
        ensures { result.now ≡ cause_text self }
    {
        match self {
            Cause::Lost => "the cache closed the connection",
            Cause::Slow => "the cache is too slow",
            Cause::Faulty => "unit is refused",
            Cause::Reported => "the cache reports an error",
            Cause::OutOfPlace => "unit is not allowed here",
            Cause::NoSuchPayload => "version does not have such payloads",
            Cause::OtherVersion => "unit of another version than the session",
            Cause::HigherVersion => "answer of a higher version than the query",
            Cause::OtherSession => "unit of another session",
            Cause::OldSerial => "serial number before that of the query",
            Cause::OtherData => "other data at the serial number of the query",
            Cause::TooLong => "the answer is too long",
            Cause::NotApplied => "changes are refused",
            Cause::Expired => "the data have expired",
            Cause::Lower => "the cache may have a lower version",
            Cause::Higher => "the cache may have a higher version",
        }
    }
}
