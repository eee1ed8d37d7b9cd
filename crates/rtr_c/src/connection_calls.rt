//! A connection of a server, in numbers: its host's next action, and when a limit ends it.

ghost use Rattle.std.specs.Prelude.{◌≡◌, ◌≤◌, ◌<◌, true, false};
ghost use Rattle.session_server.specs.Paces.{answered, broken_off, closed_by, connection_wakes_at};
ghost use Rattle.session_server.specs.Paces.{input_taken, is_free, new_connection, next_at};
ghost use Rattle.session_server.specs.Paces.{once_received, reads_now, report_begun, sent};
ghost use Rattle.rtr_c.specs.Caches.{cache_of, present_of};
ghost use Rattle.rtr_c.specs.ServerConnections.{connection_of, cut_number, cut_told};
ghost use Rattle.rtr_c.specs.ServerConnections.{numbered_state, state_number, step_number};
ghost use Rattle.rtr_c.specs.Servers.{server_settings_of};

use crate::cache::{RtrCache, RtrPresent, cache_from, present_from};
use crate::server_calls::{RtrServerSettings, server_settings_from, server_settings_to};
use session_server::connection::{Connection, Cut, Next, Phase};

/// No limit ended a connection.
const NONE: u8 = 0;

/// A connection: as `session_server::connection::Connection`.
#[repr(C)]
#[derive(Clone, Copy)]
pub struct RtrConnection {
    pub settings: RtrServerSettings,
    /// When the first unheard byte came.
    pub begun: u64,
    /// When a byte of the answer was sent last.
    pub taken: u64,
    /// When all of the answer must be sent; at an end, when to close.
    pub until: u64,
    /// The number of the newest data when the answer began.
    pub number: u64,
    /// The bytes that came and weren't heard.
    pub filled: usize,
    /// The bytes of the answer, or of the last report, that weren't sent.
    pub unsent: usize,
    /// 0 if it is served, 1 if it ended with a report, 2 if it ended without one or broke.
    pub state: u8,
    /// Whether there may be a whole unit among the unheard bytes.
    pub fresh: bool,
    /// Whether the router has closed.
    pub closed: bool,
}

// The fields stand one after the other, and five bytes are left at the end.
const _: () = prove!(size_of::<RtrConnection>() == 120);

fn state_from(state: u8) -> Phase
    ensures { result ≡ numbered_state state }
{
    match state {
        0 => Phase::Open,
        1 => Phase::Ending,
        _ => Phase::Over,
    }
}

fn state_to(phase: Phase) -> u8
    ensures number { result ≡ state_number phase }
    ensures same { numbered_state result ≡ phase }
{
    match phase {
        Phase::Open => 0,
        Phase::Ending => 1,
        Phase::Over => 2,
    }
}

/// The connection of the struct.
fn connection_from(connection: &RtrConnection) -> Connection
    ensures { result ≡ connection_of connection.now }
{
    Connection {
        settings: server_settings_from(&connection.settings),
        phase: state_from(connection.state),
        filled: connection.filled,
        begun: connection.begun,
        fresh: connection.fresh,
        closed: connection.closed,
        unsent: connection.unsent,
        taken: connection.taken,
        until: connection.until,
        number: connection.number,
    }
}

/// The struct for a connection.
fn connection_to(connection: &Connection) -> RtrConnection
    ensures { connection_of result ≡ connection.now }
{
    RtrConnection {
        settings: server_settings_to(&connection.settings),
        begun: connection.begun,
        taken: connection.taken,
        until: connection.until,
        number: connection.number,
        filled: connection.filled,
        unsent: connection.unsent,
        state: state_to(connection.phase),
        fresh: connection.fresh,
        closed: connection.closed,
    }
}

/// The number of the next action.
fn step_to(next: Next) -> u8
    ensures { result ≡ step_number next }
{
    match next {
        Next::Wait => 0,
        Next::Hear => 1,
        Next::Tick => 2,
        Next::Lose => 3,
        Next::Send => 4,
        Next::Finish => 5,
        Next::Close(_) => 6,
    }
}

/// The number of the limit that ends a connection, or 0.
fn cut_to(next: Next) -> u8
    ensures { result ≡ cut_number (cut_told next) }
{
    match next {
        Next::Close(Some(Cut::Slow)) => 1,
        Next::Close(Some(Cut::NewSession)) => 2,
        Next::Close(Some(Cut::Behind)) => 3,
        _ => NONE,
    }
}

/// Begins a connection that was accepted at this time, whatever the struct holds, as
/// `session_server::connection::Connection::new`.
#[unsafe(no_mangle)]
pub extern "C" fn rtr_connection_init(
    connection: &mut RtrConnection,
    now: u64,
    settings: &RtrServerSettings,
)
    ensures { connection_of connection.new
        ≡ new_connection now (server_settings_of settings.now) }
{
    *connection = connection_to(&Connection::new(now, server_settings_from(settings)));
}

/// Reports that `size` bytes were read.
#[unsafe(no_mangle)]
pub extern "C" fn rtr_connection_received(connection: &mut RtrConnection, now: u64, size: usize)
    ensures { connection_of connection.new ≡ once_received (connection_of connection.old) now size }
{
    let mut found = connection_from(connection);
    found.received(now, size);
    *connection = connection_to(&found);
}

/// Reports that the router closed the connection.
#[unsafe(no_mangle)]
pub extern "C" fn rtr_connection_closed(connection: &mut RtrConnection)
    ensures { connection_of connection.new ≡ closed_by (connection_of connection.old) }
{
    let mut found = connection_from(connection);
    found.closed();
    *connection = connection_to(&found);
}

/// The connection broke: nothing can be sent on it any more.
#[unsafe(no_mangle)]
pub extern "C" fn rtr_connection_broke(connection: &mut RtrConnection)
    ensures { connection_of connection.new ≡ broken_off (connection_of connection.old) }
{
    let mut found = connection_from(connection);
    found.broke();
    *connection = connection_to(&found);
}

/// Whether the host reads from the connection now.
#[unsafe(no_mangle)]
pub extern "C" fn rtr_connection_reads(connection: &RtrConnection) -> bool
    ensures { result ≡ reads_now (connection_of connection.now) }
{
    connection_from(connection).reads()
}

/// Reports that the machine took `size` bytes of the input.
#[unsafe(no_mangle)]
pub extern "C" fn rtr_connection_heard(connection: &mut RtrConnection, now: u64, size: usize)
    ensures { connection_of connection.new ≡ input_taken (connection_of connection.old) now size }
{
    let mut found = connection_from(connection);
    found.heard(now, size);
    *connection = connection_to(&found);
}

/// Begins an answer of `size` bytes.
#[unsafe(no_mangle)]
pub extern "C" fn rtr_connection_answers(
    connection: &mut RtrConnection,
    now: u64,
    size: usize,
    number: u64,
) -> bool
    ensures free { result ≡ is_free (connection_of connection.old) }
    ensures after { connection_of connection.new
        ≡ answered (connection_of connection.old) now size number }
{
    let mut found = connection_from(connection);
    let begins = found.answers(now, size, number);
    *connection = connection_to(&found);
    begins
}

/// Ends the connection, with an error report of `size` bytes; 0 for none.
#[unsafe(no_mangle)]
pub extern "C" fn rtr_connection_ends(connection: &mut RtrConnection, now: u64, size: usize) -> bool
    ensures free { result ≡ is_free (connection_of connection.old) }
    ensures after { connection_of connection.new
        ≡ report_begun (connection_of connection.old) now size }
{
    let mut found = connection_from(connection);
    let begins = found.ends(now, size);
    *connection = connection_to(&found);
    begins
}

/// Reports that `size` bytes were sent.
#[unsafe(no_mangle)]
pub extern "C" fn rtr_connection_sent(connection: &mut RtrConnection, now: u64, size: usize) -> bool
    ensures within { result ≡ true → size ≤ connection.old.unsent }
    ensures above { result ≡ false → connection.old.unsent < size }
    ensures after { connection_of connection.new ≡ sent (connection_of connection.old) now size }
{
    let mut found = connection_from(connection);
    let within = found.sent(now, size);
    *connection = connection_to(&found);
    within
}

/// The host's next action, and the limit that ends the connection, if one does.
#[unsafe(no_mangle)]
pub extern "C" fn rtr_connection_next(
    connection: &RtrConnection,
    now: u64,
    cache: &RtrCache,
    present: &RtrPresent,
    number: u64,
    cut: &mut u8,
) -> u8
    ensures step { result ≡ step_number (next_at (connection_of connection.now) now
        (cache_of cache.now) (present_of present.now) number) }
    ensures cut { cut.new ≡ cut_number (cut_told (next_at (connection_of connection.now) now
        (cache_of cache.now) (present_of present.now) number)) }
{
    let found = connection_from(connection);
    let next = found.next(now, &cache_from(cache), &present_from(present), number);
    *cut = cut_to(next);
    step_to(next)
}

/// When to call `rtr_connection_next`, if nothing happens before.
#[unsafe(no_mangle)]
pub extern "C" fn rtr_connection_wakes(
    connection: &RtrConnection,
    cache: &RtrCache,
    present: &RtrPresent,
) -> u64
    ensures { result ≡ connection_wakes_at (connection_of connection.now) (cache_of cache.now)
        (present_of present.now) }
{
    connection_from(connection).wakes(&cache_from(cache), &present_from(present))
}
