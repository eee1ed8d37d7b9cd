//! Writing what a client sends.

ghost use Rattle.std.specs.Prelude.{◌≡◌, ◌≤◌, ◌+◌, length};
ghost use Rattle.session_client.specs.Said.{PutsBehind, bytes_of, left_at, report_bytes};
ghost use Rattle.session_bytes.specs.Sent.{query_bytes};
ghost use Rattle.unit_views.specs.Placing.{Places};

use session_bytes::refusal::Refusal;
use session_bytes::{place_ending, place_query};
use session_router::event::{Action, Ending};
use session_router::head::Query;
use unit_any::laws::placed_reports;

/// The greatest number of bytes that one action sends, which is that of an error report.
pub(crate) const MOST_SENT: usize = 65_535;

/// Appends the bytes that this action sends to the unsent ones: its query, or the report that it
/// owes, in this version, about the unit at the front of `about`, which may be refused for this
/// reason. An action that connects drops all unsent bytes of the previous connection.
pub(crate) fn put(
    version: u8,
    action: &Action,
    refusal: Option<Refusal>,
    about: &[u8],
    unsent: &mut usize,
    output: &mut [u8],
)
    requires { unsent.old + 65535 ≤ length output.old }
    ensures puts { PutsBehind (bytes_of version action.now refusal about.now)
        (left_at action.now unsent.old) unsent.new output.old output.new }
    ensures room { unsent.new ≤ length output.new }
{
    match action {
        Action::Connect => *unsent = 0,
        Action::Ask(query) => put_query(query, unsent, output),
        Action::End(ending) => put_report(version, ending, refusal, about, unsent, output),
        _ => {}
    }
}

fn put_query(query: &Query, unsent: &mut usize, output: &mut [u8])
    requires { unsent.old + 65535 ≤ length output.old }
    ensures { PutsBehind (query_bytes query.now) unsent.old unsent.new output.old output.new }
{
    let at = *unsent;
    match place_query(query, &mut output[at..]) {
        Some(size) => *unsent = at + size,
        None => {}
    }
}

fn put_report(
    version: u8,
    ending: &Ending,
    refusal: Option<Refusal>,
    about: &[u8],
    unsent: &mut usize,
    output: &mut [u8],
)
    requires { unsent.old + 65535 ≤ length output.old }
    ensures { PutsBehind (report_bytes version ending.now.report ending.now refusal about.now)
        unsent.old unsent.new output.old output.new }
{
    placed_reports();
    let at = *unsent;
    match place_owed(version, ending, refusal, about, &mut output[at..]) {
        Some(size) => *unsent = at + size,
        None => {}
    }
}

/// The report that an ending owes, or no bytes.
fn place_owed(
    version: u8,
    ending: &Ending,
    refusal: Option<Refusal>,
    about: &[u8],
    output: &mut [u8],
) -> Option<usize>
    ensures { Places result (report_bytes version ending.now.report ending.now refusal about.now)
        output.old output.new }
{
    match ending.report {
        None => Some(0),
        Some(_) => place_ending(version, ending, refusal, about, output),
    }
}
