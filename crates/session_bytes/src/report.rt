//! The report that the end of a connection owes the cache.

ghost use Rattle.unit_views.specs.Placing.{Places};
ghost use Rattle.unit_any.specs.HeldReports.{held_report};
ghost use Rattle.session_bytes.specs.Sent.{PlacesEnding, ending_text};

use crate::refusal::{Refusal, part};
use crate::saying::place_refusal;
use rtr_base::error_code::ErrorCode;
use session_router::event::{Cause, Ending};
use unit_any::placing::place_report;

/// Writes the report that this ending owes the cache (RFC 8210 section 5.11) to the front of the
/// output, and returns its length in bytes. If none is owed, or the output is too short, it returns
/// none and leaves the output unchanged; 65535 bytes always suffice.
///
/// The report is of the version of the connection, about the unit at the front of `about`;
/// `refusal` is why it is refused, if it is. Its text is that of the cause, or of the refusal.
pub fn place_ending(
    version: u8,
    ending: &Ending,
    refusal: Option<Refusal>,
    about: &[u8],
    output: &mut [u8],
) -> Option<usize>
    ensures { PlacesEnding version ending.now refusal about.now result output.old output.new }
{
    let Some(code) = ending.report else {
        return None;
    };
    let unit = part(refusal, about);
    place_cause(version, code, unit, ending.cause, refusal, output)
}

/// Writes the report with this version and error code about this part of a unit, for this cause. If
/// a unit or a change is refused, `refusal` is why.
fn place_cause(
    version: u8,
    code: ErrorCode,
    unit: &[u8],
    cause: Cause,
    refusal: Option<Refusal>,
    output: &mut [u8],
) -> Option<usize>
    ensures { Places result (held_report version code.0 unit.now (ending_text cause refusal))
        output.old output.new }
{
    match (cause, refusal) {
        (Cause::Faulty | Cause::NotApplied, Some(refusal)) => {
            place_refusal(version, code, unit, refusal, output)
        }
        _ => place_report(version, code, unit, cause.text().as_bytes(), output),
    }
}
