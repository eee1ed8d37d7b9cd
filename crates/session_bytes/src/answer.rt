//! Writes the answers of a cache's machine, except data and changes.

ghost use Rattle.std.specs.Prelude.{◌≡◌};
ghost use Rattle.session_bytes.specs.Answered.{PlacesOpening, PlacesServed, about_reason};
ghost use Rattle.session_bytes.specs.Answered.{closing_text};
ghost use Rattle.unit_any.specs.HeldReports.{held_report};
ghost use Rattle.unit_views.specs.Placing.{Places};

use crate::refusal::{Refusal, part, unit_of};
use crate::saying::place_refusal;
use rtr_base::error_code::ErrorCode;
use rtr_base::state::{Serial, State};
use rtr_units::queries::{CacheReset, CacheResponse, SerialNotify};
use session_cache::event::{Answer, OwedReport, Present, Reason};
use unit_any::placing::{place_report, place_unit};

/// The text of the report that the cache has no data yet (RFC 8210 section 8.4).
const NO_DATA: &str = "the cache has no data yet";

/// Writes the unit that this answer begins with, on a connection of this version, given the newest
/// data, to the front of the output, and returns its length in bytes: a cache response before data
/// and changes, or a cache reset, of 8 bytes; or a notify, of 12 (RFC 8210 sections 5.2, 5.5 and
/// 5.9). If the answer begins with another unit or none, or the output is too short, it returns
/// none and leaves the output unchanged.
pub fn place_opening(
    version: u8,
    answer: &Answer,
    present: &Present,
    output: &mut [u8],
) -> Option<usize>
    ensures { PlacesOpening version answer.now present.now result output.old output.new }
{
    let state = State::from_parts(present.session, Serial(present.serial));
    match answer {
        Answer::All | Answer::Changes(_) => {
            place_unit(&CacheResponse::new(version, state), output)
        }
        Answer::Reset => place_unit(&CacheReset::new(version), output),
        Answer::Notify => place_unit(&SerialNotify::new(version, state), output),
        Answer::Wait | Answer::NoData | Answer::End(_) => None,
    }
}

/// Writes the report that this answer owes the router (RFC 8210 section 5.11), on a connection of
/// this version, to the front of the output, and returns its length in bytes. If none is owed, or
/// the output is too short, it returns none and leaves the output unchanged; 65535 bytes always
/// suffice.
///
/// The report is about the unit at the front of `about`, and `refusal` is why it is refused, if it
/// is. A report that there are too many connections is about no unit.
pub fn place_owed(
    version: u8,
    answer: &Answer,
    refusal: Option<Refusal>,
    about: &[u8],
    output: &mut [u8],
) -> Option<usize>
    ensures { PlacesServed version answer.now refusal about.now result output.old output.new }
{
    match answer {
        Answer::NoData => place_report(
            version,
            ErrorCode::NO_DATA_AVAILABLE,
            unit_of(about),
            NO_DATA.as_bytes(),
            output,
        ),
        Answer::End(closing) => {
            let Some(owed) = closing.report else {
                return None;
            };
            place_closing(owed, closing.reason, refusal, about, output)
        }
        _ => None,
    }
}

/// Writes the report that is owed for an end with this reason, about a unit that may be refused.
fn place_closing(
    owed: OwedReport,
    reason: Reason,
    refusal: Option<Refusal>,
    about: &[u8],
    output: &mut [u8],
) -> Option<usize>
    ensures { Places result
        (held_report owed.version owed.code.0 (about_reason reason refusal about.now)
        (closing_text reason refusal)) output.old output.new }
{
    let OwedReport { version, code } = owed;
    let unit = about_reason(reason, refusal, about);
    match (reason, refusal) {
        (Reason::Faulty, Some(refusal)) => place_refusal(version, code, unit, refusal, output),
        _ => place_report(version, code, unit, reason.text().as_bytes(), output),
    }
}

/// Returns the part of the input that the report for an end with this reason copies.
fn about_reason(reason: Reason, refusal: Option<Refusal>, input: &[u8]) -> &[u8]
    ensures { result.now ≡ about_reason reason refusal input.now }
{
    match reason {
        Reason::Full => &[],
        _ => part(refusal, input),
    }
}
