//! Texts of refusals.

ghost use Rattle.std.specs.Prelude.{◌≡◌, ◌≤◌, ◌+◌, ◌++◌, decimal, length};
ghost use Rattle.text_lines.specs.Laying.{Lays};
ghost use Rattle.unit_views.specs.Placing.{Places};
ghost use Rattle.unit_any.specs.HeldReports.{held_report};
ghost use Rattle.session_bytes.specs.Sent.{refusal_name, refusal_text};

use crate::refusal::Refusal;
use rtr_base::error_code::ErrorCode;
use text_lines::laying;
use unit_any::placing::place_report;

/// A buffer length that is greater than that of the longest text.
const ROOM: usize = 64;

/// Writes the report with this version and error code about this part of a refused unit, with the
/// text of the refusal, to the front of the output, as `place_report`.
pub(crate) fn place_refusal(
    version: u8,
    code: ErrorCode,
    unit: &[u8],
    refusal: Refusal,
    output: &mut [u8],
) -> Option<usize>
    ensures { Places result (held_report version code.0 unit.now (refusal_text refusal))
        output.old output.new }
{
    let mut room = [0; ROOM];
    let end = refusal.lay(&mut room, 0);
    let (text, _) = room.split_at(end);
    place_report(version, code, unit, text, output)
}

impl Refusal {
    /// The text of the refusal, without its number and the part of the rule that is broken.
    pub fn name(self) -> &'static str
        ensures { result.now ≡ refusal_name self }
    {
        self.fault().name()
    }

    /// Writes the text of the refusal, which a report has too, to the output from offset `at` on,
    /// as much of it as fits, and returns the offset of its end.
    pub fn lay(self, output: &mut [u8], at: usize) -> usize
        ensures laid { Lays (refusal_text self) at output.old result output.new }
        ensures short { length (refusal_text self) ≤ 64 }
    {
        match self {
            Refusal::UnitType(kind) => {
                around(output, at, "unit type ", kind, " is not allowed here")
            }
            Refusal::UnitVersion(version) => {
                around(output, at, "version ", version, " is not supported here")
            }
            Refusal::Prefix(Some(rule)) => laying::bytes(output, at, rule.text()),
            _ => laying::text(output, at, self.name()),
        }
    }
}

/// Writes a number between two texts.
fn around(output: &mut [u8], at: usize, before: &str, number: u8, after: &str) -> usize
    ensures laid { Lays (before.now ++ decimal number ++ after.now) at output.old result
        output.new }
    ensures short { length (before.now ++ decimal number ++ after.now)
        ≤ length before.now + 3 + length after.now }
{
    let at = laying::labelled(output, at, before, number as u64);
    laying::text(output, at, after)
}
