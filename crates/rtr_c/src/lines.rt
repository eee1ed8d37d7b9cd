//! Lines of units, as the programs print them.

ghost use Rattle.std.specs.Prelude.{◌≡◌, ◌≤◌, ℕ, List, Option, Some, Ok, Result, IfOk, IfErr};
ghost use Rattle.std.specs.Prelude.{length, take};
ghost use Rattle.unit_views.specs.declared.fault.ViewFault.{ViewFault};
ghost use Rattle.unit_any.specs.Lengths.{SaysLength};
ghost use Rattle.text_lines.specs.JsonLines.{unit_json};
ghost use Rattle.text_lines.specs.PayloadLines.{change_json};
ghost use Rattle.text_lines.specs.TextLines.{change_text, unit_text};
ghost use Rattle.rtr_c.specs.LineAnswers.{TellsLine, line_status, no_line};
ghost use Rattle.rtr_c.specs.PrivateLines.{IsUnitOf, TellsRefusal};

use crate::answer::{ACCEPTED, NO_ROOM, SHORT, fault_detail, fault_status};
use rtr_units::header::HEADER_SIZE;
use text_lines::{describe, describe_change, describe_change_json, describe_json, listed_unit};
use unit_any::length::unit_length;

/// The result of a call that writes a line or an object.
#[repr(C)]
#[derive(Drop)]
pub struct RtrLine {
    /// Bytes of the unit in the input.
    pub size: usize,
    /// Bytes of the whole line, even if the output is shorter.
    pub length: usize,
    /// After RTR_SHORT, the least number of input bytes needed, as in an rtr_unit; else 0.
    pub wanted: usize,
    /// The result of the call, an rtr_status, which the call returns too.
    pub status: u8,
    /// The detail of the status, as in an rtr_answer.
    pub detail: u8,
}

// The fields stand one after the other, and six bytes are left at the end.
const _: () = prove!(size_of::<RtrLine>() == 32);

/// Writes the line that `rtr_list` prints of the first unit of the input, which is at `offset`,
/// without its newline, to the front of the output, as much of it as fits. If the line is longer,
/// the status is `NO_ROOM`; `length` is the length of the line.
///
/// Statuses before it, with nothing written: those of `rtr_unit_size`, and `SHORT` if the unit is
/// incomplete.
#[unsafe(no_mangle)]
pub extern "C" fn rtr_line_nonnull(
    input: &[u8],
    offset: u64,
    output: &mut [u8],
    answer: &mut RtrLine,
) -> u8
    ensures { (r : Result (Option ℕ) ViewFault) × SaysLength input.now r
        × TellsLine (unit_text offset) r input.now output.old output.new answer.new result }
{
    let unit = match first_unit(input) {
        Ok(unit) => unit,
        Err(refusal) => {
            *answer = refusal;
            return answer.status;
        }
    };
    let room = output.len();
    let length = describe(output, 0, offset, &listed_unit(unit));
    *answer = written(unit.len(), length, room);
    answer.status
}

/// Writes the JSON object that `rtr_list --json` prints of the first unit of the input, which is at
/// `offset`, without its newline. Otherwise as `rtr_line_nonnull`.
#[unsafe(no_mangle)]
pub extern "C" fn rtr_json_nonnull(
    input: &[u8],
    offset: u64,
    output: &mut [u8],
    answer: &mut RtrLine,
) -> u8
    ensures { (r : Result (Option ℕ) ViewFault) × SaysLength input.now r
        × TellsLine (unit_json offset) r input.now output.old output.new answer.new result }
{
    let unit = match first_unit(input) {
        Ok(unit) => unit,
        Err(refusal) => {
            *answer = refusal;
            return answer.status;
        }
    };
    let room = output.len();
    let length = describe_json(output, 0, offset, &listed_unit(unit));
    *answer = written(unit.len(), length, room);
    answer.status
}

/// Writes the line of the change of the unit at the front of the input, as `rtr_diff` prints it,
/// without its newline; nothing for a unit without a payload. Otherwise as `rtr_line_nonnull`.
#[unsafe(no_mangle)]
pub extern "C" fn rtr_change_line_nonnull(
    input: &[u8],
    output: &mut [u8],
    answer: &mut RtrLine,
) -> u8
    ensures { (r : Result (Option ℕ) ViewFault) × SaysLength input.now r
        × TellsLine change_text r input.now output.old output.new answer.new result }
{
    let unit = match first_unit(input) {
        Ok(unit) => unit,
        Err(refusal) => {
            *answer = refusal;
            return answer.status;
        }
    };
    let room = output.len();
    let length = describe_change(output, 0, &listed_unit(unit));
    *answer = written(unit.len(), length, room);
    answer.status
}

/// Writes the JSON object of the change of the unit at the front of the input, as `rtr_diff --json`
/// prints it; nothing for a unit without a payload. Otherwise as `rtr_line_nonnull`.
#[unsafe(no_mangle)]
pub extern "C" fn rtr_change_json_nonnull(
    input: &[u8],
    output: &mut [u8],
    answer: &mut RtrLine,
) -> u8
    ensures { (r : Result (Option ℕ) ViewFault) × SaysLength input.now r
        × TellsLine change_json r input.now output.old output.new answer.new result }
{
    let unit = match first_unit(input) {
        Ok(unit) => unit,
        Err(refusal) => {
            *answer = refusal;
            return answer.status;
        }
    };
    let room = output.len();
    let length = describe_change_json(output, 0, &listed_unit(unit));
    *answer = written(unit.len(), length, room);
    answer.status
}

/// The unit at the front of the input, or the answer if there is none.
pub(crate) fn first_unit(input: &[u8]) -> Result<&[u8], RtrLine>
    ensures unit { IfOk result (λ u. IsUnitOf input.now u.now) }
    ensures refusal { IfErr result (TellsRefusal input.now) }
{
    match unit_length(input) {
        Ok(Some(size)) => {
            if size > input.len() {
                return Err(refused(SHORT, 0, size));
            }
            Ok(&input[..size])
        }
        Ok(None) => Err(refused(SHORT, 0, HEADER_SIZE)),
        Err(fault) => Err(refused(fault_status(&fault), fault_detail(&fault), 0)),
    }
}

/// The answer if there is no line.
pub(crate) fn refused(status: u8, detail: u8, wanted: usize) -> RtrLine
    ensures { result ≡ no_line status detail wanted }
{
    RtrLine {
        size: 0,
        length: 0,
        wanted,
        status,
        detail,
    }
}

/// The answer for a line of this length, of a unit of this size, in an output of this length.
fn written(size: usize, length: usize, room: usize) -> RtrLine
    ensures { result ≡ record {
      size = size;
      length = length;
      wanted = 0;
      status = line_status length room;
      detail = 0;
    } }
{
    RtrLine {
        size,
        length,
        wanted: 0,
        status: room_status(length, room),
        detail: 0,
    }
}

/// The status of a text of this length in an output of this length.
pub(crate) fn room_status(length: usize, room: usize) -> u8
    ensures { result ≡ line_status length room }
{
    if length <= room { ACCEPTED } else { NO_ROOM }
}
