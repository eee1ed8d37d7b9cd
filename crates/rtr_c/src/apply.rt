//! Applying changes to data.

ghost use Rattle.std.specs.Prelude.{◌≡◌, ◌≢◌, ◌+◌, ◌≤◌, ℕ, Result, length};
ghost use Rattle.data_slices.specs.Apply.{AppliesChanges};
ghost use Rattle.data_slices.specs.declared.fault.ApplyFault.{ApplyFault};
ghost use Rattle.rtr_c.specs.Answers.{rtr_no_room};
ghost use Rattle.rtr_c.specs.DataAnswers.{TellsData, apply_told};

use crate::answer::{DUPLICATE, NO_ROOM, OTHER_SESSION, UNIT_VERSION, UNKNOWN};
use crate::data_answer::{FIRST, RtrDataAnswer, SECOND};
use data_slices::ApplyFault;

/// As `data_slices::apply_into`.
#[unsafe(no_mangle)]
pub extern "C" fn rtr_apply_nonnull(
    data: &[u8],
    changes: &[u8],
    output: &mut [u8],
    answer: &mut RtrDataAnswer,
) -> u8
    ensures told { (r : Result ℕ ApplyFault)
        × AppliesChanges r «data».now changes.now output.old output.new
        × TellsData (apply_told r) answer.new result }
    ensures room { length «data».now + length changes.now ≤ length output.old →
        result ≢ rtr_no_room }
{
    *answer = match data_slices::apply_into(data, changes, output) {
        Ok(written) => RtrDataAnswer::wrote(written),
        Err(fault) => answer_of(&fault),
    };
    answer.status
}

/// The answer if the changes aren't applied.
fn answer_of(fault: &ApplyFault) -> RtrDataAnswer
    ensures { result ≡ apply_told (Err fault.now) }
{
    match fault {
        ApplyFault::Data(flaw) => RtrDataAnswer::of_flaw(FIRST, flaw),
        ApplyFault::Changes(flaw) => RtrDataAnswer::of_flaw(SECOND, flaw),
        ApplyFault::UnitVersion(version) => RtrDataAnswer::refused(UNIT_VERSION, *version),
        ApplyFault::Session(_) => RtrDataAnswer::refused(OTHER_SESSION, 0),
        ApplyFault::Duplicate { offset } => {
            RtrDataAnswer::refused_at(SECOND, *offset, DUPLICATE, 0)
        }
        ApplyFault::Unknown { offset } => RtrDataAnswer::refused_at(SECOND, *offset, UNKNOWN, 0),
        ApplyFault::NoRoom => RtrDataAnswer::refused(NO_ROOM, 0),
    }
}
