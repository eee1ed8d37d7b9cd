//! Applying changes to data in the order in which they came.

ghost use Rattle.std.specs.Prelude.{◌≡◌, ◌≢◌, ◌+◌, ◌≤◌, ℕ, Result, length};
ghost use Rattle.data_slices.specs.InOrder.{AppliesInOrder};
ghost use Rattle.data_slices.specs.declared.in_order_fault.InOrderFault.{InOrderFault};
ghost use Rattle.rtr_c.specs.Answers.{rtr_no_room};
ghost use Rattle.rtr_c.specs.DataAnswers.{TellsData, in_order_told};

use crate::answer::{DUPLICATE, NO_INDEX, NO_ROOM, OTHER_SESSION, UNIT_VERSION, UNKNOWN};
use crate::data_answer::{FIRST, RtrDataAnswer, SECOND};
use data_slices::InOrderFault;

/// As `data_slices::apply_in_order`.
#[unsafe(no_mangle)]
pub extern "C" fn rtr_apply_in_order_nonnull(
    data: &[u8],
    changes: &[u8],
    index: &mut [usize],
    output: &mut [u8],
    answer: &mut RtrDataAnswer,
) -> u8
    ensures told { (r : Result ℕ InOrderFault)
        × AppliesInOrder r «data».now changes.now (length index.old) output.old output.new
        × TellsData (in_order_told r) answer.new result }
    ensures room { length «data».now + length changes.now ≤ length output.old →
        result ≢ rtr_no_room }
{
    *answer = match data_slices::apply_in_order(data, changes, index, output) {
        Ok(written) => RtrDataAnswer::wrote(written),
        Err(fault) => answer_of(&fault),
    };
    answer.status
}

/// The answer if the changes aren't applied.
fn answer_of(fault: &InOrderFault) -> RtrDataAnswer
    ensures { result ≡ in_order_told (Err fault.now) }
{
    match fault {
        InOrderFault::Data(flaw) => RtrDataAnswer::of_flaw(FIRST, flaw),
        InOrderFault::Changes(flaw) => RtrDataAnswer::of_flaw(SECOND, flaw),
        InOrderFault::UnitVersion(version) => RtrDataAnswer::refused(UNIT_VERSION, *version),
        InOrderFault::Session(_) => RtrDataAnswer::refused(OTHER_SESSION, 0),
        InOrderFault::NoIndex => RtrDataAnswer::refused(NO_INDEX, 0),
        InOrderFault::Duplicate { offset } => {
            RtrDataAnswer::refused_at(SECOND, *offset, DUPLICATE, 0)
        }
        InOrderFault::Unknown { offset } => RtrDataAnswer::refused_at(SECOND, *offset, UNKNOWN, 0),
        InOrderFault::NoRoom => RtrDataAnswer::refused(NO_ROOM, 0),
    }
}
