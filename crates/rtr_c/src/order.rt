//! Putting changes in canonical form.

ghost use Rattle.std.specs.Prelude.{◌≡◌, ◌≢◌, ◌≤◌, ℕ, Result, length};
ghost use Rattle.data_slices.specs.Order.{Orders};
ghost use Rattle.data_slices.specs.declared.order_fault.OrderFault.{OrderFault};
ghost use Rattle.rtr_c.specs.Answers.{rtr_no_room};
ghost use Rattle.rtr_c.specs.DataAnswers.{TellsData, order_told};

use crate::answer::{DUPLICATE, NO_INDEX, NO_ROOM, UNDECIDED, UNKNOWN};
use crate::data_answer::{FIRST, RtrDataAnswer};
use data_slices::OrderFault;

/// As `data_slices::order_into`.
#[unsafe(no_mangle)]
pub extern "C" fn rtr_order_nonnull(
    input: &[u8],
    index: &mut [usize],
    output: &mut [u8],
    answer: &mut RtrDataAnswer,
) -> u8
    ensures told { (r : Result ℕ OrderFault)
        × Orders r input.now (length index.old) output.old output.new
        × TellsData (order_told r) answer.new result }
    ensures room { length input.now ≤ length output.old → result ≢ rtr_no_room }
{
    *answer = match data_slices::order_into(input, index, output) {
        Ok(written) => RtrDataAnswer::wrote(written),
        Err(fault) => answer_of(&fault),
    };
    answer.status
}

/// The answer if the changes can't be put in canonical form.
fn answer_of(fault: &OrderFault) -> RtrDataAnswer
    ensures { result ≡ order_told (Err fault.now) }
{
    match fault {
        OrderFault::Flaw(flaw) => RtrDataAnswer::of_flaw(FIRST, flaw),
        OrderFault::NoIndex => RtrDataAnswer::refused(NO_INDEX, 0),
        OrderFault::Duplicate { offset } => {
            RtrDataAnswer::refused_at(FIRST, *offset, DUPLICATE, 0)
        }
        OrderFault::Unknown { offset } => RtrDataAnswer::refused_at(FIRST, *offset, UNKNOWN, 0),
        OrderFault::Undecided { offset } => {
            RtrDataAnswer::refused_at(FIRST, *offset, UNDECIDED, 0)
        }
        OrderFault::NoRoom => RtrDataAnswer::refused(NO_ROOM, 0),
    }
}
