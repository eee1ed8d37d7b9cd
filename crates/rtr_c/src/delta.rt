//! The delta between two data.

ghost use Rattle.std.specs.Prelude.{◌≡◌, ◌≢◌, ◌+◌, ◌≤◌, ℕ, Result, length};
ghost use Rattle.data_slices.specs.Delta.{Deltas};
ghost use Rattle.data_slices.specs.declared.fault.DeltaFault.{DeltaFault};
ghost use Rattle.rtr_c.specs.Answers.{rtr_no_room};
ghost use Rattle.rtr_c.specs.DataAnswers.{TellsData, delta_told};

use crate::answer::{NO_ROOM, OTHER_SESSION, UNIT_VERSION};
use crate::data_answer::{FIRST, RtrDataAnswer, SECOND};
use data_slices::DeltaFault;

/// As `data_slices::delta_into`.
#[unsafe(no_mangle)]
pub extern "C" fn rtr_delta_nonnull(
    old_data: &[u8],
    new_data: &[u8],
    output: &mut [u8],
    answer: &mut RtrDataAnswer,
) -> u8
    ensures told { (r : Result ℕ DeltaFault)
        × Deltas r old_data.now new_data.now output.old output.new
        × TellsData (delta_told r) answer.new result }
    ensures room { length old_data.now + length new_data.now ≤ length output.old →
        result ≢ rtr_no_room }
{
    *answer = match data_slices::delta_into(old_data, new_data, output) {
        Ok(written) => RtrDataAnswer::wrote(written),
        Err(fault) => answer_of(&fault),
    };
    answer.status
}

/// The answer if there is no delta.
pub(crate) fn answer_of(fault: &DeltaFault) -> RtrDataAnswer
    ensures { result ≡ delta_told (Err fault.now) }
{
    match fault {
        DeltaFault::Old(flaw) => RtrDataAnswer::of_flaw(FIRST, flaw),
        DeltaFault::New(flaw) => RtrDataAnswer::of_flaw(SECOND, flaw),
        DeltaFault::UnitVersion(version) => RtrDataAnswer::refused(UNIT_VERSION, *version),
        DeltaFault::Session(_) => RtrDataAnswer::refused(OTHER_SESSION, 0),
        DeltaFault::NoRoom => RtrDataAnswer::refused(NO_ROOM, 0),
    }
}
