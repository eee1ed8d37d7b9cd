//! The changes between two data of any versions and sessions.

ghost use Rattle.std.specs.Prelude.{◌≡◌, ◌≢◌, ◌+◌, ◌≤◌, ℕ, Result, length};
ghost use Rattle.data_slices.specs.Delta.{ChangesBetween};
ghost use Rattle.data_slices.specs.declared.fault.DeltaFault.{DeltaFault};
ghost use Rattle.rtr_c.specs.Answers.{rtr_no_room};
ghost use Rattle.rtr_c.specs.DataAnswers.{TellsData, delta_told};

use crate::data_answer::RtrDataAnswer;
use crate::delta::answer_of;

/// As `data_slices::changes_between`.
#[unsafe(no_mangle)]
pub extern "C" fn rtr_changes_between_nonnull(
    old_data: &[u8],
    new_data: &[u8],
    output: &mut [u8],
    answer: &mut RtrDataAnswer,
) -> u8
    ensures told { (r : Result ℕ DeltaFault)
        × ChangesBetween r old_data.now new_data.now output.old output.new
        × TellsData (delta_told r) answer.new result }
    ensures room { length old_data.now + length new_data.now ≤ length output.old →
        result ≢ rtr_no_room }
{
    *answer = match data_slices::changes_between(old_data, new_data, output) {
        Ok(written) => RtrDataAnswer::wrote(written),
        Err(fault) => answer_of(&fault),
    };
    answer.status
}
