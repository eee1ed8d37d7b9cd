//! Many units in one call.

ghost use Rattle.rtr_c.specs.ManyShown.{ShowsMany};

use crate::answer::ACCEPTED;
use crate::next::rtr_next_nonnull;
use crate::unit::RtrUnit;

/// Shows the units at the front of the input, each as `rtr_next_nonnull` does, until the output is
/// full or a unit can't be shown.
#[unsafe(no_mangle)]
pub extern "C" fn rtr_next_many_nonnull(
    input: &[u8],
    units: &mut [RtrUnit],
    count: &mut usize,
    taken: &mut usize,
) -> u8
    ensures { ShowsMany input.now units.old units.new count.new taken.new result }
{
    *count = 0;
    *taken = 0;
    for unit in units.iter_mut() {
        let status = rtr_next_nonnull(&input[*taken..], unit);
        if status != ACCEPTED {
            return status;
        }
        *count += 1;
        *taken += unit.size;
    }
    ACCEPTED
}
