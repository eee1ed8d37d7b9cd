//! Whether two sequences mean the same.

ghost use Rattle.std.specs.Prelude.{◌≡◌, ◌≤◌, Bool, Result, length};
ghost use Rattle.rtr_wire.specs.Comparison.{ComparesMeanings};
ghost use Rattle.rtr_wire.specs.declared.compare_slices.ComparisonFault.{ComparisonFault};
ghost use Rattle.rtr_c.specs.Compared.{TellsComparison, comparison_told, same_told, unit_refused};

use crate::answer::{ACCEPTED, fault_detail, fault_status};
use crate::data_answer::{FIRST, NEITHER, SECOND};
use crate::next::wanted;
use rtr_wire::pdu::ViewFault;
use rtr_wire::{ComparisonFault, Side, compare_meanings};

/// The result of a comparison.
#[repr(C)]
#[derive(Drop)]
pub struct RtrComparison {
    /// The offset of the unit at which the call stopped, in the input of `side`; 0 after RTR_OK.
    pub offset: usize,
    /// After RTR_SHORT, the least number of bytes of that input needed from `offset` on, as in an
    /// rtr_unit; else 0.
    pub wanted: usize,
    /// The result of the call, an rtr_status, which the call returns too.
    pub status: u8,
    /// An rtr_side: the input in which the call stopped; 0 after RTR_OK.
    pub side: u8,
    /// The detail of the status, as in an rtr_answer.
    pub detail: u8,
    /// Whether both inputs mean the same; false unless the status is RTR_OK.
    pub same: bool,
}

// The fields stand one after the other, and four bytes are left at the end.
const _: () = prove!(size_of::<RtrComparison>() == 24);

/// As `rtr_wire::compare_meanings`.
#[unsafe(no_mangle)]
pub extern "C" fn rtr_same_meaning_nonnull(
    left: &[u8],
    right: &[u8],
    limit: u64,
    answer: &mut RtrComparison,
) -> u8
    ensures { (r : Result Bool ComparisonFault) × ComparesMeanings limit r left.now right.now
        × TellsComparison (comparison_told r left.now right.now) answer.new result }
{
    *answer = match compare_meanings(left, right, limit) {
        Ok(same) => accepted(same),
        Err(refusal) => match refusal.side {
            Side::Left => refused(FIRST, refusal.offset, &refusal.fault, left),
            Side::Right => refused(SECOND, refusal.offset, &refusal.fault, right),
        },
    };
    answer.status
}

/// The answer if both inputs are accepted.
fn accepted(same: bool) -> RtrComparison
    ensures { result ≡ same_told same }
{
    RtrComparison {
        offset: 0,
        wanted: 0,
        status: ACCEPTED,
        side: NEITHER,
        detail: 0,
        same,
    }
}

/// The answer if this input is refused, for the unit at this offset.
fn refused(side: u8, offset: usize, fault: &ViewFault, input: &[u8]) -> RtrComparison
    requires { offset ≤ length input.now }
    ensures { result ≡ unit_refused side offset fault.now input.now }
{
    RtrComparison {
        offset,
        wanted: match fault {
            ViewFault::Short => wanted(&input[offset..]),
            _ => 0,
        },
        status: fault_status(fault),
        side,
        detail: fault_detail(fault),
        same: false,
    }
}
