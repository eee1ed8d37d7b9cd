//! The length of a unit, by its header alone.

ghost use Rattle.std.specs.Prelude.{◌≡◌, ℕ, Option, Result};
ghost use Rattle.rtr_units.specs.Header.{version_field, type_field};
ghost use Rattle.unit_views.specs.declared.fault.ViewFault.{ViewFault};
ghost use Rattle.unit_any.specs.Lengths.{SaysLength, IsBounded};
ghost use Rattle.rtr_c.specs.Sizes.{TellsSize};

use crate::answer::{ACCEPTED, SHORT, fault_detail, fault_status};
use rtr_units::header::HEADER_SIZE;
use unit_any::length::unit_length;

/// As `unit_any::length::unit_length`. If there are fewer bytes than those of a header, `size` is
/// the number that is wanted.
#[unsafe(no_mangle)]
pub extern "C" fn rtr_unit_size_nonnull(input: &[u8], size: &mut usize, detail: &mut u8) -> u8
    ensures says { (r : Result (Option ℕ) ViewFault) × SaysLength input.now r
        × TellsSize r size.new detail.new result }
    ensures bounded { result ≡ 0 →
        IsBounded (version_field input.now) (type_field input.now) size.new }
{
    let (status, length, refused) = match unit_length(input) {
        Ok(Some(length)) => (ACCEPTED, length, 0),
        Ok(None) => (SHORT, HEADER_SIZE, 0),
        Err(fault) => (fault_status(&fault), 0, fault_detail(&fault)),
    };
    *size = length;
    *detail = refused;
    status
}
