//! Units at the front of a slice.

ghost use Rattle.std.specs.Prelude.{◌≡◌, ◌≤◌, ◌<◌, None, length, IfOk, IfErr};
ghost use Rattle.rtr_units.specs.Header.{length_field};
ghost use Rattle.rtr_payload.specs.FaultSteps.{header_step};
ghost use Rattle.unit_views.specs.Faults.{IsFirstFault};
ghost use Rattle.unit_views.specs.PrivateFirst.{IsFirstUnit};

use crate::fault::ViewFault;
use rtr_units::numbers::u16_at;
use rtr_units::unit::Unit;

/// The size in the header at the front of the input, or `TooLong` if it is above 65535.
#[inline(always)]
pub fn size_at(input: &[u8]) -> Result<usize, ViewFault>
    requires { 8 ≤ length input.now }
    ensures size { IfOk result (λ n. n ≡ length_field input.now) }
    ensures most { IfOk result (λ n. n ≤ 65535) }
    ensures long { IfErr result (λ e. (e ≡ ViewFault.TooLong) × (65535 < length_field input.now)) }
{
    if u16_at(input, 4) != 0 {
        return Err(ViewFault::TooLong);
    }
    Ok(usize::from(u16_at(input, 6)))
}

/// The unit at the front of the input, of `size` bytes by its header, or `Short`.
#[inline(always)]
pub fn first_unit(input: &[u8], size: usize) -> Result<&[u8], ViewFault>
    requires header { 8 ≤ length input.now }
    requires in_order { header_step input.now ≡ None }
    requires size { length_field input.now ≡ size }
    ensures unit { IfOk result (λ u. IsFirstUnit input.now u.now) }
    ensures within { IfOk result (λ u. size ≤ length input.now) }
    ensures fault { IfErr result (λ e. IsFirstFault input.now e) }
{
    if size > input.len() {
        return Err(ViewFault::Short);
    }
    let (unit, _) = input.split_at(size);
    Ok(unit)
}

/// The unit of a fixed size with these bytes.
#[inline(always)]
pub fn unit_of<U: Unit>(bytes: &[u8]) -> U
    requires { length bytes.now ≡ U.LENGTH }
    ensures { U.bytes result ≡ bytes.now }
{
    let mut unit = U::zero();
    unit.as_mut().copy_from_slice(bytes);
    unit
}
