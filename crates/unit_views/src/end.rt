//! The end of data at the front of a slice (RFC 6810 and RFC 8210 section 5.8).

ghost use Rattle.std.specs.Prelude.{◌≡◌, ◌≤◌, length, IfOk, IfErr};
ghost use Rattle.rtr_units.specs.End.{IsEnd};
ghost use Rattle.rtr_units.specs.AnyEnd.{end_bytes, end_meaning};
ghost use Rattle.rtr_units.specs.Header.{type_field};
ghost use Rattle.unit_views.specs.Faults.{IsFirstFault};
ghost use Rattle.unit_views.specs.PrivateFirst.{IsFirstUnit};

use crate::fault::ViewFault;
use crate::front::first_unit;
use rtr_units::end::{EndOfData, EndOfDataV0, EndOfDataV1};
use rtr_units::header::LAST_VERSION;
use rtr_units::numbers::u32_at;
use rtr_units::unit::Unit;

/// The end of data at the front of the input.
///
/// Each version has its own copy of the code, since the units have different types, and `match` is
/// used where `?` costs instructions.
pub fn first_end(input: &[u8]) -> Result<EndOfData, ViewFault>
    requires header { 8 ≤ length input.now }
    requires kind { type_field input.now ≡ 7 }
    ensures unit { IfOk result (λ e. IsFirstUnit input.now (end_bytes e)) }
    ensures within { IfOk result (λ e. length (end_bytes e) ≤ length input.now) }
    ensures end { IfOk result (λ e. IsEnd (end_bytes e) (end_meaning e)) }
    ensures fault { IfErr result (λ e. IsFirstFault input.now e) }
{
    let version = input[0];
    let size = u32_at(input, 4);
    if version > LAST_VERSION {
        return Err(ViewFault::UnitVersion(version));
    }
    if version == 0 {
        if size != EndOfDataV0::size() {
            return Err(ViewFault::UnitLength);
        }
        match first_unit(input, EndOfDataV0::LENGTH) {
            Ok(unit) => Ok(EndOfData::V0(unit_of::<EndOfDataV0>(unit))),
            Err(e) => Err(e),
        }
    } else {
        if size != EndOfDataV1::size() {
            return Err(ViewFault::UnitLength);
        }
        match first_unit(input, EndOfDataV1::LENGTH) {
            Ok(unit) => Ok(EndOfData::V1(unit_of::<EndOfDataV1>(unit))),
            Err(e) => Err(e),
        }
    }
}

/// The unit of these bytes. `front::unit_of` does the same, but slows each unit down if it is
/// inlined here.
fn unit_of<U: Unit>(bytes: &[u8]) -> U
    requires { length bytes.now ≡ U.LENGTH }
    ensures { U.bytes result ≡ bytes.now }
{
    let mut unit = U::zero();
    unit.as_mut().copy_from_slice(bytes);
    unit
}
