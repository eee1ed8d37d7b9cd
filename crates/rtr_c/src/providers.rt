//! The providers of an ASPA, one at a time.

ghost use Rattle.std.specs.Prelude.{◌≡◌};
ghost use Rattle.rtr_c.specs.WrittenUnits.{provider_said, TellsProvider};

use crate::unit::RtrUnit;
use crate::write::part_of;
use rtr_units::numbers::u32_at;
use rtr_wire::pdu::Aspa;

/// Whether the unit is an ASPA that has a provider of this index, from 0, in the input. Writes the
/// provider to `provider`, or 0 if there is none.
#[unsafe(no_mangle)]
pub extern "C" fn rtr_provider_nonnull(
    unit: &RtrUnit,
    input: &[u8],
    index: usize,
    provider: &mut u32,
) -> bool
    ensures { TellsProvider (provider_said unit.now input.now index) provider.new result }
{
    *provider = 0;
    if unit.kind != Aspa::PDU {
        return false;
    }
    let Some(providers) = part_of(unit, input) else {
        return false;
    };
    if index >= providers.len() / 4 {
        return false;
    }
    *provider = u32_at(providers, 4 * index);
    true
}
