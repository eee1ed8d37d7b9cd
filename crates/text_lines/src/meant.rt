//! The meaning of a payload unit, as a unit that is listed.

ghost use Rattle.std.specs.Prelude.{◌≡◌, ◌++◌, [], codes};
ghost use Rattle.rtr_base.specs.Addresses.{cleared, v4, v6};
ghost use Rattle.rtr_units.specs.FixedUnits.{fixed_bytes};
ghost use Rattle.rtr_units.specs.PrefixUnits.{prefix_at};
ghost use Rattle.rtr_payload.specs.UnitFields.{prefix_unit};
ghost use Rattle.text_lines.specs.ListedUnits.{aspa_listed, key_listed, payload_listed};
ghost use Rattle.text_lines.specs.TextLines.{meant_fields};

use crate::listed::{ListedAspa, ListedKey, ListedPayload};
use rtr_base::action::Action;
use rtr_base::addr::Prefix;
use rtr_units::prefixes::{Ipv4Prefix, Ipv6Prefix};
use rtr_units::unit::Unit;

/// The written form of the unit: free bytes and the bits of an address after the prefix length are
/// 0, and a withdrawn ASPA has no providers.
pub(crate) fn meant<'a>(unit: &ListedPayload<'a>) -> ListedPayload<'a>
    ensures { payload_listed result ≡ meant_fields (payload_listed unit.now) }
{
    match unit {
        ListedPayload::V4(unit) => ListedPayload::V4(meant_ipv4(unit)),
        ListedPayload::V6(unit) => ListedPayload::V6(meant_ipv6(unit)),
        ListedPayload::RouterKey(key) => ListedPayload::RouterKey(meant_key(key)),
        ListedPayload::Aspa(aspa) => ListedPayload::Aspa(meant_aspa(aspa)),
    }
}

fn meant_ipv4(unit: &Ipv4Prefix) -> Ipv4Prefix
    ensures { prefix_unit (prefix_at v4 (fixed_bytes result)) ≡
        meant_fields (prefix_unit (prefix_at v4 (fixed_bytes unit.now))) }
{
    let (len, max_len, asn) = (unit.prefix_len(), unit.max_len(), unit.asn().into_u32());
    let bits = cleared_ipv4(unit.prefix_bits(), len);
    Ipv4Prefix::from_bits(unit.version(), unit.flags(), len, max_len, bits, asn)
}

fn meant_ipv6(unit: &Ipv6Prefix) -> Ipv6Prefix
    ensures { prefix_unit (prefix_at v6 (fixed_bytes result)) ≡
        meant_fields (prefix_unit (prefix_at v6 (fixed_bytes unit.now))) }
{
    let (len, max_len, asn) = (unit.prefix_len(), unit.max_len(), unit.asn().into_u32());
    let bits = cleared_ipv6(unit.prefix_bits(), len);
    Ipv6Prefix::from_bits(unit.version(), unit.flags(), len, max_len, bits, asn)
}

/// The address with the bits after the prefix length cleared.
fn cleared_ipv4(bits: u32, len: u8) -> u32
    ensures { result ≡ cleared 32 len bits }
{
    match Prefix::from_v4_bits(bits, len) {
        Ok(prefix) => prefix.bits() as u32,
        Err(_) => bits,
    }
}

/// The address with the bits after the prefix length cleared.
fn cleared_ipv6(bits: u128, len: u8) -> u128
    ensures { result ≡ cleared 128 len bits }
{
    match Prefix::from_v6_bits(bits, len) {
        Ok(prefix) => prefix.bits(),
        Err(_) => bits,
    }
}

fn meant_key<'a>(key: &ListedKey<'a>) -> ListedKey<'a>
    ensures { key_listed result ≡ meant_fields (key_listed key.now) }
{
    ListedKey { free: 0, ..*key }
}

fn meant_aspa<'a>(aspa: &ListedAspa<'a>) -> ListedAspa<'a>
    ensures { aspa_listed result ≡ meant_fields (aspa_listed aspa.now) }
{
    match Action::from_flags(aspa.flags) {
        Action::Announce => ListedAspa { free: 0, ..*aspa },
        Action::Withdraw => ListedAspa {
            free: 0,
            providers: &[],
            ..*aspa
        },
    }
}
