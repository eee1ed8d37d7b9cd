//! The fields of a prefix unit, as numbers.

ghost use Rattle.std.specs.Prelude.{◌≡◌, ℕ, ◌+◌, ◌-◌, ◌*◌, ◌%◌, ◌^◌, ◌<◌, ◌≤◌, ◌↔◌, IsTrue};
ghost use Rattle.std.specs.Prelude.{length};
ghost use Rattle.rtr_base.specs.Addresses.{v4, v6, width, cleared, family_of};
ghost use Rattle.rtr_units.specs.PrefixUnits.{prefix_size};
ghost use Rattle.data_validation.specs.Validity.{Covers, first_bits};
ghost use Rattle.data_validation.specs.PrivateCovering.{IsOriginOfVrp};
ghost use Rattle.data_validation.specs.PrivateTable.{IsClear, parts_of, route};
ghost use Rattle.data_validation.specs.Tables.{vrp_at, vrp_of};

use rtr_base::addr::{MaxLenPrefix, Prefix};
use rtr_base::asn::Asn;
use rtr_payload::payload::RouteOrigin;
use rtr_units::numbers::{u32_at, u128_at};

/// A route origin that is validated (a VRP).
#[derive(Clone, Copy)]
pub(crate) struct Vrp {
    /// The address of its prefix, whose host bits are zero.
    pub(crate) address: u128,
    /// The length of its prefix.
    pub(crate) len: u8,
    /// The longest prefix length that may be announced.
    pub(crate) max_len: u8,
    /// The number of the AS.
    pub(crate) asn: u32,
}

/// The number of bits of an address.
#[inline(always)]
pub(crate) fn width_of(is_v4: bool) -> u8
    ensures { result ≡ width (family_of is_v4) }
{
    if is_v4 { 32 } else { 128 }
}

/// The number of bytes of a unit.
#[inline(always)]
pub(crate) fn unit_size(is_v4: bool) -> usize
    ensures { result ≡ prefix_size (family_of is_v4) }
{
    if is_v4 { 20 } else { 32 }
}

/// The address with all bits after the first `len` cleared.
#[inline(always)]
pub(crate) fn clear_after(is_v4: bool, len: u8, address: u128) -> u128
    requires { address < 2 ^ width (family_of is_v4) }
    ensures cleared { result ≡ cleared (width (family_of is_v4)) len address }
    ensures below { result ≤ address }
{
    let width = width_of(is_v4);
    if len >= width {
        return address;
    }
    if len == 0 {
        return 0;
    }
    if is_v4 {
        // In 64 bits the step fits, and it is quicker.
        let short = address as u64;
        return u128::from(short - short % (1 << (32 - len)));
    }
    address - address % (1 << (width - len))
}

/// The VRP of the unit at this index.
#[inline(always)]
pub(crate) fn vrp_at(units: &[u8], is_v4: bool, index: usize) -> Vrp
    requires { (index + 1) * prefix_size (family_of is_v4) ≤ length units.now }
    ensures parts { parts_of (family_of is_v4) result ≡ vrp_at (family_of is_v4) units.now index }
    ensures clear { IsClear (parts_of (family_of is_v4) result) }
    ensures range { result.address < 2 ^ width (family_of is_v4) }
{
    if is_v4 {
        vrp_of_v4(&units[index * 20..index * 20 + 20])
    } else {
        vrp_of_v6(&units[index * 32..index * 32 + 32])
    }
}

/// The VRP of an IPv4 unit.
#[inline(always)]
#[tactic(auto, unfolding(crate::specs::Tables::vrp_of))]
fn vrp_of_v4(unit: &[u8]) -> Vrp
    requires { length unit.now ≡ 20 }
    ensures parts { parts_of v4 result ≡ vrp_of v4 unit.now }
    ensures clear { IsClear (parts_of v4 result) }
    ensures range { result.address < 2 ^ 32 }
{
    let len = unit[9];
    Vrp {
        address: clear_after(true, len, u128::from(u32_at(unit, 12))),
        len,
        max_len: unit[10],
        asn: u32_at(unit, 16),
    }
}

/// The VRP of an IPv6 unit.
#[inline(always)]
#[tactic(auto, unfolding(crate::specs::Tables::vrp_of))]
fn vrp_of_v6(unit: &[u8]) -> Vrp
    requires { length unit.now ≡ 32 }
    ensures parts { parts_of v6 result ≡ vrp_of v6 unit.now }
    ensures clear { IsClear (parts_of v6 result) }
    ensures range { result.address < 2 ^ 128 }
{
    let len = unit[9];
    Vrp {
        address: clear_after(false, len, u128_at(unit, 12)),
        len,
        max_len: unit[10],
        asn: u32_at(unit, 28),
    }
}

/// The beginning of a unit's prefix.
#[derive(Clone, Copy)]
pub(crate) struct Front {
    /// The first byte of the address.
    pub(crate) byte: u8,
    /// The length.
    pub(crate) len: u8,
}

/// The beginning of the prefix of the unit at this index. Host bits in the first byte aren't
/// cleared: with a length of at least eight there are none.
#[inline(always)]
pub(crate) fn front_at(units: &[u8], is_v4: bool, index: usize) -> Front
    requires { (index + 1) * prefix_size (family_of is_v4) ≤ length units.now }
    ensures len { result.len ≡ (vrp_at (family_of is_v4) units.now index).prefix_len }
    ensures byte { 8 ≤ result.len → result.byte ≡ first_bits (width (family_of is_v4)) 8
        (vrp_at (family_of is_v4) units.now index).address }
{
    if is_v4 {
        front_of_v4(&units[index * 20..index * 20 + 20])
    } else {
        front_of_v6(&units[index * 32..index * 32 + 32])
    }
}

/// The beginning of the prefix with this length and address.
#[inline(always)]
fn beginning(is_v4: bool, len: u8, address: u128) -> Front
    requires { address < 2 ^ width (family_of is_v4) }
    ensures len { result.len ≡ len }
    ensures byte { 8 ≤ len → result.byte ≡ first_bits (width (family_of is_v4)) 8
        (cleared (width (family_of is_v4)) len address) }
{
    let byte = first_byte(is_v4, address);
    Front { byte, len }
}

/// The beginning of the prefix of an IPv4 unit.
#[inline(always)]
#[tactic(auto, unfolding(crate::specs::Tables::vrp_of))]
fn front_of_v4(unit: &[u8]) -> Front
    requires { length unit.now ≡ 20 }
    ensures len { result.len ≡ (vrp_of v4 unit.now).prefix_len }
    ensures byte { 8 ≤ result.len → result.byte
        ≡ first_bits (width v4) 8 (vrp_of v4 unit.now).address }
{
    beginning(true, unit[9], u128::from(u32_at(unit, 12)))
}

/// The beginning of the prefix of an IPv6 unit.
#[inline(always)]
#[tactic(auto, unfolding(crate::specs::Tables::vrp_of))]
fn front_of_v6(unit: &[u8]) -> Front
    requires { length unit.now ≡ 32 }
    ensures len { result.len ≡ (vrp_of v6 unit.now).prefix_len }
    ensures byte { 8 ≤ result.len → result.byte
        ≡ first_bits (width v6) 8 (vrp_of v6 unit.now).address }
{
    beginning(false, unit[9], u128_at(unit, 12))
}

/// Whether the VRP covers the route of this prefix.
#[inline(always)]
pub(crate) fn covers(is_v4: bool, vrp: Vrp, address: u128, len: u8) -> bool
    requires clear { IsClear (parts_of (family_of is_v4) vrp) }
    requires address { address < 2 ^ width (family_of is_v4) }
    ensures { IsTrue result ↔ Covers (parts_of (family_of is_v4) vrp)
        (route (family_of is_v4) address len) }
{
    vrp.len <= len && clear_after(is_v4, vrp.len, address) == vrp.address
}

/// The VRP as an origin, unless its lengths are invalid.
#[inline(always)]
pub(crate) fn origin_of(is_v4: bool, vrp: Vrp) -> Option<RouteOrigin>
    requires clear { IsClear (parts_of (family_of is_v4) vrp) }
    requires address { vrp.address < 2 ^ width (family_of is_v4) }
    ensures { IsOriginOfVrp result (parts_of (family_of is_v4) vrp) }
{
    let prefix = if is_v4 {
        Prefix::from_v4_bits(vrp.address as u32, vrp.len)
    } else {
        Prefix::from_v6_bits(vrp.address, vrp.len)
    };
    let prefix = MaxLenPrefix::new(prefix.ok()?, Some(vrp.max_len)).ok()?;
    Some(RouteOrigin::new(prefix, Asn::from_u32(vrp.asn)))
}

/// The first byte of an address.
#[inline(always)]
pub(crate) fn first_byte(is_v4: bool, address: u128) -> u8
    requires { address < 2 ^ width (family_of is_v4) }
    ensures { result ≡ first_bits (width (family_of is_v4)) 8 address }
{
    if is_v4 {
        ((address as u64) >> 24) as u8
    } else {
        (address >> 120) as u8
    }
}

/// The number of first bits that two addresses share. The caller checks the number, so that no
/// proof depends on how it was computed.
#[inline(always)]
fn equal_bits(is_v4: bool, left: u128, right: u128) -> u8
    ensures { result ≤ width (family_of is_v4) }
{
    let width = width_of(is_v4);
    let zeros = ((left ^ right).leading_zeros() as u8).saturating_sub(128 - width);
    if zeros < width { zeros } else { width }
}

/// A number of bits that is at least the number of first bits that two addresses share.
#[inline(always)]
pub(crate) fn shared(is_v4: bool, left: u128, right: u128) -> u8
    ensures { (l : ℕ) → l ≤ width (family_of is_v4)
        → first_bits (width (family_of is_v4)) l left ≡ first_bits (width (family_of is_v4)) l right
        → l ≤ result }
{
    let width = width_of(is_v4);
    let bits = equal_bits(is_v4, left, right);
    if bits == width {
        return width;
    }
    let step = width - bits - 1;
    if left >> step == right >> step {
        return width;
    }
    bits
}

/// A number of first bits that two addresses share.
#[inline(always)]
pub(crate) fn agreed(is_v4: bool, left: u128, right: u128) -> u8
    requires left { left < 2 ^ width (family_of is_v4) }
    requires right { right < 2 ^ width (family_of is_v4) }
    ensures { first_bits (width (family_of is_v4)) result left
        ≡ first_bits (width (family_of is_v4)) result right }
{
    let bits = equal_bits(is_v4, left, right);
    if bits == 0 {
        return 0;
    }
    let step = width_of(is_v4) - bits;
    if left >> step == right >> step {
        bits
    } else {
        0
    }
}
