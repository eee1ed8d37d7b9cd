//! Indexes into the prefix units of data.

ghost use Rattle.std.specs.Prelude.{◌≡◌, ℕ, ◌+◌, ◌-◌, ◌*◌, ◌%◌, ◌^◌, ◌<◌, ◌≤◌, ◌↔◌, IsTrue};
ghost use Rattle.std.specs.Prelude.{◌⊎◌, List, drop, length, slice_index};
ghost use Rattle.rtr_base.specs.Addresses.{family_of, v4, width};
ghost use Rattle.rtr_units.specs.PrefixUnits.{prefix_size, prefix_type};
ghost use Rattle.rtr_units.specs.Header.{type_field};
ghost use Rattle.data_validation.specs.Tables.{AreAtLeast, AreAtLeastBy, AreTables, IsStart};
ghost use Rattle.data_validation.specs.Tables.{IsUnitRun};
ghost use Rattle.data_validation.specs.PrivateTable.{AreSorted, IsTable, route};

use crate::table::bound_between;
use crate::vrp::{first_byte, front_at, unit_size};
use rtr_units::prefixes::{Ipv4Prefix, Ipv6Prefix};

/// Indexes into the prefix units of data: first those of IPv4, then those of IPv6. They take 2,328
/// bytes.
#[repr(C)]
#[derive(Clone, Copy, Debug)]
pub struct Tables {
    ipv4: usize,
    ipv6: usize,
    /// For each first byte, the index of the first IPv4 unit with such an address.
    starts: [usize; 256],
    /// The length of the shortest IPv4 prefix; 255 if there is none.
    shortest_ipv4: u8,
    /// The length of the shortest IPv6 prefix; 255 if there is none.
    shortest_ipv6: u8,
    /// For each first byte, the length of the shortest IPv4 prefix of at least eight bits.
    shortest: [u8; 256],
}

// The fields stand one after the other, and six bytes are left at the end.
const _: () = prove!(size_of::<Tables>() == 2328);

/// Bounds on the units that may cover a route, before any is read: none is shorter than `shortest`,
/// and the index after the last unit that isn't after the route is between `low` and `top`.
#[derive(Clone, Copy)]
pub(crate) struct Around {
    pub(crate) shortest: u8,
    pub(crate) low: usize,
    pub(crate) top: usize,
}

impl Tables {
    /// The tables of this data, computed in one pass over the prefix units and some 5,000 lookups.
    pub fn of(data: &[u8]) -> Self
        ensures { AreTables «data».now result }
    {
        let ipv4 = run_of(data, true);
        let ipv6 = run_of(after_ipv4(data, ipv4.count), false);
        let starts = starts_of(data, ipv4.count);
        let shortest = ipv4.lengths;
        Tables {
            ipv4: ipv4.count,
            ipv6: ipv6.count,
            starts,
            shortest_ipv4: ipv4.shortest,
            shortest_ipv6: ipv6.shortest,
            shortest,
        }
    }

    /// The number of IPv4 units.
    #[inline(always)]
    pub(crate) fn ipv4(&self) -> usize
        ensures { result ≡ self.now.ipv4 }
    {
        self.ipv4
    }

    /// The number of IPv6 units.
    #[inline(always)]
    pub(crate) fn ipv6(&self) -> usize
        ensures { result ≡ self.now.ipv6 }
    {
        self.ipv6
    }

    /// The length of the shortest IPv4 prefix, or less.
    #[inline(always)]
    pub(crate) fn shortest_ipv4(&self) -> u8
        ensures { result ≡ self.now.shortest_ipv4 }
    {
        self.shortest_ipv4
    }

    /// The length of the shortest IPv6 prefix, or less.
    #[inline(always)]
    pub(crate) fn shortest_ipv6(&self) -> u8
        ensures { result ≡ self.now.shortest_ipv6 }
    {
        self.shortest_ipv6
    }

    /// The bounds on the units that may cover an IPv4 route.
    #[inline(always)]
    pub(crate) fn around_ipv4(&self, address: u128) -> Around
        requires { address < 2 ^ 32 }
        ensures order { result.low ≤ result.top }
        ensures within { result.top ≤ self.now.ipv4 }
        ensures table { (b : List ℕ) → (len : ℕ) → len ≤ 32 → AreTables b self.now
            → AreSorted v4 b self.now.ipv4 → IsTable v4 b self.now.ipv4 result.shortest
            result.low result.top (route v4 address len) }
    {
        let byte = first_byte(true, address);
        let shortest = self.shortest_from(byte);
        let (low, top) = (self.start_at(byte), self.start_after(byte));
        if low <= top && top <= self.ipv4 {
            return Around { shortest, low, top };
        }
        Around {
            shortest,
            low: 0,
            top: self.ipv4,
        }
    }

    /// The length that no IPv4 prefix that covers an address with this first byte is shorter than.
    /// A prefix of less than eight bits may begin with another byte.
    #[inline(always)]
    fn shortest_from(&self, byte: u8) -> u8
        ensures { (result ≡ self.now.shortest_ipv4)
            ⊎ ((8 ≤ self.now.shortest_ipv4) × (result ≡ slice_index self.now.shortest byte)) }
    {
        if self.shortest_ipv4 < 8 {
            self.shortest_ipv4
        } else {
            self.shortest[usize::from(byte)]
        }
    }

    /// The index of the first IPv4 unit with this first byte.
    #[inline(always)]
    fn start_at(&self, byte: u8) -> usize
        ensures { result ≡ slice_index self.now.starts byte }
    {
        self.starts[usize::from(byte)]
    }

    /// The index of the first IPv4 unit with a greater first byte.
    #[inline(always)]
    fn start_after(&self, byte: u8) -> usize
        ensures { ((byte ≡ 255) × (result ≡ self.now.ipv4))
            ⊎ ((byte < 255) × (result ≡ slice_index self.now.starts (byte + 1))) }
    {
        if byte == 255 {
            self.ipv4
        } else {
            self.start_at(byte + 1)
        }
    }

    /// The bounds on the units that may cover an IPv6 route.
    #[inline(always)]
    pub(crate) fn around_ipv6(&self) -> Around
        ensures { result ≡
            record { shortest = self.now.shortest_ipv6; low = 0; top = self.now.ipv6 } }
    {
        Around {
            shortest: self.shortest_ipv6,
            low: 0,
            top: self.ipv6,
        }
    }
}

/// The type of the units of a family.
#[inline(always)]
fn type_of(is_v4: bool) -> u8
    ensures { result ≡ prefix_type (family_of is_v4) }
{
    if is_v4 {
        Ipv4Prefix::PDU
    } else {
        Ipv6Prefix::PDU
    }
}

/// Whether a header of the size and the type of the family is at the front.
#[inline(always)]
fn begins_with(rest: &[u8], is_v4: bool) -> bool
    ensures { IsTrue result ↔ ((prefix_size (family_of is_v4) ≤ length rest.now)
        × (type_field rest.now ≡ prefix_type (family_of is_v4))) }
{
    rest.len() >= unit_size(is_v4) && rest[1] == type_of(is_v4)
}

/// The rest after `count` IPv4 units.
#[inline(always)]
pub(crate) fn after_ipv4(input: &[u8], ipv4: usize) -> &[u8]
    requires { ipv4 * 20 ≤ length input.now }
    ensures { result.now ≡ drop (ipv4 * 20) input.now }
{
    &input[ipv4 * 20..]
}

/// Units of one family, and the bounds on their prefixes.
#[derive(Clone, Copy)]
struct Run {
    /// The number of units.
    count: usize,
    /// The length of the shortest prefix; 255 if there is none.
    shortest: u8,
    /// For each first byte, the length of the shortest prefix of at least eight bits.
    lengths: [u8; 256],
}

/// The units of the family at the front.
#[tactic(auto, using(crate::proofs::Bits::room_next))]
fn run_of(units: &[u8], is_v4: bool) -> Run
    ensures run { IsUnitRun (family_of is_v4) units.now result.count }
    ensures least { AreAtLeast (family_of is_v4) units.now result.count result.shortest }
    ensures lengths { AreAtLeastBy (family_of is_v4) units.now result.count result.lengths }
{
    let mut rest = units;
    let mut count = 0;
    let mut shortest = 255;
    let mut lengths = [255; 256];
    let size = unit_size(is_v4);
    'units: while begins_with(rest, is_v4) {
        let front = front_at(units, is_v4, count);
        shortest = at_most(front.len, shortest);
        lower(&mut lengths, front.byte, front.len);
        rest = &rest[size..];
        count += 1;
    }
    Run {
        count,
        shortest,
        lengths,
    }
}

/// The smaller of two lengths.
#[inline(always)]
fn at_most(left: u8, right: u8) -> u8
    ensures left { result ≤ left }
    ensures right { result ≤ right }
{
    if left < right { left } else { right }
}

/// Lowers the length for a byte to this length, if that is less.
#[inline(always)]
fn lower(lengths: &mut [u8; 256], byte: u8, len: u8)
    ensures here { slice_index lengths.new byte ≤ len }
    ensures all { (k : ℕ) → slice_index lengths.new k ≤ slice_index lengths.old k }
{
    let place = usize::from(byte);
    if len < lengths[place] {
        lengths[place] = len;
    }
}

/// The index of the first unit with each first byte, among the first `count` IPv4 units.
fn starts_of(units: &[u8], count: usize) -> [usize; 256]
    requires { count * 20 ≤ length units.now }
    ensures { (k : ℕ) → k < 256 → IsStart units.now count k (slice_index result k) }
{
    let mut starts = [0; 256];
    'bytes: for byte in 0..256 {
        starts[byte] = start_of(units, count, byte);
    }
    starts
}

/// The index of the first unit with this first byte, among the first `count` IPv4 units, by a
/// binary search.
fn start_of(units: &[u8], count: usize, byte: usize) -> usize
    requires room { count * 20 ≤ length units.now }
    requires byte { byte < 256 }
    ensures { IsStart units.now count byte result }
{
    if byte == 0 {
        return 0;
    }
    let before = (byte as u128) * (1 << 24) - 1;
    bound_between(units, true, 0, count, before, 255)
}
