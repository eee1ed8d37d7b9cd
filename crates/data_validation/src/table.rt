//! Searching units of one family that are stored one after the other.

ghost use Rattle.std.specs.Prelude.{◌≡◌, ℕ, ◌+◌, ◌-◌, ◌*◌, ◌%◌, ◌^◌, ◌<◌, ◌≤◌, ◌↔◌, IsTrue};
ghost use Rattle.std.specs.Prelude.{length};
ghost use Rattle.data_validation.specs.Validity.{Covers};
ghost use Rattle.rtr_base.specs.Addresses.{width, cleared, family_of};
ghost use Rattle.rtr_units.specs.PrefixUnits.{prefix_size};
ghost use Rattle.data_validation.specs.PrivateTable.{FirstUnit, IsClear, IsNarrowed, IsNextPlace};
ghost use Rattle.data_validation.specs.PrivateTable.{IsPastShorter, IsTable, IsUpperBound};
ghost use Rattle.data_validation.specs.PrivateTable.{NoneBetween, OneSays};
ghost use Rattle.data_validation.specs.PrivateTable.{TableSays, answer_of, end_of, parts_of, route};
ghost use Rattle.data_validation.specs.Tables.{order_key, vrp_at};

use crate::tables::Around;
use crate::validity::Validity;
use crate::vrp::{Vrp, agreed, clear_after, covers, shared, vrp_at};

/// Whether one prefix isn't after another in the order of units.
#[inline(always)]
fn is_up_to(is_v4: bool, left: u128, left_len: u8, right: u128, right_len: u8) -> bool
    requires left { left < 2 ^ width (family_of is_v4) }
    requires right { right < 2 ^ width (family_of is_v4) }
    ensures { IsTrue result ↔ (left * 256 + left_len ≤ right * 256 + right_len) }
{
    if is_v4 {
        // One number of 64 bits each is compared without a branch.
        let low = (left as u64) * 256 + u64::from(left_len);
        let high = (right as u64) * 256 + u64::from(right_len);
        low <= high
    } else {
        left < right || (left == right && left_len <= right_len)
    }
}

/// Whether the prefix of a unit isn't after this one in the order of units.
#[inline(always)]
#[tactic(auto, unfolding(crate::specs::Tables::order_key))]
pub(crate) fn is_at_most(units: &[u8], is_v4: bool, index: usize, address: u128, len: u8) -> bool
    requires room { (index + 1) * prefix_size (family_of is_v4) ≤ length units.now }
    requires address { address < 2 ^ width (family_of is_v4) }
    ensures { IsTrue result ↔
        (order_key (vrp_at (family_of is_v4) units.now index) ≤ address * 256 + len) }
{
    let vrp = vrp_at(units, is_v4, index);
    is_up_to(is_v4, vrp.address, vrp.len, address, len)
}

/// The index of the first unit from `low` to `top` that is after a prefix, if they are in order, by
/// binary search.
#[inline(always)]
#[tactic(auto, using(crate::proofs::Bits::room_at))]
pub(crate) fn bound_between(
    units: &[u8],
    is_v4: bool,
    low: usize,
    top: usize,
    address: u128,
    len: u8,
) -> usize
    requires room { top * prefix_size (family_of is_v4) ≤ length units.now }
    requires address { address < 2 ^ width (family_of is_v4) }
    requires order { low ≤ top }
    ensures { IsUpperBound (family_of is_v4) units.now low top (address * 256 + len) result }
{
    let (mut left, mut right) = (low, top);
    'halves: while left < right {
        let middle = left + (right - left) / 2;
        if is_at_most(units, is_v4, middle, address, len) {
            left = middle + 1;
        } else {
            right = middle;
        }
    }
    left
}

/// The same from the first unit to `top`, for an index that isn't far below `top`, by doubling
/// steps and then a binary search.
#[inline(always)]
#[tactic(auto, using(crate::proofs::Bits::room_at))]
fn bound_before(units: &[u8], is_v4: bool, top: usize, address: u128, len: u8) -> usize
    requires room { top * prefix_size (family_of is_v4) ≤ length units.now }
    requires address { address < 2 ^ width (family_of is_v4) }
    ensures { IsUpperBound (family_of is_v4) units.now 0 top (address * 256 + len) result }
{
    let mut right = top;
    let mut step = 1;
    'steps: while step <= right {
        let left = right - step;
        if is_at_most(units, is_v4, left, address, len) {
            return bound_between(units, is_v4, left + 1, right, address, len);
        }
        right = left;
        step *= 2;
    }
    bound_between(units, is_v4, 0, right, address, len)
}

/// The same from `low` to `top`, for an index that isn't far above `low`.
#[inline(always)]
#[tactic(auto, using(crate::proofs::Bits::room_at))]
pub(crate) fn bound_after(
    units: &[u8],
    is_v4: bool,
    low: usize,
    top: usize,
    address: u128,
    len: u8,
) -> usize
    requires room { top * prefix_size (family_of is_v4) ≤ length units.now }
    requires address { address < 2 ^ width (family_of is_v4) }
    requires order { low ≤ top }
    ensures { IsUpperBound (family_of is_v4) units.now low top (address * 256 + len) result }
{
    let mut left = low;
    let mut step = 1;
    'steps: while step <= top - left {
        let right = left + (step - 1);
        if !is_at_most(units, is_v4, right, address, len) {
            return bound_between(units, is_v4, left, right, address, len);
        }
        left = right + 1;
        step *= 2;
    }
    bound_between(units, is_v4, left, top, address, len)
}

/// Whether the AS and the length of a route match those of a VRP that covers it.
#[inline(always)]
fn fits(vrp: Vrp, len: u8, asn: u32) -> bool
    ensures { IsTrue result ↔ ((len ≤ vrp.max_len) × (vrp.asn ≡ asn) × (0 < asn)) }
{
    len <= vrp.max_len && vrp.asn == asn && asn > 0
}

/// The validity of a route by one VRP.
#[inline(always)]
pub(crate) fn one_says(is_v4: bool, vrp: Vrp, address: u128, len: u8, asn: u32) -> Validity
    requires clear { IsClear (parts_of (family_of is_v4) vrp) }
    requires address { address < 2 ^ width (family_of is_v4) }
    ensures { OneSays result (parts_of (family_of is_v4) vrp)
        (route (family_of is_v4) address len) asn }
{
    if !covers(is_v4, vrp, address, len) {
        return Validity::NotFound;
    }
    if fits(vrp, len, asn) {
        return Validity::Valid;
    }
    Validity::Invalid
}

/// The validity of a route by the unit at this index.
#[inline(always)]
pub(crate) fn unit_says(
    units: &[u8],
    is_v4: bool,
    index: usize,
    address: u128,
    len: u8,
    asn: u32,
) -> (Validity, Vrp)
    requires room { (index + 1) * prefix_size (family_of is_v4) ≤ length units.now }
    requires address { address < 2 ^ width (family_of is_v4) }
    ensures says { OneSays result.0 (vrp_at (family_of is_v4) units.now index)
        (route (family_of is_v4) address len) asn }
    ensures parts { parts_of (family_of is_v4) result.1
        ≡ vrp_at (family_of is_v4) units.now index }
    ensures small { (vrp_at (family_of is_v4) units.now index).prefix_len < 256 }
{
    let vrp = vrp_at(units, is_v4, index);
    (one_says(is_v4, vrp, address, len, asn), vrp)
}

/// The validity if no unit matches.
#[inline(always)]
pub(crate) fn unmatched(covered: bool) -> Validity
    ensures { result ≡ answer_of covered }
{
    if covered {
        Validity::Invalid
    } else {
        Validity::NotFound
    }
}

/// The validity of a route by the first `count` units, found by reading all of them.
#[tactic(auto, using(crate::proofs::Bits::room_at))]
pub(crate) fn look_through(
    units: &[u8],
    is_v4: bool,
    count: usize,
    address: u128,
    len: u8,
    asn: u32,
) -> Validity
    requires room { count * prefix_size (family_of is_v4) ≤ length units.now }
    requires address { address < 2 ^ width (family_of is_v4) }
    ensures { TableSays result (family_of is_v4) units.now count
        (route (family_of is_v4) address len) asn }
{
    let mut covered = false;
    'units: for index in 0..count {
        match unit_says(units, is_v4, index, address, len, asn).0 {
            Validity::Valid => return Validity::Valid,
            Validity::Invalid => covered = true,
            Validity::NotFound => {}
        }
    }
    unmatched(covered)
}

/// The validity of a route by the first `count` units, if they are in order and `around` is right,
/// by binary search: among the units that aren't after the route, the last either covers it, or
/// shares its first bits with it up to a length, and then no other unit after these bits covers it.
#[inline(always)]
#[tactic(auto, using(crate::proofs::Bits::room_at))]
pub(crate) fn seek(
    units: &[u8],
    is_v4: bool,
    count: usize,
    around: Around,
    address: u128,
    len: u8,
    asn: u32,
) -> Validity
    requires room { count * prefix_size (family_of is_v4) ≤ length units.now }
    requires order { around.low ≤ around.top }
    requires within { around.top ≤ count }
    requires address { address < 2 ^ width (family_of is_v4) }
    requires len { len ≤ width (family_of is_v4) }
    ensures { IsTable (family_of is_v4) units.now count around.shortest around.low around.top
        (route (family_of is_v4) address len)
        → TableSays result (family_of is_v4) units.now count
        (route (family_of is_v4) address len) asn }
{
    let mut covered = false;
    let mut high = bound_between(units, is_v4, around.low, around.top, address, len);
    'units: while high > 0 {
        let last = high - 1;
        let (says, vrp) = unit_says(units, is_v4, last, address, len, asn);
        match says {
            Validity::Valid => return Validity::Valid,
            Validity::Invalid => {
                covered = true;
                high = last;
            }
            Validity::NotFound => {
                high = below(
                    units,
                    is_v4,
                    last,
                    around.shortest,
                    address,
                    len,
                    vrp.address,
                );
            }
        }
    }
    unmatched(covered)
}

/// How many of the first `last` units aren't after the bits that a route shares with an address;
/// none if no unit is that short.
#[inline(always)]
fn below(
    units: &[u8],
    is_v4: bool,
    last: usize,
    shortest: u8,
    address: u128,
    len: u8,
    other: u128,
) -> usize
    requires room { last * prefix_size (family_of is_v4) ≤ length units.now }
    requires address { address < 2 ^ width (family_of is_v4) }
    ensures { IsNarrowed (family_of is_v4) units.now last shortest address len other result }
{
    let bits = shared(is_v4, address, other);
    let count = if bits < len { bits } else { len };
    if count < shortest {
        return 0;
    }
    let first = clear_after(is_v4, count, address);
    bound_before(units, is_v4, last, first, count)
}

/// Whether the unit at this index covers a route, and its VRP.
#[inline(always)]
pub(crate) fn unit_covers(
    units: &[u8],
    is_v4: bool,
    index: usize,
    address: u128,
    len: u8,
) -> (bool, Vrp)
    requires room { (index + 1) * prefix_size (family_of is_v4) ≤ length units.now }
    requires address { address < 2 ^ width (family_of is_v4) }
    ensures covers { IsTrue result.0 ↔ Covers (vrp_at (family_of is_v4) units.now index)
        (route (family_of is_v4) address len) }
    ensures parts { parts_of (family_of is_v4) result.1
        ≡ vrp_at (family_of is_v4) units.now index }
    ensures range { result.1.address < 2 ^ width (family_of is_v4) }
    ensures small { (vrp_at (family_of is_v4) units.now index).prefix_len < 256 }
{
    let vrp = vrp_at(units, is_v4, index);
    (covers(is_v4, vrp, address, len), vrp)
}

/// The first unit from `from` on that covers a route, if they are in order and no unit that covers
/// it is shorter than `shortest`.
#[inline(always)]
#[tactic(auto, using(crate::proofs::Bits::room_at))]
pub(crate) fn first_unit(
    units: &[u8],
    is_v4: bool,
    count: usize,
    from: usize,
    shortest: u8,
    address: u128,
    len: u8,
) -> Option<usize>
    requires room { count * prefix_size (family_of is_v4) ≤ length units.now }
    requires order { from ≤ count }
    requires address { address < 2 ^ width (family_of is_v4) }
    requires len { len ≤ width (family_of is_v4) }
    ensures found { FirstUnit result (family_of is_v4) units.now count from
        (route (family_of is_v4) address len) }
    ensures first { IsTable (family_of is_v4) units.now count shortest 0 count
        (route (family_of is_v4) address len) → NoneBetween (family_of is_v4) units.now from
        (end_of result count) (route (family_of is_v4) address len) }
{
    let mut at = past_shorter(units, is_v4, count, from, shortest, address);
    'units: while at < count {
        let (found, vrp) = unit_covers(units, is_v4, at, address, len);
        if found {
            return Some(at);
        }
        if !is_up_to(is_v4, vrp.address, vrp.len, address, len) {
            return None;
        }
        at = next_after(units, is_v4, count, at, address, len, vrp.address);
    }
    None
}

/// The index at which the units that may cover a route begin, from `from` on, if no unit that
/// covers it is shorter than `shortest`.
#[inline(always)]
fn past_shorter(
    units: &[u8],
    is_v4: bool,
    count: usize,
    from: usize,
    shortest: u8,
    address: u128,
) -> usize
    requires room { count * prefix_size (family_of is_v4) ≤ length units.now }
    requires order { from ≤ count }
    requires address { address < 2 ^ width (family_of is_v4) }
    ensures { IsPastShorter (family_of is_v4) units.now count from shortest address result }
{
    if shortest == 0 {
        return from;
    }
    let first = clear_after(is_v4, shortest, address);
    bound_after(units, is_v4, from, count, first, shortest - 1)
}

/// The index to look at next after a unit of this address, which doesn't cover a route and isn't
/// after it: later units that cover the route are longer than the bits that both share.
#[inline(always)]
fn next_after(
    units: &[u8],
    is_v4: bool,
    count: usize,
    at: usize,
    address: u128,
    len: u8,
    other: u128,
) -> usize
    requires room { count * prefix_size (family_of is_v4) ≤ length units.now }
    requires within { at < count }
    requires address { address < 2 ^ width (family_of is_v4) }
    requires other { other < 2 ^ width (family_of is_v4) }
    ensures { IsNextPlace (family_of is_v4) units.now count at address len other result }
{
    let bits = agreed(is_v4, address, other);
    if bits >= len {
        return count;
    }
    let first = clear_after(is_v4, bits + 1, address);
    bound_after(units, is_v4, at + 1, count, first, bits)
}
