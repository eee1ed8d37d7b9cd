//! Validating routes in order: keeps the units of one family that cover the last address for the
//! next route.

ghost use Rattle.std.specs.Prelude.{◌≡◌, ℕ, ◌+◌, ◌-◌, ◌*◌, ◌%◌, ◌^◌, ◌<◌, ◌≤◌, ◌↔◌, IsTrue};
ghost use Rattle.std.specs.Prelude.{length, slice_index, List};
ghost use Rattle.rtr_base.specs.Addresses.{Family, family_of, width};
ghost use Rattle.rtr_units.specs.PrefixUnits.{prefix_size};
ghost use Rattle.data_validation.specs.Validity.{Covers};
ghost use Rattle.data_validation.specs.PrivateTable.{IsTable, TableSays, route};
ghost use Rattle.data_validation.specs.PrivateTrail.{AreWithin, GathersCovering, IsAmongKept};
ghost use Rattle.data_validation.specs.PrivateTrail.{IsTrail, IsTrailAt, host};
ghost use Rattle.data_validation.specs.Tables.{AreAtLeast, vrp_at};

use crate::table::{bound_after, first_unit, is_at_most, seek, unit_covers, unit_says, unmatched};
use crate::tables::Around;
use crate::validity::Validity;
use crate::vrp::width_of;

/// The greatest number of units that are kept. If more cover an address, its routes are looked up
/// one by one.
const MOST: usize = 64;

/// The greatest number of units between a route and the last one that make it near.
const NEAR: usize = 64;

/// The number of routes in a row that aren't near after which the trail moves to the next one;
/// until then they are looked up one by one.
const MISSES: u8 = 32;

/// The units of one family that cover the address of the last route.
#[derive(Clone, Copy)]
pub(crate) struct Trail {
    /// The address of the last route.
    address: u128,
    /// The number of units that aren't after it.
    passed: usize,
    /// The number of these that are kept.
    count: usize,
    /// Their indexes: all units that cover the address.
    kept: [usize; MOST],
    /// The number of routes in a row that were looked up because they weren't near.
    missed: u8,
}

impl Trail {
    /// The trail before the first route.
    pub(crate) fn new() -> Self
        ensures { (f : Family) → (b : List ℕ) → (n s : ℕ) → IsTrail f b n s result }
    {
        Trail {
            address: 0,
            passed: 0,
            count: 0,
            kept: [0; MOST],
            missed: 0,
        }
    }

    /// The validity of a route by `total` units. If they are in order and `around` is right, it is
    /// that of `seek`. If the route is near the last one, the trail moves to it; most of the others
    /// are looked up, and leave the trail where it is.
    #[inline(always)]
    pub(crate) fn validity(
        &mut self,
        units: &[u8],
        is_v4: bool,
        total: usize,
        least: u8,
        around: Around,
        address: u128,
        len: u8,
        asn: u32,
    ) -> Validity
        requires room { total * prefix_size (family_of is_v4) ≤ length units.now }
        requires order { around.low ≤ around.top }
        requires within { around.top ≤ total }
        requires address { address < 2 ^ width (family_of is_v4) }
        requires len { len ≤ width (family_of is_v4) }
        requires trail { IsTrail (family_of is_v4) units.now total least self.old }
        ensures trail { IsTrail (family_of is_v4) units.now total least self.new }
        ensures says { AreAtLeast (family_of is_v4) units.now total least
            → IsTable (family_of is_v4) units.now total around.shortest around.low around.top
            (route (family_of is_v4) address len)
            → TableSays result (family_of is_v4) units.now total
            (route (family_of is_v4) address len) asn }
    {
        if self.goes_on(units, is_v4, total, least, address) {
            return answer(
                units, is_v4, &self.kept, self.count, total, address, len, asn,
            );
        }
        seek(units, is_v4, total, around, address, len, asn)
    }

    /// Moves to an address if it has its turn, and reports whether the trail is there.
    #[inline(always)]
    fn goes_on(&mut self, units: &[u8], is_v4: bool, total: usize, least: u8, address: u128) -> bool
        requires room { total * prefix_size (family_of is_v4) ≤ length units.now }
        requires address { address < 2 ^ width (family_of is_v4) }
        requires trail { IsTrail (family_of is_v4) units.now total least self.old }
        ensures trail { IsTrail (family_of is_v4) units.now total least self.new }
        ensures follows { IsTrue result → IsTrailAt (family_of is_v4) units.now total least address
            self.new }
    {
        if !self.has_turn(units, is_v4, total, address) {
            return false;
        }
        self.follow(units, is_v4, total, least, address)
    }

    /// Reports whether to move to an address: it is near, or the limit of misses is reached.
    #[inline(always)]
    fn has_turn(&mut self, units: &[u8], is_v4: bool, total: usize, address: u128) -> bool
        requires room { total * prefix_size (family_of is_v4) ≤ length units.now }
        requires within { self.old.passed ≤ total }
        requires address { address < 2 ^ width (family_of is_v4) }
        ensures { self.new ≡ record self.old { missed = self.new.missed } }
    {
        if self.is_near(units, is_v4, total, address) || self.missed >= MISSES {
            self.missed = 0;
            return true;
        }
        self.missed += 1;
        false
    }

    /// Whether an address isn't before the last one, and few units lie between both.
    #[inline(always)]
    #[tactic(auto, using(crate::proofs::Bits::room_at))]
    fn is_near(&self, units: &[u8], is_v4: bool, total: usize, address: u128) -> bool
        requires room { total * prefix_size (family_of is_v4) ≤ length units.now }
        requires within { self.now.passed ≤ total }
        requires address { address < 2 ^ width (family_of is_v4) }
    {
        if self.address > address {
            return false;
        }
        if total - self.passed <= NEAR {
            return true;
        }
        let far = self.passed + NEAR;
        !is_at_most(units, is_v4, far, address, width_of(is_v4))
    }

    /// Moves to an address, and reports whether all units that cover it could be kept.
    fn follow(&mut self, units: &[u8], is_v4: bool, total: usize, least: u8, address: u128) -> bool
        requires room { total * prefix_size (family_of is_v4) ≤ length units.now }
        requires address { address < 2 ^ width (family_of is_v4) }
        requires trail { IsTrail (family_of is_v4) units.now total least self.old }
        ensures trail { IsTrail (family_of is_v4) units.now total least self.new }
        ensures follows { IsTrue result → IsTrailAt (family_of is_v4) units.now total least address
            self.new }
    {
        self.turn_back(address);
        let len = width_of(is_v4);
        let left = left_of(units, is_v4, &self.kept, self.count, address);
        let end = bound_after(units, is_v4, self.passed, total, address, len);
        let from = self.passed;
        match gather(
            units,
            is_v4,
            from,
            end,
            least,
            address,
            &mut self.kept,
            left,
        ) {
            Some(count) => {
                self.address = address;
                self.passed = end;
                self.count = count;
                true
            }
            None => {
                self.begin_again();
                false
            }
        }
    }

    /// Restarts if an address is before the last one.
    fn turn_back(&mut self, address: u128)
        ensures trail { (f : Family) → (b : List ℕ) → (n s : ℕ) → IsTrail f b n s self.old
            → IsTrail f b n s self.new }
        ensures order { self.new.address ≤ address }
    {
        if address < self.address {
            self.begin_again();
        }
    }

    /// Forgets all units.
    fn begin_again(&mut self)
        ensures trail { (f : Family) → (b : List ℕ) → (n s : ℕ) → IsTrail f b n s self.new }
        ensures address { self.new.address ≡ 0 }
    {
        self.address = 0;
        self.passed = 0;
        self.count = 0;
    }
}

/// The number of kept units without the last ones that don't cover an address.
#[inline(always)]
fn left_of(units: &[u8], is_v4: bool, kept: &[usize; MOST], count: usize, address: u128) -> usize
    requires most { count ≤ 64 }
    requires room { (k : ℕ) → k < count → (slice_index kept.now k + 1)
        * prefix_size (family_of is_v4) ≤ length units.now }
    requires address { address < 2 ^ width (family_of is_v4) }
    ensures most { result ≤ count }
    ensures apart { (k : ℕ) → result ≤ k → k < count
        → Covers (vrp_at (family_of is_v4) units.now (slice_index kept.now k))
        (host (family_of is_v4) address) → ⊥ }
{
    let len = width_of(is_v4);
    let mut left = count;
    'tops: while left > 0 {
        let top = left - 1;
        if unit_covers(units, is_v4, kept[top], address, len).0 {
            return left;
        }
        left = top;
    }
    0
}

/// Keeps the units from `from` to `end` that cover an address, after the first `count` kept ones.
/// Returns the number of kept units then, or none if they are too many.
#[inline(always)]
fn gather(
    units: &[u8],
    is_v4: bool,
    from: usize,
    end: usize,
    least: u8,
    address: u128,
    kept: &mut [usize; MOST],
    count: usize,
) -> Option<usize>
    requires room { end * prefix_size (family_of is_v4) ≤ length units.now }
    requires order { from ≤ end }
    requires most { count ≤ 64 }
    requires address { address < 2 ^ width (family_of is_v4) }
    ensures { GathersCovering result (family_of is_v4) units.now from end
        (IsTable (family_of is_v4) units.now end least 0 end (host (family_of is_v4) address))
        address kept.old count kept.new }
{
    let len = width_of(is_v4);
    let mut at = from;
    let mut more = count;
    'units: while let Some(found) = first_unit(units, is_v4, end, at, least, address, len) {
        if more == MOST {
            return None;
        }
        kept[more] = found;
        more += 1;
        at = found + 1;
    }
    Some(more)
}

/// The validity of a route by the kept units, if these are all that cover it.
#[inline(always)]
fn answer(
    units: &[u8],
    is_v4: bool,
    kept: &[usize; MOST],
    count: usize,
    total: usize,
    address: u128,
    len: u8,
    asn: u32,
) -> Validity
    requires room { total * prefix_size (family_of is_v4) ≤ length units.now }
    requires most { count ≤ 64 }
    requires within { AreWithin kept.now count total }
    requires address { address < 2 ^ width (family_of is_v4) }
    ensures { ((i : ℕ) → i < total → Covers (vrp_at (family_of is_v4) units.now i)
        (route (family_of is_v4) address len) → IsAmongKept kept.now count i)
        → TableSays result (family_of is_v4) units.now total
        (route (family_of is_v4) address len) asn }
{
    let mut covered = false;
    'units: for index in 0..count {
        match unit_says(units, is_v4, kept[index], address, len, asn).0 {
            Validity::Valid => return Validity::Valid,
            Validity::Invalid => covered = true,
            Validity::NotFound => {}
        }
    }
    unmatched(covered)
}
