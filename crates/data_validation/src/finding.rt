//! The VRPs of data that cover a prefix.

ghost use Rattle.std.specs.Prelude.{◌≡◌, ℕ, ◌+◌, ◌-◌, ◌*◌, ◌%◌, ◌^◌, ◌<◌, ◌≤◌, IfSome, List};
ghost use Rattle.std.specs.Prelude.{length};
ghost use Rattle.std.specs.Iterator.{at_most};
ghost use Rattle.rtr_base.specs.Addresses.{family_of, width};
ghost use Rattle.rtr_units.specs.End.{EndMeaning};
ghost use Rattle.rtr_units.specs.PrefixUnits.{prefix_size};
ghost use Rattle.rtr_payload.specs.Payloads.{Payload};
ghost use Rattle.data_slices.specs.Canonical.{HoldsData};
ghost use Rattle.data_validation.specs.Covering.{IsFirstCovering, IsMismatch, next_place, vrp};
ghost use Rattle.data_validation.specs.PrivateCovering.{IsOrderedTable, UnitFrom};
ghost use Rattle.data_validation.specs.PrivateTable.{route};
ghost use Rattle.data_validation.specs.Tables.{AreTables};

use crate::mismatch::Mismatch;
use crate::table::first_unit;
use crate::tables::{Tables, after_ipv4};
use crate::validation::{Route, has_room};
use crate::vrp::{origin_of, vrp_at};
use rtr_base::addr::Prefix;
use rtr_payload::payload::RouteOrigin;

/// A VRP that covers a prefix.
#[derive(Clone, Copy, Debug)]
pub struct CoveringVrp {
    /// The index of its payload in the data, from 0.
    pub place: usize,
    /// The VRP, which has a max length.
    pub origin: RouteOrigin,
}

impl CoveringVrp {
    /// Why the VRP doesn't match the route, or none if it matches or doesn't cover it.
    pub fn mismatch(&self, route: &Route) -> Option<Mismatch>
        ensures { IsMismatch result (vrp self.now.origin) route.now.prefix route.now.asn }
    {
        let asn = self.origin.asn.into_u32();
        if asn == 0 {
            return Some(Mismatch::AsZero);
        }
        if asn != route.asn.into_u32() {
            return Some(Mismatch::OtherAs);
        }
        if self.origin.prefix.resolved_max_len() < route.prefix.len() {
            return Some(Mismatch::TooLong);
        }
        None
    }
}

/// The VRPs that cover a prefix, in the order of payloads, each once. The data are in canonical
/// form, and the tables are those of the data; over other bytes or with other tables the result is
/// unspecified.
pub fn covering<'a>(data: &'a [u8], tables: &'a Tables, prefix: Prefix) -> CoveringIter<'a>
    ensures bytes { result.bytes.now ≡ «data».now }
    ensures tables { result.tables.now ≡ tables.now }
    ensures prefix { result.prefix ≡ prefix }
    ensures from { result.from ≡ 0 }
{
    CoveringIter {
        bytes: data,
        tables,
        prefix,
        from: 0,
    }
}

/// The VRPs of data that cover a prefix, in the order of payloads.
#[derive(Drop)]
pub struct CoveringIter<'a> {
    bytes: &'a [u8],
    tables: &'a Tables,
    prefix: Prefix,
    from: usize,
}

impl<'a> Iterator for CoveringIter<'a> {
    type Item = CoveringVrp;

    ghost next_gives = { λ s r t. (AreTables s.bytes.now s.tables.now → (d : List Payload)
        → (e : EndMeaning) → HoldsData s.bytes.now d e → IsFirstCovering d s.prefix s.from r)
        × (t ≡ record s { from = next_place r s.from }) };

    ghost remaining = { λ s. at_most (length s.bytes.now - s.from) };

    fn next(&mut self) -> Option<CoveringVrp> {
        match first_covering(self.bytes, self.tables, self.prefix, self.from) {
            Some(found) => {
                self.from = found.place + 1;
                Some(found)
            }
            None => None,
        }
    }
}

/// The first VRP that covers a prefix among the payloads of data from index `from` on. The data are
/// in canonical form, and the tables are those of the data. Over other bytes or with other tables,
/// the result is some unit from there on, or none.
pub fn first_covering(
    data: &[u8],
    tables: &Tables,
    prefix: Prefix,
    from: usize,
) -> Option<CoveringVrp>
    ensures first { AreTables «data».now tables.now → (d : List Payload) → (e : EndMeaning)
        → HoldsData «data».now d e → IsFirstCovering d prefix from result }
    ensures least { IfSome result (λ c. from ≤ c.place) }
    ensures within { IfSome result (λ c. c.place < length «data».now) }
{
    let (address, len) = (prefix.bits(), prefix.len());
    let ipv4 = tables.ipv4();
    if !has_room(data, true, ipv4) {
        return None;
    }
    if prefix.is_v4() {
        return unit_from(
            data,
            true,
            ipv4,
            0,
            from,
            tables.shortest_ipv4(),
            address,
            len,
        );
    }
    let units = after_ipv4(data, ipv4);
    let ipv6 = tables.ipv6();
    if !has_room(units, false, ipv6) {
        return None;
    }
    let shortest = tables.shortest_ipv6();
    unit_from(units, false, ipv6, ipv4, from, shortest, address, len)
}

/// The smaller of two numbers.
#[inline(always)]
fn lesser(left: usize, right: usize) -> usize
    ensures left { result ≤ left }
    ensures right { result ≤ right }
    ensures least { (i : ℕ) → i < left → i < right → i < result }
{
    if left < right { left } else { right }
}

/// The first unit that covers, among `count` units, from index `from` of the data on. The first
/// unit has index `base`.
#[inline(always)]
#[tactic(auto, using(crate::proofs::Bits::room_at))]
fn unit_from(
    units: &[u8],
    is_v4: bool,
    count: usize,
    base: usize,
    from: usize,
    shortest: u8,
    address: u128,
    len: u8,
) -> Option<CoveringVrp>
    requires room { count * prefix_size (family_of is_v4) ≤ length units.now }
    requires address { address < 2 ^ width (family_of is_v4) }
    requires len { len ≤ width (family_of is_v4) }
    requires fits { base + count < 2 ^ 64 }
    ensures { UnitFrom result (family_of is_v4) units.now count base from
        (route (family_of is_v4) address len)
        (IsOrderedTable (family_of is_v4) units.now count shortest
        (route (family_of is_v4) address len)) }
{
    let start = lesser(from.saturating_sub(base), count);
    let Some(index) = first_unit(units, is_v4, count, start, shortest, address, len) else {
        return None;
    };
    let Some(origin) = origin_of(is_v4, vrp_at(units, is_v4, index)) else {
        return None;
    };
    let place = base + index;
    Some(CoveringVrp { place, origin })
}
