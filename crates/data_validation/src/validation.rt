//! Origin validation of a route over data.

ghost use Rattle.std.specs.Prelude.{◌≡◌, ℕ, ◌+◌, ◌-◌, ◌*◌, ◌%◌, ◌^◌, ◌<◌, ◌≤◌, ◌↔◌, IsTrue};
ghost use Rattle.std.specs.Prelude.{length, drop, List};
ghost use Rattle.rtr_base.specs.Addresses.{v4, v6, width, family_of};
ghost use Rattle.rtr_units.specs.End.{EndMeaning};
ghost use Rattle.rtr_units.specs.PrefixUnits.{prefix_size};
ghost use Rattle.rtr_payload.specs.Payloads.{Payload};
ghost use Rattle.data_slices.specs.Canonical.{HoldsData};
ghost use Rattle.data_validation.specs.Validity.{IsValidity};
ghost use Rattle.data_validation.specs.Tables.{AreTables};

use crate::table::{look_through, seek};
use crate::tables::{Tables, after_ipv4};
use crate::validity::Validity;
use rtr_base::addr::Prefix;
use rtr_base::asn::Asn;

/// A route to be validated.
#[derive(Clone, Copy, Debug)]
pub struct Route {
    /// Its prefix.
    pub prefix: Prefix,
    /// The AS that originates it, or AS 0 if that isn't a single AS, as after an AS_SET at the end
    /// of its path (RFC 6811 section 2), so that no VRP matches it.
    pub asn: Asn,
}

/// The validity of a route (RFC 6811 section 2) by the origins of data. The data are in canonical
/// form, and the tables are those of the data. Over other bytes or with other tables the result is
/// unspecified.
///
/// It takes a few binary searches for each VRP that covers the route, and allocates nothing.
pub fn validate(data: &[u8], tables: &Tables, route: &Route) -> Validity
    ensures { AreTables «data».now tables.now → (d : List Payload) → (e : EndMeaning)
        → HoldsData «data».now d e → IsValidity d route.now.prefix route.now.asn result }
{
    let (address, len, asn) = (
        route.prefix.bits(),
        route.prefix.len(),
        route.asn.into_u32(),
    );
    let ipv4 = tables.ipv4();
    if !has_room(data, true, ipv4) {
        return Validity::NotFound;
    }
    if route.prefix.is_v4() {
        let around = tables.around_ipv4(address);
        return seek(data, true, ipv4, around, address, len, asn);
    }
    let units = after_ipv4(data, ipv4);
    let ipv6 = tables.ipv6();
    if !has_room(units, false, ipv6) {
        return Validity::NotFound;
    }
    seek(units, false, ipv6, tables.around_ipv6(), address, len, asn)
}

/// The same, found by reading all units of the family.
pub fn validate_by_walk(data: &[u8], tables: &Tables, route: &Route) -> Validity
    ensures { AreTables «data».now tables.now → (d : List Payload) → (e : EndMeaning)
        → HoldsData «data».now d e → IsValidity d route.now.prefix route.now.asn result }
{
    let (address, len, asn) = (
        route.prefix.bits(),
        route.prefix.len(),
        route.asn.into_u32(),
    );
    let ipv4 = tables.ipv4();
    if !has_room(data, true, ipv4) {
        return Validity::NotFound;
    }
    if route.prefix.is_v4() {
        return look_through(data, true, ipv4, address, len, asn);
    }
    let units = after_ipv4(data, ipv4);
    let ipv6 = tables.ipv6();
    if !has_room(units, false, ipv6) {
        return Validity::NotFound;
    }
    look_through(units, false, ipv6, address, len, asn)
}

/// Reports whether `count` units of the family fit into a slice.
#[inline(always)]
pub(crate) fn has_room(units: &[u8], is_v4: bool, count: usize) -> bool
    ensures { IsTrue result ↔ (count * prefix_size (family_of is_v4) ≤ length units.now) }
{
    if is_v4 {
        count <= units.len() / 20
    } else {
        count <= units.len() / 32
    }
}
