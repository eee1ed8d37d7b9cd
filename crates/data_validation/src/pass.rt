//! Origin validation of many routes in one pass over data.

ghost use Rattle.std.specs.Prelude.{◌≡◌, ℕ, ◌*◌, List, drop};
ghost use Rattle.rtr_base.specs.Addresses.{v4, v6};
ghost use Rattle.rtr_units.specs.End.{EndMeaning};
ghost use Rattle.rtr_payload.specs.Payloads.{Payload};
ghost use Rattle.data_slices.specs.Canonical.{HoldsData};
ghost use Rattle.data_validation.specs.PrivateTrail.{IsTrail};
ghost use Rattle.data_validation.specs.Tables.{AreTables};
ghost use Rattle.data_validation.specs.Validity.{IsValidity};

use crate::tables::{Tables, after_ipv4};
use crate::trail::Trail;
use crate::validation::{Route, has_room};
use crate::validity::Validity;

/// Validates routes over data, one after the other. This is the fastest way if they come in the
/// order of their addresses, as in routing tables. It keeps the VRPs that cover the address of the
/// last route, up to 64 of each family, and allocates nothing.
#[derive(Drop)]
pub struct Pass<'a> {
    bytes: &'a [u8],
    tables: &'a Tables,
    ipv4: Trail,
    ipv6: Trail,
    ghost of_ipv4: { IsTrail v4 bytes.now tables.now.ipv4 tables.now.shortest_ipv4 ipv4 },
    ghost of_ipv6: { IsTrail v6 (drop (tables.now.ipv4 * 20) bytes.now) tables.now.ipv6
        tables.now.shortest_ipv6 ipv6 },
}

impl<'a> Pass<'a> {
    /// A pass over data in canonical form, with their tables.
    pub fn new(data: &'a [u8], tables: &'a Tables) -> Self
        ensures bytes { result.bytes.now ≡ «data».now }
        ensures tables { result.tables.now ≡ tables.now }
    {
        Pass {
            bytes: data,
            tables,
            ipv4: Trail::new(),
            ipv6: Trail::new(),
        }
    }

    /// Returns the validity of a route, as `validate` does, in whatever order routes come. It is
    /// fastest if the address isn't before that of the last route of its family, and at most 64
    /// VRPs lie between both.
    pub fn validity(&mut self, route: &Route) -> Validity
        ensures bytes { self.new.bytes.now ≡ self.old.bytes.now }
        ensures tables { self.new.tables.now ≡ self.old.tables.now }
        ensures says { AreTables self.old.bytes.now self.old.tables.now → (d : List Payload)
            → (e : EndMeaning) → HoldsData self.old.bytes.now d e
            → IsValidity d route.now.prefix route.now.asn result }
    {
        let (address, len, asn) = (
            route.prefix.bits(),
            route.prefix.len(),
            route.asn.into_u32(),
        );
        let tables = self.tables;
        let ipv4 = tables.ipv4();
        if !has_room(self.bytes, true, ipv4) {
            return Validity::NotFound;
        }
        if route.prefix.is_v4() {
            let least = tables.shortest_ipv4();
            let around = tables.around_ipv4(address);
            let trail = &mut self.ipv4;
            return trail.validity(self.bytes, true, ipv4, least, around, address, len, asn);
        }
        let units = after_ipv4(self.bytes, ipv4);
        let ipv6 = tables.ipv6();
        if !has_room(units, false, ipv6) {
            return Validity::NotFound;
        }
        let least = tables.shortest_ipv6();
        let around = tables.around_ipv6();
        let trail = &mut self.ipv6;
        trail.validity(units, false, ipv6, least, around, address, len, asn)
    }
}
