//! Units in a slice, as they are listed.

ghost use Rattle.std.specs.Prelude.{◌≡◌, ◌≤◌, length};
ghost use Rattle.rtr_units.specs.AnyEnd.{end_meaning};
ghost use Rattle.rtr_units.specs.Header.{type_field, version_field};
ghost use Rattle.rtr_payload.specs.AspaUnits.{aspa_at};
ghost use Rattle.rtr_payload.specs.KeyUnits.{key_at};
ghost use Rattle.rtr_payload.specs.UnitFields.{aspa_unit, key_unit};
ghost use Rattle.unit_any.specs.Lengths.{IsBounded};
ghost use Rattle.text_lines.specs.ListedUnits.{aspa_listed, end_at, fields_at, fields_listed};
ghost use Rattle.text_lines.specs.ListedUnits.{key_listed};

use crate::listed::{Listed, ListedAspa, ListedKey, ListedPayload, ListedReport};
use rtr_payload::pdu::{Aspa, RouterKey};
use rtr_units::end::{EndOfData, EndOfDataV0, EndOfDataV1};
use rtr_units::header::HEADER_SIZE;
use rtr_units::numbers::{u16_at, u32_at};
use rtr_units::prefixes::{Ipv4Prefix, Ipv6Prefix};
use rtr_units::queries::{CacheReset, CacheResponse, ResetQuery, SerialNotify, SerialQuery};
use rtr_units::unit::Unit;
use unit_views::unit_of;

/// The offsets of the identifier, the autonomous system and the key info in a router key.
const IDENTIFIER: usize = 8;

const KEY_ASN: usize = 28;

/// The unit of these bytes, whose length is allowed for its version and type.
pub fn listed_unit(unit: &[u8]) -> Listed<'_>
    requires { IsBounded (version_field unit.now) (type_field unit.now) (length unit.now) }
    ensures { fields_listed result ≡ fields_at unit.now }
{
    match unit[1] {
        SerialNotify::PDU => Listed::SerialNotify(unit_of::<SerialNotify>(unit)),
        SerialQuery::PDU => Listed::SerialQuery(unit_of::<SerialQuery>(unit)),
        ResetQuery::PDU => Listed::ResetQuery(unit_of::<ResetQuery>(unit)),
        CacheResponse::PDU => Listed::CacheResponse(unit_of::<CacheResponse>(unit)),
        Ipv4Prefix::PDU => Listed::Payload(ListedPayload::V4(unit_of::<Ipv4Prefix>(unit))),
        Ipv6Prefix::PDU => Listed::Payload(ListedPayload::V6(unit_of::<Ipv6Prefix>(unit))),
        EndOfData::PDU => Listed::EndOfData(end_of(unit)),
        CacheReset::PDU => Listed::CacheReset(unit_of::<CacheReset>(unit)),
        RouterKey::PDU => Listed::Payload(ListedPayload::RouterKey(key_of(unit))),
        Aspa::PDU => Listed::Payload(ListedPayload::Aspa(aspa_of(unit))),
        _ => Listed::Error(ListedReport {
            version: unit[0],
            code: u16_at(unit, 2),
            body: &unit[HEADER_SIZE..],
        }),
    }
}

fn end_of(unit: &[u8]) -> EndOfData
    requires least { 8 ≤ length unit.now }
    requires untimed { version_field unit.now ≡ 0 → length unit.now ≡ 12 }
    requires timed { 1 ≤ version_field unit.now → length unit.now ≡ 24 }
    ensures { end_meaning result ≡ end_at unit.now }
{
    if unit[0] == 0 {
        return EndOfData::V0(unit_of::<EndOfDataV0>(unit));
    }
    EndOfData::V1(unit_of::<EndOfDataV1>(unit))
}

fn key_of(unit: &[u8]) -> ListedKey<'_>
    requires { 32 ≤ length unit.now }
    ensures { key_listed result ≡ key_unit (key_at unit.now) }
{
    let mut identifier = [0; 20];
    identifier.copy_from_slice(&unit[IDENTIFIER..KEY_ASN]);
    ListedKey {
        version: unit[0],
        flags: unit[2],
        free: unit[3],
        identifier,
        asn: u32_at(unit, KEY_ASN),
        info: &unit[RouterKey::FIXED..],
    }
}

fn aspa_of(unit: &[u8]) -> ListedAspa<'_>
    requires { 12 ≤ length unit.now }
    ensures { aspa_listed result ≡ aspa_unit (aspa_at unit.now) }
{
    ListedAspa {
        version: unit[0],
        flags: unit[2],
        free: unit[3],
        customer: u32_at(unit, 8),
        providers: &unit[Aspa::FIXED..],
    }
}
