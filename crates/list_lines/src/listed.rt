//! Units as they are listed, borrowed from units that own their parts.

ghost use Rattle.std.specs.Prelude.{◌≡◌, drop, slice_index};
ghost use Rattle.rtr_units.specs.Header.{session_field, version_field};
ghost use Rattle.rtr_payload.specs.AspaUnits.{aspa_at};
ghost use Rattle.rtr_payload.specs.KeyUnits.{key_at};
ghost use Rattle.rtr_payload.specs.UnitBytes.{unit_fields};
ghost use Rattle.rtr_payload.specs.UnitFields.{aspa_unit, key_unit};
ghost use Rattle.unit_any.specs.AnyFields.{error_report};
ghost use Rattle.unit_any.specs.AnyUnits.{any_fields};
ghost use Rattle.text_lines.specs.ListedUnits.{aspa_listed, fields_listed, key_listed};
ghost use Rattle.text_lines.specs.ListedUnits.{payload_listed};
ghost use Rattle.text_lines.specs.declared.listed.Listed.TheVariants as listed;

use rtr_payload::pdu::{Aspa, Payload, RouterKey};
use rtr_units::header::HEADER_SIZE;
use rtr_units::unit::Unit;
use text_lines::{Listed, ListedAspa, ListedKey, ListedPayload, ListedReport};
use unit_any::{AnyUnit, Report};

/// The unit with its fields as they are in it.
pub fn listed(unit: &AnyUnit) -> Listed<'_>
    ensures { fields_listed result ≡ any_fields unit.now }
{
    match unit {
        AnyUnit::SerialNotify(unit) => Listed::SerialNotify(*unit),
        AnyUnit::SerialQuery(unit) => Listed::SerialQuery(*unit),
        AnyUnit::ResetQuery(unit) => Listed::ResetQuery(*unit),
        AnyUnit::CacheResponse(unit) => Listed::CacheResponse(*unit),
        AnyUnit::Payload(unit) => Listed::Payload(listed_payload(unit)),
        AnyUnit::EndOfData(unit) => Listed::EndOfData(*unit),
        AnyUnit::CacheReset(unit) => Listed::CacheReset(*unit),
        AnyUnit::Error(report) => Listed::Error(listed_report(report)),
    }
}

/// The payload unit with its fields as they are in it.
pub(crate) fn listed_payload(unit: &Payload) -> ListedPayload<'_>
    ensures { payload_listed result ≡ unit_fields unit.now }
{
    let free = byte_at(unit.as_partial_slice(), 3);
    match unit {
        Payload::V4(unit) => ListedPayload::V4(*unit),
        Payload::V6(unit) => ListedPayload::V6(*unit),
        Payload::RouterKey(key) => ListedPayload::RouterKey(listed_key(key, free)),
        Payload::Aspa(aspa) => ListedPayload::Aspa(listed_aspa(aspa, free)),
    }
}

/// The key, with this byte 3.
fn listed_key(key: &RouterKey, free: u8) -> ListedKey<'_>
    requires { free ≡ (key_at key.now).free }
    ensures { key_listed result ≡ key_unit (key_at key.now) }
{
    ListedKey {
        version: key.version(),
        flags: key.flags(),
        free,
        identifier: key.key_identifier(),
        asn: key.asn().into_u32(),
        info: key.key_info().as_slice(),
    }
}

/// The ASPA unit, with this byte 3.
fn listed_aspa(aspa: &Aspa, free: u8) -> ListedAspa<'_>
    requires { free ≡ (aspa_at aspa.now).free }
    ensures { aspa_listed result ≡ aspa_unit (aspa_at aspa.now) }
{
    ListedAspa {
        version: aspa.version(),
        flags: aspa.flags(),
        free,
        customer: aspa.customer().into_u32(),
        providers: aspa.providers().as_slice(),
    }
}

fn listed_report(report: &Report) -> ListedReport<'_>
    ensures { fields_listed (listed.Error result) ≡
        error_report (version_field report.now) (session_field report.now) (drop 8 report.now) }
{
    ListedReport {
        version: report.version(),
        code: report.code().0,
        body: &report.as_ref()[HEADER_SIZE..],
    }
}

/// The byte at the offset, or 0 if there is none.
fn byte_at(bytes: &[u8], place: usize) -> u8
    ensures { result ≡ slice_index bytes.now place }
{
    bytes.get(place).copied().unwrap_or(0)
}
