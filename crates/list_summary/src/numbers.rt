//! The values by which a unit is counted.

ghost use Rattle.std.specs.Prelude.{◌≡◌};
ghost use Rattle.rtr_payload.specs.UnitBytes.{unit_fields};
ghost use Rattle.unit_any.specs.AnyFields.{payload};
ghost use Rattle.unit_any.specs.AnyUnits.{any_fields};
ghost use Rattle.text_findings.specs.SequenceSoFar.{announces};
ghost use Rattle.list_summary.specs.Summaries.{announced_as, announced_length, announced_type};
ghost use Rattle.list_summary.specs.Summaries.{other_type, type_of};

use rtr_base::action::Action;
use rtr_base::asn::Asn;
use rtr_payload::pdu::{Aspa, Payload, RouterKey};
use rtr_units::end::EndOfData;
use rtr_units::prefixes::{Ipv4Prefix, Ipv6Prefix};
use rtr_units::queries::{CacheReset, CacheResponse, ResetQuery, SerialNotify, SerialQuery};
use unit_any::{AnyUnit, Report};

/// The type of the unit.
fn type_of(unit: &AnyUnit) -> u8
    ensures { result ≡ type_of (any_fields unit.now) }
{
    match unit {
        AnyUnit::SerialNotify(_) => SerialNotify::PDU,
        AnyUnit::SerialQuery(_) => SerialQuery::PDU,
        AnyUnit::ResetQuery(_) => ResetQuery::PDU,
        AnyUnit::CacheResponse(_) => CacheResponse::PDU,
        AnyUnit::Payload(unit) => payload_type(unit),
        AnyUnit::EndOfData(_) => EndOfData::PDU,
        AnyUnit::CacheReset(_) => CacheReset::PDU,
        AnyUnit::Error(_) => Report::PDU,
    }
}

fn payload_type(unit: &Payload) -> u8
    ensures { result ≡ type_of (payload (unit_fields unit.now)) }
{
    match unit {
        Payload::V4(_) => Ipv4Prefix::PDU,
        Payload::V6(_) => Ipv6Prefix::PDU,
        Payload::RouterKey(_) => RouterKey::PDU,
        Payload::Aspa(_) => Aspa::PDU,
    }
}

/// Whether the unit announces a payload.
fn announces(unit: &AnyUnit) -> bool
    ensures { result ≡ announces (any_fields unit.now) }
{
    match unit {
        AnyUnit::Payload(unit) => payload_announces(unit),
        AnyUnit::SerialNotify(_)
        | AnyUnit::SerialQuery(_)
        | AnyUnit::ResetQuery(_)
        | AnyUnit::CacheResponse(_)
        | AnyUnit::EndOfData(_)
        | AnyUnit::CacheReset(_)
        | AnyUnit::Error(_) => false,
    }
}

/// Whether a payload unit announces; otherwise it withdraws.
pub fn payload_announces(unit: &Payload) -> bool
    ensures { result ≡ announces (payload (unit_fields unit.now)) }
{
    match unit.action() {
        Action::Announce => true,
        Action::Withdraw => false,
    }
}

/// The type of a unit, if it announces a payload.
pub fn announced_type(unit: &AnyUnit) -> Option<u8>
    ensures { result ≡ announced_type (any_fields unit.now) }
{
    announces(unit).then_some(type_of(unit))
}

/// The type of a unit, if it doesn't announce a payload.
pub fn other_type(unit: &AnyUnit) -> Option<u8>
    ensures { result ≡ other_type (any_fields unit.now) }
{
    (!announces(unit)).then_some(type_of(unit))
}

/// The length of the prefix that a unit of this type announces.
pub fn announced_length(kind: u8, unit: &AnyUnit) -> Option<u8>
    ensures { result ≡ announced_length kind (any_fields unit.now) }
{
    match unit {
        AnyUnit::Payload(unit) => payload_length(kind, unit),
        AnyUnit::SerialNotify(_)
        | AnyUnit::SerialQuery(_)
        | AnyUnit::ResetQuery(_)
        | AnyUnit::CacheResponse(_)
        | AnyUnit::EndOfData(_)
        | AnyUnit::CacheReset(_)
        | AnyUnit::Error(_) => None,
    }
}

fn payload_length(kind: u8, unit: &Payload) -> Option<u8>
    ensures { result ≡ announced_length kind (payload (unit_fields unit.now)) }
{
    let is_wanted = (payload_type(unit) == kind) & payload_announces(unit);
    match unit {
        Payload::V4(prefix) => is_wanted.then_some(prefix.prefix_len()),
        Payload::V6(prefix) => is_wanted.then_some(prefix.prefix_len()),
        Payload::RouterKey(_) | Payload::Aspa(_) => None,
    }
}

/// The AS of the prefix that the unit announces.
pub fn announced_as(unit: &AnyUnit) -> Option<Asn>
    ensures { result ≡ announced_as (any_fields unit.now) }
{
    match unit {
        AnyUnit::Payload(unit) => payload_as(unit),
        AnyUnit::SerialNotify(_)
        | AnyUnit::SerialQuery(_)
        | AnyUnit::ResetQuery(_)
        | AnyUnit::CacheResponse(_)
        | AnyUnit::EndOfData(_)
        | AnyUnit::CacheReset(_)
        | AnyUnit::Error(_) => None,
    }
}

fn payload_as(unit: &Payload) -> Option<Asn>
    ensures { result ≡ announced_as (payload (unit_fields unit.now)) }
{
    let is_wanted = payload_announces(unit);
    match unit {
        Payload::V4(prefix) => is_wanted.then_some(prefix.asn()),
        Payload::V6(prefix) => is_wanted.then_some(prefix.asn()),
        Payload::RouterKey(_) | Payload::Aspa(_) => None,
    }
}
