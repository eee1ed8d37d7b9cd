//! The names of payloads, for the caller's set of announced payloads.

ghost use Rattle.std.specs.Prelude.{◌≡◌, ◌++◌, []};
ghost use Rattle.rtr_base.specs.Addresses.{v4, v6};
ghost use Rattle.rtr_base.specs.Bytes.{be};
ghost use Rattle.rtr_units.specs.FixedUnits.{fixed_bytes};
ghost use Rattle.rtr_units.specs.PrefixUnits.{prefix_at};
ghost use Rattle.rtr_payload.specs.UnitFields.{prefix_unit};
ghost use Rattle.text_lines.specs.Laying.{Lays};
ghost use Rattle.text_lines.specs.ListedUnits.{aspa_listed, fields_listed, key_listed};
ghost use Rattle.text_lines.specs.ListedUnits.{payload_listed};
ghost use Rattle.text_findings.specs.KeptNames.{begins_sequence};
ghost use Rattle.text_findings.specs.PayloadNames.{option_name, unit_name};
ghost use Rattle.text_findings.specs.SequenceSoFar.{announces, payload_named};

use crate::rules;
use rtr_base::addr::MaxLenPrefix;
use rtr_payload::pdu::prefix_rule::{ipv4_prefix, ipv6_prefix};
use rtr_payload::pdu::{Aspa, RouterKey};
use rtr_units::numbers::u128_bytes;
use rtr_units::prefixes::{Ipv4Prefix, Ipv6Prefix};
use text_lines::{Listed, ListedAspa, ListedKey, ListedPayload, laying};

/// Whether a sequence begins with the unit, so that nothing is announced before it.
pub fn begins(unit: &Listed<'_>) -> bool
    ensures { result ≡ begins_sequence (fields_listed unit.now) }
{
    match unit {
        Listed::CacheResponse(_) | Listed::EndOfData(_) => true,
        _ => false,
    }
}

/// Whether the unit announces a payload.
pub fn announces(unit: &Listed<'_>) -> bool
    ensures { result ≡ announces (fields_listed unit.now) }
{
    match unit {
        Listed::Payload(ListedPayload::V4(unit)) => rules::announces(unit.flags()),
        Listed::Payload(ListedPayload::V6(unit)) => rules::announces(unit.flags()),
        Listed::Payload(ListedPayload::RouterKey(key)) => rules::announces(key.flags),
        Listed::Payload(ListedPayload::Aspa(aspa)) => rules::announces(aspa.flags),
        _ => false,
    }
}

/// Writes the name of the payload that the unit announces or withdraws to the front of the output,
/// as much of it as fits, and returns the offset of its end: 0 if the unit names none.
pub fn lay_name(output: &mut [u8], unit: &Listed<'_>) -> usize
    ensures { Lays (unit_name (fields_listed unit.now)) 0 output.old result output.new }
{
    match unit {
        Listed::Payload(unit) => payload_name(output, unit),
        _ => 0,
    }
}

fn payload_name(output: &mut [u8], unit: &ListedPayload<'_>) -> usize
    ensures { Lays (option_name (payload_named (payload_listed unit.now))) 0
        output.old result output.new }
{
    match unit {
        ListedPayload::V4(unit) => ipv4_name(output, unit),
        ListedPayload::V6(unit) => ipv6_name(output, unit),
        ListedPayload::RouterKey(key) => key_name(output, key),
        ListedPayload::Aspa(aspa) => aspa_name(output, aspa),
    }
}

fn ipv4_name(output: &mut [u8], unit: &Ipv4Prefix) -> usize
    ensures { Lays (option_name (payload_named (prefix_unit (prefix_at v4 (fixed_bytes unit.now)))))
        0 output.old result output.new }
{
    match ipv4_prefix(unit.prefix_bits(), unit.prefix_len(), unit.max_len()) {
        Ok(prefix) => {
            let front = [Ipv4Prefix::PDU, unit.prefix_len(), unit.max_len()];
            let address = (prefix.prefix().bits() as u32).to_be_bytes();
            origin_name(output, front, unit.asn().into_u32(), &address)
        }
        Err(_) => 0,
    }
}

fn ipv6_name(output: &mut [u8], unit: &Ipv6Prefix) -> usize
    ensures { Lays (option_name (payload_named (prefix_unit (prefix_at v6 (fixed_bytes unit.now)))))
        0 output.old result output.new }
{
    match ipv6_prefix(unit.prefix_bits(), unit.prefix_len(), unit.max_len()) {
        Ok(prefix) => {
            let front = [Ipv6Prefix::PDU, unit.prefix_len(), unit.max_len()];
            let address = u128_bytes(prefix.prefix().bits());
            origin_name(output, front, unit.asn().into_u32(), &address)
        }
        Err(_) => 0,
    }
}

/// Writes the name of an origin: the type of its unit and its lengths, its autonomous system, and
/// its address.
fn origin_name(output: &mut [u8], front: [u8; 3], asn: u32, address: &[u8]) -> usize
    ensures { Lays (front ++ (be asn 4 ++ address.now)) 0 output.old result output.new }
{
    let at = laying::bytes(output, 0, &front);
    let at = laying::bytes(output, at, &asn.to_be_bytes());
    laying::bytes(output, at, address)
}

fn key_name(output: &mut [u8], key: &ListedKey<'_>) -> usize
    ensures { Lays (option_name (payload_named (key_listed key.now))) 0
        output.old result output.new }
{
    let at = laying::bytes(output, 0, &[RouterKey::PDU]);
    let at = laying::bytes(output, at, &key.asn.to_be_bytes());
    let at = laying::bytes(output, at, &key.identifier);
    laying::bytes(output, at, key.info)
}

fn aspa_name(output: &mut [u8], aspa: &ListedAspa<'_>) -> usize
    ensures { Lays (option_name (payload_named (aspa_listed aspa.now))) 0
        output.old result output.new }
{
    let at = laying::bytes(output, 0, &[Aspa::PDU]);
    laying::bytes(output, at, &aspa.customer.to_be_bytes())
}
