//! A unit as a JSON object (RFC 8259), with the field names of RFC 8210.

ghost use Rattle.std.specs.Prelude.{◌≡◌, ◌+◌, ◌++◌, ◌∷◌, [], Some, None, codes, length, option_map};
ghost use Rattle.std.specs.Prelude.{true};
ghost use Rattle.json.specs.Print.{print_from, quoted, token_text};
ghost use Rattle.json.specs.Token.{end_object};
ghost use Rattle.rtr_units.specs.AnyEnd.{end_meaning};
ghost use Rattle.rtr_payload.specs.UnitFields.{unit_list};
ghost use Rattle.unit_any.specs.AnyFields.{any_list, any_session, end_of_data, error_report};
ghost use Rattle.text_lines.specs.ControlEscapes.{escaped};
ghost use Rattle.text_lines.specs.JsonLines.{kind_name, number_field, numbers_field, own_tokens};
ghost use Rattle.text_lines.specs.JsonLines.{payload_tokens, payload_zeros, report_tokens};
ghost use Rattle.text_lines.specs.JsonLines.{session_tokens, text_token, timing_tokens, unit_json};
ghost use Rattle.text_lines.specs.Laying.{Lays};
ghost use Rattle.text_lines.specs.ListedUnits.{fields_listed, payload_listed};

use crate::listed::{Listed, ListedPayload, ListedReport};
use crate::object::{action_field, last_fields};
use crate::text::{flags, parts_of, version};
use crate::{laying, pieces, strings};
use rtr_base::timing::Timing;
use rtr_payload::pdu::{Aspa, RouterKey};
use rtr_units::end::{EndOfData, EndOfDataV0, EndOfDataV1};
use rtr_units::header::HEADER_SIZE;
use rtr_units::prefixes::{Ipv4Prefix, Ipv6Prefix};
use rtr_units::queries::{CacheReset, CacheResponse, ResetQuery, SerialNotify, SerialQuery};
use rtr_units::unit::Unit;
use std::str;

/// The number of bytes of a provider.
const PROVIDER: usize = 4;

/// Writes the JSON object of a unit at this offset, as `rtr_list --json` prints it, to the output
/// from offset `at` on, as much of it as fits, and returns the offset of its end.
pub fn describe_json(output: &mut [u8], at: usize, offset: u64, unit: &Listed<'_>) -> usize
    ensures { Lays (unit_json offset (fields_listed unit.now)) at output.old result output.new }
{
    let at = laying::labelled(output, at, "{\"offset\":", offset);
    let at = laying::labelled(output, at, ",\"length\":", size(unit));
    let at = laying::text(output, at, kind_field(unit));
    let at = laying::labelled(output, at, ",\"version\":", version(unit) as u64);
    own_fields(output, at, unit)
}

/// The number of bytes of the unit.
fn size(unit: &Listed<'_>) -> u64
    ensures { result ≡ length (any_list (fields_listed unit.now)) }
{
    match unit {
        Listed::SerialNotify(_) => u64::from(SerialNotify::size()),
        Listed::SerialQuery(_) => u64::from(SerialQuery::size()),
        Listed::ResetQuery(_) => u64::from(ResetQuery::size()),
        Listed::CacheResponse(_) => u64::from(CacheResponse::size()),
        Listed::Payload(unit) => payload_size(unit),
        Listed::EndOfData(EndOfData::V0(_)) => u64::from(EndOfDataV0::size()),
        Listed::EndOfData(EndOfData::V1(_)) => u64::from(EndOfDataV1::size()),
        Listed::CacheReset(_) => u64::from(CacheReset::size()),
        Listed::Error(report) => (HEADER_SIZE + report.body.len()) as u64,
    }
}

#[tactic(auto, using(crate::proofs::UnitPieces::words_size))]
fn payload_size(unit: &ListedPayload<'_>) -> u64
    ensures { result ≡ length (unit_list (payload_listed unit.now)) }
{
    match unit {
        ListedPayload::V4(_) => u64::from(Ipv4Prefix::size()),
        ListedPayload::V6(_) => u64::from(Ipv6Prefix::size()),
        ListedPayload::RouterKey(key) => key_size(&key.identifier, key.info),
        ListedPayload::Aspa(aspa) => {
            (Aspa::FIXED + aspa.providers.len() / PROVIDER * PROVIDER) as u64
        }
    }
}

fn key_size(identifier: &[u8; 20], info: &[u8]) -> u64
    ensures { result ≡ 12 + length identifier.now + length info.now }
{
    (RouterKey::FIXED + info.len()) as u64
}

/// The kind of the unit, after the fields before it.
fn kind_field(unit: &Listed<'_>) -> &'static str
    ensures { result.now ≡
        codes ",\"kind\":\"" ++ kind_name (fields_listed unit.now) ++ codes "\"" }
{
    match unit {
        Listed::SerialNotify(_) => ",\"kind\":\"serial_notify\"",
        Listed::SerialQuery(_) => ",\"kind\":\"serial_query\"",
        Listed::ResetQuery(_) => ",\"kind\":\"reset_query\"",
        Listed::CacheResponse(_) => ",\"kind\":\"cache_response\"",
        Listed::Payload(ListedPayload::V4(_)) => ",\"kind\":\"ipv4_prefix\"",
        Listed::Payload(ListedPayload::V6(_)) => ",\"kind\":\"ipv6_prefix\"",
        Listed::Payload(ListedPayload::RouterKey(_)) => ",\"kind\":\"router_key\"",
        Listed::Payload(ListedPayload::Aspa(_)) => ",\"kind\":\"aspa\"",
        Listed::EndOfData(_) => ",\"kind\":\"end_of_data\"",
        Listed::CacheReset(_) => ",\"kind\":\"cache_reset\"",
        Listed::Error(_) => ",\"kind\":\"error_report\"",
    }
}

/// Writes the fields that only some units have, and the end of the object.
fn own_fields(output: &mut [u8], at: usize, unit: &Listed<'_>) -> usize
    ensures { Lays (escaped (print_from true (session_tokens (any_session (fields_listed unit.now))
        ++ own_tokens (fields_listed unit.now) ++ end_object ∷ []))) at
        output.old result output.new }
{
    match unit {
        Listed::SerialNotify(unit) => state(output, at, unit.session(), unit.serial().0, None),
        Listed::SerialQuery(unit) => state(output, at, unit.session(), unit.serial().0, None),
        Listed::ResetQuery(unit) => zero(output, at, unit.session()),
        Listed::CacheResponse(unit) => session_alone(output, at, unit.session()),
        Listed::Payload(unit) => payload(output, at, unit),
        Listed::EndOfData(unit) => end(output, at, unit),
        Listed::CacheReset(unit) => zero(output, at, unit.session()),
        Listed::Error(report) => error(output, at, report),
    }
}

fn session_alone(output: &mut [u8], at: usize, session: u16) -> usize
    ensures { Lays (escaped (print_from true (session_tokens (Some session) ++ end_object ∷ [])))
        at output.old result output.new }
{
    let at = laying::labelled(output, at, ",\"session_id\":", session as u64);
    laying::text(output, at, "}")
}

fn zero(output: &mut [u8], at: usize, field: u16) -> usize
    ensures { Lays (escaped (print_from true (numbers_field (codes "zero") (field ∷ [])
        ++ end_object ∷ []))) at output.old result output.new }
{
    let at = one_zero(output, at, field);
    laying::text(output, at, "}")
}

fn end(output: &mut [u8], at: usize, unit: &EndOfData) -> usize
    ensures { Lays (escaped (print_from true (session_tokens (Some (end_meaning unit.now).session)
        ++ own_tokens (end_of_data (end_meaning unit.now)) ++ end_object ∷ []))) at
        output.old result output.new }
{
    state(output, at, unit.session(), unit.serial().0, unit.timing())
}

/// Writes a session, a serial number and timings, if there are any, and the end of the object.
fn state(output: &mut [u8], at: usize, session: u16, serial: u32, timing: Option<Timing>) -> usize
    ensures { Lays (escaped (print_from true (session_tokens (Some session)
        ++ number_field (codes "serial_number") serial ++ timing_tokens timing
        ++ end_object ∷ []))) at output.old result output.new }
{
    let at = laying::labelled(output, at, ",\"session_id\":", session as u64);
    let at = laying::labelled(output, at, ",\"serial_number\":", serial as u64);
    intervals(output, at, timing)
}

fn intervals(output: &mut [u8], at: usize, timing: Option<Timing>) -> usize
    ensures { Lays (print_from true (timing_tokens timing ++ end_object ∷ [])) at
        output.old result output.new }
{
    match timing {
        Some(timing) => three_intervals(output, at, timing),
        None => laying::text(output, at, "}"),
    }
}

fn three_intervals(output: &mut [u8], at: usize, timing: Timing) -> usize
    ensures { Lays (print_from true (timing_tokens (Some timing) ++ end_object ∷ [])) at
        output.old result output.new }
{
    let at = laying::labelled(output, at, ",\"refresh_interval\":", timing.refresh as u64);
    let at = laying::labelled(output, at, ",\"retry_interval\":", timing.retry as u64);
    let at = laying::labelled(output, at, ",\"expire_interval\":", timing.expire as u64);
    laying::text(output, at, "}")
}

fn payload(output: &mut [u8], at: usize, unit: &ListedPayload<'_>) -> usize
    ensures { Lays (escaped (print_from true (payload_tokens (payload_listed unit.now)
        ++ end_object ∷ []))) at output.old result output.new }
{
    let at = laying::labelled(output, at, ",\"flags\":", flags(unit) as u64);
    let at = laying::text(output, at, action_field(flags(unit)));
    let at = zeros(output, at, unit);
    last_fields(output, at, unit)
}

/// Writes the reserved fields: bytes 2 and 3 and byte 11 of a prefix unit, byte 3 of the others.
fn zeros(output: &mut [u8], at: usize, unit: &ListedPayload<'_>) -> usize
    ensures { Lays (print_from true (numbers_field (codes "zero")
        (payload_zeros (payload_listed unit.now)))) at output.old result output.new }
{
    match unit {
        ListedPayload::V4(unit) => two_zeros(output, at, unit.session(), unit.as_ref()[11]),
        ListedPayload::V6(unit) => two_zeros(output, at, unit.session(), unit.as_ref()[11]),
        ListedPayload::RouterKey(key) => one_zero(output, at, key.free as u16),
        ListedPayload::Aspa(aspa) => one_zero(output, at, aspa.free as u16),
    }
}

fn two_zeros(output: &mut [u8], at: usize, session: u16, free: u8) -> usize
    ensures { Lays (print_from true (numbers_field (codes "zero") (session ∷ free ∷ []))) at
        output.old result output.new }
{
    let at = laying::labelled(output, at, ",\"zero\":[", session as u64);
    let at = laying::labelled(output, at, ",", free as u64);
    laying::text(output, at, "]")
}

fn one_zero(output: &mut [u8], at: usize, field: u16) -> usize
    ensures { Lays (print_from true (numbers_field (codes "zero") (field ∷ []))) at
        output.old result output.new }
{
    let at = laying::labelled(output, at, ",\"zero\":[", field as u64);
    laying::text(output, at, "]")
}

fn error(output: &mut [u8], at: usize, report: &ListedReport<'_>) -> usize
    ensures { Lays (escaped (print_from true (own_tokens (error_report report.now.version
        report.now.code report.now.body.now) ++ end_object ∷ []))) at
        output.old result output.new }
{
    let at = laying::labelled(output, at, ",\"error_code\":", report.code as u64);
    report_fields(output, at, parts_of(report.body))
}

fn report_fields(output: &mut [u8], at: usize, parts: Option<(&[u8], &[u8])>) -> usize
    ensures { Lays (escaped (print_from true (
        report_tokens (option_map (λ r. (r.0.now, r.1.now)) parts.entry)
        ++ end_object ∷ []))) at output.old result output.new }
{
    match parts {
        Some((pdu, text)) => both_parts(output, at, pdu, text),
        None => no_parts(output, at),
    }
}

/// Writes the unit that a report is about and its text.
fn both_parts(output: &mut [u8], at: usize, pdu: &[u8], text: &[u8]) -> usize
    ensures { Lays (escaped (print_from true (report_tokens (Some (pdu.now, text.now))
        ++ end_object ∷ []))) at output.old result output.new }
{
    let at = laying::text(output, at, ",\"erroneous_pdu\":\"");
    let at = pieces::hex(output, at, pdu);
    let at = laying::text(output, at, "\",\"error_text_bytes\":\"");
    let at = pieces::hex(output, at, text);
    let at = laying::text(output, at, "\",\"error_text\":");
    text_or_null(output, at, text)
}

/// Writes the parts of a report whose lengths don't fit.
fn no_parts(output: &mut [u8], at: usize) -> usize
    ensures { Lays (escaped (print_from true (report_tokens None ++ end_object ∷ []))) at
        output.old result output.new }
{
    let at = laying::text(
        output,
        at,
        ",\"erroneous_pdu\":null,\"error_text_bytes\":null",
    );
    laying::text(output, at, ",\"error_text\":null}")
}

/// Writes a text as a string, or null if it isn't UTF-8, and the end of the object.
fn text_or_null(output: &mut [u8], at: usize, bytes: &[u8]) -> usize
    ensures { Lays (escaped (token_text (text_token bytes.now) ++ codes "}")) at
        output.old result output.new }
{
    match str::from_utf8(bytes) {
        Ok(shown) => string(output, at, shown.as_bytes()),
        Err(_) => laying::text(output, at, "null}"),
    }
}

/// Writes a string and the end of the object.
fn string(output: &mut [u8], at: usize, text: &[u8]) -> usize
    ensures { Lays (escaped (quoted text.now ++ codes "}")) at output.old result output.new }
{
    let at = laying::text(output, at, "\"");
    let at = strings::string(output, at, text);
    laying::text(output, at, "\"}")
}
