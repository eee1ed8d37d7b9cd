//! The payload that a unit announces or withdraws, as a JSON object (RFC 8259), with the field
//! names of RFC 8210.

ghost use Rattle.std.specs.Prelude.{◌≡◌, ◌≤◌, ◌++◌, ◌∷◌, [], codes, length, true, false};
ghost use Rattle.base64.specs.Engines.{url_safe_no_pad};
ghost use Rattle.base64.specs.GeneralPurpose.{encode_of};
ghost use Rattle.hex.specs.Hex.{encode_lower};
ghost use Rattle.json.specs.Print.{print_from};
ghost use Rattle.json.specs.Token.{end_array, end_object};
ghost use Rattle.rtr_base.specs.Actions.{act};
ghost use Rattle.rtr_base.specs.Addresses.{v4, v6};
ghost use Rattle.rtr_base.specs.PlainTexts.{action_text};
ghost use Rattle.rtr_units.specs.FixedUnits.{fixed_bytes};
ghost use Rattle.rtr_units.specs.PrefixUnits.{prefix_at};
ghost use Rattle.rtr_payload.specs.Providers.{words_of};
ghost use Rattle.text_lines.specs.JsonLines.{number_field, number_tokens, origin_tokens};
ghost use Rattle.text_lines.specs.JsonLines.{parts_tokens, payload_kind};
ghost use Rattle.text_lines.specs.JsonLines.{text_field};
ghost use Rattle.text_lines.specs.Laying.{Lays};
ghost use Rattle.text_lines.specs.ListedUnits.{aspa_listed, fields_listed, key_listed};
ghost use Rattle.text_lines.specs.ListedUnits.{payload_listed};
ghost use Rattle.text_lines.specs.PayloadLines.{change_json, payload_json};

use crate::listed::{Listed, ListedAspa, ListedKey, ListedPayload};
use crate::meant::meant;
use crate::text::flags;
use crate::{addresses, laying, pieces};
use rtr_base::action::Action;
use rtr_units::numbers::u32_at;
use rtr_units::prefixes::{Ipv4Prefix, Ipv6Prefix};

/// Writes the JSON object of the change of a unit, as `rtr_diff --json` prints it, with the text of
/// `describe_change`; nothing for a unit without a payload.
pub fn describe_change_json(output: &mut [u8], at: usize, unit: &Listed<'_>) -> usize
    ensures { Lays (change_json (fields_listed unit.now)) at output.old result output.new }
{
    match unit {
        Listed::Payload(unit) => describe_payload_json(output, at, &meant(unit)),
        _ => at,
    }
}

/// Writes the JSON object of the payload that a unit announces or withdraws.
pub fn describe_payload_json(output: &mut [u8], at: usize, unit: &ListedPayload<'_>) -> usize
    ensures { Lays (payload_json (payload_listed unit.now)) at output.old result output.new }
{
    let at = laying::text(output, at, kind_field(unit));
    let at = laying::text(output, at, action_field(flags(unit)));
    last_fields(output, at, unit)
}

/// The beginning of the object.
fn kind_field(unit: &ListedPayload<'_>) -> &'static str
    ensures { result.now ≡
        codes "{\"kind\":\"" ++ payload_kind (payload_listed unit.now) ++ codes "\"" }
{
    match unit {
        ListedPayload::V4(_) => "{\"kind\":\"ipv4_prefix\"",
        ListedPayload::V6(_) => "{\"kind\":\"ipv6_prefix\"",
        ListedPayload::RouterKey(_) => "{\"kind\":\"router_key\"",
        ListedPayload::Aspa(_) => "{\"kind\":\"aspa\"",
    }
}

pub(crate) fn action_field(flags: u8) -> &'static str
    ensures { result.now ≡ codes ",\"action\":\"" ++ action_text (act flags) ++ codes "\"" }
{
    match Action::from_flags(flags) {
        Action::Announce => ",\"action\":\"announce\"",
        Action::Withdraw => ",\"action\":\"withdraw\"",
    }
}

/// Writes the parts of the payload that the unit announces or withdraws, and the end of the object.
pub(crate) fn last_fields(output: &mut [u8], at: usize, unit: &ListedPayload<'_>) -> usize
    ensures { Lays (print_from true (parts_tokens (payload_listed unit.now) ++ end_object ∷ []))
        at output.old result output.new }
{
    match unit {
        ListedPayload::V4(unit) => ipv4_fields(output, at, unit),
        ListedPayload::V6(unit) => ipv6_fields(output, at, unit),
        ListedPayload::RouterKey(key) => key_fields(output, at, key),
        ListedPayload::Aspa(aspa) => aspa_fields(output, at, aspa),
    }
}

fn ipv4_fields(output: &mut [u8], at: usize, unit: &Ipv4Prefix) -> usize
    ensures { Lays (print_from true (origin_tokens (prefix_at v4 (fixed_bytes unit.now)).origin
        ++ end_object ∷ [])) at output.old result output.new }
{
    let at = laying::text(output, at, ",\"prefix\":\"");
    let at = addresses::ipv4(output, at, unit.prefix_bits());
    let asn = unit.asn().into_u32();
    origin_fields(output, at, unit.prefix_len(), unit.max_len(), asn)
}

fn ipv6_fields(output: &mut [u8], at: usize, unit: &Ipv6Prefix) -> usize
    ensures { Lays (print_from true (origin_tokens (prefix_at v6 (fixed_bytes unit.now)).origin
        ++ end_object ∷ [])) at output.old result output.new }
{
    let at = laying::text(output, at, ",\"prefix\":\"");
    let at = addresses::ipv6(output, at, unit.prefix_bits());
    let asn = unit.asn().into_u32();
    origin_fields(output, at, unit.prefix_len(), unit.max_len(), asn)
}

/// Writes what follows the address.
fn origin_fields(output: &mut [u8], at: usize, prefix_len: u8, max_len: u8, asn: u32) -> usize
    ensures { Lays (codes "\"" ++ print_from true (number_field (codes "prefix_length") prefix_len
        ++ number_field (codes "max_length") max_len ++ number_field (codes "asn") asn
        ++ end_object ∷ [])) at output.old result output.new }
{
    let at = laying::labelled(output, at, "\",\"prefix_length\":", prefix_len as u64);
    let at = laying::labelled(output, at, ",\"max_length\":", max_len as u64);
    let at = laying::labelled(output, at, ",\"asn\":", asn as u64);
    laying::text(output, at, "}")
}

fn key_fields(output: &mut [u8], at: usize, key: &ListedKey<'_>) -> usize
    ensures { Lays (print_from true (parts_tokens (key_listed key.now) ++ end_object ∷ [])) at
        output.old result output.new }
{
    key_parts(output, at, &key.identifier, key.asn, key.info)
}

fn key_parts(output: &mut [u8], at: usize, identifier: &[u8], asn: u32, info: &[u8]) -> usize
    ensures { Lays (print_from true (
        text_field (codes "subject_key_identifier") (encode_lower identifier.now)
        ++ number_field (codes "asn") asn
        ++ text_field (codes "subject_public_key_info") (encode_of url_safe_no_pad info.now)
        ++ end_object ∷ [])) at output.old result output.new }
{
    let at = laying::text(output, at, ",\"subject_key_identifier\":\"");
    let at = pieces::hex(output, at, identifier);
    let at = laying::labelled(output, at, "\",\"asn\":", asn as u64);
    let at = laying::text(output, at, ",\"subject_public_key_info\":\"");
    let at = pieces::base64(output, at, info);
    laying::text(output, at, "\"}")
}

fn aspa_fields(output: &mut [u8], at: usize, aspa: &ListedAspa<'_>) -> usize
    ensures { Lays (print_from true (parts_tokens (aspa_listed aspa.now) ++ end_object ∷ [])) at
        output.old result output.new }
{
    let at = laying::labelled(output, at, ",\"customer_asn\":", aspa.customer as u64);
    let at = laying::text(output, at, ",\"provider_asns\":[");
    providers(output, at, aspa.providers)
}

/// Writes the providers, of four bytes each, with commas between them, and the end of the object.
fn providers(output: &mut [u8], at: usize, providers: &[u8]) -> usize
    ensures { Lays (print_from false (number_tokens (words_of providers.now)
        ++ end_array ∷ end_object ∷ [])) at output.old result output.new }
{
    if providers.len() < 4 {
        return laying::text(output, at, "]}");
    }
    let (first, rest) = providers.split_at(4);
    let at = laying::number(output, at, u32_at(first, 0) as u64);
    more_providers(output, at, rest)
}

/// Writes providers with a comma before each, and the end of the object.
fn more_providers(output: &mut [u8], at: usize, providers: &[u8]) -> usize
    ensures { Lays (print_from true (number_tokens (words_of providers.now)
        ++ end_array ∷ end_object ∷ [])) at output.old result output.new }
{
    let mut end = at;
    let mut left = providers;
    'each: while left.len() >= 4 {
        let (provider, rest) = left.split_at(4);
        end = laying::labelled(output, end, ",", u32_at(provider, 0) as u64);
        left = rest;
    }
    laying::text(output, end, "]}")
}
