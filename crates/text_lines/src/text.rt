//! The line of a unit for people.

ghost use Rattle.std.specs.Prelude.{◌≡◌, ◌++◌, Some, codes, decimal, length, option_map};
ghost use Rattle.rtr_base.specs.Actions.{act};
ghost use Rattle.rtr_base.specs.Addresses.{v4, v6};
ghost use Rattle.rtr_base.specs.PlainTexts.{action_text, asn_text, error_code_text};
ghost use Rattle.rtr_units.specs.AnyEnd.{end_meaning};
ghost use Rattle.rtr_units.specs.FixedUnits.{fixed_bytes};
ghost use Rattle.rtr_units.specs.PrefixUnits.{prefix_at};
ghost use Rattle.unit_any.specs.AnyFields.{end_of_data, error_report};
ghost use Rattle.text_lines.specs.Laying.{Lays};
ghost use Rattle.text_lines.specs.ListedUnits.{aspa_listed, fields_listed, key_listed};
ghost use Rattle.text_lines.specs.ListedUnits.{payload_listed};
ghost use Rattle.text_lines.specs.ReportParts.{report_parts};
ghost use Rattle.text_lines.specs.TextLines.{fields_version, kind_words, origin_words, parts_words};
ghost use Rattle.text_lines.specs.TextLines.{payload_flags, payload_said, payload_version};
ghost use Rattle.text_lines.specs.TextLines.{payload_words, report_words, timing_words, unit_text};
ghost use Rattle.text_lines.specs.TextLines.{change_text, sign_of, signed_said, unit_words};

use crate::listed::{Listed, ListedAspa, ListedKey, ListedPayload, ListedReport};
use crate::meant::meant;
use crate::{addresses, laying, pieces};
use rtr_base::action::Action;
use rtr_base::error_code::ErrorCode;
use rtr_base::timing::Timing;
use rtr_units::end::EndOfData;
use rtr_units::numbers::u32_at;
use rtr_units::prefixes::{Ipv4Prefix, Ipv6Prefix};
use rtr_units::unit::Unit;

/// Writes the line of a unit at this offset to the output from offset `at` on, as much of it as
/// fits, and returns the offset of its end.
pub fn describe(output: &mut [u8], at: usize, offset: u64, unit: &Listed<'_>) -> usize
    ensures { Lays (unit_text offset (fields_listed unit.now)) at output.old result output.new }
{
    let at = laying::number(output, at, offset);
    let at = laying::labelled(output, at, " v", version(unit) as u64);
    describe_fields(output, at, unit)
}

/// Writes the payload that a unit announces or withdraws: a space, its kind and its parts.
pub fn describe_payload(output: &mut [u8], at: usize, unit: &ListedPayload<'_>) -> usize
    ensures { Lays (payload_said (payload_listed unit.now)) at output.old result output.new }
{
    let at = laying::text(output, at, kind(unit));
    parts(output, at, unit)
}

/// Writes the line of the change of a unit, as `rtr_diff` prints it: without the bits of an address
/// after the prefix length, and without the providers of a withdrawn ASPA; nothing for a unit
/// without a payload.
pub fn describe_change(output: &mut [u8], at: usize, unit: &Listed<'_>) -> usize
    ensures { Lays (change_text (fields_listed unit.now)) at output.old result output.new }
{
    match unit {
        Listed::Payload(unit) => signed(output, at, &meant(unit)),
        _ => at,
    }
}

fn signed(output: &mut [u8], at: usize, unit: &ListedPayload<'_>) -> usize
    ensures { Lays (signed_said (payload_listed unit.now)) at output.old result output.new }
{
    let at = laying::text(output, at, sign(flags(unit)));
    describe_payload(output, at, unit)
}

fn sign(flags: u8) -> &'static str
    ensures { result.now ≡ sign_of (act flags) }
{
    match Action::from_flags(flags) {
        Action::Announce => "+",
        Action::Withdraw => "-",
    }
}

/// The version of the protocol.
pub(crate) fn version(unit: &Listed<'_>) -> u8
    ensures { result ≡ fields_version (fields_listed unit.now) }
{
    match unit {
        Listed::SerialNotify(unit) => unit.version(),
        Listed::SerialQuery(unit) => unit.version(),
        Listed::ResetQuery(unit) => unit.version(),
        Listed::CacheResponse(unit) => unit.version(),
        Listed::Payload(unit) => version_of_payload(unit),
        Listed::EndOfData(unit) => unit.version(),
        Listed::CacheReset(unit) => unit.version(),
        Listed::Error(report) => report.version,
    }
}

fn version_of_payload(unit: &ListedPayload<'_>) -> u8
    ensures { result ≡ payload_version (payload_listed unit.now) }
{
    match unit {
        ListedPayload::V4(unit) => unit.version(),
        ListedPayload::V6(unit) => unit.version(),
        ListedPayload::RouterKey(key) => key.version,
        ListedPayload::Aspa(aspa) => aspa.version,
    }
}

/// Writes what follows the version.
fn describe_fields(output: &mut [u8], at: usize, unit: &Listed<'_>) -> usize
    ensures { Lays (unit_words (fields_listed unit.now)) at output.old result output.new }
{
    match unit {
        Listed::SerialNotify(unit) => laying::state(
            output,
            at,
            " serial notify session ",
            unit.session(),
            unit.serial().0,
        ),
        Listed::SerialQuery(unit) => laying::state(
            output,
            at,
            " serial query session ",
            unit.session(),
            unit.serial().0,
        ),
        Listed::ResetQuery(_) => laying::text(output, at, " reset query"),
        Listed::CacheResponse(unit) => {
            laying::labelled(
                output,
                at,
                " cache response session ",
                unit.session() as u64,
            )
        }
        Listed::Payload(unit) => payload(output, at, unit),
        Listed::EndOfData(unit) => end(output, at, unit),
        Listed::CacheReset(_) => laying::text(output, at, " cache reset"),
        Listed::Error(report) => error(output, at, report),
    }
}

fn payload(output: &mut [u8], at: usize, unit: &ListedPayload<'_>) -> usize
    ensures { Lays (payload_words (payload_listed unit.now)) at output.old result output.new }
{
    let at = laying::text(output, at, kind(unit));
    let at = laying::text(output, at, action_said(flags(unit)));
    parts(output, at, unit)
}

fn kind(unit: &ListedPayload<'_>) -> &'static str
    ensures { result.now ≡ kind_words (payload_listed unit.now) }
{
    match unit {
        ListedPayload::V4(_) => " IPv4 prefix",
        ListedPayload::V6(_) => " IPv6 prefix",
        ListedPayload::RouterKey(_) => " router key",
        ListedPayload::Aspa(_) => " ASPA",
    }
}

pub(crate) fn flags(unit: &ListedPayload<'_>) -> u8
    ensures { result ≡ payload_flags (payload_listed unit.now) }
{
    match unit {
        ListedPayload::V4(unit) => unit.flags(),
        ListedPayload::V6(unit) => unit.flags(),
        ListedPayload::RouterKey(key) => key.flags,
        ListedPayload::Aspa(aspa) => aspa.flags,
    }
}

fn action_said(flags: u8) -> &'static str
    ensures { result.now ≡ codes " " ++ action_text (act flags) }
{
    match Action::from_flags(flags) {
        Action::Announce => " announce",
        Action::Withdraw => " withdraw",
    }
}

fn parts(output: &mut [u8], at: usize, unit: &ListedPayload<'_>) -> usize
    ensures { Lays (parts_words (payload_listed unit.now)) at output.old result output.new }
{
    match unit {
        ListedPayload::V4(unit) => ipv4(output, at, unit),
        ListedPayload::V6(unit) => ipv6(output, at, unit),
        ListedPayload::RouterKey(key) => router_key(output, at, key),
        ListedPayload::Aspa(aspa) => customer(output, at, aspa),
    }
}

fn ipv4(output: &mut [u8], at: usize, unit: &Ipv4Prefix) -> usize
    ensures { Lays (origin_words (prefix_at v4 (fixed_bytes unit.now)).origin) at
        output.old result output.new }
{
    let at = laying::text(output, at, " ");
    let at = addresses::ipv4(output, at, unit.prefix_bits());
    let asn = unit.asn().into_u32();
    origin(output, at, unit.prefix_len(), unit.max_len(), asn)
}

fn ipv6(output: &mut [u8], at: usize, unit: &Ipv6Prefix) -> usize
    ensures { Lays (origin_words (prefix_at v6 (fixed_bytes unit.now)).origin) at
        output.old result output.new }
{
    let at = laying::text(output, at, " ");
    let at = addresses::ipv6(output, at, unit.prefix_bits());
    let asn = unit.asn().into_u32();
    origin(output, at, unit.prefix_len(), unit.max_len(), asn)
}

/// Writes what follows the address.
fn origin(output: &mut [u8], at: usize, prefix_len: u8, max_len: u8, asn: u32) -> usize
    ensures { Lays (codes "/" ++ decimal prefix_len ++ codes "-" ++ decimal max_len ++ codes " "
        ++ asn_text asn) at output.old result output.new }
{
    let at = laying::labelled(output, at, "/", prefix_len as u64);
    let at = laying::labelled(output, at, "-", max_len as u64);
    laying::spaced(output, at, asn)
}

fn router_key(output: &mut [u8], at: usize, key: &ListedKey<'_>) -> usize
    ensures { Lays (parts_words (key_listed key.now)) at output.old result output.new }
{
    let at = laying::text(output, at, " ");
    let at = pieces::hex(output, at, &key.identifier);
    let at = laying::spaced(output, at, key.asn);
    let at = laying::text(output, at, " ");
    pieces::base64(output, at, key.info)
}

fn customer(output: &mut [u8], at: usize, aspa: &ListedAspa<'_>) -> usize
    ensures { Lays (parts_words (aspa_listed aspa.now)) at output.old result output.new }
{
    let at = laying::spaced(output, at, aspa.customer);
    let at = laying::text(output, at, " providers");
    pieces::providers(output, at, aspa.providers)
}

fn end(output: &mut [u8], at: usize, unit: &EndOfData) -> usize
    ensures { Lays (unit_words (end_of_data (end_meaning unit.now))) at
        output.old result output.new }
{
    let (session, serial) = (unit.session(), unit.serial().0);
    let at = laying::state(output, at, " end of data session ", session, serial);
    timing(output, at, unit.timing())
}

fn timing(output: &mut [u8], at: usize, timing: Option<Timing>) -> usize
    ensures { Lays (timing_words timing) at output.old result output.new }
{
    match timing {
        Some(timing) => intervals(output, at, timing),
        None => at,
    }
}

fn intervals(output: &mut [u8], at: usize, timing: Timing) -> usize
    ensures { Lays (timing_words (Some timing)) at output.old result output.new }
{
    let at = laying::labelled(output, at, " refresh ", timing.refresh as u64);
    let at = laying::labelled(output, at, " retry ", timing.retry as u64);
    laying::labelled(output, at, " expire ", timing.expire as u64)
}

fn error(output: &mut [u8], at: usize, report: &ListedReport<'_>) -> usize
    ensures { Lays (unit_words (error_report report.now.version report.now.code
        report.now.body.now)) at output.old result output.new }
{
    let at = laying::text(output, at, " error report code ");
    let at = code(output, at, report.code);
    report_both(output, at, parts_of(report.body))
}

fn code(output: &mut [u8], at: usize, code: u16) -> usize
    ensures { Lays (error_code_text code) at output.old result output.new }
{
    let at = laying::number(output, at, code as u64);
    match ErrorCode(code).name() {
        Some(name) => bracketed(output, at, name),
        None => at,
    }
}

fn bracketed(output: &mut [u8], at: usize, name: &str) -> usize
    ensures { Lays (codes " (" ++ name.now ++ codes ")") at output.old result output.new }
{
    let at = laying::text(output, at, " (");
    let at = laying::text(output, at, name);
    laying::text(output, at, ")")
}

/// The unit that a report is about and its text, if they fill the report exactly.
pub fn parts_of(body: &[u8]) -> Option<(&[u8], &[u8])>
    ensures { option_map (λ r. (r.0.now, r.1.now)) result ≡ report_parts body.now }
{
    if body.len() < 8 {
        return None;
    }
    let size = u32_at(body, 0) as usize;
    if size > body.len() - 8 {
        return None;
    }
    let (pdu, rest) = body[4..].split_at(size);
    if u32_at(rest, 0) as usize != rest.len() - 4 {
        return None;
    }
    Some((pdu, &rest[4..]))
}

fn report_both(output: &mut [u8], at: usize, parts: Option<(&[u8], &[u8])>) -> usize
    ensures { Lays (report_words (option_map (λ r. (r.0.now, r.1.now)) parts.entry)) at
        output.old result output.new }
{
    match parts {
        Some((pdu, text)) => both(output, at, pdu, text),
        None => laying::text(output, at, " with lengths that do not fit"),
    }
}

fn both(output: &mut [u8], at: usize, pdu: &[u8], text: &[u8]) -> usize
    ensures { Lays (report_words (Some (pdu.now, text.now))) at output.old result output.new }
{
    let at = laying::text(output, at, " pdu \"");
    let at = pieces::hex(output, at, pdu);
    let at = laying::text(output, at, "\" text \"");
    let at = pieces::escaped(output, at, text);
    laying::text(output, at, "\"")
}
