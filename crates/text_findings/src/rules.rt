//! The rules on a unit, given the state of its sequence.

ghost use Rattle.std.specs.Prelude.{◌≡◌, ◌==◌, ◌++◌, ◌∷◌, ◌&&◌, [], not, length, MatchResult, Some};
ghost use Rattle.std.specs.Str.{is_utf8};
ghost use Rattle.rtr_base.specs.Actions.{act};
ghost use Rattle.rtr_base.specs.Addresses.{v4, v6};
ghost use Rattle.rtr_units.specs.FixedUnits.{fixed_bytes};
ghost use Rattle.rtr_units.specs.PrefixUnits.{prefix_at};
ghost use Rattle.rtr_units.specs.Header.{type_field};
ghost use Rattle.rtr_payload.specs.AspaUnits.{AspaFields};
ghost use Rattle.rtr_payload.specs.Providers.{words_of};
ghost use Rattle.rtr_payload.specs.UnitFields.{prefix_unit};
ghost use Rattle.text_lines.specs.ListedUnits.{aspa_listed, key_listed, payload_listed};
ghost use Rattle.text_lines.specs.ReportParts.{report_parts};
ghost use Rattle.text_lines.specs.TextLines.{payload_version};
ghost use Rattle.text_findings.specs.CheckedUnits.{found_in, found_list};
ghost use Rattle.text_findings.specs.PrivateSteps.{above, aspa_parts, payload_found};
ghost use Rattle.text_findings.specs.Rules as rules;
ghost use Rattle.text_findings.specs.SequenceSoFar.{is_announce};
ghost use Rattle.text_findings.specs.declared.finding.Finding.TheVariants as broken;

use crate::finding::{Finding, Layout};
use crate::sequence::{Found, Stage};
use rtr_base::action::Action;
use rtr_base::addr::MaxLenPrefix;
use rtr_base::timing::Timing;
use rtr_payload::pdu::prefix_rule::{PrefixRule, ipv4_prefix, ipv6_prefix};
use rtr_payload::pdu::{Aspa, PayloadUnit, RouterKey};
use rtr_units::numbers::u32_at;
use rtr_units::prefixes::{Ipv4Prefix, Ipv6Prefix};
use rtr_units::unit::Unit;
use session_times::broken_time_rule;
use std::str;
use text_lines::{ListedAspa, ListedKey, ListedPayload, parts_of};

/// The type of an error report (RFC 8210 section 5.11).
const REPORT: u8 = 10;

/// The finding, if the rule is broken.
fn told(is_broken: bool, finding: Finding) -> Option<Finding>
    ensures { found_in result ≡ rules.told is_broken finding }
{
    if is_broken { Some(finding) } else { None }
}

// ---- sequences

/// A unit has the version of its sequence.
pub(crate) fn sequence_version(begun: Option<u8>, version: u8) -> Option<Finding>
    ensures { found_in result ≡ rules.differing broken.Version begun version }
{
    match begun {
        Some(begun) => told(begun != version, Finding::Version(version, begun)),
        None => None,
    }
}

/// An end of data has the session of its sequence.
pub(crate) fn sequence_session(begun: Option<u16>, session: u16) -> Option<Finding>
    ensures { found_in result ≡ rules.differing broken.Session begun session }
{
    match begun {
        Some(begun) => told(begun != session, Finding::Session(session, begun)),
        None => None,
    }
}

/// No answer is open when the next one begins.
pub(crate) fn cut_answer(stage: Stage) -> Option<Finding>
    ensures { found_in result ≡ rules.cut_answer stage }
{
    match stage {
        Stage::Open => Some(Finding::CutOff),
        Stage::Before | Stage::Asked | Stage::Whole => None,
    }
}

// ---- times

/// The times of an end of data, if it has some, are within their bounds.
pub(crate) fn times(timing: Option<Timing>) -> Option<Finding>
    ensures { found_in result ≡ rules.time_rules timing }
{
    match timing {
        Some(timing) => match broken_time_rule(timing) {
            Some(rule) => Some(Finding::Times(rule)),
            None => None,
        },
        None => None,
    }
}

// ---- reserved bytes and flags

fn reserved_byte(place: u8, byte: u8) -> Option<Finding>
    ensures { found_in result ≡ rules.reserved_byte place byte }
{
    told(byte != 0, Finding::Reserved(place))
}

/// Bytes 2 and 3, at the offset of the session field, are zero.
pub(crate) fn reserved_session(session: u16) -> [Option<Finding>; 2]
    ensures { found_list result ≡ rules.reserved_session session }
{
    [
        reserved_byte(2, (session / 256) as u8),
        reserved_byte(3, (session % 256) as u8),
    ]
}

fn reserved_flags(flags: u8) -> Option<Finding>
    ensures { found_in result ≡ rules.reserved_flags flags }
{
    told(flags > 1, Finding::Flags)
}

// ---- payload units

/// The version of the protocol.
pub(crate) fn version(unit: &ListedPayload<'_>) -> u8
    ensures { result ≡ payload_version (payload_listed unit.now) }
{
    match unit {
        ListedPayload::V4(unit) => unit.version(),
        ListedPayload::V6(unit) => unit.version(),
        ListedPayload::RouterKey(key) => key.version,
        ListedPayload::Aspa(aspa) => aspa.version,
    }
}

/// Whether these flags announce.
pub(crate) fn announces(flags: u8) -> bool
    ensures { result ≡ is_announce (act flags) }
{
    match Action::from_flags(flags) {
        Action::Announce => true,
        Action::Withdraw => false,
    }
}

/// The rules that an IPv4 prefix breaks in a sequence of this version.
pub(crate) fn ipv4(begun: Option<u8>, unit: &Ipv4Prefix, was_there: bool) -> Found
    ensures { found_list result.slots ≡
        rules.differing broken.Version begun (prefix_at v4 (fixed_bytes unit.now)).version
        ++ payload_found was_there (prefix_unit (prefix_at v4 (fixed_bytes unit.now))) }
{
    let made = ipv4_prefix(unit.prefix_bits(), unit.prefix_len(), unit.max_len());
    let repeats = announces(unit.flags()) && was_there;
    let own = prefix_rules(made, u128::from(unit.prefix_bits()), repeats);
    let reserved = prefix_reserved(unit.session(), unit.flags(), unit.as_ref()[11]);
    prefix_found(sequence_version(begun, unit.version()), reserved, own)
}

/// The rules that an IPv6 prefix breaks in a sequence of this version.
pub(crate) fn ipv6(begun: Option<u8>, unit: &Ipv6Prefix, was_there: bool) -> Found
    ensures { found_list result.slots ≡
        rules.differing broken.Version begun (prefix_at v6 (fixed_bytes unit.now)).version
        ++ payload_found was_there (prefix_unit (prefix_at v6 (fixed_bytes unit.now))) }
{
    let made = ipv6_prefix(unit.prefix_bits(), unit.prefix_len(), unit.max_len());
    let repeats = announces(unit.flags()) && was_there;
    let own = prefix_rules(made, unit.prefix_bits(), repeats);
    let reserved = prefix_reserved(unit.session(), unit.flags(), unit.as_ref()[11]);
    prefix_found(sequence_version(begun, unit.version()), reserved, own)
}

/// The rules that a prefix breaks, in order.
fn prefix_found(
    version: Option<Finding>,
    reserved: [Option<Finding>; 4],
    own: [Option<Finding>; 2],
) -> Found
    ensures { found_list result.slots ≡
        found_in version ++ (found_list reserved ++ found_list own) }
{
    Found {
        slots: [
            version,
            reserved[0],
            reserved[1],
            reserved[2],
            reserved[3],
            own[0],
            own[1],
        ],
    }
}

fn prefix_reserved(session: u16, flags: u8, free: u8) -> [Option<Finding>; 4]
    ensures { found_list result ≡
        rules.reserved_session session ++ rules.reserved_flags flags ++
        rules.reserved_byte 11 free }
{
    let bytes = reserved_session(session);
    [
        bytes[0],
        bytes[1],
        reserved_flags(flags),
        reserved_byte(11, free),
    ]
}

/// The rules that the lengths and the address of a prefix break, given the prefix made of them, and
/// the rule that it is announced once.
fn prefix_rules(
    made: Result<MaxLenPrefix, PrefixRule>,
    address: u128,
    repeats: bool,
) -> [Option<Finding>; 2]
    ensures { MatchResult made
        (λ p. found_list result ≡ rules.told (not (p.prefix.address == address)) broken.HostBits
        ++ rules.told repeats broken.Twice)
        (λ rule. found_list result ≡ rules.broken_lengths rule ∷ []) }
{
    match made {
        Ok(prefix) => [
            told(prefix.prefix().bits() != address, Finding::HostBits),
            told(repeats, Finding::Twice),
        ],
        Err(rule) => [Some(broken_lengths(rule)), None],
    }
}

fn broken_lengths(rule: PrefixRule) -> Finding
    ensures { result ≡ rules.broken_lengths rule }
{
    match rule {
        PrefixRule::LenOverflow => Finding::PrefixLength,
        PrefixRule::MaxOverflow => Finding::MaxLength,
        PrefixRule::MaxUnderflow => Finding::MaxBelow,
    }
}

/// The rules that a router key breaks in a sequence of this version.
pub(crate) fn router_key(begun: Option<u8>, key: &ListedKey<'_>, was_there: bool) -> Found
    ensures { found_list result.slots ≡
        rules.differing broken.Version begun (payload_version (key_listed key.now))
        ++ payload_found was_there (key_listed key.now) }
{
    Found {
        slots: [
            sequence_version(begun, key.version),
            reserved_flags(key.flags),
            reserved_byte(3, key.free),
            told(
                key.version < RouterKey::SMALLEST_VERSION,
                Finding::Lacks(key.version),
            ),
            told(announces(key.flags) && was_there, Finding::Twice),
            None,
            None,
        ],
    }
}

/// The rules that an ASPA unit breaks in a sequence of this version.
pub(crate) fn aspa(begun: Option<u8>, aspa: &ListedAspa<'_>, was_there: bool) -> Found
    ensures { found_list result.slots ≡
        rules.differing broken.Version begun (payload_version (aspa_listed aspa.now))
        ++ payload_found was_there (aspa_listed aspa.now) }
{
    Found {
        slots: [
            sequence_version(begun, aspa.version),
            reserved_flags(aspa.flags),
            reserved_byte(3, aspa.free),
            told(
                aspa.version < Aspa::SMALLEST_VERSION,
                Finding::Lacks(aspa.version),
            ),
            withdrawn_providers(aspa),
            told(!ascend(aspa.providers), Finding::ProviderOrder),
            told(announces(aspa.flags) && was_there, Finding::Twice),
        ],
    }
}

/// A withdrawal has no providers.
fn withdrawn_providers(aspa: &ListedAspa<'_>) -> Option<Finding>
    ensures { found_in result ≡
        rules.withdrawn_providers (act aspa.now.flags) (aspa_parts aspa.now) }
{
    let count = aspa.providers.len() / 4;
    match Action::from_flags(aspa.flags) {
        Action::Announce => None,
        Action::Withdraw => told(
            count > 0,
            Finding::WithdrawnProviders(layout(aspa.flags, aspa.free, aspa.customer, count)),
        ),
    }
}

/// Whether each provider is above the one before it.
fn ascend(providers: &[u8]) -> bool
    ensures { result ≡ rules.ascend (words_of providers.now) }
{
    let mut last: Option<u32> = None;
    let mut left = providers;
    'each: while left.len() >= 4 {
        let provider = u32_at(left, 0);
        if !is_above(last, provider) {
            return false;
        }
        let (_, rest) = left.split_at(4);
        last = Some(provider);
        left = rest;
    }
    true
}

fn is_above(last: Option<u32>, provider: u32) -> bool
    ensures { result ≡ above last provider }
{
    match last {
        Some(last) => last < provider,
        None => true,
    }
}

/// How the bytes of an ASPA unit can be read.
fn layout(flags: u8, free: u8, customer: u32, count: usize) -> Layout
    ensures { (u : AspaFields) → u.flags ≡ flags → u.free ≡ free → u.aspa.customer ≡ customer →
        length u.aspa.providers ≡ count → result ≡ rules.layout_of u }
{
    let is_older = flags == 0
        && free == 0
        && customer / 0x100_0000 <= 1
        && customer / 0x1_0000 % 0x100 <= 1
        && (customer % 0x1_0000 + 1) as usize == count;
    if is_older {
        Layout::LikeOlderDraft
    } else {
        Layout::AsRead
    }
}

// ---- error reports

/// The two parts of an error report fill it exactly, its text is UTF-8, and it isn't about another
/// report.
pub(crate) fn error_report(body: &[u8]) -> [Option<Finding>; 2]
    ensures { found_list result ≡ rules.report_rules (report_parts body.now) }
{
    match parts_of(body) {
        Some((pdu, text)) => report_texts(pdu, text),
        None => [Some(Finding::ReportParts), None],
    }
}

fn report_texts(pdu: &[u8], text: &[u8]) -> [Option<Finding>; 2]
    ensures { found_list result ≡ rules.report_rules (Some (pdu.now, text.now)) }
{
    [
        told(type_of(pdu) == REPORT, Finding::ReportOfReport),
        told(!is_text(text), Finding::ReportText),
    ]
}

/// The type of the unit, or 0 if it is cut off before that.
fn type_of(unit: &[u8]) -> u8
    ensures { result ≡ type_field unit.now }
{
    unit.get(1).copied().unwrap_or(0)
}

#[tactic(auto, using(crate::proofs::TextTests::text_passes, crate::proofs::TextTests::text_fails))]
/// Whether the bytes are UTF-8.
fn is_text(bytes: &[u8]) -> bool
    ensures { result ≡ is_utf8 bytes.now }
{
    match str::from_utf8(bytes) {
        Ok(_) => true,
        Err(_) => false,
    }
}
