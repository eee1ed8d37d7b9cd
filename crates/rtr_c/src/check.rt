//! The state of a sequence and the rules that a unit breaks in it, in numbers.

ghost use Rattle.std.specs.Prelude.{◌≡◌, map};
ghost use Rattle.rtr_c.specs.Checks.{no_checked, no_named, numbered_finding, numbered_stage};
ghost use Rattle.rtr_c.specs.Checks.{numbered_layout, numbered_time_rule, check_state};

use session_times::TimeRule;
use text_findings::{Finding, Layout, SequenceState, Stage};

/// The state of the sequence that is read: as `text_findings::SequenceState`. All zero before the
/// first unit.
#[repr(C)]
#[derive(Clone, Copy)]
pub struct RtrCheck {
    pub session: u16,
    pub version: u8,
    pub has_session: bool,
    pub has_version: bool,
    pub stage: u8,
}

// The fields stand one after the other.
const _: () = prove!(size_of::<RtrCheck>() == 6);

/// A rule that a unit breaks: as `text_findings::Finding`. Rule 0 is none.
#[repr(C)]
#[derive(Clone, Copy)]
pub struct RtrFinding {
    /// The value that enum rtr_rule describes for this rule; else 0.
    pub value: u16,
    /// What the sequence or the answer began with, if enum rtr_rule names it; else 0.
    pub begun: u16,
    /// The rule that is broken, an rtr_rule.
    pub rule: u8,
}

// The fields stand one after the other, and one byte is left at the end.
const _: () = prove!(size_of::<RtrFinding>() == 6);

/// The rules that a unit breaks.
#[repr(C)]
#[derive(Drop)]
pub struct RtrChecked {
    /// Bytes of the unit in the input.
    pub size: usize,
    /// After RTR_SHORT, the least number of input bytes needed, as in an rtr_unit; else 0.
    pub wanted: usize,
    /// The broken rules, in the order of rtr_list's lines; RTR_RULE_NONE may be between them.
    pub findings: [RtrFinding; 7],
    /// The result of the call, an rtr_status, which the call returns too.
    pub status: u8,
    /// The detail of the status, as in an rtr_answer.
    pub detail: u8,
}

// The fields stand one after the other, and four bytes are left at the end.
const _: () = prove!(size_of::<RtrChecked>() == 64);

/// The payload that a unit announces or withdraws.
#[repr(C)]
#[derive(Drop)]
pub struct RtrNaming {
    /// Bytes of the unit in the input.
    pub size: usize,
    /// Bytes of the name, even if the output is shorter; 0 if the unit names no payload.
    pub length: usize,
    /// After RTR_SHORT, the least number of input bytes needed, as in an rtr_unit; else 0.
    pub wanted: usize,
    /// The result of the call, an rtr_status, which the call returns too.
    pub status: u8,
    /// The detail of the status, as in an rtr_answer.
    pub detail: u8,
    /// Whether the unit begins a sequence.
    pub begins: bool,
    /// Whether the payload is announced.
    pub announces: bool,
}

// The fields stand one after the other, and four bytes are left at the end.
const _: () = prove!(size_of::<RtrNaming>() == 32);

/// No findings, for this status.
pub(crate) fn none_checked(status: u8, detail: u8, wanted: usize) -> RtrChecked
    ensures { result ≡ no_checked status detail wanted }
{
    let none = RtrFinding {
        value: 0,
        begun: 0,
        rule: 0,
    };
    RtrChecked {
        size: 0,
        wanted,
        findings: [none, none, none, none, none, none, none],
        status,
        detail,
    }
}

/// No name, for this status.
pub(crate) fn none_named(status: u8, detail: u8, wanted: usize) -> RtrNaming
    ensures { result ≡ no_named status detail wanted }
{
    RtrNaming {
        size: 0,
        length: 0,
        wanted,
        status,
        detail,
        begins: false,
        announces: false,
    }
}

/// The state of the struct.
pub(crate) fn check_from(check: &RtrCheck) -> SequenceState
    ensures { result ≡ check_state check.now }
{
    SequenceState {
        version: if check.has_version {
            Some(check.version)
        } else {
            None
        },
        session: if check.has_session {
            Some(check.session)
        } else {
            None
        },
        stage: stage_from(check.stage),
    }
}

/// The struct for a state.
pub(crate) fn check_to(state: &SequenceState) -> RtrCheck
    ensures { check_state result ≡ state.now }
{
    RtrCheck {
        session: state.session.unwrap_or(0),
        version: state.version.unwrap_or(0),
        has_session: state.session.is_some(),
        has_version: state.version.is_some(),
        stage: stage_to(state.stage),
    }
}

fn stage_from(stage: u8) -> Stage
    ensures { result ≡ numbered_stage stage }
{
    match stage {
        1 => Stage::Asked,
        2 => Stage::Open,
        3 => Stage::Whole,
        _ => Stage::Before,
    }
}

fn stage_to(stage: Stage) -> u8
    ensures { numbered_stage result ≡ stage }
{
    match stage {
        Stage::Before => 0,
        Stage::Asked => 1,
        Stage::Open => 2,
        Stage::Whole => 3,
    }
}

/// The findings in numbers.
pub(crate) fn findings_to(slots: [Option<Finding>; 7]) -> [RtrFinding; 7]
    ensures { map numbered_finding result ≡ slots }
{
    [
        finding_to(slots[0]),
        finding_to(slots[1]),
        finding_to(slots[2]),
        finding_to(slots[3]),
        finding_to(slots[4]),
        finding_to(slots[5]),
        finding_to(slots[6]),
    ]
}

/// A finding in numbers.
pub(crate) fn finding_to(finding: Option<Finding>) -> RtrFinding
    ensures { numbered_finding result ≡ finding }
{
    match finding {
        None => numbers(0, 0, 0),
        Some(Finding::Reserved(place)) => numbers(1, place as u16, 0),
        Some(Finding::Flags) => numbers(2, 0, 0),
        Some(Finding::PrefixLength) => numbers(3, 0, 0),
        Some(Finding::MaxLength) => numbers(4, 0, 0),
        Some(Finding::MaxBelow) => numbers(5, 0, 0),
        Some(Finding::HostBits) => numbers(6, 0, 0),
        Some(Finding::Version(version, begun)) => numbers(7, version as u16, begun as u16),
        Some(Finding::Session(session, begun)) => numbers(8, session, begun),
        Some(Finding::CutOff) => numbers(9, 0, 0),
        Some(Finding::NoAnswer) => numbers(10, 0, 0),
        Some(Finding::Lacks(version)) => numbers(11, version as u16, 0),
        Some(Finding::WithdrawnProviders(Layout::AsRead)) => numbers(12, 0, 0),
        Some(Finding::WithdrawnProviders(Layout::LikeOlderDraft)) => numbers(12, 1, 0),
        Some(Finding::Twice) => numbers(13, 0, 0),
        Some(Finding::ProviderOrder) => numbers(14, 0, 0),
        Some(Finding::ReportParts) => numbers(15, 0, 0),
        Some(Finding::ReportText) => numbers(16, 0, 0),
        Some(Finding::ReportOfReport) => numbers(17, 0, 0),
        Some(Finding::Times(TimeRule::Refresh)) => numbers(18, 1, 0),
        Some(Finding::Times(TimeRule::Retry)) => numbers(18, 2, 0),
        Some(Finding::Times(TimeRule::Expire)) => numbers(18, 3, 0),
        Some(Finding::Times(TimeRule::AboveRefresh)) => numbers(18, 4, 0),
        Some(Finding::Times(TimeRule::AboveRetry)) => numbers(18, 5, 0),
    }
}

fn numbers(rule: u8, value: u16, begun: u16) -> RtrFinding
    ensures { result ≡ record { value = value; begun = begun; rule = rule } }
{
    RtrFinding { value, begun, rule }
}

/// The finding of the numbers; none for an unknown rule.
pub(crate) fn finding_from(finding: &RtrFinding) -> Option<Finding>
    ensures { result ≡ numbered_finding finding.now }
{
    let (value, begun) = (finding.value, finding.begun);
    Some(match finding.rule {
        1 => Finding::Reserved((value % 256) as u8),
        2 => Finding::Flags,
        3 => Finding::PrefixLength,
        4 => Finding::MaxLength,
        5 => Finding::MaxBelow,
        6 => Finding::HostBits,
        7 => Finding::Version((value % 256) as u8, (begun % 256) as u8),
        8 => Finding::Session(value, begun),
        9 => Finding::CutOff,
        10 => Finding::NoAnswer,
        11 => Finding::Lacks((value % 256) as u8),
        12 => Finding::WithdrawnProviders(layout_from(value)),
        13 => Finding::Twice,
        14 => Finding::ProviderOrder,
        15 => Finding::ReportParts,
        16 => Finding::ReportText,
        17 => Finding::ReportOfReport,
        18 => Finding::Times(time_rule_from(value)),
        _ => return None,
    })
}

fn time_rule_from(value: u16) -> TimeRule
    ensures { result ≡ numbered_time_rule value }
{
    match value {
        1 => TimeRule::Refresh,
        2 => TimeRule::Retry,
        3 => TimeRule::Expire,
        4 => TimeRule::AboveRefresh,
        _ => TimeRule::AboveRetry,
    }
}

fn layout_from(value: u16) -> Layout
    ensures { result ≡ numbered_layout value }
{
    match value {
        1 => Layout::LikeOlderDraft,
        _ => Layout::AsRead,
    }
}
