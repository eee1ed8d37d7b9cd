//! The state of the sequence that is read, and the rules that the next unit breaks in it.

ghost use Rattle.std.specs.Prelude.{◌≡◌, ◌∷◌, List, [], None, false};
ghost use Rattle.rtr_units.specs.AnyEnd.{end_meaning};
ghost use Rattle.unit_any.specs.AnyFields.{AnyFields, end_of_data, payload};
ghost use Rattle.text_lines.specs.ListedUnits.{fields_listed, payload_listed};
ghost use Rattle.text_findings.specs.CheckedUnits.{found_in, found_list, known_after};
ghost use Rattle.text_findings.specs.KeptNames.{IsAnnouncedAs};
ghost use Rattle.text_findings.specs.PrivateSteps.{found_by, state_after};
ghost use Rattle.text_findings.specs.Rules.{end_findings, findings, missing_at};
ghost use Rattle.text_findings.specs.SequenceSoFar.{asked_at, named_by, sequence};

use crate::finding::Finding;
use crate::rules;
use rtr_units::end::EndOfData;
use rtr_units::unit::Unit;
use text_lines::{Listed, ListedPayload};

/// The greatest number of rules that a unit can break.
pub const MOST: usize = 7;

/// The position relative to the answers.
#[derive(Clone, Copy, Debug)]
pub enum Stage {
    /// Before the first answer, with no query.
    Before,
    /// Before the first answer, after a query, as in what a router sends.
    Asked,
    /// Inside an answer.
    Open,
    /// After the end of data of an answer.
    Whole,
}

/// The state of the sequence that is read, without the payloads that are announced in it.
///
/// A sequence extends from a cache response, or from the beginning of the input, to an end of data
/// (RFC 8210 section 8).
#[derive(Clone, Copy, Debug)]
pub struct SequenceState {
    /// The version of the sequence, once a unit of it was read.
    pub version: Option<u8>,
    /// The session of the cache response that began the sequence, or of the end of data before it.
    pub session: Option<u16>,
    /// The position relative to the answers.
    pub stage: Stage,
}

/// The rules that a unit breaks: one element for each rule, in their order, which is empty if the
/// rule holds.
#[derive(Clone, Copy, Debug)]
pub struct Found {
    pub slots: [Option<Finding>; MOST],
}

impl SequenceState {
    /// The state before the first unit.
    pub fn new() -> SequenceState
        ensures { result ≡ known_after [] }
    {
        SequenceState {
            version: None,
            session: None,
            stage: Stage::Before,
        }
    }

    /// Returns the rules that the next unit breaks: first the version of the sequence, then bytes
    /// and flags that must be zero, then the values of its fields, then the session or the payloads
    /// of the sequence. The caller passes whether the payload that the unit names is announced in
    /// the sequence.
    pub fn check(&self, unit: &Listed<'_>, was_there: bool) -> Found
        ensures { (history : List AnyFields) → self.now ≡ known_after history →
            IsAnnouncedAs was_there (sequence history) (named_by (fields_listed unit.now)) →
            found_list result.slots ≡ findings history (fields_listed unit.now) }
    {
        self.found(unit, was_there)
    }

    /// The state after the unit.
    pub fn after(&self, unit: &Listed<'_>) -> SequenceState
        ensures { (history : List AnyFields) → self.now ≡ known_after history →
            result ≡ known_after (fields_listed unit.now ∷ history) }
    {
        self.next(unit)
    }

    /// The finding if the input ends here.
    pub fn missing(&self) -> Option<Finding>
        ensures { (history : List AnyFields) → self.now ≡ known_after history →
            found_in result ≡ end_findings history }
    {
        missing(self.stage)
    }

    /// The rules that the unit breaks.
    fn found(&self, unit: &Listed<'_>, was_there: bool) -> Found
        ensures { found_list result.slots ≡ found_by self.now was_there (fields_listed unit.now) }
    {
        match unit {
            Listed::SerialNotify(_) | Listed::SerialQuery(_) => first_of([None, None]),
            Listed::ResetQuery(unit) => first_of(rules::reserved_session(unit.session())),
            Listed::CacheResponse(_) => first_of([rules::cut_answer(self.stage), None]),
            Listed::Payload(unit) => self.payload(unit, was_there),
            Listed::EndOfData(unit) => self.end_of_data(unit),
            Listed::CacheReset(unit) => first_of(rules::reserved_session(unit.session())),
            Listed::Error(report) => first_of(rules::error_report(report.body)),
        }
    }

    fn payload(&self, unit: &ListedPayload<'_>, was_there: bool) -> Found
        ensures { found_list result.slots ≡
            found_by self.now was_there (payload (payload_listed unit.now)) }
    {
        match unit {
            ListedPayload::V4(unit) => rules::ipv4(self.version, unit, was_there),
            ListedPayload::V6(unit) => rules::ipv6(self.version, unit, was_there),
            ListedPayload::RouterKey(key) => rules::router_key(self.version, key, was_there),
            ListedPayload::Aspa(aspa) => rules::aspa(self.version, aspa, was_there),
        }
    }

    fn end_of_data(&self, unit: &EndOfData) -> Found
        ensures { found_list result.slots ≡
            found_by self.now false (end_of_data (end_meaning unit.now)) }
    {
        let version = rules::sequence_version(self.version, unit.version());
        let times = rules::times(unit.timing());
        let session = rules::sequence_session(self.session, unit.session());
        Found {
            slots: [version, times, session, None, None, None, None],
        }
    }

    /// The state after the unit, by its type.
    fn next(&self, unit: &Listed<'_>) -> SequenceState
        ensures { result ≡ state_after self.now (fields_listed unit.now) }
    {
        match unit {
            Listed::SerialQuery(_) | Listed::ResetQuery(_) => SequenceState {
                stage: asked(self.stage),
                ..*self
            },
            Listed::CacheResponse(unit) => SequenceState {
                version: Some(unit.version()),
                session: Some(unit.session()),
                stage: Stage::Open,
            },
            Listed::Payload(unit) => SequenceState {
                version: self.version.or(Some(rules::version(unit))),
                stage: Stage::Open,
                ..*self
            },
            Listed::EndOfData(unit) => SequenceState {
                version: None,
                session: Some(unit.session()),
                stage: Stage::Whole,
            },
            Listed::SerialNotify(_) | Listed::CacheReset(_) | Listed::Error(_) => *self,
        }
    }
}

/// The first two findings; the others are empty.
fn first_of(found: [Option<Finding>; 2]) -> Found
    ensures { found_list result.slots ≡ found_list found }
{
    Found {
        slots: [found[0], found[1], None, None, None, None, None],
    }
}

/// The stage after a query.
fn asked(stage: Stage) -> Stage
    ensures { result ≡ asked_at stage }
{
    match stage {
        Stage::Before => Stage::Asked,
        Stage::Asked | Stage::Open | Stage::Whole => stage,
    }
}

/// The finding if the input ends at this stage.
fn missing(stage: Stage) -> Option<Finding>
    ensures { found_in result ≡ missing_at stage }
{
    match stage {
        Stage::Before => Some(Finding::NoAnswer),
        Stage::Open => Some(Finding::CutOff),
        Stage::Asked | Stage::Whole => None,
    }
}
