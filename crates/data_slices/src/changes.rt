//! Whether a slice holds changes.

ghost use Rattle.std.specs.Prelude.{◌≡◌, ◌≤◌, ◌↔◌, IsTrue, IfOk, IfErr, List, length};
ghost use Rattle.rtr_units.specs.AnyEnd.{end_bytes, end_meaning};
ghost use Rattle.rtr_units.specs.End.{IsEnd};
ghost use Rattle.data_memory.specs.Data.{Change};
ghost use Rattle.data_slices.specs.CanonicalChanges.{HoldsChanges};
ghost use Rattle.data_slices.specs.Flaws.{IsFlawOfChanges};
ghost use Rattle.data_slices.specs.Items.{meant};
ghost use Rattle.data_slices.specs.PrivateChanges.{Ascends, HoldsParts, InVersion, IsRun, RunsOn};

use crate::fault::{Flaw, Reason};
use crate::item::{Item, PayloadView, next, next_unit};
use crate::refused::{Rule, first_breaking};
use rtr_base::action::Action;
use rtr_units::end::EndOfData;

/// Returns the end of data of the changes at the front of the input, or why there are no changes.
/// Nothing is allocated, and what follows the end of data is ignored.
///
/// Changes are in canonical form: units that announce payloads, and then units that withdraw
/// payloads, each in their order, no name twice (the name of an ASPA is its customer), all of one
/// version, and an end of data of that version. Data are changes that withdraw nothing.
///
/// A flaw is the first in the input: the bytes before its offset are units with which changes may
/// begin. `Refused` has the fault of bytes that aren't a unit or an end of data (`Short` if the
/// input ends before its end of data), and `NotCanonical` is for a unit, or the end of data, that
/// may not follow: a unit that announces after one that withdraws, or isn't above the last one of
/// its action, or withdraws what is announced, or is of another version. The offset is that of the
/// unit, in bytes from the front of the input.
pub fn check_changes(input: &[u8]) -> Result<EndOfData, Flaw>
    ensures changes { IfOk result
        (λ end. (cs : List Change) × HoldsChanges input.now cs (end_meaning end)) }
    ensures end { IfOk result (λ end. IsEnd (end_bytes end) (end_meaning end)) }
    ensures flaw { IfErr result (λ flaw. IsFlawOfChanges input.now flaw) }
{
    match check_parts(input) {
        Ok(parts) => Ok(parts.end),
        Err(flaw) => Err(flaw),
    }
}

/// The parts of changes.
#[derive(Clone, Copy)]
pub(crate) struct Parts {
    /// The length of the announcements: the withdrawals begin there.
    pub(crate) middle: usize,
    /// The length of all units: the end of data begins there.
    pub(crate) stop: usize,
    /// The end of data.
    pub(crate) end: EndOfData,
}

/// The parts of the changes at the front of the input.
pub(crate) fn check_parts(input: &[u8]) -> Result<Parts, Flaw>
    ensures parts { IfOk result (λ p. HoldsParts input.now p.middle p.stop (end_meaning p.end)) }
    ensures order { IfOk result (λ p. p.middle ≤ p.stop) }
    ensures within { IfOk result (λ p. p.stop ≤ length input.now) }
    ensures end { IfOk result (λ p. IsEnd (end_bytes p.end) (end_meaning p.end)) }
    ensures flaw { IfErr result (λ flaw. IsFlawOfChanges input.now flaw) }
{
    let announced = run_of(input, Action::Announce, None);
    let middle = announced.size;
    let withdrawn = run_of(&input[middle..], Action::Withdraw, announced.version);
    let stop = middle + withdrawn.size;
    if let Some(offset) = first_breaking(&input[middle..stop], &input[..middle], Rule::Apart) {
        return Err(flaw_at(middle + offset, Reason::NotCanonical));
    }
    match next(&input[stop..]) {
        Ok((item, _)) => match item {
            Item::End(end) => {
                if !is_version(withdrawn.version, end.version()) {
                    return Err(flaw_at(stop, Reason::NotCanonical));
                }
                Ok(Parts { middle, stop, end })
            }
            Item::Unit(_) => Err(flaw_at(stop, Reason::NotCanonical)),
        },
        Err(fault) => Err(flaw_at(stop, Reason::Refused(fault))),
    }
}

/// The flaw with this offset and reason.
fn flaw_at(offset: usize, reason: Reason) -> Flaw
    ensures offset { result.offset ≡ offset }
    ensures reason { result.reason ≡ reason }
{
    Flaw { offset, reason }
}

/// Units of one action at the front of a slice, in order and of one version.
#[derive(Clone, Copy)]
struct Run {
    /// Their length in bytes.
    size: usize,
    /// Their version, or if there are none that of the units before them, if any.
    version: Option<u8>,
}

/// The longest run of units of this action whose version is that of the units before them, if any.
fn run_of(input: &[u8], action: Action, before: Option<u8>) -> Run
    ensures run { IsRun action before input.now result.size result.version }
    ensures within { result.size ≤ length input.now }
{
    let (mut rest, mut last, mut version) = (input, None, before);
    'units: loop {
        let size = input.len() - rest.len();
        let (view, left) = match next_unit(rest) {
            Some(first) => first,
            None => return Run { size, version },
        };
        if !goes_on(action, version, &last, &view) {
            return Run { size, version };
        }
        version = Some(view.version());
        last = Some(view);
        rest = left;
    }
}

/// Whether the unit continues a run after its last unit.
#[inline(always)]
fn goes_on(
    action: Action,
    version: Option<u8>,
    last: &Option<PayloadView<'_>>,
    view: &PayloadView<'_>,
) -> bool
    ensures { IsTrue result ↔ RunsOn action version last.now (meant view.now) }
{
    view.action() == action && is_version(version, view.version()) && is_above(last, view)
}

/// Whether this is the version of the units before, if there are any.
#[inline(always)]
fn is_version(before: Option<u8>, version: u8) -> bool
    ensures { IsTrue result ↔ InVersion before version }
{
    match before {
        None => true,
        Some(before) => before == version,
    }
}

/// Whether the unit is above the last one.
#[inline(always)]
fn is_above(last: &Option<PayloadView<'_>>, view: &PayloadView<'_>) -> bool
    ensures { IsTrue result ↔ Ascends last.now (meant view.now).payload }
{
    match last {
        None => true,
        Some(last) => last.compare_names(view).is_lt(),
    }
}
