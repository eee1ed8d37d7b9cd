//! Checking units against rules, for callers that keep the names of the announced payloads.

ghost use Rattle.std.specs.Prelude.{◌≡◌, ℕ, List, Result};
ghost use Rattle.unit_any.specs.AnyFields.{AnyFields};
ghost use Rattle.text_lines.specs.Laying.{Lays};
ghost use Rattle.text_findings.specs.CheckedUnits.{found_in, known_after};
ghost use Rattle.text_findings.specs.Rules.{end_findings};
ghost use Rattle.rtr_c.specs.Checks.{Checks, LooksAt, NamesTold, check_state, numbered_finding};
ghost use Rattle.rtr_c.specs.Checks.{told_line};
ghost use Rattle.rtr_c.specs.declared.lines.RtrLine.{RtrLine};

use crate::answer::ACCEPTED;
use crate::check::{
    RtrCheck, RtrChecked, RtrFinding, RtrNaming, check_from, check_to, finding_from, finding_to,
    findings_to, none_checked, none_named,
};
use crate::lines::{first_unit, room_status};
use text_findings::{announces, begins, describe_finding, lay_name};
use text_lines::listed_unit;

/// The payload that the unit at the front of the input announces or withdraws, as
/// `text_findings::lay_name`, and what the caller does with its name.
///
/// Statuses: those of `rtr_unit_size`, `SHORT` if the unit is incomplete, and `NO_ROOM` if the
/// output is too short.
#[unsafe(no_mangle)]
pub extern "C" fn rtr_check_name_nonnull(
    input: &[u8],
    output: &mut [u8],
    answer: &mut RtrNaming,
) -> u8
    ensures { (u : Result (List ℕ) RtrLine) × LooksAt input.now u
        × NamesTold u output.old output.new answer.new result }
{
    let unit = match first_unit(input) {
        Ok(unit) => unit,
        Err(none) => {
            *answer = none_named(none.status, none.detail, none.wanted);
            return none.status;
        }
    };
    let listed = listed_unit(unit);
    let room = output.len();
    let length = lay_name(output, &listed);
    let status = room_status(length, room);
    *answer = RtrNaming {
        size: unit.len(),
        length,
        wanted: 0,
        status,
        detail: 0,
        begins: begins(&listed),
        announces: announces(&listed),
    };
    status
}

/// The rules that the unit at the front of the input breaks, as
/// `text_findings::SequenceState::check`; the caller passes whether the name of its payload was in
/// its set. Statuses are those of `rtr_check_name_nonnull`, except `NO_ROOM`; after any of them the
/// state is unchanged.
#[unsafe(no_mangle)]
pub extern "C" fn rtr_check_unit_nonnull(
    check: &mut RtrCheck,
    input: &[u8],
    was_there: bool,
    answer: &mut RtrChecked,
) -> u8
    ensures { (u : Result (List ℕ) RtrLine) × LooksAt input.now u
        × Checks u was_there check.old check.new answer.new result }
{
    let unit = match first_unit(input) {
        Ok(unit) => unit,
        Err(none) => {
            *answer = none_checked(none.status, none.detail, none.wanted);
            return none.status;
        }
    };
    let listed = listed_unit(unit);
    let state = check_from(check);
    let found = state.check(&listed, was_there);
    *answer = RtrChecked {
        size: unit.len(),
        wanted: 0,
        findings: findings_to(found.slots),
        status: ACCEPTED,
        detail: 0,
    };
    *check = check_to(&state.after(&listed));
    ACCEPTED
}

/// The finding at the end of the input, as `text_findings::SequenceState::missing`.
#[unsafe(no_mangle)]
pub extern "C" fn rtr_check_end(check: &RtrCheck, finding: &mut RtrFinding)
    ensures { (history : List AnyFields) → check_state check.now ≡ known_after history →
        found_in (numbered_finding finding.new) ≡ end_findings history }
{
    *finding = finding_to(check_from(check).missing());
}

/// Writes the line that `rtr_list --check` prints of a finding about a unit at `offset`, without
/// its newline, to the front of the output, as much of it as fits, and returns its length; 0 for no
/// finding.
#[unsafe(no_mangle)]
pub extern "C" fn rtr_finding_line_nonnull(
    finding: &RtrFinding,
    offset: u64,
    output: &mut [u8],
) -> usize
    ensures { Lays (told_line offset (numbered_finding finding.now)) 0
        output.old result output.new }
{
    match finding_from(finding) {
        Some(finding) => describe_finding(output, 0, offset, &finding),
        None => 0,
    }
}
