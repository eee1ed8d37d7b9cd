//! The numbers of routes of each validity, by their origin AS.

ghost use Rattle.std.specs.Prelude.{◌≡◌, ◌++◌, OnOk};
ghost use Rattle.validate_work.specs.RouteOrigins.{AddsRows, IsNextRow, first_label, is_left};
ghost use Rattle.validate_work.specs.RouteOrigins.{nearer, row_states_text, row_text};
ghost use Rattle.validate_work.specs.RouteOrigins.{stands_before};
ghost use Rattle.validate_work.specs.RouteOrigins.{states_at, with_origin};

use crate::form::Form;
use crate::states::{States, add_states};
use data_validation::Validity;
use list_lines::Line;
use rtr_base::asn::Asn;
use std::alloc::AllocError;
use std::collections::BTreeMap;

/// An origin AS, with how many of its routes have each validity.
#[derive(Clone, Copy, Debug, PartialEq, Eq)]
pub struct OriginRow {
    /// The AS.
    pub asn: Asn,
    /// How many of its routes have each validity.
    pub states: States,
}

impl OriginRow {
    /// Whether this row comes before the other: more invalid routes come first, and if equal, the
    /// smaller AS.
    fn stands_before(&self, other: &OriginRow) -> bool
        ensures { result ≡ stands_before self.now other.now }
    {
        let this = self.states.invalid;
        let that = other.states.invalid;
        that < this || (this == that && self.asn.into_u32() < other.asn.into_u32())
    }
}

/// Counts a route of this origin AS. A route without a single origin AS has no row.
pub(crate) fn count_origin(
    origins: &mut BTreeMap<Asn, States>,
    origin: Option<Asn>,
    state: Validity,
) -> Result<(), AllocError>
    ensures { OnOk result (origins.new.entries ≡ with_origin state origin origins.old.entries) }
{
    let Some(asn) = origin else {
        return Ok(());
    };
    let states = states_at(origins, asn).with(state);
    match origins.insert(asn, states) {
        Ok(_) => Ok(()),
        Err(_) => Err(AllocError),
    }
}

/// How many routes of an AS have each validity.
fn states_at(origins: &BTreeMap<Asn, States>, asn: Asn) -> States
    ensures { result ≡ states_at asn origins.now.entries }
{
    match origins.get(&asn) {
        Some(states) => *states,
        None => States::new(),
    }
}

/// Adds the rows that come after a given one, or the first ones, at most `most` of them.
pub(crate) fn add_rows(
    line: &mut Line,
    form: Form,
    origins: &BTreeMap<Asn, States>,
    after: &Option<OriginRow>,
    most: u8,
) -> Result<(), AllocError>
    ensures { OnOk result (AddsRows form most origins.now.entries after.now line.old line.new) }
{
    if most == 0 {
        return Ok(());
    }
    match next_row(origins, after) {
        None => Ok(()),
        Some(row) => {
            add_row(line, form, after.is_none(), &row)?;
            add_rows(line, form, origins, &Some(row), most - 1)
        }
    }
}

/// The row that comes next after a given one, or the first one.
fn next_row(origins: &BTreeMap<Asn, States>, after: &Option<OriginRow>) -> Option<OriginRow>
    ensures { IsNextRow origins.now.entries after.now result }
{
    let mut next = None;
    for (asn, states) in origins.iter() {
        let row = OriginRow {
            asn: *asn,
            states: *states,
        };
        next = nearer(after, next, row);
    }
    next
}

/// The row, if it comes after the given one and before the next one found so far.
fn nearer(after: &Option<OriginRow>, next: Option<OriginRow>, row: OriginRow) -> Option<OriginRow>
    ensures { result ≡ nearer after.now next row }
{
    if !is_left(after, &row) {
        return next;
    }
    match next {
        Some(other) if !row.stands_before(&other) => Some(other),
        _ => Some(row),
    }
}

/// Whether the row comes after the given one, if there is one.
fn is_left(after: &Option<OriginRow>, row: &OriginRow) -> bool
    ensures { result ≡ is_left after.now row.now }
{
    match after {
        Some(last) => last.stands_before(row),
        None => true,
    }
}

/// Adds a row; `is_first` is whether it is the first one.
fn add_row(line: &mut Line, form: Form, is_first: bool, row: &OriginRow) -> Result<(), AllocError>
    ensures { OnOk result (line.new ≡ line.old ++ row_text form is_first row.now) }
{
    line.labelled(first_label(form, is_first), u64::from(row.asn.into_u32()))?;
    add_row_states(line, form, &row.states)
}

/// The text before the AS of a row.
fn first_label(form: Form, is_first: bool) -> &'static str
    ensures { result.now ≡ first_label form is_first }
{
    match form {
        Form::Text => "AS",
        Form::Json if is_first => "{\"asn\":",
        Form::Json => ",{\"asn\":",
    }
}

/// Adds the text after the AS.
fn add_row_states(line: &mut Line, form: Form, states: &States) -> Result<(), AllocError>
    ensures { OnOk result (line.new ≡ line.old ++ row_states_text form states.now) }
{
    match form {
        Form::Text => add_states(line, " valid ", " invalid ", " not found ", "\n", states),
        Form::Json => add_states(
            line,
            ",\"valid\":",
            ",\"invalid\":",
            ",\"not found\":",
            "}",
            states,
        ),
    }
}
