//! How a change of the list changes the validity of a route.

ghost use Rattle.std.specs.Prelude.{◌≡◌, ◌++◌, OnOk};
ghost use Rattle.validate_work.specs.PrivateAnswers.{AddsListAnswer, AddsTold, AddsTurn};
ghost use Rattle.validate_work.specs.PrivateAnswers.{AddsTurned};
ghost use Rattle.validate_work.specs.Turned.{before_origin, before_prefix, is_reported};
ghost use Rattle.validate_work.specs.Turned.{states_between, turn_head};
ghost use Rattle.validate_work.specs.declared.form.Form.TheVariants.{Text, Json};

use crate::answer::{add_answer, add_covers, add_origin, add_reasons, state_words};
use crate::form::Form;
use crate::lists::Lists;
use crate::route_text::TableRoute;
use crate::vrps::Vrps;
use data_validation::{Route, Validity};
use list_lines::Line;
use std::alloc::AllocError;

/// Adds the answer on a route, by `add_answer`. If two lists are compared, adds instead the change
/// of validity of a route that becomes invalid or was invalid, with the VRPs of the other list that
/// cover it, and nothing for any other route.
pub fn add_list_answer(
    line: &mut Line,
    form: Form,
    lists: Lists<'_>,
    route: &TableRoute,
) -> Result<(), AllocError>
    ensures { OnOk result (AddsListAnswer form lists.entry route.now.prefix route.now.origin
        line.old line.new) }
{
    match lists.other {
        None => add_answer(line, form, lists.used, route),
        Some(other) => add_turn(line, form, lists.used, other, route),
    }
}

/// Adds the change of validity of the route, if it is reported.
fn add_turn(
    line: &mut Line,
    form: Form,
    used: &Vrps,
    other: &Vrps,
    route: &TableRoute,
) -> Result<(), AllocError>
    ensures { OnOk result (AddsTurn form used.now other.now route.now.prefix route.now.origin
        line.old line.new) }
{
    let asked = route.to_route();
    let state = used.validity(&asked);
    let next = other.validity(&asked);
    add_if_reported(line, form, other, route, state, next)
}

/// Adds the change between these validities of the route, if it is reported.
fn add_if_reported(
    line: &mut Line,
    form: Form,
    other: &Vrps,
    route: &TableRoute,
    state: Validity,
    next: Validity,
) -> Result<(), AllocError>
    ensures { OnOk result (AddsTold form other.now route.now.prefix route.now.origin state next
        line.old line.new) }
{
    if !is_reported(state, next) {
        return Ok(());
    }
    match form {
        Form::Text => add_turn_line(line, other, route, state, next),
        Form::Json => add_turn_object(line, other, route, state, next),
    }
}

/// Reports whether a change is printed: if the route becomes invalid, or was invalid.
fn is_reported(state: Validity, next: Validity) -> bool
    ensures { result ≡ is_reported state next }
{
    match (state, next) {
        (Validity::Invalid, Validity::Invalid) => false,
        (Validity::Invalid, _) => true,
        (_, Validity::Invalid) => true,
        _ => false,
    }
}

/// Adds the line for people.
fn add_turn_line(
    line: &mut Line,
    other: &Vrps,
    route: &TableRoute,
    state: Validity,
    next: Validity,
) -> Result<(), AllocError>
    ensures { OnOk result (AddsTurned Text other.now route.now.prefix route.now.origin state next
        line.old line.new) }
{
    let asked = route.to_route();
    add_head(line, Form::Text, route, state, next)?;
    add_reasons(line, other, &asked, next)?;
    line.text("\n")
}

/// Adds the JSON object.
fn add_turn_object(
    line: &mut Line,
    other: &Vrps,
    route: &TableRoute,
    state: Validity,
    next: Validity,
) -> Result<(), AllocError>
    ensures { OnOk result (AddsTurned Json other.now route.now.prefix route.now.origin state next
        line.old line.new) }
{
    let asked = route.to_route();
    add_head(line, Form::Json, route, state, next)?;
    add_covers(line, Form::Json, other, &asked)?;
    line.text("]}\n")
}

/// Adds the route, and both validities.
fn add_head(
    line: &mut Line,
    form: Form,
    route: &TableRoute,
    state: Validity,
    next: Validity,
) -> Result<(), AllocError>
    ensures { OnOk result (line.new ≡ line.old
        ++ turn_head form route.now.prefix route.now.origin state next) }
{
    line.text(before_prefix(form))?;
    line.show(route.prefix)?;
    line.text(before_origin(form))?;
    add_origin(line, form, route.origin)?;
    add_states_between(line, form, state, next)
}

/// The text before the prefix.
fn before_prefix(form: Form) -> &'static str
    ensures { result.now ≡ before_prefix form }
{
    match form {
        Form::Text => "",
        Form::Json => "{\"prefix\":\"",
    }
}

/// The text before the origin AS.
fn before_origin(form: Form) -> &'static str
    ensures { result.now ≡ before_origin form }
{
    match form {
        Form::Text => " ",
        Form::Json => "\",\"asn\":",
    }
}

/// Adds both validities.
fn add_states_between(
    line: &mut Line,
    form: Form,
    state: Validity,
    next: Validity,
) -> Result<(), AllocError>
    ensures { OnOk result (line.new ≡ line.old ++ states_between form state next) }
{
    match form {
        Form::Text => {
            line.text(" ")?;
            line.text(state_words(state))?;
            line.text(" to ")?;
            line.text(state_words(next))
        }
        Form::Json => {
            line.text(",\"state\":\"")?;
            line.text(state_words(state))?;
            line.text("\",\"becomes\":\"")?;
            line.text(state_words(next))?;
            line.text("\",\"vrps\":[")
        }
    }
}
