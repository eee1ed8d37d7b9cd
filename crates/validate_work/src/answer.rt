//! The text of the answer on a route.

ghost use Rattle.std.specs.Prelude.{◌≡◌, ◌++◌, OnOk, decimal};
ghost use Rattle.rtr_base.specs.Addresses.{resolved_len};
ghost use Rattle.rtr_base.specs.PlainTexts.{prefix_text};
ghost use Rattle.data_validation.specs.Covering.{vrp};
ghost use Rattle.validate_work.specs.Answers.{cover_text, mismatch_value, mismatch_words};
ghost use Rattle.validate_work.specs.Answers.{opening, route_origin_text, separator, state_words};
ghost use Rattle.validate_work.specs.Answers.{vrp_prefix};
ghost use Rattle.validate_work.specs.PrivateAnswers.{AddsAnswer, AddsCovers, AddsReasons};
ghost use Rattle.validate_work.specs.declared.form.Form.TheVariants.{Text, Json};

use crate::form::Form;
use crate::route_text::TableRoute;
use crate::vrps::Vrps;
use data_validation::{Mismatch, Route, Validity};
use list_lines::Line;
use rtr_base::addr::Prefix;
use rtr_base::asn::Asn;
use rtr_payload::payload::RouteOrigin;
use std::alloc::AllocError;

/// Adds the answer on a route, with a line feed: the route, its validity (RFC 6811 section 2), and
/// the VRPs that cover it, in the order of payloads, each with why it doesn't match the route. A
/// line for people has the VRPs only if the route is invalid.
pub fn add_answer(
    line: &mut Line,
    form: Form,
    vrps: &Vrps,
    route: &TableRoute,
) -> Result<(), AllocError>
    ensures { OnOk result (AddsAnswer form vrps.now route.now.prefix route.now.origin
        line.old line.new) }
{
    match form {
        Form::Text => add_line(line, vrps, route),
        Form::Json => add_object(line, vrps, route),
    }
}

/// Adds the line for people.
fn add_line(line: &mut Line, vrps: &Vrps, route: &TableRoute) -> Result<(), AllocError>
    ensures { OnOk result (AddsAnswer Text vrps.now route.now.prefix route.now.origin
        line.old line.new) }
{
    let asked = route.to_route();
    let state = vrps.validity(&asked);
    add_after(line, "", route.prefix)?;
    line.text(" ")?;
    add_origin(line, Form::Text, route.origin)?;
    line.text(" ")?;
    line.text(state_words(state))?;
    add_reasons(line, vrps, &asked, state)?;
    line.text("\n")
}

/// Adds the VRPs that cover an invalid route.
pub(crate) fn add_reasons(
    line: &mut Line,
    vrps: &Vrps,
    route: &Route,
    state: Validity,
) -> Result<(), AllocError>
    ensures { OnOk result (AddsReasons state vrps.now route.now.prefix route.now.asn
        line.old line.new) }
{
    match state {
        Validity::Invalid => add_covers(line, Form::Text, vrps, route),
        Validity::NotFound | Validity::Valid => Ok(()),
    }
}

/// Adds the JSON object.
fn add_object(line: &mut Line, vrps: &Vrps, route: &TableRoute) -> Result<(), AllocError>
    ensures { OnOk result (AddsAnswer Json vrps.now route.now.prefix route.now.origin
        line.old line.new) }
{
    let asked = route.to_route();
    let state = vrps.validity(&asked);
    add_after(line, "{\"prefix\":\"", route.prefix)?;
    line.text("\",\"asn\":")?;
    add_origin(line, Form::Json, route.origin)?;
    line.text(",\"state\":\"")?;
    line.text(state_words(state))?;
    line.text("\",\"vrps\":[")?;
    add_covers(line, Form::Json, vrps, &asked)?;
    line.text("]}\n")
}

/// Adds the origin AS of a route, or text that it has none.
pub(crate) fn add_origin(line: &mut Line, form: Form, origin: Option<Asn>) -> Result<(), AllocError>
    ensures { OnOk result (line.new ≡ line.old ++ route_origin_text form origin) }
{
    match (form, origin) {
        (Form::Text, Some(asn)) => line.labelled("AS", u64::from(asn.into_u32())),
        (Form::Text, None) => line.text("AS_SET"),
        (Form::Json, Some(asn)) => line.labelled("", u64::from(asn.into_u32())),
        (Form::Json, None) => line.text("null"),
    }
}

/// The word for a validity.
pub(crate) fn state_words(state: Validity) -> &'static str
    ensures { result.now ≡ state_words state }
{
    match state {
        Validity::NotFound => "not found",
        Validity::Valid => "valid",
        Validity::Invalid => "invalid",
    }
}

/// Adds a text, and a prefix after it.
fn add_after(line: &mut Line, before: &str, prefix: Prefix) -> Result<(), AllocError>
    ensures { OnOk result (line.new ≡ line.old ++ (before.now ++ prefix_text prefix)) }
{
    line.text(before)?;
    line.show(prefix)
}

/// Adds a text, a prefix after it, another text, and a number after that.
fn add_prefix(
    line: &mut Line,
    before: &str,
    prefix: Prefix,
    between: &str,
    number: u64,
) -> Result<(), AllocError>
    ensures { OnOk result (line.new ≡ line.old
        ++ (before.now ++ prefix_text prefix ++ between.now ++ decimal number)) }
{
    line.text(before)?;
    line.show(prefix)?;
    line.labelled(between, number)
}

/// Adds the VRPs that cover the route, each with why it doesn't match.
pub(crate) fn add_covers(
    line: &mut Line,
    form: Form,
    vrps: &Vrps,
    route: &Route,
) -> Result<(), AllocError>
    ensures { OnOk result (AddsCovers form vrps.now route.now.prefix route.now.asn
        line.old line.new) }
{
    let mut between = opening(form);
    let mut from = 0;
    'covers: while let Some(found) = vrps.first_covering(route.prefix, from) {
        line.text(between)?;
        add_cover(line, form, &found.origin, found.mismatch(route))?;
        from = found.place + 1;
        between = separator(form);
    }
    Ok(())
}

/// The text before the first VRP.
fn opening(form: Form) -> &'static str
    ensures { result.now ≡ opening form }
{
    match form {
        Form::Text => ": ",
        Form::Json => "",
    }
}

/// The text before each other VRP.
fn separator(form: Form) -> &'static str
    ensures { result.now ≡ separator form }
{
    match form {
        Form::Text => "; ",
        Form::Json => ",",
    }
}

/// Adds a VRP, and why it doesn't match.
fn add_cover(
    line: &mut Line,
    form: Form,
    origin: &RouteOrigin,
    why: Option<Mismatch>,
) -> Result<(), AllocError>
    ensures { OnOk result (line.new ≡ line.old
        ++ cover_text form (record { vrp = vrp origin.now; why = why })) }
{
    match form {
        Form::Text => add_cover_words(line, origin, why),
        Form::Json => add_cover_object(line, origin, why),
    }
}

/// Adds a VRP for people.
fn add_cover_words(
    line: &mut Line,
    origin: &RouteOrigin,
    why: Option<Mismatch>,
) -> Result<(), AllocError>
    ensures { OnOk result (line.new ≡ line.old
        ++ cover_text Text (record { vrp = vrp origin.now; why = why })) }
{
    add_vrp(line, origin, "", "-", " AS")?;
    line.text(" (")?;
    add_mismatch(line, why, u64::from(origin.prefix.resolved_max_len()))?;
    line.text(")")
}

/// Adds a VRP as a JSON object.
fn add_cover_object(
    line: &mut Line,
    origin: &RouteOrigin,
    why: Option<Mismatch>,
) -> Result<(), AllocError>
    ensures { OnOk result (line.new ≡ line.old
        ++ cover_text Json (record { vrp = vrp origin.now; why = why })) }
{
    add_vrp(
        line,
        origin,
        "{\"prefix\":\"",
        "\",\"maxLength\":",
        ",\"asn\":",
    )?;
    line.text(",\"mismatch\":")?;
    line.text(mismatch_value(why))?;
    line.text("}")
}

/// Adds the prefix, the max length and the ASN of a VRP, each after a text.
fn add_vrp(
    line: &mut Line,
    origin: &RouteOrigin,
    before: &str,
    between: &str,
    label: &str,
) -> Result<(), AllocError>
    ensures { OnOk result (line.new ≡ line.old ++ (before.now ++ vrp_prefix (vrp origin.now)
        ++ between.now ++ decimal (resolved_len origin.now.prefix) ++ label.now
        ++ decimal origin.now.asn)) }
{
    let max_len = u64::from(origin.prefix.resolved_max_len());
    add_prefix(line, before, origin.prefix.prefix(), between, max_len)?;
    line.labelled(label, u64::from(origin.asn.into_u32()))
}

/// Adds why a VRP of this max length doesn't match.
fn add_mismatch(line: &mut Line, why: Option<Mismatch>, max_len: u64) -> Result<(), AllocError>
    ensures { OnOk result (line.new ≡ line.old ++ mismatch_words why max_len) }
{
    match why {
        None => line.text("matches"),
        Some(Mismatch::AsZero) => line.text("AS 0"),
        Some(Mismatch::OtherAs) => line.text("another AS"),
        Some(Mismatch::TooLong) => line.labelled("longer than ", max_len),
    }
}

/// Why a VRP doesn't match, as a value of JSON.
fn mismatch_value(why: Option<Mismatch>) -> &'static str
    ensures { result.now ≡ mismatch_value why }
{
    match why {
        None => "null",
        Some(Mismatch::AsZero) => "\"AS 0\"",
        Some(Mismatch::OtherAs) => "\"another AS\"",
        Some(Mismatch::TooLong) => "\"too long\"",
    }
}
