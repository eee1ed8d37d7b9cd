//! The result of applying changes to data, written into a slice, given the offsets of the changes
//! sorted by name.

ghost use Rattle.std.specs.Prelude.{◌≡◌, ◌<◌, ◌≤◌, IfSome, None, length};
ghost use Rattle.rtr_units.specs.AnyEnd.{end_bytes, end_meaning};
ghost use Rattle.rtr_units.specs.End.{end_list};
ghost use Rattle.unit_views.specs.Placing.{Places};
ghost use Rattle.data_slices.specs.Items.{meant};
ghost use Rattle.data_slices.specs.PrivateChanges.{IsNext, IsUnder};
ghost use Rattle.data_slices.specs.PrivateMade.{IsAfterName, IsFollowed, NoneBelow, PlacesBelow};
ghost use Rattle.data_slices.specs.PrivateMade.{PlacesMade, PlacesMadeAll, PlacesUpTo};
ghost use Rattle.data_slices.specs.PrivateMade.{announced_form};
ghost use Rattle.data_slices.specs.PrivateOffsets.{HaveSome};

use crate::applied::{is_under, next_prefix_under};
use crate::item::{PayloadView, next_unit};
use crate::placing::place_unit;
use crate::settling::{first_unit, same_name};
use rtr_base::action::Action;
use rtr_units::end::EndOfData;
use unit_views::placing::place;

/// Writes the result of applying the changes, all of which are allowed, to the data, and the end of
/// data.
pub(crate) fn place_all_made(
    data: &[u8],
    input: &[u8],
    offsets: &[usize],
    end: &EndOfData,
    output: &mut [u8],
) -> Option<usize>
    requires units { HaveSome input.now offsets.now }
    requires end { end_bytes end.now ≡ end_list (end_meaning end.now) }
    ensures { PlacesMadeAll result «data».now input.now offsets.now (end_meaning end.now)
        output.old output.new }
{
    let size = place_made(data, input, offsets, output)?;
    let end_size = place(end.as_ref(), &[], &mut output[size..])?;
    Some(size + end_size)
}

/// Writes the units that announce the result of applying the changes to the data: for each name its
/// last change decides.
fn place_made(data: &[u8], input: &[u8], offsets: &[usize], output: &mut [u8]) -> Option<usize>
    requires { HaveSome input.now offsets.now }
    ensures bytes { PlacesMade result «data».now input.now offsets.now output.old output.new }
    ensures within { IfSome result (λ n. n ≤ length output.old) }
{
    let (mut rest, mut data_rest, mut written) = (offsets, data, 0);
    'offsets: loop {
        let (_, view, left) = match first_unit(input, rest) {
            Some(first) => first,
            None => break 'offsets,
        };
        rest = left;
        if is_followed(&view, input, left) {
            continue 'offsets;
        }
        let bound = Some(view);
        let (size, data_left) = place_name(&bound, data_rest, &mut output[written..])?;
        written += size;
        data_rest = data_left;
    }
    let (last_size, _) = place_name(&None, data_rest, &mut output[written..])?;
    Some(written + last_size)
}

/// Whether the first of the units at the offsets has the name of this one.
#[inline(always)]
fn is_followed(view: &PayloadView<'_>, input: &[u8], offsets: &[usize]) -> bool
    requires { HaveSome input.now offsets.now }
    ensures { IsFollowed result view.now input.now offsets.now }
{
    match first_unit(input, offsets) {
        Some((_, later, _)) => same_name(view, &later),
        None => false,
    }
}

/// Writes the data below the unit's name, and the unit if it announces; or all of the data, if
/// there is no unit. Returns the length, and the rest of the data.
fn place_name<'a>(
    bound: &Option<PayloadView<'_>>,
    data: &'a [u8],
    output: &mut [u8],
) -> Option<(usize, &'a [u8])>
    ensures bytes { PlacesUpTo result bound.now «data».now output.old output.new }
    ensures within { IfSome result (λ p. p.0 ≤ length output.old) }
{
    let (size, from) = place_below(bound, data, output)?;
    let view = match bound {
        Some(view) => view,
        None => return Some((size, from)),
    };
    let more = place_announced(view, &mut output[size..])?;
    Some((size + more, after_name(view, from)))
}

/// Writes the data below the bound, or all data. Returns the length, and the rest of the data.
fn place_below<'a>(
    bound: &Option<PayloadView<'_>>,
    data: &'a [u8],
    output: &mut [u8],
) -> Option<(usize, &'a [u8])>
    ensures bytes { PlacesBelow result bound.now «data».now output.old output.new }
    ensures within { IfSome result (λ p. p.0 ≤ length output.old) }
{
    let (mut rest, mut written) = (data, 0);
    'units: loop {
        let (view, left) = match next_below(rest, bound) {
            Some(first) => first,
            None => return Some((written, rest)),
        };
        written += place_unit(&view, &mut output[written..])?;
        rest = left;
    }
}

/// The unit at the front of the data, and what follows it, if it is below the bound. Most units are
/// prefixes.
#[inline(always)]
fn next_below<'a>(
    data: &'a [u8],
    bound: &Option<PayloadView<'_>>,
) -> Option<(PayloadView<'a>, &'a [u8])>
    ensures unit { IfSome result (λ p. IsNext p.0 p.1.now «data».now) }
    ensures under { IfSome result (λ p. IsUnder p.0 bound.now) }
    ensures shorter { IfSome result (λ p. length p.1.now < length «data».now) }
    ensures none { result ≡ None → NoneBelow bound.now «data».now }
{
    if let Some(first) = next_prefix_under(data, bound) {
        return Some(first);
    }
    match next_unit(data) {
        Some((view, left)) => {
            if !is_under(&view, bound) {
                return None;
            }
            Some((view, left))
        }
        None => None,
    }
}

/// Writes the unit, if it announces.
#[inline(always)]
fn place_announced(view: &PayloadView<'_>, output: &mut [u8]) -> Option<usize>
    ensures { Places result (announced_form (meant view.now).action (meant view.now))
        output.old output.new }
{
    match view.action() {
        Action::Announce => place_unit(view, output),
        Action::Withdraw => Some(0),
    }
}

/// What follows the first unit of the data, if it has the unit's name, or else the data.
#[inline(always)]
fn after_name<'a>(view: &PayloadView<'_>, data: &'a [u8]) -> &'a [u8]
    ensures { IsAfterName view.now result.now «data».now }
{
    match next_unit(data) {
        Some((first, left)) => {
            if same_name(view, &first) {
                return left;
            }
            data
        }
        None => data,
    }
}
