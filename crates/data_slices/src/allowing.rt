//! Finds the first change of a sequence that data don't allow.

ghost use Rattle.std.specs.Prelude.{◌≡◌};
ghost use Rattle.data_slices.specs.Items.{meant};
ghost use Rattle.data_slices.specs.PrivateInOrder.{FindsEarliest, KnowsThere};
ghost use Rattle.data_slices.specs.PrivateInOrder.{disallowed as is_disallowed};
ghost use Rattle.data_slices.specs.PrivateInOrder.{earlier_of, fits as is_fitting};
ghost use Rattle.data_slices.specs.PrivateOffsets.{HaveSome};

use crate::item::PayloadView;
use crate::refused::sought;
use crate::settling::{first_unit, is_action, same_name};
use rtr_base::action::Action;

/// Returns the offset and action of the first change that isn't allowed, if the changes are applied
/// in their order. The offsets are sorted by name.
pub(crate) fn first_disallowed(
    data: &[u8],
    input: &[u8],
    offsets: &[usize],
) -> Option<(usize, Action)>
    requires { HaveSome input.now offsets.now }
    ensures { FindsEarliest result «data».now input.now offsets.now }
{
    let (mut rest, mut data_rest) = (offsets, data);
    let (mut last, mut found) = (None, None);
    'offsets: loop {
        let (offset, view, left) = match first_unit(input, rest) {
            Some(first) => first,
            None => return found,
        };
        let (is_there, data_left) = there_before(&last, &view, data_rest);
        found = earlier(found, disallowed(is_there, offset, &view));
        last = Some(view);
        rest = left;
        data_rest = data_left;
    }
}

/// Reports whether the name of the unit is present when its change comes, and returns the rest of
/// the data from that name on. The previous change of the same name decides, or else the data.
#[inline(always)]
fn there_before<'a>(
    last: &Option<PayloadView<'_>>,
    view: &PayloadView<'_>,
    data: &'a [u8],
) -> (bool, &'a [u8])
    ensures { KnowsThere last.now view.now result.0 result.1.now «data».now }
{
    match last {
        Some(before) => {
            if same_name(before, view) {
                return (is_action(Action::Announce, before.action()), data);
            }
            sought(view, data)
        }
        None => sought(view, data),
    }
}

/// The offset and action of a change that isn't allowed.
#[inline(always)]
fn disallowed(is_there: bool, offset: usize, view: &PayloadView<'_>) -> Option<(usize, Action)>
    ensures { result ≡ is_disallowed is_there offset (meant view.now).action
        (meant view.now).payload }
{
    if fits(is_there, view) {
        return None;
    }
    Some((offset, view.action()))
}

/// Reports whether a change is allowed, given whether its name is present.
#[inline(always)]
fn fits(is_there: bool, view: &PayloadView<'_>) -> bool
    ensures { result ≡ is_fitting is_there (meant view.now).action (meant view.now).payload }
{
    match view.action() {
        Action::Announce => !(is_there && !view.takes_place()),
        Action::Withdraw => is_there,
    }
}

/// The earlier of two disallowed changes.
#[inline(always)]
fn earlier(
    first: Option<(usize, Action)>,
    second: Option<(usize, Action)>,
) -> Option<(usize, Action)>
    ensures { result ≡ earlier_of first second }
{
    match (first, second) {
        (None, second) => second,
        (Some(left), None) => Some(left),
        (Some(left), Some(right)) => {
            if right.0 < left.0 {
                Some(right)
            } else {
                Some(left)
            }
        }
    }
}
