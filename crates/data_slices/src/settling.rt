//! The net effect of the changes of each name, given the offsets of the units sorted by name.

ghost use Rattle.std.specs.Prelude.{◌≡◌, ◌≤◌, IfSome, length};
ghost use Rattle.std.specs.Ordering.{is_eq};
ghost use Rattle.data_memory.specs.Data.{name_cmp};
ghost use Rattle.data_memory.specs.Sequences.{change_of};
ghost use Rattle.unit_views.specs.Placing.{Places};
ghost use Rattle.data_slices.specs.Items.{meant};
ghost use Rattle.data_slices.specs.Net.{settles as is_settling};
ghost use Rattle.data_slices.specs.PrivateOffsets.{FindsWrong, HaveSome, PlacesNets};
ghost use Rattle.data_slices.specs.PrivateOffsets.{TakesFirstUnit};
ghost use Rattle.data_slices.specs.PrivateOffsets.{between as is_between, first_after, last_form};
ghost use Rattle.data_slices.specs.PrivateOffsets.{is_action as has_action, open_at, unlinked_at};
ghost use Rattle.data_slices.specs.PrivateOffsets.{same_name as have_name};

use crate::item::PayloadView;
use crate::offsets::unit_at;
use crate::order_fault::OrderFault;
use crate::placing::place_unit;
use rtr_base::action::Action;

/// The first refusal, in the order of names.
pub(crate) fn first_refusal(input: &[u8], offsets: &[usize]) -> Option<OrderFault>
    requires { HaveSome input.now offsets.now }
    ensures { FindsWrong result input.now offsets.now }
{
    // The borrow checker doesn't cover `?` on an option that holds a view.
    let (mut offset, mut view, mut rest) = match first_unit(input, offsets) {
        Some(first) => first,
        None => return None,
    };
    let mut first = view.action();
    'offsets: loop {
        let (next, later, left) = match first_unit(input, rest) {
            Some(first) => first,
            None => return open_end(first, offset, &view),
        };
        let same = same_name(&view, &later);
        match between(same, first, offset, &view, next, &later) {
            Some(fault) => return Some(fault),
            None => {}
        }
        first = first_action(same, first, &later);
        offset = next;
        view = later;
        rest = left;
    }
}

/// Writes the net effect of the changes of each name, if it has this action.
pub(crate) fn place_settled(
    input: &[u8],
    offsets: &[usize],
    action: Action,
    output: &mut [u8],
) -> Option<usize>
    requires { HaveSome input.now offsets.now }
    ensures bytes { PlacesNets action result input.now offsets.now output.old output.new }
    ensures within { IfSome result (λ n. n ≤ length output.old) }
{
    let (_, mut view, mut rest) = match first_unit(input, offsets) {
        Some(first) => first,
        None => return Some(0),
    };
    let (mut first, mut written) = (view.action(), 0);
    'offsets: loop {
        let (_, later, left) = match first_unit(input, rest) {
            Some(first) => first,
            None => break 'offsets,
        };
        let same = same_name(&view, &later);
        written += place_last(!same, action, first, &view, &mut output[written..])?;
        first = first_action(same, first, &later);
        view = later;
        rest = left;
    }
    let last_size = place_last(true, action, first, &view, &mut output[written..])?;
    Some(written + last_size)
}

/// The first of the offsets, the unit there, and the other offsets. Callers take it apart by
/// `match`: the borrow checker doesn't cover `?` on an option that holds a view.
#[inline(always)]
pub(crate) fn first_unit<'a, 'b>(
    input: &'a [u8],
    offsets: &'b [usize],
) -> Option<(usize, PayloadView<'a>, &'b [usize])>
    requires { HaveSome input.now offsets.now }
    ensures { TakesFirstUnit result input.now offsets.now }
{
    let (offset, rest) = offsets.split_first()?;
    match unit_at(input, *offset) {
        Some(view) => Some((*offset, view, rest)),
        None => unreachable!(),
    }
}

/// Whether two units have the same name.
#[inline(always)]
pub(crate) fn same_name(left: &PayloadView<'_>, right: &PayloadView<'_>) -> bool
    ensures { result ≡ have_name (change_of (meant left.now)) (change_of (meant right.now)) }
{
    left.compare_names(right).is_eq()
}

/// The action of the first unit of a name.
#[inline(always)]
fn first_action(same: bool, first: Action, view: &PayloadView<'_>) -> Action
    ensures { result ≡ first_after same first (change_of (meant view.now)) }
{
    if same { first } else { view.action() }
}

/// The refusal of two successive units.
#[inline(always)]
fn between(
    same: bool,
    first: Action,
    offset: usize,
    view: &PayloadView<'_>,
    next: usize,
    later: &PayloadView<'_>,
) -> Option<OrderFault>
    ensures { result ≡ is_between same first offset (change_of (meant view.now)) next
        (change_of (meant later.now)) }
{
    if same {
        unlinked(view.action(), next, later)
    } else {
        open_end(first, offset, view)
    }
}

/// Why a unit may not follow one of its name with this action.
#[inline(always)]
fn unlinked(before: Action, offset: usize, view: &PayloadView<'_>) -> Option<OrderFault>
    ensures { result ≡ unlinked_at before offset (change_of (meant view.now)) }
{
    match (before, view.action()) {
        (Action::Announce, Action::Announce) => {
            if view.takes_place() {
                None
            } else {
                Some(OrderFault::Duplicate { offset })
            }
        }
        (Action::Withdraw, Action::Withdraw) => Some(OrderFault::Unknown { offset }),
        (Action::Announce, Action::Withdraw) => None,
        (Action::Withdraw, Action::Announce) => None,
    }
}

/// The refusal of the last unit of a name, if the net effect is undecided.
#[inline(always)]
fn open_end(first: Action, offset: usize, view: &PayloadView<'_>) -> Option<OrderFault>
    ensures { result ≡ open_at first offset (change_of (meant view.now)) }
{
    match (first, view.action()) {
        (Action::Announce, Action::Withdraw) => {
            if view.takes_place() {
                Some(OrderFault::Undecided { offset })
            } else {
                None
            }
        }
        (Action::Announce, Action::Announce) => None,
        (Action::Withdraw, Action::Announce) => None,
        (Action::Withdraw, Action::Withdraw) => None,
    }
}

/// Whether the net effect of the changes of a name is the last of them.
#[inline(always)]
fn settles(first: Action, view: &PayloadView<'_>) -> bool
    ensures { result ≡ is_settling first (meant view.now).action (meant view.now).payload }
{
    match (first, view.action()) {
        (Action::Announce, Action::Announce) => true,
        (Action::Withdraw, Action::Withdraw) => true,
        (Action::Withdraw, Action::Announce) => view.takes_place(),
        (Action::Announce, Action::Withdraw) => false,
    }
}

/// Whether the actions are the same.
#[inline(always)]
pub(crate) fn is_action(left: Action, right: Action) -> bool
    ensures { result ≡ has_action left right }
{
    left == right
}

/// Writes the unit, if it is the last of its name, is the net effect, and has this action.
#[inline(always)]
fn place_last(
    ends: bool,
    action: Action,
    first: Action,
    view: &PayloadView<'_>,
    output: &mut [u8],
) -> Option<usize>
    ensures { Places result (last_form ends action first (meant view.now)) output.old output.new }
{
    if !ends || !is_action(action, view.action()) || !settles(first, view) {
        return Some(0);
    }
    place_unit(view, output)
}
