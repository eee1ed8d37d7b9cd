//! The payloads of one slice of data that another lacks.

ghost use Rattle.std.specs.Prelude.{◌≡◌, ◌++◌, ◌<◌, ◌≤◌, ◌↔◌, IsTrue, List, ℕ, None};
ghost use Rattle.std.specs.Prelude.{IfSome, length};
ghost use Rattle.rtr_base.specs.declared.action.Action.TheVariants.{Announce};
ghost use Rattle.rtr_payload.specs.AspaUnits.{aspa_at};
ghost use Rattle.rtr_payload.specs.FirstFault.{first_fault};
ghost use Rattle.data_memory.specs.Data.{name_cmp};
ghost use Rattle.rtr_payload.specs.UnitFields.{HasFields, aspa_unit};
ghost use Rattle.unit_views.specs.Placing.{Places};
ghost use Rattle.data_slices.specs.Canonical.{HasData};
ghost use Rattle.data_slices.specs.Items.{IsItem, IsShort, IsComplete, meant};
ghost use Rattle.data_slices.specs.PrivateOrder.{IsDataItem, PlacesMissing};
ghost use Rattle.data_slices.specs.PrivateOrder.{is_same_for, is_same_item, item_order};
ghost use Rattle.data_slices.specs.PrivateOrder.{lacking_form};
ghost use Rattle.data_slices.specs.PrivateOrder.{lacks as is_lacking};

use crate::item::{Item, PayloadView, next};
use crate::placing::place_change;
use crate::shared::after_shared_unit;
use rtr_base::action::Action;
use std::cmp::Ordering;
use unit_views::aspa::AspaView;

/// Writes the units of this version that announce or withdraw the payloads that the first data have
/// and the second lack, in order, and returns their length in bytes, or none if the output is too
/// short. Most units are equal in both, so that is checked first.
pub(crate) fn place_missing(
    these: &[u8],
    those: &[u8],
    version: u8,
    action: Action,
    output: &mut [u8],
) -> Option<usize>
    requires these { HasData these.now }
    requires those { HasData those.now }
    ensures bytes { PlacesMissing version action result these.now those.now
        output.old output.new }
    ensures within { IfSome result (λ n. n ≤ length output.old) }
{
    let (mut these_rest, mut those_rest, mut written) = (these, those, 0);
    'units: loop {
        if let Some((these_left, those_left)) = after_shared_unit(these_rest, those_rest) {
            these_rest = these_left;
            those_rest = those_left;
            continue 'units;
        }
        let (item, after_first) = next_of_data(these_rest);
        let first = match item {
            Item::Unit(view) => view,
            Item::End(_) => return Some(written),
        };
        let (second, after_second) = next_of_data(those_rest);
        let order = compare_item(&first, &second);
        let room = &mut output[written..];
        written += place_lacking(&first, &second, order, version, action, room)?;
        match order {
            Ordering::Less => these_rest = after_first,
            Ordering::Equal => {
                these_rest = after_first;
                those_rest = after_second;
            }
            Ordering::Greater => those_rest = after_second,
        }
    }
}

/// The item at the front of data, and what follows it.
#[inline(always)]
fn next_of_data<'a>(input: &'a [u8]) -> (Item<'a>, &'a [u8])
    requires { first_fault input.now ≡ None }
    ensures item { (b : List ℕ) × IsItem result.0 b × (input.now ≡ b ++ result.1.now) }
    ensures shorter { length result.1.now < length input.now }
{
    match next(input) {
        Ok(first) => first,
        Err(_) => unreachable!(),
    }
}

/// The order of the names of a unit and of an item of other data; an end of data comes after all
/// units.
#[inline(always)]
fn compare_item(first: &PayloadView<'_>, second: &Item<'_>) -> Ordering
    ensures { result ≡ item_order first.now second.now }
{
    match second {
        Item::Unit(second) => first.compare_names(second),
        Item::End(_) => Ordering::Less,
    }
}

/// Writes the unit, in this version, if the other data lack it; the next item of these compares
/// with it in this order.
#[inline(always)]
fn place_lacking(
    first: &PayloadView<'_>,
    second: &Item<'_>,
    order: Ordering,
    version: u8,
    action: Action,
    output: &mut [u8],
) -> Option<usize>
    requires first { ((meant first.now).action ≡ Announce) × IsComplete first.now ×
        IsShort first.now }
    requires second { IsDataItem second.now }
    requires order { order ≡ item_order first.now second.now }
    ensures { Places result (lacking_form version action first.now
        (is_lacking order (is_same_item action first.now second.now))) output.old output.new }
{
    let is_there = match order {
        Ordering::Less => false,
        Ordering::Equal => is_same_as(first, second, action),
        Ordering::Greater => true,
    };
    if is_there {
        return Some(0);
    }
    place_change(first, version, action, output)
}

/// Whether an item of the same name is the same payload; for a withdrawal, whether it has the same
/// name.
#[inline(always)]
fn is_same_as(first: &PayloadView<'_>, second: &Item<'_>, action: Action) -> bool
    requires first { ((meant first.now).action ≡ Announce) × IsComplete first.now ×
        IsShort first.now }
    requires second { IsDataItem second.now }
    requires order { Ordering.Equal ≡ item_order first.now second.now }
    ensures { result ≡ is_same_item action first.now second.now }
{
    match second {
        Item::Unit(second) => match action {
            Action::Announce => is_same_payload(first, second),
            Action::Withdraw => true,
        },
        Item::End(_) => false,
    }
}

/// Whether two payloads of one name are the same: for ASPAs the providers decide.
#[inline(always)]
fn is_same_payload(first: &PayloadView<'_>, second: &PayloadView<'_>) -> bool
    requires first { ((meant first.now).action ≡ Announce) × IsComplete first.now ×
        IsShort first.now }
    requires second { ((meant second.now).action ≡ Announce) × IsComplete second.now ×
        IsShort second.now }
    requires order { Ordering.Equal ≡
        name_cmp (meant first.now).payload (meant second.now).payload }
    ensures { result ≡ is_same_for Announce (meant first.now).payload (meant second.now).payload }
{
    match first {
        PayloadView::Origin(_) => true,
        PayloadView::RouterKey(_) => true,
        PayloadView::Aspa(first) => match second {
            PayloadView::Aspa(second) => same_providers(first, second),
            PayloadView::Origin(_) => false,
            PayloadView::RouterKey(_) => false,
        },
    }
}

/// Whether two ASPA units have the same providers.
#[inline(always)]
fn same_providers(left: &AspaView<'_>, right: &AspaView<'_>) -> bool
    requires left { HasFields left.now.unit.now (aspa_unit (aspa_at left.now.unit.now)) }
    requires right { HasFields right.now.unit.now (aspa_unit (aspa_at right.now.unit.now)) }
    ensures { IsTrue result ↔ ((aspa_at left.now.unit.now).aspa.providers ≡
        (aspa_at right.now.unit.now).aspa.providers) }
{
    left.providers() == right.providers()
}
