//! Finds the first unit that breaks a rule.

ghost use Rattle.std.specs.Prelude.{◌≡◌, ◌<◌, ◌≤◌, IfSome, length};
ghost use Rattle.data_slices.specs.Items.{meant};
ghost use Rattle.data_slices.specs.PrivateChanges.{FindsRefused, GoesPast, IsOrderOf, Seeks};
ghost use Rattle.data_slices.specs.PrivateChanges.{is_against};

use crate::item::{PayloadView, PrefixKind, next_prefix, next_unit};
use std::cmp::Ordering;

/// A rule on units, given the names of other units.
#[derive(Clone, Copy)]
pub(crate) enum Rule {
    /// No unit withdraws a payload that is announced.
    Apart,
    /// No unit announces a payload that is present, unless it replaces that.
    Duplicate,
    /// No unit withdraws a payload that is absent.
    Unknown,
}

/// The offset of the first of these units that breaks the rule, if one does.
pub(crate) fn first_breaking(these: &[u8], those: &[u8], rule: Rule) -> Option<usize>
    ensures found { FindsRefused result rule these.now those.now }
    ensures within { IfSome result (λ n. n ≤ length these.now) }
{
    let (mut these_rest, mut those_rest) = (these, those);
    'units: loop {
        let (first, after_first) = match next_unit(these_rest) {
            Some(first) => first,
            None => return None,
        };
        let (is_there, left) = sought(&first, those_rest);
        if breaks(rule, is_there, &first) {
            return Some(these.len() - these_rest.len());
        }
        these_rest = after_first;
        those_rest = left;
    }
}

/// Reports whether a unit's name is among others, and returns the rest of these from that name on.
/// Most of them are prefixes, and IPv4 comes first.
#[inline(never)]
pub(crate) fn sought<'a>(first: &PayloadView<'_>, those: &'a [u8]) -> (bool, &'a [u8])
    ensures { Seeks result.0 first.now result.1.now those.now }
{
    let after_v4 = pass_below(first, those, PrefixKind::Ipv4);
    let after_v6 = pass_below(first, after_v4, PrefixKind::Ipv6);
    sought_in_rest(first, those, after_v6)
}

/// Does the same, given that the others before the rest are below the unit.
#[inline(always)]
fn sought_in_rest<'a>(first: &PayloadView<'_>, those: &'a [u8], from: &'a [u8]) -> (bool, &'a [u8])
    requires { GoesPast (meant first.now).payload from.now those.now }
    ensures { Seeks result.0 first.now result.1.now those.now }
{
    let mut rest = from;
    'units: loop {
        let (order, left) = compare_front(first, rest);
        match order {
            Ordering::Greater => rest = left,
            Ordering::Less => return (false, rest),
            Ordering::Equal => return (true, rest),
        }
    }
}

/// The rest of others after the prefix units of this kind that are below the unit.
#[inline(always)]
fn pass_below<'a>(first: &PayloadView<'_>, those: &'a [u8], kind: PrefixKind) -> &'a [u8]
    ensures { GoesPast (meant first.now).payload result.now those.now }
{
    let mut rest = those;
    'units: loop {
        match after_prefix_below(first, rest, kind) {
            Some(left) => rest = left,
            None => return rest,
        }
    }
}

/// What follows the prefix unit of this kind at the front of others, if it is below the unit.
#[inline(always)]
fn after_prefix_below<'a>(
    first: &PayloadView<'_>,
    those: &'a [u8],
    kind: PrefixKind,
) -> Option<&'a [u8]>
    ensures below { IfSome result
        (λ left. IsOrderOf Ordering.Greater first.now left.now those.now) }
    ensures shorter { IfSome result (λ left. length left.now < length those.now) }
{
    match next_prefix(those, kind) {
        Some((second, left)) => match first.compare_names(&second) {
            Ordering::Greater => Some(left),
            Ordering::Less => None,
            Ordering::Equal => None,
        },
        None => None,
    }
}

/// The order of the names of a unit and of the first of others (an end of data comes after all
/// units), and what follows that one.
#[inline(always)]
fn compare_front<'a>(first: &PayloadView<'_>, those: &'a [u8]) -> (Ordering, &'a [u8])
    ensures order { IsOrderOf result.0 first.now result.1.now those.now }
    ensures shorter { result.0 ≡ Ordering.Greater → length result.1.now < length those.now }
{
    match next_unit(those) {
        Some((second, left)) => (first.compare_names(&second), left),
        None => (Ordering::Less, those),
    }
}

/// Reports whether the unit breaks the rule, given whether its name is present.
#[inline(always)]
fn breaks(rule: Rule, is_there: bool, view: &PayloadView<'_>) -> bool
    ensures { result ≡ is_against rule is_there (meant view.now).payload }
{
    match rule {
        Rule::Apart => is_there,
        Rule::Duplicate => is_there && !view.takes_place(),
        Rule::Unknown => !is_there,
    }
}
