//! The result of applying changes to data, written into a slice.

ghost use Rattle.std.specs.Prelude.{◌≡◌, ◌≤◌, ◌<◌, ◌+◌, ◌↔◌, IfSome, IsTrue, None, length};
ghost use Rattle.std.specs.Prelude.{true, false};
ghost use Rattle.std.specs.Option.{option_map};
ghost use Rattle.data_slices.specs.Items.{meant};
ghost use Rattle.data_slices.specs.PrivateChanges.{IsAfterWithdrawal, IsBound, IsNext, IsUnder};
ghost use Rattle.data_slices.specs.PrivateChanges.{LeastOf, NothingLeft};
ghost use Rattle.data_slices.specs.PrivateChanges.{PlacesApplied};

use crate::item::{PayloadView, PrefixKind, next_prefix, next_unit};
use crate::placing::place_unit;
use std::cmp::Ordering;

/// The first unit of data and of announcements.
#[derive(Clone, Copy)]
struct Least<'a> {
    /// The unit: an announcement, if both have the same name.
    view: PayloadView<'a>,
    /// Whether it comes from the data.
    is_old: bool,
    /// The rest of the data after the unit.
    old: &'a [u8],
    /// The rest of the announcements.
    new: &'a [u8],
}

/// Writes the units that announce the result of applying announcements and withdrawals to data, in
/// order, and returns their length in bytes, or none if the output is too short. Most units come
/// before the next change: these are checked first. Each kind of prefix has a block of its own, in
/// which the number of bytes to copy is constant.
pub(crate) fn place_applied(
    old: &[u8],
    announced: &[u8],
    withdrawn: &[u8],
    output: &mut [u8],
) -> Option<usize>
    ensures bytes { PlacesApplied result old.now announced.now withdrawn.now output.old output.new }
    ensures within { IfSome result (λ n. n ≤ length output.old) }
{
    let (mut old_rest, mut new_rest) = (old, announced);
    let (mut withdrawn_rest, mut written) = (withdrawn, 0);
    let mut bound = next_change(announced, withdrawn);
    'units: loop {
        if let Some((view, left)) = next_under(old_rest, &bound, PrefixKind::Ipv4) {
            match place_unit(&view, &mut output[written..]) {
                Some(size) => written += size,
                None => return None,
            }
            old_rest = left;
            continue 'units;
        }
        if let Some((view, left)) = next_under(old_rest, &bound, PrefixKind::Ipv6) {
            match place_unit(&view, &mut output[written..]) {
                Some(size) => written += size,
                None => return None,
            }
            old_rest = left;
            continue 'units;
        }
        let least = match least_of(old_rest, new_rest) {
            Some(least) => least,
            None => return Some(written),
        };
        old_rest = least.old;
        new_rest = least.new;
        match after_withdrawal(&least.view, least.is_old, withdrawn_rest) {
            Some(left) => withdrawn_rest = left,
            None => match place_unit(&least.view, &mut output[written..]) {
                Some(size) => written += size,
                None => return None,
            },
        }
        bound = next_change(new_rest, withdrawn_rest);
    }
}

/// The first of announcements and withdrawals by name, if any are left.
fn next_change<'a>(new: &'a [u8], withdrawn: &'a [u8]) -> Option<PayloadView<'a>>
    ensures { IsBound result new.now withdrawn.now }
{
    match next_unit(new) {
        Some((first, _)) => match next_unit(withdrawn) {
            Some((second, _)) => match second.compare_names(&first) {
                Ordering::Less => Some(second),
                Ordering::Equal => Some(first),
                Ordering::Greater => Some(first),
            },
            None => Some(first),
        },
        None => match next_unit(withdrawn) {
            Some((second, _)) => Some(second),
            None => None,
        },
    }
}

/// The prefix unit at the front of the data, and what follows it, if it comes before the change, so
/// that it stays. IPv4 is checked first, as most are of IPv4.
#[inline(always)]
pub(crate) fn next_prefix_under<'a>(
    old: &'a [u8],
    bound: &Option<PayloadView<'_>>,
) -> Option<(PayloadView<'a>, &'a [u8])>
    ensures unit { IfSome result (λ p. IsNext p.0 p.1.now old.now) }
    ensures under { IfSome result (λ p. IsUnder p.0 bound.now) }
    ensures shorter { IfSome result (λ p. length p.1.now < length old.now) }
{
    if let Some(first) = next_under(old, bound, PrefixKind::Ipv4) {
        return Some(first);
    }
    next_under(old, bound, PrefixKind::Ipv6)
}

/// The prefix unit of this kind at the front of the data, and what follows it, if it comes before
/// the change.
#[inline(always)]
fn next_under<'a>(
    old: &'a [u8],
    bound: &Option<PayloadView<'_>>,
    kind: PrefixKind,
) -> Option<(PayloadView<'a>, &'a [u8])>
    ensures unit { IfSome result (λ p. IsNext p.0 p.1.now old.now) }
    ensures under { IfSome result (λ p. IsUnder p.0 bound.now) }
    ensures shorter { IfSome result (λ p. length p.1.now < length old.now) }
{
    match next_prefix(old, kind) {
        Some((view, left)) => {
            if !is_under(&view, bound) {
                return None;
            }
            Some((view, left))
        }
        None => None,
    }
}

/// Whether the unit comes before the change.
#[inline(always)]
pub(crate) fn is_under(view: &PayloadView<'_>, bound: &Option<PayloadView<'_>>) -> bool
    ensures { IsTrue result ↔ IsUnder view.now bound.now }
{
    match bound {
        None => true,
        Some(bound) => view.compare_names(bound).is_lt(),
    }
}

/// The first of data and announcements by name, if any are left. Each case has a literal of its
/// own, since the borrow checker doesn't cover functions that take a view and return it.
#[inline(always)]
fn least_of<'a>(old: &'a [u8], new: &'a [u8]) -> Option<Least<'a>>
    ensures least { IfSome result
        (λ l. LeastOf l.view l.is_old l.old.now l.new.now old.now new.now) }
    ensures shorter { IfSome result (λ l. length l.old.now + length l.new.now <
        length old.now + length new.now) }
    ensures none { result ≡ None → NothingLeft old.now new.now }
{
    match next_unit(old) {
        Some((first, left)) => match next_unit(new) {
            Some((second, right)) => match first.compare_names(&second) {
                Ordering::Less => Some(Least {
                    view: first,
                    is_old: true,
                    old: left,
                    new,
                }),
                Ordering::Equal => Some(Least {
                    view: second,
                    is_old: false,
                    old: left,
                    new: right,
                }),
                Ordering::Greater => Some(Least {
                    view: second,
                    is_old: false,
                    old,
                    new: right,
                }),
            },
            None => Some(Least {
                view: first,
                is_old: true,
                old: left,
                new,
            }),
        },
        None => match next_unit(new) {
            Some((second, right)) => Some(Least {
                view: second,
                is_old: false,
                old,
                new: right,
            }),
            None => None,
        },
    }
}

/// What follows the first withdrawal, if it has the name of the unit and this comes from the data.
#[inline(always)]
fn after_withdrawal<'a>(
    view: &PayloadView<'_>,
    is_old: bool,
    withdrawn: &'a [u8],
) -> Option<&'a [u8]>
    ensures { IsAfterWithdrawal (option_map (λ l. l.now) result) view.now is_old withdrawn.now }
{
    if !is_old {
        return None;
    }
    match next_unit(withdrawn) {
        Some((first, left)) => match view.compare_names(&first) {
            Ordering::Equal => Some(left),
            Ordering::Less => None,
            Ordering::Greater => None,
        },
        None => None,
    }
}
