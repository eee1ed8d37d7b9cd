//! The offsets of units in a slice, sorted by name.

ghost use Rattle.std.specs.Prelude.{◌≡◌, length};
ghost use Rattle.std.specs.List.Sorted.{IsPermutation};
ghost use Rattle.std.specs.Option.{option_cmp, option_map};
ghost use Rattle.data_slices.specs.Items.{meant};
ghost use Rattle.data_slices.specs.PrivateOffsets.{ComparesOffsets, SortsOffsets, ViewsAt};
ghost use Rattle.data_slices.specs.PrivateOffsets.{meaning_cmp};

use crate::item::{Item, PayloadView, PrefixKind, next, next_prefix};
use std::cmp::Ordering;

/// The payload unit at the offset, if one begins there. Most are prefixes.
#[inline(always)]
pub(crate) fn unit_at<'a>(input: &'a [u8], offset: usize) -> Option<PayloadView<'a>>
    ensures { ViewsAt input.now offset result }
{
    if offset > input.len() {
        return None;
    }
    let rest = &input[offset..];
    if let Some((view, _)) = next_prefix(rest, PrefixKind::Ipv4) {
        return Some(view);
    }
    if let Some((view, _)) = next_prefix(rest, PrefixKind::Ipv6) {
        return Some(view);
    }
    match next(rest) {
        Ok((Item::Unit(view), _)) => Some(view),
        Ok((Item::End(_), _)) => None,
        Err(_) => None,
    }
}

/// By name. A missing view comes first.
#[inline(always)]
fn compare_views(left: &Option<PayloadView<'_>>, right: &Option<PayloadView<'_>>) -> Ordering
    ensures { result ≡ option_cmp meaning_cmp (option_map meant left.now)
        (option_map meant right.now) }
{
    match (left, right) {
        (Some(first), Some(second)) => first.compare_names(second),
        (Some(_), None) => Ordering::Greater,
        (None, Some(_)) => Ordering::Less,
        (None, None) => Ordering::Equal,
    }
}

/// By name, then by offset.
#[inline(always)]
fn compare_offsets(input: &[u8], left: usize, right: usize) -> Ordering
    ensures { ComparesOffsets input.now left right result }
{
    let names = compare_views(&unit_at(input, left), &unit_at(input, right));
    names.then(left.cmp(&right))
}

/// Sorts the offsets by name, and those of one name by offset.
pub(crate) fn sort_offsets(input: &[u8], offsets: &mut [usize])
    ensures permutation { IsPermutation offsets.old offsets.new }
    ensures sorted { SortsOffsets input.now offsets.new }
{
    offsets.sort_unstable_by(
        |left: &usize, right: &usize| -> Ordering
            ensures { ComparesOffsets input.entry.now left.now right.now result }
        { compare_offsets(input, *left, *right) },
    );
}
