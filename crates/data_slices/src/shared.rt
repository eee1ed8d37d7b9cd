//! Units at the front of two slices.

ghost use Rattle.std.specs.Prelude.{◌<◌, ◌+◌, IfSome, length};
ghost use Rattle.data_slices.specs.PrivateOrder.{SharesFront, SharesUnit};

use crate::item::begins_with_type;
use rtr_units::prefixes::{Ipv4Prefix, Ipv6Prefix};
use rtr_units::unit::Unit;

/// What follows in both slices the prefix unit at the front, if that is the same in both, byte for
/// byte. It isn't viewed: the slices hold data.
#[inline(always)]
pub(crate) fn after_shared_unit<'a, 'b>(
    these: &'a [u8],
    those: &'b [u8],
) -> Option<(&'a [u8], &'b [u8])>
    ensures shared { IfSome result (λ p. SharesUnit p.0.now p.1.now these.now those.now) }
    ensures shorter { IfSome result (λ p. length p.0.now + length p.1.now <
        length these.now + length those.now) }
{
    if begins_with_type(these, Ipv4Prefix::PDU) {
        return after_shared(these, those, Ipv4Prefix::LENGTH);
    }
    if begins_with_type(these, Ipv6Prefix::PDU) {
        return after_shared(these, those, Ipv6Prefix::LENGTH);
    }
    None
}

/// The rest of both slices after the first `size` bytes, if these are the same in both.
#[inline(always)]
fn after_shared<'a, 'b>(
    these: &'a [u8],
    those: &'b [u8],
    size: usize,
) -> Option<(&'a [u8], &'b [u8])>
    ensures { IfSome result (λ p. SharesFront size p.0.now p.1.now these.now those.now) }
{
    if these.len() < size || those.len() < size {
        return None;
    }
    let (first, these_left) = these.split_at(size);
    let (second, those_left) = those.split_at(size);
    if first != second {
        return None;
    }
    Some((these_left, those_left))
}
