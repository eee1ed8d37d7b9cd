//! Putting changes in canonical form.

ghost use Rattle.std.specs.Prelude.{◌≡◌, ◌≤◌, IfSome, List, length};
ghost use Rattle.rtr_units.specs.AnyEnd.{end_bytes, end_meaning};
ghost use Rattle.rtr_units.specs.End.{end_list};
ghost use Rattle.data_memory.specs.Data.{Change};
ghost use Rattle.data_slices.specs.Order.{Orders};
ghost use Rattle.data_slices.specs.PrivateOffsets.{HaveSome, OrdersOffsets, PlacesOrdered};
ghost use Rattle.data_slices.specs.PrivateOffsets.{PlacesRest, SendsAt};

use crate::offsets::sort_offsets;
use crate::order_fault::OrderFault;
use crate::reading::read_offsets;
use crate::settling::{first_refusal, place_settled};
use rtr_base::action::Action;
use rtr_units::end::EndOfData;
use unit_views::placing::place;

/// Writes the changes of a sequence in canonical form, and its end of data: the net effect of
/// applying them one after the other. Returns the length in bytes. Nothing is allocated: the index
/// is work space, one element for each payload unit, and its content is undefined afterwards.
///
/// The input begins with payload units and an end of data, all of one version, and what follows it
/// is ignored. An output as long as the input always suffices.
///
/// No data are read. If data don't allow the changes, `apply_into` refuses the output, unless
/// changes without a net effect hide that: see `changes_that_come_to_nothing`. `apply_in_order`
/// checks each change.
///
/// Faults, in this order: `Flaw` for an input that doesn't begin so; `NoIndex`; `Duplicate`,
/// `Unknown` or `Undecided` for the first name, in their order, whose changes are refused, all with
/// nothing written; then `NoRoom`, with the beginning written.
pub fn order_into(input: &[u8], index: &mut [usize], output: &mut [u8]) -> Result<usize, OrderFault>
    ensures { Orders result input.now (length index.old) output.old output.new }
{
    let (end, count) = match read_offsets(input, index) {
        Ok(read) => read,
        Err(flaw) => return Err(OrderFault::Flaw(flaw)),
    };
    if count > index.len() {
        return Err(OrderFault::NoIndex);
    }
    order_offsets(input, &mut index[..count], &end, output)
}

/// Does the same, given the offsets of all units.
fn order_offsets(
    input: &[u8],
    offsets: &mut [usize],
    end: &EndOfData,
    output: &mut [u8],
) -> Result<usize, OrderFault>
    requires sends { (cs : List Change) × SendsAt input.now offsets.old cs (end_meaning end.now) }
    requires end { end_bytes end.now ≡ end_list (end_meaning end.now) }
    ensures { OrdersOffsets result input.now offsets.old output.old output.new }
{
    sort_offsets(input, offsets);
    match first_refusal(input, offsets) {
        Some(fault) => return Err(fault),
        None => {}
    }
    match place_ordered(input, offsets, end, output) {
        Some(size) => Ok(size),
        None => Err(OrderFault::NoRoom),
    }
}

/// Writes the net effect of the changes, and the end of data.
fn place_ordered(
    input: &[u8],
    offsets: &[usize],
    end: &EndOfData,
    output: &mut [u8],
) -> Option<usize>
    requires units { HaveSome input.now offsets.now }
    requires end { end_bytes end.now ≡ end_list (end_meaning end.now) }
    ensures { PlacesOrdered result input.now offsets.now (end_meaning end.now)
        output.old output.new }
{
    let announced = place_settled(input, offsets, Action::Announce, output)?;
    let rest = place_rest(input, offsets, end, &mut output[announced..])?;
    Some(announced + rest)
}

/// Writes the withdrawals and the end of data.
fn place_rest(input: &[u8], offsets: &[usize], end: &EndOfData, output: &mut [u8]) -> Option<usize>
    requires units { HaveSome input.now offsets.now }
    requires end { end_bytes end.now ≡ end_list (end_meaning end.now) }
    ensures bytes { PlacesRest result input.now offsets.now (end_meaning end.now)
        output.old output.new }
    ensures within { IfSome result (λ n. n ≤ length output.old) }
{
    let withdrawn = place_settled(input, offsets, Action::Withdraw, output)?;
    let end_size = place(end.as_ref(), &[], &mut output[withdrawn..])?;
    Some(withdrawn + end_size)
}
