//! The offsets of the units at the front of a slice.

ghost use Rattle.std.specs.Prelude.{◌≡◌, ◌+◌, IfErr, IfOk, length};
ghost use Rattle.data_slices.specs.Order.{IsStrayAt};
ghost use Rattle.data_slices.specs.PrivateOffsets.{OffsetsRead};

use crate::fault::{Flaw, Reason};
use crate::index::{is_of, put_offset};
use crate::item::{Item, next};
use rtr_units::end::EndOfData;

/// Returns the end of data, and the number of units before it. Writes their offsets to the index,
/// as many as fit.
pub(crate) fn read_offsets(input: &[u8], index: &mut [usize]) -> Result<(EndOfData, usize), Flaw>
    ensures read { IfOk result (λ p. OffsetsRead p.0 p.1 input.now index.new) }
    ensures stray { IfErr result (λ f. IsStrayAt input.now f) }
    ensures same_length { length index.new ≡ length index.old }
{
    let (mut rest, mut version, mut count) = (input, None, 0);
    'items: loop {
        let offset = input.len() - rest.len();
        let (item, left) = match next(rest) {
            Ok(first) => first,
            Err(fault) => return Err(flaw(offset, Reason::Refused(fault))),
        };
        match item {
            Item::Unit(view) => {
                if !is_of(version, view.version()) {
                    return Err(flaw(offset, Reason::NotCanonical));
                }
                put_offset(index, count, offset);
                version = Some(view.version());
                count += 1;
                rest = left;
            }
            Item::End(end) => {
                if !is_of(version, end.version()) {
                    return Err(flaw(offset, Reason::NotCanonical));
                }
                return Ok((end, count));
            }
        }
    }
}

fn flaw(offset: usize, reason: Reason) -> Flaw
    ensures offset { result.offset ≡ offset }
    ensures reason { result.reason ≡ reason }
{
    Flaw { offset, reason }
}
