//! Applying changes, whose units are at given offsets of a slice, to data.

ghost use Rattle.std.specs.Prelude.{ℕ};
ghost use Rattle.rtr_units.specs.AnyEnd.{end_bytes, end_meaning};
ghost use Rattle.rtr_units.specs.End.{IsEnd};
ghost use Rattle.data_slices.specs.AtOffsets.{ChecksAt, HaveLying, MakesAt};

use crate::allowing::first_disallowed;
use crate::made::place_all_made;
use crate::offsets::sort_offsets;
use rtr_base::action::Action;
use rtr_units::end::EndOfData;

/// Why changes aren't applied to data, or the result doesn't fit.
#[derive(Drop)]
pub enum AtFault {
    /// The change at this offset, of this action, is the first that the data don't allow.
    Refused {
        /// The offset of its unit in the input.
        offset: usize,
        /// Its action.
        action: Action,
    },
    /// The output is too short for the result.
    NoRoom,
}

/// Returns the offset and action of the first change that the data don't allow, if the changes are
/// applied in the order of their offsets. The data are in canonical form, or an empty slice. The
/// offsets may be reordered.
pub fn check_at(data: &[u8], input: &[u8], offsets: &mut [usize]) -> Option<(usize, Action)>
    requires { (v : ℕ) × HaveLying input.now offsets.old v }
    ensures { ChecksAt result «data».now input.now offsets.old }
{
    sort_offsets(input, offsets);
    first_disallowed(data, input, offsets)
}

/// Writes the result of applying the changes to the data, in canonical form, with this end of data,
/// whose version is that of the data and of the units. Returns the length in bytes. The data are in
/// canonical form, or an empty slice. The offsets are undefined afterwards.
///
/// `Refused` comes with nothing written, `NoRoom` with the beginning of the data written.
pub fn make_at(
    data: &[u8],
    input: &[u8],
    offsets: &mut [usize],
    end: &EndOfData,
    output: &mut [u8],
) -> Result<usize, AtFault>
    requires units { HaveLying input.now offsets.old (end_meaning end.now).version }
    requires end { IsEnd (end_bytes end.now) (end_meaning end.now) }
    ensures { MakesAt result «data».now input.now offsets.old (end_meaning end.now)
        output.old output.new }
{
    sort_offsets(input, offsets);
    match first_disallowed(data, input, offsets) {
        Some((offset, action)) => return Err(AtFault::Refused { offset, action }),
        None => {}
    }
    match place_all_made(data, input, offsets, end, output) {
        Some(size) => Ok(size),
        None => Err(AtFault::NoRoom),
    }
}
