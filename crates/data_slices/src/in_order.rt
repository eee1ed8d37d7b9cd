//! Applying changes to data in the order in which they came.

ghost use Rattle.std.specs.Prelude.{◌≡◌, List, length};
ghost use Rattle.rtr_units.specs.AnyEnd.{end_bytes, end_meaning};
ghost use Rattle.rtr_units.specs.End.{EndMeaning, end_list};
ghost use Rattle.data_memory.specs.Data.{Change};
ghost use Rattle.data_slices.specs.InOrder.{AppliesInOrder, ChecksInOrder};
ghost use Rattle.data_slices.specs.PrivateInOrder.{FindsRefusal, MakesInOrder, ReadsBoth};
ghost use Rattle.data_slices.specs.PrivateInOrder.{refused_with as is_refused_with};
ghost use Rattle.data_slices.specs.PrivateOffsets.{SendsAt};

use crate::allowing::first_disallowed;
use crate::check::check_data;
use crate::in_order_fault::InOrderFault;
use crate::made::place_all_made;
use crate::offsets::sort_offsets;
use crate::reading::read_offsets;
use rtr_base::action::Action;
use rtr_units::end::EndOfData;

/// Applies the changes to the data in the order in which they came, and writes the result: the
/// units that announce it, in order, and the end of data of the changes. Returns their length in
/// bytes. All changes are applied, or none. An ASPA that is announced replaces the ASPA of its
/// customer. Nothing is allocated: the index is work space, one element for each payload unit, and
/// its content is undefined afterwards.
///
/// The first slice begins with data in canonical form, as defined by `check_data`, the second with
/// payload units in any order and an end of data, all of one version. What follows them is ignored.
///
/// Faults, in this order: `Data` for a slice that doesn't begin with data, `Changes` for one that
/// doesn't begin with units and an end of data, `UnitVersion` and `Session` if the versions or the
/// sessions of data and changes differ, `NoIndex`; then `Duplicate` or `Unknown` for the first
/// change that announces a payload that is then present, and isn't an ASPA, or that withdraws a
/// payload that is then absent (RFC 8210 section 12), with the offset of its unit in the changes,
/// all with nothing written; then `NoRoom`, with the beginning of the data written.
pub fn apply_in_order(
    data: &[u8],
    changes: &[u8],
    index: &mut [usize],
    output: &mut [u8],
) -> Result<usize, InOrderFault>
    ensures { AppliesInOrder result «data».now changes.now (length index.old)
        output.old output.new }
{
    let (end, count) = match read_both(data, changes, index) {
        Ok(read) => read,
        Err(fault) => return Err(fault),
    };
    make_in_order(data, changes, &mut index[..count], &end, output)
}

/// Returns the end of data of changes that the data allow, applied in the order in which they came,
/// or the first fault: the faults are those of `apply_in_order`. It writes only to the index.
pub fn check_in_order(
    data: &[u8],
    changes: &[u8],
    index: &mut [usize],
) -> Result<EndOfData, InOrderFault>
    ensures { ChecksInOrder result «data».now changes.now (length index.old) }
{
    let (end, count) = match read_both(data, changes, index) {
        Ok(read) => read,
        Err(fault) => return Err(fault),
    };
    match refused_in_order(data, changes, &mut index[..count]) {
        Some((offset, action)) => Err(refused_with(offset, action)),
        None => Ok(end),
    }
}

/// Returns the end of data of the changes, and the number of units before it, if both slices are of
/// one version and one session. Writes the offsets of the units to the index.
fn read_both(
    data: &[u8],
    changes: &[u8],
    index: &mut [usize],
) -> Result<(EndOfData, usize), InOrderFault>
    ensures reads { ReadsBoth result «data».now changes.now (length index.old) index.new }
    ensures same_length { length index.new ≡ length index.old }
{
    let data_end = match check_data(data) {
        Ok(end) => end,
        Err(flaw) => return Err(InOrderFault::Data(flaw)),
    };
    let (end, count) = match read_offsets(changes, index) {
        Ok(read) => read,
        Err(flaw) => return Err(InOrderFault::Changes(flaw)),
    };
    if data_end.version() != end.version() {
        return Err(InOrderFault::UnitVersion(end.version()));
    }
    if data_end.session() != end.session() {
        return Err(InOrderFault::Session(end.session()));
    }
    if count > index.len() {
        return Err(InOrderFault::NoIndex);
    }
    Ok((end, count))
}

/// The fault of a refused change of this action.
fn refused_with(offset: usize, action: Action) -> InOrderFault
    ensures { result ≡ is_refused_with offset action }
{
    match action {
        Action::Announce => InOrderFault::Duplicate { offset },
        Action::Withdraw => InOrderFault::Unknown { offset },
    }
}

/// The first change that the data don't allow, given the offsets of all units.
fn refused_in_order(data: &[u8], changes: &[u8], offsets: &mut [usize]) -> Option<(usize, Action)>
    requires { (cs : List Change) × (e : EndMeaning) × SendsAt changes.now offsets.old cs e }
    ensures { FindsRefusal result «data».now changes.now offsets.old }
{
    sort_offsets(changes, offsets);
    first_disallowed(data, changes, offsets)
}

/// Writes the result of applying the changes to the data, given the offsets of all units.
fn make_in_order(
    data: &[u8],
    changes: &[u8],
    offsets: &mut [usize],
    end: &EndOfData,
    output: &mut [u8],
) -> Result<usize, InOrderFault>
    requires sends { (cs : List Change) × SendsAt changes.now offsets.old cs (end_meaning end.now) }
    requires end { end_bytes end.now ≡ end_list (end_meaning end.now) }
    ensures { MakesInOrder result «data».now changes.now offsets.old (end_meaning end.now)
        output.old output.new }
{
    sort_offsets(changes, offsets);
    match first_disallowed(data, changes, offsets) {
        Some((offset, action)) => return Err(refused_with(offset, action)),
        None => {}
    }
    match place_all_made(data, changes, offsets, end, output) {
        Some(size) => Ok(size),
        None => Err(InOrderFault::NoRoom),
    }
}
