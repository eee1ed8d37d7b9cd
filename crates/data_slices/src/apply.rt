//! Applying changes to data in a slice.

ghost use Rattle.std.specs.Prelude.{◌≡◌, ◌≤◌, length};
ghost use Rattle.rtr_units.specs.AnyEnd.{end_bytes, end_meaning};
ghost use Rattle.rtr_units.specs.End.{end_list};
ghost use Rattle.data_slices.specs.Apply.{AppliesChanges};
ghost use Rattle.data_slices.specs.PrivateChanges.{PlacesAll};

use crate::applied::place_applied;
use crate::changes::{Parts, check_parts};
use crate::check::check_data;
use crate::fault::ApplyFault;
use crate::refused::{Rule, first_breaking};
use unit_views::placing::place;

/// Writes the result of applying the changes to the data: the units that announce it, in order, and
/// the end of data of the changes. Returns their length in bytes. All changes are applied, or none.
/// An announced ASPA replaces the ASPA of its customer. Nothing is allocated.
///
/// The first slice begins with data in canonical form, as defined by `check_data`, the second with
/// changes in canonical form, as defined by `check_changes`. What follows them is ignored.
///
/// Faults, in this order: `Data` for a slice that doesn't begin with data, then `Changes` for one
/// that doesn't begin with changes, each with the first flaw that `check_data` or `check_changes`
/// finds, with its offset in that slice; then `UnitVersion` and `Session` if the versions or the
/// sessions of data and changes differ, and `Duplicate` or `Unknown` for the first change that the
/// rules refuse (RFC 8210 section 12), with the offset of its unit in the changes, all with nothing
/// written; then `NoRoom`, with the beginning of the data written. An output as long as both slices
/// together always suffices.
pub fn apply_into(data: &[u8], changes: &[u8], output: &mut [u8]) -> Result<usize, ApplyFault>
    ensures { AppliesChanges result «data».now changes.now output.old output.new }
{
    let data_end = match check_data(data) {
        Ok(end) => end,
        Err(flaw) => return Err(ApplyFault::Data(flaw)),
    };
    let parts = match check_parts(changes) {
        Ok(parts) => parts,
        Err(flaw) => return Err(ApplyFault::Changes(flaw)),
    };
    if data_end.version() != parts.end.version() {
        return Err(ApplyFault::UnitVersion(parts.end.version()));
    }
    if data_end.session() != parts.end.session() {
        return Err(ApplyFault::Session(parts.end.session()));
    }
    if let Some(offset) = first_breaking(&changes[..parts.middle], data, Rule::Duplicate) {
        return Err(ApplyFault::Duplicate { offset });
    }
    let withdrawn = &changes[parts.middle..parts.stop];
    if let Some(offset) = first_breaking(withdrawn, data, Rule::Unknown) {
        let offset = parts.middle + offset;
        return Err(ApplyFault::Unknown { offset });
    }
    match place_all(data, changes, &parts, output) {
        Some(size) => Ok(size),
        None => Err(ApplyFault::NoRoom),
    }
}

/// Writes the result of applying the changes to the data, and their end of data.
fn place_all(data: &[u8], changes: &[u8], parts: &Parts, output: &mut [u8]) -> Option<usize>
    requires order { parts.now.middle ≤ parts.now.stop }
    requires within { parts.now.stop ≤ length changes.now }
    requires end { end_bytes parts.now.end ≡ end_list (end_meaning parts.now.end) }
    ensures { PlacesAll result «data».now changes.now parts.now.middle parts.now.stop
        (end_meaning parts.now.end) output.old output.new }
{
    let announced = &changes[..parts.middle];
    let withdrawn = &changes[parts.middle..parts.stop];
    let size = place_applied(data, announced, withdrawn, output)?;
    let end_size = place(parts.end.as_ref(), &[], &mut output[size..])?;
    Some(size + end_size)
}
