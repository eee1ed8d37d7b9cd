//! The changes between data of any versions and sessions.

ghost use Rattle.std.specs.Prelude.{◌≡◌, ◌≢◌, []};
ghost use Rattle.rtr_units.specs.AnyEnd.{end_bytes, end_meaning};
ghost use Rattle.rtr_units.specs.End.{IsEnd, end_list};
ghost use Rattle.rtr_wire.specs.Sequences.{end_for};
ghost use Rattle.data_slices.specs.Delta.{ChangesBetween};

use crate::check::check_data;
use crate::delta::place_delta;
use crate::fault::DeltaFault;
use rtr_units::end::EndOfData;

/// Writes the changes that lead from the old data to the new, whatever their versions and their
/// sessions: units that announce what the old data lack, then units that withdraw what the new data
/// lack, each in order, and the end of data of the new, all in the higher of both versions.
/// Version 0 has no timings: in a later version they are the default ones. Returns the length in
/// bytes. Nothing is allocated.
///
/// The slices hold data as in `delta_into`, or are empty, for no data: then all of the other data
/// is announced or withdrawn, and the changes end with its end of data.
///
/// Faults, in this order: `Old` for old bytes that don't begin with data, then `New` for new ones,
/// also where both slices are empty, each with the flaw that `check_data` finds first and with
/// nothing written; then `NoRoom`, with a front of the changes written, which never comes where the
/// output is as long as both slices together. `UnitVersion` and `Session` never come.
pub fn changes_between(old: &[u8], new: &[u8], output: &mut [u8]) -> Result<usize, DeltaFault>
    ensures { ChangesBetween result old.now new.now output.old output.new }
{
    if old.is_empty() {
        return from_none(new, output);
    }
    if new.is_empty() {
        return to_none(old, output);
    }
    to_data(old, new, output)
}

/// Writes the changes from no data to these.
fn from_none(new: &[u8], output: &mut [u8]) -> Result<usize, DeltaFault>
    ensures { ChangesBetween result [] new.now output.old output.new }
{
    let end = match check_data(new) {
        Ok(end) => end,
        Err(flaw) => return Err(DeltaFault::New(flaw)),
    };
    let last = end.as_ref();
    place_delta(last, new, end.version(), last, output).ok_or(DeltaFault::NoRoom)
}

/// Writes the changes from these data to none.
fn to_none(old: &[u8], output: &mut [u8]) -> Result<usize, DeltaFault>
    requires { old.now ≢ [] }
    ensures { ChangesBetween result old.now [] output.old output.new }
{
    let end = match check_data(old) {
        Ok(end) => end,
        Err(flaw) => return Err(DeltaFault::Old(flaw)),
    };
    let last = end.as_ref();
    place_delta(old, last, end.version(), last, output).ok_or(DeltaFault::NoRoom)
}

/// Writes the changes between two data.
fn to_data(old: &[u8], new: &[u8], output: &mut [u8]) -> Result<usize, DeltaFault>
    requires old { old.now ≢ [] }
    requires new { new.now ≢ [] }
    ensures { ChangesBetween result old.now new.now output.old output.new }
{
    let old_end = match check_data(old) {
        Ok(end) => end,
        Err(flaw) => return Err(DeltaFault::Old(flaw)),
    };
    let new_end = match check_data(new) {
        Ok(end) => end,
        Err(flaw) => return Err(DeltaFault::New(flaw)),
    };
    let version = old_end.version().max(new_end.version());
    let end = end_in(&new_end, version);
    place_delta(old, new, version, end.as_ref(), output).ok_or(DeltaFault::NoRoom)
}

/// The end of data in this version: without timings in version 0, and otherwise with its own or the
/// default ones.
fn end_in(end: &EndOfData, version: u8) -> EndOfData
    requires { IsEnd (end_bytes end.now) (end_meaning end.now) }
    ensures { end_bytes result ≡ end_list (end_for version (end_meaning end.now)) }
{
    EndOfData::new(version, end.state(), end.timing().unwrap_or_default())
}
