//! The delta between two slices of data.

ghost use Rattle.std.specs.Prelude.{◌≤◌, IfSome, length};
ghost use Rattle.data_slices.specs.Canonical.{HasData};
ghost use Rattle.data_slices.specs.Delta.{Deltas};
ghost use Rattle.data_slices.specs.PrivateOrder.{PlacesDelta, PlacesTail};

use crate::check::check_data;
use crate::fault::DeltaFault;
use crate::missing::place_missing;
use rtr_base::action::Action;
use unit_views::placing::place;

/// Writes the delta that leads a router from the old data to the new (RFC 8210 section 8.2): units
/// that announce what the old data lack, then units that withdraw what the new data lack, each in
/// order, and the end of data of the new. Returns their length in bytes. Units are compared
/// whether or not their version has such payloads. Nothing is allocated.
///
/// Both slices begin with data in canonical form: units that announce payloads in their order, all
/// of one version, and an end of data of that version. What follows it is ignored.
///
/// Faults, in this order: `Old` for old bytes that don't begin with data, then `New` for new ones,
/// each with the first flaw that `check_data` finds, with its offset in that slice; then
/// `UnitVersion` and `Session` if the versions or the sessions differ, all with nothing written;
/// then `NoRoom`, with the beginning of the delta written. An output as long as both slices
/// together always suffices.
pub fn delta_into(old: &[u8], new: &[u8], output: &mut [u8]) -> Result<usize, DeltaFault>
    ensures { Deltas result old.now new.now output.old output.new }
{
    let old_end = match check_data(old) {
        Ok(end) => end,
        Err(flaw) => return Err(DeltaFault::Old(flaw)),
    };
    let new_end = match check_data(new) {
        Ok(end) => end,
        Err(flaw) => return Err(DeltaFault::New(flaw)),
    };
    if old_end.version() != new_end.version() {
        return Err(DeltaFault::UnitVersion(new_end.version()));
    }
    if old_end.session() != new_end.session() {
        return Err(DeltaFault::Session(new_end.session()));
    }
    match place_delta(old, new, new_end.version(), new_end.as_ref(), output) {
        Some(size) => Ok(size),
        None => Err(DeltaFault::NoRoom),
    }
}

/// Writes the units of the changes from the old data to the new, in this version, and then `last`.
pub(crate) fn place_delta(
    old: &[u8],
    new: &[u8],
    version: u8,
    last: &[u8],
    output: &mut [u8],
) -> Option<usize>
    requires old { HasData old.now }
    requires new { HasData new.now }
    ensures { PlacesDelta result old.now new.now version last.now output.old output.new }
{
    let announced = place_missing(new, old, version, Action::Announce, output)?;
    let tail = place_tail(old, new, version, last, &mut output[announced..])?;
    Some(announced + tail)
}

/// Writes the withdrawals among these changes, and then `last`.
fn place_tail(old: &[u8], new: &[u8], version: u8, last: &[u8], output: &mut [u8]) -> Option<usize>
    requires old { HasData old.now }
    requires new { HasData new.now }
    ensures bytes { PlacesTail result old.now new.now version last.now output.old output.new }
    ensures within { IfSome result (λ n. n ≤ length output.old) }
{
    let withdrawn = place_missing(old, new, version, Action::Withdraw, output)?;
    let last_size = place(last, &[], &mut output[withdrawn..])?;
    Some(withdrawn + last_size)
}
