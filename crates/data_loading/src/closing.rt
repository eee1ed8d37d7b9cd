//! Closing an answer: its changes are checked, or applied.

ghost use Rattle.std.specs.Prelude.{◌≡◌, ◌≤◌, ◌+◌, ℕ, List, length, take, drop, min};
ghost use Rattle.rtr_units.specs.AnyEnd.{end_bytes, end_meaning};
ghost use Rattle.rtr_units.specs.End.{IsEnd};
ghost use Rattle.data_memory.specs.declared.change_error.ChangeError.{ChangeError};
ghost use Rattle.rtr_payload.specs.Payloads.{Payload};
ghost use Rattle.data_slices.specs.AtOffsets.{HaveLying, IsBase};
ghost use Rattle.data_loading.specs.PrivateLoading.{Sees, Settles, StandsAt, TookUnit};
ghost use Rattle.data_loading.specs.PrivateLoading.{WritesBackAll};
ghost use Rattle.data_loading.specs.PrivateLoading.{base_size, change_fault_of};
ghost use Rattle.data_loading.specs.declared.seen.Seen.TheVariants as seens;

use crate::fault::{LoadFault, LoadReason};
use crate::held::{Answer, Held};
use crate::taking::refuse;
use data_memory::ChangeError;
use data_recordings::Refusal;
use data_slices::{AtFault, check_at, is_of, make_at};
use rtr_base::action::Action;
use rtr_units::end::EndOfData;
use unit_views::placing::place;

/// Returns why the changes of the open answer aren't all allowed, if they aren't.
pub(crate) fn settle(
    held: &Held,
    input: &[u8],
    index: &mut [usize],
    output: &[u8],
) -> Option<LoadFault>
    requires { (at : ℕ) × StandsAt held.now at input.now index.old output.now }
    ensures settles { (room : ℕ) →
        Settles result held.now input.now index.old output.now room }
    ensures index { length index.new ≡ length index.old }
{
    match &held.pending {
        Some(answer) => {
            if answer.count > index.len() {
                return Some(LoadFault::NoIndex {
                    wanted: answer.count,
                });
            }
            let kept = base_of(answer.is_anew, held.length, output);
            match check_at(kept, input, &mut index[..answer.count]) {
                Some((offset, action)) => Some(change_fault(offset, action)),
                None => None,
            }
        }
        None => None,
    }
}

/// Takes an end of data: applies the changes of its answer, and keeps the result.
pub(crate) fn close(
    held: &mut Held,
    end: &EndOfData,
    size: usize,
    at: usize,
    input: &[u8],
    index: &mut [usize],
    work: &mut [u8],
    output: &mut [u8],
) -> Result<(), LoadFault>
    requires stands { StandsAt held.old at input.now index.old output.old }
    requires unit { Sees (seens.End end.now) (take size (drop at input.now)) }
    requires within { at + size ≤ length input.now }
    ensures takes { TookUnit result held.new (at + size) input.now index.new output.new
        (min (length work.old) (length output.old)) }
    ensures index { length index.new ≡ length index.old }
    ensures work { length work.new ≡ length work.old }
    ensures output { length output.new ≡ length output.old }
{
    let answer = held.current();
    let version = end.version();
    if !is_of(answer.version, version) {
        let reason = LoadReason::UnitVersion(version);
        return Err(refuse(held, at, reason, input, index, output));
    }
    match answer.refusal(end) {
        Some(refusal) => {
            let reason = LoadReason::Refused(refusal);
            return Err(refuse(held, at, reason, input, index, output));
        }
        None => {}
    }
    if answer.count > index.len() {
        return Err(LoadFault::NoIndex {
            wanted: answer.count,
        });
    }
    let offsets = &mut index[..answer.count];
    match write_back(&answer, held.length, end, input, offsets, work, output) {
        Ok(kept_size) => {
            held.asks_all = held.asked_since();
            held.pending = None;
            held.length = kept_size;
            held.end = Some(*end);
            Ok(())
        }
        Err(fault) => Err(fault),
    }
}

/// Applies the changes at the offsets, and replaces the kept data by the result.
fn write_back(
    answer: &Answer,
    kept_size: usize,
    end: &EndOfData,
    input: &[u8],
    offsets: &mut [usize],
    work: &mut [u8],
    output: &mut [u8],
) -> Result<usize, LoadFault>
    requires units { HaveLying input.now offsets.old (end_meaning end.now).version }
    requires end { IsEnd (end_bytes end.now) (end_meaning end.now) }
    requires within { kept_size ≤ length output.old }
    requires base { (d : List Payload) × IsBase (end_meaning end.now).version
        (take (base_size answer.now.is_anew kept_size) output.old) d }
    ensures writes { WritesBackAll result
        (take (base_size answer.now.is_anew kept_size) output.old) input.now offsets.old end.now
        (min (length work.old) (length output.old)) output.new }
    ensures work { length work.new ≡ length work.old }
    ensures output { length output.new ≡ length output.old }
{
    let kept = base_of(answer.is_anew, kept_size, output);
    let size = match make_at(kept, input, offsets, end, work) {
        Ok(size) => size,
        Err(AtFault::Refused { offset, action }) => return Err(change_fault(offset, action)),
        Err(AtFault::NoRoom) => return Err(LoadFault::NoRoom),
    };
    match place(&work[..size], &[], output) {
        Some(_) => Ok(size),
        None => Err(LoadFault::NoRoom),
    }
}

/// The data that an answer changes.
fn base_of(is_anew: bool, kept_size: usize, output: &[u8]) -> &[u8]
    requires { kept_size ≤ length output.now }
    ensures { result.now ≡ take (base_size is_anew kept_size) output.now }
{
    if is_anew {
        &output[..0]
    } else {
        &output[..kept_size]
    }
}

/// The fault of a change of this action at this offset.
fn change_fault(offset: usize, action: Action) -> LoadFault
    ensures { result ≡ change_fault_of offset action }
{
    let error = match action {
        Action::Announce => ChangeError::Duplicate,
        Action::Withdraw => ChangeError::Unknown,
    };
    let reason = LoadReason::Refused(Refusal::Change(error));
    LoadFault::Refused { offset, reason }
}
