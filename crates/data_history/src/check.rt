//! Whether bytes are a history.

ghost use Rattle.std.specs.Prelude.{◌≡◌, ◌<◌, ◌≤◌, ◌≢◌, ◌^◌, IfSome, IsSome, List, length};
ghost use Rattle.rtr_units.specs.AnyEnd.{end_meaning};
ghost use Rattle.rtr_units.specs.End.{EndMeaning};
ghost use Rattle.data_memory.specs.Data.{Change};
ghost use Rattle.data_slices.specs.Canonical.{HoldsData};
ghost use Rattle.data_slices.specs.Order.{Sends};
ghost use Rattle.data_history.specs.Checks.{ChecksHistory, IsShortForCheck};
ghost use Rattle.data_history.specs.PrivateChecks.{Allows, JoinsAll, IsShortForSteps, LacksIndex};
ghost use Rattle.data_history.specs.PrivateChecks.{MayBeNext};
ghost use Rattle.data_history.specs.Snapshots.{Snapshot, behind_by};

use crate::join::{SHORTEST, append};
use crate::part::first_part;
use crate::room::Room;
use data_slices::{check_changes, check_data, check_in_order};
use rtr_units::end::EndOfData;

/// Why a check fails.
#[derive(Clone, Copy, Debug, PartialEq, Eq)]
pub enum CheckFault {
    /// The bytes are not a history.
    Malformed,
    /// This slice is too short. `wanted` elements or bytes suffice for these bytes.
    NoRoom { room: Room, wanted: usize },
}

/// Half the circle of serial numbers.
const HALF: u32 = 0x8000_0000;

/// Checks whether any bytes are a history, as after a file was read, and returns the end of the
/// present data. It uses an index and a buffer as work space, whose content is undefined
/// afterwards. However many steps there are, it makes one pass over the data.
///
/// An index of one element for each 12 bytes and a buffer as long as the bytes always suffice.
pub fn check_history(
    history: &[u8],
    index: &mut [usize],
    buffer: &mut [u8],
) -> Result<EndOfData, CheckFault>
    ensures checks { ChecksHistory result history.now }
    ensures rooms { IsShortForCheck result (length history.now) (length index.old)
        (length buffer.old) }
{
    let (_, present, steps) = match first_part(history) {
        Some(part) => part,
        None => return Err(CheckFault::Malformed),
    };
    let end = match check_data(present) {
        Ok(end) => end,
        Err(_) => return Err(CheckFault::Malformed),
    };
    if steps.len() == 0 {
        return Ok(end);
    }
    let size = match join_all(&end, steps, buffer) {
        Ok(size) => size,
        Err(fault) => return Err(fault),
    };
    match check_allowed(present, &buffer[..size], index) {
        Ok(()) => Ok(end),
        Err(fault) => Err(fault),
    }
}

/// Writes the units of all steps back, one step after the other, and the end of data of the last,
/// and returns their length. The steps lead back from data with this end, each to earlier data than
/// the one before.
fn join_all(newest: &EndOfData, steps: &[u8], buffer: &mut [u8]) -> Result<usize, CheckFault>
    ensures joins { (x : Snapshot) → end_meaning newest.now ≡ x.end → length steps.now ≢ 0 →
        JoinsAll result steps.now x buffer.new }
    ensures rooms { IsShortForSteps result (length steps.now) (length buffer.old) }
{
    let (mut rest, mut size, mut last) = (steps, 0, 0);
    'steps: loop {
        let (_, changes, left) = match first_part(rest) {
            Some(part) => part,
            None => return Err(CheckFault::Malformed),
        };
        let end = match check_changes(changes) {
            Ok(end) => end,
            Err(_) => return Err(CheckFault::Malformed),
        };
        let behind = match behind_last(&end, newest, last) {
            Some(behind) => behind,
            None => return Err(CheckFault::Malformed),
        };
        let joined = match append(changes, size, buffer) {
            Some(joined) => joined,
            None => {
                return Err(CheckFault::NoRoom {
                    room: Room::Buffer,
                    wanted: steps.len(),
                });
            }
        };
        if left.len() == 0 {
            return Ok(joined);
        }
        size = joined - end.as_ref().len();
        rest = left;
        last = behind;
    }
}

/// Returns how far the serial number of this end of data is behind the newest, if it is of the same
/// version and session, and further behind than `last`.
fn behind_last(end: &EndOfData, newest: &EndOfData, last: u32) -> Option<u32>
    ensures is { IfSome result (λ n.
        MayBeNext n (end_meaning end.now) (end_meaning newest.now) last) }
    ensures finds { MayBeNext
        (behind_by (end_meaning end.now).serial (end_meaning newest.now).serial)
        (end_meaning end.now) (end_meaning newest.now) last → IsSome result }
{
    if end.version() != newest.version() {
        return None;
    }
    if end.session() != newest.session() {
        return None;
    }
    let behind = distance(end.serial().0, newest.serial().0);
    if behind <= last {
        return None;
    }
    if behind >= HALF {
        return None;
    }
    Some(behind)
}

/// How far a serial number is behind another.
#[tactic(auto, unfolding(crate::specs::Snapshots::behind_by))]
fn distance(serial: u32, newest: u32) -> u32
    ensures { result ≡ behind_by serial newest }
{
    newest.wrapping_sub(serial)
}

/// Checks whether data allow changes, applied one after the other.
fn check_allowed(present: &[u8], changes: &[u8], index: &mut [usize]) -> Result<(), CheckFault>
    ensures allows { (x : Snapshot) (cs : List Change) (e : EndMeaning) →
        HoldsData present.now x.payloads x.end → Sends changes.now cs e →
        x.end.version ≡ e.version → x.end.session ≡ e.session → Allows result cs x.payloads }
    ensures rooms { LacksIndex result (length changes.now) (length index.old) }
{
    let places = changes.len() / SHORTEST;
    if index.len() < places {
        return Err(CheckFault::NoRoom {
            room: Room::Index,
            wanted: places,
        });
    }
    match check_in_order(present, changes, index) {
        Ok(_) => Ok(()),
        Err(_) => Err(CheckFault::Malformed),
    }
}
