//! Steps back, joined to one list of changes.

ghost use Rattle.std.specs.Prelude.{◌≡◌, ◌≢◌, ◌≤◌, ◌++◌, ◌+◌, IfSome, IsSome, List, Some};
ghost use Rattle.std.specs.Prelude.{length, take};
ghost use Rattle.rtr_units.specs.End.{EndMeaning, end_list};
ghost use Rattle.data_memory.specs.Data.{Change};
ghost use Rattle.data_memory.specs.Deltas.{change_forms};
ghost use Rattle.data_slices.specs.Canonical.{PlacesFront};
ghost use Rattle.data_slices.specs.CanonicalChanges.{HoldsChanges};
ghost use Rattle.data_history.specs.Snapshots.{Snapshot, GoesBack, snapshot_at};
ghost use Rattle.data_history.specs.PrivateJoins.{Joins, LacksBuffer};

use crate::part::first_part;
use crate::room::Room;
use crate::since::SinceFault;
use data_slices::check_changes;
use rtr_wire::normalise_into;

/// The size in bytes of the shortest payload unit, a withdrawal of an ASPA.
pub const SHORTEST: usize = 12;

/// Writes the units of the steps back, step after step up to the one that leads to the wanted
/// serial number, and then its end of data. Returns their length. A buffer as long as the steps
/// always suffices.
pub fn join_into(steps: &[u8], wanted: u32, buffer: &mut [u8]) -> Result<usize, SinceFault>
    ensures joins { (x : Snapshot) (ys : List Snapshot) → GoesBack steps.now x ys →
        x.end.serial ≢ wanted → Joins result (snapshot_at wanted x ys) x buffer.new }
    ensures rooms { LacksBuffer result (length steps.now) (length buffer.old) }
{
    let (mut rest, mut size) = (steps, 0);
    'steps: loop {
        let (_, changes, left) = match first_part(rest) {
            Some(part) => part,
            None => return Err(SinceFault::Unknown),
        };
        let end = match check_changes(changes) {
            Ok(end) => end,
            Err(_) => return Err(SinceFault::Malformed),
        };
        let joined = match append(changes, size, buffer) {
            Some(joined) => joined,
            None => {
                return Err(SinceFault::NoRoom {
                    room: Room::Buffer,
                    wanted: steps.len(),
                });
            }
        };
        if end.serial().0 == wanted {
            return Ok(joined);
        }
        size = joined - end.as_ref().len();
        rest = left;
    }
}

/// Writes the units of changes and their end of data at offset `size` of the buffer, and returns
/// the offset behind them.
pub fn append(changes: &[u8], size: usize, buffer: &mut [u8]) -> Option<usize>
    requires { size ≤ length buffer.old }
    ensures appends { IfSome result (λ n. (cs : List Change) (e : EndMeaning) →
        HoldsChanges changes.now cs e → PlacesFront (Some n)
        (take size buffer.old ++ (change_forms e.version cs ++ end_list e))
        buffer.old buffer.new) }
    ensures enough { (cs : List Change) (e : EndMeaning) → HoldsChanges changes.now cs e →
        size + length changes.now ≤ length buffer.old → IsSome result }
    ensures within { IfSome result (λ n. n ≤ length buffer.old) }
{
    match copy(changes, &mut buffer[size..]) {
        Some(more) => Some(size + more),
        None => None,
    }
}

/// Writes the units of changes and their end of data.
fn copy(changes: &[u8], output: &mut [u8]) -> Option<usize>
    ensures copies { IfSome result (λ n. (cs : List Change) (e : EndMeaning) →
        HoldsChanges changes.now cs e →
        PlacesFront (Some n) (change_forms e.version cs ++ end_list e) output.old output.new) }
    ensures enough { (cs : List Change) (e : EndMeaning) → HoldsChanges changes.now cs e →
        length changes.now ≤ length output.old → IsSome result }
    ensures within { IfSome result (λ n. n ≤ length output.old) }
{
    let (progress, result) = normalise_into(changes, output, u64::MAX);
    match result {
        Ok(()) => Some(progress.written),
        Err(_) => None,
    }
}
