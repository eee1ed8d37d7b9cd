//! The serial numbers of the earlier data of a history.

ghost use Rattle.std.specs.Prelude.{◌≡◌, ◌≤◌, ◌*◌, ◌+◌, ◌∷◌, ◌++◌, IsTrue, List, [], length, take};
ghost use Rattle.data_history.specs.Serials.{IsShortForSerials, ListsSerials, serials_of};
ghost use Rattle.data_history.specs.Snapshots.{GoesBack, HoldsHistory, Snapshot};

use crate::check::CheckFault;
use crate::part::first_part;
use crate::room::Room;
use data_slices::check_changes;

/// Writes the serial numbers of the earlier data of a history, the latest first, and returns how
/// many there are. If the output is too short for all of them, it writes none.
///
/// An output of one element for each 16 bytes always suffices.
pub fn serials_into(history: &[u8], output: &mut [u32]) -> Result<usize, CheckFault>
    ensures lists { (x : Snapshot) (ys : List Snapshot) → HoldsHistory history.now x ys →
        ListsSerials result ys output.old output.new }
    ensures rooms { IsShortForSerials result (length history.now) (length output.old) }
{
    let (_, _, steps) = match first_part(history) {
        Some(part) => part,
        None => return Err(CheckFault::Malformed),
    };
    let count = steps_in(steps);
    if output.len() < count {
        return Err(CheckFault::NoRoom {
            room: Room::Output,
            wanted: count,
        });
    }
    if !write_serials(steps, &mut output[..count]) {
        return Err(CheckFault::Malformed);
    }
    Ok(count)
}

/// The number of steps.
fn steps_in(steps: &[u8]) -> usize
    ensures number { (x : Snapshot) (ys : List Snapshot) → GoesBack steps.now x ys →
        result ≡ length ys }
    ensures few { 16 * result ≤ length steps.now }
{
    let (mut rest, mut count) = (steps, 0);
    'steps: loop {
        let (_, _, left) = match first_part(rest) {
            Some(part) => part,
            None => return count,
        };
        rest = left;
        count += 1;
    }
}

/// Fills the output with the serial numbers of the data to which the first steps lead, and reports
/// whether there are enough steps for it.
fn write_serials(steps: &[u8], output: &mut [u32]) -> bool
    ensures { (x : Snapshot) (ys : List Snapshot) → GoesBack steps.now x ys →
        length output.old ≡ length ys → IsTrue result × (output.new ≡ serials_of ys) }
{
    let (mut rest, mut count) = (steps, 0);
    'steps: while count < output.len() {
        let (_, changes, left) = match first_part(rest) {
            Some(part) => part,
            None => return false,
        };
        let serial = match check_changes(changes) {
            Ok(end) => end.serial().0,
            Err(_) => return false,
        };
        put_serial(output, count, serial);
        rest = left;
        count += 1;
    }
    true
}

/// Writes a serial number after the first `count` ones, if there is room for it.
fn put_serial(output: &mut [u32], count: usize, serial: u32)
    ensures same_length { length output.new ≡ length output.old }
    ensures held { count + 1 ≤ length output.old →
        take (count + 1) output.new ≡ take count output.old ++ serial ∷ [] }
{
    if count < output.len() {
        output[count] = serial;
    }
}
