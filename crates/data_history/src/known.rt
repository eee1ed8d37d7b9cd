//! Which serial numbers a history has.

ghost use Rattle.std.specs.Prelude.{◌≡◌, ◌↔◌, IsSome, IsTrue, List};
ghost use Rattle.data_history.specs.Snapshots.{Snapshot, GoesBack, HoldsHistory, snapshot_at};

use crate::part::first_part;
use data_slices::{check_changes, check_data};
use rtr_base::state::Serial;

/// Reports whether the history has data of this serial number, so that `since_into` writes the
/// changes from them.
pub fn knows(history: &[u8], serial: Serial) -> bool
    ensures { (x : Snapshot) (ys : List Snapshot) → HoldsHistory history.now x ys →
        IsTrue result ↔ IsSome (snapshot_at serial.0 x ys) }
{
    let (_, present, steps) = match first_part(history) {
        Some(part) => part,
        None => return false,
    };
    match check_data(present) {
        Ok(end) => leads_back(end.serial().0, steps, serial.0),
        Err(_) => false,
    }
}

/// Whether the steps lead back from data of the first serial number to data of the second.
fn leads_back(present: u32, steps: &[u8], wanted: u32) -> bool
    ensures { (x : Snapshot) (ys : List Snapshot) → x.end.serial ≡ present →
        GoesBack steps.now x ys → IsTrue result ↔ IsSome (snapshot_at wanted x ys) }
{
    let (mut rest, mut serial) = (steps, present);
    'steps: loop {
        if serial == wanted {
            return true;
        }
        let (_, changes, left) = match first_part(rest) {
            Some(part) => part,
            None => return false,
        };
        serial = match check_changes(changes) {
            Ok(end) => end.serial().0,
            Err(_) => return false,
        };
        rest = left;
    }
}
