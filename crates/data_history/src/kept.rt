//! Which of the steps back are kept when newer data come.

ghost use Rattle.std.specs.Prelude.{◌≡◌, ◌↔◌, ◌≤◌, IsTrue, List, Some, drop, length, ◌-◌};
ghost use Rattle.std.specs.declared.cmp.Ordering.TheVariants.{Less};
ghost use Rattle.rtr_base.specs.Serial.{serial_cmp};
ghost use Rattle.data_history.specs.Snapshots.{Snapshot, GoesBack};
ghost use Rattle.data_history.specs.Next.{KeepsFront, MayBeKept};

use crate::part::first_part;
use data_slices::check_changes;
use rtr_base::state::Serial;
use std::cmp::Ordering;

/// Reports whether a serial number is earlier than another (RFC 1982).
pub fn is_earlier(serial: Serial, than: Serial) -> bool
    ensures { IsTrue result ↔ serial_cmp serial.0 than.0 ≡ Some Less }
{
    match serial.partial_cmp(&than) {
        Some(Ordering::Less) => true,
        _ => false,
    }
}

/// Returns how many bytes of the steps are kept: the longest prefix of whole steps with at most
/// `most` bytes, each made at `since` or later and leading to a serial number earlier than the new
/// one.
pub fn kept_front(steps: &[u8], serial: Serial, since: u64, most: usize) -> usize
    ensures front { (x : Snapshot) (ys : List Snapshot) → GoesBack steps.now x ys →
        KeepsFront result steps.now x ys serial.0 since }
    ensures within { result ≤ length steps.now }
    ensures short { result ≤ most }
    ensures longest { MayBeKept (drop result steps.now) since (most - result) serial.0 → ⊥ }
{
    let (mut rest, mut kept) = (steps, 0);
    'steps: loop {
        let (time, changes, left) = match first_part(rest) {
            Some(part) => part,
            None => return kept,
        };
        let size = rest.len() - left.len();
        if time < since {
            return kept;
        }
        if size > most - kept {
            return kept;
        }
        let end = match check_changes(changes) {
            Ok(end) => end,
            Err(_) => return kept,
        };
        if !is_earlier(end.serial(), serial) {
            return kept;
        }
        kept += size;
        rest = left;
    }
}
