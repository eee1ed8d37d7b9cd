//! The file of a cache: the sessions that it left, and the history of the present one.

ghost use Rattle.std.specs.Prelude.{◌≡◌, ◌≢◌, ◌<◌, ◌≤◌, ◌+◌, ◌^◌, ◌++◌, ◌↔◌, IfOk, IfSome, IsSome};
ghost use Rattle.std.specs.Prelude.{IsTrue, List, [], Some, drop, length, take};
ghost use Rattle.rtr_base.specs.Bytes.{be};
ghost use Rattle.data_slices.specs.Canonical.{PlacesFront};
ghost use Rattle.data_history.specs.Parts.{head_bytes, part_bytes, part_form, part_rest};
ghost use Rattle.data_history.specs.Snapshots.{HoldsHistory, Snapshot};
ghost use Rattle.data_history.specs.Store.{BeginsStore, DecidesStore, FitsFirst, HoldsStore};
ghost use Rattle.data_history.specs.Store.{IsAmong, WantsOutput, WritesStore, left_sessions};
ghost use Rattle.data_history.specs.Store.{sessions_of};
ghost use Rattle.data_history.specs.Old.{OpensOld};

use crate::check::CheckFault;
use crate::part::{HEAD, first_part, head};
use crate::room::{Room, wanted_of};
use crate::seal::open_old;
use unit_views::placing::place;

/// Why no store was written.
#[derive(Clone, Copy, Debug, PartialEq, Eq)]
pub enum TakeFault {
    /// The cache has already left the session of the new data.
    SessionLeft,
    /// The old bytes are not a store.
    Malformed,
    /// The output is too short. `wanted` bytes suffice.
    NoRoom { wanted: usize },
}

/// Writes the first store of a cache, which left no session, and returns its length: 16 bytes more
/// than the history.
pub fn first_store_into(history: &[u8], output: &mut [u8]) -> Result<usize, TakeFault>
    ensures begins { (z : Snapshot) (ys : List Snapshot) → HoldsHistory history.now z ys →
        BeginsStore result z ys output.new }
    ensures history { IfOk result (λ n. part_rest (take n output.new) ≡ history.now) }
    ensures form { IfOk result (λ n. take n output.new ≡ part_form 0 [] ++ history.now) }
    ensures room { WantsOutput result (16 + length history.now) (length output.old) }
    ensures fits { FitsFirst result (length history.now) (length output.old) }
{
    match place_store(&[], &[], history, output) {
        Some(size) => Ok(size),
        None => Err(TakeFault::NoRoom {
            wanted: HEAD + history.len(),
        }),
    }
}

/// Writes the store of a file of the format `rtrkept1`, whose cache left no session, and returns
/// its length, which is that of the file. If the output is too short, or the file isn't whole, it
/// writes nothing.
pub fn old_store_into(file: &[u8], output: &mut [u8]) -> Result<usize, CheckFault>
    ensures opens { OpensOld result file.now output.old output.new }
    ensures store { IfOk result (λ n. (z : Snapshot) (ys : List Snapshot) →
        HoldsHistory (drop 16 file.now) z ys → HoldsStore (take n output.new) z ys) }
    ensures left { IfOk result (λ n. left_sessions (take n output.new) ≡ []) }
{
    let history = match open_old(file) {
        Some(history) => history,
        None => return Err(CheckFault::Malformed),
    };
    match place(&head(0, 0), history, output) {
        Some(size) => Ok(size),
        None => Err(CheckFault::NoRoom {
            room: Room::Output,
            wanted: file.len(),
        }),
    }
}

/// Writes the store to save after newer data, whose history this is, and returns its length. It
/// takes the session of the present data and that of the newer ones: if they differ, the present
/// one is recorded as left, and a session that was left before is refused.
///
/// An output 18 bytes longer than the old store and the history together always suffices.
pub fn take_into(
    store: &[u8],
    present: u16,
    next: u16,
    history: &[u8],
    output: &mut [u8],
) -> Result<usize, TakeFault>
    ensures takes { (x z : Snapshot) (ys zs : List Snapshot) → WritesStore result store.now present
        next history.now x z ys zs output.new }
    ensures history { IfOk result (λ n. part_rest (take n output.new) ≡ history.now) }
    ensures stays { IfOk result (λ n. present ≡ next →
        take n output.new ≡ part_form 0 (part_bytes store.now) ++ history.now) }
    ensures leaves { IfOk result (λ n. present ≢ next →
        take n output.new ≡ part_form 0 (be present 2 ++ part_bytes store.now) ++ history.now) }
    ensures room { WantsOutput result (18 + length store.now + length history.now)
        (length output.old) }
    ensures decides { DecidesStore result store.now present next (length history.now)
        (length output.old) }
{
    let (_, left, _) = match first_part(store) {
        Some(part) => part,
        None => return Err(TakeFault::Malformed),
    };
    if present == next {
        return match place_store(&[], left, history, output) {
            Some(size) => Ok(size),
            None => Err(TakeFault::NoRoom {
                wanted: wanted_of(output, HEAD, left.len(), history.len(), 0),
            }),
        };
    }
    if is_among(next, left) {
        return Err(TakeFault::SessionLeft);
    }
    match place_store(&present.to_be_bytes(), left, history, output) {
        Some(size) => Ok(size),
        None => Err(TakeFault::NoRoom {
            wanted: wanted_of(output, HEAD, 2, left.len(), history.len()),
        }),
    }
}

/// Writes the part of the sessions, in two pieces, and the history after it.
fn place_store(last: &[u8], left: &[u8], history: &[u8], output: &mut [u8]) -> Option<usize>
    ensures bytes { IfSome result (λ n. PlacesFront (Some n)
        ((head_bytes 0 (length last.now + length left.now) ++ last.now) ++ left.now ++ history.now)
        output.old output.new) }
    ensures fits { length last.now + length left.now < 2 ^ 64 }
    ensures enough { 16 + length last.now + length left.now + length history.now
        ≤ length output.old → IsSome result }
{
    let size = (last.len() + left.len()) as u64;
    let front = place(&head(0, size), last, output)?;
    let rest = place(left, history, &mut output[front..])?;
    Some(front + rest)
}

/// Reports whether a session is among these, of two bytes each.
fn is_among(session: u16, sessions: &[u8]) -> bool
    ensures { IsTrue result ↔ IsAmong session (sessions_of sessions.now) }
{
    let mut rest = sessions;
    'sessions: loop {
        if rest.len() < 2 {
            return false;
        }
        if 256 * rest[0] as u16 + rest[1] as u16 == session {
            return true;
        }
        rest = &rest[2..];
    }
}
