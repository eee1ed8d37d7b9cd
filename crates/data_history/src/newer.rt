//! Makes the store of newer data.

ghost use Rattle.std.specs.Prelude.{◌≡◌, ◌≤◌, ◌+◌, ◌-◌, ◌++◌, ℕ, [], Err, IfErr, IfOk, List};
ghost use Rattle.std.specs.Prelude.{length, take};
ghost use Rattle.rtr_units.specs.AnyEnd.{end_bytes, end_meaning};
ghost use Rattle.rtr_units.specs.End.{IsEnd};
ghost use Rattle.rtr_payload.specs.Payloads.{Payload};
ghost use Rattle.data_slices.specs.Canonical.{HoldsData};
ghost use Rattle.data_history.specs.Snapshots.{Snapshot};
ghost use Rattle.data_history.specs.Store.{HoldsStore};
ghost use Rattle.data_history.specs.Parts.{part_form};
ghost use Rattle.data_history.specs.Stores.{IsShortForTaking, IsStoreAfter, TakesFirst, TakesLater};
ghost use Rattle.data_history.specs.PrivateNewer.{ComesLate, IsFlawOfNew, taken_fault};

use crate::next::{Limits, Refused, advance, begin, present_end};
use crate::part::first_part;
use crate::store::{TakeFault, first_store_into, take_into};
use rtr_units::end::EndOfData;

/// Why newer data weren't taken.
#[derive(Debug, Drop)]
pub enum Untaken {
    /// A store that was taken before is pending: it is neither saved nor dropped.
    Waits,
    /// The cache doesn't save, and the data are of another session than that of its start.
    OtherSession,
    /// The cache has already left the session of these data.
    SessionLeft,
    /// The data can't follow the present ones in a history. Its `Room::Output` is the spare buffer,
    /// to which that history is written.
    Refused(Refused),
    /// The bytes that are served are not a store.
    Malformed,
    /// The buffer of the store is too short. `wanted` bytes suffice.
    NoRoom { wanted: usize },
}

/// Writes the first store, of data that were checked, and returns its length.
pub fn first_store(
    new: &[u8],
    now: u64,
    spare: &mut [u8],
    output: &mut [u8],
) -> Result<usize, Untaken>
    ensures takes { (z : Snapshot) → HoldsData new.now z.payloads z.end →
        TakesFirst result z output.new }
    ensures form { IfOk result (λ n. take n output.new ≡ part_form 0 [] ++ part_form now new.now) }
    ensures within { IfOk result (λ n. n ≤ length output.old) }
    ensures flaw { IfErr result (IsFlawOfNew new.now) }
    ensures late { ComesLate result }
    ensures rooms { (buffer : ℕ) → IsShortForTaking result (length new.now) buffer
        (length spare.old) (length output.old) }
{
    let size = match begin(new, now, spare) {
        Ok(size) => size,
        Err(refused) => return Err(Untaken::Refused(refused)),
    };
    match first_store_into(&spare[..size], output) {
        Ok(size) => Ok(size),
        Err(fault) => Err(fault_of(fault)),
    }
}

/// Writes the store that follows a store once these data are taken, and returns its length. The
/// data were checked, and this is their end. Their history is written to the spare buffer.
pub fn next_store(
    store: &[u8],
    new: &[u8],
    end: &EndOfData,
    now: u64,
    limits: &Limits,
    buffer: &mut [u8],
    spare: &mut [u8],
    output: &mut [u8],
) -> Result<usize, Untaken>
    requires new { (d : List Payload) × HoldsData new.now d (end_meaning end.now) }
    requires end { IsEnd (end_bytes end.now) (end_meaning end.now) }
    ensures takes { (z x : Snapshot) (ys : List Snapshot) → HoldsData new.now z.payloads z.end →
        HoldsStore store.now x ys → TakesLater (now - limits.now.time) limits.now.bytes result
        store.now z x ys output.new }
    ensures form { IfOk result (λ n. (z x : Snapshot) (ys : List Snapshot) →
        HoldsData new.now z.payloads z.end → HoldsStore store.now x ys → IsStoreAfter now
        (now - limits.now.time) limits.now.bytes store.now z x new.now (take n output.new)) }
    ensures within { IfOk result (λ n. n ≤ length output.old) }
    ensures flaw { IfErr result (IsFlawOfNew new.now) }
    ensures late { ComesLate result }
    ensures rooms { IsShortForTaking result (length store.now + length new.now) (length buffer.old)
        (length spare.old) (length output.old) }
{
    let (_, _, history) = match first_part(store) {
        Some(part) => part,
        None => return Err(Untaken::Malformed),
    };
    let before = match present_end(history) {
        Some(before) => before,
        None => return Err(Untaken::Malformed),
    };
    let size = match advance(history, new, &before, end, now, limits, buffer, spare) {
        Ok(size) => size,
        Err(refused) => return Err(Untaken::Refused(refused)),
    };
    match take_into(
        store,
        before.session(),
        end.session(),
        &spare[..size],
        output,
    ) {
        Ok(size) => Ok(size),
        Err(fault) => Err(fault_of(fault)),
    }
}

/// Converts the fault.
fn fault_of(fault: TakeFault) -> Untaken
    ensures is { result ≡ taken_fault fault }
    ensures late { ComesLate (Err result) }
    ensures no_flaw { (b : List ℕ) → IsFlawOfNew b result }
{
    match fault {
        TakeFault::SessionLeft => Untaken::SessionLeft,
        TakeFault::Malformed => Untaken::Malformed,
        TakeFault::NoRoom { wanted } => Untaken::NoRoom { wanted },
    }
}
