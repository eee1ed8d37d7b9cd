//! Answers to serial queries, and heads of saved files.

ghost use Rattle.std.specs.Prelude.{◌≡◌, ◌++◌, ◌↔◌, ℕ, IsSome, IsTrue, List, Result, drop, length};
ghost use Rattle.std.specs.Prelude.{false, take};
ghost use Rattle.data_slices.specs.Canonical.{HoldsData};
ghost use Rattle.data_history.specs.Parts.{HasPart, part_size};
ghost use Rattle.data_history.specs.Seal.{seal};
ghost use Rattle.data_history.specs.Snapshots.{HoldsHistory, Snapshot, snapshot_at};
ghost use Rattle.data_history.specs.declared.since.SinceFault.{SinceFault};
ghost use Rattle.data_history.specs.declared.check.CheckFault.{CheckFault};
ghost use Rattle.rtr_c.specs.StoresAnswers.{checked_told, since_told};
ghost use Rattle.rtr_c.specs.StoresCalls.{TellsOld, TellsSerials, TellsSince};

use crate::stores_answer::RtrStoresAnswer;
use data_history::{
    data_at, knows, old_store_into, open_saved, seal_head, serials_into, since_into,
};
use rtr_base::state::Serial;

/// The head of a file with a store after it.
#[repr(C)]
#[derive(Clone, Copy)]
pub struct RtrStoreHead {
    /// The head, as it begins the file.
    pub bytes: [u8; 24],
}

const _: () = prove!(size_of::<RtrStoreHead>() == 24);

/// The changes since data of a serial number, as `data_history::since_into`.
#[unsafe(no_mangle)]
pub extern "C" fn rtr_history_since_nonnull(
    history: &[u8],
    serial: u32,
    version: u8,
    index: &mut [usize],
    buffer: &mut [u8],
    spare: &mut [u8],
    output: &mut [u8],
    answer: &mut RtrStoresAnswer,
) -> u8
    ensures status { result ≡ answer.new.status }
    ensures answers { (r : Result ℕ SinceFault) × (answer.new ≡ since_told r)
        × TellsSince history.now serial version (length index.old) (length buffer.old)
        (length spare.old) output.old output.new r }
{
    let serial = Serial(serial);
    let written = since_into(history, serial, version, index, buffer, spare, output);
    *answer = RtrStoresAnswer::of_since(&written);
    answer.status
}

/// The offset and the length of the present data in a history, as `data_history::data_at`, or 0.
#[unsafe(no_mangle)]
pub extern "C" fn rtr_history_data_nonnull(
    history: &[u8],
    offset: &mut usize,
    length: &mut usize,
) -> bool
    ensures holds { IsTrue result → (x : Snapshot) (ys : List Snapshot) →
        HoldsHistory history.now x ys →
        HoldsData (take length.new (drop offset.new history.now)) x.payloads x.end }
    ensures at { IsTrue result → HasPart history.now × (offset.new ≡ 16)
        × (length.new ≡ part_size history.now) }
    ensures finds { HasPart history.now → IsTrue result }
    ensures none { result ≡ false → (offset.new ≡ 0) × (length.new ≡ 0) }
{
    match data_at(history) {
        Some(at) => {
            *offset = at.0;
            *length = at.1;
            true
        }
        None => {
            *offset = 0;
            *length = 0;
            false
        }
    }
}

/// Reports whether a history has data of a serial number, as `data_history::knows`.
#[unsafe(no_mangle)]
pub extern "C" fn rtr_history_knows_nonnull(history: &[u8], serial: u32) -> bool
    ensures { (x : Snapshot) (ys : List Snapshot) → HoldsHistory history.now x ys →
        IsTrue result ↔ IsSome (snapshot_at serial x ys) }
{
    knows(history, Serial(serial))
}

/// Writes the serial numbers of the earlier data of a history, the latest first, as
/// `data_history::serials_into`.
#[unsafe(no_mangle)]
pub extern "C" fn rtr_history_serials_nonnull(
    history: &[u8],
    serials: &mut [u32],
    answer: &mut RtrStoresAnswer,
) -> u8
    ensures status { result ≡ answer.new.status }
    ensures answers { (r : Result ℕ CheckFault) × (answer.new ≡ checked_told r)
        × TellsSerials history.now serials.old serials.new r }
{
    let listed = serials_into(history, serials);
    *answer = RtrStoresAnswer::of_written(&listed);
    answer.status
}

/// Writes the head of a file with a store after it, as `data_history::seal_head`.
#[unsafe(no_mangle)]
pub extern "C" fn rtr_store_seal_nonnull(store: &[u8], head: &mut RtrStoreHead)
    ensures { head.new.bytes ≡ seal store.now }
{
    *head = RtrStoreHead {
        bytes: seal_head(store),
    };
}

/// Reports whether a file's head matches the bytes after it, as `data_history::open_saved`.
#[unsafe(no_mangle)]
pub extern "C" fn rtr_store_open_nonnull(file: &[u8]) -> bool
    ensures opens { IsTrue result → file.now ≡ seal (drop 24 file.now) ++ drop 24 file.now }
    ensures finds { (s : List ℕ) → file.now ≡ seal s ++ s → IsTrue result }
{
    match open_saved(file) {
        Some(_) => true,
        None => false,
    }
}

/// Writes the store of a file of the format `rtrkept1`, as `data_history::old_store_into`.
#[unsafe(no_mangle)]
pub extern "C" fn rtr_store_open_old_nonnull(
    file: &[u8],
    output: &mut [u8],
    answer: &mut RtrStoresAnswer,
) -> u8
    ensures status { result ≡ answer.new.status }
    ensures answers { (r : Result ℕ CheckFault) × (answer.new ≡ checked_told r)
        × TellsOld file.now output.old output.new r }
{
    let opened = old_store_into(file, output);
    *answer = RtrStoresAnswer::of_written(&opened);
    answer.status
}
