//! The data that a cache serves and the data that wait to be saved: one call for each event. Each
//! call accepts any bytes as its struct.

ghost use Rattle.std.specs.Prelude.{◌≡◌, ◌-◌, ◌<◌, ◌≤◌, ℕ, List, [], None, Some, Result, Ok, Err};
ghost use Rattle.std.specs.Prelude.{length, true};
ghost use Rattle.data_history.specs.Life.{IsLife};
ghost use Rattle.data_history.specs.Stores.{are_of_stores, fresh_stores, numbers_of};
ghost use Rattle.data_history.specs.Stores.{served_store, taken_store};
ghost use Rattle.data_history.specs.declared.check.CheckFault.{CheckFault};
ghost use Rattle.data_history.specs.declared.newer.Untaken.{Untaken};
ghost use Rattle.data_history.specs.declared.next.Limits.{Limits};
ghost use Rattle.data_history.specs.declared.stores.Stores.{Stores};
ghost use Rattle.rtr_c.specs.Stores.{has_stores, made_stores, stores_in, stores_not_made};
ghost use Rattle.rtr_c.specs.Stores.{stores_ok, stores_short_buffer, stores_within};
ghost use Rattle.rtr_c.specs.StoresAnswers.{refused_answer, taking_told};
ghost use Rattle.rtr_c.specs.StoresCalls.{GivesUpStore, SavesStores, StartsFrom, TakesNew};
ghost use Rattle.rtr_c.specs.StoresCalls.{TellsStart};

use crate::stores::{NOT_MADE, OK, RtrStores, SHORT_BUFFER, stores_from, stores_to, stores_within};
use crate::stores_answer::RtrStoresAnswer;
use data_history::{Limits, Stores};

/// Limits on the steps back that a history keeps: as `data_history::Limits`.
#[repr(C)]
#[derive(Clone, Copy)]
pub struct RtrHistoryLimits {
    /// The time for which a step is kept, in milliseconds.
    pub time: u64,
    /// The greatest size of all steps in bytes, 16 bytes for each step included.
    pub bytes: usize,
}

// The fields stand one after the other.
const _: () = prove!(size_of::<RtrHistoryLimits>() == 16);

/// The limits of the struct.
fn limits_from(limits: &RtrHistoryLimits) -> Limits
    ensures time { result.time ≡ limits.now.time }
    ensures bytes { result.bytes ≡ limits.now.bytes }
{
    Limits {
        time: limits.time,
        bytes: limits.bytes,
    }
}

/// The stores of a new cache, as `data_history::Stores::new`.
#[unsafe(no_mangle)]
pub extern "C" fn rtr_stores_new(stores: &mut RtrStores)
    ensures stores { stores_in stores.new ≡ fresh_stores None None }
    ensures made { has_stores stores.new ≡ true }
    ensures life { (first second : List ℕ) →
        IsLife [] None (served_store (stores_in stores.new) first second)
        (taken_store (stores_in stores.new) first second) }
{
    *stores = stores_to(&Stores::new());
}

/// The stores of a cache that doesn't save, at a start, as `data_history::Stores::unsaved`.
#[unsafe(no_mangle)]
pub extern "C" fn rtr_stores_unsaved(stores: &mut RtrStores, session: u16)
    ensures stores { stores_in stores.new ≡ fresh_stores None (Some session) }
    ensures made { has_stores stores.new ≡ true }
{
    *stores = stores_to(&Stores::unsaved(session));
}

/// The stores of a cache that saves, at a start, as `data_history::Stores::start`. If that is
/// refused, the struct is unchanged.
#[unsafe(no_mangle)]
pub extern "C" fn rtr_stores_start_nonnull(
    stores: &mut RtrStores,
    size: usize,
    first: &[u8],
    index: &mut [usize],
    buffer: &mut [u8],
    answer: &mut RtrStoresAnswer,
) -> u8
    ensures status { result ≡ answer.new.status }
    ensures refused { length first.now < size →
        (answer.new ≡ refused_answer stores_short_buffer) × (stores.new ≡ stores.old)
        × (index.new ≡ index.old) × (buffer.new ≡ buffer.old) }
    ensures starts { size ≤ length first.now → (r : Result Stores CheckFault)
        × TellsStart r stores.old stores.new answer.new
        × StartsFrom size first.now (length index.old) (length buffer.old) r }
{
    *answer = if size > first.len() {
        RtrStoresAnswer::refused(SHORT_BUFFER)
    } else {
        start(stores, size, first, index, buffer)
    };
    answer.status
}

/// Starts from the store of this length.
fn start(
    stores: &mut RtrStores,
    size: usize,
    first: &[u8],
    index: &mut [usize],
    buffer: &mut [u8],
) -> RtrStoresAnswer
    ensures { (r : Result Stores CheckFault) × TellsStart r stores.old stores.new result
        × StartsFrom size first.now (length index.old) (length buffer.old) r }
{
    match Stores::start(size, first, index, buffer) {
        Ok(begun) => {
            *stores = stores_to(&begun);
            RtrStoresAnswer::wrote(0)
        }
        Err(fault) => RtrStoresAnswer::of_check(&fault),
    }
}

/// Takes newer data, as `data_history::Stores::take`.
#[unsafe(no_mangle)]
pub extern "C" fn rtr_stores_take_nonnull(
    stores: &mut RtrStores,
    new: &[u8],
    now: u64,
    limits: &RtrHistoryLimits,
    buffer: &mut [u8],
    spare: &mut [u8],
    first: &mut [u8],
    second: &mut [u8],
    answer: &mut RtrStoresAnswer,
) -> u8
    ensures status { result ≡ answer.new.status }
    ensures refused { (e : ℕ) →
        stores_within stores.old (length first.old) (length second.old) ≡ Err e →
        (answer.new ≡ refused_answer e) × (stores.new ≡ stores.old) × (buffer.new ≡ buffer.old)
        × (spare.new ≡ spare.old) × (first.new ≡ first.old) × (second.new ≡ second.old) }
    ensures takes { (m : Stores) →
        stores_within stores.old (length first.old) (length second.old) ≡ Ok m →
        (r : Result ℕ Untaken) × (answer.new ≡ taking_told (numbers_of m).second r)
        × (has_stores stores.new ≡ true)
        × TakesNew now (now - limits.now.time) limits.now.bytes new.now (length buffer.old)
        (length spare.old) m (stores_in stores.new) first.old second.old first.new second.new r }
{
    *answer = match stores_within(stores, first.len(), second.len()) {
        Ok(found) => take(
            found, stores, new, now, limits, buffer, spare, first, second,
        ),
        Err(status) => RtrStoresAnswer::refused(status),
    };
    answer.status
}

/// Takes newer data, given the stores of the struct.
fn take(
    found: Stores,
    stores: &mut RtrStores,
    new: &[u8],
    now: u64,
    limits: &RtrHistoryLimits,
    buffer: &mut [u8],
    spare: &mut [u8],
    first: &mut [u8],
    second: &mut [u8],
) -> RtrStoresAnswer
    requires { are_of_stores (numbers_of found) ≡ true }
    ensures { (r : Result ℕ Untaken) × (result ≡ taking_told (numbers_of found).second r)
        × (has_stores stores.new ≡ true)
        × TakesNew now (now - limits.now.time) limits.now.bytes new.now (length buffer.old)
        (length spare.old) found (stores_in stores.new) first.old second.old first.new second.new
        r }
{
    let mut present = found;
    let kept = limits_from(limits);
    let taken = present.take(new, now, &kept, buffer, spare, first, second);
    *stores = stores_to(&present);
    RtrStoresAnswer::of_taking(&taken, found.numbers().second)
}

/// Reports that the pending store is saved, as `data_history::Stores::saved`.
#[unsafe(no_mangle)]
pub extern "C" fn rtr_stores_saved(stores: &mut RtrStores) -> u8
    ensures refused { made_stores stores.old ≡ None →
        (result ≡ stores_not_made) × (stores.new ≡ stores.old) }
    ensures saves { (m : Stores) → made_stores stores.old ≡ Some m →
        (result ≡ stores_ok) × (has_stores stores.new ≡ true)
        × SavesStores m (stores_in stores.new) }
{
    match stores_from(stores) {
        Some(found) => {
            let mut present = found;
            present.saved();
            *stores = stores_to(&present);
            OK
        }
        None => NOT_MADE,
    }
}

/// Drops the pending store, as `data_history::Stores::give_up`.
#[unsafe(no_mangle)]
pub extern "C" fn rtr_stores_give_up(stores: &mut RtrStores) -> u8
    ensures refused { made_stores stores.old ≡ None →
        (result ≡ stores_not_made) × (stores.new ≡ stores.old) }
    ensures gives { (m : Stores) → made_stores stores.old ≡ Some m →
        (result ≡ stores_ok) × (has_stores stores.new ≡ true)
        × GivesUpStore m (stores_in stores.new) }
{
    match stores_from(stores) {
        Some(found) => {
            let mut present = found;
            present.give_up();
            *stores = stores_to(&present);
            OK
        }
        None => NOT_MADE,
    }
}
