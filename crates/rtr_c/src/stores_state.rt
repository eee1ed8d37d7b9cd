//! The contents of the buffers of a cache's stores, in numbers.

ghost use Rattle.std.specs.Prelude.{◌≡◌, ℕ, Ok, Err, length};
ghost use Rattle.data_history.specs.declared.stores.Stores.{Stores};
ghost use Rattle.rtr_c.specs.Stores.{stores_ok, stores_within};
ghost use Rattle.rtr_c.specs.StoresCalls.{StatesStores, no_stores_state};

use crate::stores::{OK, RtrStores, stores_within};
use data_history::Stores;

/// The contents of the buffers.
#[repr(C)]
#[derive(Clone, Copy)]
pub struct RtrStoresState {
    /// The offset of the history that is served, in the buffer of its store.
    pub offset: usize,
    /// The length of that history.
    pub length: usize,
    /// The length of the store to save, at the front of the other buffer.
    pub taken: usize,
    /// Whether a history is served.
    pub serves: bool,
    /// Whether a store has to be saved.
    pub waits: bool,
    /// Whether the second buffer has the store that is served, and the first the other one.
    pub second: bool,
}

// The fields stand one after the other, and five bytes are left at the end.
const _: () = prove!(size_of::<RtrStoresState>() == 32);

/// The contents of the buffers of these stores.
fn state_of(stores: &Stores, first: &[u8], second: &[u8]) -> RtrStoresState
    ensures { StatesStores stores.now first.now second.now result }
{
    let numbers = stores.numbers();
    let at = stores.history_at(first, second);
    let (offset, length) = at.unwrap_or((0, 0));
    RtrStoresState {
        offset,
        length,
        taken: numbers.taken.unwrap_or(0),
        serves: at.is_some(),
        waits: numbers.taken.is_some(),
        second: numbers.second,
    }
}

/// The state of a call that was refused.
fn none() -> RtrStoresState
    ensures { result ≡ no_stores_state }
{
    RtrStoresState {
        offset: 0,
        length: 0,
        taken: 0,
        serves: false,
        waits: false,
        second: false,
    }
}

/// The offset and the length of the served history, as `data_history::Stores::history_at`, and the
/// length of the store to save, as `data_history::Stores::to_save`.
#[unsafe(no_mangle)]
pub extern "C" fn rtr_stores_state_nonnull(
    stores: &RtrStores,
    first: &[u8],
    second: &[u8],
    state: &mut RtrStoresState,
) -> u8
    ensures refused { (e : ℕ) →
        stores_within stores.now (length first.now) (length second.now) ≡ Err e →
        (result ≡ e) × (state.new ≡ no_stores_state) }
    ensures states { (m : Stores) →
        stores_within stores.now (length first.now) (length second.now) ≡ Ok m →
        (result ≡ stores_ok) × StatesStores m first.now second.now state.new }
{
    match stores_within(stores, first.len(), second.len()) {
        Ok(found) => {
            *state = state_of(&found, first, second);
            OK
        }
        Err(status) => {
            *state = none();
            status
        }
    }
}
