//! The data that a cache serves and the data that wait to be saved, in numbers.

ghost use Rattle.std.specs.Prelude.{◌≡◌, true, IfOk};
ghost use Rattle.data_history.specs.Stores.{are_of_stores, numbers_of};
ghost use Rattle.rtr_c.specs.Stores.{has_stores, fits_buffers, numbers_in, made_stores, stores_in};
ghost use Rattle.rtr_c.specs.Stores.{stores_within};

use crate::link::{are_flags, flag_from, flag_to};
use data_history::{Numbers, Stores};

/// The mark of a struct that a call made.
const MARK: u32 = 1_398_034_258;

/// The call succeeded.
pub(crate) const OK: u8 = 0;
/// The fields of the struct aren't those of any state that a call leaves.
pub(crate) const NOT_MADE: u8 = 1;
/// A buffer is shorter than the store in it.
pub(crate) const SHORT_BUFFER: u8 = 2;

/// The two stores of a cache: as `data_history::Stores`. All fields are numbers, so that each call
/// reads any bytes; a flag is 0 or 1.
#[repr(C)]
#[derive(Clone, Copy)]
pub struct RtrStores {
    /// The length of the store that is served, or 0.
    pub served: usize,
    /// The length of the store that waits to be saved, or 0.
    pub taken: usize,
    pub mark: u32,
    /// The session of a start that doesn't save, or 0.
    pub session: u16,
    /// Whether a store is served.
    pub serves: u8,
    /// Whether a store waits to be saved.
    pub waits: u8,
    /// Whether the store that is served is in the second buffer.
    pub second: u8,
    /// Whether the cache doesn't save.
    pub unsaved: u8,
}

// The fields stand one after the other, and six bytes are left at the end.
const _: () = prove!(size_of::<RtrStores>() == 32);

/// The numbers in the struct.
fn numbers_from(stores: &RtrStores) -> Numbers
    ensures { result ≡ numbers_in stores.now }
{
    Numbers {
        served: if flag_from(stores.serves) {
            Some(stores.served)
        } else {
            None
        },
        taken: if flag_from(stores.waits) {
            Some(stores.taken)
        } else {
            None
        },
        second: flag_from(stores.second),
        unsaved: if flag_from(stores.unsaved) {
            Some(stores.session)
        } else {
            None
        },
    }
}

/// The stores of the struct, or none if no call made it.
pub(crate) fn stores_from(stores: &RtrStores) -> Option<Stores>
    ensures { result ≡ made_stores stores.now }
{
    if stores.mark != MARK {
        return None;
    }
    if !are_flags(stores.serves, stores.waits, stores.second, stores.unsaved) {
        return None;
    }
    Stores::of_numbers(&numbers_from(stores))
}

/// The struct for these stores.
pub(crate) fn stores_to(stores: &Stores) -> RtrStores
    ensures stores { stores_in result ≡ stores.now }
    ensures made { are_of_stores (numbers_of stores.now) ≡ true → has_stores result ≡ true }
{
    let numbers = stores.numbers();
    RtrStores {
        served: numbers.served.unwrap_or(0),
        taken: numbers.taken.unwrap_or(0),
        mark: MARK,
        session: numbers.unsaved.unwrap_or(0),
        serves: flag_to(numbers.served.is_some()),
        waits: flag_to(numbers.taken.is_some()),
        second: flag_to(numbers.second),
        unsaved: flag_to(numbers.unsaved.is_some()),
    }
}

/// Whether buffers of these lengths can hold the stores.
fn fits_buffers(stores: &RtrStores, first: usize, second: usize) -> bool
    ensures { result ≡ fits_buffers stores.now first second }
{
    let (held, other) = if flag_from(stores.second) {
        (second, first)
    } else {
        (first, second)
    };
    (!flag_from(stores.serves) || stores.served <= held)
        && (!flag_from(stores.waits) || stores.taken <= other)
}

/// The stores of the struct, if a call made it and buffers of these lengths can hold them;
/// otherwise the status of what is wrong.
pub(crate) fn stores_within(stores: &RtrStores, first: usize, second: usize) -> Result<Stores, u8>
    ensures is { result ≡ stores_within stores.now first second }
    ensures numbered { IfOk result (λ m. are_of_stores (numbers_of m) ≡ true) }
{
    match stores_from(stores) {
        Some(found) => {
            if fits_buffers(stores, first, second) {
                Ok(found)
            } else {
                Err(SHORT_BUFFER)
            }
        }
        None => Err(NOT_MADE),
    }
}
