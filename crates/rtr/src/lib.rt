//! Everything that a program in Rattle calls, under one name: sequences of payload units here, and
//! a module for each library beside them. The code and the contracts are in those crates.
#![tactic(auto)]

pub use data_memory as data;
pub use data_slices as slices;
pub use data_validation as validation;
pub use rtr_wire::{
    ComparisonFault, IntoFault, Progress, Side, base, compare_meanings, laws, normalise,
    normalise_for, normalise_for_into, normalise_into, normalise_slice, payload, pdu, same_meaning,
    same_meaning_slice, state,
};
pub use session_bytes as conversation;
pub use session_cache as cache;
pub use session_group as group;
pub use session_router as router;
pub use session_times as times;
pub use unit_any as session;
