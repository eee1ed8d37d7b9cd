//! Recordings and lists, loaded into a slice as data in canonical form, without allocating.
#![tactic(auto)]

mod closing;
mod fault;
mod held;
mod recording;
mod seen;
mod taking;

pub use fault::{LoadFault, LoadReason};
pub use recording::{Loaded, load};
