//! Views of payload units in a slice: their fields and meanings, read without allocating.
#![tactic(auto)]

pub mod aspa;
mod end;
pub mod fault;
mod form;
mod front;
pub mod laws;
pub mod origin;
pub mod placing;
pub mod router_key;
pub mod view;

pub use front::unit_of;
