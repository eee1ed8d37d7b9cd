//! Lines and texts that the programs print, written into slices. Nothing allocates.
#![tactic(auto, using(crate::proofs::Laid::lays_both))]

pub mod addresses;
mod laws;
pub mod laying;
mod listed;
mod meant;
mod object;
mod pieces;
mod reading;
mod strings;
mod text;
mod unit_object;

pub use listed::{Listed, ListedAspa, ListedKey, ListedPayload, ListedReport};
pub use object::{describe_change_json, describe_payload_json};
pub use reading::listed_unit;
pub use text::{describe, describe_change, describe_payload, parts_of};
pub use unit_object::describe_json;
