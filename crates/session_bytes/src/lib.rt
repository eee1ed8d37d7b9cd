//! Both ends of a session in bytes (RFC 8210): passes received units to the machines of
//! `session_router` and `session_cache`, and writes what these send, except data and changes.
//! Nothing allocates.
#![tactic(auto)]

pub mod answer;
mod fault;
mod head;
pub mod laws;
pub mod query;
pub mod refusal;
pub mod report;
pub mod saying;
pub mod serving;
pub mod telling;

pub use answer::{place_opening, place_owed};
pub use query::place_query;
pub use refusal::Refusal;
pub use report::place_ending;
pub use serving::{Served, serve};
pub use telling::{Told, tell};
