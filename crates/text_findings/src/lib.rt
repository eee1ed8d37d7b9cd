//! What breaks the protocol's rules, unit by unit, as `rtr_list --check` reports it. Nothing
//! allocates: the caller keeps the names of the payloads that are announced.
#![tactic(auto)]

mod finding;
mod laws;
mod naming;
mod rules;
mod sequence;
mod text;

pub use finding::{Finding, Layout};
pub use naming::{announces, begins, lay_name};
pub use sequence::{Found, SequenceState, Stage};
pub use text::describe_finding;
