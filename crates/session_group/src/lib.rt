//! Caches in order of preference (RFC 8210 section 10), as a machine without sockets, clock or
//! memory: it takes the events of each router's end, and returns whose data to show and which
//! caches to query.
#![tactic(auto)]

pub mod event;
pub mod group;
pub mod laws;
pub mod settings;
#[cfg(test)]
mod tests;
