//! What holds of a router at a cache that serves what the proved stores serve (RFC 8210).
#![tactic(auto)]

pub mod answers;
pub mod histories;
pub mod laws;
