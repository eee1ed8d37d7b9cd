//! What holds of the payloads that a router shows and those that a cache has, over whole runs of
//! both (RFC 8210).
#![tactic(auto)]

pub mod laws;
