//! What holds of a running client and a cache that are connected, over whole runs of both, in bytes
//! (RFC 8210).
#![tactic(auto)]

pub mod laws;
