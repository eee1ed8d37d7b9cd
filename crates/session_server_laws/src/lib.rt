//! What holds of a connection at its cache, over whole runs of both of its machines and with the
//! bytes that their host holds (RFC 8210).
#![tactic(auto)]

pub mod laws;
