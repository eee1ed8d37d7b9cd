//! What holds of clients that are the members of a group, over whole runs, whatever calls are made
//! (RFC 8210 section 10).
#![tactic(auto)]

pub mod laws;
