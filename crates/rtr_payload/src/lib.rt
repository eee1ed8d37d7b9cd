//! Payload units and their meanings.
#![tactic(auto)]

pub mod laws;
pub mod payload;
pub mod pdu;
