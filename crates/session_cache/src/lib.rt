//! The cache's end of a connection of the RPKI to Router protocol (RFC 8210), as a machine without
//! sockets, clock or memory: its caller reports events, and sends the answers that it returns.
#![tactic(auto)]

pub mod cache;
mod closing;
pub mod event;
pub mod laws;
pub mod settings;
#[cfg(test)]
mod tests;
