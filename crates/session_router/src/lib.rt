//! The router's end of a session of the RPKI to Router protocol (RFC 8210), as a machine without
//! sockets, clock or memory: its caller reports events, and carries out the actions that it
//! returns.
#![tactic(auto)]

mod answering;
mod ending;
pub mod event;
pub mod head;
pub mod laws;
pub mod router;
pub mod settings;
#[cfg(test)]
mod tests;
