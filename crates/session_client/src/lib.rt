//! A router's end of a session of the RPKI to Router protocol (RFC 8210) over its caller's buffers:
//! it reads units, applies answers, and writes queries and reports, as the machine of
//! `session_router` decides. It uses no sockets, clock or memory of its own.
#![tactic(auto)]

pub mod applying;
pub mod client;
pub mod hearing;
pub mod laws;
pub mod next;
pub mod saying;
#[cfg(test)]
mod tests;

pub use client::Client;
pub use next::Todo;
