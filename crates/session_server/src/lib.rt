//! A cache's end of the RPKI to Router protocol (RFC 8210), without sockets, clock or memory: the
//! limits of a server, the door, which decides whether a new connection is served, the limits of a
//! connection, and what a server keeps.
#![tactic(auto)]

pub mod connection;
pub mod door;
pub mod keeping;
pub mod laws;
pub mod settings;
#[cfg(test)]
mod tests;

pub use connection::{Connection, Cut, Next, Phase};
pub use door::{Door, Entry};
pub use keeping::{kept_version, retry_after};
pub use settings::ServerSettings;
