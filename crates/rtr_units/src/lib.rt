//! Units of the RPKI to Router protocol (the PDUs of RFC 6810 and RFC 8210) as lists of bytes, and
//! the readers and writers that they pass through.
#![tactic(auto)]

pub mod buffered;
pub mod cells;
mod copying;
pub mod end;
pub mod error;
pub mod fault;
pub mod fixed_unit;
pub mod header;
pub mod laws;
pub mod numbers;
pub mod peer_fault;
pub mod piece;
pub mod prefixes;
pub mod queries;
pub mod source;
pub mod unit;
