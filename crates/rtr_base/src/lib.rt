//! Plain values of the RPKI to Router protocol: numbers, prefixes, serial numbers.
#![tactic(auto)]

pub mod action;
pub mod addr;
pub mod afi;
pub mod asn;
pub mod error_code;
pub mod keys;
pub mod laws;
pub mod parse;
pub mod state;
pub mod texts;
pub mod timing;
