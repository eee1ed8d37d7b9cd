//! Tests of the libraries, a module for each layer, and the readers and writers that `test_rows`
//! shares with them.
#![tactic(auto)]

#[cfg(test)]
mod base;
#[cfg(test)]
mod data;
#[cfg(test)]
mod expect;
#[cfg(test)]
mod payload;
#[cfg(test)]
mod samples;
#[cfg(test)]
mod session;
pub mod support;
#[cfg(test)]
mod units;
#[cfg(test)]
mod uses;
#[cfg(test)]
mod wire;
