//! The allowed times of a cache (RFC 8210 section 6): every caller that takes times from a user
//! refuses others by the rule that they break.
#![tactic(auto)]

#[cfg(test)]
mod tests;
mod times;

pub use times::{TimeRule, broken_time_rule};
