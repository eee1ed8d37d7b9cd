//! Tests of `rtr_base`: what no clause says, and that the clauses say what is meant.

mod addresses;
pub mod rows;
mod serials;
mod texts;
mod values;
