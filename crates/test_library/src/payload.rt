//! Tests of the units of `rtr_payload`, their parts and meanings: that the clauses say what is
//! meant, what no clause says, and that equal meanings are one member of std's sets.

mod keys;
mod made;
mod order;
mod parts;
mod providers;
mod sets;
mod texts;
mod units;
