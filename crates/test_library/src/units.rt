//! Tests of `rtr_units`: readers, writers and units of a fixed size.

mod codes;
mod ends;
mod faults;
mod fixed;
mod pieces;
mod reports;
