//! Tests of units of any type, of error reports and of the program that lists them: that the
//! clauses say what is meant, and what no clause says.

mod faults;
mod flushes;
mod reports;
mod units;

use rtr_units::source::Source;
use std::alloc::Global;
use unit_any::AnyUnit;

/// What comes of reading the next unit: a name, or the text of the fault.
fn next<R: Source>(alloc: Global, reader: &mut R) -> Option<String> {
    let answer = AnyUnit::read(alloc, reader);
    match &answer {
        Ok(Some(_)) => String::from_str(alloc, "a unit").ok(),
        Ok(None) => String::from_str(alloc, "an end").ok(),
        Err(fault) => fault.to_string(alloc).ok(),
    }
}
