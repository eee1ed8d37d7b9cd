//! The tables of the program `rtr_list`: the payloads that a recording leaves, as validators print
//! them, in comma-separated values or in JSON, over any reader and writers.
#![tactic(auto)]

mod csv_table;
mod json_table;
mod pieces;
mod run;
mod words;

pub use csv_table::{LeftOut, add_csv, left_out};
pub use json_table::add_json;
pub use run::print_table;
pub use words::{Table, table_wanted};
