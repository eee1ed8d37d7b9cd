//! The program `rtr_make` over any reader and writers: it reads validated payloads, as validators
//! print them, and writes the sequence of units that announces them.
#![tactic(auto)]

mod csv_columns;
mod csv_items;
mod expiring;
mod gathering;
mod info;
mod item;
mod json_items;
mod json_looks;
mod json_names;
mod json_objects;
mod json_values;
pub mod laws;
mod make;
mod plus;
mod quotes;
mod refusing;
mod sequence;
mod words;

pub use csv_items::read_csv;
pub use expiring::Expired;
pub use gathering::{Gathered, Gathering, Left, has_none};
pub use info::{Info, info_asked};
pub use item::{Expiry, Item, Place, Reason, Refusal};
pub use json_items::read_json;
pub use json_names::{Holding, Kind, Part};
pub use make::{program, run};
pub use quotes::check_quotes;
pub use refusing::SYNTAX;
pub use sequence::{Trouble, write_sequence};
pub use words::{Format, Request, Version, asked, broken_timing, is_ignored, long_number};
