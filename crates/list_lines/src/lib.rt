//! The output of the program `rtr_list` unit by unit, over any reader and writers: a line of each
//! unit, or the rules that it breaks. Other programs use its text of a payload.
#![tactic(auto)]

mod check;
mod laid;
mod line;
mod listed;
mod payload_line;
mod printer;
mod run;

pub use line::Line;
pub use payload_line::{describe_payload, describe_payload_json};
pub use run::{Wanted, form_wanted, print_units};
