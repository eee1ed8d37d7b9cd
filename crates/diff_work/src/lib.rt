//! The program `rtr_diff` over any readers and writers: it prints the changes from the data of one
//! sequence to that of another.
#![tactic(auto)]

mod beside;
mod differences;
pub mod laws;
mod part;
mod printer;
mod program;
mod words;

pub use program::{Compared, Trouble, compare, print_differences, run};
pub use words::{Form, Request, asked};
