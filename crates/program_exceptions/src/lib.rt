//! Arguments that name files, each after an option, and the local exceptions in the SLURM files
//! that a program is given (RFC 8416).
#![tactic(auto)]

mod files;
mod words;

pub use files::read_files;
pub use words::{Split, split_words};
