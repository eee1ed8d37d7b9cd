//! The common parts of the programs: arguments, help and version, standard input or the file that
//! the last argument names, buffers and clock, how lines are shown on a terminal, lines that report
//! failures, and statuses.
#![tactic(auto)]

mod buffers;
mod clock;
mod colours;
mod failures;
mod guises;
mod input;
mod names;
mod painted;
mod prompt;
mod questions;
mod status;
mod syntax;
mod terminal;
mod words;
mod wrong;

pub use buffers::{BUFFER_SIZE, buffered_input, buffered_output};
pub use clock::seconds_since_epoch;
pub use failures::{Escaped, Failed, Subject, is_closed_pipe, report, report_closed};
pub use guises::{Front, Guise, hint};
pub use input::{Input, InputName, STANDARD_INPUT};
pub use names::{file_after, take_file};
pub use painted::Painted;
pub use prompt::{Prompt, Shared, Watched};
pub use questions::{Manual, about, usage};
pub use status::{FAILED, REFUSED, USAGE, WELL};
pub use syntax::{Setting, Syntax, Value};
pub use terminal::wants_colours;
pub use words::{program_words, words_after_name};
pub use wrong::{Wrong, refuse};
