//! The program `rtr_validate`, for any readers and writers: it prints whether routes are valid by
//! the VRPs of a file, and for each other route which VRPs cover it.
#![tactic(auto)]

mod answer;
mod counts;
mod file;
mod form;
mod lines;
mod lists;
mod origins;
mod program;
mod ranges;
mod recorded;
mod refusals;
mod route_text;
mod states;
mod summary_text;
mod table;
mod turn;
mod vrps;
mod words;

pub use answer::add_answer;
pub use counts::{Counts, Summary, count_lines};
pub use file::{Kind, LoadError, Loaded, file_kind, load};
pub use form::{Form, Formats};
pub use lines::{Stop, answer_lines};
pub use lists::Lists;
pub use origins::OriginRow;
pub use program::{run, run_against};
pub use refusals::{Named, Refusals};
pub use route_text::{RouteError, TableRoute, read_route, route_of};
pub use states::{States, Turns};
pub use table::{Printer, Table, read_table};
pub use turn::add_list_answer;
pub use vrps::Vrps;
pub use words::{Request, RouteWords, asked, can_compare};
