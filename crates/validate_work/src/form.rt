//! The formats in which routes are read and answers are printed.

use crate::table::Table;

/// The form in which the answer on a route is printed.
#[derive(Clone, Copy)]
pub enum Form {
    /// A line for people.
    Text,
    /// A JSON object on one line.
    Json,
}

/// The format in which routes are read, and the form in which answers are printed.
#[derive(Clone, Copy)]
pub struct Formats {
    /// The format of the lines that are read.
    pub table: Table,
    /// The form of the answers.
    pub form: Form,
}
