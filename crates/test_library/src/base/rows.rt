//! What the rows of tables test.

use crate::expect::written;
use std::alloc::Global;
use std::fmt::{Debug, Display};
use std::str::FromStr;

/// The text of the value that the text between quotes is parsed to, or the error.
pub fn read<T: FromStr + Display + Drop>(alloc: Global, text: &str) -> Option<String>
where
    T::Err: Debug + Drop,
{
    match unquoted(text)?.parse::<T>() {
        Ok(value) => written(alloc, &value),
        Err(error) => named(alloc, &error),
    }
}

/// The name of a value, as of an error.
pub fn named<T: Debug>(alloc: Global, value: &T) -> Option<String> {
    format!(in alloc; "{value:?}").ok()
}

/// The text without the quotes around it.
fn unquoted(text: &str) -> Option<&str> {
    text.strip_prefix('\'')?.strip_suffix('\'')
}
