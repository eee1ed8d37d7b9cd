//! What tests assert.

use crate::support::hash_of;
use std::alloc::Global;
use std::fmt::{Debug, Display};
use std::hash::Hash;
use std::process::Abort;

/// Asserts that this holds. A test that calls this is proved faster than one that uses the macro.
pub fn expect(rt: &impl Abort, holds: bool) {
    assert!(rt; holds);
}

/// Asserts that the two are equal. A test that calls this is proved faster than one that uses the
/// macro.
pub fn expect_equal<T: PartialEq + Debug + Drop>(rt: &impl Abort, left: T, right: T) {
    assert_eq!(rt; left, right);
}

/// Asserts that the two are equal, and have equal hashes.
pub fn expect_same<T: Eq + Hash>(rt: &impl Abort, left: &T, right: &T) {
    expect(rt, left == right);
    expect_equal(rt, hash_of(left), hash_of(right));
}

/// The text of a value, if it is the same with any width and padding.
pub fn written<T: Display>(alloc: Global, value: &T) -> Option<String> {
    let plain = format!(in alloc; "{value}").ok()?;
    let wide = format!(in alloc; "{value:>90}").ok()?;
    let filled = format!(in alloc; "{value:05}").ok()?;
    (wide == plain && filled == plain).then_some(plain)
}

/// Asserts the text of a value, with any width.
pub fn expect_text<T: Display + Drop>(rt: &impl Abort, alloc: Global, value: T, want: &str) {
    let text = written(alloc, &value);
    expect_equal(rt, text.as_deref(), Some(want));
}
