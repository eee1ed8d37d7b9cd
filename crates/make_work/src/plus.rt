//! A plus sign before a number.

ghost use Rattle.std.specs.Prelude.{◌≡◌};
ghost use Rattle.make_work.specs.JsonValues.{has_plus};

/// Whether the text contains a plus sign. Rust's `from_str` accepts one before a number; no
/// validator prints it.
pub fn has_plus(text: &str) -> bool
    ensures { result ≡ has_plus text.now }
{
    for byte in text.as_bytes() {
        if *byte == b'+' {
            return true;
        }
    }
    false
}
