//! The arguments of the program.

ghost use Rattle.std.specs.Prelude.{◌≡◌, drop};

use std::env;

/// The arguments of the program, its name first. None if they aren't text, or memory runs out.
pub fn program_words(rt: &HostRuntime) -> Option<Vec<String>> {
    env::args(rt).ok()?.collect(rt.alloc()).ok()
}

/// The words after the first one, which is the program's name.
pub fn words_after_name(words: &[String]) -> &[String]
    ensures { result.now ≡ drop 1 words.now }
{
    words.get(1..).unwrap_or(&[])
}
