//! Words that name files.

ghost use Rattle.std.specs.Fn.{FnOnceReturnsAt};
ghost use Rattle.std.specs.Option.{option_to_list};
ghost use Rattle.std.specs.Prelude.{◌≡◌, ◌++◌, drop, true, IfSome, IsNone, string_bytes};
ghost use Rattle.program_frame.specs.FileNames.{AsksForNone, NamesFile, names_file};

use crate::words::words_after_name;

/// The first byte of an option, and alone the name of standard input.
const HYPHEN: u8 = b'-';

/// Splits off the last word, if it can name a file: if it doesn't begin with a hyphen, as options
/// do, or is a hyphen alone. Returns the words before it, and the last word.
pub fn file_after(words: &[String]) -> Option<(&[String], &str)>
    ensures { NamesFile words.now result }
{
    let (last, before) = words.split_last()?;
    let name = last.as_str();
    if is_file_name(name) {
        Some((before, name))
    } else {
        None
    }
}

/// Takes the last word off and returns it, if it can name a file and `reads_input` holds for the
/// words before it, without the program's name.
pub fn take_file<F: FnOnce(&[String]) -> bool>(
    words: &mut Vec<String>,
    reads_input: F,
) -> Option<String>
    requires { F.IsAlwaysCallable reads_input }
    // No word is lost.
    ensures words { words.old.items ≡ words.new.items ++ option_to_list result }
    // What is taken off names a file for the words that are left.
    ensures file { IfSome result (λ name. (names_file (string_bytes name) ≡ true)
        × FnOnceReturnsAt F.FnOnce reads_input (drop 1 words.new.items) true) }
    // A last word that names a file stays only if the words before it ask for no input.
    ensures stays { IsNone result → AsksForNone F.FnOnce reads_input (drop 1 words.old.items) }
{
    let has_file = match file_after(words_after_name(words)) {
        Some((before, _)) => reads_input(before),
        None => false,
    };
    if has_file { words.pop() } else { None }
}

/// Whether the word can name a file.
pub(crate) fn is_file_name(word: &str) -> bool
    ensures { result ≡ names_file word.now }
{
    match word.as_bytes() {
        [HYPHEN] => true,
        [HYPHEN, ..] => false,
        _ => true,
    }
}
