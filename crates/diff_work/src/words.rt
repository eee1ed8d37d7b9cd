//! The arguments of the program.

ghost use Rattle.std.specs.Prelude.{◌≡◌, option_map};
ghost use Rattle.diff_work.specs.DiffWords.{asked_by_words, asked_for, form_by_word};
ghost use Rattle.diff_work.specs.DiffWords.{is_file_name, is_standard_input, two_files};

/// The name that stands for standard input.
const STANDARD_INPUT: &str = "-";

/// The form in which changes are printed.
#[derive(Clone, Copy)]
pub enum Form {
    /// A line for people of each change.
    Text,
    /// A JSON object of each change.
    Json,
    /// The units of a delta, and the end of data of the second file.
    Units,
}

/// The result of parsing the arguments: a form, and the names of the two files.
#[derive(Clone, Copy)]
pub struct Request<'a> {
    /// The form.
    pub form: Form,
    /// The file with the old data.
    pub old: &'a str,
    /// The file with the new data.
    pub new: &'a str,
}

/// Parses the words after the program's name, if they are valid: two files, after `--json` or
/// `--units` in that form. One of them may be `-`, standard input. No other name begins with `-`.
pub fn asked(words: &[String]) -> Option<Request<'_>>
    ensures { option_map asked_for result ≡ asked_by_words words.now }
{
    match words {
        [old, new] => two_named(Form::Text, old.as_str(), new.as_str()),
        [form, old, new] => two_named(form_named(form.as_str())?, old.as_str(), new.as_str()),
        _ => None,
    }
}

/// The form of this option.
fn form_named(word: &str) -> Option<Form>
    ensures { result ≡ form_by_word word.now }
{
    match word {
        "--json" => Some(Form::Json),
        "--units" => Some(Form::Units),
        _ => None,
    }
}

/// The two files of these names in the form, if both are names and at most one is standard input.
fn two_named<'a>(form: Form, old: &'a str, new: &'a str) -> Option<Request<'a>>
    ensures { option_map asked_for result ≡ two_files form old.now new.now }
{
    if !is_name(old) || !is_name(new) {
        return None;
    }
    if old == STANDARD_INPUT && new == STANDARD_INPUT {
        return None;
    }
    Some(Request { form, old, new })
}

/// Reports whether the word may name a file: `-`, or a word that doesn't begin with it.
fn is_name(word: &str) -> bool
    ensures { result ≡ is_file_name word.now }
{
    word == STANDARD_INPUT || word.as_bytes().first() != Some(&b'-')
}
