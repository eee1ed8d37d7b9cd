//! What is wrong with arguments.

ghost use Rattle.std.specs.Prelude.{◌≡◌};

use crate::failures::Escaped;
use crate::status::USAGE;
use crate::syntax::{Setting, Value};
use std::fmt;
use std::io::Write;

/// What is wrong with a word.
#[derive(Clone, Copy)]
pub enum Wrong<'a> {
    /// The program has no option of this name.
    Unknown(&'a str),
    /// The option for help or version isn't alone.
    NotAlone(&'a str),
    /// The option was given before.
    Twice(&'a str),
    /// The first option can't be combined with the second one, which was given before.
    Excluded(&'a str, &'a str),
    /// The option comes after an operand.
    Late(&'a str, &'a str),
    /// No value follows the option.
    NoValue(Setting),
    /// The word isn't a value of the option before it.
    Value(Setting, &'a str),
    /// The word after the option can't name a file.
    NoFile(&'a str, &'a str),
    /// The program takes no further word.
    Unexpected(&'a str),
    /// The first option may only be used with the second one.
    Needs(&'a str, &'a str),
}

impl fmt::Display for Wrong<'_> {
    fn fmt<W: fmt::Write>(&self, f: &mut fmt::Formatter<W>) -> fmt::Result {
        match self {
            Wrong::Unknown(word) => {
                let word = Escaped(word);
                write!(f, "unknown option \"{word}\"")
            }
            Wrong::NotAlone(word) => write!(f, "{word} has to stand alone"),
            Wrong::Twice(name) => write!(f, "{name}: it is given twice"),
            Wrong::Excluded(name, other) => write!(f, "{name} doesn't go with {other}"),
            Wrong::Late(name, operand) => {
                let operand = Escaped(operand);
                write!(f, "{name} has to come before \"{operand}\"")
            }
            Wrong::NoValue(setting) => {
                let (name, value) = (setting.name, setting.value);
                write!(f, "{name} needs {value}")
            }
            Wrong::Value(setting, word) => {
                let (name, value, word) = (setting.name, setting.value, Escaped(word));
                write!(f, "{name}: \"{word}\" isn't {value}")
            }
            Wrong::NoFile(name, word) => {
                let word = Escaped(word);
                write!(f, "{name}: \"{word}\" isn't a file")
            }
            Wrong::Unexpected(word) => {
                let word = Escaped(word);
                write!(f, "unexpected argument \"{word}\"")
            }
            Wrong::Needs(name, other) => write!(f, "{name} needs {other}"),
        }
    }
}

impl fmt::Display for Value {
    fn fmt<W: fmt::Write>(&self, f: &mut fmt::Formatter<W>) -> fmt::Result {
        match self {
            Value::Any(name) => f.write_str(name),
            Value::Number(largest) => write!(f, "a number up to {largest}"),
            Value::OneOf(allowed) => write_choice(allowed, f),
        }
    }
}

/// Writes the words, with commas and an `or` between them.
fn write_choice<W: fmt::Write>(words: &[&str], f: &mut fmt::Formatter<W>) -> fmt::Result {
    let last = words.len().saturating_sub(1);
    for (index, word) in words.iter().enumerate() {
        if index > 0 {
            f.write_str(if index < last { ", " } else { " or " })?;
        }
        f.write_str(word)?;
    }
    Ok(())
}

/// Reports what is wrong with a word, after the name of the program, and returns the exit status
/// for that.
pub fn refuse<F: Write>(program: &str, wrong: Wrong<'_>, faults: &mut F) -> u8
    ensures { result ≡ 2 }
{
    let _ = writeln!(faults, "{program}: {wrong}");
    USAGE
}
