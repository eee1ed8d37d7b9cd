//! Reports of wrong arguments.

ghost use Rattle.std.specs.Prelude.{◌≡◌};

use crate::info::{NAME, SYNOPSIS};
use crate::words::misplaced;
use program_frame::{Setting, Syntax, USAGE, Value, Wrong, refuse};
use std::io::Write;

/// The arguments that the program takes, without `--help` and `--version`.
pub const SYNTAX: Syntax = Syntax {
    forms: &["--csv", "--json"],
    switches: &["--drop", "--empty", "--unended"],
    settings: &[
        Setting {
            name: "--version",
            value: Value::OneOf(&["0", "1", "2"]),
            repeats: false,
        },
        Setting {
            name: "--session",
            value: Value::Number(65535),
            repeats: false,
        },
        Setting {
            name: "--serial",
            value: Value::Number(4294967295),
            repeats: false,
        },
        Setting {
            name: "--refresh",
            value: Value::Number(4294967295),
            repeats: false,
        },
        Setting {
            name: "--retry",
            value: Value::Number(4294967295),
            repeats: false,
        },
        Setting {
            name: "--expire",
            value: Value::Number(4294967295),
            repeats: false,
        },
        Setting {
            name: "--ignore",
            value: Value::Any("NAME"),
            repeats: true,
        },
        Setting {
            name: "--at",
            value: Value::Number(18446744073709551615),
            repeats: false,
        },
        Setting {
            name: "--slurm",
            value: Value::Any("FILE"),
            repeats: true,
        },
    ],
    operands: 1,
};

/// Reports which of the words after the program's name is wrong, or if none is, the usage, and
/// returns the status for that.
pub(crate) fn refuse_words<F: Write>(words: &[String], faults: &mut F) -> u8
    ensures { result ≡ 2 }
{
    match wrong_word(words) {
        Some(wrong) => refuse(NAME, wrong, faults),
        None => usage(faults),
    }
}

/// What is wrong with the words: with one of them, or with two together.
fn wrong_word(words: &[String]) -> Option<Wrong<'_>> {
    match SYNTAX.wrong_word(words) {
        Some(wrong) => Some(wrong),
        None => misplaced(words),
    }
}

/// Prints the usage, and returns the status for wrong arguments.
pub(crate) fn usage<F: Write>(faults: &mut F) -> u8
    ensures { result ≡ 2 }
{
    let _ = writeln!(faults, "{SYNOPSIS}");
    USAGE
}
