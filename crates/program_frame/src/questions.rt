//! Help and version of a program.

ghost use Rattle.std.specs.Prelude.{◌≡◌, ◌≢◌, None, IfSome};
ghost use Rattle.program_frame.specs.Questions.{WritesText, asked_of, manual_text};

use crate::status::{USAGE, WELL};
use crate::syntax::Syntax;
use crate::wrong::refuse;
use rtr_units::fault::Fault;
use rtr_units::piece::put;
use rtr_units::source::Sink;
use std::io::Write;

/// The texts of a program about itself, each of which ends with a line feed, and the arguments that
/// it takes.
#[derive(Clone, Copy)]
pub struct Manual {
    /// Its name.
    pub name: &'static str,
    /// Its name and its version, on one line.
    pub version: &'static str,
    /// Its usage, on one line.
    pub usage: &'static str,
    /// Its help: what it does, and what each of its arguments does.
    pub help: &'static str,
    /// The arguments that it takes, without `--help` and `--version`.
    pub syntax: Syntax,
}

/// A question about the program itself.
#[derive(Clone, Copy)]
pub enum Question {
    /// Its help, with `--help`.
    Help,
    /// Its version, with `--version`.
    Version,
}

/// The question in the words after the program's name: one of the two options, alone.
fn asked(words: &[String]) -> Option<Question>
    ensures { result ≡ asked_of words.now }
{
    match words {
        [word] => match word.as_str() {
            "--help" => Some(Question::Help),
            "--version" => Some(Question::Version),
            _ => None,
        },
        _ => None,
    }
}

/// Writes the text that is asked for, flushes the output, and returns the exit status: 0 if both
/// succeeded, otherwise the status of the failure, which it reports on `faults`.
fn answer<W: Sink, F: Write>(
    manual: &Manual,
    question: Question,
    failed: u8,
    output: &mut W,
    faults: &mut F,
) -> u8
    ensures tells { WritesText (manual_text manual.now question) 0 failed result
        (W.state output.old) (W.state output.new) }
    ensures quiet { failed ≢ 0 → result ≡ 0 → faults.new ≡ faults.old }
{
    let text = match question {
        Question::Help => manual.help,
        Question::Version => manual.version,
    };
    let written = put(output, text.as_bytes());
    let flushed = output.flush();
    match written {
        Ok(()) => match flushed {
            Ok(()) => WELL,
            Err(error) => {
                crate::report(manual.name, &Fault::Writer(error), faults);
                failed
            }
        },
        Err(fault) => {
            crate::report(manual.name, &fault, faults);
            failed
        }
    }
}

/// If the words after the program's name ask about it, writes that text as `answer` does, and
/// returns the exit status. Otherwise it reports which of them is wrong, or if none is, the usage,
/// as `usage` does.
pub fn about<W: Sink, F: Write>(
    manual: &Manual,
    words: &[String],
    failed: u8,
    output: &mut W,
    faults: &mut F,
) -> u8
    ensures usage { asked_of words.now ≡ None → (result ≡ 2) × (output.new ≡ output.old) }
    ensures tells { IfSome (asked_of words.now) (λ question.
        WritesText (manual_text manual.now question) 0 failed result
        (W.state output.old) (W.state output.new)) }
    ensures quiet { failed ≢ 0 → result ≡ 0 → faults.new ≡ faults.old }
{
    match asked(words) {
        Some(question) => answer(manual, question, failed, output, faults),
        None => refuse_words(manual, words, faults),
    }
}

/// Reports which word is wrong, or if none is, the usage, and returns the exit status for that.
fn refuse_words<F: Write>(manual: &Manual, words: &[String], faults: &mut F) -> u8
    ensures { result ≡ 2 }
{
    match manual.syntax.wrong_word(words) {
        Some(wrong) => refuse(manual.name, wrong, faults),
        None => usage(manual, faults),
    }
}

/// Prints the usage on standard error, and returns the exit status for that.
pub fn usage<F: Write>(manual: &Manual, faults: &mut F) -> u8
    ensures { result ≡ 2 }
{
    let text = manual.usage;
    let _ = write!(faults, "{text}");
    USAGE
}
