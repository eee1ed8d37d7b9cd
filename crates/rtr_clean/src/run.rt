//! One run of the program, over any reader and writers.

ghost use Rattle.std.specs.Prelude.{◌≡◌, drop, true, IsNone, IfSome, None, Err};
ghost use Rattle.rtr_units.specs.StopCauses.{cause_of};
ghost use Rattle.program_frame.specs.Questions.{WritesText, asked_of, manual_text};
ghost use Rattle.rtr_clean.specs.CleanStatus.{CleansAndFlushes, clean_status};
ghost use Rattle.rtr_clean.specs.CleanWords.{form_asked};
ghost use Rattle.rtr_clean.specs.PrivateClean.{form_held};

use crate::clean::clean;
use crate::wanted::{WantedForm, form_wanted};
use program_frame::{FAILED, Manual, REFUSED, Subject, WELL, about, usage, words_after_name};
use rtr_units::fault::Fault;
use rtr_units::source::{Sink, Source};
use std::alloc::Global;
use std::io::Write;

/// Runs the program with the words that it was started with, its name first, over the input, which
/// is `file` or standard input, and returns the exit status. The file isn't among the words. If
/// they ask for units, these are read up to the end of the input, written in the requested form,
/// and the output is flushed once more:
/// - 0 if both succeeded;
/// - 1 if the input was refused;
/// - 3 if reading, writing, flushing or memory failed.
///
/// A flush that fails after another status doesn't change it. If they ask for help or the version,
/// that is written, with status 0 or 3. Otherwise a line on `faults` states which word is wrong, or
/// the usage, and the status is 2; so it is if there are no words because they aren't text.
/// Statuses 1 and 3 come with a line there that begins with the program's name, and has that of the
/// file if reading it failed; a broken pipe is not reported. If a line can't be written, nothing
/// else changes.
pub fn program<R: Source, W: Sink, F: Write>(
    alloc: Global,
    manual: &Manual,
    file: Option<&str>,
    words: Option<Vec<String>>,
    input: &mut R,
    output: &mut W,
    faults: &mut F,
) -> u8
    // Without words nothing is read or written.
    ensures no_words { IsNone words →
        (result ≡ 2) × (input.new ≡ input.old) × (output.new ≡ output.old) }
    // The same with wrong arguments after the program's name.
    ensures usage { IfSome words (λ all. form_asked (drop 1 all.items) ≡ None →
        asked_of (drop 1 all.items) ≡ None →
        (result ≡ 2) × (input.new ≡ input.old) × (output.new ≡ output.old)) }
    // Where they ask about the program, that is written, and nothing is read.
    ensures asked { IfSome words (λ all. form_asked (drop 1 all.items) ≡ None →
        IfSome (asked_of (drop 1 all.items)) (λ question. (input.new ≡ input.old)
        × WritesText (manual_text manual.now question) 0 3 result
        (W.state output.old) (W.state output.new))) }
    // If it succeeds no line is printed.
    ensures quiet { result ≡ 0 → faults.new ≡ faults.old }
    // Otherwise what they ask for is written, and then the output is flushed once, of which a
    // clause sees only a failure.
    ensures cleans { IfSome words (λ all. IfSome (form_asked (drop 1 all.items)) (λ what.
        CleansAndFlushes what result
        (R.state input.old) (R.state input.new) (W.state output.old) (W.state output.new))) }
{
    let Some(all) = words else {
        return usage(manual, faults);
    };
    let words = words_after_name(&all);
    if let Some(wanted) = form_wanted(words) {
        let subject = Subject {
            program: manual.name,
            file,
        };
        return run(alloc, subject, wanted, input, output, faults);
    }
    about(manual, words, FAILED, output, faults)
}

/// Reads units up to the end of the input and writes the requested form, flushes the output once
/// more, and returns the exit status, as `program` does.
fn run<R: Source, W: Sink, F: Write>(
    alloc: Global,
    subject: Subject<'_>,
    wanted: WantedForm,
    input: &mut R,
    output: &mut W,
    faults: &mut F,
) -> u8
    ensures quiet { result ≡ 0 → faults.new ≡ faults.old }
    ensures cleans { CleansAndFlushes (form_held wanted) result
        (R.state input.old) (R.state input.new) (W.state output.old) (W.state output.new) }
{
    let mut offset = 0;
    let result = clean(alloc, wanted, &mut offset, input, output);
    let flushed = output.flush();
    match result {
        Ok(()) => match flushed {
            Ok(()) => WELL,
            Err(error) => {
                subject.report(&Fault::Writer(error), faults);
                FAILED
            }
        },
        Err(fault) => tell(subject, &fault, offset, faults),
    }
}

/// Reports the fault, with the offset of its unit if it is the input's, and returns the status.
fn tell<F: Write>(subject: Subject<'_>, fault: &Fault, offset: u64, faults: &mut F) -> u8
    ensures { result ≡ clean_status (Err (cause_of fault.now)) true }
{
    match fault {
        Fault::Reader(_) | Fault::Writer(_) | Fault::Memory => {
            subject.report(fault, faults);
            FAILED
        }
        _ => {
            let name = subject.program;
            let _ = writeln!(faults, "{name}: offset {offset}: {fault}");
            REFUSED
        }
    }
}
