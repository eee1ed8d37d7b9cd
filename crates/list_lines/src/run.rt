//! One run of the program, over any reader and writers.

ghost use Rattle.std.specs.Prelude.{◌≡◌, [], false, is_ok, Err, if◌then◌else◌};
ghost use Rattle.rtr_units.specs.StopCauses.{by_cause, cause_of};
ghost use Rattle.list_lines.specs.PrivateFollowing.{HasSeen};
ghost use Rattle.list_lines.specs.Listing.{Lists};
ghost use Rattle.list_lines.specs.ListStatus.{Runs, counts_units, listing_status};
ghost use Rattle.list_lines.specs.ListStatus.{wanted_by_words};

use crate::printer::Printer;
use program_frame::{FAILED, REFUSED, Subject, WELL};
use rtr_units::fault::Fault;
use rtr_units::source::{Sink, Source};
use std::alloc::Global;
use std::io;
use std::io::Write;
use unit_any::AnyUnit;

/// What a run prints.
#[derive(Clone, Copy)]
pub enum Wanted {
    /// A line for people of each unit.
    Text,
    /// A JSON object of each unit.
    Json,
    /// A line of each rule that a unit breaks.
    Findings,
}

/// The form that the words after the program's name ask for.
pub fn form_wanted(words: &[String]) -> Option<Wanted>
    ensures { result ≡ wanted_by_words words.now }
{
    match words {
        [] => Some(Wanted::Text),
        [word] => match word.as_str() {
            "--json" => Some(Wanted::Json),
            "--check" => Some(Wanted::Findings),
            _ => None,
        },
        _ => None,
    }
}

/// Reads units up to the end of the input and prints the requested lines of each, flushes the
/// output once, and returns the exit status:
/// - 0 if all that succeeded and no broken rule was found;
/// - 1 if one was found, or the input has a fault;
/// - 3 if reading, writing, flushing or memory failed.
///
/// A fault and status 3 come with a line on `faults`, which begins with the program's name, and has
/// that of the file if reading it failed; a broken pipe is not reported. If broken rules are
/// requested, a last line states how many units and answers were checked. If a line can't be
/// written, nothing else changes.
pub fn print_units<R: Source, W: Sink, F: Write>(
    alloc: Global,
    subject: Subject<'_>,
    wanted: Wanted,
    input: &mut R,
    output: &mut W,
    faults: &mut F,
) -> u8
    // Where it succeeds no line is printed on `faults`, unless units are counted there.
    ensures quiet { counts_units wanted ≡ false → result ≡ 0 → faults.new ≡ faults.old }
    // What is wanted is printed of the input, and then the output flushed once, of which a clause
    // sees a failure alone.
    ensures lists { Runs wanted result
        (R.state input.old) (R.state input.new) (W.state output.old) (W.state output.new) }
{
    let mut printer = Printer::new(alloc);
    let mut counts = Counts {
        units: 0,
        answers: 0,
    };
    let answer = list(alloc, wanted, &mut printer, &mut counts, input, output);
    let flushed = output.flush();
    let status = tell(subject, answer, flushed, printer.offset(), faults);
    if let Wanted::Findings = wanted {
        tell_counts(subject.program, counts, faults);
    }
    status
}

/// The numbers of units and answers that were checked.
#[derive(Clone, Copy)]
struct Counts {
    /// The number of units.
    units: u64,
    /// The number of ends of data among them, which is that of the answers.
    answers: u64,
}

impl Counts {
    /// Counts the unit.
    fn add(&mut self, unit: &AnyUnit) {
        self.units = self.units.saturating_add(1);
        if let AnyUnit::EndOfData(_) = unit {
            self.answers = self.answers.saturating_add(1);
        }
    }
}

/// Reports how many units were checked.
fn tell_counts<F: Write>(name: &str, counts: Counts, faults: &mut F) {
    let units = counts.units;
    let answers = counts.answers;
    let _ = writeln!(faults, "{name}: looked at units {units}, answers {answers}");
}

/// Reports what failed, if something did, and returns the exit status.
fn tell<F: Write>(
    subject: Subject<'_>,
    answer: Result<bool, Fault>,
    flushed: io::Result<()>,
    offset: u64,
    faults: &mut F,
) -> u8
    ensures status { result ≡ (if is_ok flushed then listing_status (by_cause answer) else 3) }
    ensures quiet { result ≡ 0 → faults.new ≡ faults.old }
{
    let found = match answer {
        Ok(found) => found,
        Err(fault) => return tell_fault(subject, &fault, flushed, offset, faults),
    };
    match flushed {
        Ok(()) => { if found { REFUSED } else { WELL } }
        Err(error) => {
            subject.report(&Fault::Writer(error), faults);
            FAILED
        }
    }
}

/// Reports the fault, with the offset of its unit if it is the input's, and returns the exit
/// status. If the flush after it failed, only the output is named: reading may have failed since it
/// flushes first.
fn tell_fault<F: Write>(
    subject: Subject<'_>,
    fault: &Fault,
    flushed: io::Result<()>,
    offset: u64,
    faults: &mut F,
) -> u8
    ensures { result ≡
        (if is_ok flushed then listing_status (Err (cause_of fault.now)) else 3) }
{
    let status = fault_status(fault);
    if status == REFUSED {
        let name = subject.program;
        let _ = writeln!(faults, "{name}: offset {offset}: {fault}");
    }
    match flushed {
        Ok(()) => {
            if status == FAILED {
                subject.report(fault, faults);
            }
            status
        }
        Err(error) => {
            subject.report(&Fault::Writer(error), faults);
            FAILED
        }
    }
}

/// The status at a fault.
fn fault_status(fault: &Fault) -> u8
    ensures { result ≡ listing_status (Err (cause_of fault.now)) }
{
    match fault {
        Fault::Reader(_) | Fault::Writer(_) | Fault::TooMany | Fault::Memory => FAILED,
        _ => REFUSED,
    }
}

/// Prints the requested lines of each unit, counts it, and reports whether a broken rule was found.
fn list<R: Source, W: Sink>(
    alloc: Global,
    wanted: Wanted,
    printer: &mut Printer,
    counts: &mut Counts,
    input: &mut R,
    output: &mut W,
) -> Result<bool, Fault>
    // The printer has printed nothing.
    requires offset { printer.old.offset ≡ 0 }
    requires checker { HasSeen printer.old.checker [] }
    ensures { Lists wanted result
        (R.state input.old) (R.state input.new) (W.state output.old) (W.state output.new) }
{
    let mut found = false;
    // Why printing fails, where it does.
    let mut failure = Fault::Memory;
    for count in 0..u64::MAX {
        match AnyUnit::read(alloc, input) {
            Ok(Some(unit)) => match printer.print(wanted, &unit, output, &mut failure) {
                Ok(more) => {
                    found |= more;
                    counts.add(&unit);
                }
                Err(_) => return Err(failure),
            },
            Ok(None) => {
                return match printer.finish(wanted, output, &mut failure) {
                    Ok(more) => Ok(found | more),
                    Err(_) => Err(failure),
                };
            }
            Err(fault) => return Err(fault),
        }
    }
    Err(Fault::TooMany)
}
