//! One run of the program, over any reader and writers.

ghost use Rattle.std.specs.Prelude.{◌≡◌, [], Err};
ghost use Rattle.rtr_units.specs.StopCauses.{by_cause, cause_of};
ghost use Rattle.list_lines.specs.ListStatus.{listing_status, read_status};
ghost use Rattle.program_frame.specs.Questions.{WritesText};
ghost use Rattle.list_summary.specs.PrivateTallies.{ReadsAndSums, Sums};
ghost use Rattle.list_summary.specs.SummaryStatus.{Summarises};

use crate::summary::Summary;
use crate::text::add_summary;
use list_lines::Line;
use program_frame::{FAILED, REFUSED, Subject, WELL};
use rtr_units::fault::Fault;
use rtr_units::piece::put;
use rtr_units::source::{Sink, Source};
use std::alloc::Global;
use std::io::Write;
use unit_any::AnyUnit;

/// Reads units up to the end of the input or to the first fault, prints the summary of all of them,
/// flushes the output once, and returns the exit status:
/// - 0 if the input ended and all that succeeded;
/// - 1 if the input has a fault;
/// - 3 if reading, writing, flushing or memory failed.
///
/// A fault and status 3 come with a line on `faults`, which begins with the program's name, and has
/// that of the file if reading it failed. A broken pipe is not reported. If a line can't be
/// written, nothing else changes. If an allocation for the text, an answer or the count of an AS
/// fails, nothing is printed.
pub fn summarise<R: Source, W: Sink, F: Write>(
    alloc: Global,
    subject: Subject<'_>,
    input: &mut R,
    output: &mut W,
    faults: &mut F,
) -> u8
    ensures quiet { result ≡ 0 → faults.new ≡ faults.old }
    ensures summarises { Summarises result
        (R.state input.old) (R.state input.new) (W.state output.old) (W.state output.new) }
{
    let mut summary = Summary::new(alloc);
    let answer = read_units(alloc, &mut summary, input);
    let mut text = Line::new(alloc);
    match add_summary(alloc, &mut text, answer.is_ok(), &summary) {
        Ok(()) => print(
            subject,
            text.as_bytes(),
            &answer,
            summary.bytes,
            output,
            faults,
        ),
        Err(_) => fail(subject, &Fault::Memory, faults),
    }
}

/// Reads units up to the end of the input or to the first fault, and counts them.
fn read_units<R: Source>(alloc: Global, summary: &mut Summary, input: &mut R) -> Result<(), Fault>
    requires { Sums summary.old [] }
    ensures { ReadsAndSums result summary.new (R.state input.old) (R.state input.new) }
{
    for count in 0..u64::MAX {
        match AnyUnit::read(alloc, input) {
            Ok(Some(unit)) => summary.add(&unit),
            Ok(None) => return Ok(()),
            Err(fault) => return Err(fault),
        }
    }
    Err(Fault::TooMany)
}

/// Prints the text, flushes the output, and returns the status: if that succeeds, that of how
/// reading ended, at this offset.
fn print<W: Sink, F: Write>(
    subject: Subject<'_>,
    text: &[u8],
    answer: &Result<(), Fault>,
    offset: u64,
    output: &mut W,
    faults: &mut F,
) -> u8
    ensures quiet { result ≡ 0 → faults.new ≡ faults.old }
    ensures writes { WritesText text.now (read_status (by_cause answer.now)) 3 result
        (W.state output.old) (W.state output.new) }
{
    let written = put(output, text);
    let flushed = output.flush();
    let status = tell(subject, answer, offset, faults);
    match written {
        Ok(()) => match flushed {
            Ok(()) => status,
            Err(error) => fail(subject, &Fault::Writer(error), faults),
        },
        Err(fault) => fail(subject, &fault, faults),
    }
}

/// Reports why reading stopped before the end of the input, if it did, and returns the status for
/// that.
fn tell<F: Write>(
    subject: Subject<'_>,
    answer: &Result<(), Fault>,
    offset: u64,
    faults: &mut F,
) -> u8
    ensures status { result ≡ read_status (by_cause answer.now) }
    ensures quiet { result ≡ 0 → faults.new ≡ faults.old }
{
    match answer {
        Ok(()) => WELL,
        Err(fault) => tell_fault(subject, fault, offset, faults),
    }
}

/// Reports the fault, with the offset of its unit if it is the input's, and returns the status for
/// that.
fn tell_fault<F: Write>(subject: Subject<'_>, fault: &Fault, offset: u64, faults: &mut F) -> u8
    ensures { result ≡ listing_status (Err (cause_of fault.now)) }
{
    match fault {
        Fault::Reader(_) | Fault::Writer(_) | Fault::TooMany | Fault::Memory => {
            fail(subject, fault, faults)
        }
        _ => {
            let name = subject.program;
            let _ = writeln!(faults, "{name}: offset {offset}: {fault}");
            REFUSED
        }
    }
}

/// Reports what failed, and returns the status.
fn fail<F: Write>(subject: Subject<'_>, fault: &Fault, faults: &mut F) -> u8
    ensures { result ≡ 3 }
{
    subject.report(fault, faults);
    FAILED
}
