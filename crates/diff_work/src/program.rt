//! One run of the program, over any readers and writers.

ghost use Rattle.std.specs.Prelude.{◌≡◌, ◌<◌, false, true, is_ok, IfErr, IfOk};
ghost use Rattle.rtr_units.specs.AnyEnd.{end_bytes, end_meaning};
ghost use Rattle.data_memory.specs.Changes.{changes};
ghost use Rattle.diff_work.specs.DiffStatus.{RunsDiff, diff_status, has_no_cut};
ghost use Rattle.diff_work.specs.FilesCompared.{ComparesFiles, HoldsTroubleError};
ghost use Rattle.diff_work.specs.Differences.{differences, has_some, last_piece};
ghost use Rattle.diff_work.specs.Printing.{Puts};

use crate::differences::print_changes;
use crate::printer::Printer;
use crate::words::{Form, Request};
use data_recordings::{Recording, Stop, StopCause, read_recording};
use program_frame::{Escaped, FAILED, Failed, REFUSED, WELL, report};
use rtr_units::end::EndOfData;
use rtr_units::fault::Fault;
use rtr_units::source::{Sink, Source};
use std::alloc::Global;
use std::io;
use std::io::Write;

/// The status if something differs.
const DIFFERENT: u8 = REFUSED;

/// The result of comparing two files.
#[derive(Clone, Copy, Debug)]
pub struct Compared {
    /// Whether something differs.
    pub differs: bool,
    /// Whether an incomplete answer of the first file was dropped because the next one cut it off.
    pub old_cut: bool,
    /// The same for the second file.
    pub new_cut: bool,
}

/// Why the files weren't compared, or the changes not printed.
#[derive(Debug, Drop)]
pub enum Trouble {
    /// The first file couldn't be read.
    Old(Stop),
    /// The second file couldn't be read.
    New(Stop),
    /// Printing the changes failed: `Writer` or `Memory`.
    Output(Fault),
}

/// Reads both files, the old first, and prints the changes from the data of the first to that of
/// the second. Reports whether there is one, and whether an answer was dropped.
pub fn compare<O: Source, N: Source, W: Sink>(
    alloc: Global,
    form: Form,
    old: &mut O,
    new: &mut N,
    output: &mut W,
) -> Result<Compared, Trouble>
    ensures compares { ComparesFiles form result (O.state old.old) (O.state old.new)
        (N.state new.old) (N.state new.new) (W.state output.old) (W.state output.new) }
    ensures error { IfErr result (HoldsTroubleError (O.fails old.new) (N.fails new.new)) }
{
    let before = match read_recording(alloc, old) {
        Ok(recording) => recording,
        Err(stop) => return Err(Trouble::Old(stop)),
    };
    let after = match read_recording(alloc, new) {
        Ok(recording) => recording,
        Err(stop) => return Err(Trouble::New(stop)),
    };
    match print_differences(alloc, form, &before, &after, output) {
        Ok(differs) => Ok(Compared {
            differs,
            old_cut: before.has_cut,
            new_cut: after.has_cut,
        }),
        Err(fault) => Err(Trouble::Output(fault)),
    }
}

/// Prints the changes from the data of the first file to that of the second, and after units the
/// end of data of the second. Reports whether there is a change. Its faults are `Memory` and
/// `Writer`.
pub fn print_differences<W: Sink>(
    alloc: Global,
    form: Form,
    old: &Recording,
    new: &Recording,
    output: &mut W,
) -> Result<bool, Fault>
    ensures prints { Puts result (W.state output.old) (W.state output.new)
        (differences form (end_meaning new.now.end).version old.now.payloads new.now.payloads
        (end_bytes new.now.end)) }
    ensures any { IfOk result (λ any. any ≡ has_some (changes old.now.payloads new.now.payloads)) }
{
    let mut printer = Printer::new(alloc, form, new.end.version());
    let any = print_changes(&mut printer, &old.payloads, &new.payloads, output)?;
    print_end(form, &new.end, output)?;
    Ok(any)
}

/// Writes the end of data, if units are requested.
fn print_end<W: Sink>(form: Form, end: &EndOfData, output: &mut W) -> Result<(), Fault>
    ensures { Puts result (W.state output.old) (W.state output.new)
        (last_piece form (end_bytes end.now)) }
{
    match form {
        Form::Units => end.write(output),
        Form::Text | Form::Json => Ok(()),
    }
}

/// Prints the requested changes, flushes the output once, and returns the exit status:
/// - 0 if nothing differs;
/// - 1 if something does;
/// - 3 if a file can't be read or holds no recording, or if writing, flushing or memory failed.
///
/// Status 3 comes with a line on `faults`, and the others with one for each file of which an answer
/// was dropped; each begins with the program's name. A broken pipe is not reported. If a line can't
/// be written, nothing else changes.
pub fn run<O: Source, N: Source, W: Sink, F: Write>(
    alloc: Global,
    name: &str,
    request: Request<'_>,
    old: &mut O,
    new: &mut N,
    output: &mut W,
    faults: &mut F,
) -> u8
    ensures { RunsDiff request.entry.form (faults.new ≡ faults.old) result
        (O.state old.old) (O.state old.new) (N.state new.old) (N.state new.new)
        (W.state output.old) (W.state output.new) }
{
    let answer = compare(alloc, request.form, old, new, output);
    let flushed = output.flush();
    tell(name, request, answer, flushed, faults)
}

/// Reports what stopped the run, if something did, and returns the exit status.
fn tell<F: Write>(
    name: &str,
    request: Request<'_>,
    answer: Result<Compared, Trouble>,
    flushed: io::Result<()>,
    faults: &mut F,
) -> u8
    ensures status { result ≡ diff_status answer (is_ok flushed) }
    ensures quiet { result < 2 → has_no_cut answer ≡ true → faults.new ≡ faults.old }
{
    let compared = match answer {
        Ok(compared) => compared,
        Err(trouble) => {
            tell_trouble(name, request, &trouble, faults);
            return FAILED;
        }
    };
    match flushed {
        Ok(()) => {
            tell_cut(name, request.old, compared.old_cut, faults);
            tell_cut(name, request.new, compared.new_cut, faults);
            if compared.differs { DIFFERENT } else { WELL }
        }
        Err(error) => {
            report(name, &Fault::Writer(error), faults);
            FAILED
        }
    }
}

/// Reports that an answer of this file was dropped, if one was.
fn tell_cut<F: Write>(name: &str, file: &str, has_cut: bool, faults: &mut F)
    ensures { has_cut ≡ false → faults.new ≡ faults.old }
{
    if has_cut {
        let file = Escaped(file);
        let _ = writeln!(
            faults,
            "{name}: {file}: left out: an answer without an end of data"
        );
    }
}

/// Reports what stopped the run.
fn tell_trouble<F: Write>(name: &str, request: Request<'_>, trouble: &Trouble, faults: &mut F) {
    match trouble {
        Trouble::Old(stop) => tell_stop(name, request.old, stop, faults),
        Trouble::New(stop) => tell_stop(name, request.new, stop, faults),
        Trouble::Output(fault) => report(name, fault, faults),
    }
}

/// Reports why a file couldn't be read, and where, unless the system is at fault.
fn tell_stop<F: Write>(name: &str, file: &str, stop: &Stop, faults: &mut F) {
    let file = Escaped(file);
    match &stop.cause {
        StopCause::Read(fault) if is_of_system(fault) => {
            let failed = Failed(fault);
            let _ = writeln!(faults, "{name}: {file}: {failed}");
        }
        cause => {
            let offset = stop.offset;
            let _ = writeln!(faults, "{name}: {file}: offset {offset}: {cause}");
        }
    }
}

/// Whether the fault isn't the input's.
fn is_of_system(fault: &Fault) -> bool {
    matches!(
        fault,
        Fault::Reader(_) | Fault::Writer(_) | Fault::Memory | Fault::TooMany
    )
}
