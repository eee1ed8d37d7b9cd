//! A run that prints a table, over any reader and writers.

ghost use Rattle.std.specs.Prelude.{◌≡◌, ◌++◌, false, Ok, OnOk};
ghost use Rattle.list_tables.specs.TableStatus.{EndsTable, HasEach, RunsTable};
ghost use Rattle.list_tables.specs.TableStatus.{refused_status};
ghost use Rattle.list_tables.specs.Tables.{table_text};

use crate::csv_table::{LeftOut, add_csv, left_out};
use crate::json_table::add_json;
use crate::words::Table;
use data_memory::{ChangeError, Data};
use data_recordings::{Recording, Refusal, Stop, StopCause, read_recording};
use list_lines::Line;
use program_frame::{FAILED, REFUSED, Subject, WELL};
use rtr_units::fault::Fault;
use rtr_units::piece::put;
use rtr_units::source::{Sink, Source};
use std::alloc::{AllocError, Global};
use std::io::Write;

/// Reads a recording up to the end of the input, as `read_recording` does, prints the table of the
/// data that it leaves, flushes the output once, and returns the exit status:
/// - 0 if all that succeeded;
/// - 1 if the input is refused;
/// - 3 if reading, writing, flushing or memory failed.
///
/// Nothing is written until the whole table is made, which takes memory for all of its text.
/// Statuses 1 and 3 come with a line on `faults`, which begins with the program's name, and has
/// that of the file if reading it failed; status 0 comes with one if payloads are left out, and
/// with one if an answer is dropped. A broken pipe is not reported. If a line can't be written,
/// nothing else changes.
pub fn print_table<R: Source, W: Sink, F: Write>(
    alloc: Global,
    subject: Subject<'_>,
    table: Table,
    input: &mut R,
    output: &mut W,
    faults: &mut F,
) -> u8
    ensures { RunsTable table (faults.new ≡ faults.old) result
        (R.state input.old) (R.state input.new) (W.state output.old) (W.state output.new) }
{
    match read_recording(alloc, input) {
        Ok(recording) => print(alloc, subject, table, &recording, output, faults),
        Err(stop) => report_stop(subject, &stop, faults),
    }
}

/// Prints the table of the payloads, flushes the output, and returns the status.
fn print<W: Sink, F: Write>(
    alloc: Global,
    subject: Subject<'_>,
    table: Table,
    recording: &Recording,
    output: &mut W,
    faults: &mut F,
) -> u8
    ensures { EndsTable table (faults.new ≡ faults.old) (Ok recording.now) result
        (W.state output.old) (W.state output.new) }
{
    let mut text = Line::new(alloc);
    let Ok(()) = add_table(alloc, table, &mut text, &recording.payloads) else {
        return fail(subject, &Fault::Memory, faults);
    };
    let answer = put(output, text.as_bytes());
    let flushed = output.flush();
    match answer {
        Ok(()) => match flushed {
            Ok(()) => {
                report_left_out(subject.program, table, &recording.payloads, faults);
                report_cut(subject.program, recording.has_cut, faults);
                WELL
            }
            Err(error) => fail(subject, &Fault::Writer(error), faults),
        },
        Err(fault) => fail(subject, &fault, faults),
    }
}

/// Reports what failed, and returns the status.
fn fail<F: Write>(subject: Subject<'_>, fault: &Fault, faults: &mut F) -> u8
    ensures { result ≡ 3 }
{
    subject.report(fault, faults);
    FAILED
}

/// Adds the text of the table.
fn add_table(
    alloc: Global,
    table: Table,
    text: &mut Line,
    payloads: &Data,
) -> Result<(), AllocError>
    ensures { OnOk result (text.new ≡ text.old ++ table_text table payloads.now) }
{
    match table {
        Table::Csv => add_csv(text, payloads),
        Table::Json => add_json(alloc, text, payloads),
    }
}

/// Reports which payloads the table leaves out, if any.
fn report_left_out<F: Write>(name: &str, table: Table, payloads: &Data, faults: &mut F)
    ensures { HasEach table payloads.now → faults.new ≡ faults.old }
{
    match table {
        Table::Csv => report_counts(name, left_out(payloads), faults),
        Table::Json => {}
    }
}

/// Reports that an answer was dropped, if one was.
fn report_cut<F: Write>(name: &str, has_cut: bool, faults: &mut F)
    ensures { has_cut ≡ false → faults.new ≡ faults.old }
{
    if has_cut {
        let _ = writeln!(faults, "{name}: left out: an answer without an end of data");
    }
}

fn report_counts<F: Write>(name: &str, left_out: LeftOut, faults: &mut F)
    ensures { left_out.router_keys ≡ 0 → left_out.aspas ≡ 0 → faults.new ≡ faults.old }
{
    let keys = left_out.router_keys;
    let aspas = left_out.aspas;
    if keys > 0 || aspas > 0 {
        let _ = writeln!(
            faults,
            "{name}: left out: router keys {keys}, ASPAs {aspas}"
        );
    }
}

/// Reports where reading stopped, and why, with the offset of the unit if the input is at fault.
/// Returns the status.
fn report_stop<F: Write>(subject: Subject<'_>, stop: &Stop, faults: &mut F) -> u8
    ensures { result ≡ refused_status stop.now.cause }
{
    let status = refused_status(&stop.cause);
    if status == REFUSED {
        let name = subject.program;
        let offset = stop.offset;
        let cause = &stop.cause;
        let _ = writeln!(faults, "{name}: offset {offset}: {cause}");
        return status;
    }
    match &stop.cause {
        StopCause::Read(fault) => subject.report(fault, faults),
        StopCause::Refused(_) => subject.report(&Fault::Memory, faults),
    }
    status
}

/// The status for the cause that stopped reading.
fn refused_status(cause: &StopCause) -> u8
    ensures { result ≡ refused_status cause.now }
{
    match cause {
        StopCause::Read(Fault::Reader(_) | Fault::Writer(_) | Fault::TooMany | Fault::Memory)
        | StopCause::Refused(Refusal::Change(ChangeError::Memory)) => FAILED,
        StopCause::Read(_) | StopCause::Refused(_) => REFUSED,
    }
}
