//! Prints the differences between the data of two recordings.
#![tactic(auto)]

use diff_work::{Form, Request, asked, run};
use program_frame::{
    BUFFER_SIZE, FAILED, Front, Input, Manual, Painted, STANDARD_INPUT, Subject, Syntax, Watched,
    about, buffered_output, hint, program_words, report_closed, usage, wants_colours,
    words_after_name,
};
use rtr_units::buffered::BufferedSource;
use rtr_units::source::Counted;
use std::cell::Cell;
use std::io::{BufReader, BufWriter, Stderr, Stdout};
use std::process::ExitCode;

/// The texts of --help and --version.
const MANUAL: Manual = Manual {
    name: "rtr_diff",
    version: "rtr_diff 0.3.0\n",
    usage: "usage: rtr_diff [--json | --units] OLD NEW, where one of them may be -\n",
    help: "\
rtr_diff - print what differs between the data of two RTR recordings
usage: rtr_diff [--json | --units] OLD NEW, where one of them may be -

It reads two files of units of the RPKI to Router protocol (RFC 8210), and
prints the changes that lead from the payloads of OLD to those of NEW. The name
- stands for standard input.

  (no word)  print a line for each change: + for an announcement, - for a
             withdrawal
  --json     print a JSON object for each change
  --units    write the changes as units, and then the end of data of NEW
  --help     print this
  --version  print the program's version
",
    syntax: Syntax {
        forms: &["--json", "--units"],
        switches: &[],
        settings: &[],
        operands: 2,
    },
};

/// The input with a buffer, whose first bytes are kept.
type Buffered<'a> = BufferedSource<Watched<'a, Input>>;

/// Opens the input of this name with a buffer. If there is no memory for the buffer, reports that,
/// and fails with the status.
fn buffered<'a>(
    rt: &HostRuntime,
    input: Input,
    name: &str,
    front: &'a Cell<Front>,
    faults: &mut Stderr,
) -> Result<Buffered<'a>, u8> {
    match BufReader::with_capacity(rt.alloc(), BUFFER_SIZE, Watched::new(input, front)) {
        Ok(reader) => Ok(BufferedSource::new(reader)),
        Err(error) => Err(Subject::of_file(MANUAL.name, name).report_unread(&error, faults)),
    }
}

/// The output, whose lines for people are coloured on a terminal.
type Output = Painted<Counted<BufWriter<Stdout>>>;

/// Opens both files, compares them, and returns the status. Fails with the status if a file can't
/// be opened or read.
fn compare(
    rt: &HostRuntime,
    request: Request<'_>,
    output: &mut Output,
    faults: &mut Stderr,
) -> Result<u8, u8> {
    let old = Input::open_or_report(rt, MANUAL.name, request.old, faults)?;
    let new = Input::open_or_report(rt, MANUAL.name, request.new, faults)?;
    let asks_standard = request.old == STANDARD_INPUT || request.new == STANDARD_INPUT;
    if asks_standard && (old.took_standard_input() || new.took_standard_input()) {
        return Err(report_closed(MANUAL.name, faults));
    }
    let (old_front, new_front) = (Cell::new(Front::new()), Cell::new(Front::new()));
    let mut old = buffered(rt, old, request.old, &old_front, faults)?;
    let mut new = buffered(rt, new, request.new, &new_front, faults)?;
    let status = run(
        rt.alloc(),
        MANUAL.name,
        request,
        &mut old,
        &mut new,
        output,
        faults,
    );
    if status == FAILED {
        hint(MANUAL.name, request.old, old_front.get(), faults);
        hint(MANUAL.name, request.new, new_front.get(), faults);
    }
    Ok(status)
}

fn main(rt: HostRuntime) -> ExitCode {
    let mut faults: Stderr = rt.stderr();
    let Some(words) = program_words(&rt) else {
        return ExitCode::from(usage(&MANUAL, &mut faults));
    };
    let words = words_after_name(&words);
    let request = asked(words);
    let has_lines = matches!(
        request,
        Some(Request {
            form: Form::Text,
            ..
        })
    );
    let colours = has_lines && wants_colours(&rt);
    let mut output = Painted::new(Counted::new(buffered_output(&rt)), colours);
    let status = match request {
        Some(request) => match compare(&rt, request, &mut output, &mut faults) {
            Ok(status) | Err(status) => status,
        },
        None => about(&MANUAL, words, FAILED, &mut output, &mut faults),
    };
    ExitCode::from(status)
}
