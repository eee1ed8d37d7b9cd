//! Reads a session's units from standard input or a file, and writes them to standard output in
//! their written form.
#![tactic(auto)]

mod clean;
mod flushing;
mod run;
mod wanted;

use program_frame::{
    Front, Input, InputName, Manual, REFUSED, Setting, Subject, Syntax, Value, Watched,
    buffered_input, buffered_output, hint, program_words, take_file, usage,
};
use rtr_units::buffered::{BufferedSink, BufferedSource};
use std::cell::Cell;
use std::io;
use std::io::{BufReader, Stderr};
use std::process::ExitCode;

/// The texts of --help and --version.
const MANUAL: Manual = Manual {
    name: "rtr_clean",
    version: "rtr_clean 0.3.0\n",
    usage: "usage: rtr_clean [--version 0|1|2] [FILE]\n",
    help: "\
rtr_clean - write the units of an RTR session with zero where they mean nothing
usage: rtr_clean [--version 0|1|2] [FILE]

It reads units of the RPKI to Router protocol (RFC 8210) from FILE, or from
standard input if FILE is - or isn't given, and writes each one with zero
wherever its bits mean nothing.

  (no word)    keep the versions of the units
  --version N  write payload units and ends of data in this version, and leave
               out payload units that it lacks
  --help       print this
  --version    without a number: print the program's version
",
    syntax: Syntax {
        forms: &[],
        switches: &[],
        settings: &[Setting {
            name: "--version",
            value: Value::OneOf(&["0", "1", "2"]),
            repeats: false,
        }],
        operands: 1,
    },
};

/// Opens the file of this name, keeps its first bytes, and buffers it, unless there is no memory
/// for a buffer.
fn open<'a>(
    rt: &HostRuntime,
    name: &str,
    front: &'a Cell<Front>,
) -> io::Result<BufReader<Watched<'a, Input>>> {
    let input = Input::open(rt, name)?;
    let spare = input.try_clone(rt);
    let watch = |input| Watched::new(input, front);
    buffered_input(rt, watch(input), spare.map(watch))
}

/// Does what the words ask for with this input, and returns the status.
fn clean_input(
    rt: &HostRuntime,
    words: Vec<String>,
    input: InputName<'_>,
    faults: &mut Stderr,
) -> u8 {
    let front = Cell::new(Front::new());
    let subject = Subject::of_file(MANUAL.name, input.shown);
    let mut source = match open(rt, input.name, &front) {
        Ok(source) => BufferedSource::new(source),
        Err(error) => return subject.report_unread(&error, faults),
    };
    let mut output = BufferedSink::new(buffered_output(rt));
    let status = run::program(
        rt.alloc(),
        &MANUAL,
        input.file,
        Some(words),
        &mut source,
        &mut output,
        faults,
    );
    if status == REFUSED {
        hint(MANUAL.name, input.shown, front.get(), faults);
    }
    status
}

fn main(rt: HostRuntime) -> ExitCode {
    let mut faults: Stderr = rt.stderr();
    let Some(mut words) = program_words(&rt) else {
        return ExitCode::from(usage(&MANUAL, &mut faults));
    };
    let file = take_file(&mut words, |before| wanted::form_wanted(before).is_some());
    ExitCode::from(clean_input(&rt, words, InputName::of(&file), &mut faults))
}
