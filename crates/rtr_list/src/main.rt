//! Lists the units of a recorded session, one on a line, or the rules of the protocol that they
//! break, or prints their summary or the payloads that it leaves.
#![tactic(auto)]

use list_work::{program, reads_input};
use program_frame::{
    Front, Input, InputName, Manual, Painted, Prompt, REFUSED, Shared, Subject, Syntax,
    buffered_input, buffered_output, hint, program_words, take_file, usage, wants_colours,
    words_after_name,
};
use rtr_units::buffered::BufferedSource;
use rtr_units::source::Counted;
use std::cell::{Cell, RefCell};
use std::io;
use std::io::{BufReader, BufWriter, Stderr, Stdout};
use std::process::ExitCode;

/// The texts of --help and --version.
const MANUAL: Manual = Manual {
    name: "rtr_list",
    version: "rtr_list 0.3.0\n",
    usage: "usage: rtr_list [--json | --check | --summary | --csv | --vrps] [FILE]\n",
    help: "\
rtr_list - list the units of a recorded RTR session
usage: rtr_list [--json | --check | --summary | --csv | --vrps] [FILE]

It reads units of the RPKI to Router protocol (RFC 8210) from FILE, or from
standard input if FILE is - or isn't given.

  (no word)  print a line for each unit, which begins with its offset
  --json     print a JSON object for each unit
  --check    print only the broken rules of the protocol
  --summary  print the number of units of each kind, and the serial number of
             each answer
  --csv      print the origins that the recording leaves, as CSV
  --vrps     print all payloads that the recording leaves, as JSON
  --help     print this
  --version  print the program's version
",
    syntax: Syntax {
        forms: &["--json", "--check", "--summary", "--csv", "--vrps"],
        switches: &[],
        settings: &[],
        operands: 1,
    },
};

/// Lines in a buffer.
type Lines = RefCell<BufWriter<Stdout>>;

/// The input, which flushes the lines before it is read, and whose first bytes are kept.
type Prompted<'a> = Prompt<'a, Input, BufWriter<Stdout>>;

/// Opens the file of this name with a buffer, or unbuffered if there is no memory for one.
fn open<'a>(
    rt: &HostRuntime,
    name: &str,
    lines: &'a Lines,
    front: &'a Cell<Front>,
) -> io::Result<BufReader<Prompted<'a>>> {
    let input = Input::open(rt, name)?;
    let spare = input.try_clone(rt);
    let prompt = |input| Prompt::new(input, lines, front);
    buffered_input(rt, prompt(input), spare.map(prompt))
}

/// Prints what the words ask for of this input, and returns the status. Lines for people are
/// coloured on a terminal.
fn print(rt: &HostRuntime, words: Vec<String>, input: InputName<'_>, faults: &mut Stderr) -> u8 {
    let lines = RefCell::new(buffered_output(rt));
    let front = Cell::new(Front::new());
    let subject = Subject::of_file(MANUAL.name, input.shown);
    let mut source = match open(rt, input.name, &lines, &front) {
        Ok(source) => BufferedSource::new(source),
        Err(error) => return subject.report_unread(&error, faults),
    };
    let colours = words_after_name(&words).is_empty() && wants_colours(rt);
    let mut output = Painted::new(Counted::new(Shared::new(&lines)), colours);
    let status = program(
        rt.alloc(),
        &MANUAL,
        input.file,
        Some(words),
        &mut source,
        &mut output,
        faults,
    );
    if status == REFUSED {
        hint(MANUAL.name, input.shown, front.get(), faults);
    }
    status
}

fn main(rt: HostRuntime) -> ExitCode {
    let mut faults: Stderr = rt.stderr();
    let Some(mut words) = program_words(&rt) else {
        return ExitCode::from(usage(&MANUAL, &mut faults));
    };
    let file = take_file(&mut words, reads_input);
    ExitCode::from(print(&rt, words, InputName::of(&file), &mut faults))
}
