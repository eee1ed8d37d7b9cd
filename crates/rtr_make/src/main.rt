//! Reads validated payloads from standard input or a file, and writes their sequence to standard
//! output.
#![tactic(auto)]

use data_slurm::Slurm;
use make_work::{SYNTAX, asked, broken_timing, program};
use program_exceptions::{Split, read_files, split_words};
use program_frame::{
    Input, STANDARD_INPUT, Subject, buffered_output, program_words, refuse, seconds_since_epoch,
    take_file, words_after_name,
};
use rtr_units::source::Counted;
use std::io;
use std::io::Stderr;
use std::process::ExitCode;

/// The program's name.
const PROGRAM: &str = "rtr_make";

/// The option that names a SLURM file.
const SLURM: &str = "--slurm";

/// Makes the requested sequence of the file, or of standard input.
fn make(
    rt: &HostRuntime,
    words: Option<Vec<String>>,
    slurm: &Slurm,
    subject: Subject<'_>,
    faults: &mut Stderr,
) -> io::Result<ExitCode> {
    let mut input = Input::open(rt, subject.file.unwrap_or(STANDARD_INPUT))?;
    let now = seconds_since_epoch(rt)?;
    let mut output = Counted::new(buffered_output(rt));
    Ok(program(
        rt.alloc(),
        now,
        words,
        slurm,
        &subject,
        &mut input,
        &mut output,
        faults,
    ))
}

fn main(rt: HostRuntime) -> ExitCode {
    let mut faults: Stderr = rt.stderr();
    let Some(words) = program_words(&rt) else {
        return finish(&rt, None, &Slurm::new(rt.alloc()), None, &mut faults);
    };
    if let Some(wrong) = SYNTAX.open_option(words_after_name(&words), SLURM) {
        return ExitCode::from(refuse(PROGRAM, wrong, &mut faults));
    }
    match split_words(rt.alloc(), words, SLURM, "--ignore") {
        Some(split) => run(&rt, split, &mut faults),
        None => finish(&rt, None, &Slurm::new(rt.alloc()), None, &mut faults),
    }
}

/// Reads the SLURM files, and makes the sequence that the other words ask for.
fn run(rt: &HostRuntime, split: Split, faults: &mut Stderr) -> ExitCode {
    let mut words = split.words;
    let file = take_file(&mut words, |before| {
        asked(before).is_some() || broken_timing(before).is_some()
    });
    if asked(words_after_name(&words)).is_none() {
        // Wrong words: no file is opened.
        return finish(rt, Some(words), &Slurm::new(rt.alloc()), None, faults);
    }
    let slurm = match read_files(rt, PROGRAM, &split.files, faults) {
        Ok(slurm) => slurm,
        Err(status) => return ExitCode::from(status),
    };
    match &file {
        Some(name) => finish(rt, Some(words), &slurm, Some(name.as_str()), faults),
        None => finish(rt, Some(words), &slurm, None, faults),
    }
}

/// Makes the sequence that the words ask for, or reports why the file can't be read.
fn finish(
    rt: &HostRuntime,
    words: Option<Vec<String>>,
    slurm: &Slurm,
    file: Option<&str>,
    faults: &mut Stderr,
) -> ExitCode {
    let subject = Subject {
        program: PROGRAM,
        file,
    };
    match make(rt, words, slurm, subject, faults) {
        Ok(code) => code,
        Err(error) => ExitCode::from(subject.report_unread(&error, faults)),
    }
}
