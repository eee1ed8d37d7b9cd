//! Inputs.

ghost use Rattle.std.specs.Prelude.{◌≡◌, IfErr};

use crate::failures::Subject;
use std::fs::File;
use std::io;
use std::io::{Read, Stdin, Write};
use std::os::fd::AsRawFd;

/// The name that stands for standard input.
pub const STANDARD_INPUT: &str = "-";

/// The descriptor of standard input.
const STANDARD_DESCRIPTOR: i32 = 0;

/// An input: a file, or standard input.
#[derive(Drop)]
pub enum Input {
    /// A file.
    Opened(File),
    /// Standard input.
    Standard(Stdin),
}

impl Read for Input {
    fn read(&mut self, piece: &mut [u8]) -> io::Result<usize> {
        match self {
            Input::Opened(file) => file.read(piece),
            Input::Standard(input) => input.read(piece),
        }
    }
}

impl Input {
    /// The file of this name, or standard input.
    pub fn open(rt: &HostRuntime, name: &str) -> io::Result<Input> {
        if name == STANDARD_INPUT {
            Ok(Input::Standard(rt.stdin()))
        } else {
            Ok(Input::Opened(File::open(rt, name)?))
        }
    }

    /// Does the same. If the file can't be opened, it reports why, and fails with the status for
    /// that.
    pub fn open_or_report<F: Write>(
        rt: &HostRuntime,
        program: &str,
        name: &str,
        faults: &mut F,
    ) -> Result<Input, u8>
        ensures { IfErr result (λ status. status ≡ 3) }
    {
        match Input::open(rt, name) {
            Ok(input) => Ok(input),
            Err(error) => Err(Subject::of_file(program, name).report_unread(&error, faults)),
        }
    }

    /// The same input for a second reader. A file isn't opened again, so that the writer of a named
    /// pipe never sees it closed; both share its offset.
    pub fn try_clone(&self, rt: &HostRuntime) -> io::Result<Input> {
        match self {
            Input::Opened(file) => Ok(Input::Opened(file.try_clone()?)),
            Input::Standard(_) => Ok(Input::Standard(rt.stdin())),
        }
    }

    /// Whether it is a file that got the descriptor of standard input, because that was closed.
    pub fn took_standard_input(&self) -> bool {
        match self {
            Input::Opened(file) => file.as_raw_fd() == STANDARD_DESCRIPTOR,
            Input::Standard(_) => false,
        }
    }
}

/// The name of an input, and how lines about it call it.
#[derive(Clone, Copy)]
pub struct InputName<'a> {
    /// The name by which it is opened.
    pub name: &'a str,
    /// The name in lines.
    pub shown: &'a str,
    /// The file, if one is named.
    pub file: Option<&'a str>,
}

impl<'a> InputName<'a> {
    /// The names of this file, or of standard input if there is none.
    pub fn of(file: &'a Option<String>) -> InputName<'a> {
        match file {
            Some(name) => InputName {
                name: name.as_str(),
                shown: name.as_str(),
                file: Some(name.as_str()),
            },
            None => InputName {
                name: STANDARD_INPUT,
                shown: "standard input",
                file: None,
            },
        }
    }
}
