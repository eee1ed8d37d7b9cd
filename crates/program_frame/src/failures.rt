//! Lines that report failures.

ghost use Rattle.std.specs.Prelude.{◌≡◌};

use crate::input::STANDARD_INPUT;
use crate::status::FAILED;
use rtr_units::fault::Fault;
use std::io::{ErrorKind, Write};
use std::{fmt, io};

/// A fault with the reason of the system, if it has one.
#[derive(Clone, Copy)]
pub struct Failed<'a>(pub &'a Fault);

impl fmt::Display for Failed<'_> {
    fn fmt<W: fmt::Write>(&self, f: &mut fmt::Formatter<W>) -> fmt::Result {
        match self.0 {
            Fault::Reader(error) => write!(f, "read failed: {error}"),
            Fault::Writer(error) => write!(f, "write failed: {error}"),
            fault => write!(f, "{fault}"),
        }
    }
}

/// A text with an escape such as `\n` or `\x1b` for each byte that isn't printable ASCII, as texts
/// in lines of units are written.
#[derive(Clone, Copy)]
pub struct Escaped<'a>(pub &'a str);

impl fmt::Display for Escaped<'_> {
    fn fmt<W: fmt::Write>(&self, f: &mut fmt::Formatter<W>) -> fmt::Result {
        for byte in self.0.as_bytes() {
            for piece in byte.escape_ascii() {
                f.write_char(char::from(piece))?;
            }
        }
        Ok(())
    }
}

/// The beginning of a line about a failure: the program's name, and the name of a file if the line
/// is about one.
#[derive(Clone, Copy)]
pub struct Subject<'a> {
    /// The name of the program.
    pub program: &'a str,
    /// The name of the file.
    pub file: Option<&'a str>,
}

impl<'a> Subject<'a> {
    /// The subject of a line about this file.
    pub fn of_file(program: &'a str, name: &'a str) -> Subject<'a> {
        Subject {
            program,
            file: Some(name),
        }
    }

    /// Reports why the input can't be read, and returns the status for that.
    pub fn report_unread<F: Write>(self, error: &io::Error, faults: &mut F) -> u8
        ensures { result ≡ 3 }
    {
        let _ = writeln!(faults, "{self}: {error}");
        FAILED
    }

    /// Reports the failure, as `report` does, and if a read failed also the file.
    pub fn report<F: Write>(self, fault: &Fault, faults: &mut F) {
        match fault {
            Fault::Reader(_) => {
                let failed = Failed(fault);
                let _ = writeln!(faults, "{self}: {failed}");
            }
            _ => report(self.program, fault, faults),
        }
    }
}

impl fmt::Display for Subject<'_> {
    fn fmt<W: fmt::Write>(&self, f: &mut fmt::Formatter<W>) -> fmt::Result {
        let program = self.program;
        match self.file {
            Some(file) => {
                let shown = Escaped(file);
                write!(f, "{program}: {shown}")
            }
            None => f.write_str(program),
        }
    }
}

/// Reports that standard input is closed, and returns the status for that.
pub fn report_closed<F: Write>(program: &str, faults: &mut F) -> u8
    ensures { result ≡ 3 }
{
    let _ = writeln!(
        faults,
        "{program}: {STANDARD_INPUT}: read failed: standard input is closed"
    );
    FAILED
}

/// Whether the fault is a broken pipe on the output, which isn't reported.
pub fn is_closed_pipe(fault: &Fault) -> bool {
    match fault {
        Fault::Writer(error) => error.kind() == ErrorKind::BrokenPipe,
        _ => false,
    }
}

/// Reports the failure, after the name of the program. A broken pipe isn't reported.
pub fn report<F: Write>(name: &str, fault: &Fault, faults: &mut F) {
    if !is_closed_pipe(fault) {
        let failed = Failed(fault);
        let _ = writeln!(faults, "{name}: {failed}");
    }
}
