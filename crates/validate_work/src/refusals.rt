//! Reports of lines that aren't routes.

ghost use Rattle.std.specs.Prelude.{⊤};
ghost use Rattle.validate_work.specs.RefusedLines.{RefusedLine};

use crate::route_text::RouteError;
use std::io;
use std::io::Write;

/// A listener for lines that aren't routes.
pub trait Refusals {
    /// The listener after a line was reported to it.
    ghost hears: { Self → RefusedLine → Self → Type 0 };

    /// Reports that the line of this number, of which the first is 1, isn't a route, and why.
    fn tell(&mut self, program: &str, number: u64, error: &RouteError)
        ensures { hears self.old (record { number = number; error = error.now }) self.new };
}

/// A listener that reports each line that isn't a route on a line of its own to a writer.
#[derive(Drop)]
pub struct Named<F> {
    faults: F,
}

impl<F: Write> Named<F> {
    /// A listener that prints the lines to this writer.
    pub fn new(faults: F) -> Self {
        Named { faults }
    }
}

impl<F: Write> Write for Named<F> {
    fn write(&mut self, piece: &[u8]) -> io::Result<usize> {
        self.faults.write(piece)
    }

    fn flush(&mut self) -> io::Result<()> {
        self.faults.flush()
    }
}

impl<F: Write> Refusals for Named<F> {
    ghost hears = { λ _ _ _. ⊤ };

    fn tell(&mut self, program: &str, number: u64, error: &RouteError) {
        let _ = writeln!(self.faults, "{program}: line {number}: {error}");
    }
}
