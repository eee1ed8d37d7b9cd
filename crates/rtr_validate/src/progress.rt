//! A line on a terminal that shows the progress of a run.

use std::cell::RefCell;
use std::io;
use std::io::{Read, Stderr, Write};
use std::time::Instant;

/// The least number of seconds from one line to the next.
const PAUSE: u64 = 1;

/// Spaces that cover the longest line.
const BLANK: &str = "\r                                        \r";

/// Standard error, which may have a line that shows the progress of the run. It is erased before
/// anything else is written.
#[derive(Drop)]
pub struct Screen {
    faults: Stderr,
    has_line: bool,
}

impl Screen {
    /// Standard error without a line.
    pub fn new(faults: Stderr) -> Screen {
        Screen {
            faults,
            has_line: false,
        }
    }

    /// Erases the line, if there is one.
    pub fn erase(&mut self) -> io::Result<()> {
        if self.has_line {
            self.has_line = false;
            self.faults.write_all(BLANK.as_bytes())?;
        }
        Ok(())
    }

    /// Shows how many lines were read, in place of the previous line.
    fn show(&mut self, program: &str, lines: u64) {
        let _ = write!(self.faults, "\r{program}: {lines} lines");
        self.has_line = true;
    }
}

impl Write for Screen {
    fn write(&mut self, piece: &[u8]) -> io::Result<usize> {
        self.erase()?;
        self.faults.write(piece)
    }

    fn flush(&mut self) -> io::Result<()> {
        self.faults.flush()
    }
}

/// A reader of lines, which shows once a second how many were read, if requested.
#[derive(Drop)]
pub struct Counting<'a, R> {
    input: R,
    rt: &'a HostRuntime,
    program: &'static str,
    screen: &'a RefCell<Screen>,
    /// When that was last shown, or when the run began; none if it isn't requested.
    last: Option<Instant>,
    lines: u64,
}

impl<'a, R: Read> Counting<'a, R> {
    /// The reader of this input. Without a clock it shows nothing.
    pub fn new(
        rt: &'a HostRuntime,
        program: &'static str,
        screen: &'a RefCell<Screen>,
        is_wanted: bool,
        input: R,
    ) -> Self {
        Counting {
            input,
            rt,
            program,
            screen,
            last: if is_wanted {
                Instant::now(rt).ok()
            } else {
                None
            },
            lines: 0,
        }
    }

    /// Counts the lines of a piece, and shows their number if a second has passed.
    fn count(&mut self, last: Instant, piece: &[u8]) -> io::Result<()> {
        for byte in piece {
            if *byte == b'\n' {
                self.lines = self.lines.saturating_add(1);
            }
        }
        let now = Instant::now(self.rt)?;
        if now.duration_since(last).as_secs() >= PAUSE {
            self.screen.try_borrow_mut()?.show(self.program, self.lines);
            self.last = Some(now);
        }
        Ok(())
    }
}

impl<R: Read> Read for Counting<'_, R> {
    fn read(&mut self, piece: &mut [u8]) -> io::Result<usize> {
        let length = self.input.read(piece)?;
        if let Some(last) = self.last {
            if let Some(read) = piece.get(..length) {
                // A clock or a terminal that fails doesn't end the run.
                let _ = self.count(last, read);
            }
        }
        Ok(length)
    }
}
