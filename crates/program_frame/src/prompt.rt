//! Readers with a side effect, and a writer that such a reader flushes.

use crate::guises::Front;
use std::cell::{Cell, RefCell};
use std::io;
use std::io::{Read, Write};

/// A reader that keeps the first bytes that it reads.
#[derive(Drop)]
pub struct Watched<'a, R> {
    input: R,
    front: &'a Cell<Front>,
}

impl<'a, R: Read> Watched<'a, R> {
    /// The reader of this input.
    pub fn new(input: R, front: &'a Cell<Front>) -> Self {
        Watched { input, front }
    }
}

impl<R: Read> Read for Watched<'_, R> {
    fn read(&mut self, piece: &mut [u8]) -> io::Result<usize> {
        let taken = self.input.read(piece)?;
        if let Some(bytes) = piece.get(..taken) {
            self.front.set(self.front.get().with(bytes));
        }
        Ok(taken)
    }
}

/// The same for a reader that flushes the output before each read. Behind a buffer it is read only
/// when the buffer is used up, so the output is flushed before the program waits for more input.
#[derive(Drop)]
pub struct Prompt<'a, R, W: Write + Drop> {
    input: Watched<'a, R>,
    output: &'a RefCell<W>,
}

impl<'a, R: Read, W: Write + Drop> Prompt<'a, R, W> {
    /// The reader of this input, which flushes this output.
    pub fn new(input: R, output: &'a RefCell<W>, front: &'a Cell<Front>) -> Self {
        Prompt {
            input: Watched::new(input, front),
            output,
        }
    }
}

impl<R: Read, W: Write + Drop> Read for Prompt<'_, R, W> {
    fn read(&mut self, piece: &mut [u8]) -> io::Result<usize> {
        self.output.try_borrow_mut()?.flush()?;
        self.input.read(piece)
    }
}

/// A writer to such an output.
#[derive(Drop)]
pub struct Shared<'a, W: Write + Drop> {
    output: &'a RefCell<W>,
}

impl<'a, W: Write + Drop> Shared<'a, W> {
    /// The writer to this output.
    pub fn new(output: &'a RefCell<W>) -> Self {
        Shared { output }
    }
}

impl<W: Write + Drop> Write for Shared<'_, W> {
    fn write(&mut self, piece: &[u8]) -> io::Result<usize> {
        self.output.try_borrow_mut()?.write(piece)
    }

    fn flush(&mut self) -> io::Result<()> {
        self.output.try_borrow_mut()?.flush()
    }
}
