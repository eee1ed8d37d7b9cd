//! Buffered readers and writers that count their failures and handle short pieces cheaply.

ghost use Rattle.std.specs.Prelude.{◌≡◌, ◌<◌, OnOk, None, [], length};
ghost use Rattle.std.specs.Io.Buffered.{reader_buffer, reader_remaining, writer_buffer};
ghost use Rattle.std.specs.Io.Buffered.{writer_contents};
ghost use Rattle.rtr_units.specs.CountedFailures.{reader_state, writer_state};
ghost use Rattle.rtr_units.specs.CountedFailures.{FailedWith, Stalled, FlushesCounted};
ghost use Rattle.rtr_units.specs.CountedFailures.{GivesHeld, ReadsCounted};
ghost use Rattle.rtr_units.specs.PrivateBuffered.{WritesCounted};

use crate::copying::copy;
use crate::source::{Counted, Sink, Source};
use std::io;
use std::io::{BufRead, BufReader, BufWriter, Read, Write};
use std::marker::Model;

/// A buffered reader that counts its errors. It reads what a `Counted` of the same reader reads,
/// but copies a piece that lies whole in the buffer without a call of the reader.
#[derive(Debug, Drop)]
pub struct BufferedSource<R> {
    counted: Counted<BufReader<R>>,
}

impl<R> Model for BufferedSource<R> {
    ghost use Rattle.std.specs.declared.alloc.Global.{Global};
    ghost use Rattle.std.specs.declared.io.buffered.BufReader.{BufReader};
    ghost use Rattle.rtr_units.specs.CountedFailures.{Tally};

    ghost Value = { Tally (BufReader R Global) };

    ghost view = { λ s. s.counted };
}

impl<R> BufferedSource<R> {
    /// Wraps the reader, with no failure yet.
    pub fn new(inner: BufReader<R>) -> Self
        ensures { result ≡ record { inner = inner; failed = 0; last = None } }
    {
        BufferedSource {
            counted: Counted::new(inner),
        }
    }

    /// Returns the reader.
    pub fn into_inner(self) -> BufReader<R>
        ensures { result ≡ self.inner }
    {
        self.counted.into_inner()
    }
}

impl<R: Read> BufferedSource<R> {
    /// Reads when the buffer holds less than the piece: all that the buffer holds or, if it is
    /// empty, as `Counted` does. It stays out of line to keep the code of the fast path small.
    #[cold]
    #[inline(never)]
    fn read_on(&mut self, piece: &mut [u8]) -> io::Result<usize>
        requires { length (reader_buffer self.old.inner) < length piece.old }
        ensures counted { ReadsCounted (reader_remaining R.remaining) result
            self.old self.new piece.new }
        ensures held { 0 < length (reader_buffer self.old.inner) →
            GivesHeld result self.old self.new piece.new }
    {
        let held = self.counted.inner.buffer();
        let size = held.len();
        if size > 0 {
            piece[..size].copy_from_slice(held);
            self.counted.inner.consume(size);
            return Ok(size);
        }
        self.counted.read(piece)
    }

    /// Does the same and rebuilds the result. The compiler zeroes on entry a slot for the result of
    /// each out-of-line call: here the slot belongs to this function, so that the fast path has
    /// none.
    #[inline(always)]
    fn read_apart(&mut self, piece: &mut [u8]) -> io::Result<usize>
        requires { length (reader_buffer self.old.inner) < length piece.old }
        ensures counted { ReadsCounted (reader_remaining R.remaining) result
            self.old self.new piece.new }
        ensures held { 0 < length (reader_buffer self.old.inner) →
            GivesHeld result self.old self.new piece.new }
    {
        match self.read_on(piece) {
            Ok(n) => Ok(n),
            Err(e) => Err(e),
        }
    }
}

impl<R: Read> Source for BufferedSource<R> {
    ghost state = { reader_state (reader_remaining R.remaining) };

    ghost fails = { FailedWith };

    // Deliberately without an inline hint: see docs/decisions/SPEED.md.
    //
    /// Reads some bytes into the front of the piece, as any `Source`. While the buffer holds bytes,
    /// it returns these without a call of the inner reader, so that a piece that has come whole
    /// never waits for a peer. What was read from the inner reader is what was read here and what
    /// the buffer still holds.
    fn read(&mut self, piece: &mut [u8]) -> io::Result<usize>
        ensures counted { ReadsCounted (reader_remaining R.remaining) result
            self.old self.new piece.new }
        ensures held { 0 < length (reader_buffer self.old.inner) →
            GivesHeld result self.old self.new piece.new }
    {
        let held = self.counted.inner.buffer();
        let taken = piece.len();
        if taken <= held.len() {
            let (front, _) = held.split_at(taken);
            copy(piece, front);
            self.counted.inner.consume(taken);
            return Ok(taken);
        }
        self.read_apart(piece)
    }

    fn failures(&self) -> u64 {
        Source::failures(&self.counted)
    }
}

/// A buffered writer that counts its failures. It writes what a `Counted` of the same writer
/// writes, and copies a piece that fits into the buffer.
#[derive(Debug, Drop)]
pub struct BufferedSink<W: Write + Drop> {
    counted: Counted<BufWriter<W>>,
}

impl<W: Write + Drop> Model for BufferedSink<W> {
    ghost use Rattle.std.specs.declared.alloc.Global.{Global};
    ghost use Rattle.std.specs.declared.io.buffered.BufWriter.{BufWriter};
    ghost use Rattle.rtr_units.specs.CountedFailures.{Tally};

    ghost Value = { Tally (BufWriter W Global) };

    ghost view = { λ s. s.counted };
}

impl<W: Write + Drop> BufferedSink<W> {
    /// Wraps the writer, with no failure yet.
    pub fn new(inner: BufWriter<W>) -> Self
        ensures { result ≡ record { inner = inner; failed = 0; last = None } }
    {
        BufferedSink {
            counted: Counted::new(inner),
        }
    }

    /// Returns the writer, which may hold bytes that aren't written yet.
    pub fn into_inner(self) -> BufWriter<W>
        ensures { result ≡ self.inner }
    {
        self.counted.into_inner()
    }

    /// Reports whether the buffer has room for `size` bytes and one more.
    #[inline(always)]
    fn has_room(&self, size: usize) -> bool {
        let writer = &self.counted.inner;
        let held = writer.buffer().len();
        held <= writer.capacity() && size < writer.capacity() - held
    }

    /// Writes as `Counted` does. It stays out of line to keep the code of the fast path small.
    #[cold]
    #[inline(never)]
    fn write_on(&mut self, piece: &[u8]) -> io::Result<usize>
        ensures { WritesCounted (writer_contents W.contents) result self.old self.new piece.now }
    {
        self.counted.write(piece)
    }

    /// Does the same and rebuilds the result, as `read_apart` of `BufferedSource`.
    #[inline(always)]
    fn write_apart(&mut self, piece: &[u8]) -> io::Result<usize>
        ensures { WritesCounted (writer_contents W.contents) result self.old self.new piece.now }
    {
        match self.write_on(piece) {
            Ok(n) => Ok(n),
            Err(e) => Err(e),
        }
    }
}

impl<W: Write + Drop> Sink for BufferedSink<W> {
    ghost state = { writer_state (writer_contents W.contents) };

    ghost fails = { FailedWith };

    ghost stalls = { Stalled };

    #[inline(always)]
    fn write(&mut self, piece: &[u8]) -> io::Result<usize> {
        if self.has_room(piece.len()) {
            return self.counted.write(piece);
        }
        self.write_apart(piece)
    }

    fn flush(&mut self) -> io::Result<()>
        ensures counted { FlushesCounted (writer_contents W.contents) result self.old self.new }
        // Then nothing waits in the buffer.
        ensures empty { OnOk result (writer_buffer self.new.inner ≡ []) }
    {
        match self.counted.inner.flush() {
            Ok(()) => Ok(()),
            Err(e) => Err(self.counted.failed(e)),
        }
    }

    fn failures(&self) -> u64 {
        Sink::failures(&self.counted)
    }
}
