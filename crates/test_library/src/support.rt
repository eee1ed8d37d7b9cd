//! Readers and writers that give and take bytes in pieces and fail, for these tests and for
//! `test_rows`.

#[cfg(test)]
mod tests;

use std::alloc::Global;
use std::hash::{DefaultHasher, Hash, Hasher};
use std::io;
use std::io::{Error, ErrorKind, Read, Write};
use std::test::Fail;

/// This many bytes, each of which differs from its neighbours.
pub fn filler(alloc: Global, count: usize) -> Result<Vec<u8>, Fail> {
    let mut all = Vec::with_capacity(alloc, count)?;
    for i in 0..count {
        all.push((i % 251) as u8)?;
    }
    Ok(all)
}

/// The hash of a value.
pub fn hash_of<T: Hash>(x: &T) -> u64 {
    let mut state = DefaultHasher::new();
    x.hash(&mut state);
    state.finish()
}

/// The sizes of a reader of one byte at a time.
pub const ONES: &[usize] = &[1];

/// The sizes of a reader of one, two and three bytes in turn.
pub const STEPS: &[usize] = &[1, 2, 3];

/// The sizes of a reader that gives all that is asked for.
pub const WHOLE: &[usize] = &[usize::MAX];

/// A call that is never made.
pub const NEVER: usize = 0;

/// A reader over bytes in memory that gives at most the sizes of a pattern in turn. Its errors are
/// interruptions, which the library must not retry.
#[derive(Drop)]
pub struct Pieces<'a> {
    rest: &'a [u8],
    again: &'a [u8],
    sizes: &'a [usize],
    fails_at: usize,
    calls: usize,
    ends: usize,
    taken: usize,
}

impl<'a> Pieces<'a> {
    /// A reader of these bytes, whose calls give at most these sizes in turn.
    pub fn new(bytes: &'a [u8], sizes: &'a [usize]) -> Pieces<'a> {
        Pieces::failing(bytes, sizes, NEVER)
    }

    /// The same, with an error at this call, counted from 1.
    pub fn failing(bytes: &'a [u8], sizes: &'a [usize], fails_at: usize) -> Pieces<'a> {
        Pieces {
            rest: bytes,
            again: &[],
            sizes,
            fails_at,
            calls: 0,
            ends: 0,
            taken: 0,
        }
    }

    /// A reader that gives these bytes over and over.
    pub fn endless(bytes: &'a [u8]) -> Pieces<'a> {
        Pieces {
            rest: bytes,
            again: bytes,
            sizes: WHOLE,
            fails_at: NEVER,
            calls: 0,
            ends: 0,
            taken: 0,
        }
    }

    /// How many calls there were.
    pub fn calls(&self) -> usize {
        self.calls
    }

    /// How many calls gave nothing though something was asked for.
    pub fn ends(&self) -> usize {
        self.ends
    }

    /// How many bytes were given.
    pub fn taken(&self) -> usize {
        self.taken
    }

    /// How many bytes this call gives at most.
    fn size(&self) -> usize {
        let sizes = self.sizes;
        if sizes.is_empty() {
            return usize::MAX;
        }
        sizes[self.calls % sizes.len()]
    }
}

impl<'a> Read for Pieces<'a> {
    fn read(&mut self, piece: &mut [u8]) -> io::Result<usize> {
        let size = self.size();
        self.calls = self.calls.saturating_add(1);
        if self.calls == self.fails_at {
            return Err(Error::from(ErrorKind::Interrupted));
        }
        if self.rest.is_empty() {
            self.rest = self.again;
        }
        let count = size.min(piece.len()).min(self.rest.len());
        if count == 0 && !piece.is_empty() {
            self.ends = self.ends.saturating_add(1);
        }
        let (front, back) = self.rest.split_at(count);
        piece[..count].copy_from_slice(front);
        self.rest = back;
        self.taken = self.taken.saturating_add(count);
        Ok(count)
    }
}

/// A writer that keeps what it takes, at most this many bytes a call. Its errors are interruptions
/// too.
#[derive(Drop)]
pub struct Recorder {
    held: Vec<u8>,
    size: usize,
    fails_at: usize,
    stops_at: usize,
    calls: usize,
    flushes: usize,
}

impl Recorder {
    /// A writer that takes at most this many bytes a call.
    pub fn new(alloc: Global, size: usize) -> Recorder {
        Recorder {
            held: Vec::new(alloc),
            size,
            fails_at: NEVER,
            stops_at: NEVER,
            calls: 0,
            flushes: 0,
        }
    }

    /// The same, with room for this many bytes, so that it allocates nothing later; if there is
    /// memory.
    pub fn with_room(alloc: Global, size: usize, room: usize) -> Recorder {
        let mut writer = Recorder::new(alloc, size);
        if let Ok(held) = Vec::with_capacity(alloc, room) {
            writer.held = held;
        }
        writer
    }

    /// Gives an error at one call and takes nothing at another, counted from 1.
    pub fn set_troubles(&mut self, fails_at: usize, stops_at: usize) {
        self.fails_at = fails_at;
        self.stops_at = stops_at;
    }

    /// The same, with an error at this call, counted from 1.
    pub fn failing(alloc: Global, size: usize, fails_at: usize) -> Recorder {
        let mut writer = Recorder::new(alloc, size);
        writer.fails_at = fails_at;
        writer
    }

    /// The same, but this call takes nothing and gives no error.
    pub fn stopping(alloc: Global, size: usize, stops_at: usize) -> Recorder {
        let mut writer = Recorder::new(alloc, size);
        writer.stops_at = stops_at;
        writer
    }

    /// The bytes that were taken, by value.
    pub fn into_held(self) -> Vec<u8> {
        self.held
    }

    /// The bytes that were taken.
    pub fn held(&self) -> &[u8] {
        self.held.as_slice()
    }

    /// How many calls of `write` there were.
    pub fn calls(&self) -> usize {
        self.calls
    }

    /// How many calls of `flush` there were.
    pub fn flushes(&self) -> usize {
        self.flushes
    }
}

impl Write for Recorder {
    fn write(&mut self, piece: &[u8]) -> io::Result<usize> {
        self.calls = self.calls.saturating_add(1);
        if self.calls == self.fails_at {
            return Err(Error::from(ErrorKind::Interrupted));
        }
        if self.calls == self.stops_at {
            return Ok(0);
        }
        let count = self.size.min(piece.len());
        self.held.extend_from_slice(&piece[..count])?;
        Ok(count)
    }

    fn flush(&mut self) -> io::Result<()> {
        self.flushes = self.flushes.saturating_add(1);
        Ok(())
    }
}
