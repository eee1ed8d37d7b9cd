//! Lines.

ghost use Rattle.std.specs.Prelude.{◌≡◌, ◌≢◌, ◌≤◌, ◌∷◌, ◌++◌, [], Err, OnOk, decimal, length};
ghost use Rattle.std.specs.Prelude.{map, max, take};
ghost use Rattle.std.specs.Fmt.{AppendsText};
ghost use Rattle.rtr_base.specs.PlainTexts.{prefix_text};
ghost use Rattle.rtr_units.specs.StopCauses.{by_cause, by_reader};
ghost use Rattle.text_lines.specs.Laying.{text_end};
ghost use Rattle.list_lines.specs.Lines.{PutsLine, written_line};
ghost use Rattle.list_lines.specs.PrivateLines.{returned};

use crate::laid::{Bytes, Labelled, Laid, PrefixText};
use itoa::Buffer;
use rtr_base::addr::Prefix;
use rtr_units::fault::Fault;
use rtr_units::piece::put;
use rtr_units::source::Sink;
use std::alloc::{AllocError, Global};
use std::fmt;
use std::fmt::Display;
use std::marker::Model;

/// The lowest byte in a line before its line feed.
const SPACE: u8 = b' ';

/// The number of bytes that are checked at once.
const BLOCK: usize = 32;

/// The number of bytes that are allocated beyond what is needed.
const MORE_ROOM: usize = 512;

/// The error of a call that failed and stored its fault where the caller asked. A `Fault` is large:
/// a result without it isn't copied through memory.
#[derive(Clone, Copy)]
pub(crate) struct Failed;

/// Stores the fault of a call that fails.
#[inline(always)]
pub(crate) fn keep(fault: Fault, failure: &mut Fault) -> Failed
    ensures { failure.new ≡ fault }
{
    *failure = fault;
    Failed
}

/// A line made of pieces, in memory that is reused.
#[derive(Drop)]
pub struct Line {
    /// The bytes of the line, and unused bytes after them.
    room: Vec<u8>,
    /// The length of the line.
    len: usize,
}

impl Model for Line {
    ghost use Rattle.std.specs.Prelude.{◌≤◌, ℕ, List, length, take};

    ghost Value = { List ℕ };

    ghost view = { λ line. take line.len line.room.items };

    ghost invariant = { λ line. line.len ≤ length line.room.items };
}

impl Line {
    /// A line without pieces.
    pub fn new(alloc: Global) -> Line
        ensures { result ≡ [] }
    {
        Line {
            room: Vec::new(alloc),
            len: 0,
        }
    }

    /// The bytes of the line, borrowed.
    pub fn as_bytes(&self) -> &[u8]
        ensures { result.now ≡ self.now }
    {
        &self.room[..self.len]
    }

    /// Removes all pieces.
    pub fn clear(&mut self)
        ensures { self.new ≡ [] }
    {
        self.len = 0;
    }

    /// Adds a text.
    #[inline(always)]
    pub fn text(&mut self, text: &str) -> Result<(), AllocError>
        ensures { OnOk result (self.new ≡ self.old ++ text.now) }
    {
        self.lay(&Bytes {
            bytes: text.as_bytes(),
        })
    }

    /// Adds a number.
    pub fn number(&mut self, number: u64) -> Result<(), AllocError>
        ensures { OnOk result (self.new ≡ self.old ++ decimal number) }
    {
        self.text(Buffer::new().format(number))
    }

    /// Adds a label and a number after it.
    pub fn labelled(&mut self, label: &str, number: u64) -> Result<(), AllocError>
        ensures { OnOk result (self.new ≡ self.old ++ (label.now ++ decimal number)) }
    {
        self.lay(&Labelled { label, number })
    }

    /// Adds a prefix, as 192.0.2.0/23.
    pub fn prefix(&mut self, prefix: Prefix) -> Result<(), AllocError>
        ensures { OnOk result (self.new ≡ self.old ++ prefix_text prefix) }
    {
        self.lay(&PrefixText { prefix })
    }

    /// Adds a byte.
    pub fn byte(&mut self, byte: u8) -> Result<(), AllocError>
        ensures { OnOk result (self.new ≡ self.old ++ byte ∷ []) }
    {
        self.lay(&Bytes { bytes: &[byte] })
    }

    /// Adds a text that is written into the unused bytes after the line, or if it doesn't fit,
    /// again after they have grown.
    #[inline(always)]
    pub(crate) fn lay<T: Laid>(&mut self, text: &T) -> Result<(), AllocError>
        ensures { OnOk result (self.new ≡ self.old ++ T.text text.now) }
    {
        let end = text.lay(self.room.as_mut_slice(), self.len);
        if end < self.room.len() {
            self.len = end;
            return Ok(());
        }
        self.lay_over_more(text, end)
    }

    /// Adds a text that ends at this offset, after growing the line.
    fn lay_over_more<T: Laid>(&mut self, text: &T, end: usize) -> Result<(), AllocError>
        requires { end ≡ text_end (length self.old) (T.text text.now) }
        ensures { OnOk result (self.new ≡ self.old ++ T.text text.now) }
    {
        let Some(size) = end.checked_add(MORE_ROOM) else {
            return Err(AllocError);
        };
        self.room.resize(size, 0)?;
        self.len = text.lay(self.room.as_mut_slice(), self.len);
        Ok(())
    }

    /// Adds a value's text.
    pub fn show<D: Display + Drop>(&mut self, value: D) -> Result<(), AllocError>
        ensures { OnOk result (AppendsText self.old self.new (D.output value)) }
    {
        match fmt::Write::write(self, value) {
            Ok(()) => Ok(()),
            Err(_) => Err(AllocError),
        }
    }

    /// Ends the line. Bytes below 32 in it, which its texts never contain, become spaces, so that
    /// it is one line.
    #[tactic(auto, unfolding(crate::specs::Lines::written_line))]
    fn end(&mut self) -> Result<(), AllocError>
        ensures { OnOk result (self.new ≡ written_line self.old) }
    {
        clear_line(self.room.as_mut_slice(), self.len);
        self.byte(b'\n')
    }

    /// Ends the line and writes it, or stores why that fails: after `Memory` nothing was written,
    /// after `Writer` a part was.
    pub(crate) fn put<W: Sink>(&mut self, writer: &mut W, failure: &mut Fault) -> Result<(), Failed>
        ensures bytes { PutsLine self.old (returned result failure.new)
            (W.state writer.old) (W.state writer.new) }
        ensures no_reader { by_cause (returned result failure.new) ≢ Err by_reader }
    {
        if self.end().is_err() {
            return Err(keep(Fault::Memory, failure));
        }
        match put(writer, self.as_bytes()) {
            Ok(()) => Ok(()),
            Err(fault) => Err(keep(fault, failure)),
        }
    }
}

impl fmt::Write for Line {
    ghost write_str_gives = { λ before text after. after ≡ before ++ text };

    fn write_str(&mut self, text: &str) -> fmt::Result {
        match self.text(text) {
            Ok(()) => Ok(()),
            Err(_) => Err(fmt::Error),
        }
    }
}

/// Replaces bytes below 32 of the line at the front by spaces, and those after it up to the end of
/// a block, since whole blocks take the fewest instructions.
fn clear_line(room: &mut [u8], len: usize)
    requires { len ≤ length room.old }
    ensures line { take len room.new ≡ map (λ byte. max byte 32) (take len room.old) }
    ensures stays { length room.new ≡ length room.old }
{
    let blocks = if room.len() - len < BLOCK {
        len
    } else {
        len + BLOCK - len % BLOCK
    };
    clear_controls(&mut room[..blocks]);
}

/// Replaces bytes below 32 by spaces.
fn clear_controls(text: &mut [u8])
    ensures { text.new ≡ map (λ byte. max byte 32) text.old }
{
    for byte in text.iter_mut() {
        *byte = (*byte).max(SPACE);
    }
}
