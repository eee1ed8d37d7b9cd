//! A writer that shows lines in colours.

ghost use Rattle.std.specs.Prelude.{◌≡◌, ◌<◌, ◌&&◌, ◌++◌, true, length, is_ok, IfOk, IfErr};
ghost use Rattle.std.specs.Io.{WritesAtMost};
ghost use Rattle.std.specs.Io.KnownBytes.{Keeps, WriteAppends};
ghost use Rattle.rtr_units.specs.Calls.{WritesAll};
ghost use Rattle.rtr_units.specs.Stream.{Flushes, count_after_write};
ghost use Rattle.rtr_units.specs.StopCauses.{IsWriteError, count_after};
ghost use Rattle.program_frame.specs.Colours.{begins_after, painted, painted_state};

use crate::colours::{begins_after, line_text, piece_colour};
use rtr_units::piece::write_all;
use rtr_units::source::Sink;
use std::io;

/// The escape sequence that ends a colour, and then the line.
const COLOUR_END: &[u8] = b"\x1b[0m\n";

/// A writer that shows each line about an announcement or a withdrawal in its colour, if colours
/// are wanted. If they aren't, it writes as the inner writer does.
///
/// Only a line that is written whole, in one piece, has a colour. So no escape sequence is inside a
/// line. After an error there are none up to the next line feed.
#[derive(Drop)]
pub struct Painted<W> {
    output: W,
    colours: bool,
    /// Whether the next byte begins a line.
    begins: bool,
}

impl<W: Sink> Painted<W> {
    /// The writer to this output, which is at the beginning of a line.
    pub fn new(output: W, colours: bool) -> Self
        ensures output { result.output ≡ output }
        ensures colours { result.colours ≡ colours }
        ensures begins { result.begins ≡ true }
    {
        Painted {
            output,
            colours,
            begins: true,
        }
    }

    /// Writes the piece in its colour, if it has one.
    fn write_painted(&mut self, piece: &[u8]) -> io::Result<()>
        ensures below { WritesAll W.Sink result self.old.output self.new.output
            (painted self.old.begins piece.now) }
        ensures begins { self.new.begins ≡ self.old.begins }
        ensures colours { self.new.colours ≡ self.old.colours }
    {
        match piece_colour(self.begins, piece) {
            Some(colour) => write_between(
                colour.sequence(),
                line_text(piece),
                COLOUR_END,
                &mut self.output,
            ),
            None => write_all(&mut self.output, piece),
        }
    }

    /// Does the same, and records whether the next byte begins a line.
    #[cold]
    #[inline(never)]
    fn paint(&mut self, piece: &[u8]) -> io::Result<()>
        ensures below { WritesAll W.Sink result self.old.output self.new.output
            (painted self.old.begins piece.now) }
        ensures begins { self.new.begins ≡
            (is_ok result && begins_after self.old.begins piece.now) }
        ensures colours { self.new.colours ≡ self.old.colours }
    {
        let written = self.write_painted(piece);
        self.begins = written.is_ok() && begins_after(self.begins, piece);
        written
    }

    /// Does the same and rebuilds the result: the slot for it belongs to this function, so that the
    /// path without colours has none.
    #[inline(always)]
    fn paint_apart(&mut self, piece: &[u8]) -> io::Result<usize>
        ensures below { WritesAll W.Sink result self.old.output self.new.output
            (painted self.old.begins piece.now) }
        ensures whole { IfOk result (λ n. n ≡ length piece.now) }
        ensures begins { self.new.begins ≡
            (is_ok result && begins_after self.old.begins piece.now) }
        ensures colours { self.new.colours ≡ self.old.colours }
    {
        match self.paint(piece) {
            Ok(()) => Ok(piece.len()),
            Err(error) => Err(error),
        }
    }
}

impl<W: Sink> Sink for Painted<W> {
    ghost state = { λ p. painted_state p.colours (W.state p.output) };

    ghost fails = { λ p. IsWriteError (W.fails p.output) (W.stalls p.output) };

    ghost stalls = { λ p. W.stalls p.output };

    /// Writes as the inner writer does. If colours are wanted it writes the whole piece, in its
    /// colour if it has one; or at an error a part of that.
    #[inline(always)]
    fn write(&mut self, piece: &[u8]) -> io::Result<usize>
        ensures bound { WritesAtMost result piece.now }
        ensures bytes { WriteAppends
            (painted_state self.old.colours (W.state self.old.output)).held
            (painted_state self.new.colours (W.state self.new.output)).held result piece.now }
        ensures error { IfErr result
            (IsWriteError (W.fails self.new.output) (W.stalls self.new.output)) }
        ensures stall { IfOk result
            (λ n. n ≡ 0 → 0 < length piece.now → W.stalls self.new.output) }
        ensures count { (W.state self.new.output).failed ≡
            count_after_write (W.state self.old.output).failed result piece.now }
        ensures painted { self.old.colours ≡ true → WritesAll W.Sink result
            self.old.output self.new.output (painted self.old.begins piece.now) }
        ensures whole { self.old.colours ≡ true → IfOk result (λ n. n ≡ length piece.now) }
        ensures begins { self.old.colours ≡ true → self.new.begins ≡
            (is_ok result && begins_after self.old.begins piece.now) }
        ensures colours { self.new.colours ≡ self.old.colours }
    {
        if self.colours {
            return self.paint_apart(piece);
        }
        self.output.write(piece)
    }

    fn flush(&mut self) -> io::Result<()>
        ensures bytes { Keeps
            (painted_state self.old.colours (W.state self.old.output)).held
            (painted_state self.new.colours (W.state self.new.output)).held }
        ensures error { IfErr result
            (IsWriteError (W.fails self.new.output) (W.stalls self.new.output)) }
        ensures count { (W.state self.new.output).failed ≡
            count_after (W.state self.old.output).failed (is_ok result) }
        ensures below { Flushes (is_ok result) (W.state self.old.output) (W.state self.new.output) }
        ensures begins { self.new.begins ≡ self.old.begins }
        ensures colours { self.new.colours ≡ self.old.colours }
    {
        self.output.flush()
    }

    fn failures(&self) -> u64 {
        self.output.failures()
    }
}

/// Writes the text between two others.
fn write_between<W: Sink>(
    before: &[u8],
    text: &[u8],
    after: &[u8],
    output: &mut W,
) -> io::Result<()>
    ensures { WritesAll W.Sink result output.old output.new (before.now ++ text.now ++ after.now) }
{
    match write_all(output, before) {
        Ok(()) => {}
        Err(error) => return Err(error),
    }
    match write_all(output, text) {
        Ok(()) => {}
        Err(error) => return Err(error),
    }
    write_all(output, after)
}
