//! Writing the pieces of forms.

ghost use Rattle.std.specs.Prelude.{◌≡◌, ◌+◌, ◌≤◌, ◌<◌, ◌^◌, ◌∷◌, ◌++◌, length, IfErr};
ghost use Rattle.std.specs.Prelude.{slice_index};
ghost use Rattle.rtr_base.specs.Actions.{act, flags_of};
ghost use Rattle.rtr_base.specs.Bytes.{be};
ghost use Rattle.rtr_units.specs.AnyEnd.{end_bytes};
ghost use Rattle.rtr_units.specs.Header.{version_field, type_field, length_field};
ghost use Rattle.unit_views.specs.Faults.{WritesPiece};

use crate::fault::ViewFault;
use rtr_base::action::Action;
use rtr_payload::pdu::flagged_header;
use rtr_units::end::EndOfData;
use rtr_units::piece::write_all;
use rtr_units::source::Sink;

/// Writes the whole piece as `write_all` does, and returns its error as `Writer`.
#[inline(always)]
pub fn put_piece<W: Sink>(writer: &mut W, piece: &[u8]) -> Result<(), ViewFault>
    ensures { WritesPiece W.Sink result writer.old writer.new piece.now }
{
    match write_all(writer, piece) {
        Ok(()) => Ok(()),
        Err(e) => Err(ViewFault::Writer(e)),
    }
}

/// Writes a unit with flags: a header made from the fields, and then `rest`.
#[inline(always)]
pub fn put_flagged<W: Sink>(
    writer: &mut W,
    version: u8,
    pdu: u8,
    action: Action,
    rest: &[u8],
) -> Result<(), ViewFault>
    requires size { 8 + length rest.now < 2 ^ 32 }
    ensures { WritesPiece W.Sink result writer.old writer.new
        ((version ∷ pdu ∷ flags_of action ∷ 0 ∷ be (8 + length rest.now) 4) ++ rest.now) }
{
    let size = 8 + rest.len() as u32;
    let header = flagged_header(version, pdu, action.into_flags(), size);
    put_both(writer, &header, rest)
}

/// Writes a header, and then `rest`.
#[inline(always)]
pub fn put_both<W: Sink>(writer: &mut W, header: &[u8], rest: &[u8]) -> Result<(), ViewFault>
    ensures { WritesPiece W.Sink result writer.old writer.new (header.now ++ rest.now) }
{
    match put_piece(writer, header) {
        Ok(()) => put_rest(writer, rest),
        Err(e) => Err(e),
    }
}

/// Writes what follows a header. It is inlined, but not always: so the compiler simplifies it
/// first. Otherwise each unit would clear a slot for its result.
#[inline]
fn put_rest<W: Sink>(writer: &mut W, rest: &[u8]) -> Result<(), ViewFault>
    ensures { WritesPiece W.Sink result writer.old writer.new rest.now }
{
    put_piece(writer, rest)
}

/// The header of the form of a router key, made from the header of the unit itself: the session
/// field keeps only the lowest bit of the flags.
#[inline(always)]
pub fn cleared_header(unit: &[u8]) -> [u8; 8]
    requires { 8 ≤ length unit.now }
    ensures { result ≡ version_field unit.now ∷ type_field unit.now ∷
        flags_of (act (slice_index unit.now 2)) ∷ 0 ∷ be (length_field unit.now) 4 }
{
    let mut header = [0; 8];
    header.copy_from_slice(&unit[..8]);
    header[2] = Action::from_flags(header[2]).into_flags();
    header[3] = 0;
    header
}

/// Writes the bytes of the end of data. It is out of line to keep the code that writes units small
/// enough to be inlined: a sequence has only one end.
pub fn put_end<W: Sink>(writer: &mut W, end: &EndOfData) -> Result<(), ViewFault>
    ensures { WritesPiece W.Sink result writer.old writer.new (end_bytes end.now) }
{
    put_piece(writer, end.as_ref())
}
