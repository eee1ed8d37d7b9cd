//! Frames: what follows the header of a router key or an ASPA unit, in one piece.

ghost use Rattle.std.specs.Prelude.{◌≡◌, ◌≤◌, ◌-◌, IfOk, IfErr, Err, length, take, drop};
ghost use Rattle.rtr_base.specs.Bytes.{IsBytes};
ghost use Rattle.rtr_units.specs.Reading.{by_bytes};
ghost use Rattle.rtr_payload.specs.PrivateFrames.{ReadsFrame};
ghost use Rattle.rtr_units.specs.StopCauses.{HoldsReadError};

use bytes::Bytes;
use rtr_units::fault::Fault;
use rtr_units::piece::fill;
use rtr_units::source::Source;
use std::alloc::Global;

/// Reads the next `size` bytes.
///
/// Faults, in this order: `Memory`, with nothing read, if the frame can't be allocated; `Short` or
/// `Reader` inside it; `Memory`, with all of it read, if it can't be shared.
#[inline(always)]
pub fn read_rest<R: Source>(alloc: Global, size: usize, reader: &mut R) -> Result<Bytes, Fault>
    ensures bytes { ReadsFrame size (by_bytes (λ frame. frame) result) (R.state reader.old)
        (R.state reader.new) }
    ensures range { IfOk result IsBytes }
    ensures error { IfErr result (HoldsReadError (R.fails reader.new)) }
{
    let mut frame = match Vec::from_elem(alloc, 0, size) {
        Ok(frame) => frame,
        Err(_) => return Err(Fault::Memory),
    };
    fill(reader, frame.as_mut_slice())?;
    match Bytes::from_vec(frame) {
        Ok(frame) => Ok(frame),
        Err(_) => Err(Fault::Memory),
    }
}

/// Copies the header to the front of the unit, and reads the rest of its bytes. It allocates
/// nothing.
#[inline(always)]
pub fn fill_unit<R: Source>(head: &[u8], unit: &mut [u8], reader: &mut R) -> Result<(), Fault>
    requires head { length head.now ≡ 8 }
    requires size { 8 ≤ length unit.old }
    ensures bytes { ReadsFrame (length unit.old - 8) (by_bytes (λ _. drop 8 unit.new) result)
        (R.state reader.old) (R.state reader.new) }
    ensures memory { ¬ (result ≡ Err Fault.Memory) }
    ensures head { take 8 unit.new ≡ head.now }
    ensures size { length unit.new ≡ length unit.old }
    ensures range { IsBytes (drop 8 unit.new) }
    ensures error { IfErr result (HoldsReadError (R.fails reader.new)) }
{
    let (front, rest) = unit.split_at_mut(8);
    front.copy_from_slice(head);
    fill(reader, rest)
}
