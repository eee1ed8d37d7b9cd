//! The trait of units of a fixed size.
//!
//! A unit is what the RFCs call a PDU: a header and what follows it, up to its length field.

ghost use Rattle.std.specs.Prelude.{◌≡◌, ℕ, ◌^◌, ◌<◌, ◌≤◌, List, length, replicate, IfErr};
ghost use Rattle.std.specs.Prelude.{MatchResult, Ok, []};
ghost use Rattle.std.specs.Borrow.{sem, Lends, Array, u8};
ghost use Rattle.std.specs.Io.KnownBytes.{Consumes};
ghost use Rattle.rtr_base.specs.Bytes.{IsBytes};
ghost use Rattle.rtr_units.specs.Calls.{ReadsFrom, WritesTo};
ghost use Rattle.rtr_units.specs.StopCauses.{by_cause, cause_of};
ghost use Rattle.rtr_units.specs.Header.{version_field, type_field, session_field};
ghost use Rattle.rtr_units.specs.Reading.{LeavesUnit, Reads, ReadsAfter, ReadsBytes, Stops};
ghost use Rattle.rtr_units.specs.Reading.{Takes, by_bytes, of_size, of_type};
ghost use Rattle.rtr_units.specs.Stream.{PutsForm};
ghost use Rattle.rtr_units.specs.StopCauses.{reader_count, HoldsReadError, HoldsWriteError};
ghost use Rattle.rtr_units.specs.HeaderBytes.{header_bytes, AreBytes};

use crate::error::Error;
use crate::fault::Fault;
use crate::header::Header;
use crate::numbers::u16_at;
use crate::piece::{fill, put};
use crate::source::{Sink, Source};

/// A unit of a fixed size, which contracts see as the list of its bytes.
pub trait Unit: Drop + Copy {
    /// The bytes of a unit.
    ghost bytes: { Self → List ℕ };

    /// The unit with other bytes.
    ghost with_bytes: { Self → List ℕ → Self };

    /// The type, by which contracts name it.
    ghost PDU: { ℕ };

    /// The size, by which contracts name it.
    ghost LENGTH: { ℕ };

    /// The type of the unit.
    const PDU: u8;

    /// The size of the whole unit in bytes, header included.
    const LENGTH: usize;

    /// The unit whose bytes are all zero.
    fn zero() -> Self
        ensures { bytes result ≡ replicate LENGTH 0 };

    /// All bytes of the unit.
    fn as_ref(&self) -> &[u8]
        ensures bytes { result.now ≡ bytes self.now }
        ensures size { length result.now ≡ LENGTH }
        ensures range { IsBytes result.now };

    /// All bytes of the unit, mutable.
    fn as_mut(&mut self) -> &mut [u8]
        ensures* writes_back { sem 𝓛
            (Lends Self.row (Array u8 0) self.entry result (with_bytes self.old)) }
        ensures bytes { result.now ≡ bytes self.old }
        ensures size { length result.now ≡ LENGTH };

    /// The size holds a header, and fits a length field.
    ghost sized: { (8 ≤ LENGTH) × (LENGTH < 2 ^ 32) };

    /// The bytes of `with_bytes` are the given ones.
    ghost kept: { (unit : Self) (l : List ℕ) → bytes (with_bytes unit l) ≡ l };

    /// The version of the protocol.
    #[inline(always)]
    final fn version(&self) -> u8
        ensures { result ≡ version_field (bytes self.now) }
    {
        self.as_ref()[0]
    }

    /// The session field.
    #[inline(always)]
    final fn session(&self) -> u16
        ensures { result ≡ session_field (bytes self.now) }
    {
        u16_at(self.as_ref(), 2)
    }

    /// The size of the whole unit in bytes.
    #[inline(always)]
    final fn size() -> u32
        ensures { result ≡ LENGTH }
    {
        Self::LENGTH as u32
    }

    /// Reads a unit.
    ///
    /// Faults, in this order: `Short` or `Reader` inside the header; `UnitType` and then
    /// `UnitLength` with the header consumed; `Short` or `Reader` inside the unit.
    #[inline(always)]
    final fn read<R: Source>(reader: &mut R) -> Result<Self, Fault>
        ensures { ReadsFrom R.Source bytes result reader.old reader.new
            (Reads (of_type PDU (of_size LENGTH)) []) }
    {
        let header = Header::read(reader)?;
        if header.pdu() != Self::PDU {
            return Err(Fault::UnitType(header.pdu()));
        }
        Self::read_payload(header, reader)
    }

    /// Reads a unit as `read` does. If an error report comes instead, it returns its header and
    /// reads no further.
    #[inline(always)]
    final fn try_read<R: Source>(reader: &mut R) -> Result<Result<Self, Header>, Fault>
        ensures bytes { MatchResult result
            (λ answer. MatchResult answer
            (λ u. ReadsBytes (of_type PDU (of_size LENGTH)) [] (Ok (bytes u))
            (R.state reader.old).left (R.state reader.new).left × ¬ (PDU ≡ 10))
            (λ h. Consumes (R.state reader.old).left (R.state reader.new).left (header_bytes h) ×
            AreBytes 8 (header_bytes h) × (type_field (header_bytes h) ≡ 10)))
            (λ e. Takes (R.state reader.old).left (R.state reader.new).left
            (λ t. Stops (of_type PDU (of_size LENGTH)) (cause_of e) t (R.state reader.new).left ×
            (8 ≤ length t → ¬ (type_field t ≡ 10)))) }
        ensures count { (R.state reader.new).failed ≡
            reader_count (by_cause result) (R.state reader.old).failed }
        ensures error { IfErr result (HoldsReadError (R.fails reader.new)) }
    {
        let header = Header::read(reader)?;
        if header.pdu() == Error::PDU {
            return Ok(Err(header));
        }
        if header.pdu() != Self::PDU {
            return Err(Fault::UnitType(header.pdu()));
        }
        Ok(Ok(Self::read_payload(header, reader)?))
    }

    /// Reads what follows the header, which is kept as it is. Its type is not checked.
    ///
    /// Faults: `UnitLength`, with nothing read; `Short` or `Reader` inside the unit.
    #[inline(always)]
    final fn read_payload<R: Source>(header: Header, reader: &mut R) -> Result<Self, Fault>
        ensures { ReadsFrom R.Source bytes result reader.old reader.new
            (ReadsAfter (of_size LENGTH) (header_bytes header)) }
    {
        let mut unit = Self::zero();
        unit.read_rest(header, reader)?;
        Ok(unit)
    }

    /// Reads what follows the header as `read_payload` does, into this unit.
    ///
    /// After `UnitLength` the unit is unchanged. After `Short` and `Reader` it begins with the
    /// header and the bytes that were consumed.
    #[inline(always)]
    final fn read_rest<R: Source>(&mut self, header: Header, reader: &mut R) -> Result<(), Fault>
        ensures bytes { ReadsAfter (of_size LENGTH) (header_bytes header)
            (by_bytes (λ _. bytes self.new) result) (R.state reader.old) (R.state reader.new) }
        ensures left { IfErr result
            (λ e. LeavesUnit bytes (header_bytes header) (cause_of e) self.old self.new
            (R.state reader.old).left (R.state reader.new).left) }
        ensures error { IfErr result (HoldsReadError (R.fails reader.new)) }
    {
        if header.length() != Self::LENGTH as u32 {
            return Err(Fault::UnitLength);
        }
        let (front, rest) = self.as_mut().split_at_mut(8);
        front.copy_from_slice(header.as_ref());
        fill(reader, rest)
    }

    /// Writes all bytes of the unit.
    #[inline(always)]
    final fn write<W: Sink>(&self, writer: &mut W) -> Result<(), Fault>
        ensures { WritesTo W.Sink result writer.old writer.new (bytes self.now) }
    {
        put(writer, self.as_ref())
    }
}
