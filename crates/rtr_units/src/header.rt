//! The header of a unit (RFC 6810 and RFC 8210 section 5.1).

ghost use Rattle.std.specs.Prelude.{◌≡◌, ◌<◌, ◌≤◌, ◌^◌, ℕ, List, length, replicate};
ghost use Rattle.std.specs.Prelude.{IfOk, IsOk, IfErr, ◌↔◌};
ghost use Rattle.std.specs.Borrow.{sem};
ghost use Rattle.rtr_base.specs.Bytes.{IsBytes};
ghost use Rattle.rtr_units.specs.Calls.{ReadsFrom, WritesTo};
ghost use Rattle.rtr_units.specs.Header.{header, version_field, type_field, session_field};
ghost use Rattle.rtr_units.specs.Header.{length_field};
ghost use Rattle.rtr_units.specs.Reading.{FillsPiece, by_bytes};
ghost use Rattle.rtr_units.specs.Stream.{PutsForm};
ghost use Rattle.rtr_units.specs.StopCauses.{HoldsReadError, HoldsWriteError};
ghost use Rattle.rtr_units.specs.HeaderBytes.{header_bytes, AreBytes};

use crate::cells::Cells;
use crate::fault::Fault;
use crate::numbers::{u16_at, u32_at};
use crate::piece::{fill, put};
use crate::source::{Sink, Source};

/// The greatest size in bytes, header included, of a unit of variable size that is read or skipped
/// (as in the Rust crate `rpki`).
pub const MAX_SIZE: u32 = 65535;

/// The size of a header in bytes.
pub const HEADER_SIZE: usize = 8;

/// The last known version of the protocol. This library reads no end of data of a later version,
/// and writes no sequence in one; this limit is its own.
pub const LAST_VERSION: u8 = 2;

/// The header that each unit begins with: eight bytes.
#[derive(Clone, Copy, Debug, PartialEq, Eq, Hash)]
pub struct Header {
    cells: Cells<8>,
}

impl Default for Header {
    ghost is_default = { λ h. header_bytes h ≡ replicate 8 0 };

    /// Eight zero bytes.
    fn default() -> Self {
        Header {
            cells: Cells::new([0; 8]),
        }
    }
}

impl Header {
    ghost use Rattle.rtr_units.specs.LendingUnits.{LendsHeader};

    /// The header with this version, type, session field and length of the whole unit.
    #[inline(always)]
    pub fn new(version: u8, pdu: u8, session: u16, length: u32) -> Self
        ensures { header_bytes result ≡ header version pdu session length }
    {
        let [s0, s1] = session.to_be_bytes();
        let [n0, n1, n2, n3] = length.to_be_bytes();
        Header {
            cells: Cells::new([version, pdu, s0, s1, n0, n1, n2, n3]),
        }
    }

    /// Reads a header: eight bytes, which are not checked. After `Short` and `Reader` the bytes
    /// that came before are consumed.
    #[inline(always)]
    pub fn read<R: Source>(reader: &mut R) -> Result<Self, Fault>
        ensures { ReadsFrom R.Source header_bytes result reader.old reader.new (FillsPiece 8) }
    {
        let mut header = Header::default();
        fill(reader, header.as_mut())?;
        Ok(header)
    }

    /// Writes the eight bytes.
    #[inline(always)]
    pub fn write<W: Sink>(&self, writer: &mut W) -> Result<(), Fault>
        ensures { WritesTo W.Sink result writer.old writer.new (header_bytes self.now) }
    {
        put(writer, self.as_ref())
    }

    /// The version of the protocol.
    #[inline(always)]
    pub fn version(&self) -> u8
        ensures value { result ≡ version_field (header_bytes self.now) }
        ensures header { AreBytes 8 (header_bytes self.now) }
    {
        self.as_ref()[0]
    }

    /// The type of the unit.
    #[inline(always)]
    pub fn pdu(&self) -> u8
        ensures value { result ≡ type_field (header_bytes self.now) }
        ensures header { AreBytes 8 (header_bytes self.now) }
    {
        self.as_ref()[1]
    }

    /// The session field, which some types use for something else.
    #[inline(always)]
    pub fn session(&self) -> u16
        ensures { result ≡ session_field (header_bytes self.now) }
    {
        u16_at(self.as_ref(), 2)
    }

    /// The length field: the bytes of the whole unit, header included.
    #[inline(always)]
    pub fn length(&self) -> u32
        ensures value { result ≡ length_field (header_bytes self.now) }
        ensures header { AreBytes 8 (header_bytes self.now) }
    {
        u32_at(self.as_ref(), 4)
    }

    /// The length field as a size in memory. It always fits, so this never returns the `UnitLength`
    /// of the Rust crate.
    pub fn pdu_len(&self) -> Result<usize, Fault>
        ensures ok { IsOk result }
        ensures length { IfOk result (λ n. n ≡ length_field (header_bytes self.now)) }
    {
        match usize::try_from(self.length()) {
            Ok(length) => Ok(length),
            Err(_) => Err(Fault::UnitLength),
        }
    }

    /// The eight bytes.
    #[inline(always)]
    pub fn as_ref(&self) -> &[u8]
        ensures bytes { result.now ≡ header_bytes self.now }
        ensures size { length result.now ≡ 8 }
        ensures range { IsBytes result.now }
    {
        self.cells.as_ref()
    }

    /// The eight bytes, mutable.
    #[inline(always)]
    pub fn as_mut(&mut self) -> &mut [u8]
        ensures* writes_back { sem 𝓛 (LendsHeader self.entry result) }
        ensures bytes { result.now ≡ header_bytes self.old }
        ensures size { length result.now ≡ 8 }
    {
        self.cells.as_mut()
    }
}
