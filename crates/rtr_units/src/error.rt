//! The error report (RFC 6810 section 5.10, RFC 8210 section 5.11).

ghost use Rattle.std.specs.Prelude.{◌≡◌, ◌+◌, ◌≤◌, ℕ, List, [], length, nat_eq, IfOk, IfErr};
ghost use Rattle.std.proofs.Common.{rules};
ghost use Rattle.std.specs.Borrow.{sem};
ghost use Rattle.std.specs.Cmp.{partial_equiv_from_equiv};
ghost use Rattle.std.specs.Cmp.Lexicographic.{nat_list_eq_equiv, pointwise};
ghost use Rattle.std.specs.Cmp.Rules.{hashing};
ghost use Rattle.std.specs.Hash as fed;
ghost use Rattle.rtr_units.specs.Calls.{WritesTo};
ghost use Rattle.rtr_units.specs.Reading.{FillsPiece, ReadsAfter, any_unit, by_bytes};
ghost use Rattle.rtr_units.specs.Report.{report};
ghost use Rattle.rtr_units.specs.Stream.{PutsForm};
ghost use Rattle.rtr_units.specs.StopCauses.{HoldsReadError, HoldsWriteError};
ghost use Rattle.rtr_units.specs.HeaderBytes.{header_bytes};

use crate::fault::Fault;
use crate::header::{Header, MAX_SIZE};
use crate::piece::{fill, put};
use crate::source::{Sink, Source};
use std::alloc::{AllocError, Global};
use std::hash::{Hash, Hasher};
use std::marker::Model;

/// An error report, which contracts see as the list of its bytes.
#[derive(Drop, Debug)]
pub struct Error {
    bytes: Vec<u8>,
}

impl Model for Error {
    ghost use Rattle.std.specs.Prelude.{ℕ, List};

    ghost Value = { List ℕ };

    ghost view = { λ a. a.bytes.items };
}

impl Error {
    ghost use Rattle.rtr_units.specs.LendingError.{LendsError};

    /// The type of an error report.
    pub const PDU: u8 = 10;

    /// The report with this version and error code, the unit that it is about (or none), and this
    /// text.
    pub fn new(
        alloc: Global,
        version: u8,
        code: u16,
        pdu: &[u8],
        text: &[u8],
    ) -> Result<Self, AllocError>
        requires { 16 + length pdu.now + length text.now ≤ 4294967295 }
        ensures { IfOk result (λ e. e ≡ report version code pdu.now text.now) }
    {
        let size = 16 + pdu.len() + text.len();
        let header = Header::new(version, Error::PDU, code, size as u32);
        let mut bytes = Vec::with_capacity(alloc, size)?;
        bytes.extend_from_slice(header.as_ref())?;
        bytes.extend_from_slice(&(pdu.len() as u32).to_be_bytes())?;
        bytes.extend_from_slice(pdu)?;
        bytes.extend_from_slice(&(text.len() as u32).to_be_bytes())?;
        bytes.extend_from_slice(text)?;
        Ok(Error { bytes })
    }

    /// A report without any bytes.
    pub fn empty(alloc: Global) -> Self
        ensures { result ≡ [] }
    {
        Error {
            bytes: Vec::new(alloc),
        }
    }

    /// Skips what follows the header, whatever its type. It reads no byte after the unit.
    ///
    /// Faults, in this order: `TooLong` for a length field over 65535 and `UnitLength` for one
    /// under 8, with nothing read; `Short` or `Reader` inside the unit. This order is this
    /// library's own.
    pub fn skip_payload<R: Source>(header: Header, reader: &mut R) -> Result<(), Fault>
        ensures bytes { (u : List ℕ) × ReadsAfter any_unit (header_bytes header)
            (by_bytes (λ _. u) result) (R.state reader.old) (R.state reader.new) }
        ensures error { IfErr result (HoldsReadError (R.fails reader.new)) }
    {
        let length = header.length();
        if length > MAX_SIZE {
            return Err(Fault::TooLong);
        }
        if length < 8 {
            return Err(Fault::UnitLength);
        }
        skip(reader, (length - 8) as usize)
    }

    /// Writes the bytes.
    pub fn write<W: Sink>(&self, writer: &mut W) -> Result<(), Fault>
        ensures { WritesTo W.Sink result writer.old writer.new self.now }
    {
        put(writer, self.as_ref())
    }

    /// The bytes of the report.
    pub fn as_ref(&self) -> &[u8]
        ensures { result.now ≡ self.now }
    {
        self.bytes.as_slice()
    }

    /// The bytes of the report, mutable.
    pub fn as_mut(&mut self) -> &mut [u8]
        ensures* writes_back { sem 𝓛 (LendsError self.entry result) }
        ensures bytes { result.now ≡ self.old }
    {
        self.bytes.as_mut_slice()
    }

    /// A report with the same bytes.
    pub fn clone(&self) -> Result<Self, AllocError>
        ensures { IfOk result (λ e. e ≡ self.now) }
    {
        let bytes = self.bytes.clone()?;
        Ok(Error { bytes })
    }
}

/// The bytes as a report. They aren't checked.
impl From<Vec<u8>> for Error {
    ghost from_gives = { λ bytes error. error ≡ bytes.items };

    fn from(bytes: Vec<u8>) -> Self {
        Error { bytes }
    }
}

/// The bytes of the report. They aren't copied.
impl From<Error> for Vec<u8> {
    ghost from_gives = { λ error bytes. bytes.items ≡ error };

    fn from(error: Error) -> Self {
        error.bytes
    }
}

/// Skips `size` bytes.
fn skip<R: Source>(reader: &mut R, size: usize) -> Result<(), Fault>
    ensures bytes { (t : List ℕ) × FillsPiece size (by_bytes (λ _. t) result)
        (R.state reader.old) (R.state reader.new) }
    ensures error { IfErr result (HoldsReadError (R.fails reader.new)) }
{
    let mut buffer = [0; 1024];
    let mut left = size;
    while left > 0 {
        let step = left.min(buffer.len());
        fill(reader, &mut buffer[..step])?;
        left -= step;
    }
    Ok(())
}

impl PartialEq for Error {
    ghost eq = { pointwise nat_eq };

    ghost laws = { partial_equiv_from_equiv nat_list_eq_equiv };

    fn eq(&self, other: &Self) -> bool {
        self.bytes == other.bytes
    }
}

impl Eq for Error {
    ghost laws = { nat_list_eq_equiv };
}

impl Hash for Error {
    ghost hash_input = { fed.slice fed.u8 };

    ghost respects_eq = { Prim.search (hashing, rules) };

    fn hash<H: Hasher>(&self, state: &mut H) {
        self.as_ref().hash(state);
    }
}
