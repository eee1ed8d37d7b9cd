//! Error reports that are read (RFC 8210 section 5.11, RFC 6810 section 5.10).

ghost use Rattle.std.specs.Prelude.{◌≡◌, ◌≤◌, ◌++◌, ℕ, List, [], Err, length, take, nat_eq};
ghost use Rattle.std.specs.Prelude.{MatchOption};
ghost use Rattle.std.proofs.Common.{rules};
ghost use Rattle.std.specs.Cmp.{partial_equiv_from_equiv};
ghost use Rattle.std.specs.Cmp.Lexicographic.{nat_list_eq_equiv, pointwise};
ghost use Rattle.std.specs.Cmp.Rules.{hashing};
ghost use Rattle.std.specs.Hash as fed;
ghost use Rattle.rtr_base.specs.Bytes.{value};
ghost use Rattle.std.specs.Io.KnownBytes.{Consumes};
ghost use Rattle.rtr_units.specs.StopCauses.{by_cause, no_memory};
ghost use Rattle.rtr_units.specs.Header.{version_field, session_field};
ghost use Rattle.rtr_units.specs.Calls.{ReadsFrom, WritesTo};
ghost use Rattle.rtr_units.specs.Reading.{Reads, ReadsAfter};
ghost use Rattle.rtr_units.specs.HeaderBytes.{header_bytes};
ghost use Rattle.unit_any.specs.SessionKinds.{report_unit};
ghost use Rattle.unit_any.specs.Reports.{IsReport, HasParts};

use crate::report_view::ReportView;
use rtr_base::error_code::ErrorCode;
use rtr_units::error::Error;
use rtr_units::fault::Fault;
use rtr_units::header::{Header, MAX_SIZE};
use rtr_units::piece::{fill, put};
use rtr_units::source::{Sink, Source};
use std::alloc::Global;
use std::hash::{Hash, Hasher};
use std::marker::Model;

/// The size in bytes of the smallest report: a header and two lengths.
pub(crate) const MIN_SIZE: u32 = 16;

/// An error report that was read, which contracts see as the list of its bytes: 16 to 65535, as
/// many as its length field states.
#[derive(Debug, Drop)]
pub struct Report {
    pub(crate) bytes: Vec<u8>,
}

impl Model for Report {
    ghost use Rattle.std.specs.Prelude.{ℕ, List};
    ghost use Rattle.unit_any.specs.Reports.{IsReport};

    ghost Value = { List ℕ };

    ghost view = { λ a. a.bytes.items };

    ghost invariant = { λ a. IsReport a.bytes.items };
}

impl Report {
    /// The type of an error report.
    pub const PDU: u8 = Error::PDU;

    /// Reads an error report.
    ///
    /// Faults, in this order: `Short` or `Reader` inside the header; those of `read_payload`, of
    /// which `UnitType` and the two after it consume only the header.
    pub fn read<R: Source>(alloc: Global, reader: &mut R) -> Result<Self, Fault>
        ensures { ReadsFrom R.Source (λ report. report) result reader.old reader.new
            (Reads report_unit []) }
    {
        let header = Header::read(reader)?;
        Report::read_payload(alloc, header, reader)
    }

    /// Reads what follows the header, which is kept as it is.
    ///
    /// Faults, in this order: `UnitType` if its type isn't 10, `TooLong` above length 65535 and
    /// `UnitLength` below 16, with nothing read and nothing allocated; `Memory`, with nothing read;
    /// `Short` or `Reader` inside the unit.
    pub fn read_payload<R: Source>(
        alloc: Global,
        header: Header,
        reader: &mut R,
    ) -> Result<Self, Fault>
        ensures { ReadsFrom R.Source (λ report. report) result reader.old reader.new
            (ReadsAfter report_unit (header_bytes header)) }
    {
        if header.pdu() != Report::PDU {
            return Err(Fault::UnitType(header.pdu()));
        }
        let size = header.length();
        if size > MAX_SIZE {
            return Err(Fault::TooLong);
        }
        if size < MIN_SIZE {
            return Err(Fault::UnitLength);
        }
        let mut bytes = Vec::new(alloc);
        if bytes.resize(size as usize, 0).is_err() {
            return Err(Fault::Memory);
        }
        let (front, rest) = bytes.as_mut_slice().split_at_mut(8);
        front.copy_from_slice(header.as_ref());
        fill(reader, rest)?;
        Ok(Report { bytes })
    }

    /// The version of the protocol.
    pub fn version(&self) -> u8
        ensures { result ≡ version_field self.now }
    {
        self.view().version()
    }

    /// Why the peer reports an error.
    pub fn code(&self) -> ErrorCode
        ensures { result.0 ≡ session_field self.now }
    {
        self.view().code()
    }

    /// The unit that the report is about; empty if there is none.
    ///
    /// None if the two lengths inside the report don't fit: a length of four bytes, that unit, a
    /// length of four bytes and the text have to fill the report exactly.
    pub fn pdu(&self) -> Option<&[u8]>
        ensures { MatchOption result ((p t : List ℕ) → HasParts self.now p t → ⊥)
            (λ p. (t : List ℕ) × HasParts self.now p.now t) }
    {
        self.view().pdu()
    }

    /// The text, which may be empty and need not be UTF-8. None if `pdu` returns none.
    pub fn text(&self) -> Option<&[u8]>
        ensures { MatchOption result ((p t : List ℕ) → HasParts self.now p t → ⊥)
            (λ t. (p : List ℕ) × HasParts self.now p t.now) }
    {
        self.view().text()
    }

    /// The number of bytes of the report.
    pub fn size(&self) -> u32
        ensures { result ≡ length self.now }
    {
        self.view().size()
    }

    /// The bytes of the report.
    pub fn as_ref(&self) -> &[u8]
        ensures bytes { result.now ≡ self.now }
        ensures report { IsReport self.now }
    {
        self.bytes.as_slice()
    }

    /// Writes the bytes.
    pub fn write<W: Sink>(&self, writer: &mut W) -> Result<(), Fault>
        ensures { WritesTo W.Sink result writer.old writer.new self.now }
    {
        put(writer, self.as_ref())
    }

    /// The report as it lies in its bytes.
    pub fn view(&self) -> ReportView<'_>
        ensures { result.unit.now ≡ self.now }
    {
        ReportView {
            unit: self.bytes.as_slice(),
        }
    }
}

impl PartialEq for Report {
    ghost eq = { pointwise nat_eq };

    ghost laws = { partial_equiv_from_equiv nat_list_eq_equiv };

    fn eq(&self, other: &Self) -> bool {
        self.bytes == other.bytes
    }
}

impl Eq for Report {
    ghost laws = { nat_list_eq_equiv };
}

impl Hash for Report {
    ghost hash_input = { fed.slice fed.u8 };

    ghost respects_eq = { Prim.search (hashing, rules) };

    fn hash<H: Hasher>(&self, state: &mut H) {
        self.as_ref().hash(state);
    }
}
