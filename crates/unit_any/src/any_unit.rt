//! A unit of any type.

ghost use Rattle.std.specs.Prelude.{◌≡◌, length, IfErr};
ghost use Rattle.rtr_units.specs.Header.{version_field};
ghost use Rattle.rtr_units.specs.Calls.{WritesTo};
ghost use Rattle.rtr_units.specs.StopCauses.{HoldsReadError};
ghost use Rattle.rtr_units.specs.HeaderBytes.{header_bytes};
ghost use Rattle.unit_any.specs.AnyFields.{any_session};
ghost use Rattle.unit_any.specs.PrivateHeaders.{ReadsHeader};

use crate::report::Report;
use rtr_payload::pdu::Payload;
use rtr_units::end::EndOfData;
use rtr_units::fault::Fault;
use rtr_units::header::Header;
use rtr_units::piece::fill;
use rtr_units::queries::{CacheReset, CacheResponse, ResetQuery, SerialNotify, SerialQuery};
use rtr_units::source::{Sink, Source};
use rtr_units::unit::Unit;
use std::alloc::Global;

/// A unit of any type.
#[derive(Debug, Drop, PartialEq, Eq, Hash)]
pub enum AnyUnit {
    /// The cache has new data (RFC 8210 section 5.2).
    SerialNotify(SerialNotify),
    /// A router asks for the changes since a state (RFC 8210 section 5.3).
    SerialQuery(SerialQuery),
    /// A router asks for all data (RFC 8210 section 5.4).
    ResetQuery(ResetQuery),
    /// The cache begins to send data (RFC 8210 section 5.5).
    CacheResponse(CacheResponse),
    /// An IPv4 prefix, an IPv6 prefix, a router key (RFC 8210 sections 5.6, 5.7 and 5.10) or an
    /// ASPA unit (as in the Rust crate).
    Payload(Payload),
    /// All data was sent (RFC 8210 section 5.8).
    EndOfData(EndOfData),
    /// The cache doesn't have the changes since the router's state (RFC 8210 section 5.9).
    CacheReset(CacheReset),
    /// An error report (RFC 8210 section 5.11).
    Error(Report),
}

impl AnyUnit {
    ghost use Rattle.unit_any.specs.AnyReading.{ReadsAny, ReadsAnyAfter};
    ghost use Rattle.unit_any.specs.AnyUnits.{any_bytes, any_fields};

    /// Reads the next unit, or none if no byte was left.
    ///
    /// Faults, in this order: `Short` or `Reader` inside the header; those of `read_payload`.
    /// `Short` has consumed at least one byte. `UnitType`, `UnitVersion`, `TooLong`, `UnitLength`
    /// and `EmptyProviders` consume only the header.
    pub fn read<R: Source>(alloc: Global, reader: &mut R) -> Result<Option<Self>, Fault>
        ensures bytes { ReadsAny result (R.state reader.old) (R.state reader.new) }
        ensures error { IfErr result (HoldsReadError (R.fails reader.new)) }
    {
        let Some(header) = next_header(reader)? else {
            return Ok(None);
        };
        Ok(Some(AnyUnit::read_payload(alloc, header, reader)?))
    }

    /// Reads what follows the header, which is kept as it is.
    ///
    /// Faults, in this order:
    /// - with nothing read and nothing allocated, `UnitType` for a type that no unit has;
    ///   `UnitVersion` for an end of data of a version above 2; `TooLong` for a router key, an ASPA
    ///   unit or an error report of more than 65535 bytes; `UnitLength`; `EmptyProviders` for an
    ///   ASPA that is announced without providers;
    /// - `Memory` for a router key, an ASPA unit or an error report, with nothing read, and for the
    ///   first two also after the last byte;
    /// - `Short` or `Reader` inside the unit.
    pub fn read_payload<R: Source>(
        alloc: Global,
        header: Header,
        reader: &mut R,
    ) -> Result<Self, Fault>
        ensures bytes { ReadsAnyAfter (header_bytes header) result (R.state reader.old)
            (R.state reader.new) }
        ensures error { IfErr result (HoldsReadError (R.fails reader.new)) }
    {
        match header.pdu() {
            SerialNotify::PDU => {
                Ok(AnyUnit::SerialNotify(SerialNotify::read_payload(header, reader)?))
            }
            SerialQuery::PDU => {
                Ok(AnyUnit::SerialQuery(SerialQuery::read_payload(header, reader)?))
            }
            ResetQuery::PDU => Ok(AnyUnit::ResetQuery(ResetQuery::read_payload(header, reader)?)),
            CacheResponse::PDU => {
                Ok(AnyUnit::CacheResponse(CacheResponse::read_payload(header, reader)?))
            }
            CacheReset::PDU => Ok(AnyUnit::CacheReset(CacheReset::read_payload(header, reader)?)),
            Report::PDU => Ok(AnyUnit::Error(Report::read_payload(alloc, header, reader)?)),
            _ => match Payload::read_payload(alloc, header, reader)? {
                Ok(Some(unit)) => Ok(AnyUnit::Payload(unit)),
                Ok(None) => unreachable!(),
                Err(end) => Ok(AnyUnit::EndOfData(end)),
            },
        }
    }

    /// Writes all bytes of the unit.
    pub fn write<W: Sink>(&self, writer: &mut W) -> Result<(), Fault>
        ensures { WritesTo W.Sink result writer.old writer.new (any_bytes self.now) }
    {
        match self {
            AnyUnit::SerialNotify(unit) => unit.write(writer),
            AnyUnit::SerialQuery(unit) => unit.write(writer),
            AnyUnit::ResetQuery(unit) => unit.write(writer),
            AnyUnit::CacheResponse(unit) => unit.write(writer),
            AnyUnit::Payload(unit) => unit.write(writer),
            AnyUnit::EndOfData(unit) => unit.write(writer),
            AnyUnit::CacheReset(unit) => unit.write(writer),
            AnyUnit::Error(report) => report.write(writer),
        }
    }

    /// The version of the protocol, the first byte.
    pub fn version(&self) -> u8
        ensures { result ≡ version_field (any_bytes self.now) }
    {
        match self {
            AnyUnit::SerialNotify(unit) => unit.version(),
            AnyUnit::SerialQuery(unit) => unit.version(),
            AnyUnit::ResetQuery(unit) => unit.version(),
            AnyUnit::CacheResponse(unit) => unit.version(),
            AnyUnit::Payload(unit) => unit.version(),
            AnyUnit::EndOfData(EndOfData::V0(unit)) => unit.version(),
            AnyUnit::EndOfData(EndOfData::V1(unit)) => unit.version(),
            AnyUnit::CacheReset(unit) => unit.version(),
            AnyUnit::Error(report) => report.version(),
        }
    }

    /// The session, for the units that have one: serial notify, serial query, cache response and
    /// end of data. In other units that field means something else.
    pub fn session(&self) -> Option<u16>
        ensures { result ≡ any_session (any_fields self.now) }
    {
        match self {
            AnyUnit::SerialNotify(unit) => Some(unit.session()),
            AnyUnit::SerialQuery(unit) => Some(unit.session()),
            AnyUnit::CacheResponse(unit) => Some(unit.session()),
            AnyUnit::EndOfData(unit) => Some(unit.session()),
            AnyUnit::ResetQuery(_)
            | AnyUnit::Payload(_)
            | AnyUnit::CacheReset(_)
            | AnyUnit::Error(_) => None,
        }
    }

    /// The number of bytes of the unit.
    pub fn size(&self) -> u32
        ensures { result ≡ length (any_bytes self.now) }
    {
        match self {
            AnyUnit::SerialNotify(unit) => unit.as_ref().len() as u32,
            AnyUnit::SerialQuery(unit) => unit.as_ref().len() as u32,
            AnyUnit::ResetQuery(unit) => unit.as_ref().len() as u32,
            AnyUnit::CacheResponse(unit) => unit.as_ref().len() as u32,
            AnyUnit::Payload(Payload::V4(unit)) => unit.as_ref().len() as u32,
            AnyUnit::Payload(Payload::V6(unit)) => unit.as_ref().len() as u32,
            AnyUnit::Payload(Payload::RouterKey(unit)) => unit.size(),
            AnyUnit::Payload(Payload::Aspa(unit)) => unit.size(),
            AnyUnit::EndOfData(EndOfData::V0(unit)) => unit.as_ref().len() as u32,
            AnyUnit::EndOfData(EndOfData::V1(unit)) => unit.as_ref().len() as u32,
            AnyUnit::CacheReset(unit) => unit.as_ref().len() as u32,
            AnyUnit::Error(report) => report.size(),
        }
    }
}

/// The next header, or none if no byte was left.
fn next_header<R: Source>(reader: &mut R) -> Result<Option<Header>, Fault>
    ensures bytes { ReadsHeader result (R.state reader.old) (R.state reader.new) }
    ensures error { IfErr result (HoldsReadError (R.fails reader.new)) }
{
    let mut header = Header::default();
    let bytes = header.as_mut();
    match reader.read(bytes) {
        Ok(0) => Ok(None),
        Ok(n) => {
            fill(reader, &mut bytes[n..])?;
            Ok(Some(header))
        }
        Err(e) => Err(Fault::Reader(e)),
    }
}
