//! Payload units of any kind.

ghost use Rattle.std.specs.Prelude.{◌≡◌, ◌≢◌, ◌≤◌, ◌↔◌, Ok, Err, None, IfOk, IfErr, IsOk};
ghost use Rattle.std.specs.Prelude.{[], IfSome, IsSome, length, take};
ghost use Rattle.rtr_base.specs.Actions.{act};
ghost use Rattle.rtr_units.specs.Calls.{WritesTo};
ghost use Rattle.rtr_units.specs.StopCauses.{by_cause, by_writer, cause_of};
ghost use Rattle.rtr_units.specs.Header.{type_field, version_field};
ghost use Rattle.rtr_units.specs.Reading.{Reads, ReadsAfter, by_bytes};
ghost use Rattle.rtr_units.specs.Stream.{PutsForm};
ghost use Rattle.rtr_units.specs.StopCauses.{HoldsReadError, HoldsWriteError};
ghost use Rattle.rtr_units.specs.Report.{report};
ghost use Rattle.rtr_units.specs.HeaderBytes.{header_bytes};
ghost use Rattle.rtr_payload.specs.Payloads.{smallest_version as smallest};
ghost use Rattle.rtr_payload.specs.PrivateFrames.{AnswersReport};
ghost use Rattle.rtr_payload.specs.FirstFault.{text_of};
ghost use Rattle.rtr_payload.specs.UnitKinds.{payload_unit};
ghost use Rattle.rtr_payload.specs.UnitBytes.{answer_bytes, IsAnswer, MeansPayload};
ghost use Rattle.rtr_payload.specs.UnitBytes.{HasNoPayload, IsPrefixUnit};
ghost use Rattle.rtr_payload.specs.Meanings.{payload_of, payload_of_ref, origin_of};

use super::aspa::Aspa;
use super::payload_unit::PayloadUnit;
use super::prefix_rule::PrefixRule;
use super::prefix_unit::PrefixUnit;
use super::router_key::RouterKey;
use crate::payload;
use crate::payload::{PayloadRef, RouteOrigin};
use rtr_base::action::Action;
use rtr_units::end::EndOfData;
use rtr_units::error::Error;
use rtr_units::fault::Fault;
use rtr_units::header::Header;
use rtr_units::prefixes::{Ipv4Prefix, Ipv6Prefix};
use rtr_units::source::{Sink, Source};
use rtr_units::unit::Unit;
use std::alloc::{AllocError, Global};

/// A payload unit.
#[derive(Debug, Drop, PartialEq, Eq, Hash)]
pub enum Payload {
    /// An IPv4 prefix (RFC 8210 section 5.6).
    V4(Ipv4Prefix),
    /// An IPv6 prefix (RFC 8210 section 5.7).
    V6(Ipv6Prefix),
    /// A router key (RFC 8210 section 5.10).
    RouterKey(RouterKey),
    /// An ASPA unit (as in the Rust crate).
    Aspa(Aspa),
}

impl Payload {
    ghost use Rattle.rtr_payload.specs.UnitBytes.{unit_bytes, IsWritten, flags_in, partial_len};
    ghost use Rattle.rtr_payload.specs.UnitBytes.{IsOriginRef};
    ghost use Rattle.rtr_payload.specs.UnitBytes.{IsSupported};

    /// The unit of this version and these flags with this payload. Free bytes are zero. The bytes
    /// of keys and ASPAs are shared, so nothing is allocated; it returns `AllocError` if their
    /// count of handles is at its maximum.
    ///
    /// All providers of an ASPA are written, even with even flags: for a withdrawal, pass the
    /// result of `payload::Aspa::withdraw`.
    #[inline(always)]
    pub fn new(version: u8, flags: u8, payload: &PayloadRef<'_>) -> Result<Self, AllocError>
        ensures made { IfOk result (λ u. IsWritten version flags (payload_of_ref payload.now) u) }
        ensures origin { IsOriginRef payload.now → IsOk result }
    {
        match payload {
            PayloadRef::Origin(origin) => Ok(Payload::from_origin(version, flags, *origin)),
            PayloadRef::RouterKey(key) => {
                let key = payload::RouterKey::clone(key)?;
                let unit = RouterKey::from_meaning(version, flags, key);
                Ok(Payload::RouterKey(unit))
            }
            PayloadRef::Aspa(aspa) => {
                let aspa = payload::Aspa::clone(aspa)?;
                let unit = Aspa::from_meaning(version, flags, aspa);
                Ok(Payload::Aspa(unit))
            }
        }
    }

    /// As `new`, of a payload by value. It allocates nothing.
    pub fn from_payload(version: u8, flags: u8, payload: payload::Payload) -> Self
        ensures { IsWritten version flags (payload_of payload) result }
    {
        match payload {
            payload::Payload::Origin(origin) => Payload::from_origin(version, flags, origin),
            payload::Payload::RouterKey(key) => {
                Payload::RouterKey(RouterKey::from_meaning(version, flags, key))
            }
            payload::Payload::Aspa(aspa) => {
                Payload::Aspa(Aspa::from_meaning(version, flags, aspa))
            }
        }
    }

    /// The prefix unit with this origin.
    #[inline(always)]
    fn from_origin(version: u8, flags: u8, origin: RouteOrigin) -> Self
        ensures { IsWritten version flags (origin_of origin) result }
    {
        let prefix = origin.prefix.prefix();
        if prefix.is_v4() {
            Payload::V4(Ipv4Prefix::from_origin(version, flags, origin))
        } else {
            Payload::V6(Ipv6Prefix::from_origin(version, flags, origin))
        }
    }

    /// As `new`, or none if the version has no such payload: origins need version 0, router keys
    /// version 1 and ASPAs version 2.
    pub fn new_if_supported(
        version: u8,
        flags: u8,
        payload: &PayloadRef<'_>,
    ) -> Result<Option<Self>, AllocError>
        ensures supported { IfOk result
            (λ o. IsSome o ↔ IsSupported version (payload_of_ref payload.now)) }
        ensures made { IfOk result (λ o. IfSome o
            (λ u. IsWritten version flags (payload_of_ref payload.now) u)) }
        ensures origin { IsOriginRef payload.now → IsOk result }
        ensures unsupported { (IsSupported version (payload_of_ref payload.now) → ⊥) → IsOk result }
    {
        if version < smallest_version(payload) {
            return Ok(None);
        }
        let unit = Payload::new(version, flags, payload)?;
        Ok(Some(unit))
    }

    /// Reads one payload unit, or an end of data in its place. Never returns none.
    ///
    /// Faults, in this order: `Short` or `Reader` inside the header; `UnitType`; `UnitVersion` for
    /// an end of data of a version above 2; `TooLong` for a key or an ASPA unit of more than 65535
    /// bytes; `UnitLength`; `EmptyProviders` for an announced ASPA without providers; `Memory` for
    /// a key or an ASPA unit, right after its header or after its last byte; `Short` or `Reader`
    /// inside the unit. `UnitType` and the next four consume only the header.
    #[inline(always)]
    pub fn read<R: Source>(
        alloc: Global,
        reader: &mut R,
    ) -> Result<Result<Option<Self>, EndOfData>, Fault>
        ensures bytes { Reads payload_unit [] (by_bytes answer_bytes result)
            (R.state reader.old) (R.state reader.new) }
        ensures fields { IfOk result IsAnswer }
        ensures error { IfErr result (HoldsReadError (R.fails reader.new)) }
    {
        let header = Header::read(reader)?;
        Payload::read_payload(alloc, header, reader)
    }

    /// Reads what follows the header, which is kept as it is. Never returns none.
    ///
    /// Faults are those of `read` after the header, in the same order, including `Memory` for a key
    /// or an ASPA unit.
    pub fn read_payload<R: Source>(
        alloc: Global,
        header: Header,
        reader: &mut R,
    ) -> Result<Result<Option<Self>, EndOfData>, Fault>
        ensures bytes { ReadsAfter payload_unit (header_bytes header) (by_bytes answer_bytes result)
            (R.state reader.old) (R.state reader.new) }
        ensures fields { IfOk result IsAnswer }
        ensures no_writer { by_cause result ≢ Err by_writer }
        ensures some { ¬ (result ≡ Ok (Ok None)) }
        ensures error { IfErr result (HoldsReadError (R.fails reader.new)) }
    {
        match header.pdu() {
            Ipv4Prefix::PDU => read_unit::<Ipv4Prefix, R>(alloc, header, reader),
            Ipv6Prefix::PDU => read_unit::<Ipv6Prefix, R>(alloc, header, reader),
            RouterKey::PDU => read_unit::<RouterKey, R>(alloc, header, reader),
            Aspa::PDU => read_unit::<Aspa, R>(alloc, header, reader),
            EndOfData::PDU => Ok(Err(EndOfData::read_payload(header, reader)?)),
            pdu => Err(Fault::UnitType(pdu)),
        }
    }

    /// The version of the protocol.
    #[inline(always)]
    pub fn version(&self) -> u8
        ensures { result ≡ version_field (unit_bytes self.now) }
    {
        match self {
            Payload::V4(unit) => unit.version_of(),
            Payload::V6(unit) => unit.version_of(),
            Payload::RouterKey(unit) => unit.version_of(),
            Payload::Aspa(unit) => unit.version_of(),
        }
    }

    /// The flags, of which only the lowest bit counts.
    #[inline(always)]
    pub fn flags(&self) -> u8
        ensures { result ≡ flags_in self.now }
    {
        match self {
            Payload::V4(unit) => unit.flags_of(),
            Payload::V6(unit) => unit.flags_of(),
            Payload::RouterKey(unit) => unit.flags_of(),
            Payload::Aspa(unit) => unit.flags_of(),
        }
    }

    /// The action of the flags: whether the payload is announced or withdrawn.
    #[inline(always)]
    pub fn action(&self) -> Action
        ensures { result ≡ act (flags_in self.now) }
    {
        Action::from_flags(self.flags())
    }

    /// Writes all bytes of the unit.
    #[inline(always)]
    pub fn write<W: Sink>(&self, writer: &mut W) -> Result<(), Fault>
        ensures { WritesTo W.Sink result writer.old writer.new (unit_bytes self.now) }
    {
        match self {
            Payload::V4(unit) => unit.put(writer),
            Payload::V6(unit) => unit.put(writer),
            Payload::RouterKey(unit) => unit.put(writer),
            Payload::Aspa(unit) => unit.put(writer),
        }
    }

    /// Returns the action and the payload that the unit means, by its variant, whatever its type
    /// and length bytes are. The bytes of keys and ASPAs are shared.
    ///
    /// `Refused` holds the report on a prefix that breaks the rule on its lengths. `Memory` comes
    /// if that report can't be allocated, or if the count of handles to the bytes is at its
    /// maximum.
    pub fn to_payload(&self, alloc: Global) -> Result<(Action, payload::Payload), Fault>
        ensures ok { IfOk result (λ m. MeansPayload self.now m.0 m.1) }
        ensures err { IfErr result (λ e. HasNoPayload self.now (cause_of e)) }
    {
        match self.clone() {
            Ok(unit) => unit.into_payload(alloc),
            Err(_) => Err(Fault::Memory),
        }
    }

    /// As `to_payload`, of a unit by value. Only a report is allocated: `Refused` holds the report
    /// on a prefix that breaks the rule on its lengths, and `Memory` comes if that report can't be
    /// allocated.
    pub fn into_payload(self, alloc: Global) -> Result<(Action, payload::Payload), Fault>
        ensures ok { IfOk result (λ m. MeansPayload self m.0 m.1) }
        ensures err { IfErr result (λ e. HasNoPayload self (cause_of e)) }
        ensures variable { (IsPrefixUnit self → ⊥) → IsOk result }
    {
        match self {
            Payload::V4(unit) => value_of(alloc, unit),
            Payload::V6(unit) => value_of(alloc, unit),
            Payload::RouterKey(unit) => value_of(alloc, unit),
            Payload::Aspa(unit) => value_of(alloc, unit),
        }
    }

    /// The part of the unit that has a fixed size: all bytes of a prefix, the first 32 of a router
    /// key, the first 12 of an ASPA unit.
    pub fn as_partial_slice(&self) -> &[u8]
        ensures { result.now ≡ take (partial_len self.now) (unit_bytes self.now) }
    {
        match self {
            Payload::V4(unit) => unit.as_ref(),
            Payload::V6(unit) => unit.as_ref(),
            Payload::RouterKey(unit) => unit.as_partial_slice(),
            Payload::Aspa(unit) => unit.as_partial_slice(),
        }
    }

    /// Another handle to the same unit. The bytes of keys and ASPAs are shared, so nothing is
    /// allocated; it returns `AllocError` if their count of handles is at its maximum.
    pub fn clone(&self) -> Result<Self, AllocError>
        ensures same { IfOk result (λ u. u ≡ self.now) }
        ensures prefix { IsPrefixUnit self.now → IsOk result }
    {
        match self {
            Payload::V4(unit) => Ok(Payload::V4(*unit)),
            Payload::V6(unit) => Ok(Payload::V6(*unit)),
            Payload::RouterKey(unit) => Ok(Payload::RouterKey(unit.clone()?)),
            Payload::Aspa(unit) => Ok(Payload::Aspa(unit.clone()?)),
        }
    }
}

/// Reads what follows the header of a payload unit of one type.
#[inline(always)]
fn read_unit<U: PayloadUnit, R: Source>(
    alloc: Global,
    header: Header,
    reader: &mut R,
) -> Result<Result<Option<Payload>, EndOfData>, Fault>
    requires { type_field (header_bytes header) ≡ U.kind }
    ensures bytes { ReadsAfter payload_unit (header_bytes header) (by_bytes answer_bytes result)
        (R.state reader.old) (R.state reader.new) }
    ensures fields { IfOk result IsAnswer }
    ensures no_writer { by_cause result ≢ Err by_writer }
    ensures some { ¬ (result ≡ Ok (Ok None)) }
    ensures error { IfErr result (HoldsReadError (R.fails reader.new)) }
{
    let unit = U::read_after(alloc, header, reader)?;
    Ok(Ok(Some(unit.into_unit())))
}

/// The action and the payload that a unit of one type means.
#[inline(always)]
fn value_of<U: PayloadUnit>(alloc: Global, unit: U) -> Result<(Action, payload::Payload), Fault>
    ensures ok { IfOk result (λ m. MeansPayload (U.unit unit) m.0 m.1) }
    ensures err { IfErr result (λ e. HasNoPayload (U.unit unit) (cause_of e)) }
    ensures variable { (IsPrefixUnit (U.unit unit) → ⊥) → IsOk result }
{
    let (action, meaning) = unit.into_meaning(alloc)?;
    Ok((action, U::into_value(meaning)))
}

/// The smallest version of the protocol that has the payload.
fn smallest_version(payload: &PayloadRef<'_>) -> u8
    ensures { result ≡ smallest (payload_of_ref payload.now) }
{
    match payload {
        PayloadRef::Origin(_) => Ipv4Prefix::SMALLEST_VERSION,
        PayloadRef::RouterKey(_) => RouterKey::SMALLEST_VERSION,
        PayloadRef::Aspa(_) => Aspa::SMALLEST_VERSION,
    }
}

/// The fault of a prefix unit that breaks the rule: a report with error code 0, the whole unit and
/// a text, or `Memory` if the report can't be allocated.
#[inline(always)]
pub(crate) fn refused(alloc: Global, version: u8, unit: &[u8], rule: PrefixRule) -> Fault
    requires { length unit.now ≤ 32 }
    ensures { AnswersReport (cause_of result) (report version 0 unit.now (text_of rule)) }
{
    match report_on(alloc, version, unit, rule) {
        Ok(report) => Fault::Refused(report),
        Err(_) => Fault::Memory,
    }
}

/// The report on a prefix unit that breaks the rule. It stays out of line and returns a small
/// result, so that the path of units that keep the rule reserves no stack for a fault.
#[inline(never)]
fn report_on(alloc: Global, version: u8, unit: &[u8], rule: PrefixRule) -> Result<Error, AllocError>
    requires { length unit.now ≤ 32 }
    ensures { IfOk result (λ e. e ≡ report version 0 unit.now (text_of rule)) }
{
    Error::new(alloc, version, 0, unit, rule.text())
}
