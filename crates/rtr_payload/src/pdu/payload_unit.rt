//! What the four kinds of payload units have in common.

ghost use Rattle.std.specs.Prelude.{◌≡◌, ◌≢◌, ℕ, Err, IfOk, IfErr, IsOk};
ghost use Rattle.std.specs.Prelude.{⊤};
ghost use Rattle.std.specs.Prelude.{refl};
ghost use Rattle.rtr_units.specs.Calls.{WritesTo};
ghost use Rattle.rtr_units.specs.StopCauses.{by_cause, by_writer, cause_of};
ghost use Rattle.rtr_units.specs.Header.{type_field, version_field};
ghost use Rattle.rtr_units.specs.Reading.{ReadsAfter, by_bytes};
ghost use Rattle.rtr_units.specs.Stream.{PutsForm};
ghost use Rattle.rtr_units.specs.StopCauses.{HoldsReadError, HoldsWriteError};
ghost use Rattle.rtr_units.specs.HeaderBytes.{header_bytes};
ghost use Rattle.rtr_payload.specs.declared.payload.Payload.{Payload as Value};
ghost use Rattle.rtr_payload.specs.declared.payload.Payload.TheVariants as payloads;
ghost use Rattle.rtr_payload.specs.declared.pdu.aspa.TheConstants.{PDU as ASPA_TYPE};
ghost use Rattle.rtr_payload.specs.declared.pdu.router_key.TheConstants.{PDU as KEY_TYPE};
ghost use Rattle.rtr_payload.specs.declared.pdu.payload.Payload.{Payload};
ghost use Rattle.rtr_payload.specs.declared.pdu.payload.Payload.TheVariants as units;
ghost use Rattle.rtr_payload.specs.Payloads.{smallest_version};
ghost use Rattle.rtr_payload.specs.UnitKinds.{payload_unit};
ghost use Rattle.rtr_payload.specs.UnitFields.{HasFields};
ghost use Rattle.rtr_payload.specs.UnitBytes.{unit_bytes, unit_fields, IsWritten, MeansPayload};
ghost use Rattle.rtr_payload.specs.UnitBytes.{HasNoPayload, IsPrefixUnit, flags_in};
ghost use Rattle.rtr_payload.specs.Meanings.{payload_of};

use super::aspa::Aspa;
use super::payload::Payload;
use super::prefix_unit::PrefixUnit;
use super::providers::ProviderAsns;
use super::router_key::RouterKey;
use crate::payload;
use crate::payload::RouteOrigin;
use rtr_base::action::Action;
use rtr_base::keys::KeyIdentifier;
use rtr_units::fault::Fault;
use rtr_units::header::Header;
use rtr_units::source::{Sink, Source};
use rtr_units::unit::Unit;
use std::alloc::Global;

/// A payload unit of one type: how it is read after its header, what it means, which unit has a
/// given meaning, and how it is written.
pub trait PayloadUnit: Drop {
    /// What such units mean.
    type Meaning: Drop;

    /// The unit as a payload unit of any type.
    ghost unit: { Self → Payload };

    /// The meaning as a payload of any kind.
    ghost value: { Self.Meaning → Value };

    /// What holds of each meaning of such units.
    ghost holds: { Self.Meaning → Type 0 };

    /// The type, by which contracts name it.
    ghost kind: { ℕ };

    /// The smallest version of the protocol that has such units, by which contracts name it.
    ghost SMALLEST_VERSION: { ℕ };

    /// The smallest version of the protocol that has such units.
    const SMALLEST_VERSION: u8;

    /// Reads what follows a header of this type. Only router keys and ASPA units allocate.
    ///
    /// Faults are those of `pdu::Payload::read_payload`.
    fn read_after<R: Source>(alloc: Global, header: Header, reader: &mut R) -> Result<Self, Fault>
        requires { type_field (header_bytes header) ≡ kind }
        ensures bytes { ReadsAfter payload_unit (header_bytes header)
            (by_bytes (λ u. unit_bytes (unit u)) result)
            (R.state reader.old) (R.state reader.new) }
        ensures fields { IfOk result
            (λ u. HasFields (unit_bytes (unit u)) (unit_fields (unit u))) }
        ensures no_writer { by_cause result ≢ Err by_writer }
        ensures error { IfErr result (HoldsReadError (R.fails reader.new)) };

    /// The version of the protocol.
    fn version_of(&self) -> u8
        ensures { result ≡ version_field (unit_bytes (unit self.now)) };

    /// The flags, of which only the lowest bit counts.
    fn flags_of(&self) -> u8
        ensures { result ≡ flags_in (unit self.now) };

    /// The action and the meaning of the unit, whatever its type and length bytes are. Only a
    /// report is allocated.
    fn into_meaning(self, alloc: Global) -> Result<(Action, Self::Meaning), Fault>
        ensures ok { IfOk result (λ m. MeansPayload (unit self) m.0 (value m.1)) }
        ensures holds { IfOk result (λ m. holds m.1) }
        ensures err { IfErr result (λ e. HasNoPayload (unit self) (cause_of e)) }
        ensures variable { (IsPrefixUnit (unit self) → ⊥) → IsOk result };

    /// The unit of this version and these flags with this meaning. Free bytes are zero.
    fn from_meaning(version: u8, flags: u8, meaning: Self::Meaning) -> Self
        requires { holds meaning }
        ensures { IsWritten version flags (payload_of (value meaning)) (unit result) };

    /// Writes all bytes of the unit.
    fn put<W: Sink>(&self, writer: &mut W) -> Result<(), Fault>
        ensures { WritesTo W.Sink result writer.old writer.new (unit_bytes (unit self.now)) };

    /// The unit as a payload unit of any type.
    fn into_unit(self) -> Payload
        ensures { result ≡ unit self };

    /// The meaning as a payload of any kind.
    fn into_value(meaning: Self::Meaning) -> payload::Payload
        ensures { result ≡ value meaning };

    /// The smallest version that has such units is that of each of their meanings.
    ghost versioned: { (m : Self.Meaning) →
        smallest_version (payload_of (value m)) ≡ SMALLEST_VERSION };
}

impl<P: PrefixUnit> PayloadUnit for P {
    type Meaning = RouteOrigin;

    ghost unit = { P.unit };

    ghost value = { payloads.Origin };

    ghost holds = { λ o. o.prefix.prefix.family ≡ P.family };

    ghost kind = { P.PDU };

    ghost SMALLEST_VERSION = { 0 };

    const SMALLEST_VERSION: u8 = 0;

    #[inline(always)]
    fn read_after<R: Source>(_alloc: Global, header: Header, reader: &mut R) -> Result<P, Fault> {
        let mut unit = P::zero();
        unit.fill_after(header, reader)?;
        Ok(unit)
    }

    #[inline(always)]
    fn version_of(&self) -> u8 {
        self.version()
    }

    #[inline(always)]
    fn flags_of(&self) -> u8 {
        self.as_ref()[8]
    }

    #[inline(always)]
    fn into_meaning(self, alloc: Global) -> Result<(Action, RouteOrigin), Fault> {
        self.to_origin(alloc)
    }

    #[inline(always)]
    fn from_meaning(version: u8, flags: u8, meaning: RouteOrigin) -> Self {
        P::from_origin(version, flags, meaning)
    }

    #[inline(always)]
    fn put<W: Sink>(&self, writer: &mut W) -> Result<(), Fault> {
        self.write(writer)
    }

    #[inline(always)]
    fn into_unit(self) -> Payload {
        self.to_unit()
    }

    #[inline(always)]
    fn into_value(meaning: RouteOrigin) -> payload::Payload {
        payload::Payload::Origin(meaning)
    }

    ghost versioned = { λ m. refl };
}

impl PayloadUnit for RouterKey {
    type Meaning = payload::RouterKey;

    ghost unit = { units.RouterKey };

    ghost value = { payloads.RouterKey };

    ghost holds = { λ _. ⊤ };

    ghost kind = { KEY_TYPE };

    ghost SMALLEST_VERSION = { 1 };

    const SMALLEST_VERSION: u8 = 1;

    #[inline(always)]
    fn read_after<R: Source>(alloc: Global, header: Header, reader: &mut R) -> Result<Self, Fault> {
        RouterKey::read_payload(alloc, header, reader)
    }

    #[inline(always)]
    fn version_of(&self) -> u8 {
        self.version()
    }

    #[inline(always)]
    fn flags_of(&self) -> u8 {
        self.flags()
    }

    #[inline(always)]
    fn into_meaning(self, _alloc: Global) -> Result<(Action, payload::RouterKey), Fault> {
        let action = Action::from_flags(self.flags());
        let identifier = KeyIdentifier::from(self.key_identifier());
        let asn = self.asn();
        let key = payload::RouterKey::new(identifier, asn, self.into_key_info());
        Ok((action, key))
    }

    #[inline(always)]
    fn from_meaning(version: u8, flags: u8, meaning: payload::RouterKey) -> Self {
        let identifier = meaning.key_identifier.into();
        RouterKey::new(version, flags, identifier, meaning.asn, meaning.key_info)
    }

    #[inline(always)]
    fn put<W: Sink>(&self, writer: &mut W) -> Result<(), Fault> {
        self.write(writer)
    }

    #[inline(always)]
    fn into_unit(self) -> Payload {
        Payload::RouterKey(self)
    }

    #[inline(always)]
    fn into_value(meaning: payload::RouterKey) -> payload::Payload {
        payload::Payload::RouterKey(meaning)
    }

    ghost versioned = { λ m. refl };
}

impl PayloadUnit for Aspa {
    type Meaning = payload::Aspa;

    ghost unit = { units.Aspa };

    ghost value = { payloads.Aspa };

    ghost holds = { λ _. ⊤ };

    ghost kind = { ASPA_TYPE };

    ghost SMALLEST_VERSION = { 2 };

    const SMALLEST_VERSION: u8 = 2;

    #[inline(always)]
    fn read_after<R: Source>(alloc: Global, header: Header, reader: &mut R) -> Result<Self, Fault> {
        Aspa::read_payload(alloc, header, reader)
    }

    #[inline(always)]
    fn version_of(&self) -> u8 {
        self.version()
    }

    #[inline(always)]
    fn flags_of(&self) -> u8 {
        self.flags()
    }

    #[inline(always)]
    fn into_meaning(self, _alloc: Global) -> Result<(Action, payload::Aspa), Fault> {
        let action = Action::from_flags(self.flags());
        let customer = self.customer();
        let providers = match action {
            Action::Announce => self.into_providers(),
            Action::Withdraw => ProviderAsns::none(),
        };
        Ok((action, payload::Aspa::new(customer, providers)))
    }

    #[inline(always)]
    fn from_meaning(version: u8, flags: u8, meaning: payload::Aspa) -> Self {
        Aspa::new(version, flags, meaning.customer, meaning.providers)
    }

    #[inline(always)]
    fn put<W: Sink>(&self, writer: &mut W) -> Result<(), Fault> {
        self.write(writer)
    }

    #[inline(always)]
    fn into_unit(self) -> Payload {
        Payload::Aspa(self)
    }

    #[inline(always)]
    fn into_value(meaning: payload::Aspa) -> payload::Payload {
        payload::Payload::Aspa(meaning)
    }

    ghost versioned = { λ m. refl };
}
