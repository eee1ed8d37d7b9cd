//! What the units of IPv4 and of IPv6 prefixes have in common.

ghost use Rattle.std.specs.Prelude.{◌≡◌, ◌≢◌, ◌≤◌, Err, IfOk, IfErr, Some, None, refl};
ghost use Rattle.std.specs.Prelude.{length, take};
ghost use Rattle.rtr_base.specs.Addresses.{Family, v4, v6, width, cleared};
ghost use Rattle.rtr_base.specs.Bytes.{value};
ghost use Rattle.rtr_units.specs.StopCauses.{by_cause, by_writer, cause_of};
ghost use Rattle.rtr_units.specs.PrefixUnits.{prefix_at, prefix_type, prefix_size, address_bytes};
ghost use Rattle.rtr_units.specs.Header.{type_field};
ghost use Rattle.rtr_units.specs.Reading.{LeavesUnit, ReadsAfter, by_bytes};
ghost use Rattle.rtr_units.specs.StopCauses.{HoldsReadError};
ghost use Rattle.rtr_units.specs.HeaderBytes.{header_bytes};
ghost use Rattle.rtr_payload.specs.declared.payload.Payload.TheVariants as payloads;
ghost use Rattle.rtr_payload.specs.declared.pdu.payload.Payload.{Payload};
ghost use Rattle.rtr_payload.specs.declared.pdu.payload.Payload.TheVariants as units;
ghost use Rattle.rtr_payload.specs.FirstFault.{broken_rule};
ghost use Rattle.rtr_payload.specs.UnitKinds.{payload_unit};
ghost use Rattle.rtr_payload.specs.UnitFields.{prefix_unit, written_fields, HasFields};
ghost use Rattle.rtr_payload.specs.Units.{form};
ghost use Rattle.rtr_payload.specs.Meanings.{origin_of};
ghost use Rattle.rtr_payload.specs.UnitBytes.{unit_bytes, unit_fields, MeansPayload};
ghost use Rattle.rtr_payload.specs.UnitBytes.{HasNoPayload};

use super::payload::{Payload, refused};
use super::prefix_rule::{PrefixRule, ipv4_prefix, ipv6_prefix};
use crate::payload::RouteOrigin;
use rtr_base::action::Action;
use rtr_base::addr::MaxLenPrefix;
use rtr_base::asn::Asn;
use rtr_units::fault::Fault;
use rtr_units::header::Header;
use rtr_units::numbers::{u32_at, u128_at};
use rtr_units::prefixes::{Ipv4Prefix, Ipv6Prefix};
use rtr_units::source::Source;
use rtr_units::unit::Unit;
use std::alloc::Global;

/// A unit of a prefix of IP addresses (RFC 8210 sections 5.6 and 5.7), which allocates only for a
/// report.
pub trait PrefixUnit: Unit {
    /// The unit as a payload unit of any type.
    ghost unit: { Self → Payload };

    /// The family of its address.
    ghost family: { Family };

    /// The unit of this version and these flags with this origin, whose prefix is of this family.
    /// Free bytes are zero.
    fn from_origin(version: u8, flags: u8, origin: RouteOrigin) -> Self
        requires { origin.prefix.prefix.family ≡ family }
        ensures form { Self.bytes result ≡ form version flags (origin_of origin) }
        ensures fields { prefix_unit (prefix_at family (Self.bytes result)) ≡
            written_fields version flags (origin_of origin) };

    /// The prefix with these lengths and the address at the front of the bytes, with the host bits
    /// cleared.
    fn prefix_of(address: &[u8], prefix_len: u8, max_len: u8) -> Result<MaxLenPrefix, PrefixRule>
        requires { address_bytes family ≤ length address.now }
        ensures ok { IfOk result (λ p. p ≡
            record {
              prefix = record {
                family = family;
                address = cleared (width family) prefix_len
                    (value (take (address_bytes family) address.now));
                len = prefix_len;
              };
              max_len = Some max_len;
            }) }
        ensures kept { IfOk result (λ _. broken_rule (width family) prefix_len max_len ≡ None) }
        ensures broken { IfErr result
            (λ r. broken_rule (width family) prefix_len max_len ≡ Some r) };

    /// The unit as a payload unit of any type.
    fn to_unit(self) -> Payload
        ensures { result ≡ unit self };

    /// As a payload unit of any type it has the same bytes, and the fields of its family.
    ghost told: { (u : Self) → (unit_bytes (unit u) ≡ Self.bytes u) ×
        (unit_fields (unit u) ≡ prefix_unit (prefix_at family (Self.bytes u))) };

    /// It has the type and the size of its family.
    ghost typed: { (Self.PDU ≡ prefix_type family) × (Self.LENGTH ≡ prefix_size family) };

    /// Returns the action and the origin that the unit means, whatever its type and length bytes
    /// are.
    ///
    /// `Refused` holds the report on a prefix that breaks the rule on its lengths; `Memory` comes
    /// if that report can't be allocated.
    #[inline(always)]
    final fn to_origin(&self, alloc: Global) -> Result<(Action, RouteOrigin), Fault>
        ensures ok { IfOk result (λ m. MeansPayload (unit self.now) m.0 (payloads.Origin m.1)) }
        ensures family { IfOk result (λ m. m.1.prefix.prefix.family ≡ family) }
        ensures err { IfErr result (λ e. HasNoPayload (unit self.now) (cause_of e)) }
    {
        let bytes = self.as_ref();
        match Self::prefix_of(&bytes[12..], bytes[9], bytes[10]) {
            Ok(prefix) => {
                let asn = Asn::from_u32(u32_at(bytes, Self::LENGTH - 4));
                Ok((Action::from_flags(bytes[8]), RouteOrigin::new(prefix, asn)))
            }
            Err(rule) => {
                let unit = *self;
                Err(refused(alloc, unit.version(), unit.as_ref(), rule))
            }
        }
    }

    /// Reads what follows a header of this type into this unit. It allocates nothing.
    ///
    /// Faults, in this order: `UnitLength`, with nothing read and the unit unchanged; `Short` or
    /// `Reader` inside the unit, which then begins with the header and the bytes that were
    /// consumed.
    #[inline(always)]
    final fn fill_after<R: Source>(&mut self, header: Header, reader: &mut R) -> Result<(), Fault>
        requires { type_field (header_bytes header) ≡ Self.PDU }
        ensures bytes { ReadsAfter payload_unit (header_bytes header)
            (by_bytes (λ _. unit_bytes (unit self.new)) result) (R.state reader.old)
            (R.state reader.new) }
        ensures fields { IfOk result
            (λ _. HasFields (unit_bytes (unit self.new)) (unit_fields (unit self.new))) }
        ensures left { IfErr result
            (λ e. LeavesUnit Self.bytes (header_bytes header) (cause_of e) self.old self.new
            (R.state reader.old).left (R.state reader.new).left) }
        ensures no_writer { by_cause result ≢ Err by_writer }
        ensures error { IfErr result (HoldsReadError (R.fails reader.new)) }
    {
        self.read_rest(header, reader)
    }
}

impl PrefixUnit for Ipv4Prefix {
    ghost unit = { units.V4 };

    ghost family = { v4 };

    #[inline(always)]
    fn from_origin(version: u8, flags: u8, origin: RouteOrigin) -> Self {
        let (len, max_len) = (origin.prefix.prefix_len(), origin.prefix.resolved_max_len());
        let bits = origin.prefix.prefix().bits() as u32;
        Ipv4Prefix::from_bits(version, flags, len, max_len, bits, origin.asn.into_u32())
    }

    #[inline(always)]
    fn prefix_of(address: &[u8], prefix_len: u8, max_len: u8) -> Result<MaxLenPrefix, PrefixRule> {
        ipv4_prefix(u32_at(address, 0), prefix_len, max_len)
    }

    #[inline(always)]
    fn to_unit(self) -> Payload {
        Payload::V4(self)
    }

    ghost told = { λ u. (refl, refl) };

    ghost typed = { (refl, refl) };
}

impl PrefixUnit for Ipv6Prefix {
    ghost unit = { units.V6 };

    ghost family = { v6 };

    #[inline(always)]
    fn from_origin(version: u8, flags: u8, origin: RouteOrigin) -> Self {
        let (len, max_len) = (origin.prefix.prefix_len(), origin.prefix.resolved_max_len());
        let bits = origin.prefix.prefix().bits();
        Ipv6Prefix::from_bits(version, flags, len, max_len, bits, origin.asn.into_u32())
    }

    #[inline(always)]
    fn prefix_of(address: &[u8], prefix_len: u8, max_len: u8) -> Result<MaxLenPrefix, PrefixRule> {
        ipv6_prefix(u128_at(address, 0), prefix_len, max_len)
    }

    #[inline(always)]
    fn to_unit(self) -> Payload {
        Payload::V6(self)
    }

    ghost told = { λ u. (refl, refl) };

    ghost typed = { (refl, refl) };
}
