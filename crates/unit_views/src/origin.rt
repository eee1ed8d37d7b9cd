//! Views of prefix units (RFC 8210 sections 5.6 and 5.7).

ghost use Rattle.std.specs.Prelude.{◌≡◌, ◌≤◌, Some, length, IfOk, IfErr};
ghost use Rattle.rtr_units.specs.Header.{type_field, length_field};
ghost use Rattle.rtr_units.specs.PrefixUnits.{prefix_at, prefix_type, prefix_size};
ghost use Rattle.rtr_payload.specs.FaultSteps.{first_unit, rule_of};
ghost use Rattle.rtr_payload.specs.UnitFields.{prefix_unit, LengthsAgree};
ghost use Rattle.rtr_payload.specs.Units.{form_of};
ghost use Rattle.unit_views.specs.Faults.{IsFirstFault, WritesPiece};
ghost use Rattle.unit_views.specs.Origins.{IsOriginOf, ShowsOrigin, origin_meaning};

use crate::fault::ViewFault;
use crate::form::put_piece;
use crate::front::first_unit;
use rtr_base::action::Action;
use rtr_base::asn::Asn;
use rtr_payload::payload::RouteOrigin;
use rtr_payload::pdu::PrefixUnit;
use rtr_payload::pdu::prefix_rule::PrefixRule;
use rtr_units::numbers::u32_at;
use rtr_units::prefixes::{Ipv4Prefix, Ipv6Prefix};
use rtr_units::source::Sink;
use rtr_units::unit::Unit;

/// The route origin of a prefix unit, with its version and flags.
#[derive(Clone, Copy, Debug)]
pub struct OriginView {
    version: u8,
    flags: u8,
    origin: RouteOrigin,
}

impl OriginView {
    /// The version of the protocol.
    #[inline(always)]
    pub fn version(&self) -> u8
        ensures { result ≡ self.now.version }
    {
        self.version
    }

    /// The flags. If the lowest bit is set, the origin is announced.
    #[inline(always)]
    pub fn flags(&self) -> u8
        ensures { result ≡ self.now.flags }
    {
        self.flags
    }

    /// The origin. Host bits of its address are cleared, and it has a max length.
    #[inline(always)]
    pub fn origin(&self) -> RouteOrigin
        ensures { result ≡ self.now.origin }
    {
        self.origin
    }

    /// The view of the prefix unit of this family at the front of the input.
    #[inline(always)]
    pub(crate) fn first<U: PrefixUnit>(input: &[u8]) -> Result<Self, ViewFault>
        requires header { 8 ≤ length input.now }
        requires kind { type_field input.now ≡ prefix_type U.family }
        ensures size { IfOk result (λ _. length_field input.now ≡ prefix_size U.family) }
        ensures within { IfOk result (λ _. prefix_size U.family ≤ length input.now) }
        ensures view { IfOk result (λ v. IsOriginOf U.family v (first_unit input.now)) }
        ensures fault { IfErr result (λ e. IsFirstFault input.now e) }
    {
        if u32_at(input, 4) != U::size() {
            return Err(ViewFault::UnitLength);
        }
        match first_unit(input, U::LENGTH) {
            Ok(unit) => match OriginView::of::<U>(unit) {
                Ok(view) => Ok(view),
                Err(rule) => Err(ViewFault::Prefix(rule)),
            },
            Err(e) => Err(e),
        }
    }

    /// The view of a prefix unit of this family.
    #[inline(always)]
    fn of<U: PrefixUnit>(unit: &[u8]) -> Result<Self, PrefixRule>
        requires { length unit.now ≡ prefix_size U.family }
        ensures view { IfOk result (λ v. ShowsOrigin v (prefix_at U.family unit.now)) }
        ensures lengths { IfOk result
            (λ _. LengthsAgree (prefix_unit (prefix_at U.family unit.now))) }
        ensures rule { IfErr result
            (λ r. rule_of (prefix_unit (prefix_at U.family unit.now)) ≡ Some r) }
    {
        match U::prefix_of(&unit[12..], unit[9], unit[10]) {
            Ok(prefix) => {
                let asn = Asn::from_u32(u32_at(unit, U::LENGTH - 4));
                Ok(OriginView {
                    version: unit[0],
                    flags: unit[8],
                    origin: RouteOrigin::new(prefix, asn),
                })
            }
            Err(rule) => Err(rule),
        }
    }

    /// Writes the form of the unit's meaning.
    #[inline(always)]
    pub(crate) fn write_form<W: Sink>(&self, writer: &mut W) -> Result<(), ViewFault>
        ensures { WritesPiece W.Sink result writer.old writer.new
            (form_of (origin_meaning self.now)) }
    {
        let flags = Action::from_flags(self.flags).into_flags();
        let prefix = self.origin.prefix.prefix();
        if prefix.is_v4() {
            let unit = Ipv4Prefix::from_origin(self.version, flags, self.origin);
            put_piece(writer, unit.as_ref())
        } else {
            let unit = Ipv6Prefix::from_origin(self.version, flags, self.origin);
            put_piece(writer, unit.as_ref())
        }
    }
}
