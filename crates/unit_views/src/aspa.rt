//! Views of ASPA units (as in the Rust crate).

ghost use Rattle.std.specs.Prelude.{◌≡◌, ◌≤◌, length, take, drop};
ghost use Rattle.std.specs.Prelude.{IfOk, IfErr};
ghost use Rattle.rtr_units.specs.Header.{version_field, type_field};
ghost use Rattle.rtr_units.specs.Reading.{IsWhole, of_type};
ghost use Rattle.rtr_payload.specs.AspaUnits.{aspa_at};
ghost use Rattle.rtr_payload.specs.UnitKinds.{variable_unit};
ghost use Rattle.rtr_payload.specs.UnitFields.{aspa_unit, meaning};
ghost use Rattle.rtr_payload.specs.Units.{form_of};
ghost use Rattle.unit_views.specs.PrivateFirst.{IsFirstUnit};
ghost use Rattle.unit_views.specs.Faults.{IsFirstFault, WritesPiece};

use crate::fault::ViewFault;
use crate::form::put_flagged;
use crate::front::{first_unit, size_at};
use rtr_base::action::Action;
use rtr_base::asn::Asn;
use rtr_payload::pdu::Aspa;
use rtr_units::numbers::u32_at;
use rtr_units::source::Sink;

/// An ASPA unit that lies in a slice.
#[derive(Clone, Copy, Debug)]
pub struct AspaView<'a> {
    pub(crate) unit: &'a [u8],
    ghost whole: { IsWhole (of_type 11 (variable_unit 11)) unit.now },
    ghost least: { 12 ≤ length unit.now },
    ghost most: { length unit.now ≤ 65535 },
}

impl<'a> AspaView<'a> {
    /// The version of the protocol.
    #[inline(always)]
    pub fn version(&self) -> u8
        ensures { result ≡ version_field self.now.unit.now }
    {
        self.unit[0]
    }

    /// The flags. If the lowest bit is set, the ASPA is announced.
    #[inline(always)]
    pub fn flags(&self) -> u8
        ensures { result ≡ (aspa_at self.now.unit.now).flags }
    {
        self.unit[2]
    }

    /// The customer: the autonomous system whose providers these are.
    #[inline(always)]
    pub fn customer(&self) -> Asn
        ensures { result ≡ (aspa_at self.now.unit.now).aspa.customer }
    {
        Asn::from_u32(u32_at(self.unit, 8))
    }

    /// The providers, as in the input: four bytes each, also in a withdrawal.
    #[inline(always)]
    pub fn providers(&self) -> &'a [u8]
        ensures { result.now ≡ drop 12 self.now.unit.now }
    {
        let (_, providers) = self.unit.split_at(Aspa::FIXED);
        providers
    }

    /// The bytes of the whole unit, as in the input.
    #[inline(always)]
    pub(crate) fn unit(&self) -> &'a [u8]
        ensures { result.now ≡ self.now.unit.now }
    {
        self.unit
    }

    /// The view of the ASPA unit at the front of the input.
    #[inline(always)]
    pub(crate) fn first(input: &'a [u8]) -> Result<Self, ViewFault>
        requires header { 8 ≤ length input.now }
        requires kind { type_field input.now ≡ 11 }
        ensures view { IfOk result (λ v. IsFirstUnit input.now v.unit.now) }
        ensures within { IfOk result (λ v. length v.unit.now ≤ length input.now) }
        ensures fault { IfErr result (λ e. IsFirstFault input.now e) }
    {
        let size = match size_at(input) {
            Ok(size) => size,
            Err(e) => return Err(e),
        };
        if size < Aspa::FIXED || size % 4 != 0 {
            return Err(ViewFault::UnitLength);
        }
        if size == Aspa::FIXED && input[2] % 2 == 1 {
            return Err(ViewFault::EmptyProviders);
        }
        match first_unit(input, size) {
            Ok(unit) => Ok(AspaView { unit }),
            Err(e) => Err(e),
        }
    }

    /// Writes the form of the unit's meaning: a withdrawal has no providers.
    #[inline(always)]
    pub(crate) fn write_form<W: Sink>(&self, writer: &mut W) -> Result<(), ViewFault>
        ensures { WritesPiece W.Sink result writer.old writer.new
            (form_of (meaning (aspa_unit (aspa_at self.now.unit.now)))) }
    {
        let action = Action::from_flags(self.flags());
        let kept = match action {
            Action::Announce => self.unit.len(),
            Action::Withdraw => Aspa::FIXED,
        };
        put_flagged(
            writer,
            self.version(),
            Aspa::PDU,
            action,
            &self.unit[8..kept],
        )
    }
}
