//! Views of router keys (RFC 8210 section 5.10).

ghost use Rattle.std.specs.Prelude.{◌≡◌, ◌≤◌, length, take, drop};
ghost use Rattle.std.specs.Prelude.{IfOk, IfErr};
ghost use Rattle.rtr_units.specs.Header.{version_field, type_field};
ghost use Rattle.rtr_units.specs.Reading.{IsWhole, of_type};
ghost use Rattle.rtr_payload.specs.KeyUnits.{key_at};
ghost use Rattle.rtr_payload.specs.UnitKinds.{variable_unit};
ghost use Rattle.rtr_payload.specs.UnitFields.{key_unit, meaning};
ghost use Rattle.rtr_payload.specs.Units.{form_of};
ghost use Rattle.unit_views.specs.PrivateFirst.{IsFirstUnit};
ghost use Rattle.unit_views.specs.Faults.{IsFirstFault, WritesPiece};

use crate::fault::ViewFault;
use crate::form::{cleared_header, put_both};
use crate::front::{first_unit, size_at};
use rtr_base::asn::Asn;
use rtr_payload::pdu::RouterKey;
use rtr_units::numbers::u32_at;
use rtr_units::source::Sink;

/// A router key that lies in a slice.
#[derive(Clone, Copy, Debug)]
pub struct RouterKeyView<'a> {
    pub(crate) unit: &'a [u8],
    ghost whole: { IsWhole (of_type 9 (variable_unit 9)) unit.now },
    ghost least: { 32 ≤ length unit.now },
    ghost most: { length unit.now ≤ 65535 },
}

impl<'a> RouterKeyView<'a> {
    /// The version of the protocol.
    #[inline(always)]
    pub fn version(&self) -> u8
        ensures { result ≡ version_field self.now.unit.now }
    {
        self.unit[0]
    }

    /// The flags. If the lowest bit is set, the key is announced.
    #[inline(always)]
    pub fn flags(&self) -> u8
        ensures { result ≡ (key_at self.now.unit.now).flags }
    {
        self.unit[2]
    }

    /// The subject key identifier.
    #[inline(always)]
    pub fn key_identifier(&self) -> [u8; 20]
        ensures { result ≡ (key_at self.now.unit.now).key.identifier }
    {
        let mut identifier = [0; 20];
        identifier.copy_from_slice(&self.unit[8..28]);
        identifier
    }

    /// The autonomous system of the key.
    #[inline(always)]
    pub fn asn(&self) -> Asn
        ensures { result ≡ (key_at self.now.unit.now).key.asn }
    {
        Asn::from_u32(u32_at(self.unit, 28))
    }

    /// The key info, as in the input.
    #[inline(always)]
    pub fn key_info(&self) -> &'a [u8]
        ensures { result.now ≡ (key_at self.now.unit.now).key.info }
    {
        let (_, key_info) = self.unit.split_at(RouterKey::FIXED);
        key_info
    }

    /// The bytes of the whole unit, as in the input.
    #[inline(always)]
    pub(crate) fn unit(&self) -> &'a [u8]
        ensures { result.now ≡ self.now.unit.now }
    {
        self.unit
    }

    /// The view of the router key at the front of the input.
    #[inline(always)]
    pub(crate) fn first(input: &'a [u8]) -> Result<Self, ViewFault>
        requires header { 8 ≤ length input.now }
        requires kind { type_field input.now ≡ 9 }
        ensures view { IfOk result (λ v. IsFirstUnit input.now v.unit.now) }
        ensures within { IfOk result (λ v. length v.unit.now ≤ length input.now) }
        ensures fault { IfErr result (λ e. IsFirstFault input.now e) }
    {
        let size = match size_at(input) {
            Ok(size) => size,
            Err(e) => return Err(e),
        };
        if size < RouterKey::FIXED {
            return Err(ViewFault::UnitLength);
        }
        match first_unit(input, size) {
            Ok(unit) => Ok(RouterKeyView { unit }),
            Err(e) => Err(e),
        }
    }

    /// Writes the form of the unit's meaning.
    #[inline(always)]
    pub(crate) fn write_form<W: Sink>(&self, writer: &mut W) -> Result<(), ViewFault>
        ensures { WritesPiece W.Sink result writer.old writer.new
            (form_of (meaning (key_unit (key_at self.now.unit.now)))) }
    {
        put_both(writer, &cleared_header(self.unit), &self.unit[8..])
    }
}
