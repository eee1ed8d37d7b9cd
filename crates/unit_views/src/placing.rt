//! Forms of views, written into a slice.

ghost use Rattle.std.specs.Prelude.{◌≡◌, ◌+◌, ◌<◌, ◌^◌, ◌∷◌, ◌++◌, length};
ghost use Rattle.rtr_base.specs.Actions.{flags_of};
ghost use Rattle.rtr_base.specs.Bytes.{be};
ghost use Rattle.rtr_payload.specs.Payloads.{Meaning};
ghost use Rattle.rtr_payload.specs.AspaUnits.{aspa_at};
ghost use Rattle.rtr_payload.specs.KeyUnits.{key_at};
ghost use Rattle.rtr_payload.specs.UnitFields.{key_unit, aspa_unit, meaning};
ghost use Rattle.rtr_payload.specs.Units.{form_of};
ghost use Rattle.unit_views.specs.Origins.{origin_meaning};
ghost use Rattle.unit_views.specs.Placing.{Places};
ghost use Rattle.unit_views.specs.Views.{ViewMeans, version_shown, view_form, view_form_in};

use crate::aspa::AspaView;
use crate::origin::OriginView;
use crate::router_key::RouterKeyView;
use crate::view::UnitView;
use rtr_base::action::Action;
use rtr_payload::pdu::{Aspa, PrefixUnit, RouterKey, flagged_header};
use rtr_units::prefixes::{Ipv4Prefix, Ipv6Prefix};
use rtr_units::unit::Unit;

/// Writes two pieces to the front of the output, one after the other, and returns their length in
/// bytes. If the output is too short, it returns none and leaves the output unchanged.
#[inline(always)]
pub fn place(front: &[u8], back: &[u8], output: &mut [u8]) -> Option<usize>
    ensures { Places result (front.now ++ back.now) output.old output.new }
{
    let size = front.len() + back.len();
    if output.len() < size {
        return None;
    }
    output[..front.len()].copy_from_slice(front);
    output[front.len()..size].copy_from_slice(back);
    Some(size)
}

/// Writes a router key or an ASPA unit: a header made from the fields, and then `rest`.
#[inline(always)]
fn place_flagged(
    version: u8,
    pdu: u8,
    action: Action,
    rest: &[u8],
    output: &mut [u8],
) -> Option<usize>
    requires size { 8 + length rest.now < 2 ^ 32 }
    ensures form { Places result
        ((version ∷ pdu ∷ flags_of action ∷ 0 ∷ be (8 + length rest.now) 4) ++ rest.now)
        output.old output.new }
{
    let size = 8 + rest.len() as u32;
    let header = flagged_header(version, pdu, action.into_flags(), size);
    place(&header, rest, output)
}

impl OriginView {
    /// Writes the form in this version of the unit's meaning.
    #[inline(always)]
    fn place_form_in(&self, version: u8, output: &mut [u8]) -> Option<usize>
        ensures { Places result (form_of (record (origin_meaning self.now) { version = version }))
            output.old output.new }
    {
        let flags = Action::from_flags(self.flags()).into_flags();
        let origin = self.origin();
        let prefix = origin.prefix.prefix();
        if prefix.is_v4() {
            let unit = Ipv4Prefix::from_origin(version, flags, origin);
            place(unit.as_ref(), &[], output)
        } else {
            let unit = Ipv6Prefix::from_origin(version, flags, origin);
            place(unit.as_ref(), &[], output)
        }
    }
}

impl<'a> RouterKeyView<'a> {
    /// Writes the form in this version of the unit's meaning.
    #[inline(always)]
    fn place_form_in(&self, version: u8, output: &mut [u8]) -> Option<usize>
        ensures { Places result
            (form_of (record (meaning (key_unit (key_at self.now.unit.now))) { version = version }))
            output.old output.new }
    {
        let action = Action::from_flags(self.flags());
        let rest = &self.unit[8..];
        place_flagged(version, RouterKey::PDU, action, rest, output)
    }
}

impl<'a> AspaView<'a> {
    /// Writes the form in this version of the unit's meaning: a withdrawal has no providers.
    #[inline(always)]
    fn place_form_in(&self, version: u8, output: &mut [u8]) -> Option<usize>
        ensures { Places result (form_of
            (record (meaning (aspa_unit (aspa_at self.now.unit.now))) { version = version }))
            output.old output.new }
    {
        let action = Action::from_flags(self.flags());
        let kept = match action {
            Action::Announce => self.unit.len(),
            Action::Withdraw => Aspa::FIXED,
        };
        let rest = &self.unit[8..kept];
        place_flagged(version, Aspa::PDU, action, rest, output)
    }
}

impl<'a> UnitView<'a> {
    /// The version of the protocol: 0 for an end of data without timing parameters.
    #[inline(always)]
    pub fn version(&self) -> u8
        ensures shown { result ≡ version_shown self.now }
        ensures means { (m : Meaning) → ViewMeans self.now m → result ≡ m.version }
    {
        match self {
            UnitView::Origin(view) => view.version(),
            UnitView::RouterKey(view) => view.version(),
            UnitView::Aspa(view) => view.version(),
            UnitView::End(end) => end.version(),
        }
    }

    /// Writes the form to the front of the output, as `write_form` does to a writer, and returns
    /// its length in bytes. If the output is too short, it returns none and leaves the output
    /// unchanged.
    #[inline(always)]
    pub fn place_form(&self, output: &mut [u8]) -> Option<usize>
        ensures { Places result (view_form self.now) output.old output.new }
    {
        self.place_form_in(self.version(), output)
    }

    /// Writes the form in this version to the front of the output, as `place_form` does. An end of
    /// data keeps its version.
    #[inline(always)]
    pub fn place_form_in(&self, version: u8, output: &mut [u8]) -> Option<usize>
        ensures form { Places result (view_form_in version self.now) output.old output.new }
        ensures means { (m : Meaning) → ViewMeans self.now m →
            Places result (form_of (record m { version = version })) output.old output.new }
    {
        match self {
            UnitView::Origin(view) => view.place_form_in(version, output),
            UnitView::RouterKey(view) => view.place_form_in(version, output),
            UnitView::Aspa(view) => view.place_form_in(version, output),
            UnitView::End(end) => place(end.as_ref(), &[], output),
        }
    }
}
