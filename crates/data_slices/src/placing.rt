//! Units of a delta, written into a slice.

ghost use Rattle.std.specs.Prelude.{◌≡◌, ◌∷◌, ◌++◌, ◌≤◌, [], length};
ghost use Rattle.rtr_base.specs.Actions.{flags_of};
ghost use Rattle.rtr_base.specs.Bytes.{be};
ghost use Rattle.rtr_base.specs.declared.action.Action.TheVariants.{Announce, Withdraw};
ghost use Rattle.rtr_payload.specs.AspaUnits.{aspa_at};
ghost use Rattle.rtr_payload.specs.KeyUnits.{key_at};
ghost use Rattle.rtr_payload.specs.Meanings.{origin_of};
ghost use Rattle.rtr_payload.specs.Payloads.{aspa, key};
ghost use Rattle.rtr_payload.specs.Units.{form, form_of};
ghost use Rattle.rtr_wire.specs.Sequences.{in_version};
ghost use Rattle.data_memory.specs.Data.{withdrawal};
ghost use Rattle.data_memory.specs.Deltas.{unit_of};
ghost use Rattle.unit_views.specs.Placing.{Places};
ghost use Rattle.data_slices.specs.Canonical.{change};
ghost use Rattle.data_slices.specs.Items.{IsShort, meant};

use crate::item::PayloadView;
use rtr_base::action::Action;
use rtr_payload::pdu::{Aspa, PrefixUnit, RouterKey, flagged_header};
use rtr_units::prefixes::{Ipv4Prefix, Ipv6Prefix};
use rtr_units::unit::Unit;
use unit_views::aspa::AspaView;
use unit_views::origin::OriginView;
use unit_views::placing::place;
use unit_views::router_key::RouterKeyView;
use unit_views::view::UnitView;

/// Writes the unit of this version that withdraws the origin.
#[inline(always)]
fn withdraw_origin(view: &OriginView, version: u8, output: &mut [u8]) -> Option<usize>
    ensures { Places result (form version (flags_of Withdraw) (origin_of view.now.origin))
        output.old output.new }
{
    let flags = Action::Withdraw.into_flags();
    let origin = view.origin();
    if origin.prefix.prefix().is_v4() {
        let unit = Ipv4Prefix::from_origin(version, flags, origin);
        place(unit.as_ref(), &[], output)
    } else {
        let unit = Ipv6Prefix::from_origin(version, flags, origin);
        place(unit.as_ref(), &[], output)
    }
}

/// The bytes before the key info in the unit of this version that withdraws the key.
#[inline(always)]
fn key_front(view: &RouterKeyView<'_>, version: u8) -> [u8; 32]
    requires { length (key_at view.now.unit.now).key.info ≤ 65503 }
    ensures { result ++ (key_at view.now.unit.now).key.info ≡
        form version (flags_of Withdraw) (key (key_at view.now.unit.now).key) }
{
    let size = (RouterKey::FIXED + view.key_info().len()) as u32;
    let header = flagged_header(version, RouterKey::PDU, Action::Withdraw.into_flags(), size);
    let mut front = [0; 32];
    front[..8].copy_from_slice(&header);
    front[8..28].copy_from_slice(&view.key_identifier());
    front[28..].copy_from_slice(&view.asn().into_u32().to_be_bytes());
    front
}

/// Writes the unit of this version that withdraws the ASPA of the customer: without providers.
#[inline(always)]
fn withdraw_aspa(view: &AspaView<'_>, version: u8, output: &mut [u8]) -> Option<usize>
    ensures { Places result (form version (flags_of Withdraw)
        (aspa (record { customer = (aspa_at view.now.unit.now).aspa.customer; providers = [] })))
        output.old output.new }
{
    let header = flagged_header(version, Aspa::PDU, Action::Withdraw.into_flags(), 12);
    place(&header, &view.customer().into_u32().to_be_bytes(), output)
}

/// Writes the unit of this version that withdraws what the viewed unit announces.
#[inline(always)]
fn place_withdrawal(view: &PayloadView<'_>, version: u8, output: &mut [u8]) -> Option<usize>
    requires { IsShort view.now }
    ensures { Places result (form_of (unit_of version (withdrawal (meant view.now).payload)))
        output.old output.new }
{
    match view {
        PayloadView::Origin(view) => withdraw_origin(view, version, output),
        PayloadView::RouterKey(view) => place(&key_front(view, version), view.key_info(), output),
        PayloadView::Aspa(view) => withdraw_aspa(view, version, output),
    }
}

/// Writes the unit as it is.
#[inline(always)]
pub(crate) fn place_unit(view: &PayloadView<'_>, output: &mut [u8]) -> Option<usize>
    ensures { Places result (form_of (meant view.now)) output.old output.new }
{
    match view {
        PayloadView::Origin(view) => UnitView::Origin(*view).place_form(output),
        PayloadView::RouterKey(view) => UnitView::RouterKey(*view).place_form(output),
        PayloadView::Aspa(view) => UnitView::Aspa(*view).place_form(output),
    }
}

/// Writes the viewed unit, in canonical form and in this version.
#[inline(always)]
fn place_unit_in(view: &PayloadView<'_>, version: u8, output: &mut [u8]) -> Option<usize>
    ensures { Places result (form_of (in_version version (meant view.now)))
        output.old output.new }
{
    match view {
        PayloadView::Origin(view) => UnitView::Origin(*view).place_form_in(version, output),
        PayloadView::RouterKey(view) => UnitView::RouterKey(*view).place_form_in(version, output),
        PayloadView::Aspa(view) => UnitView::Aspa(*view).place_form_in(version, output),
    }
}

/// Writes the unit of this version with the viewed unit's payload that announces or withdraws it.
/// The viewed unit announces it.
#[inline(always)]
pub(crate) fn place_change(
    view: &PayloadView<'_>,
    version: u8,
    action: Action,
    output: &mut [u8],
) -> Option<usize>
    requires announces { (meant view.now).action ≡ Announce }
    requires short { IsShort view.now }
    ensures { Places result (form_of (unit_of version (change action (meant view.now).payload)))
        output.old output.new }
{
    match action {
        Action::Announce => place_unit_in(view, version, output),
        Action::Withdraw => place_withdrawal(view, version, output),
    }
}
