//! Laws of views.

ghost use Rattle.std.specs.Prelude.{◌≡◌, ℕ, List};
ghost use Rattle.rtr_units.specs.End.{EndMeaning, IsEnd};
ghost use Rattle.rtr_payload.specs.Payloads.{Meaning};
ghost use Rattle.rtr_payload.specs.UnitFields.{HasFields, LengthsAgree, meaning};
ghost use Rattle.rtr_payload.specs.Units.{IsUnit, form_of};
ghost use Rattle.rtr_payload.specs.UnitBytes.{unit_bytes, unit_fields};
ghost use Rattle.rtr_payload.specs.declared.pdu.payload.Payload.{Payload};
ghost use Rattle.unit_views.specs.Views.{IsViewOf, ViewMeans, view_form};
ghost use Rattle.unit_views.specs.declared.view.UnitView.{UnitView};

/// A view of a payload unit means what the unit means, and its form is the written form of that
/// meaning.
pub fn views_of_units()
    ensures means { (v : UnitView) (b : List ℕ) (m : Meaning) →
        IsViewOf v b → ViewMeans v m → IsUnit b m }
    ensures meant { (v : UnitView) (b : List ℕ) (m : Meaning) →
        IsViewOf v b → IsUnit b m → ViewMeans v m }
    ensures form { (v : UnitView) (m : Meaning) → ViewMeans v m → view_form v ≡ form_of m }
    ensures end { (v : UnitView) (b : List ℕ) (e : EndMeaning) →
        IsViewOf v b → IsEnd b e → view_form v ≡ b }
{}

/// The view of a payload unit and the unit read from the same bytes mean the same.
pub fn views_and_units()
    ensures { (v : UnitView) (u : Payload) →
        IsViewOf v (unit_bytes u) → HasFields (unit_bytes u) (unit_fields u) →
        LengthsAgree (unit_fields u) × ViewMeans v (meaning (unit_fields u)) }
{}
