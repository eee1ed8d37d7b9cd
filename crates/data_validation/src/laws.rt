//! Laws of origin validation.

ghost use Rattle.std.specs.Prelude.{◌≡◌, ◌↔◌, ℕ, List, None, Ok, Option};
ghost use Rattle.rtr_base.specs.Addresses.{PrefixParts};
ghost use Rattle.rtr_units.specs.End.{EndMeaning};
ghost use Rattle.rtr_units.specs.PrefixUnits.{OriginParts};
ghost use Rattle.rtr_payload.specs.Payloads.{Payload};
ghost use Rattle.data_memory.specs.Changes.{after_all};
ghost use Rattle.data_memory.specs.Data.{Change};
ghost use Rattle.data_slices.specs.Apply.{AppliesChanges};
ghost use Rattle.data_slices.specs.Canonical.{HoldsData};
ghost use Rattle.data_slices.specs.CanonicalChanges.{HoldsChanges};
ghost use Rattle.data_slices.specs.InOrder.{AppliesInOrder};
ghost use Rattle.data_slices.specs.Order.{Sends};
ghost use Rattle.data_validation.specs.Covering.{IsMismatch};
ghost use Rattle.data_validation.specs.Validity.{Covers, IsValidity, Matches};
ghost use Rattle.data_validation.specs.declared.mismatch.Mismatch.{Mismatch};
ghost use Rattle.data_validation.specs.declared.validity.Validity.{Validity};

/// A route has one validity over given payloads: so `validate`, `validate_by_walk` and `validate`
/// of a set of the same payloads agree.
pub fn one_validity()
    ensures { (d : List Payload) → (p : PrefixParts) → (asn : ℕ) → (x y : Validity) →
        IsValidity d p asn x → IsValidity d p asn y → x ≡ y }
{}

/// A VRP that covers a route matches it if and only if `mismatch` returns no reason.
pub fn reasons()
    ensures { (v : OriginParts) → (p : PrefixParts) → (asn : ℕ) → (m : Option Mismatch) →
        Covers v p → IsMismatch m v p asn → (m ≡ None) ↔ Matches v p asn }
{}

/// If `apply_into` or `apply_in_order` writes the whole result of changes, `validate` returns over
/// it, with its tables, what a set returns after `Data::apply` has applied the same changes to the
/// same data, one after the other.
pub fn validity_of_changes()
    ensures canonical { (n : ℕ) → (old input before after : List ℕ) → (d d' : List Payload) →
        (cs : List Change) → (end end' : EndMeaning) → (p : PrefixParts) → (asn : ℕ) →
        (by_slice by_set : Validity) →
        HoldsData old d end → HoldsChanges input cs end' → after_all cs (Ok d) ≡ Ok d' →
        AppliesChanges (Ok n) old input before after →
        ((e : List Payload) → (end : EndMeaning) → HoldsData after e end →
        IsValidity e p asn by_slice) →
        IsValidity d' p asn by_set → by_slice ≡ by_set }
    ensures in_order { (n places : ℕ) → (old input before after : List ℕ) →
        (d d' : List Payload) → (cs : List Change) → (end end' : EndMeaning) →
        (p : PrefixParts) → (asn : ℕ) → (by_slice by_set : Validity) →
        HoldsData old d end → Sends input cs end' → end.version ≡ end'.version →
        after_all cs (Ok d) ≡ Ok d' → AppliesInOrder (Ok n) old input places before after →
        ((e : List Payload) → (end : EndMeaning) → HoldsData after e end →
        IsValidity e p asn by_slice) →
        IsValidity d' p asn by_set → by_slice ≡ by_set }
{
    data_slices::laws::changes_in_slices();
    data_slices::in_order_laws::changes_as_they_came();
}
