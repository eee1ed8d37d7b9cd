//! Laws of the net effect of changes.

ghost use Rattle.std.specs.Prelude.{◌≡◌, ◌≢◌, ◌≤◌, ◌∷◌, [], ℕ, List, Option, Result, Ok, Err};
ghost use Rattle.std.specs.Prelude.{false, true, length};
ghost use Rattle.rtr_units.specs.End.{EndMeaning, end_list};
ghost use Rattle.rtr_payload.specs.Payloads.{Payload};
ghost use Rattle.data_memory.specs.Changes.{after_all};
ghost use Rattle.data_memory.specs.Data.{Change, IsData, announcement, has_name, takes_place};
ghost use Rattle.data_memory.specs.Data.{withdrawal};
ghost use Rattle.data_memory.specs.declared.change_error.ChangeError.TheVariants as refusals;
ghost use Rattle.data_slices.specs.Canonical.{PlacesFront};
ghost use Rattle.data_slices.specs.Net.{AreDecided, AreLinked, Nets, of_name};
ghost use Rattle.data_slices.specs.Order.{LeadsAlike, Orders, RefusesOrder, Sends, WritesOrder};
ghost use Rattle.data_slices.specs.declared.order_fault.OrderFault.{OrderFault};
ghost use Rattle.data_slices.specs.declared.order_fault.OrderFault.TheVariants.{Duplicate, Unknown};
ghost use Rattle.data_slices.specs.declared.order_fault.OrderFault.TheVariants.{NoRoom};

/// If changes are all allowed over some data, one after the other, each may follow the previous one
/// of its name; and unless their net effect depends on the data, it leads to the same data.
pub fn what_changes_come_to()
    ensures linked { (cs : List Change) (d made : List Payload) → IsData d →
        after_all cs (Ok d) ≡ Ok made → (p : Payload) → AreLinked (of_name p cs) }
    ensures leads { (cs ns : List Change) (d made : List Payload) → IsData d →
        after_all cs (Ok d) ≡ Ok made → AreDecided cs → Nets cs ns →
        after_all ns (Ok d) ≡ Ok made }
{}

/// If the changes of an input are all allowed over some data, one after the other, the output of
/// `order_into` leads to the same data; and it never refuses one of them as announced or withdrawn
/// twice. An output as long as the input always suffices.
pub fn changes_in_order()
    ensures leads { (n : Option ℕ) (input : List ℕ) (places : ℕ) (cs : List Change)
        (e : EndMeaning) (d made : List Payload) (before after : List ℕ) →
        WritesOrder n input places before after → Sends input cs e → IsData d →
        after_all cs (Ok d) ≡ Ok made → LeadsAlike n e d made before after }
    ensures not_duplicate { (input : List ℕ) (places o : ℕ) (cs : List Change) (e : EndMeaning)
        (d made : List Payload) → RefusesOrder (Duplicate o) input places → Sends input cs e →
        IsData d → after_all cs (Ok d) ≡ Ok made → ⊥ }
    ensures not_unknown { (input : List ℕ) (places o : ℕ) (cs : List Change) (e : EndMeaning)
        (d made : List Payload) → RefusesOrder (Unknown o) input places → Sends input cs e →
        IsData d → after_all cs (Ok d) ≡ Ok made → ⊥ }
    ensures fits { (r : Result ℕ OrderFault) (input : List ℕ) (places : ℕ)
        (before after : List ℕ) → Orders r input places before after →
        length input ≤ length before → r ≢ Err NoRoom }
{}

/// `order_into` reads no data, so that it hides some changes that data don't allow. A withdrawal
/// and then an announcement of a payload, or the other way round, have no net effect, which all
/// data allow: just the end of data is written. But the first of these changes is refused by data
/// without the payload, or by data with it. Such changes of ASPAs are written, or refused as
/// undecided. `apply_in_order` refuses what the data at hand don't allow.
pub fn changes_that_come_to_nothing()
    ensures withdrawn { (n : Option ℕ) (input : List ℕ) (places : ℕ) (p : Payload)
        (e : EndMeaning) (before after : List ℕ) → WritesOrder n input places before after →
        Sends input (withdrawal p ∷ announcement p ∷ []) e → takes_place p ≡ false →
        PlacesFront n (end_list e) before after }
    ensures announced { (n : Option ℕ) (input : List ℕ) (places : ℕ) (p : Payload)
        (e : EndMeaning) (before after : List ℕ) → WritesOrder n input places before after →
        Sends input (announcement p ∷ withdrawal p ∷ []) e → takes_place p ≡ false →
        PlacesFront n (end_list e) before after }
    ensures unknown { (p : Payload) (d : List Payload) → has_name d p ≡ false →
        after_all (withdrawal p ∷ announcement p ∷ []) (Ok d) ≡ Err refusals.Unknown }
    ensures duplicate { (p : Payload) (d : List Payload) → has_name d p ≡ true →
        takes_place p ≡ false →
        after_all (announcement p ∷ withdrawal p ∷ []) (Ok d) ≡ Err refusals.Duplicate }
{}
