//! Laws of changes applied to data in the order in which they came.

ghost use Rattle.std.specs.Prelude.{◌<◌, ◌≡◌, ◌≢◌, ◌≤◌, ◌+◌, ℕ, List, Some, None, Result, Ok, Err};
ghost use Rattle.std.specs.Prelude.{Option, length};
ghost use Rattle.rtr_units.specs.End.{EndMeaning};
ghost use Rattle.rtr_payload.specs.Payloads.{Payload};
ghost use Rattle.data_memory.specs.Applying.{IsApplicable};
ghost use Rattle.data_memory.specs.Changes.{after_all};
ghost use Rattle.data_memory.specs.Data.{Change};
ghost use Rattle.data_memory.specs.declared.change_error.ChangeError.{ChangeError};
ghost use Rattle.data_memory.specs.declared.change_error.ChangeError.TheVariants as refusals;
ghost use Rattle.data_slices.specs.Apply.{RefusedAt, data_form};
ghost use Rattle.data_slices.specs.Canonical.{HoldsData, PlacesFront};
ghost use Rattle.data_slices.specs.InOrder.{AppliesInOrder, IsMade, IsRefusedFor};
ghost use Rattle.data_slices.specs.Order.{Sends};
ghost use Rattle.data_slices.specs.declared.in_order_fault.InOrderFault.{InOrderFault};
ghost use Rattle.data_slices.specs.declared.in_order_fault.InOrderFault.TheVariants.{Duplicate};
ghost use Rattle.data_slices.specs.declared.in_order_fault.InOrderFault.TheVariants.{NoRoom};
ghost use Rattle.data_slices.specs.declared.in_order_fault.InOrderFault.TheVariants.{Unknown};

/// The result of `apply_in_order` is that of applying the changes one after the other, and so that
/// of `Data::apply`. If it writes data, all changes are allowed and lead to these data, and an
/// output of that length suffices; if it refuses a change, that is the first refused one. Given
/// data and changes of one version and one session, all of them allowed, it refuses nothing, and an
/// output as long as both slices together suffices. If it writes everything, the output is data in
/// canonical form, whatever follows it.
pub fn changes_as_they_came()
    ensures writes { (n places : ℕ) (old input before after : List ℕ) (d : List Payload)
        (cs : List Change) (end end' : EndMeaning) → HoldsData old d end → Sends input cs end' →
        AppliesInOrder (Ok n) old input places before after →
        (d' : List Payload) × (after_all cs (Ok d) ≡ Ok d')
        × PlacesFront (Some n) (data_form d' end') before after }
    ensures no_room { (places : ℕ) (old input before after : List ℕ) (d : List Payload)
        (cs : List Change) (end end' : EndMeaning) → HoldsData old d end → Sends input cs end' →
        AppliesInOrder (Err NoRoom) old input places before after →
        (d' : List Payload) × (after_all cs (Ok d) ≡ Ok d')
        × PlacesFront None (data_form d' end') before after }
    ensures duplicate { (o places : ℕ) (old input before after : List ℕ) (d : List Payload)
        (cs : List Change) (end end' : EndMeaning) → HoldsData old d end → Sends input cs end' →
        AppliesInOrder (Err (Duplicate o)) old input places before after →
        RefusedAt o refusals.Duplicate input d cs end'.version
        × (after_all cs (Ok d) ≡ Err refusals.Duplicate) }
    ensures unknown { (o places : ℕ) (old input before after : List ℕ) (d : List Payload)
        (cs : List Change) (end end' : EndMeaning) → HoldsData old d end → Sends input cs end' →
        AppliesInOrder (Err (Unknown o)) old input places before after →
        RefusedAt o refusals.Unknown input d cs end'.version
        × (after_all cs (Ok d) ≡ Err refusals.Unknown) }
    ensures makes_data { (n places : ℕ) (old input before after : List ℕ) (d d' : List Payload)
        (cs : List Change) (end end' : EndMeaning) → HoldsData old d end → Sends input cs end' →
        end.version ≡ end'.version → after_all cs (Ok d) ≡ Ok d' →
        AppliesInOrder (Ok n) old input places before after → HoldsData after d' end' }
    ensures refuses_none { (r : Result ℕ InOrderFault) (places : ℕ)
        (old input before after : List ℕ) (d d' : List Payload) (cs : List Change)
        (end end' : EndMeaning) → HoldsData old d end → Sends input cs end' →
        end.version ≡ end'.version → end.session ≡ end'.session → length cs ≤ places →
        after_all cs (Ok d) ≡ Ok d' → AppliesInOrder r old input places before after →
        IsMade r (data_form d' end') before after }
    ensures refuses { (r : Result ℕ InOrderFault) (places : ℕ)
        (old input before after : List ℕ) (d : List Payload) (cs : List Change)
        (end end' : EndMeaning) (why : ChangeError) → HoldsData old d end → Sends input cs end' →
        end.version ≡ end'.version → end.session ≡ end'.session → length cs ≤ places →
        after_all cs (Ok d) ≡ Err why → AppliesInOrder r old input places before after →
        IsRefusedFor r why × (after ≡ before) }
    ensures fits { (r : Result ℕ InOrderFault) (places : ℕ) (old input before after : List ℕ) →
        AppliesInOrder r old input places before after →
        length old + length input ≤ length before → r ≢ Err NoRoom }
{}

/// `apply_in_order` and `Data::apply` agree on the same data and changes of one version: what
/// `Data::apply` applies, with any limit, is written; and what is written, `Data::apply` applies
/// with a limit above the number of changes.
pub fn changes_as_data_applies_them()
    ensures written { (r : Result ℕ InOrderFault) (limit places : ℕ)
        (old input b before after : List ℕ) (d d' : List Payload) (cs : List Change)
        (end end' : EndMeaning) → HoldsData old d end → Sends input cs end' →
        end.version ≡ end'.version → end.session ≡ end'.session → length cs ≤ places →
        IsApplicable limit input b end' d d' → AppliesInOrder r old input places before after →
        IsMade r (data_form d' end') before after }
    ensures applied { (n limit places : ℕ) (old input before after : List ℕ) (d : List Payload)
        (cs : List Change) (end end' : EndMeaning) → HoldsData old d end → Sends input cs end' →
        length cs < limit → AppliesInOrder (Ok n) old input places before after →
        (d' : List Payload) × (b : List ℕ) × IsApplicable limit input b end' d d'
        × PlacesFront (Some n) (data_form d' end') before after }
{}
