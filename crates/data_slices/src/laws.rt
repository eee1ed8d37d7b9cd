//! Laws of data in slices.

ghost use Rattle.std.specs.Prelude.{◌≡◌, ◌≢◌, ◌≤◌, ◌+◌, ◌++◌, ℕ, List, [], Result, Ok, Err};
ghost use Rattle.std.specs.Prelude.{IsOk, length, max};
ghost use Rattle.rtr_payload.specs.Payloads.{Payload};
ghost use Rattle.rtr_units.specs.End.{EndMeaning};
ghost use Rattle.rtr_wire.specs.Sequences.{end_for};
ghost use Rattle.data_memory.specs.Changes.{after_all, changes};
ghost use Rattle.data_memory.specs.Data.{Change};
ghost use Rattle.data_slices.specs.Apply.{AppliesChanges, IsApplied, data_form};
ghost use Rattle.data_slices.specs.Canonical.{HoldsData};
ghost use Rattle.data_slices.specs.CanonicalChanges.{HoldsChanges};
ghost use Rattle.data_slices.specs.Delta.{ChangesBetween, Deltas, IsPlaced, delta_form};
ghost use Rattle.data_slices.specs.Flaws.{IsFlawOfChanges, IsFlawOfData};
ghost use Rattle.data_slices.specs.declared.fault.ApplyFault.{ApplyFault};
ghost use Rattle.data_slices.specs.declared.fault.ApplyFault.TheVariants as apply_faults;
ghost use Rattle.data_slices.specs.declared.fault.DeltaFault.{DeltaFault};
ghost use Rattle.data_slices.specs.declared.fault.DeltaFault.TheVariants as delta_faults;
ghost use Rattle.data_slices.specs.declared.fault.Flaw.{Flaw};

/// A slice holds at most one data, and the changes whose units `delta_into` writes lead from old
/// data to new.
pub fn data_in_slices()
    ensures one { (input : List ℕ) (d d' : List Payload) (end end' : EndMeaning) →
        HoldsData input d end → HoldsData input d' end' → (d ≡ d') × (end ≡ end') }
    ensures leads { (old new : List ℕ) (d d' : List Payload) (end end' : EndMeaning) →
        HoldsData old d end → HoldsData new d' end' →
        after_all (changes d d') (Ok d) ≡ Ok d' }
{}

/// `delta_into` never refuses two slices of data of one version and one session: it writes the
/// delta, or the beginning of it if the output is shorter. An output as long as both slices
/// together always suffices.
pub fn deltas_of_data()
    ensures written { (r : Result ℕ DeltaFault) (old new before after : List ℕ)
        (d d' : List Payload) (end end' : EndMeaning) →
        HoldsData old d end → HoldsData new d' end' →
        end.version ≡ end'.version → end.session ≡ end'.session →
        Deltas r old new before after → IsPlaced r (delta_form d d' end') before after }
    ensures fits { (r : Result ℕ DeltaFault) (old new before after : List ℕ) →
        Deltas r old new before after → length old + length new ≤ length before →
        r ≢ Err delta_faults.NoRoom }
    ensures room { (r : Result ℕ DeltaFault) (form before after : List ℕ) →
        IsPlaced r form before after → length form ≤ length before → IsOk r }
{}

/// `changes_between` never refuses two slices of data, whatever their versions and sessions: it
/// writes the changes in the higher of both versions, or the beginning of them if the output is
/// shorter. If one of the slices is empty, it announces or withdraws all of the other. An output as
/// long as both slices together always suffices.
pub fn changes_of_data()
    ensures written { (r : Result ℕ DeltaFault) (old new before after : List ℕ)
        (d d' : List Payload) (end end' : EndMeaning) →
        HoldsData old d end → HoldsData new d' end' →
        ChangesBetween r old new before after →
        IsPlaced r (delta_form d d' (end_for (max end.version end'.version) end')) before after }
    ensures announced { (r : Result ℕ DeltaFault) (new before after : List ℕ)
        (d : List Payload) (end : EndMeaning) → HoldsData new d end →
        ChangesBetween r [] new before after → IsPlaced r (delta_form [] d end) before after }
    ensures withdrawn { (r : Result ℕ DeltaFault) (old before after : List ℕ)
        (d : List Payload) (end : EndMeaning) → HoldsData old d end →
        ChangesBetween r old [] before after → IsPlaced r (delta_form d [] end) before after }
    ensures fits { (r : Result ℕ DeltaFault) (old new before after : List ℕ) →
        ChangesBetween r old new before after → length old + length new ≤ length before →
        r ≢ Err delta_faults.NoRoom }
{}

/// A slice holds at most one list of changes. If they have the version and the session of the data,
/// and all of them are allowed, one after the other, `apply_into` refuses nothing: it writes the
/// result of applying them, or the beginning of it if the output is shorter. An output as long as
/// both slices together always suffices; and if everything is written, the output is data in
/// canonical form, whatever follows it.
pub fn changes_in_slices()
    ensures one { (input : List ℕ) (cs ds : List Change) (end end' : EndMeaning) →
        HoldsChanges input cs end → HoldsChanges input ds end' → (cs ≡ ds) × (end ≡ end') }
    ensures applied { (r : Result ℕ ApplyFault) (old input before after : List ℕ)
        (d d' : List Payload) (cs : List Change) (end end' : EndMeaning) →
        HoldsData old d end → HoldsChanges input cs end' →
        end.version ≡ end'.version → end.session ≡ end'.session →
        after_all cs (Ok d) ≡ Ok d' → AppliesChanges r old input before after →
        IsApplied r (data_form d' end') before after }
    ensures fits { (r : Result ℕ ApplyFault) (old input before after : List ℕ) →
        AppliesChanges r old input before after → length old + length input ≤ length before →
        r ≢ Err apply_faults.NoRoom }
    ensures makes_data { (n : ℕ) (old input before after : List ℕ) (d d' : List Payload)
        (cs : List Change) (end end' : EndMeaning) →
        HoldsData old d end → HoldsChanges input cs end' → after_all cs (Ok d) ≡ Ok d' →
        AppliesChanges (Ok n) old input before after → HoldsData after d' end' }
    ensures room { (r : Result ℕ ApplyFault) (form before after : List ℕ) →
        IsApplied r form before after → length form ≤ length before → IsOk r }
{}

/// For two slices of data of one version and one session `delta_into` writes changes in canonical
/// form, whatever follows it, and `apply_into` turns the old data into the new by them: the units
/// that announce the new data, and their end of data.
pub fn deltas_in_slices()
    ensures canonical { (old new rest : List ℕ) (d d' : List Payload) (end end' : EndMeaning) →
        HoldsData old d end → HoldsData new d' end' → end.version ≡ end'.version →
        HoldsChanges (delta_form d d' end' ++ rest) (changes d d') end' }
    ensures makes_new { (r : Result ℕ ApplyFault) (old new rest before after : List ℕ)
        (d d' : List Payload) (end end' : EndMeaning) →
        HoldsData old d end → HoldsData new d' end' →
        end.version ≡ end'.version → end.session ≡ end'.session →
        AppliesChanges r old (delta_form d d' end' ++ rest) before after →
        IsApplied r (data_form d' end') before after }
{}

/// A slice has one first flaw: whichever call refuses it, the offset is the same.
pub fn flaws_in_slices()
    ensures one_of_data { (input : List ℕ) (f g : Flaw) →
        IsFlawOfData input f → IsFlawOfData input g → f.offset ≡ g.offset }
    ensures one_of_changes { (input : List ℕ) (f g : Flaw) →
        IsFlawOfChanges input f → IsFlawOfChanges input g → f.offset ≡ g.offset }
{}
