//! Laws of histories, and of the answer to a serial query.

ghost use Rattle.std.specs.Prelude.{◌≡◌, ◌≤◌, ◌∷◌, ◌++◌, ℕ, List, Option, Some, Result, Ok, length};
ghost use Rattle.rtr_wire.specs.Sequences.{end_for};
ghost use Rattle.data_memory.specs.Deltas.{changes_for, data_for};
ghost use Rattle.data_slices.specs.Apply.{data_form};
ghost use Rattle.data_slices.specs.Canonical.{HoldsData};
ghost use Rattle.data_slices.specs.InOrder.{AppliesInOrder, IsMade};
ghost use Rattle.data_slices.specs.declared.in_order_fault.InOrderFault.{InOrderFault};
ghost use Rattle.data_history.specs.Life.{IsLife, IsUnsavedLife, StaysOnCircle};
ghost use Rattle.data_history.specs.Snapshots.{HoldsHistory, Snapshot, snapshot_at};
ghost use Rattle.data_history.specs.Stored.{IsStored};
ghost use Rattle.data_history.specs.Since.{WritesChangesSince};

use data_slices::in_order_laws::changes_as_they_came;

/// The output of `since_into` leads a router to the present data: applied with `apply_in_order` to
/// the part of the data of that serial number that the router's version has, it gives exactly the
/// part of the present data that the version has, with their end of data. None of the changes is
/// refused.
pub fn changes_since_lead_to_the_present()
    ensures leads { (history old changed unwritten before after : List ℕ)
        (v n m serial places : ℕ) (x y : Snapshot) (ys : List Snapshot) → v ≤ 2 →
        HoldsHistory history x ys → snapshot_at serial x ys ≡ Some y →
        WritesChangesSince v (Ok n) (snapshot_at serial x ys) x unwritten changed →
        HoldsData old (data_for v y.payloads) (end_for v y.end) →
        AppliesInOrder (Ok m) old changed places before after →
        HoldsData after (data_for v x.payloads) (end_for v x.end) }
    ensures refuses_none { (r : Result ℕ InOrderFault)
        (history old changed unwritten before after : List ℕ) (v n serial places : ℕ)
        (x y : Snapshot) (ys : List Snapshot) → v ≤ 2 →
        HoldsHistory history x ys → snapshot_at serial x ys ≡ Some y →
        WritesChangesSince v (Ok n) (snapshot_at serial x ys) x unwritten changed →
        HoldsData old (data_for v y.payloads) (end_for v y.end) →
        length (changes_for v y.payloads x.payloads) ≤ places →
        AppliesInOrder r old changed places before after →
        IsMade r (data_form (data_for v x.payloads) (end_for v x.end)) before after }
{
    changes_as_they_came();
}

/// A cache has one data at a serial number: each snapshot of a history is the only one of its
/// number.
pub fn one_data_for_a_serial_number()
    ensures { (b : List ℕ) (x y : Snapshot) (ys front others : List Snapshot) →
        HoldsHistory b x ys → x ∷ ys ≡ front ++ y ∷ others →
        snapshot_at y.end.serial x ys ≡ Some y }
{}

/// Whatever data are stored one after the other, the result is a history of the newest of their
/// snapshots, each unchanged, without a gap.
pub fn what_is_stored_is_a_history()
    ensures { (stored : List Snapshot) (b : List ℕ) → IsStored stored b →
        (x : Snapshot) × (ys : List Snapshot) × (others : List Snapshot) × HoldsHistory b x ys
        × (stored ≡ (x ∷ ys) ++ others) }
{}

/// Over any sequence of new data, saves that succeed or fail, starts and power cuts, a cache never
/// serves two different data under one session and serial number, as long as the numbers don't wrap
/// around. It serves only what was saved before, and starts from its file: `Stores` serves nothing
/// else.
pub fn one_data_under_each_name()
    ensures { (served front between others : List Snapshot)
        (file present taken : Option (List ℕ)) (x y : Snapshot) →
        IsLife served file present taken →
        served ≡ front ++ x ∷ (between ++ y ∷ others) → x.end.session ≡ y.end.session →
        x.end.serial ≡ y.end.serial → StaysOnCircle x between y → x ≡ y }
{}

/// The same for a cache that doesn't save, over any sequence of new data and starts, each in a
/// session under which it never served data.
pub fn one_data_under_each_name_unsaved()
    ensures { (served front between others : List Snapshot) (session : ℕ)
        (present : Option (List ℕ)) (x y : Snapshot) → IsUnsavedLife served session present →
        served ≡ front ++ x ∷ (between ++ y ∷ others) → x.end.session ≡ y.end.session →
        x.end.serial ≡ y.end.serial → StaysOnCircle x between y → x ≡ y }
{}
