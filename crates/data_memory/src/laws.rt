//! Laws of changes.

ghost use Rattle.std.specs.Prelude.{◌≡◌, ◌≤◌, ◌<◌, ◌++◌, [], ℕ, List, Ok, false, length, map};
ghost use Rattle.std.specs.Prelude.{true, Result, Some};
ghost use Rattle.std.specs.Prelude.{if◌then◌else◌};
ghost use Rattle.std.specs.BTreeMap.{is_at};
ghost use Rattle.std.specs.List.{AllByRecursion};
ghost use Rattle.rtr_units.specs.AnyEnd.{end_meaning};
ghost use Rattle.rtr_units.specs.End.{EndMeaning, IsEndMeaning, end_list};
ghost use Rattle.rtr_units.specs.StopCauses.{ReaderState};
ghost use Rattle.rtr_units.specs.declared.end.EndOfData.{EndOfData};
ghost use Rattle.rtr_payload.specs.Orders.{payload_cmp};
ghost use Rattle.rtr_payload.specs.Payloads.{Meaning, Payload};
ghost use Rattle.rtr_wire.specs.Sequences.{Accepts, IsSequence};
ghost use Rattle.data_memory.specs.Data.{Change, IsData, after, announcement, has, name_cmp};
ghost use Rattle.data_memory.specs.Data.{withdrawal};
ghost use Rattle.data_memory.specs.Changes.{AreApart, after_all, changes, touches};
ghost use Rattle.data_memory.specs.Deltas.{all_for, change_forms, changes_for, data_for, unit_of};
ghost use Rattle.data_memory.specs.Applying.{Applies, BlamesNone, IsApplicable, Leads};
ghost use Rattle.data_memory.specs.Sequences.{IsSendable, change_of};
ghost use Rattle.data_memory.specs.declared.apply_error.ApplyError.{ApplyError};

use crate::data::Data;

/// An allowed change makes data of data. After an announcement the payload is the only one of its
/// name, after a withdrawal there is none of its name, and payloads of other names are unchanged.
pub fn one_change()
    ensures ordered { (c : Change) (d e : List Payload) → IsData d → after c d ≡ Ok e → IsData e }
    ensures announced { (p q : Payload) (d e : List Payload) → IsData d →
        after (announcement p) d ≡ Ok e →
        has e q ≡ (if is_at (name_cmp p) q then is_at (payload_cmp q) p else has d q) }
    ensures withdrawn { (p q : Payload) (d e : List Payload) → IsData d →
        after (withdrawal p) d ≡ Ok e →
        has e q ≡ (if is_at (name_cmp p) q then false else has d q) }
{}

/// The changes from old data to new lead from the old data to the new, and there are none from data
/// to itself.
///
/// No two of them have the same name, so each payload occurs at most once; and any changes that
/// lead from old data to new include one of each of these names, so no smaller number suffices.
pub fn changes_lead_to_new()
    ensures leads { (old new : List Payload) → IsData old → IsData new →
        after_all (changes old new) (Ok old) ≡ Ok new }
    ensures nothing { (d : List Payload) → changes d d ≡ [] }
    ensures apart { (old new : List Payload) → IsData old → IsData new →
        AreApart (changes old new) }
    ensures needed { (cs : List Change) (old new : List Payload) → IsData old →
        after_all cs (Ok old) ≡ Ok new →
        AllByRecursion (λ c. touches cs c.payload ≡ true) (changes old new) }
    ensures fewest { (cs : List Change) (old new : List Payload) → IsData old →
        after_all cs (Ok old) ≡ Ok new → length (changes old new) ≤ length cs }
{}

/// The changes from any value to any other lead there.
pub fn changes_of_data(old: &Data, new: &Data)
    ensures { after_all (changes old.now new.now) (Ok old.now) ≡ Ok new.now }
{
    let _old = old.parts();
    let _new = new.parts();
}

/// The changes that a delta sends for a version lead from the old data to the new ones, as far as
/// that version has them; the announcements of all data lead there from no data.
pub fn deltas_lead_to_new()
    ensures leads { (v : ℕ) (old new : List Payload) → IsData old → IsData new →
        after_all (changes_for v old new) (Ok (data_for v old)) ≡ Ok (data_for v new) }
    ensures all { (v : ℕ) (d : List Payload) → IsData d →
        after_all (all_for v d) (Ok []) ≡ Ok (data_for v d) }
{}

/// A delta written for a version, followed by an end of data, is accepted as a sequence, and so are
/// the announcements of all data.
pub fn deltas_are_accepted()
    ensures delta { (v : ℕ) (old new : List Payload) (e : EndMeaning) → v < 256 →
        AllByRecursion IsSendable old → AllByRecursion IsSendable new → IsEndMeaning e →
        IsSequence (change_forms v (changes_for v old new) ++ end_list e)
        (map (unit_of v) (changes_for v old new)) e }
    ensures all { (v : ℕ) (d : List Payload) (e : EndMeaning) → v < 256 →
        AllByRecursion IsSendable d → IsEndMeaning e →
        IsSequence (change_forms v (all_for v d) ++ end_list e)
        (map (unit_of v) (all_for v d)) e }
{}

/// A reader that applies a delta, one change after the other, gets from the old data to the new
/// ones, as far as the version has them, and reads the end of data after it; the announcements of
/// all data lead it there from no data.
pub fn deltas_read_back()
    ensures delta { (v : ℕ) (old new : List Payload) (b rest : List ℕ) (ms : List Meaning)
        (d e : EndMeaning) → v < 256 → IsData old → IsData new →
        AllByRecursion IsSendable old → AllByRecursion IsSendable new → IsEndMeaning e →
        Accepts ((change_forms v (changes_for v old new) ++ end_list e) ++ rest) b ms d →
        (after_all (map change_of ms) (Ok (data_for v old)) ≡ Ok (data_for v new)) × (d ≡ e) }
    ensures all { (v : ℕ) (new : List Payload) (b rest : List ℕ) (ms : List Meaning)
        (d e : EndMeaning) → v < 256 → IsData new →
        AllByRecursion IsSendable new → IsEndMeaning e →
        Accepts ((change_forms v (all_for v new) ++ end_list e) ++ rest) b ms d →
        (after_all (map change_of ms) (Ok []) ≡ Ok (data_for v new)) × (d ≡ e) }
{}

/// What follows from the contract of `Data::apply` if the input is known, however it is split: it
/// succeeds if and only if the input begins with fewer than `limit` units and an end of data and
/// all changes are allowed, unless the reader or memory fails. Then the data are the result of the
/// changes, and exactly these bytes are consumed.
pub fn sequences_are_applied()
    ensures leads { (limit : ℕ) (input b : List ℕ) (e : EndMeaning)
        (result : Result EndOfData ApplyError) (old new : ReaderState)
        (before after this : List Payload) → Applies limit result old new before after →
        old.left ≡ Some input → IsApplicable limit input b e before this → BlamesNone result →
        Leads result input b e new.left after this }
    ensures only { (limit : ℕ) (input : List ℕ) (d : EndOfData) (old new : ReaderState)
        (before after : List Payload) → (p : Applies limit (Ok d) old new before after) →
        old.left ≡ Some input →
        IsApplicable limit input (p.units ++ p.last) (end_meaning d) before after }
{}

/// If a reader returns the delta from old to new data for a version, and then an end of data,
/// `Data::apply` turns the old data into the new ones, as far as the version has them, and returns
/// that end, unless the reader or memory fails; the announcements of all data turn no data into
/// them. Nothing after the end is read, however the input is split.
pub fn deltas_are_applied(old: &Data, new: &Data)
    ensures delta { (v limit : ℕ) (e : EndMeaning) (rest : List ℕ)
        (result : Result EndOfData ApplyError) (r s : ReaderState) (after : List Payload) →
        v < 256 → IsEndMeaning e → length (changes_for v old.now new.now) < limit →
        r.left ≡ Some ((change_forms v (changes_for v old.now new.now) ++ end_list e) ++ rest) →
        Applies limit result r s (data_for v old.now) after → BlamesNone result →
        Leads result ((change_forms v (changes_for v old.now new.now) ++ end_list e) ++ rest)
        (change_forms v (changes_for v old.now new.now) ++ end_list e) e s.left after
        (data_for v new.now) }
    ensures all { (v limit : ℕ) (e : EndMeaning) (rest : List ℕ)
        (result : Result EndOfData ApplyError) (r s : ReaderState) (after : List Payload) →
        v < 256 → IsEndMeaning e → length (all_for v new.now) < limit →
        r.left ≡ Some ((change_forms v (all_for v new.now) ++ end_list e) ++ rest) →
        Applies limit result r s [] after → BlamesNone result →
        Leads result ((change_forms v (all_for v new.now) ++ end_list e) ++ rest)
        (change_forms v (all_for v new.now) ++ end_list e) e s.left after
        (data_for v new.now) }
{
    let _old = old.parts();
    let _new = new.parts();
    old.members_are_sendable();
    new.members_are_sendable();
}
