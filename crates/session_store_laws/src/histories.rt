//! A cache's stores served each of the data of a history that they hold, and so the changes that
//! are written from it lead from data that were served.

ghost use Rattle.std.specs.Prelude.{◌≡◌, ◌<◌, ◌≤◌, ◌∷◌, ◌++◌, [], ℕ, Err, List, None, Ok, Option};
ghost use Rattle.std.specs.Prelude.{Some, length, take, true};
ghost use Rattle.rtr_units.specs.Queries.{bare_list};
ghost use Rattle.data_history.specs.Life.{MayTake};
ghost use Rattle.data_history.specs.Parts.{part_rest};
ghost use Rattle.data_history.specs.Since.{WritesChangesSince};
ghost use Rattle.data_history.specs.Snapshots.{HoldsHistory, Snapshot, snapshot_at};
ghost use Rattle.data_history.specs.Store.{HoldsStore};
ghost use Rattle.data_history.specs.Stores.{TakesData, TakesLater, after_giving_up, after_saving};
ghost use Rattle.data_history.specs.Stores.{after_taking};
ghost use Rattle.data_history.specs.Stores.{fresh_stores, held_of, other_of, served_store};
ghost use Rattle.data_history.specs.Stores.{taken_store};
ghost use Rattle.data_history.specs.declared.newer.Untaken.TheVariants.{Refused};
ghost use Rattle.data_history.specs.declared.next.Refused.TheVariants.{UnitVersion};
ghost use Rattle.data_history.specs.declared.stores.Stores.{Stores};
ghost use Rattle.session_cache.specs.Worlds.{IsIn};
ghost use Rattle.session_cache.specs.declared.event.Answer.TheVariants as answers;
ghost use Rattle.session_cache.specs.declared.event.Present.{Present};
ghost use Rattle.session_bytes.specs.Answered.{opening_bytes};
ghost use Rattle.session_laws.specs.Editions.{PayloadEdition};
ghost use Rattle.session_server.specs.Keeping.{kept_version};
ghost use Rattle.session_server_laws.specs.Services.{Turn, WritesTurn};
ghost use Rattle.session_store_laws.specs.HeldHistory.{AllIn, HasLife, HasUnsavedLife};
ghost use Rattle.session_store_laws.specs.HeldHistory.{KeepsHistory, ServesHistory};
ghost use Rattle.session_store_laws.specs.SentOfStore.{SendsChangesTo};
ghost use Rattle.session_store_laws.specs.ServedData.{AreHad, AreServed, HasServed, IsEditionOf};

use crate::answers::changes_are_from_the_history;

/// Over any life of a cache's stores, with saves that succeed or fail, starts and power cuts at any
/// time: each of the data of the history that is served, the present ones and earlier ones, was
/// served. For a history that is pending, or is in the file, this holds of all but the present
/// data, which were taken. In such a life no store has other earlier data than the previous store,
/// which the next law states for `Stores`.
pub fn the_history_is_of_served_data()
    ensures serves { (served : List Snapshot) (history : List ℕ) (x : Snapshot)
        (ys : List Snapshot) → ServesHistory served history → HoldsHistory history x ys
        → AllIn served (x ∷ ys) }
    ensures keeps { (served : List Snapshot) (history : List ℕ) (x : Snapshot)
        (ys : List Snapshot) → KeepsHistory served history → HoldsHistory history x ys
        → AllIn served ys }
{}

/// The contracts of the calls of `Stores` lead from state to state of such a life: `take`, if it
/// returns a length, with a file and without, `saved`, `give_up`, and `start`.
pub fn stores_add_only_what_they_take()
    ensures takes { (since most n : ℕ) (m after : Stores) (f s f' s' : List ℕ)
        (served : List Snapshot) (file : Option (List ℕ)) (z : Snapshot)
        → m.unsaved ≡ None → MayTake served (served_store m f s)
        → TakesData since most (Ok n) m (served_store m f s) z (other_of m.second f' s')
        → after ≡ after_taking n m → held_of m.second f' s' ≡ held_of m.second f s
        → HasLife served file (served_store m f s) (taken_store m f s)
        → HasLife served file (served_store after f' s') (taken_store after f' s') }
    ensures takes_unsaved { (since most n session : ℕ) (m after : Stores) (f s f' s' : List ℕ)
        (served : List Snapshot) (z : Snapshot) → m.unsaved ≡ Some session
        → TakesData since most (Ok n) m (served_store m f s) z (other_of m.second f' s')
        → after ≡ after_taking n m → HasUnsavedLife served session (served_store m f s)
        → HasUnsavedLife (z ∷ served) session (served_store after f' s') }
    ensures saves { (m after : Stores) (served : List Snapshot) (f s b : List ℕ) (z : Snapshot)
        (ys : List Snapshot) → after ≡ after_saving m.taken m → taken_store m f s ≡ Some b
        → HoldsStore b z ys → HasLife served (Some b) (served_store m f s) (Some b)
        → HasLife (z ∷ served) (Some b) (served_store after f s) (taken_store after f s) }
    ensures gives_up { (m after : Stores) (served : List Snapshot) (file : Option (List ℕ))
        (f s : List ℕ) → after ≡ after_giving_up m
        → HasLife served file (served_store m f s) (taken_store m f s)
        → HasLife served file (served_store after f s) (taken_store after f s) }
    ensures starts { (m : Stores) (size : ℕ) (served : List Snapshot) (f s : List ℕ)
        (z : Snapshot) (ys : List Snapshot) → m ≡ fresh_stores (Some size) None
        → HoldsStore (take size f) z ys → HasLife served (Some (take size f)) None None
        → HasLife (z ∷ served) (Some (take size f)) (served_store m f s) (taken_store m f s) }
{}

/// If a cache serves this history, the bytes that `since_into` writes for a serial query, after the
/// unit of `place_opening`, are the changes to the present data from data that its stores served
/// under that serial number of their session. They are the answer of its machine, from data that
/// the cache had, if it had all that its stores served; and whatever it had of these data, there
/// are editions of the others.
pub fn changes_are_from_served_data()
    ensures sends { (served : List Snapshot) (t : Turn) (since size : ℕ)
        (history opening before after : List ℕ) (x : Snapshot) (ys : List Snapshot)
        → ServesHistory served history → HoldsHistory history x ys → IsEditionOf x t.present
        → t.answer ≡ answers.Changes since
        → opening_bytes t.version t.answer t.present.name ≡ Some opening
        → WritesChangesSince t.version (Ok size) (snapshot_at since x ys) x before after
        → t.bytes ≡ opening ++ take size after → SendsChangesTo x served since t }
    ensures writes { (served : List Snapshot) (had : List PayloadEdition) (t : Turn)
        (since size : ℕ) (history opening before after : List ℕ) (x : Snapshot)
        (ys : List Snapshot) → ServesHistory served history → HoldsHistory history x ys
        → AreHad had served → IsIn had t.present → IsEditionOf x t.present
        → t.answer ≡ answers.Changes since
        → opening_bytes t.version t.answer t.present.name ≡ Some opening
        → WritesChangesSince t.version (Ok size) (snapshot_at since x ys) x before after
        → t.bytes ≡ opening ++ take size after
        → (old : PayloadEdition) × WritesTurn had t.version (record t { old = old }) }
    ensures editions { (served : List Snapshot) (some : List PayloadEdition)
        → HasServed served → AreServed served some
        → (more : List PayloadEdition) × AreServed served (some ++ more)
        × AreHad (some ++ more) served }
{
    the_history_is_of_served_data();
    changes_are_from_the_history();
}

/// Data in the version that `kept_version` returns are never refused for their version, if they
/// came in no higher version than that of the present data: they have that of the present data, or
/// another session. There are such data, of the present session and converted to its version.
pub fn kept_versions_are_taken()
    ensures taken { (since most new v : ℕ) (p : Present) (b after : List ℕ) (z x : Snapshot)
        (ys : List Snapshot) → p.has ≡ true → p.session ≡ x.end.session → new ≤ x.end.version
        → z.end.version ≡ kept_version p x.end.version z.end.session new
        → TakesLater since most (Err (Refused (UnitVersion v))) b z x ys after → ⊥ }
    ensures converted { (new : ℕ) × (p : Present) × (z x : Snapshot) × (p.has ≡ true)
        × (p.session ≡ x.end.session) × (new < x.end.version)
        × (z.end.session ≡ x.end.session) × (z.end.version ≡ x.end.version)
        × (z.end.version ≡ kept_version p x.end.version z.end.session new) }
{}

/// There are a life of stores in which they served two data and have the changes back to the
/// earlier ones, one without a file, and one in which the later data are pending; first data that
/// are taken; and the changes that were written for a query. They meet the premises of the laws
/// above.
pub fn served_histories_are_written()
    ensures serves { (served : List Snapshot) × (history : List ℕ) × (x y : Snapshot)
        × ServesHistory served history × HoldsHistory history x (y ∷ [])
        × (length served ≡ 2) }
    ensures unsaved { (served : List Snapshot) × (session : ℕ) × (b : List ℕ)
        × (x y : Snapshot) × HasUnsavedLife served session (Some b)
        × HoldsHistory (part_rest b) x (y ∷ []) }
    ensures keeps { (served : List Snapshot) × (history : List ℕ) × (x y : Snapshot)
        × KeepsHistory served history × HoldsHistory history x (y ∷ [])
        × (length served ≡ 1) }
    ensures takes { (since most n : ℕ) × (m : Stores) × (f s : List ℕ) × (z : Snapshot)
        × (m.unsaved ≡ None) × MayTake [] (served_store m f s)
        × TakesData since most (Ok n) m (served_store m f s) z (other_of m.second f s)
        × HasLife [] None (served_store m f s) (taken_store m f s) }
    ensures takes_unsaved { (since most n session : ℕ) × (m : Stores) × (f s : List ℕ)
        × (z : Snapshot) × (m.unsaved ≡ Some session)
        × TakesData since most (Ok n) m (served_store m f s) z (other_of m.second f s)
        × HasUnsavedLife [] session (served_store m f s) }
    ensures writes { (served : List Snapshot) × (had : List PayloadEdition) × (t : Turn)
        × (history before after : List ℕ) × (x y : Snapshot) × ServesHistory served history
        × HoldsHistory history x (y ∷ []) × AreHad had served × IsIn had t.present
        × IsEditionOf x t.present × (t.answer ≡ answers.Changes 1)
        × (opening_bytes t.version t.answer t.present.name ≡ Some (bare_list 1 3 7))
        × WritesChangesSince t.version (Ok 24) (snapshot_at 1 x (y ∷ [])) x before after
        × (t.bytes ≡ bare_list 1 3 7 ++ take 24 after) }
{}
