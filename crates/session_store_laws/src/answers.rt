//! What a cache writes of the history that its stores serve is the answer of its machine.

ghost use Rattle.std.specs.Prelude.{◌≡◌, ◌∷◌, ◌++◌, [], ℕ, Bool, IsSome, List, Ok, Some, false};
ghost use Rattle.std.specs.Prelude.{length, take};
ghost use Rattle.std.specs.List.{AllByRecursion};
ghost use Rattle.rtr_units.specs.Queries.{bare_list};
ghost use Rattle.rtr_wire.specs.Into.{NormalisesInto};
ghost use Rattle.rtr_wire.specs.Sequences.{for_version};
ghost use Rattle.rtr_wire.specs.declared.into.Progress.{Progress};
ghost use Rattle.data_slices.specs.Canonical.{HoldsData};
ghost use Rattle.data_history.specs.Serials.{serials_of};
ghost use Rattle.data_history.specs.Since.{WritesChangesSince};
ghost use Rattle.data_history.specs.Snapshots.{HoldsHistory, Snapshot, snapshot_at};
ghost use Rattle.data_history.specs.Stored.{IsStored};
ghost use Rattle.session_cache.specs.declared.cache.Cache.{Cache};
ghost use Rattle.session_cache.specs.declared.event.Answer.TheVariants as answers;
ghost use Rattle.session_cache.specs.Worlds.{IsIn};
ghost use Rattle.session_bytes.specs.Answered.{opening_bytes};
ghost use Rattle.session_bytes.specs.Serving.{HearsRouter};
ghost use Rattle.session_bytes.specs.declared.serving.Served.TheVariants as served;
ghost use Rattle.session_laws.specs.Editions.{PayloadEdition};
ghost use Rattle.session_server.specs.declared.settings.ServerSettings.{ServerSettings};
ghost use Rattle.session_server_laws.specs.Services.{IsRunOfService, Service, Turn, WritesTurn};
ghost use Rattle.session_store_laws.specs.SentOfStore.{SendsServedIfAny};
ghost use Rattle.session_store_laws.specs.ServedData.{AreHad, AreServed, IsEditionOf};

use data_history::laws::what_is_stored_is_a_history;
use session_server_laws::laws::queries_are_answered_in_order;

/// If a cache's machine answers a query with changes, and was given the serial numbers that
/// `serials_into` writes of the history, the history has the data that the changes are from, so
/// that `since_into` doesn't return `Unknown`. The bytes that `since_into` writes, after the unit
/// of `place_opening`, are this answer, and the changes are from data that the cache had, if it had
/// those of the history. These are some of the data that were stored.
pub fn changes_are_from_the_history()
    ensures finds { (c after : Cache) (now size since : ℕ) (input : List ℕ) (ended : Bool)
        (x : Snapshot) (ys : List Snapshot) (p : PayloadEdition) → IsEditionOf x p
        → HearsRouter c now p.name (serials_of ys) input ended
        (served.Answered size (answers.Changes since)) after
        → IsSome (snapshot_at since x ys) }
    ensures writes { (had : List PayloadEdition) (t : Turn) (since size : ℕ)
        (history opening before after : List ℕ) (x : Snapshot) (ys : List Snapshot)
        → HoldsHistory history x ys → AreHad had (x ∷ ys)
        → IsIn had t.present → IsEditionOf x t.present → t.answer ≡ answers.Changes since
        → opening_bytes t.version t.answer t.present.name ≡ Some opening
        → WritesChangesSince t.version (Ok size) (snapshot_at since x ys) x before after
        → t.bytes ≡ opening ++ take size after
        → (old : PayloadEdition) × WritesTurn had t.version (record t { old = old }) }
    ensures stored { (had : List PayloadEdition) (stored : List Snapshot) (history : List ℕ)
        → IsStored stored history → AreHad had stored
        → (x : Snapshot) × (ys : List Snapshot) × HoldsHistory history x ys
        × AreHad had (x ∷ ys) }
{
    what_is_stored_is_a_history();
}

/// The output of `normalise_for_into` for the present data and the version of a connection, after
/// the unit of `place_opening`, is the answer to a query for all data.
pub fn all_data_are_the_present()
    ensures { (had : List PayloadEdition) (t : Turn) (limit : ℕ)
        (input opening before after : List ℕ) (progress : Progress) (x : Snapshot)
        → HoldsData input x.payloads x.end → IsIn had t.present → IsEditionOf x t.present
        → t.answer ≡ answers.All
        → opening_bytes t.version t.answer t.present.name ≡ Some opening
        → NormalisesInto (for_version t.version) limit (Ok tt) input before after progress
        → t.bytes ≡ opening ++ take progress.written after
        → WritesTurn had t.version t }
{}

/// On each connection of a cache that serves what its stores serve, whatever comes and whenever,
/// the bytes of each answer with data are either all of a snapshot that the stores served, or the
/// changes to it from another snapshot of its session that they served, with the serial number of
/// the answer; or there are none, if the host gave up.
pub fn answers_are_of_served_data()
    ensures { (s : ServerSettings) (served : List Snapshot) (had : List PayloadEdition)
        (w : Service) → AreServed served had → IsRunOfService s had w
        → AllByRecursion (λ t. SendsServedIfAny served t) w.turns }
{
    queries_are_answered_in_order();
}

/// There are a history of two data, a query of a router that has the earlier ones, and the changes
/// that were written for it by a cache that had both; data with a prefix, all of which were
/// written; and a run in which a cache sends data that its stores served. They meet the premises of
/// the laws above.
pub fn stored_data_are_sent()
    ensures asked { (c after : Cache) × (input : List ℕ) × (x y : Snapshot) × (p : PayloadEdition)
        × IsEditionOf x p × HearsRouter c 100 p.name (serials_of (y ∷ [])) input false
        (served.Answered 12 (answers.Changes 1)) after }
    ensures written { (had : List PayloadEdition) × (t : Turn) × (history before after : List ℕ)
        × (x y : Snapshot) × HoldsHistory history x (y ∷ []) × AreHad had (x ∷ y ∷ [])
        × IsIn had t.present × IsEditionOf x t.present × (t.answer ≡ answers.Changes 1)
        × (opening_bytes t.version t.answer t.present.name ≡ Some (bare_list 1 3 7))
        × WritesChangesSince t.version (Ok 24) (snapshot_at 1 x (y ∷ [])) x before after
        × (t.bytes ≡ bare_list 1 3 7 ++ take 24 after) }
    ensures all { (had : List PayloadEdition) × (t : Turn) × (input before after : List ℕ)
        × (progress : Progress) × (x : Snapshot) × HoldsData input x.payloads x.end
        × IsIn had t.present × IsEditionOf x t.present × (t.answer ≡ answers.All)
        × (opening_bytes t.version t.answer t.present.name ≡ Some (bare_list 2 3 7))
        × NormalisesInto (for_version t.version) 2 (Ok tt) input before after progress
        × (t.bytes ≡ bare_list 2 3 7 ++ take progress.written after) }
    ensures sent { (s : ServerSettings) × (served : List Snapshot) × (had : List PayloadEdition)
        × (w : Service) × AreServed served had × IsRunOfService s had w
        × (length w.turns ≡ 2) }
{}
