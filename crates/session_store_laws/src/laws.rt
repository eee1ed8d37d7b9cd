//! What holds of a router at a cache that serves what its stores serve.

ghost use Rattle.std.specs.Prelude.{◌≡◌, ◌++◌, ℕ, List, Some, length, true};
ghost use Rattle.data_history.specs.Snapshots.{Snapshot};
ghost use Rattle.session_router.specs.Heeding.{IsTalking};
ghost use Rattle.session_router.specs.Histories.{Caller};
ghost use Rattle.session_router.specs.Rules.{Fresh};
ghost use Rattle.session_router.specs.Step.{IsInTime};
ghost use Rattle.session_router.specs.declared.event.Action.{Action};
ghost use Rattle.session_router.specs.declared.event.Action.TheVariants as actions;
ghost use Rattle.session_router.specs.declared.router.Phase.TheVariants as phases;
ghost use Rattle.session_router.specs.declared.router.Router.{Router};
ghost use Rattle.session_cache.specs.Worlds.{GoesOn, IsListening, IsOneDataPerName, IsPeaceful};
ghost use Rattle.session_bytes.specs.Reading.{Acts};
ghost use Rattle.session_bytes.specs.ShownData.{AppliesAnswers};
ghost use Rattle.session_laws.specs.Editions.{PayloadEdition, editions_of};
ghost use Rattle.session_laws.specs.Pipes.{IsRunInBytes, Joined};
ghost use Rattle.session_client.specs.Makings.{Octets};
ghost use Rattle.session_client.specs.declared.client.Client.{Client};
ghost use Rattle.session_client_laws.specs.Again.{IsSettled, ShowsThese, pair_after};
ghost use Rattle.session_client_laws.specs.Runs.{Calls, IsRunOfClient, Pair};
ghost use Rattle.session_store_laws.specs.ServedData.{AreServed, HasServed, StayOnCircles};
ghost use Rattle.session_store_laws.specs.ShownOfStore.{BytesShowServed, ClientShowsServed};

use data_history::laws::{one_data_under_each_name, one_data_under_each_name_unsaved};
use session_client_laws::laws::{client_current_again, data_agree, runs_in_bytes};
use session_laws::laws::{bytes_agree, bytes_in_peace};

/// A cache whose data are those that its stores served, in any part of their life in which no
/// session's serial numbers wrapped around, never had two different data under one session and
/// serial number. This is the premise of the laws of agreement.
pub fn stores_have_one_data_per_name()
    ensures { (served before : List Snapshot) (had : List PayloadEdition)
        → HasServed (served ++ before) → StayOnCircles served → AreServed served had
        → IsOneDataPerName (editions_of had) }
{
    one_data_under_each_name();
    one_data_under_each_name_unsaved()
}

/// Over any calls of one client and any connections with such a cache, each cut anywhere, with new
/// data, saves that succeed or fail, starts and power cuts at the cache at any time: whenever the
/// client has data, its data buffer has the payloads of the one snapshot that the stores served
/// under their session and serial number, as far as the client's version has them. The same holds
/// of the bytes that any router's caller shows.
pub fn stored_data_agree()
    ensures client { (served before : List Snapshot) (p : Pair)
        → HasServed (served ++ before) → StayOnCircles served → AreServed served p.had
        → IsRunOfClient p → p.client.router.has_data ≡ true → ClientShowsServed served p }
    ensures bytes { (served before : List Snapshot) (c : Caller (List ℕ) (List ℕ)) (w : Joined)
        → HasServed (served ++ before) → StayOnCircles served → AreServed served w.had
        → AppliesAnswers c → IsRunInBytes c w → w.router.has_data ≡ true
        → BytesShowServed served w }
{
    one_data_under_each_name();
    one_data_under_each_name_unsaved();
    data_agree();
    bytes_agree()
}

/// A router ends no connection because of the bytes of such a cache, with the exceptions of the law
/// `bytes_in_peace` of `session_laws`.
pub fn stored_data_come_in_peace()
    ensures { (served before : List Snapshot) (c : Caller (List ℕ) (List ℕ)) (w : Joined)
        (n : ℕ) (input later : List ℕ) (start end : ℕ) (a : Action) (after : Router)
        → HasServed (served ++ before) → StayOnCircles served → AreServed served w.had
        → AppliesAnswers c → IsRunInBytes c w → w.to_router ≡ input ++ later
        → (heard : Acts w.router n input start end a after)
        → IsListening heard.before.phase → Fresh heard.before n → IsInTime heard.before n
        → IsPeaceful heard.before heard.head → GoesOn a }
{
    one_data_under_each_name();
    one_data_under_each_name_unsaved();
    bytes_in_peace()
}

/// From when a client has no connection, what it shows next are the present data of such a cache,
/// as in the law `client_current_again` of `session_client_laws`, which states by when.
pub fn stored_data_are_current_again()
    ensures { (served older : List Snapshot) (before p : Pair) (k : Client)
        (input held : Octets) (c : Calls p k input held (Some actions.Show))
        → HasServed (served ++ older) → StayOnCircles served → AreServed served before.had
        → before.present.name.has ≡ true → IsRunOfClient before
        → (IsTalking before.client.router → ⊥) → IsSettled before p
        → ShowsThese before.present (pair_after p k input held (Some actions.Show)) }
{
    one_data_under_each_name();
    one_data_under_each_name_unsaved();
    client_current_again()
}

/// There are a life of stores that save, in which they served data without payloads and then a
/// prefix, and a run in which a client gets that prefix and shows it: they meet the premises of the
/// laws above.
pub fn stored_data_are_shown()
    ensures run { (served before : List Snapshot) × (p : Pair) × HasServed (served ++ before)
        × StayOnCircles served × AreServed served p.had × IsRunOfClient p
        × (p.client.router.has_data ≡ true) × (p.client.shown ≡ Some 44) × (length served ≡ 2) }
    ensures bytes { (served before : List Snapshot) × (c : Caller (List ℕ) (List ℕ))
        × (w : Joined) × HasServed (served ++ before) × StayOnCircles served
        × AreServed served w.had × AppliesAnswers c × IsRunInBytes c w
        × (w.router.has_data ≡ true) }
    ensures peace { (served before : List Snapshot) × (c : Caller (List ℕ) (List ℕ))
        × (w : Joined) × (input later : List ℕ) × (after : Router)
        × (heard : Acts w.router 30 input 0 8 actions.Begin after) × HasServed (served ++ before)
        × StayOnCircles served × AreServed served w.had × AppliesAnswers c × IsRunInBytes c w
        × (w.to_router ≡ input ++ later) × IsListening heard.before.phase
        × Fresh heard.before 30 × IsInTime heard.before 30 × IsPeaceful heard.before heard.head }
    ensures again { (served older : List Snapshot) × (before p : Pair) × (k : Client)
        × (input held : Octets) × HasServed (served ++ older) × StayOnCircles served
        × AreServed served before.had × (before.present.name.has ≡ true)
        × IsRunOfClient before × (before.client.router.phase ≡ phases.Offline)
        × IsSettled before p × Calls p k input held (Some actions.Show) }
{
    runs_in_bytes();
    client_current_again()
}
