//! What holds of a client and a cache that are connected.

ghost use Rattle.std.specs.Prelude.{◌≡◌, ◌≤◌, ◌+◌, ℕ, List, Option, Some, true};
ghost use Rattle.session_client_laws.specs.Again.{IsServedAgain, IsSettled, ShowsThese};
ghost use Rattle.session_client_laws.specs.Again.{pair_after};
ghost use Rattle.session_client_laws.specs.Called.{IsCalled};
ghost use Rattle.session_client_laws.specs.Runs.{Calls, IsRunOfClient, Pair, RunsInBytes};
ghost use Rattle.session_client_laws.specs.Runs.{ShowsHad};
ghost use Rattle.session_client_laws.specs.Served.{IsServedFrom, TakesSteps};
ghost use Rattle.session_cache.specs.Worlds.{IsOneDataPerName};
ghost use Rattle.session_client.specs.Makings.{Octets};
ghost use Rattle.session_client.specs.Tells.{TakesCall};
ghost use Rattle.session_client.specs.declared.client.Client.{Client};
ghost use Rattle.session_laws.specs.Editions.{editions_of};
ghost use Rattle.session_router.specs.Asking.{longest};
ghost use Rattle.session_router.specs.Exchange.{Exchange, exchanged, none_yet};
ghost use Rattle.session_router.specs.Heeding.{IsTalking};
ghost use Rattle.session_router.specs.Histories.{Caller, Host, IsHistory, Moment};
ghost use Rattle.session_router.specs.Pace.{wakes_at};
ghost use Rattle.session_router.specs.Recovery.{expired_until, served_until};
ghost use Rattle.session_router.specs.declared.event.Action.{Action};
ghost use Rattle.session_router.specs.declared.event.Action.TheVariants as actions;
ghost use Rattle.session_router.specs.declared.router.Phase.TheVariants as phases;
ghost use Rattle.session_router.specs.declared.settings.Settings.{Settings};

use session_laws::laws::bytes_agree;
use session_router::laws::recovers;

/// Each run of a client and a cache of this library, whatever the caller calls and when, is a run
/// in bytes of the client's machine and the cache: what `session_laws` states about such runs holds
/// of the client.
pub fn runs_in_bytes()
    ensures { (p : Pair) → IsRunOfClient p → RunsInBytes p }
{}

/// Over any calls of one client and any number of connections with a cache of this library, each
/// cut anywhere and read in any pieces, with new editions, sessions and restarts of the cache at
/// any time: whenever the client has data, its data buffer has the payloads of the edition that the
/// cache had under their session and serial number, as far as the client's version has them.
pub fn data_agree()
    ensures { (p : Pair) → IsOneDataPerName (editions_of p.had) → IsRunOfClient p
        → p.client.router.has_data ≡ true → ShowsHad p }
{
    bytes_agree()
}

/// Each call of a client is a sequence of steps of its machine: one at an event, or one at each
/// unit at the front of the bytes, told by its bytes.
pub fn calls_take_steps()
    ensures { (a : Option Action) (now : ℕ) (k k' : Client) (input held input' held' : Octets)
        → (t : TakesCall a now k input held k' input' held') → TakesSteps now k input k' t.word }
{}

/// Whatever comes: the time at which a client acts by itself is at most `longest` after its last
/// call. (The contract of `Client::next` states that it acts then.)
pub fn client_acts_soon()
    ensures { (s : Settings) (k : Client) (now : ℕ)
        → IsCalled s k now → wakes_at k.router ≤ now + longest s }
{}

/// While a cache that has data and keeps the rules serves a client, whatever it did before, and the
/// client has shown no data since, the time is at most `served_until`, as in the law `recovers` of
/// `session_router`: so data are shown by then. The client must be called when it wakes, at the
/// latest.
pub fn client_recovers()
    ensures after { (c : Caller ℕ ℕ) (history : List (Moment ℕ)) (h : Host ℕ ℕ)
        (most spoken start : ℕ) (k k' : Client) (x : Exchange) (now : ℕ)
        → IsHistory c history k.router h → k.router.floor ≤ spoken
        → IsServedFrom most k (record (exchanged c.settings history) { spoken = spoken })
        start k' x now
        → now ≤ served_until k.router start }
    ensures offline { (most start : ℕ) (k k' : Client) (none x : Exchange) (now : ℕ)
        → k.router.phase ≡ phases.Offline → none.phase ≡ phases.Offline
        → k.router.floor ≤ none.spoken → IsServedFrom most k none start k' x now
        → now ≤ served_until k.router start }
    ensures expired { (c : Caller ℕ ℕ) (history : List (Moment ℕ)) (h : Host ℕ ℕ)
        (most spoken start : ℕ) (k k' : Client) (x : Exchange) (now : ℕ)
        → IsHistory c history k.router h → k.router.has_data ≡ true
        → IsServedFrom most k (record (exchanged c.settings history) { spoken = spoken })
        start k' x now
        → now ≤ expired_until k.router start }
{
    recovers()
}

/// After any run, from when the client has no connection: while a cache of this library that has
/// data, and no new ones, keeps the rules, and no data are shown, the time is at most
/// `served_until`; and the data that are shown next are the present data of that cache, as far as
/// the client's version has them, in the client's data buffer. The client must be called when it
/// wakes, at the latest. The shown data are the present ones whatever the cache does, and whenever,
/// as long as it has no new ones.
pub fn client_current_again()
    ensures soon { (most start : ℕ) (before p : Pair) (none x : Exchange) (now : ℕ)
        → before.client.router.phase ≡ phases.Offline → none.phase ≡ phases.Offline
        → before.client.router.floor ≤ none.spoken
        → IsServedAgain most before none start p x now
        → now ≤ served_until before.client.router start }
    ensures settled { (most start : ℕ) (before p : Pair) (none x : Exchange) (now : ℕ)
        → IsServedAgain most before none start p x now → IsSettled before p }
    ensures present { (before p : Pair) (k : Client) (input held : Octets)
        (c : Calls p k input held (Some actions.Show))
        → IsOneDataPerName (editions_of before.had) → before.present.name.has ≡ true
        → IsRunOfClient before → (IsTalking before.client.router → ⊥) → IsSettled before p
        → ShowsThese before.present (pair_after p k input held (Some actions.Show)) }
{
    bytes_agree();
    recovers()
}

/// There is a run in which a client gets a prefix from a cache and shows it: it meets the premises
/// of `runs_in_bytes` and `data_agree`, and, with a cache that keeps the rules, those of
/// `client_recovers` and `client_current_again`, and those of `client_acts_soon`.
pub fn data_are_shown()
    ensures run { (p : Pair) × IsRunOfClient p × IsOneDataPerName (editions_of p.had)
        × (p.client.router.has_data ≡ true) × (p.client.shown ≡ Some 44) }
    ensures served { (k k' : Client) × (x : Exchange) × (k.router.phase ≡ phases.Offline)
        × (k.router.floor ≤ 0) × IsServedFrom 2 k none_yet 0 k' x 32 }
    ensures called { (s : Settings) × (k : Client) × IsCalled s k 32 }
    ensures again { (before p : Pair) × (x : Exchange) × (k : Client) × (input held : Octets)
        × IsOneDataPerName (editions_of before.had) × (before.present.name.has ≡ true)
        × IsRunOfClient before × (before.client.router.phase ≡ phases.Offline)
        × IsServedAgain 2 before none_yet 0 p x 32 × Calls p k input held (Some actions.Show) }
{}
