//! What holds of whole runs.

ghost use Rattle.std.specs.Prelude.{◌≡◌, ◌⊎◌, ◌+◌, ◌-◌, ◌<◌, ◌≤◌, ◌^◌, ℕ, List, [], None, Some};
ghost use Rattle.std.specs.Prelude.{true, false, min};
ghost use Rattle.session_router.specs.Asking.{IsOfOneVersion, IsPaced, IsQuiet, IsTidy, IsTimed};
ghost use Rattle.session_router.specs.Asking.{TriesHighest, latest, longest};
ghost use Rattle.session_router.specs.Histories.{Caller, Host, IsAnswered, IsHistory, IsNew};
ghost use Rattle.session_router.specs.Histories.{Moment};
ghost use Rattle.session_router.specs.Pace.{is_first_rise, wakes_at};
ghost use Rattle.session_router.specs.Exchange.{Exchange, exchanged, none_yet};
ghost use Rattle.session_router.specs.Recovery.{AnyStep, ComesInTime, HasUsualLimits, IsBeside};
ghost use Rattle.session_router.specs.Recovery.{IsShownBy, Unshown, expired_until};
ghost use Rattle.session_router.specs.Recovery.{served_until, time_needed};
ghost use Rattle.session_router.specs.Examples.{fifth, first, first_answer, first_whole};
ghost use Rattle.session_router.specs.Examples.{high_asked};
ghost use Rattle.session_router.specs.Examples.{low, low_answer, lower, numbering, rise};
ghost use Rattle.session_router.specs.Examples.{rise_asked};
ghost use Rattle.session_router.specs.Examples.{rise_lost, risen, seven, sixth, usual};
ghost use Rattle.session_router.specs.Heeding.{ends_for};
ghost use Rattle.session_router.specs.Rules.{Fresh, opening_version};
ghost use Rattle.session_router.specs.Safety.{IsAllowed, MayStep};
ghost use Rattle.session_router.specs.Step.{IsStep};
ghost use Rattle.session_router.specs.Times.{received, refresh_ms};
ghost use Rattle.session_router.specs.declared.event.Action.{Action};
ghost use Rattle.session_router.specs.declared.event.Action.TheVariants as actions;
ghost use Rattle.session_router.specs.declared.event.Cause.TheVariants as causes;
ghost use Rattle.session_router.specs.declared.event.Ending.{Ending};
ghost use Rattle.session_router.specs.declared.event.Event.{Event};
ghost use Rattle.session_router.specs.declared.event.Event.TheVariants as events;
ghost use Rattle.session_router.specs.declared.router.Phase.TheVariants as phases;
ghost use Rattle.session_router.specs.declared.router.Router.{Router};

/// A step has one result: the action, and each field of the router.
pub fn one_result()
    ensures { (r : Router) (now : ℕ) (e : Event) (a b : Action) (r₁ r₂ : Router)
        → IsStep r now e a r₁ → IsStep r now e b r₂ → (a ≡ b) × (r₁ ≡ r₂) }
{}

/// Whatever comes to a router, and whenever, its caller shows either no data, or the result of one
/// whole answer, applied to no data or to the data before it; and none after they have expired.
pub fn only_whole_answers()
    ensures { (c : Caller ℕ ℕ) (history : List (Moment ℕ)) (r : Router) (h : Host ℕ ℕ)
        → IsAllowed c history r h
        → (h.shown ≡ None) ⊎ IsAnswered c history r.known h.shown }
{}

/// Whatever comes: a query comes at least a pause after the previous one, unless it is a reset
/// query that follows a serial query, or is in a lower version. So at most six come in a pause.
pub fn paced_queries()
    ensures { (c : Caller ℕ ℕ) (history : List (Moment ℕ)) (r : Router) (h : Host ℕ ℕ)
        → IsHistory c history r h → IsTimed history → IsPaced c.settings.pause history }
{}

/// Whatever comes: between two queries there is a failure, the answer that there are no data, a
/// notify, a request of the caller, a cache reset, or the refresh time.
pub fn quiet()
    ensures { (c : Caller ℕ ℕ) (history : List (Moment ℕ)) (r : Router) (h : Host ℕ ℕ)
        → IsHistory c history r h → IsTimed history → IsQuiet c.settings history }
{}

/// Whatever comes: the time at which a router acts by itself is within a stated bound. (The
/// contract of `Router::step` states that it acts then.)
pub fn acts_soon()
    ensures { (c : Caller ℕ ℕ) (history : List (Moment ℕ)) (r : Router) (h : Host ℕ ℕ)
        → IsHistory c history r h → IsTimed history
        → wakes_at r ≤ latest history + longest c.settings }
{}

/// Whatever comes: a query or a report is sent on a connection that was requested and hasn't ended,
/// there is at most one connection at a time, and no report is about a report.
pub fn tidy_connections()
    ensures { (c : Caller ℕ ℕ) (history : List (Moment ℕ)) (r : Router) (h : Host ℕ ℕ)
        → IsAllowed c history r h → IsTidy history }
{}

/// Whatever comes: all accepted answers of one connection are of one version.
pub fn one_version()
    ensures { (c : Caller ℕ ℕ) (history : List (Moment ℕ)) (r : Router) (h : Host ℕ ℕ)
        → IsAllowed c history r h → IsOfOneVersion history }
{}

/// Whatever comes: a connection begins in the highest version, unless the previous one ended
/// because the cache may have a lower one.
pub fn highest_first()
    ensures { (c : Caller ℕ ℕ) (history : List (Moment ℕ)) (r : Router) (h : Host ℕ ℕ)
        → IsHistory c history r h → TriesHighest c.settings.highest history }
{}

/// Whatever comes: a lost connection never makes a router fall to a version below that of its data.
pub fn never_below_data()
    ensures { (c : Caller ℕ ℕ) (history : List (Moment ℕ)) (r : Router) (h : Host ℕ ℕ)
        (now : ℕ) (x : Ending) (after : Router) → IsAllowed c history r h
        → MayStep r now events.Lost (actions.End x) after → x.cause ≡ causes.Lower
        → r.has_data ≡ true → r.known.version ≤ after.version }
{}

/// After any history: while a cache that has data and keeps the rules from then on serves a router,
/// and no data are shown since, the time is at most `served_until`; so data are shown by then. From
/// when there is no connection this holds of any router. What the cache may send is stated in terms
/// of the messages exchanged. It may close without an error report at a query for all data, in a
/// version that it lacks, which is above those in which it answered since and above `spoken`, which
/// is at least the router's `floor`. If the router has data, whatever its floor, the time is at
/// most `expired_until`. With the default limits, in versions 0 and 1, `served_until` is 542
/// seconds after a router without data connects, and 1,626 with data.
pub fn recovers()
    ensures after { (c : Caller ℕ ℕ) (history : List (Moment ℕ)) (before : Router) (h : Host ℕ ℕ)
        (most spoken start : ℕ) (r : Router) (x : Exchange) (now : ℕ)
        → IsHistory c history before h → before.floor ≤ spoken
        → IsBeside Unshown most before (record (exchanged c.settings history) { spoken = spoken })
        start r x now
        → now ≤ served_until before start }
    ensures offline { (most : ℕ) (before : Router) (none : Exchange) (start : ℕ) (r : Router)
        (x : Exchange) (now : ℕ)
        → before.phase ≡ phases.Offline → none.phase ≡ phases.Offline
        → before.floor ≤ none.spoken → IsBeside Unshown most before none start r x now
        → now ≤ served_until before start }
    ensures expired { (c : Caller ℕ ℕ) (history : List (Moment ℕ)) (before : Router)
        (h : Host ℕ ℕ) (most spoken start : ℕ) (r : Router) (x : Exchange) (now : ℕ)
        → IsHistory c history before h → before.has_data ≡ true
        → IsBeside Unshown most before (record (exchanged c.settings history) { spoken = spoken })
        start r x now
        → now ≤ expired_until before start }
    ensures without_data { (r : Router) → HasUsualLimits r → r.fell ≡ false → r.has_data ≡ false
        → time_needed phases.Offline r ≡ 542000 }
    ensures with_data { (r : Router) → HasUsualLimits r → r.fell ≡ false → r.has_data ≡ true
        → r.resync ≡ false → time_needed phases.Offline r ≡ 1626000 }
{}

/// Such a run isn't stuck: from each of its states it continues, by steps that the cache may take
/// in time, to a state at which data are shown, by `served_until`.
pub fn data_come()
    ensures { (c : Caller ℕ ℕ) (history : List (Moment ℕ)) (before : Router) (h : Host ℕ ℕ)
        (most spoken start : ℕ) (r : Router) (x : Exchange) (now : ℕ)
        → IsHistory c history before h → IsTimed history → latest history ≤ start
        → before.floor ≤ spoken
        → 1 ≤ c.settings.connect_limit → 1 ≤ c.settings.response_limit
        → served_until before start + c.settings.pause < 2 ^ 64
        → ComesInTime (record (exchanged c.settings history) { spoken = spoken }) start
        → IsBeside Unshown most before (record (exchanged c.settings history) { spoken = spoken })
        start r x now
        → IsShownBy most r x now (served_until before start) }
{}

/// After any history: with a cache that has data and keeps the rules from then on, all data that
/// come on later connections are of the highest version that both have, or a higher one that the
/// cache answers in. A router that fell to a lower version at a silent close begins such a
/// connection in time: at the first query after `rises`, which is within a stated bound. Until it
/// has fallen so twice, that is at most the refresh time of the data that came since.
pub fn version_rises()
    ensures highest { (c : Caller ℕ ℕ) (history : List (Moment ℕ)) (before : Router)
        (h : Host ℕ ℕ) (most start : ℕ) (r : Router) (x : Exchange) (now then : ℕ)
        (after : Router)
        → IsHistory c history before h → before.phase ≡ phases.Offline → before.fell ≡ false
        → IsBeside AnyStep most before (exchanged c.settings history) start r x now
        → IsStep r then events.Applied actions.Show after
        → min c.settings.highest most ≤ after.known.version }
    ensures again { (c : Caller ℕ ℕ) (history : List (Moment ℕ)) (r : Router) (h : Host ℕ ℕ)
        (now : ℕ) (a : Action) (after : Router)
        → IsHistory c history r h → IsStep r now events.Tick a after → Fresh r now
        → r.phase ≡ phases.Waiting → r.silent ≡ true → r.rises ≤ now → r.due ≤ now
        → r.settings.pause ≤ now - r.asked
        → (a ≡ ends_for causes.Higher) × (after.due ≡ now)
        × (opening_version after ≡ c.settings.highest) }
    ensures soon { (c : Caller ℕ ℕ) (history : List (Moment ℕ)) (r : Router) (h : Host ℕ ℕ)
        → IsHistory c history r h → IsTimed history
        → r.rises ≤ latest history + longest c.settings }
    ensures sooner { (c : Caller ℕ ℕ) (history : List (Moment ℕ)) (r : Router) (h : Host ℕ ℕ)
        (now : ℕ) (after : Router)
        → IsHistory c history r h → IsStep r now events.Applied actions.Show after
        → is_first_rise r ≡ true
        → (after.rises ≤ received r now + refresh_ms c.settings after.known)
        × (after.rises ≤ r.rises) × (is_first_rise after ≡ true) }
{}

/// There is a run in which data are shown, 40 milliseconds after its start, with a cache that keeps
/// the rules: it meets the premises of the laws about runs.
pub fn data_are_shown()
    ensures new { IsNew numbering.settings first }
    ensures run { IsHistory numbering first_answer sixth seven }
    ensures timed { IsTimed first_answer }
    ensures served { IsBeside Unshown 1 first none_yet 0 fifth (exchanged usual first_whole) 30 }
    ensures shows { IsStep fifth 40 events.Applied actions.Show sixth }
    ensures beside { IsBeside AnyStep 1 first none_yet 0 sixth (exchanged usual first_answer) 40 }
    ensures until { served_until first 0 ≡ 542000 }
{}

/// There is a run in which a cache of version 0 closes without an error report at a query in
/// version 1, and again when that version is tried after the refresh time, while the router has
/// data: it meets the premises of `version_rises`, of `never_below_data`, and of `recovers` for a
/// router with data.
pub fn version_is_tried_again()
    ensures low { IsHistory numbering low_answer low seven }
    ensures silent { (low.phase ≡ phases.Waiting) × (low.silent ≡ true) × Fresh low 3600050 }
    ensures due { (low.rises ≤ 3600050) × (low.due ≤ 3600050)
        × (low.settings.pause ≤ 3600050 - low.asked) }
    ensures rises { IsStep low 3600050 events.Tick (ends_for causes.Higher) risen }
    ensures run { IsHistory numbering rise risen seven }
    ensures served { IsBeside Unshown 0 risen (record (exchanged usual rise) { spoken = 0 }) 3600050
        lower (record (exchanged usual rise_lost) { spoken = 0 }) 3600070 }
    ensures until { served_until risen 3600050 ≡ 3600050 + 1626000 }
    ensures allowed { IsAllowed numbering rise_asked high_asked seven }
    ensures falls { MayStep high_asked 3600070 events.Lost (ends_for causes.Lower) lower }
    ensures has_data { high_asked.has_data ≡ true }
{}
