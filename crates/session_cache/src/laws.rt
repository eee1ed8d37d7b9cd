//! What holds of whole connections of a cache, and of a router and a cache that are connected.

ghost use Rattle.std.specs.Prelude.{◌≡◌, ◌≤◌, ◌+◌, ◌∷◌, ℕ, Bool, List, Some, max, true};
ghost use Rattle.session_cache.specs.CacheSteps.{IsCacheStep};
ghost use Rattle.session_cache.specs.Calm.{IsAtRest, IsCalm, IsNotified, IsToldOfNews};
ghost use Rattle.session_cache.specs.Calm.{ShowsPresent};
ghost use Rattle.session_cache.specs.Connections.{CacheMoment, IsAllowedConnection, IsOrderly};
ghost use Rattle.session_cache.specs.Worlds.{IsAnswering, answer_to};
ghost use Rattle.session_cache.specs.CacheRules.{CacheRule};
ghost use Rattle.session_cache.specs.declared.event.Answer.TheVariants as answers;
ghost use Rattle.session_cache.specs.Worlds.{Agrees, AreFrom, Edition, GoesOn, IsListening};
ghost use Rattle.session_cache.specs.Worlds.{IsLived};
ghost use Rattle.session_cache.specs.Worlds.{IsPeaceful};
ghost use Rattle.session_cache.specs.Worlds.{IsOneDataPerName, IsReached, IsSource, Sent, Source};
ghost use Rattle.session_cache.specs.Worlds.{World};
ghost use Rattle.session_cache.specs.declared.cache.Cache.{Cache};
ghost use Rattle.session_cache.specs.declared.event.Answer.{Answer};
ghost use Rattle.session_cache.specs.declared.event.CacheEvent.TheVariants as told;
ghost use Rattle.session_cache.specs.declared.event.Present.{Present};
ghost use Rattle.session_cache.specs.declared.settings.CacheSettings.{CacheSettings};
ghost use Rattle.session_router.specs.Recovery.{served_until, time_needed};
ghost use Rattle.session_router.specs.Rules.{Fresh};
ghost use Rattle.session_router.specs.Step.{IsInTime, IsStep};
ghost use Rattle.session_router.specs.declared.event.Action.{Action};
ghost use Rattle.session_router.specs.declared.event.Action.TheVariants as actions;
ghost use Rattle.session_router.specs.declared.event.Event.TheVariants as events;
ghost use Rattle.session_router.specs.declared.head.Head.{Head};
ghost use Rattle.session_router.specs.declared.router.Phase.TheVariants as phases;
ghost use Rattle.session_router.specs.declared.router.Router.{Router};

/// Over any number of connections, each cut anywhere, with new data, sessions and notifies at the
/// cache at any time, and whichever of their allowed steps the router and the cache take: whenever
/// the router has data, it shows the data that the cache had under their session and serial number,
/// as far as the router's version has them.
pub fn agreement<D, C>()
    ensures { (S : Source D C) (w : World D C) → IsSource D C S w.had → IsOneDataPerName w.had
        → IsReached D C S w → w.router.has_data ≡ true → Agrees D C w }
{}

/// In any such run a router of this library ends no connection because of what a cache of this
/// library sends, unless that is of another session, goes back in serial numbers, exceeds the
/// limits of an answer, or is a report; this holds while the data haven't expired and no deadline
/// has passed.
pub fn peace<D, C>()
    ensures { (S : Source D C) (w : World D C) (x : Sent C) (rest : List (Sent C)) (n : ℕ)
        (a : Action) (after : Router) → IsSource D C S w.had → IsOneDataPerName w.had
        → IsReached D C S w → w.to_router ≡ x ∷ rest → IsListening w.router.phase → Fresh w.router n
        → IsInTime w.router n → IsPeaceful w.router x.head
        → IsStep w.router n (events.Came x.head) a after → GoesOn a }
{}

/// In any such run, when a cache of this library gets a query of a supported version from a router
/// of this library that awaits an answer, the query has this answer, unless the deadline for a
/// query has passed, the cache has begun another session, or it is set to refuse. If the cache
/// answers with changes, they are from data that the cache had.
pub fn queries_are_answered<D, C>()
    ensures answer { (S : Source D C) (w : World D C) (u : Head) (rest : List Head) (kept : Bool)
        (n : ℕ) (a : Answer) (after : Cache) → IsSource D C S w.had → IsOneDataPerName w.had
        → IsReached D C S w → w.to_cache ≡ u ∷ rest → w.router.phase ≡ phases.Asked
        → w.router.version ≤ 2 → IsAnswering w.cache n w.present.name
        → IsCacheStep w.cache n w.present.name (told.Came u kept) a after
        → a ≡ answer_to w.present.name u kept }
    ensures base { (S : Source D C) (w : World D C) (u : Head) (rest : List Head) (kept : Bool)
        (n since : ℕ) (after : Cache) → IsSource D C S w.had → IsOneDataPerName w.had
        → IsReached D C S w → w.to_cache ≡ u ∷ rest
        → CacheRule w.cache n w.present.name (told.Came u kept) (answers.Changes since) after
        → (old : Edition D) × AreFrom w.had w.present (answers.Changes since) old }
{}

/// Whatever a cache is told on a connection, with whichever data, and whichever of its allowed
/// steps it takes: notifies come at least a pause apart and none before a query was answered, all
/// answered queries are of one version, all data of one session, and nothing comes after the end.
pub fn orderly()
    ensures { (s : CacheSettings) (moments : List CacheMoment) (c : Cache)
        → IsAllowedConnection s moments c → IsOrderly s.pause moments }
{}

/// After a cut, or from when a router has asked or waits and only notifies are on their way to it,
/// while from then on no connection is cut, no new data come, the cache ends no connection, and
/// each answer comes in time and is within the limits: the router shows data by `served_until`, a
/// formula of its pause and its limits, and these are the present data of the cache, as far as the
/// router's version has them. If it waited, and then gets a notify of the present data, that time
/// counts from the notify, or from a pause after its last query if that is later; and the notify
/// comes when the cache may send it, which is a pause after the previous one, plus the time that
/// the pipe takes.
pub fn current_again<D, C>()
    ensures soon { (S : Source D C) (before w : World D C) (start n : ℕ)
        → IsSource D C S before.had → IsOneDataPerName before.had → IsLived D C S before
        → IsAtRest D C before → IsCalm D C S before start w n
        → n ≤ served_until before.router start }
    ensures present { (S : Source D C) (before w : World D C) (start n later : ℕ) (d : D)
        (after : Router) → IsSource D C S before.had → IsOneDataPerName before.had
        → IsLived D C S before → IsAtRest D C before → IsCalm D C S before start w n
        → w.host.made ≡ Some d → IsStep w.router later events.Applied actions.Show after
        → ShowsPresent D before.present after w.host.made }
    ensures notified { (r : Router) (p : Present) (u : Head) (n : ℕ) (a : Action) (after : Router)
        → IsNotified r p u → Fresh r n → IsInTime r n → IsStep r n (events.Came u) a after
        → served_until after n
        ≤ max n (after.asked + after.settings.pause) + time_needed phases.Waiting after }
    ensures news { (S : Source D C) (before w : World D C) (start d heard n : ℕ) (c : Cache)
        (r : Router) → IsSource D C S before.had → IsOneDataPerName before.had
        → IsLived D C S before → IsAtRest D C before
        → IsToldOfNews D C start d c r heard before → IsCalm D C S before heard w n
        → n ≤ max (max start c.notify_from + d) (r.asked + r.settings.pause)
        + time_needed phases.Waiting before.router }
{}
