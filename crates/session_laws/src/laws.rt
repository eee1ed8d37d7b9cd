//! What holds of a router and a cache that are connected, over payloads and over bytes.

ghost use Rattle.std.specs.Prelude.{◌≡◌, ◌∷◌, ◌++◌, ℕ, Bool, List, true};
ghost use Rattle.session_laws.specs.Editions.{PayloadEdition, ShowsEdition, editions_of};
ghost use Rattle.session_laws.specs.Editions.{payload_source};
ghost use Rattle.session_laws.specs.Pipes.{IsRunOfUnits, Joined, IsRunInBytes, ShowsBytes};
ghost use Rattle.session_cache.specs.declared.cache.Cache.{Cache};
ghost use Rattle.session_cache.specs.Worlds.{GoesOn, IsListening, IsOneDataPerName, IsPeaceful};
ghost use Rattle.session_cache.specs.Worlds.{IsReached, Sent, World};
ghost use Rattle.session_bytes.specs.Reading.{Acts, Hears};
ghost use Rattle.session_bytes.specs.Sending.{CacheHearsSent, HearsSent};
ghost use Rattle.session_bytes.specs.Serving.{HearsRouter};
ghost use Rattle.session_bytes.specs.ShownData.{AppliesAnswers};
ghost use Rattle.session_bytes.specs.declared.serving.Served.{Served};
ghost use Rattle.session_bytes.specs.declared.telling.Told.{Told};
ghost use Rattle.data_memory.specs.Data.{Change};
ghost use Rattle.rtr_payload.specs.Payloads.{Payload};
ghost use Rattle.session_router.specs.Histories.{Caller};
ghost use Rattle.session_router.specs.Rules.{Fresh};
ghost use Rattle.session_router.specs.Step.{IsInTime, IsStep};
ghost use Rattle.session_router.specs.declared.event.Action.{Action};
ghost use Rattle.session_router.specs.declared.event.Event.TheVariants as events;
ghost use Rattle.session_router.specs.declared.router.Router.{Router};

/// Over any number of connections of a router and a cache of this library, each cut anywhere, with
/// new editions, sessions and restarts of the cache at any time: whenever a router has data, it
/// shows the payloads of the edition that the cache had under their session and serial number, as
/// far as the router's version has them.
pub fn payloads_agree()
    ensures { (editions : List PayloadEdition) (w : World (List Payload) Change)
        → w.had ≡ editions_of editions → IsOneDataPerName w.had
        → IsReached (List Payload) Change payload_source w → w.router.has_data ≡ true
        → ShowsEdition w }
{}

/// In any such run a router of this library ends no connection because of what a cache of this
/// library sends, unless that is of another session, goes back in serial numbers, exceeds the
/// limits of an answer, or is a report; this holds while the data haven't expired and no deadline
/// has passed.
pub fn payloads_in_peace()
    ensures { (editions : List PayloadEdition) (w : World (List Payload) Change) (x : Sent Change)
        (rest : List (Sent Change)) (n : ℕ) (a : Action) (after : Router)
        → w.had ≡ editions_of editions → IsOneDataPerName w.had
        → IsReached (List Payload) Change payload_source w → w.to_router ≡ x ∷ rest
        → IsListening w.router.phase → Fresh w.router n → IsInTime w.router n
        → IsPeaceful w.router x.head → IsStep w.router n (events.Came x.head) a after
        → GoesOn a }
{}

/// The same in bytes, however reads split them: over any number of connections of a router and a
/// cache of this library, whenever the router has data, the bytes that it shows are data in
/// canonical form, with the payloads of the edition that the cache had under their session and
/// serial number, as far as the router's version has them. The cache writes the output of
/// `write_all`, `write_delta` and `delta_into`; the router reads it with `tell` and applies changes
/// with `apply_in_order`.
pub fn bytes_agree()
    ensures { (c : Caller (List ℕ) (List ℕ)) (w : Joined)
        → AppliesAnswers c → IsOneDataPerName (editions_of w.had) → IsRunInBytes c w
        → w.router.has_data ≡ true → ShowsBytes w }
{}

/// In any such run the bytes on their way are units, each as it was sent, and each side reads the
/// next of them, byte for byte, from any prefix of the bytes, however they are split. Neither
/// refuses any of them, unless the end of the connection cuts it off.
pub fn bytes_are_units()
    ensures units { (c : Caller (List ℕ) (List ℕ)) (w : Joined)
        → AppliesAnswers c → IsRunInBytes c w → IsRunOfUnits w }
    ensures router { (c : Caller (List ℕ) (List ℕ)) (w : Joined) (n : ℕ)
        (input later : List ℕ) (ended : Bool) (t : Told) (after : Router)
        → AppliesAnswers c → IsRunInBytes c w → w.to_router ≡ input ++ later
        → Hears w.router n input ended t after
        → (x : IsRunOfUnits w) × HearsSent w.router n x.units input ended t after }
    ensures cache { (c : Caller (List ℕ) (List ℕ)) (w : Joined) (n : ℕ)
        (kept input later : List ℕ) (ended : Bool) (s : Served) (after : Cache)
        → AppliesAnswers c → IsRunInBytes c w → w.to_cache ≡ input ++ later
        → HearsRouter w.cache n w.present.name kept input ended s after
        → (x : IsRunOfUnits w)
        × CacheHearsSent w.cache n w.present.name kept x.queries input ended s after }
{}

/// In any such run a router of this library ends no connection because of the bytes of a cache of
/// this library, with the same exceptions as for its units.
pub fn bytes_in_peace()
    ensures { (c : Caller (List ℕ) (List ℕ)) (w : Joined) (n : ℕ)
        (input later : List ℕ) (start end : ℕ) (a : Action) (after : Router)
        → AppliesAnswers c → IsOneDataPerName (editions_of w.had) → IsRunInBytes c w
        → w.to_router ≡ input ++ later
        → (heard : Acts w.router n input start end a after)
        → IsListening heard.before.phase → Fresh heard.before n → IsInTime heard.before n
        → IsPeaceful heard.before heard.head → GoesOn a }
{}
