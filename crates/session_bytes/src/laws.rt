//! What holds of whole runs, in bytes, and of the numbers that both ends send.

ghost use Rattle.std.specs.List.{concat};
ghost use Rattle.std.specs.Option.{option_map};
ghost use Rattle.std.specs.Prelude.{◌≡◌, ◌⊎◌, ◌++◌, ℕ, Bool, List, None, Some, drop, take};
ghost use Rattle.rtr_units.specs.Codes.{code_of, peer_fault_of};
ghost use Rattle.unit_views.specs.OwedCodes.{read_fault};
ghost use Rattle.unit_views.specs.declared.fault.ViewFault.{ViewFault};
ghost use Rattle.data_memory.specs.ChangeCodes.{change_code, change_fault};
ghost use Rattle.data_memory.specs.declared.change_error.ChangeError.TheVariants as changes;
ghost use Rattle.session_cache.specs.Connections.{CacheMoment, IsConnection};
ghost use Rattle.session_cache.specs.declared.cache.Cache.{Cache};
ghost use Rattle.session_cache.specs.declared.event.Present.{Present};
ghost use Rattle.session_cache.specs.declared.settings.CacheSettings.{CacheSettings};
ghost use Rattle.session_bytes.specs.Reading.{Acts, Hears, KeepsAll};
ghost use Rattle.session_bytes.specs.Sending.{AreWhole, CacheHearsSent, HearsSent};
ghost use Rattle.session_bytes.specs.Sent.{refusal_code, refusal_fault, refusal_of};
ghost use Rattle.session_bytes.specs.Serving.{HearsRouter, ServesOn};
ghost use Rattle.session_bytes.specs.ShownData.{ActsOn, AppliesAnswers, AreHeard, KeepsOn};
ghost use Rattle.session_bytes.specs.ShownData.{ShowsAnswer};
ghost use Rattle.session_bytes.specs.declared.refusal.Refusal.TheVariants as refusals;
ghost use Rattle.session_bytes.specs.declared.serving.Served.{Served};
ghost use Rattle.session_bytes.specs.declared.telling.Told.{Told};
ghost use Rattle.session_router.specs.Histories.{Caller, Host, IsHistory, Moment};
ghost use Rattle.session_router.specs.declared.event.Action.{Action};
ghost use Rattle.session_router.specs.declared.router.Router.{Router};

use rtr_units::header::LAST_VERSION;
use session_router::settings::HIGHEST;

/// Whatever bytes a router receives, and whenever: if its caller passes units to the machine by
/// their bytes, and applies changes with `apply_in_order` of `data_slices`, it shows either no
/// data, or the result of one whole answer, applied by the rules of `Data::apply` to the data
/// before it or to no data. The shown data are in canonical form, each payload in a unit of the
/// version of the answer, and none are shown after they have expired.
pub fn only_whole_answers_in_bytes()
    ensures { (c : Caller (List ℕ) (List ℕ)) (history : List (Moment (List ℕ))) (r : Router)
        (h : Host (List ℕ) (List ℕ))
        → IsHistory c history r h → AreHeard history → AppliesAnswers c
        → (h.shown ≡ None)
        ⊎ ((shown : List ℕ) × (h.shown ≡ Some shown)
        × ShowsAnswer c.settings history r.known shown) }
{}

/// The result of `tell` for payload units that the machine keeps, and for a unit after them, is
/// that of a run of the machine over the bytes of each of these units, one after the other.
pub fn what_is_told_is_heard()
    ensures kept { (c : Caller (List ℕ) (List ℕ)) (history : List (Moment (List ℕ))) (r : Router)
        (h : Host (List ℕ) (List ℕ)) (now : ℕ) (b : List ℕ) (after : Router)
        → IsHistory c history r h → AreHeard history → KeepsAll now r b after
        → KeepsOn c h b after }
    ensures acted { (c : Caller (List ℕ) (List ℕ)) (history : List (Moment (List ℕ))) (r : Router)
        (h : Host (List ℕ) (List ℕ)) (now : ℕ) (input : List ℕ) (start end : ℕ) (a : Action)
        (after : Router)
        → IsHistory c history r h → AreHeard history → Acts r now input start end a after
        → ActsOn c h now (take start input) (drop start (take end input)) a after }
{}

/// Whatever bytes a cache receives, the results of `serve` are those of a run of its connection: so
/// what `orderly` of `session_cache` states about whole connections holds of them in bytes.
pub fn what_is_served_goes_on()
    ensures { (s : CacheSettings) (moments : List CacheMoment) (c : Cache) (now : ℕ) (p : Present)
        (kept input : List ℕ) (ended : Bool) (came : Served) (after : Cache)
        → IsConnection s moments c → HearsRouter c now p kept input ended came after
        → ServesOn s moments now p came after }
{}

/// Units that were sent one after the other are read as they were sent, in their order, from a
/// buffer that holds any prefix of their bytes: each unit that the machine is told of is the next
/// that was sent, byte for byte. `tell` and `serve` wait only if the next unit isn't whole, and
/// refuse only a unit that the end of the connection cuts off.
pub fn what_is_sent_is_heard()
    ensures router { (r : Router) (now : ℕ) (sent : List (List ℕ)) (input later : List ℕ)
        (ended : Bool) (t : Told) (after : Router)
        → AreWhole sent → concat sent ≡ input ++ later → Hears r now input ended t after
        → HearsSent r now sent input ended t after }
    ensures cache { (c : Cache) (now : ℕ) (present : Present) (kept : List ℕ)
        (sent : List (List ℕ)) (input later : List ℕ) (ended : Bool) (s : Served) (after : Cache)
        → AreWhole sent → concat sent ≡ input ++ later
        → HearsRouter c now present kept input ended s after
        → CacheHearsSent c now present kept sent input ended s after }
{}

/// A refused unit is refused for what the peer did wrong by its fault, so that text and error code
/// (RFC 8210 section 12) are those that `Fault` and `ViewFault` have for it; a fault that isn't the
/// peer's has neither a refusal nor a code. A refused change is refused for what `ChangeError` of
/// `data_memory` names, and its code is that of `ChangeError::code`.
pub fn codes_of_refusals()
    ensures unit_fault { (fault : ViewFault) (report : List ℕ) →
        option_map refusal_fault (refusal_of fault) ≡ peer_fault_of (read_fault report fault) }
    ensures double { Some (refusal_fault refusals.Duplicate) ≡ change_fault changes.Duplicate }
    ensures absent { Some (refusal_fault refusals.Unknown) ≡ change_fault changes.Unknown }
    ensures unit { (fault : ViewFault) (report : List ℕ) →
        option_map refusal_code (refusal_of fault) ≡ code_of (read_fault report fault) }
    ensures duplicate { Some (refusal_code refusals.Duplicate) ≡ change_code changes.Duplicate }
    ensures unknown { Some (refusal_code refusals.Unknown) ≡ change_code changes.Unknown }
{}

/// The highest version of a router and a cache is the last version that has units.
pub fn versions_of_sessions()
    ensures { HIGHEST ≡ LAST_VERSION }
{}
