//! What holds of whole runs.

ghost use Rattle.std.specs.Prelude.{◌≡◌, ◌≤◌, ◌<◌, ℕ, List, Option, true, false};
ghost use Rattle.session_router.specs.Histories as histories;
ghost use Rattle.session_router.specs.Exchange.{Exchange, exchanged};
ghost use Rattle.session_router.specs.Recovery.{served_until};
ghost use Rattle.session_group.specs.Ends.{End, IsGroup, ShowsWhole};
ghost use Rattle.session_group.specs.Groups.{ChangesNothing, best_of, group_after};
ghost use Rattle.session_group.specs.Recovery.{IsWaitedFor, shown_until};
ghost use Rattle.session_group.specs.Served.{Deed, GroupStep, IsServedIn, GroupReaches, served_by};
ghost use Rattle.session_group.specs.Runs.{ChangesRightly, GroupMoment, Happened, IsGroupRun};
ghost use Rattle.session_group.specs.Runs.{LeavesNone, Listener, NeverOlder, RunsInOrder};
ghost use Rattle.session_group.specs.Runs.{ShowsBest};
ghost use Rattle.session_group.specs.Runs.{answer_then, best_in, caller_then};
ghost use Rattle.session_group.specs.declared.event.Event.TheVariants as events;
ghost use Rattle.session_group.specs.declared.group.Group.{Group};
ghost use Rattle.session_group.specs.declared.settings.Settings as settings;

/// Whatever comes to a group, and whenever, its caller shows the data of the most preferred member
/// that is current; if none is current, the data of the member with data whose last whole answer is
/// the latest; and none if no member has data. `Group::best` returns that member.
pub fn best_data_shown()
    ensures shown { (count : ℕ) (s : settings.Settings) (history : List (GroupMoment ℕ)) (g : Group)
        (c : Listener ℕ) → IsGroupRun count s history g c → ShowsBest c }
    ensures best { (count : ℕ) (s : settings.Settings) (history : List (GroupMoment ℕ)) (g : Group)
        (c : Listener ℕ) → IsGroupRun count s history g c → best_of g ≡ best_in c }
{}

/// Whatever comes: the shown data change if and only if that member is another one, or has new
/// data.
pub fn changes_with_it()
    ensures { (count : ℕ) (s : settings.Settings) (history : List (GroupMoment ℕ)) (g : Group)
        (c : Listener ℕ) (n : ℕ) (h : Happened ℕ) → IsGroupRun count s history g c
        → ChangesRightly c h (answer_then g n h) (caller_then c n h (answer_then g n h)) }
{}

/// Whatever comes: shown data are replaced by those of another member only if that member is
/// current, or if they are gone. So data of a whole answer are never replaced by those of an
/// earlier one.
pub fn never_older()
    ensures { (count : ℕ) (s : settings.Settings) (history : List (GroupMoment ℕ)) (g : Group)
        (c : Listener ℕ) (n : ℕ) (h : Happened ℕ) → IsGroupRun count s history g c
        → NeverOlder c (caller_then c n h (answer_then g n h)) }
{}

/// Whatever comes: a member runs if and only if each one before it, since it started and since its
/// last whole answer, failed or was silent for the patience. A stopped member has no data.
pub fn asked_in_order()
    ensures runs { (count : ℕ) (s : settings.Settings) (history : List (GroupMoment ℕ)) (g : Group)
        (c : Listener ℕ) → IsGroupRun count s history g c → RunsInOrder count c }
    ensures none { (count : ℕ) (s : settings.Settings) (history : List (GroupMoment ℕ)) (g : Group)
        (c : Listener ℕ) → IsGroupRun count s history g c → LeavesNone c }
{}

/// A failure counts once. Whatever comes: if a member failed, lost its data or was silent for the
/// patience, since it started and since its last whole answer, its next failure changes nothing. So
/// its caller may report a loss of data and then, whatever else happens between, the failure that
/// caused it: both count as one event, also for the routers' ends of `whole_answers_of_one`.
pub fn failure_counts_once()
    ensures again { (count : ℕ) (s : settings.Settings) (history : List (GroupMoment ℕ)) (g : Group)
        (c : Listener ℕ) (m n : ℕ) → IsGroupRun count s history g c
        → (c.members m).gave_way ≡ true → ChangesNothing g n m events.Fails }
    ensures loss { (g : Group) (m n later : ℕ)
        → ChangesNothing (group_after g n m events.Drops) later m events.Fails }
    ensures ends { (c : ℕ → histories.Caller ℕ ℕ) (count : ℕ) (s : settings.Settings)
        (payloads : ℕ → ℕ) (history : List (GroupMoment ℕ)) (g : Group) (k : Listener ℕ)
        (ends : ℕ → End ℕ ℕ) (m n : ℕ) → IsGroup c count s payloads history g k ends
        → (k.members m).gave_way ≡ true → ChangesNothing g n m events.Fails }
{}

/// A group recovers. After any history: if member `i` keeps the rules from `start` on, so that it
/// isn't without a whole answer for longer than `within` while it runs, then by `shown_until` it or
/// a more preferred member is current; so the data of one of these are shown by then
/// (`best_data_shown`).
pub fn group_recovers()
    ensures { (count : ℕ) (s : settings.Settings) (history : List (GroupMoment ℕ)) (g₀ : Group)
        (c₀ : Listener ℕ) (i within start : ℕ) (g : Group) (c : Listener ℕ) (now : ℕ)
        → IsGroupRun count s history g₀ c₀ → i < count
        → ((j : ℕ) → (c₀.members j).began ≤ start)
        → IsWaitedFor i within start g₀ c₀ g c now → now ≤ shown_until c₀ i within start }
{}

/// The same by messages. After any history of a group of routers' ends: if the cache of member `i`
/// has data and keeps the rules from `start` on, by the messages exchanged with it, then member `i`
/// or a more preferred member is current by a stated time. If the member runs at `start`, that is
/// when its router recovers (`recovers` of `session_router`); otherwise it is `served_by`: a
/// patience for each member before it, and a connection for each version. Each step of such a run
/// leads from a run of a group to another one.
pub fn group_recovers_by_messages()
    ensures running { (c : ℕ → histories.Caller ℕ ℕ) (count : ℕ) (s : settings.Settings)
        (payloads : ℕ → ℕ) (history : List (GroupMoment ℕ)) (g₀ g : Group) (k₀ k : Listener ℕ)
        (ends₀ ends : ℕ → End ℕ ℕ) (i most spoken start : ℕ) (x : Exchange) (now : ℕ)
        → IsGroup c count s payloads history g₀ k₀ ends₀
        → (k₀.members i).runs ≡ true → (ends₀ i).router.floor ≤ spoken
        → IsServedIn c payloads i most start g₀ k₀ ends₀
        (record (exchanged (c i).settings (ends₀ i).history) { spoken = spoken }) g k ends x now
        → now ≤ served_until (ends₀ i).router start }
    ensures waiting { (c : ℕ → histories.Caller ℕ ℕ) (count : ℕ) (s : settings.Settings)
        (payloads : ℕ → ℕ) (history : List (GroupMoment ℕ)) (g₀ g : Group) (k₀ k : Listener ℕ)
        (ends₀ ends : ℕ → End ℕ ℕ) (i most start : ℕ) (x₀ x : Exchange) (now : ℕ)
        → IsGroup c count s payloads history g₀ k₀ ends₀ → i < count
        → (k₀.members i).runs ≡ false → ((j : ℕ) → (k₀.members j).began ≤ start)
        → IsServedIn c payloads i most start g₀ k₀ ends₀ x₀ g k ends x now
        → now ≤ served_by k₀ (c i).settings i start }
    ensures groups { (c : ℕ → histories.Caller ℕ ℕ) (count : ℕ) (s : settings.Settings)
        (payloads : ℕ → ℕ) (history : List (GroupMoment ℕ)) (g g' : Group) (k k' : Listener ℕ)
        (ends ends' : ℕ → End ℕ ℕ) (n : ℕ) (did : Option Deed) (starts : Option ℕ)
        → IsGroup c count s payloads history g k ends
        → GroupStep c payloads n g k ends did starts g' k' ends'
        → GroupReaches c count s payloads g' k' ends' }
{}

/// Whatever comes to the routers' ends of a group, and whenever: its caller shows either no data,
/// or those that the best end shows. These are the result of one whole answer of that cache,
/// applied to no data or to the data of that end before it, and they haven't expired.
pub fn whole_answers_of_one()
    ensures { (c : ℕ → histories.Caller ℕ ℕ) (count : ℕ) (s : settings.Settings)
        (payloads : ℕ → ℕ) (history : List (GroupMoment ℕ)) (g : Group) (k : Listener ℕ)
        (ends : ℕ → End ℕ ℕ) → IsGroup c count s payloads history g k ends
        → ShowsWhole c s payloads k ends }
{}
