//! What holds of clients that are the members of a group.

ghost use Rattle.std.specs.Prelude.{◌≡◌, ℕ, List, Option, Some, None, length};
ghost use Rattle.session_client.specs.Makings.{Octets};
ghost use Rattle.session_client.specs.Next.{IsTodoOf};
ghost use Rattle.session_client.specs.declared.next.Todo.{Todo};
ghost use Rattle.session_group.specs.Groups.{best_of};
ghost use Rattle.session_group.specs.Runs.{GroupMoment, Listener, LeavesNone, RunsInOrder};
ghost use Rattle.session_group.specs.Runs.{IsGroupRun, ShowsBest, best_in};
ghost use Rattle.session_group.specs.declared.event.Event.TheVariants as events;
ghost use Rattle.session_group.specs.declared.group.Group.{Group};
ghost use Rattle.session_group.specs.declared.settings.Settings.{Settings};
ghost use Rattle.session_group_laws.specs.Buffers.{ClientHas, IsRunOfClients, ShowsDataOfClient};
ghost use Rattle.session_group_laws.specs.Members.{CallsMember, IsRunOfMembers, MemberClient};
ghost use Rattle.session_group_laws.specs.Members.{taken_tells, todo_tells};
ghost use Rattle.session_router.specs.declared.event.Action.{Action};
ghost use Rattle.session_router.specs.declared.settings.Settings as routers;

use session_client::laws::{only_whole_answers_are_shown, room_may_change};
use session_group::laws::{asked_in_order, best_data_shown};

/// The event that a group is told for a call is that of the action that the client's machine took
/// in it, as in the laws of `session_group`: at most one event, and none without an action.
pub fn calls_tell_actions()
    ensures { (action : Option Action) (t : Todo) (p : ℕ) → IsTodoOf action t
        → todo_tells p t ≡ taken_tells p action }
{}

/// Exactly a loss of data is reported as a loss: after a call that is reported as a loss, the
/// client has no data; after any other call that isn't reported as new data, it has the same data
/// as before, or none as before.
pub fn losses_are_told()
    ensures loss { (p : ℕ) (t : Todo) (x x' : MemberClient) → CallsMember x x' t
        → todo_tells p t ≡ Some events.Drops → x'.client.shown ≡ None }
    ensures failure { (p : ℕ) (t : Todo) (x x' : MemberClient) → CallsMember x x' t
        → todo_tells p t ≡ Some events.Fails → x'.client.shown ≡ x.client.shown }
    ensures silence { (p : ℕ) (t : Todo) (x x' : MemberClient) → CallsMember x x' t
        → todo_tells p t ≡ None → x'.client.shown ≡ x.client.shown }
{}

/// Whatever calls of its clients are made, in any order and at any time: if a group is told each
/// client's next action, its state is that of a run of a group. So its caller shows the data of the
/// most preferred member that is current, or else of the member whose last whole answer is the
/// latest; the group returns that member; a member runs if and only if each one before it failed or
/// was silent for the patience; and a member that doesn't run has no data.
pub fn clients_make_a_group()
    ensures run { (count : ℕ) (s : Settings) (history : List (GroupMoment ℕ)) (g : Group)
        (c : Listener ℕ) (xs : ℕ → MemberClient) → IsRunOfMembers count s history g c xs
        → IsGroupRun count s history g c }
    ensures shown { (count : ℕ) (s : Settings) (history : List (GroupMoment ℕ)) (g : Group)
        (c : Listener ℕ) (xs : ℕ → MemberClient) → IsRunOfMembers count s history g c xs
        → ShowsBest c }
    ensures best { (count : ℕ) (s : Settings) (history : List (GroupMoment ℕ)) (g : Group)
        (c : Listener ℕ) (xs : ℕ → MemberClient) → IsRunOfMembers count s history g c xs
        → best_of g ≡ best_in c }
    ensures runs { (count : ℕ) (s : Settings) (history : List (GroupMoment ℕ)) (g : Group)
        (c : Listener ℕ) (xs : ℕ → MemberClient) → IsRunOfMembers count s history g c xs
        → RunsInOrder count c }
    ensures none { (count : ℕ) (s : Settings) (history : List (GroupMoment ℕ)) (g : Group)
        (c : Listener ℕ) (xs : ℕ → MemberClient) → IsRunOfMembers count s history g c xs
        → LeavesNone c }
{
    best_data_shown();
    asked_in_order()
}

/// There is a run of two clients in which the first one shows a prefix, and the group its data: it
/// meets the premises of these laws.
pub fn shows_data_of_a_client()
    ensures { (history : List (GroupMoment ℕ)) × (g : Group) × (c : Listener ℕ)
        × (xs : ℕ → MemberClient) × (s : Settings) × IsRunOfMembers 2 s history g c xs
        × (best_of g ≡ Some 0) × (c.shown ≡ Some 44) × ((xs 0).client.shown ≡ Some 44) }
{}

/// Whenever the group shows data of a member, these are the bytes that this member's client last
/// reported as data, unchanged since: its data buffer still begins with them, and they are the
/// result of one whole answer of its cache. The same holds of the data of each member, shown or
/// not.
pub fn shown_data_are_a_clients()
    ensures shown { (count : ℕ) (s : Settings) (t : ℕ → routers.Settings) (bytes : ℕ → Octets)
        (history : List (GroupMoment ℕ)) (g : Group) (c : Listener ℕ) (xs : ℕ → MemberClient)
        → IsRunOfClients count s t bytes history g c xs → ShowsDataOfClient bytes t c xs }
    ensures each { (count : ℕ) (s : Settings) (t : ℕ → routers.Settings) (bytes : ℕ → Octets)
        (history : List (GroupMoment ℕ)) (g : Group) (c : Listener ℕ) (xs : ℕ → MemberClient)
        (m d : ℕ) → IsRunOfClients count s t bytes history g c xs
        → (c.members m).has ≡ Some d → ClientHas (bytes d) (xs m) }
{
    room_may_change();
    only_whole_answers_are_shown();
    asked_in_order();
    best_data_shown()
}

/// A call that is reported as a failure, or isn't reported, leaves the bytes of a client's data
/// unchanged.
pub fn told_data_stay()
    ensures failure { (p : ℕ) (t : Todo) (x x' : MemberClient) (d : Octets) → CallsMember x x' t
        → todo_tells p t ≡ Some events.Fails → ClientHas d x → ClientHas d x' }
    ensures silence { (p : ℕ) (t : Todo) (x x' : MemberClient) (d : Octets) → CallsMember x x' t
        → todo_tells p t ≡ None → ClientHas d x → ClientHas d x' }
{}

/// There is a run of two clients in which the group shows the bytes of the first one's data: it
/// meets the premises of `shown_data_are_a_clients`.
pub fn shows_bytes_of_a_client()
    ensures { (history : List (GroupMoment ℕ)) × (g : Group) × (c : Listener ℕ)
        × (xs : ℕ → MemberClient) × (s : Settings) × (t : ℕ → routers.Settings)
        × (bytes : ℕ → Octets) × (d : ℕ) × IsRunOfClients 2 s t bytes history g c xs
        × (c.shown ≡ Some d) × (length (bytes d) ≡ 44) × ClientHas (bytes d) (xs 0) }
{}
