//! A client as a member of a group: reports the client's next action to the group as an event.

ghost use Rattle.std.specs.Prelude.{◌≡◌, ◌≢◌, ℕ, Bool, true, Option};
ghost use Rattle.session_client.specs.Next.{IsTodoOf};
ghost use Rattle.session_client.specs.declared.next.Todo.{Todo};
ghost use Rattle.session_group.specs.Ends.{tells_at_end};
ghost use Rattle.session_router.specs.declared.event.Action.{Action};
ghost use Rattle.rtr_c.specs.GroupsTold.{IsGroupTold, action_tells, event_of_todo, group_told};
ghost use Rattle.rtr_c.specs.GroupsTold.{is_known_todo, no_group_answer, telling_group_status};
ghost use Rattle.rtr_c.specs.LinkTodos.{todo_told};
ghost use Rattle.rtr_c.specs.RouterActions.{numbered_cause};
ghost use Rattle.rtr_c.specs.Routers.{clock};

use crate::group::{RtrGroup, RtrGroupAnswer, group_answer_to, group_from, group_to};
use crate::link_todo::{CLOSE, DATA, DROPPED, GO, NO_DATA, OUTPUT_ROOM, RtrTodo};
use crate::numbers::clock;
use crate::router_action::cause_from;
use session_group::event::{Answer, Event, Shown};
use session_router::event::Cause;

/// The event, if there is one, was reported to the group.
const TOLD: u8 = 0;
/// No call that succeeded returns this todo.
const NO_TODO: u8 = 1;
/// The group has no such member.
const NO_MEMBER: u8 = 2;

/// The greatest number of a cause.
const LAST_CAUSE: u8 = 15;

/// Reports a member's todo to the group, as `session_client::Client` returned it, with the number
/// of the payloads of its data. That is at most one event. For a todo of a refused call, or a
/// member that the group doesn't have, nothing happens, and the status is the reason.
#[unsafe(no_mangle)]
pub extern "C" fn rtr_group_tell(
    group: &mut RtrGroup,
    now: u64,
    member: usize,
    todo: &RtrTodo,
    payloads: usize,
    answer: &mut RtrGroupAnswer,
) -> u8
    ensures status { result ≡ telling_group_status group.old member todo.now }
    ensures refused { result ≢ group_told
        → (group.new ≡ group.old) × (answer.new ≡ no_group_answer) }
    ensures told { result ≡ group_told → IsGroupTold group.old (clock now) member
        (event_of_todo payloads todo.now) answer.new group.new }
{
    let status = status_of(group, member, todo);
    *answer = if status == TOLD {
        tell(group, now, member, event_of(todo, payloads))
    } else {
        nothing()
    };
    status
}

/// The status of the call.
fn status_of(group: &RtrGroup, member: usize, todo: &RtrTodo) -> u8
    ensures { result ≡ telling_group_status group.now member todo.now }
{
    if !is_known(todo) {
        NO_TODO
    } else if member < group.count {
        TOLD
    } else {
        NO_MEMBER
    }
}

/// Reports whether a call for a client that succeeded may return this.
fn is_known(todo: &RtrTodo) -> bool
    ensures { result ≡ is_known_todo todo.now }
{
    GO <= todo.kind && todo.kind <= OUTPUT_ROOM && (todo.kind != CLOSE || todo.cause <= LAST_CAUSE)
}

/// The event of the group for this todo, if there is one.
fn event_of(todo: &RtrTodo, payloads: usize) -> Option<Event>
    ensures { result ≡ event_of_todo payloads todo.now }
{
    match todo.kind {
        DATA => Some(Event::Shows(payloads)),
        DROPPED => Some(Event::Drops),
        NO_DATA => Some(Event::Fails),
        CLOSE => event_of_end(todo.drops, cause_from(todo.cause)),
        _ => None,
    }
}

/// The event of the group for the end of a connection, if there is one.
fn event_of_end(drops: bool, cause: Cause) -> Option<Event>
    ensures { result ≡ tells_at_end drops cause }
{
    if drops {
        return Some(Event::Drops);
    }
    match cause {
        Cause::Lower | Cause::Higher => None,
        _ => Some(Event::Fails),
    }
}

/// Takes a step of the group, if there is an event.
fn tell(group: &mut RtrGroup, now: u64, member: usize, event: Option<Event>) -> RtrGroupAnswer
    ensures { IsGroupTold group.old (clock now) member event result group.new }
{
    match event {
        Some(event) => {
            let mut machine = group_from(group);
            let answer = machine.step(clock(now), member, event);
            *group = group_to(&machine);
            group_answer_to(&answer)
        }
        None => nothing(),
    }
}

/// An answer without any action.
fn nothing() -> RtrGroupAnswer
    ensures { result ≡ no_group_answer }
{
    group_answer_to(&Answer {
        shown: Shown::Same,
        stops: None,
        starts: None,
    })
}

/// The event that a group is told for a client's todo is that of the action of the client's
/// machine, as in the laws of `session_group`; and no such todo is refused.
pub fn todos_tell_actions()
    ensures event { (action : Option Action) (t : Todo) (second : Bool) (before wakes p : ℕ)
        → IsTodoOf action t
        → event_of_todo p (todo_told t second before wakes) ≡ action_tells p action }
    ensures known { (t : Todo) (second : Bool) (before wakes : ℕ)
        → is_known_todo (todo_told t second before wakes) ≡ true }
{}
