//! Which failure the end of a router's connection is.

ghost use Rattle.std.specs.Prelude.{◌≡◌, ℕ, Bool, Option};
ghost use Rattle.session_bytes.specs.declared.refusal.Refusal.{Refusal};
ghost use Rattle.session_router.specs.declared.event.Ending.{Ending};
ghost use Rattle.rtr_c.specs.Failures.{cause_failure, changes_version, ending_failure};
ghost use Rattle.rtr_c.specs.Failures.{failure_of};
ghost use Rattle.rtr_c.specs.LinkTodos.{close_todo, status_of_refusal};

use crate::answer::ACCEPTED;
use crate::link_todo::{CLOSE, DROPPED, NO_DATA, RtrTodo};
use crate::router_action::cause_from;
use session_router::event::Cause;

/// None: nothing failed, or the router connects again at once, in another version.
const NONE: u8 = 0;

const LOST: u8 = 1;

const SLOW: u8 = 2;

const TOO_LONG: u8 = 3;

const REFUSED: u8 = 4;

const BREACH: u8 = 5;

const REPORTED: u8 = 6;

const EXPIRED: u8 = 7;

const MEMORY: u8 = 8;

/// Returns the failure that this todo means for the caller: the end of a connection, data that have
/// expired, or a cache without data; none for another todo. `gave_up` is whether
/// `rtr_link_give_up` returned it.
#[unsafe(no_mangle)]
pub extern "C" fn rtr_todo_failure(todo: &RtrTodo, gave_up: bool) -> u8
    ensures { result ≡ failure_of todo.now gave_up }
{
    match todo.kind {
        CLOSE => failure_at_end(cause_from(todo.cause), todo.status, gave_up),
        DROPPED => EXPIRED,
        NO_DATA => REPORTED,
        _ => NONE,
    }
}

/// The failure of a connection that ends.
fn failure_at_end(cause: Cause, status: u8, gave_up: bool) -> u8
    ensures { result ≡ ending_failure cause status gave_up }
{
    match cause {
        Cause::Lower | Cause::Higher => NONE,
        _ if gave_up => MEMORY,
        _ => failure_by(cause, status),
    }
}

/// The failure of a connection that ends for this cause, where a unit or a change was refused for
/// this status.
fn failure_by(cause: Cause, status: u8) -> u8
    ensures { result ≡ cause_failure cause status }
{
    match cause {
        Cause::Lost => LOST,
        Cause::Slow => SLOW,
        Cause::TooLong => TOO_LONG,
        Cause::Faulty => REFUSED,
        Cause::NotApplied => { if status == ACCEPTED { MEMORY } else { REFUSED } }
        Cause::Reported => REPORTED,
        Cause::Expired => EXPIRED,
        Cause::Lower | Cause::Higher => NONE,
        Cause::OutOfPlace
        | Cause::NoSuchPayload
        | Cause::OtherVersion
        | Cause::HigherVersion
        | Cause::OtherSession
        | Cause::OldSerial
        | Cause::OtherData => BREACH,
    }
}

/// The failure of a connection's end is that of the cause for which the machine ended it, and of
/// what it refused.
pub fn failures_of_endings()
    ensures { (x : Ending) (refusal : Option Refusal) (offset position wakes : ℕ)
        (gave_up : Bool) → failure_of (close_todo x refusal offset position wakes) gave_up
        ≡ ending_failure x.cause (status_of_refusal refusal) gave_up }
{}
