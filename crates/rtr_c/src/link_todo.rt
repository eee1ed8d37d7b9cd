//! The next action of a caller of the calls for a router's end, in numbers.

ghost use Rattle.std.specs.Prelude.{◌≡◌};
ghost use Rattle.rtr_c.specs.LinkTodos.{close_todo, detail_of_refusal, plain_todo, refused_todo};
ghost use Rattle.rtr_c.specs.LinkTodos.{position_told, received_after, room_todo};
ghost use Rattle.rtr_c.specs.LinkTodos.{status_of_refusal, todo_told};

use crate::answer::{
    ACCEPTED, DUPLICATE, EMPTY_PROVIDERS, PREFIX, SHORT, TOO_LONG, UNIT_LENGTH, UNIT_TYPE,
    UNIT_VERSION, UNKNOWN, rule_number,
};
use crate::router_action::cause_to;
use rtr_base::error_code::ErrorCode;
use session_bytes::Refusal;
use session_client::next::Todo;
use session_router::event::{Cause, Ending};

const NOTHING: u8 = 0;

pub(crate) const GO: u8 = 1;

const WAIT: u8 = 2;

const CONNECT: u8 = 3;

pub(crate) const CLOSE: u8 = 4;

pub(crate) const DATA: u8 = 5;

pub(crate) const DROPPED: u8 = 6;

pub(crate) const NO_DATA: u8 = 7;

const INPUT_ROOM: u8 = 8;

const FIRST_ROOM: u8 = 9;

const SECOND_ROOM: u8 = 10;

const INDEX_ROOM: u8 = 11;

pub(crate) const OUTPUT_ROOM: u8 = 12;

/// The caller's next action: as `session_client::Todo`. Fields that it doesn't have are zero, but
/// `position` at each end of a connection and `no data`.
#[repr(C)]
#[derive(Clone, Copy)]
pub struct RtrTodo {
    /// When to call rtr_link_next, if nothing comes before. It may have passed.
    pub wakes: u64,
    /// The offset of the unit that it is about, in all bytes of the connection. If an answer can't
    /// be applied, the offset of the refused change in the payload units of the answer, or 0 if
    /// none is refused. At any other end that is about no unit, the number of bytes that came
    /// before those of the input.
    pub position: u64,
    /// The length that a buffer needs: in bytes, of the index in entries.
    pub room: usize,
    /// The offset of that unit in the input.
    pub offset: usize,
    /// The error code of the report that the output ends with.
    pub code: u16,
    /// What to do, an rtr_todo_kind.
    pub kind: u8,
    /// Why the connection ends, an rtr_cause.
    pub cause: u8,
    /// Why a unit or a change is refused, an rtr_status; else 0.
    pub status: u8,
    /// The detail of the status, as in an rtr_answer.
    pub detail: u8,
    /// Whether there are no data any more.
    pub drops: bool,
    /// Whether the output ends with a report.
    pub reports: bool,
}

// The fields stand one after the other.
const _: () = prove!(size_of::<RtrTodo>() == 40);

/// An action without further fields.
fn plain(kind: u8, wakes: u64) -> RtrTodo
    ensures { result ≡ plain_todo kind wakes }
{
    RtrTodo {
        wakes,
        position: 0,
        room: 0,
        offset: 0,
        code: 0,
        kind,
        cause: 0,
        status: 0,
        detail: 0,
        drops: false,
        reports: false,
    }
}

/// No action, since the call was refused.
pub(crate) fn refused() -> RtrTodo
    ensures { result ≡ refused_todo }
{
    plain(NOTHING, 0)
}

/// A buffer needs this length.
fn room(kind: u8, room: usize, wakes: u64) -> RtrTodo
    ensures { result ≡ room_todo kind room wakes }
{
    RtrTodo {
        room,
        ..plain(kind, wakes)
    }
}

/// The caller's next action in numbers, with whether the data are in the second buffer, how many
/// bytes of the connection came before those of the input, and when to call again.
pub(crate) fn todo_to(todo: &Todo, second: bool, before: u64, wakes: u64) -> RtrTodo
    ensures { result ≡ todo_told todo.now second before wakes }
{
    match todo {
        Todo::Go => plain(GO, wakes),
        Todo::Wait => plain(WAIT, wakes),
        Todo::Connect => plain(CONNECT, wakes),
        Todo::Close {
            ending,
            refusal,
            offset,
        } => RtrTodo {
            offset: *offset,
            position: position_of(ending.cause, *offset, before),
            wakes,
            ..close_to(ending, *refusal)
        },
        Todo::Data => plain(DATA, wakes),
        Todo::Dropped => plain(DROPPED, wakes),
        Todo::NoData { offset } => RtrTodo {
            offset: *offset,
            position: before.saturating_add(*offset as u64),
            ..plain(NO_DATA, wakes)
        },
        Todo::InputRoom(size) => room(INPUT_ROOM, *size, wakes),
        Todo::DataRoom(size) => {
            let kind = if second { FIRST_ROOM } else { SECOND_ROOM };
            room(kind, *size, wakes)
        }
        Todo::IndexRoom(size) => room(INDEX_ROOM, *size, wakes),
        Todo::OutputRoom(size) => room(OUTPUT_ROOM, *size, wakes),
    }
}

/// The end of a connection in numbers.
fn close_to(ending: &Ending, refusal: Option<Refusal>) -> RtrTodo
    ensures { result ≡ close_todo ending.now refusal 0 0 0 }
{
    RtrTodo {
        code: ending.report.unwrap_or(ErrorCode(0)).0,
        cause: cause_to(ending.cause),
        status: status_of_refusal(refusal),
        detail: detail_of_refusal(refusal),
        drops: ending.drop,
        reports: ending.report.is_some(),
        ..plain(CLOSE, 0)
    }
}

/// The offset of a unit in all bytes of the connection; of a change that doesn't apply, its offset
/// in the answer.
fn position_of(cause: Cause, offset: usize, before: u64) -> u64
    ensures { result ≡ position_told cause offset before }
{
    match cause {
        Cause::NotApplied => offset as u64,
        _ => before.saturating_add(offset as u64),
    }
}

/// How many bytes came on the connection after this: a new one has none.
pub(crate) fn received_after(todo: &Todo, received: u64) -> u64
    ensures { result ≡ received_after todo.now received }
{
    match todo {
        Todo::Connect => 0,
        _ => received,
    }
}

/// The status of a unit or a change that is refused.
fn status_of_refusal(refusal: Option<Refusal>) -> u8
    ensures { result ≡ status_of_refusal refusal }
{
    match refusal {
        None => ACCEPTED,
        Some(Refusal::Short) => SHORT,
        Some(Refusal::UnitType(_)) => UNIT_TYPE,
        Some(Refusal::UnitVersion(_)) => UNIT_VERSION,
        Some(Refusal::TooLong) => TOO_LONG,
        Some(Refusal::UnitLength) => UNIT_LENGTH,
        Some(Refusal::EmptyProviders) => EMPTY_PROVIDERS,
        Some(Refusal::Prefix(_)) => PREFIX,
        Some(Refusal::Duplicate) => DUPLICATE,
        Some(Refusal::Unknown) => UNKNOWN,
    }
}

/// The type, the version or the broken rule of a refusal, or 0.
fn detail_of_refusal(refusal: Option<Refusal>) -> u8
    ensures { result ≡ detail_of_refusal refusal }
{
    match refusal {
        Some(Refusal::UnitType(number)) | Some(Refusal::UnitVersion(number)) => number,
        Some(Refusal::Prefix(Some(rule))) => rule_number(rule),
        _ => 0,
    }
}
