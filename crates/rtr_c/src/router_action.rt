//! The action that a router's machine returns, in numbers.

ghost use Rattle.std.specs.Prelude.{◌≡◌};
ghost use Rattle.rtr_c.specs.RouterActions.{action_told, cause_number, numbered_cause, ending_of};
ghost use Rattle.rtr_c.specs.RouterActions.{numbered_prefix_rule, plain_action, query_of};
ghost use Rattle.rtr_c.specs.RouterActions.{refusal_at};

use crate::answer::{
    DUPLICATE, EMPTY_PROVIDERS, PREFIX, SHORT, TOO_LONG, UNIT_LENGTH, UNIT_TYPE, UNIT_VERSION,
    UNKNOWN,
};
use rtr_base::error_code::ErrorCode;
use rtr_wire::pdu::PrefixRule;
use session_bytes::Refusal;
use session_router::event::{Action, Cause, Ending};
use session_router::head::Query;

const WAIT: u8 = 0;

const CONNECT: u8 = 1;

const ASK: u8 = 2;

const BEGIN: u8 = 3;
/// Keep the first bytes of the input, of this number.
pub(crate) const KEEP: u8 = 4;

const APPLY: u8 = 5;

const SHOW: u8 = 6;

const NO_DATA: u8 = 7;

const DROP: u8 = 8;

const END: u8 = 9;

/// The number of the cause that the data have expired.
const EXPIRED: u8 = 13;

/// The action that the machine returns: as `session_router::event::Action`, and the offset in the
/// input of the unit that it is about. Fields that an action doesn't have are zero.
#[repr(C)]
#[derive(Clone, Copy)]
pub struct RtrAction {
    /// The offset in the input of the unit that the action is about.
    pub start: usize,
    /// The number of bytes of the input that were consumed, that unit included; a unit that is
    /// refused isn't consumed, since the connection ends.
    pub taken: usize,
    /// After rtr_router_read, if there is no whole unit, the least number of input bytes needed, as
    /// in an rtr_unit.
    pub wanted: usize,
    /// The serial number of a serial query.
    pub serial: u32,
    /// The session of a serial query.
    pub session: u16,
    /// The error code of the report.
    pub code: u16,
    /// What to do, an rtr_action_kind.
    pub kind: u8,
    /// The version of a query or a report.
    pub version: u8,
    /// Why the connection ends, an rtr_cause.
    pub cause: u8,
    /// Why a unit or a change is refused, an rtr_status; else 0.
    pub status: u8,
    /// The detail of the status, as in an rtr_answer.
    pub detail: u8,
    /// For RTR_ASK, whether the query is a serial query; for RTR_APPLY, whether the units change
    /// the data.
    pub changes: bool,
    /// Whether there are no data any more.
    pub drops: bool,
    /// Whether a report is owed.
    pub reports: bool,
}

// The fields stand one after the other.
const _: () = prove!(size_of::<RtrAction>() == 40);

/// An action that has no fields.
pub(crate) fn plain(kind: u8) -> RtrAction
    ensures { result ≡ plain_action kind }
{
    RtrAction {
        start: 0,
        taken: 0,
        wanted: 0,
        serial: 0,
        session: 0,
        code: 0,
        kind,
        version: 0,
        cause: 0,
        status: 0,
        detail: 0,
        changes: false,
        drops: false,
        reports: false,
    }
}

/// An action in numbers. The machine has this version after it.
pub(crate) fn action_to(action: Action, version: u8) -> RtrAction
    ensures { result ≡ action_told action version }
{
    match action {
        Action::Wait => plain(WAIT),
        Action::Connect => plain(CONNECT),
        Action::Ask(query) => RtrAction {
            serial: query.serial,
            session: query.session,
            version: query.version,
            changes: query.changes,
            ..plain(ASK)
        },
        Action::Begin => plain(BEGIN),
        Action::Keep => plain(KEEP),
        Action::Apply(changes) => RtrAction {
            changes,
            ..plain(APPLY)
        },
        Action::Show => plain(SHOW),
        Action::NoData => plain(NO_DATA),
        Action::Drop => RtrAction {
            cause: EXPIRED,
            drops: true,
            ..plain(DROP)
        },
        Action::End(ending) => RtrAction {
            code: ending.report.unwrap_or(ErrorCode(0)).0,
            version,
            cause: cause_to(ending.cause),
            drops: ending.drop,
            reports: ending.report.is_some(),
            ..plain(END)
        },
    }
}

/// The number of a cause.
pub(crate) fn cause_to(cause: Cause) -> u8
    ensures { result ≡ cause_number cause }
{
    match cause {
        Cause::Lost => 0,
        Cause::Slow => 1,
        Cause::Faulty => 2,
        Cause::Reported => 3,
        Cause::OutOfPlace => 4,
        Cause::NoSuchPayload => 5,
        Cause::OtherVersion => 6,
        Cause::HigherVersion => 7,
        Cause::OtherSession => 8,
        Cause::OldSerial => 9,
        Cause::OtherData => 10,
        Cause::TooLong => 11,
        Cause::NotApplied => 12,
        Cause::Expired => EXPIRED,
        Cause::Lower => 14,
        Cause::Higher => 15,
    }
}

/// The cause of a number; for any other number, that the connection is gone.
pub(crate) fn cause_from(cause: u8) -> Cause
    ensures { result ≡ numbered_cause cause }
{
    match cause {
        1 => Cause::Slow,
        2 => Cause::Faulty,
        3 => Cause::Reported,
        4 => Cause::OutOfPlace,
        5 => Cause::NoSuchPayload,
        6 => Cause::OtherVersion,
        7 => Cause::HigherVersion,
        8 => Cause::OtherSession,
        9 => Cause::OldSerial,
        10 => Cause::OtherData,
        11 => Cause::TooLong,
        12 => Cause::NotApplied,
        EXPIRED => Cause::Expired,
        14 => Cause::Lower,
        15 => Cause::Higher,
        _ => Cause::Lost,
    }
}

/// The ending in an action.
pub(crate) fn ending_from(action: &RtrAction) -> Ending
    ensures { result ≡ ending_of action.now }
{
    Ending {
        drop: action.drops,
        report: if action.reports {
            Some(ErrorCode(action.code))
        } else {
            None
        },
        cause: cause_from(action.cause),
    }
}

/// The query in an action.
pub(crate) fn query_from(action: &RtrAction) -> Query
    ensures { result ≡ query_of action.now }
{
    Query {
        changes: action.changes,
        version: action.version,
        session: action.session,
        serial: action.serial,
    }
}

/// The refusal of a unit or a change with this status and this detail; none if the peer isn't at
/// fault.
pub(crate) fn refusal_from(status: u8, detail: u8) -> Option<Refusal>
    ensures { result ≡ refusal_at status detail }
{
    match status {
        SHORT => Some(Refusal::Short),
        UNIT_TYPE => Some(Refusal::UnitType(detail)),
        UNIT_VERSION => Some(Refusal::UnitVersion(detail)),
        TOO_LONG => Some(Refusal::TooLong),
        UNIT_LENGTH => Some(Refusal::UnitLength),
        EMPTY_PROVIDERS => Some(Refusal::EmptyProviders),
        PREFIX => Some(Refusal::Prefix(rule_from(detail))),
        DUPLICATE => Some(Refusal::Duplicate),
        UNKNOWN => Some(Refusal::Unknown),
        _ => None,
    }
}

/// The part of the rule on the lengths of a prefix with this number, if there is one.
fn rule_from(detail: u8) -> Option<PrefixRule>
    ensures { result ≡ numbered_prefix_rule detail }
{
    match detail {
        1 => Some(PrefixRule::LenOverflow),
        2 => Some(PrefixRule::MaxOverflow),
        3 => Some(PrefixRule::MaxUnderflow),
        _ => None,
    }
}
