//! The answer of a cache's machine, in numbers.

ghost use Rattle.std.specs.Prelude.{◌≡◌};
ghost use Rattle.rtr_c.specs.Servings.{answer_told, bare_serving, closing_of, closing_told};
ghost use Rattle.rtr_c.specs.Servings.{numbered_reason, reason_number, served_of, state_of};

use rtr_base::error_code::ErrorCode;
use session_cache::event::{Answer, Closing, OwedReport, Present, Reason};

const WAIT: u8 = 0;

const ALL: u8 = 1;

const CHANGES: u8 = 2;

const RESET: u8 = 3;

const NO_DATA: u8 = 4;

const NOTIFY: u8 = 5;

const END: u8 = 6;

/// The machine's answer: as `session_cache::event::Answer`, with what is needed to send it. Fields
/// that an answer doesn't have are 0.
#[repr(C)]
#[derive(Clone, Copy)]
pub struct RtrServing {
    /// The number of bytes of the input that were consumed: its first unit; a unit that is refused
    /// isn't consumed, since the connection ends.
    pub taken: usize,
    /// After rtr_cache_read, if there is no whole unit, the least number of input bytes needed, as
    /// in an rtr_unit.
    pub wanted: usize,
    /// The serial number of all data or a notify; for RTR_SERVE_CHANGES, that of the data from
    /// which they lead.
    pub serial: u32,
    /// The session of all data, changes or a notify.
    pub session: u16,
    /// The error code of the report.
    pub code: u16,
    /// What to send, an rtr_serving_kind.
    pub kind: u8,
    /// The protocol version of what is sent.
    pub version: u8,
    /// Why the connection ends, an rtr_reason.
    pub reason: u8,
    /// Why a unit is refused, an rtr_status; else 0.
    pub status: u8,
    /// The detail of the status, as in an rtr_answer.
    pub detail: u8,
    /// Whether a report is owed.
    pub reports: bool,
}

// The fields stand one after the other, and two bytes are left at the end.
const _: () = prove!(size_of::<RtrServing>() == 32);

/// An answer of this version, and no other fields.
pub(crate) fn bare(kind: u8, version: u8) -> RtrServing
    ensures { result ≡ bare_serving kind version }
{
    RtrServing {
        taken: 0,
        wanted: 0,
        serial: 0,
        session: 0,
        code: 0,
        kind,
        version,
        reason: 0,
        status: 0,
        detail: 0,
        reports: false,
    }
}

/// Nothing to send.
pub(crate) fn waiting() -> RtrServing
    ensures { result ≡ bare_serving 0 0 }
{
    bare(WAIT, 0)
}

/// An answer in numbers, given the version of the machine after it, and the newest data.
pub(crate) fn serving_to(answer: &Answer, version: u8, present: &Present) -> RtrServing
    ensures { result ≡ answer_told answer.now version present.now }
{
    match answer {
        Answer::Wait => waiting(),
        Answer::All => RtrServing {
            serial: present.serial,
            session: present.session,
            ..bare(ALL, version)
        },
        Answer::Changes(since) => RtrServing {
            serial: *since,
            session: present.session,
            ..bare(CHANGES, version)
        },
        Answer::Reset => bare(RESET, version),
        Answer::NoData => RtrServing {
            code: ErrorCode::NO_DATA_AVAILABLE.0,
            reports: true,
            ..bare(NO_DATA, version)
        },
        Answer::Notify => RtrServing {
            serial: present.serial,
            session: present.session,
            ..bare(NOTIFY, version)
        },
        Answer::End(closing) => closing_to(closing),
    }
}

/// The end of a connection in numbers.
fn closing_to(closing: &Closing) -> RtrServing
    ensures { result ≡ closing_told closing.now }
{
    let reason = reason_to(closing.reason);
    match closing.report {
        None => RtrServing {
            reason,
            ..bare(END, 0)
        },
        Some(OwedReport { version, code }) => RtrServing {
            code: code.0,
            reason,
            reports: true,
            ..bare(END, version)
        },
    }
}

/// The number of a reason.
fn reason_to(reason: Reason) -> u8
    ensures { result ≡ reason_number reason }
{
    match reason {
        Reason::Lost => 0,
        Reason::Slow => 1,
        Reason::Full => 2,
        Reason::Faulty => 3,
        Reason::Reported => 4,
        Reason::NoQuery => 5,
        Reason::OtherVersion => 6,
        Reason::NoVersion => 7,
        Reason::NewSession => 8,
        Reason::Unknown => 9,
    }
}

/// The reason of a number; for any other number, that the connection was lost.
pub(crate) fn reason_from(reason: u8) -> Reason
    ensures { result ≡ numbered_reason reason }
{
    match reason {
        1 => Reason::Slow,
        2 => Reason::Full,
        3 => Reason::Faulty,
        4 => Reason::Reported,
        5 => Reason::NoQuery,
        6 => Reason::OtherVersion,
        7 => Reason::NoVersion,
        8 => Reason::NewSession,
        9 => Reason::Unknown,
        _ => Reason::Lost,
    }
}

/// The answer in the struct.
pub(crate) fn answer_from(serving: &RtrServing) -> Answer
    ensures { result ≡ served_of serving.now }
{
    match serving.kind {
        ALL => Answer::All,
        CHANGES => Answer::Changes(serving.serial),
        RESET => Answer::Reset,
        NO_DATA => Answer::NoData,
        NOTIFY => Answer::Notify,
        END => Answer::End(closing_from(serving)),
        _ => Answer::Wait,
    }
}

/// The end of a connection in the struct.
fn closing_from(serving: &RtrServing) -> Closing
    ensures { result ≡ closing_of serving.now }
{
    Closing {
        report: if serving.reports {
            Some(OwedReport {
                version: serving.version,
                code: ErrorCode(serving.code),
            })
        } else {
            None
        },
        reason: reason_from(serving.reason),
    }
}

/// The state of the data in the struct that are sent.
pub(crate) fn state_from(serving: &RtrServing) -> Present
    ensures { result ≡ state_of serving.now }
{
    Present {
        has: true,
        session: serving.session,
        serial: serving.serial,
    }
}
