//! Numbers of the protocol: error codes, serial numbers, versions.

ghost use Rattle.std.specs.Prelude.{◌≡◌};
ghost use Rattle.std.specs.Option.{option_map};
ghost use Rattle.rtr_base.specs.Serial.{serial_cmp};
ghost use Rattle.rtr_c.specs.Numbers.{order_number, has_kind, status_code, code_owed, TellsCode};
ghost use Rattle.rtr_c.specs.Routers.{clock};

use crate::router_action::refusal_from;
use rtr_units::header::LAST_VERSION;
use rtr_wire::pdu::{Error, ErrorCode};
use rtr_wire::state::Serial;
use std::cmp::Ordering;

/// The version of this library, X.Y.Z, as 10000 X + 100 Y + Z.
const WIRE_VERSION: u32 = 300;

/// The latest time that is passed to machines.
const LAST: u64 = u64::MAX / 2;

/// Limits a time to the latest one.
pub(crate) fn clock(now: u64) -> u64
    ensures { result ≡ clock now }
{
    now.min(LAST)
}

/// The version of this library as one number.
#[unsafe(no_mangle)]
pub extern "C" fn rtr_wire_version() -> u32
    ensures { result ≡ 300 }
{
    WIRE_VERSION
}

/// The order of two serial numbers (RFC 1982 section 3.2): 0 if they are equal, 1 if the left one
/// is less, 2 if it is greater, 3 if they have no order, because they are half the circle apart.
#[unsafe(no_mangle)]
pub extern "C" fn rtr_serial_order(left: u32, right: u32) -> u8
    ensures { result ≡ order_number (serial_cmp left right) }
{
    match Serial(left).partial_cmp(&Serial(right)) {
        Some(Ordering::Equal) => 0,
        Some(Ordering::Less) => 1,
        Some(Ordering::Greater) => 2,
        None => 3,
    }
}

/// Whether this version of the protocol has units of this type. Versions above 2 have none.
#[unsafe(no_mangle)]
pub extern "C" fn rtr_version_has(version: u8, kind: u8) -> bool
    ensures { result ≡ has_kind version kind }
{
    let first = match kind {
        0..=4 | 6..=8 | 10 => 0,
        9 => 1,
        11 => 2,
        _ => return false,
    };
    first <= version && version <= LAST_VERSION
}

/// Whether a report is owed to the peer for this status of the unit at the front of the input, as
/// `unit_views::fault::owed_code`: none is owed for an error report. Writes the error code to
/// `code`, or 0 if none is owed.
#[unsafe(no_mangle)]
pub extern "C" fn rtr_error_code_nonnull(status: u8, input: &[u8], code: &mut u16) -> bool
    ensures { TellsCode (code_owed status input.now) code.new result }
{
    *code = 0;
    if input.len() >= 2 && input[1] == Error::PDU {
        return false;
    }
    match code_of(status) {
        Some(owed) => {
            *code = owed.0;
            true
        }
        None => false,
    }
}

/// The error code of a status (RFC 8210 section 12), as `Refusal::code` of session_bytes.
pub(crate) fn code_of(status: u8) -> Option<ErrorCode>
    ensures number { option_map (λ c. c.0) result ≡ status_code status }
    ensures code { result ≡ option_map (λ n. record { 0 = n }) (status_code status) }
{
    match refusal_from(status, 0) {
        Some(refusal) => Some(refusal.code()),
        None => None,
    }
}
