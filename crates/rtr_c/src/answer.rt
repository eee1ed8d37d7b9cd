//! The result of a call, in numbers.

ghost use Rattle.std.specs.Prelude.{◌≡◌};
ghost use Rattle.rtr_c.specs.Answers.{rule_number, fault_status, fault_detail};
ghost use Rattle.rtr_c.specs.Answers.{stop_status, stop_detail};

use rtr_wire::IntoFault;
use rtr_wire::pdu::{PrefixRule, ViewFault};

/// The call succeeded.
pub(crate) const ACCEPTED: u8 = 0;
/// The input ended inside a unit, or before one.
pub(crate) const SHORT: u8 = 1;
/// A unit of this type is not allowed here.
pub(crate) const UNIT_TYPE: u8 = 2;
/// A unit of this protocol version is not allowed here.
pub(crate) const UNIT_VERSION: u8 = 3;
/// The length field of a router key, an ASPA unit or an error report is above 65535.
pub(crate) const TOO_LONG: u8 = 4;
/// The length field doesn't fit the type of the unit.
pub(crate) const UNIT_LENGTH: u8 = 5;
/// An ASPA is announced without providers.
pub(crate) const EMPTY_PROVIDERS: u8 = 6;
/// The lengths of a prefix break their rule.
pub(crate) const PREFIX: u8 = 7;
/// The limit of units was reached.
pub(crate) const TOO_MANY: u8 = 8;
/// The output is too short for what comes next.
pub(crate) const NO_ROOM: u8 = 9;
/// No unit has these fields.
pub(crate) const NO_FORM: u8 = 10;
/// A unit or an end of data isn't allowed at this point of data or changes in canonical form.
pub(crate) const NOT_CANONICAL: u8 = 12;
/// The second input is of another session than the first.
pub(crate) const OTHER_SESSION: u8 = 13;
/// A payload is announced that is already present.
pub(crate) const DUPLICATE: u8 = 14;
/// A payload is withdrawn that is absent.
pub(crate) const UNKNOWN: u8 = 15;
/// The net effect of the changes of an ASPA's customer depends on the data.
pub(crate) const UNDECIDED: u8 = 16;
/// The index has fewer elements than there are payload units.
pub(crate) const NO_INDEX: u8 = 17;
/// A group would have more than 16 members.
pub(crate) const TOO_MANY_MEMBERS: u8 = 18;
/// A unit of a recording is of another version than those before it.
pub(crate) const OTHER_VERSION: u8 = 19;
/// The serial number of an answer comes before that of the data that it changes.
pub(crate) const OLD_SERIAL: u8 = 20;
/// A cache reset comes inside an answer.
pub(crate) const RESET_INSIDE: u8 = 21;
/// An error report comes inside an answer.
pub(crate) const REPORT_INSIDE: u8 = 22;
/// A reader or a writer failed; none of these calls uses one that fails.
pub(crate) const WRITER: u8 = 255;

/// The result of a call that writes.
#[repr(C)]
#[derive(Drop)]
pub struct RtrAnswer {
    /// Payload units that were read, without the end of data.
    pub units: u64,
    /// Payload units that were written; fewer than `units` only for one version.
    pub forms: u64,
    /// Bytes of the input that were read: whole units, and the end of data. If the call stopped,
    /// the offset of the unit at which it stopped.
    pub taken: usize,
    /// Bytes of the output that were written, from its start.
    pub written: usize,
    /// After RTR_SHORT, the least number of bytes needed from input + taken on, as in an rtr_unit;
    /// else 0.
    pub wanted: usize,
    /// The result of the call, an rtr_status, which the call returns too.
    pub status: u8,
    /// The type, version or rule that RTR_UNIT_TYPE, RTR_UNIT_VERSION or RTR_PREFIX refuses, as
    /// enum rtr_status says; else 0.
    pub detail: u8,
}

// The fields stand one after the other, and six bytes are left at the end.
const _: () = prove!(size_of::<RtrAnswer>() == 48);

/// The number of a part of the rule on the lengths of a prefix.
pub(crate) fn rule_number(rule: PrefixRule) -> u8
    ensures { result ≡ rule_number rule }
{
    match rule {
        PrefixRule::LenOverflow => 1,
        PrefixRule::MaxOverflow => 2,
        PrefixRule::MaxUnderflow => 3,
    }
}

/// The status of a fault.
pub(crate) fn fault_status(fault: &ViewFault) -> u8
    ensures { result ≡ fault_status fault.now }
{
    match fault {
        ViewFault::Writer(_) => WRITER,
        ViewFault::Short => SHORT,
        ViewFault::UnitType(_) => UNIT_TYPE,
        ViewFault::UnitLength => UNIT_LENGTH,
        ViewFault::TooLong => TOO_LONG,
        ViewFault::EmptyProviders => EMPTY_PROVIDERS,
        ViewFault::UnitVersion(_) => UNIT_VERSION,
        ViewFault::Prefix(_) => PREFIX,
        ViewFault::TooMany => TOO_MANY,
    }
}

/// The type, the version or the broken rule of a fault, or 0.
pub(crate) fn fault_detail(fault: &ViewFault) -> u8
    ensures { result ≡ fault_detail fault.now }
{
    match fault {
        ViewFault::UnitType(n) | ViewFault::UnitVersion(n) => *n,
        ViewFault::Prefix(rule) => rule_number(*rule),
        _ => 0,
    }
}

/// The status for why a run stopped.
pub(crate) fn stop_status(stop: &IntoFault) -> u8
    ensures { result ≡ stop_status stop.now }
{
    match stop {
        IntoFault::NoRoom => NO_ROOM,
        IntoFault::TooMany => TOO_MANY,
        IntoFault::Refused(fault) => fault_status(fault),
    }
}

/// The type, the version or the broken rule that stopped a run, or 0.
pub(crate) fn stop_detail(stop: &IntoFault) -> u8
    ensures { result ≡ stop_detail stop.now }
{
    match stop {
        IntoFault::Refused(fault) => fault_detail(fault),
        _ => 0,
    }
}
