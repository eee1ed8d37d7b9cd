//! What a peer did wrong: the one table of its texts and error codes.

ghost use Rattle.std.specs.Prelude.{◌≡◌, Some};
ghost use Rattle.rtr_units.specs.PeerFaults.{fault_name, fault_text, peer_code};

use rtr_base::error_code::ErrorCode;
use std::fmt;

/// What a peer did wrong: why a unit or a change of it is refused. Each other type of faults says
/// which of these it is, and takes the error code and the text from here; the text of a prefix
/// also names the part of the rule that it breaks.
#[derive(Clone, Copy, Debug, PartialEq, Eq)]
pub enum PeerFault {
    /// The unit ends before its length.
    Short,
    /// The type that isn't allowed.
    UnitType(u8),
    /// The version that isn't supported.
    UnitVersion(u8),
    /// The length field is over 65535.
    TooLong,
    /// The length field doesn't suit the type of the unit.
    UnitLength,
    /// An ASPA unit that announces has no providers.
    EmptyProviders,
    /// The lengths of a prefix break their rule.
    Prefix,
    /// The unit announces a payload that is present.
    Duplicate,
    /// The unit withdraws a payload that is absent.
    Unknown,
}

impl PeerFault {
    /// The error code of a report about it: one of RFC 8210 section 12, and for an ASPA without
    /// providers that of the Rust crate `rpki`.
    pub fn code(self) -> ErrorCode
        ensures { result.0 ≡ peer_code self }
    {
        match self {
            PeerFault::Short | PeerFault::TooLong | PeerFault::UnitLength | PeerFault::Prefix => {
                ErrorCode::CORRUPT_DATA
            }
            PeerFault::UnitType(_) => ErrorCode::UNSUPPORTED_PDU_TYPE,
            PeerFault::UnitVersion(_) => ErrorCode::UNSUPPORTED_PROTOCOL_VERSION,
            PeerFault::EmptyProviders => ErrorCode::ASPA_PROVIDER_LIST_ERROR,
            PeerFault::Duplicate => ErrorCode::DUPLICATE_ANNOUNCEMENT_RECEIVED,
            PeerFault::Unknown => ErrorCode::WITHDRAWAL_OF_UNKNOWN_RECORD,
        }
    }

    /// Its text without the number of the type or the version.
    pub fn name(self) -> &'static str
        ensures { result.now ≡ fault_name self }
    {
        match self {
            PeerFault::Short => "unexpected end of input",
            PeerFault::UnitType(_) => "unit type is not allowed here",
            PeerFault::UnitVersion(_) => "version is not supported here",
            PeerFault::TooLong => "unit is longer than 65535 bytes",
            PeerFault::UnitLength => "invalid unit length",
            PeerFault::EmptyProviders => "ASPA unit has no providers",
            PeerFault::Prefix => "prefix fields are not allowed",
            PeerFault::Duplicate => "duplicate announcement",
            PeerFault::Unknown => "withdrawal of an unknown record",
        }
    }
}

/// Writes the text, with the number: `unit type 5 is not allowed here`.
impl fmt::Display for PeerFault {
    ghost output = { λ fault. Some (fault_text fault) };

    fn fmt<W: fmt::Write>(&self, f: &mut fmt::Formatter<W>) -> fmt::Result {
        match self {
            PeerFault::UnitType(number) => write!(f, "unit type {number} is not allowed here"),
            PeerFault::UnitVersion(number) => write!(f, "version {number} is not supported here"),
            fault => f.write_str(fault.name()),
        }
    }
}
