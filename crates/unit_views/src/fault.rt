//! Why a call on views failed.

ghost use Rattle.std.specs.Prelude.{◌≡◌, ℕ, List};
ghost use Rattle.std.specs.Option.{option_map};
ghost use Rattle.rtr_units.specs.Codes.{code_of, peer_fault_of};
ghost use Rattle.rtr_units.specs.Header.{type_field};
ghost use Rattle.rtr_units.specs.HeaderBytes.{header_bytes};
ghost use Rattle.unit_views.specs.OwedCodes.{read_fault, owed};

use rtr_base::error_code::ErrorCode;
use rtr_payload::pdu::prefix_rule::PrefixRule;
use rtr_units::error::Error;
use rtr_units::fault::Fault;
use rtr_units::header::Header;
use rtr_units::peer_fault::PeerFault;
use std::io;

/// Why a call on views failed. It holds no memory of its own.
#[derive(Debug, Drop, thiserror::Error)]
pub enum ViewFault {
    /// The writer returned an error, or took nothing of a piece that isn't empty.
    #[error("write failed")]
    Writer(io::Error),
    /// The input ended inside a unit, or before one.
    #[error("{}", PeerFault::Short)]
    Short,
    /// A unit of this type is not allowed here.
    #[error("{}", PeerFault::UnitType(*.0))]
    UnitType(u8),
    /// The length field doesn't fit the type of the unit.
    #[error("{}", PeerFault::UnitLength)]
    UnitLength,
    /// The length field of a unit of no fixed size is over 65535.
    #[error("{}", PeerFault::TooLong)]
    TooLong,
    /// An ASPA unit that announces has no providers.
    #[error("{}", PeerFault::EmptyProviders)]
    EmptyProviders,
    /// A unit of this protocol version is not allowed here.
    #[error("{}", PeerFault::UnitVersion(*.0))]
    UnitVersion(u8),
    /// The lengths of a prefix break this part of their rule.
    #[error("{}", PeerFault::Prefix)]
    Prefix(PrefixRule),
    /// The limit of units was reached.
    #[error("too many units")]
    TooMany,
}

impl ViewFault {
    /// What the peer did wrong, as `Fault::of_peer` of the same fault.
    pub fn of_peer(&self) -> Option<PeerFault>
        ensures { (report : List ℕ) → result ≡ peer_fault_of (read_fault report self.now) }
    {
        match self {
            ViewFault::Short => Some(PeerFault::Short),
            ViewFault::UnitType(kind) => Some(PeerFault::UnitType(*kind)),
            ViewFault::UnitLength => Some(PeerFault::UnitLength),
            ViewFault::TooLong => Some(PeerFault::TooLong),
            ViewFault::EmptyProviders => Some(PeerFault::EmptyProviders),
            ViewFault::UnitVersion(version) => Some(PeerFault::UnitVersion(*version)),
            ViewFault::Prefix(_) => Some(PeerFault::Prefix),
            ViewFault::Writer(_) | ViewFault::TooMany => None,
        }
    }

    /// The error code of the report to the peer, or none: as `Fault::code` for the same fault.
    pub fn code(&self) -> Option<ErrorCode>
        ensures { (report : List ℕ) →
            option_map (λ c. c.0) result ≡ code_of (read_fault report self.now) }
    {
        match self.of_peer() {
            Some(fault) => Some(fault.code()),
            None => None,
        }
    }

    /// The error code of the report that this fault of a unit with this header owes the peer, as
    /// `owed_code` returns it.
    pub fn owed_code(&self, header: Header) -> Option<ErrorCode>
        ensures { (report : List ℕ) → option_map (λ c. c.0) result ≡
            owed (type_field (header_bytes header)) (code_of (read_fault report self.now)) }
    {
        owed_in(header, self.code())
    }
}

/// The error code of the report that is owed to the peer for a fault of the unit with this header.
/// None if the fault isn't the peer's, and for an error report, about which no report may be sent
/// (RFC 8210 section 5.11).
pub fn owed_code(header: Header, fault: &Fault) -> Option<ErrorCode>
    ensures { option_map (λ c. c.0) result ≡
        owed (type_field (header_bytes header)) (code_of fault.now) }
{
    owed_in(header, fault.code())
}

/// The error code of the report that is owed for this code in a unit with this header.
fn owed_in(header: Header, code: Option<ErrorCode>) -> Option<ErrorCode>
    ensures { option_map (λ c. c.0) result ≡
        owed (type_field (header_bytes header)) (option_map (λ c. c.0) code) }
{
    if header.pdu() == Error::PDU {
        return None;
    }
    code
}
