//! Why a call on units failed: an enum of this library's own.

ghost use Rattle.std.specs.Prelude.{◌≡◌};
ghost use Rattle.std.specs.Option.{option_map};
ghost use Rattle.rtr_units.specs.Codes.{code_of, peer_fault_of};

use crate::error::Error;
use crate::peer_fault::PeerFault;
use rtr_base::error_code::ErrorCode;
use std::io;

/// Why a call on units failed.
#[derive(Debug, Drop, thiserror::Error)]
pub enum Fault {
    /// The reader returned an error.
    #[error("read failed")]
    Reader(io::Error),
    /// The writer returned an error, or took nothing of a piece that isn't empty.
    #[error("write failed")]
    Writer(io::Error),
    /// The input ended inside a unit, or before one.
    #[error("{}", PeerFault::Short)]
    Short,
    /// A unit of this type is not allowed here.
    #[error("{}", PeerFault::UnitType(*.0))]
    UnitType(u8),
    /// The length field doesn't fit the type of the unit.
    #[error("{}", PeerFault::UnitLength)]
    UnitLength,
    /// The length field of a unit of no fixed size is over 65535.
    #[error("{}", PeerFault::TooLong)]
    TooLong,
    /// An ASPA unit that announces has no providers.
    #[error("{}", PeerFault::EmptyProviders)]
    EmptyProviders,
    /// A unit of this protocol version is not allowed here.
    #[error("{}", PeerFault::UnitVersion(*.0))]
    UnitVersion(u8),
    /// The lengths of a prefix break their rule. Holds the report on it.
    #[error("{}", PeerFault::Prefix)]
    Refused(Error),
    /// The limit of units was reached.
    #[error("too many units")]
    TooMany,
    /// An allocation failed.
    #[error("out of memory")]
    Memory,
}

impl Fault {
    /// What the peer did wrong. None for what isn't the peer's fault: reading, writing, a limit of
    /// the caller's, and memory.
    pub fn of_peer(&self) -> Option<PeerFault>
        ensures { result ≡ peer_fault_of self.now }
    {
        match self {
            Fault::Short => Some(PeerFault::Short),
            Fault::UnitType(kind) => Some(PeerFault::UnitType(*kind)),
            Fault::UnitLength => Some(PeerFault::UnitLength),
            Fault::TooLong => Some(PeerFault::TooLong),
            Fault::EmptyProviders => Some(PeerFault::EmptyProviders),
            Fault::UnitVersion(version) => Some(PeerFault::UnitVersion(*version)),
            Fault::Refused(_) => Some(PeerFault::Prefix),
            Fault::Reader(_) | Fault::Writer(_) | Fault::TooMany | Fault::Memory => None,
        }
    }

    /// The error code to report to the peer, which closes the session; none for what isn't the
    /// peer's fault.
    pub fn code(&self) -> Option<ErrorCode>
        ensures { option_map (λ c. c.0) result ≡ code_of self.now }
    {
        match self.of_peer() {
            Some(fault) => Some(fault.code()),
            None => None,
        }
    }
}
