//! Why a change was not made.

ghost use Rattle.std.specs.Prelude.{◌≡◌};
ghost use Rattle.std.specs.Option.{option_map};
ghost use Rattle.data_memory.specs.ChangeCodes.{change_code, change_fault};

use rtr_base::error_code::ErrorCode;
use rtr_units::peer_fault::PeerFault;

/// Why a change was not made.
#[derive(Clone, Copy, Debug, PartialEq, Eq, thiserror::Error)]
pub enum ChangeError {
    /// The announced payload is already present.
    #[error("{}", PeerFault::Duplicate)]
    Duplicate,
    /// The withdrawn payload is absent.
    #[error("{}", PeerFault::Unknown)]
    Unknown,
    /// The router key has too much key info for a unit: more than 65503 bytes.
    #[error("router key is longer than its unit may be")]
    KeyTooLong,
    /// The announced ASPA has no providers.
    #[error("ASPA has no providers")]
    NoProviders,
    /// An allocation failed.
    #[error("out of memory")]
    Memory,
}

impl ChangeError {
    /// What the peer did wrong; none for what no peer can cause.
    pub fn of_peer(self) -> Option<PeerFault>
        ensures { result ≡ change_fault self }
    {
        match self {
            ChangeError::Duplicate => Some(PeerFault::Duplicate),
            ChangeError::Unknown => Some(PeerFault::Unknown),
            ChangeError::KeyTooLong | ChangeError::NoProviders | ChangeError::Memory => None,
        }
    }

    /// The error code for the peer (RFC 8210 section 12), which ends the session. None for an error
    /// that no peer can cause.
    pub fn code(self) -> Option<ErrorCode>
        ensures { option_map (λ c. c.0) result ≡ change_code self }
    {
        match self.of_peer() {
            Some(fault) => Some(fault.code()),
            None => None,
        }
    }
}
