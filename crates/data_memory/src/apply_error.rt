//! Why a sequence was not applied.

ghost use Rattle.std.specs.Prelude.{◌≡◌};
ghost use Rattle.std.specs.Option.{option_map};
ghost use Rattle.data_memory.specs.ChangeCodes.{cause_code};

use crate::change_error::ChangeError;
use rtr_base::error_code::ErrorCode;
use rtr_units::fault::Fault;

/// Why a sequence was not applied, and at which unit. The data are unchanged.
#[derive(Debug, Drop, thiserror::Error)]
#[error("unit {units}: {cause}")]
pub struct ApplyError {
    /// The number of payload units before it, whose changes are all allowed: the index, from 0, of
    /// the unit at fault.
    pub units: u64,
    /// What is wrong with that unit.
    pub cause: ApplyCause,
}

/// Why a sequence was not applied.
#[derive(Debug, Drop, thiserror::Error)]
pub enum ApplyCause {
    /// A unit can't be read: a fault of `pdu::Payload::read` or `pdu::Payload::into_payload`, or
    /// `TooMany`.
    #[error("{0}")]
    Read(Fault),
    /// The change of the unit is refused, or an allocation for it failed.
    #[error("{0}")]
    Change(ChangeError),
}

impl ApplyCause {
    /// The error code for the peer (RFC 8210 section 12), which ends the session: that of the fault
    /// or of the refused change.
    pub fn code(&self) -> Option<ErrorCode>
        ensures { option_map (λ c. c.0) result ≡ cause_code self.now }
    {
        match self {
            ApplyCause::Read(fault) => fault.code(),
            ApplyCause::Change(error) => error.code(),
        }
    }
}
