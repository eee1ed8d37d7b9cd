//! Why reading a recording stopped.

use data_memory::ChangeError;
use rtr_units::fault::Fault;

/// Where reading a recording stopped, and why.
#[derive(Debug, Drop)]
pub struct Stop {
    /// The number of bytes before the unit, or 2^64 - 1 if there are more.
    pub offset: u64,
    /// What is wrong with the unit.
    pub cause: StopCause,
}

/// Why reading a recording stopped.
#[derive(Debug, Drop, thiserror::Error)]
pub enum StopCause {
    /// A unit can't be read, or the input ended inside an answer or before the first one.
    #[error("{0}")]
    Read(Fault),
    /// The unit was read, and is refused.
    #[error("{0}")]
    Refused(Refusal),
}

/// Why a unit of a recording is refused.
#[derive(Clone, Copy, Debug, thiserror::Error)]
pub enum Refusal {
    /// The change of a payload unit is refused, or an allocation for it failed.
    #[error("{0}")]
    Change(ChangeError),
    /// The end of data is of another session than its answer (RFC 8210 section 5.8): its session,
    /// and that of the answer.
    #[error("session {0} differs from session {1} of the answer")]
    Session(u16, u16),
    /// The serial number of an end of changes comes before that of the data that they change (RFC
    /// 1982): the two numbers.
    #[error("serial number {0} comes before {1} of the answer before")]
    Serial(u32, u32),
    /// A cache reset inside an answer (RFC 8210 section 8.3).
    #[error("cache reset inside an answer")]
    CacheReset,
    /// An error report inside an answer: it ends the session (RFC 8210 section 5.11).
    #[error("error report inside an answer")]
    ErrorReport,
}
