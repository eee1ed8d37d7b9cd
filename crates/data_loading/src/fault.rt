//! Why a recording isn't loaded.

use data_recordings::Refusal;
use unit_views::fault::ViewFault;

/// What is wrong with a unit of a recording, or with the bytes where one should begin.
#[derive(Debug, Drop, thiserror::Error)]
pub enum LoadReason {
    /// No unit begins there, or the input ends inside an answer or before the first one.
    #[error(transparent)]
    Read(ViewFault),
    /// The unit is refused.
    #[error("{0}")]
    Refused(Refusal),
    /// The payload unit or the end of data is of this protocol version, but its answer, or the data
    /// that it changes, is of another.
    #[error("version {0} is not that of the units before")]
    UnitVersion(u8),
}

/// Why a recording isn't loaded.
#[derive(Debug, Drop, thiserror::Error)]
pub enum LoadFault {
    /// The first unit that the recording can't continue with.
    #[error("{reason} at byte {offset}")]
    Refused {
        /// Its offset.
        offset: usize,
        /// What is wrong with it.
        reason: LoadReason,
    },
    /// The index has fewer elements than the open answer has payload units so far.
    #[error("the index is too short")]
    NoIndex {
        /// The number of payload units of that answer that were read. The index needs an element
        /// for each.
        wanted: usize,
    },
    /// A buffer is too short for the data of an answer.
    #[error("no room for the data")]
    NoRoom,
}
