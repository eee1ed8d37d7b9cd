//! Why a slice is refused.

use unit_views::fault::ViewFault;

/// Why a slice is refused at some offset.
#[derive(Debug, Drop, thiserror::Error)]
pub enum Reason {
    /// What follows is refused: a fault of `UnitView::first`.
    #[error(transparent)]
    Refused(ViewFault),
    /// A payload unit or an end of data may not come here: its version isn't that of the units
    /// before it, it breaks the order, or it is a withdrawal in data.
    #[error("not in canonical form")]
    NotCanonical,
}

/// The first fault of a slice.
#[derive(Debug, Drop)]
pub struct Flaw {
    /// Its offset: the length of the whole payload units before it.
    pub offset: usize,
    /// What is wrong at that offset.
    pub reason: Reason,
}

/// Why the delta between two slices can't be written.
#[derive(Debug, Drop, thiserror::Error)]
pub enum DeltaFault {
    /// The old slice isn't data.
    #[error("the old slice holds no data in canonical form")]
    Old(Flaw),
    /// The new slice isn't data.
    #[error("the new slice holds no data in canonical form")]
    New(Flaw),
    /// The new data are of this protocol version, and the old ones of another.
    #[error("version {0} is not that of the old data")]
    UnitVersion(u8),
    /// The new data are of this session, and the old ones of another.
    #[error("session {0} is not that of the old data")]
    Session(u16),
    /// The output is too short for the delta.
    #[error("no room in the output")]
    NoRoom,
}

/// Why changes can't be applied to data.
#[derive(Debug, Drop, thiserror::Error)]
pub enum ApplyFault {
    /// The first slice isn't data.
    #[error("the first slice holds no data in canonical form")]
    Data(Flaw),
    /// The second slice isn't changes.
    #[error("the second slice holds no changes in canonical form")]
    Changes(Flaw),
    /// The changes are of this protocol version, and the data of another.
    #[error("version {0} is not that of the data")]
    UnitVersion(u8),
    /// The changes are of this session, and the data of another.
    #[error("session {0} is not that of the data")]
    Session(u16),
    /// The unit at this offset of the changes announces a payload that is present.
    #[error("duplicate announcement at byte {offset} of the changes")]
    Duplicate {
        /// The offset of the unit.
        offset: usize,
    },
    /// The unit at this offset of the changes withdraws a payload that is absent.
    #[error("withdrawal of an unknown record at byte {offset} of the changes")]
    Unknown {
        /// The offset of the unit.
        offset: usize,
    },
    /// The output is too short for the result.
    #[error("no room in the output")]
    NoRoom,
}
