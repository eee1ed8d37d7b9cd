//! Why changes can't be put in canonical form.

use crate::fault::Flaw;

/// Why the changes of a sequence can't be written in canonical form.
#[derive(Debug, Drop, thiserror::Error)]
pub enum OrderFault {
    /// The input isn't payload units and an end of data, all of one version.
    #[error("the input holds no changes of one version")]
    Flaw(Flaw),
    /// The index has fewer elements than there are payload units.
    #[error("the index is too short")]
    NoIndex,
    /// The unit at this offset announces what the previous one of its name announced.
    #[error("announced again at byte {offset}")]
    Duplicate { offset: usize },
    /// The unit at this offset withdraws what the previous one of its name withdrew.
    #[error("withdrawn again at byte {offset}")]
    Unknown { offset: usize },
    /// The unit at this offset finally withdraws an ASPA whose customer was first announced, so
    /// that the net effect depends on the data.
    #[error("whether the withdrawal at byte {offset} takes effect depends on the data")]
    Undecided { offset: usize },
    /// The output is too short for all of the changes.
    #[error("no room in the output")]
    NoRoom,
}
