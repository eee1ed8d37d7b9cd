//! The entries of SLURM files, which are used as one set.

ghost use Rattle.std.specs.Prelude.{◌≡◌, ◌++◌, [], true, false, MatchResult};
ghost use Rattle.rtr_payload.specs.Meanings.{payload_of};
ghost use Rattle.data_slurm.specs.Filters.{removes};
ghost use Rattle.data_slurm.specs.Joining.{JoinFails};
ghost use Rattle.data_slurm.specs.Overlaps.{files_overlap, overlaps_some};

use crate::entry::Entry;
use rtr_payload::payload::Payload;
use std::alloc::{AllocError, Global};

/// The entries of SLURM files, in their order.
#[derive(Debug, Drop)]
pub struct Slurm {
    /// Filters and assertions.
    pub entries: Vec<Entry>,
}

/// Why a SLURM file can't join others.
#[derive(Clone, Copy, Debug, PartialEq, Eq, thiserror::Error)]
pub enum JoinError {
    /// It overlaps another one (RFC 8416 section 4.2).
    #[error("overlaps another SLURM file (RFC 8416 section 4.2)")]
    Overlap,
    /// An allocation failed.
    #[error("out of memory")]
    Memory,
}

impl Slurm {
    /// No entries.
    pub fn new(alloc: Global) -> Self
        ensures { result.entries.items ≡ [] }
    {
        Slurm {
            entries: Vec::new(alloc),
        }
    }

    /// Reports whether some filter matches the payload, so that it is removed.
    pub fn removes(&self, payload: &Payload) -> bool
        ensures { result ≡ removes self.now.entries.items (payload_of payload.now) }
    {
        removes(self.entries.as_slice(), payload)
    }

    /// Reports whether an entry of this file overlaps an entry of the other.
    pub fn overlaps(&self, other: &Slurm) -> bool
        ensures { result ≡ files_overlap self.now.entries.items other.now.entries.items }
    {
        files_overlap(self.entries.as_slice(), other.entries.as_slice())
    }

    /// Adds the entries of a further file. Fails with `Overlap` if it overlaps one of the files
    /// before; then none of the files may be used (RFC 8416 section 4.2).
    pub fn join(&mut self, other: Slurm) -> Result<(), JoinError>
        ensures { MatchResult result
            (λ _. (files_overlap self.old.entries.items other.entries.items ≡ false)
            × (self.new.entries.items ≡ self.old.entries.items ++ other.entries.items))
            (JoinFails self.old.entries.items other.entries.items) }
    {
        if self.overlaps(&other) {
            return Err(JoinError::Overlap);
        }
        let mut other = other;
        match self.entries.append(&mut other.entries) {
            Ok(()) => Ok(()),
            Err(_) => Err(JoinError::Memory),
        }
    }
}

/// Reports whether some filter among the entries matches the payload.
fn removes(entries: &[Entry], payload: &Payload) -> bool
    ensures { result ≡ removes entries.now (payload_of payload.now) }
{
    for entry in entries {
        if entry.matches(payload) {
            return true;
        }
    }
    false
}

/// Reports whether one of the entries overlaps one of the others.
fn files_overlap(entries: &[Entry], others: &[Entry]) -> bool
    ensures { result ≡ files_overlap entries.now others.now }
{
    for entry in entries {
        if overlaps_some(others, entry) {
            return true;
        }
    }
    false
}

/// Reports whether the entry overlaps one of these.
fn overlaps_some(entries: &[Entry], entry: &Entry) -> bool
    ensures { result ≡ overlaps_some entries.now entry.now }
{
    for other in entries {
        if entry.overlaps(other) {
            return true;
        }
    }
    false
}
