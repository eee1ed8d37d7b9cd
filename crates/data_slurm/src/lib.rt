//! SLURM (RFC 8416): which payloads the entries of an operator's files remove and add, and which
//! files overlap.
#![tactic(auto)]

mod entry;
mod file;
mod items;
pub mod laws;
mod names;
mod prefixes;
mod reason;
mod slurm;
mod values;

pub use entry::{Entry, KeyFilter, PrefixFilter};
pub use file::read_slurm;
pub use names::{Form, Group, Kind};
pub use reason::{SlurmPlace, SlurmReason, SlurmRefusal};
pub use slurm::{JoinError, Slurm};
