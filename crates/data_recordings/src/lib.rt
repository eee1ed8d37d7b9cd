//! The payloads that a recorded session leaves: the result of its whole answers, applied to no
//! payloads. The programs that read recordings use this crate, so that all read a file alike.
#![tactic(auto)]

pub mod laws;
mod order;
mod recording;
mod stop;

pub use order::{is_other, refused_in};
pub use recording::{Recording, read_recording};
pub use stop::{Refusal, Stop, StopCause};
