//! Data of the RPKI to Router protocol: the payloads of a cache, or a router's copy of them, and
//! how announcements and withdrawals change them.
#![tactic(auto)]

mod apply_error;
mod change_error;
mod data;
mod kept_origin;
pub mod laws;
mod writing;

pub use apply_error::{ApplyCause, ApplyError};
pub use change_error::ChangeError;
pub use data::Data;
pub use kept_origin::KeptOrigin;
