//! Route origin validation (RFC 6811): whether a route is valid, by the origins that a cache sent.
//!
//! `validate` and `covering` work on data in slices, in canonical form, as `check_data` of
//! `data_slices` accepts them and `apply_into` writes them. They allocate nothing; `Tables` are
//! computed from the data in one pass. `ValidateRoutes` does the same for a `Data`.
#![tactic(auto)]

mod data;
mod finding;
pub mod laws;
mod mismatch;
mod pass;
mod table;
mod tables;
mod trail;
mod validation;
mod validity;
mod vrp;

pub use data::ValidateRoutes;
pub use finding::{CoveringIter, CoveringVrp, covering, first_covering};
pub use mismatch::Mismatch;
pub use pass::Pass;
pub use tables::Tables;
pub use validation::{Route, validate, validate_by_walk};
pub use validity::Validity;
