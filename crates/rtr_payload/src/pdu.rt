//! The payload units, and the contents of the variable ones.

mod aspa;
mod frame;
mod key_info;
mod payload;
mod payload_unit;
pub mod prefix_rule;
mod prefix_unit;
mod providers;
mod router_key;
mod variable_unit;

pub use aspa::Aspa;
pub use key_info::{KeyInfoError, KeyInfoVecError, RouterKeyInfo};
pub use payload::Payload;
pub use payload_unit::PayloadUnit;
pub use prefix_unit::PrefixUnit;
pub use providers::{ProviderAsns, ProviderAsnsError, ProviderIter, ProviderIterError};
pub use router_key::RouterKey;
pub use variable_unit::{Body, VariableUnit, flagged_header, put_parts};
