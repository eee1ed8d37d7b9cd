//! Data in slices, as units in canonical form: computing deltas, ordering changes and applying
//! them, without allocating. `Data` of `data_memory` does the same in memory of its own.
#![tactic(auto)]

mod allowing;
mod applied;
mod apply;
mod at_offsets;
mod between;
mod changes;
mod check;
mod delta;
mod fault;
mod in_order;
mod in_order_fault;
pub mod in_order_laws;
mod index;
mod item;
pub mod laws;
mod made;
mod missing;
mod offsets;
mod order;
mod order_fault;
pub mod order_laws;
mod placing;
mod reading;
mod refused;
mod settling;
mod shared;

pub use apply::apply_into;
pub use at_offsets::{AtFault, check_at, make_at};
pub use between::changes_between;
pub use changes::check_changes;
pub use check::check_data;
pub use delta::delta_into;
pub use fault::{ApplyFault, DeltaFault, Flaw, Reason};
pub use in_order::{apply_in_order, check_in_order};
pub use in_order_fault::InOrderFault;
pub use index::{is_of, put_offset};
pub use order::order_into;
pub use order_fault::OrderFault;
