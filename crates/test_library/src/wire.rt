//! Tests of `rtr_wire`: whole sequences, and what the crate exports. They name no other library of
//! the repository, to show that a user of `rtr_wire` needs none.

mod debug;
mod fixed;
mod shown;
mod texts;
mod variable;

use rtr_wire::pdu::{Payload, SliceSource};
use std::alloc::Global;

/// The payload unit that these bytes begin with.
fn unit(alloc: Global, bytes: &[u8]) -> Option<Payload> {
    let answer = Payload::read(alloc, &mut SliceSource::new(bytes));
    answer.ok()?.ok()?
}
