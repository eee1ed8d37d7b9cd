//! The data of a router, in a slice.

use data_slices::{InOrderFault, apply_in_order};
use session_bytes::Refusal;
use std::alloc::{AllocError, Global};
use std::test::Fail;

/// What changes came to.
#[derive(Drop)]
pub enum Made {
    /// These data.
    Data(Vec<u8>),
    /// The change at this place is refused.
    Refused(usize, Refusal),
}

/// Makes the changes that end with this end of data, of the data or of none.
pub fn make_data(alloc: Global, data: &[u8], changes: &[u8], end: &[u8]) -> Result<Made, Fail> {
    if data.is_empty() {
        return make_of(alloc, end, changes);
    }
    make_of(alloc, data, changes)
}

/// Makes changes of data, which may be an end of data alone.
fn make_of(alloc: Global, data: &[u8], changes: &[u8]) -> Result<Made, Fail> {
    let mut index = Vec::from_elem(alloc, 0usize, changes.len())?;
    let mut output = Vec::from_elem(alloc, 0u8, data.len().saturating_add(changes.len()))?;
    match apply_in_order(data, changes, &mut index, &mut output) {
        Ok(size) => {
            output.truncate(size);
            Ok(Made::Data(output))
        }
        Err(InOrderFault::Duplicate { offset }) => Ok(Made::Refused(offset, Refusal::Duplicate)),
        Err(InOrderFault::Unknown { offset }) => Ok(Made::Refused(offset, Refusal::Unknown)),
        Err(fault) => Err(Fail::new(format_args!("{fault}"))),
    }
}
