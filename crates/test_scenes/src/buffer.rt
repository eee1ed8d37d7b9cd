//! Bytes that an end has read and not yet taken.

use std::alloc::Global;
use std::mem;
use std::test::Fail;

/// Takes bytes off the front.
pub fn take(buffer: &mut Vec<u8>, size: usize, alloc: Global) -> Result<Vec<u8>, Fail> {
    let size = size.min(buffer.len());
    let (front, rest) = buffer.split_at(size);
    let front = Vec::from_slice(alloc, front)?;
    let rest = Vec::from_slice(alloc, rest)?;
    *buffer = rest;
    Ok(front)
}

/// Takes all bytes.
pub fn take_all(buffer: &mut Vec<u8>, alloc: Global) -> Vec<u8> {
    mem::replace(buffer, Vec::new(alloc))
}
