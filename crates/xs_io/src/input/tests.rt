//! A buffer gives back the memory that a large content needed.
use super::*;
use crate::device::FromRead;
use std::test::Fail;

/// The most bytes of memory that an empty buffer keeps: those of four reads, and what growth adds to them.
const MOST_KEPT: usize = 300_000;

/// A buffer with this many reads in it.
fn filled_buffer(alloc: Global, pieces: usize) -> Result<Input, AllocError> {
    let mut bytes = Vec::new(alloc);
    bytes.resize(READ_BYTES, 7)?;
    let mut input = Input::new(alloc);
    for _ in 0..pieces {
        match input.fill(&mut FromRead::new(bytes.as_slice())) {
            Ok(_) => {}
            Err(_) => return Err(AllocError),
        }
    }
    Ok(input)
}

#[test]
fn a_great_buffer_is_given_back_by_clear(rt: HostRuntime) -> Result<(), Fail> {
    let mut input = filled_buffer(rt.alloc(), 20)?;
    assert_eq!(rt; input.bytes().len(), 20 * READ_BYTES);
    input.clear();
    assert!(rt; input.bytes().is_empty());
    assert!(rt; input.bytes.capacity() <= MOST_KEPT);
    Ok(())
}

#[test]
fn a_great_buffer_is_given_back_once_its_bytes_are_used(rt: HostRuntime) -> Result<(), Fail> {
    let mut input = filled_buffer(rt.alloc(), 20)?;
    let used = input.bytes().len().saturating_sub(1);
    input.consume(used);
    match input.fill(&mut FromRead::new(&b"ab"[..])) {
        Ok(count) => assert_eq!(rt; count, 2),
        Err(_) => assert!(rt; false),
    }
    assert!(rt; input.bytes() == b"\x07ab".as_slice());
    assert!(rt; input.bytes.capacity() <= MOST_KEPT);
    Ok(())
}
