//! A message that is put after other bytes, with each request for memory refused in turn.
use crate::columns::required;
use column_bytes::put_message;
use refusing::{Calls, are_answered_in_turn};
use std::alloc::Allocator;
use std::test::Fail;
use vortex_runend::{ArrayRef, VortexResult};

// Two bytes, followed by the message of 7 and 300, of i16 without null.
const BEHIND: [u8; 18] = [
    b'a', b'b', 0x08, 1, 0x10, 6, 0x18, 1, 0x20, 2, 0x28, 1, 0x3a, 4, 7, 0, 0x2c, 1,
];

// A message is put after the bytes of a vector that has no room for it.
struct RowsBehind {}

impl Calls for RowsBehind {
    fn are_answered<A: Allocator + Copy>(alloc: A) -> VortexResult<bool> {
        let rows = ArrayRef::Primitive(required(alloc, &[7i16, 300])?);
        let written = behind(alloc, b"ab", &rows);
        drop(rows);
        Ok(written?.as_slice() == BEHIND.as_slice())
    }
}

fn behind<A: Allocator + Copy>(
    alloc: A,
    bytes: &[u8],
    column: &ArrayRef<A>,
) -> VortexResult<Vec<u8, A>> {
    let mut out = Vec::from_slice(alloc, bytes)?;
    put_message(&mut out, column)?;
    Ok(out)
}

#[test]
fn a_message_is_put_behind_bytes(rt: HostRuntime) -> Result<(), Fail> {
    assert!(rt; are_answered_in_turn::<RowsBehind>(rt.alloc()));
    Ok(())
}
