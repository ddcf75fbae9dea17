//! Metadata records that no line of vectors holds: those that a program builds.
use column_base::{PType, VortexResult};
use column_fields::RunEndMetadata;
use column_fields::record_laws::write_then_read;
use refusing::{Calls, are_answered_in_turn};
use std::alloc::Allocator;
use std::test::Fail;

// Are these the bytes that a record was written as?
fn are_bytes<A: Allocator>(written: VortexResult<Vec<u8, A>>, bytes: &[u8]) -> VortexResult<bool> {
    let written = written?;
    let are_due = written.as_slice() == bytes;
    drop(written);
    Ok(are_due)
}

// A record that says nothing has no bytes, and one that says only an offset has no other field. One of three runs from
// row 1 on, with ends of type u32, is read again.
struct Records {}

impl Calls for Records {
    fn are_answered<A: Allocator + Copy>(alloc: A) -> VortexResult<bool> {
        let mut metadata = RunEndMetadata::default();
        let is_empty = metadata.ends_ptype() == PType::U8
            && are_bytes(metadata.encode_to_vec(alloc), &[])?;
        metadata.offset = 300;
        let is_offset = are_bytes(metadata.encode_to_vec(alloc), &[0x18, 0xAC, 0x02])?;
        metadata.set_ends_ptype(PType::U32);
        metadata.num_runs = 3;
        metadata.offset = 1;
        let is_spelt = are_bytes(metadata.encode_to_vec(alloc), &[0x08, 2, 0x10, 3, 0x18, 1])?;
        Ok(is_empty && is_offset && is_spelt && write_then_read(&metadata, alloc)? == metadata)
    }
}

#[test]
fn a_record_is_built_written_and_read(rt: HostRuntime) -> Result<(), Fail> {
    assert!(rt; are_answered_in_turn::<Records>(rt.alloc()));
    Ok(())
}
