//! A run column and its record.
ghost use Rattle.std.specs.Prelude.{◌≡◌, ◌≢◌, ◌↔◌, length, IfOk, IsOkUnless, IsTrue, MatchOption, MatchResult};
ghost use Rattle.column_fields.specs.EndsType.{IsEndsTypeNumber};
ghost use Rattle.column_fields.specs.RecordFields.{Means};
ghost use Rattle.column_fields.specs.WrittenRecord.{IsWritten};
ghost use Rattle.runend_array.specs.Array.{column_of};
ghost use Rattle.runend_array.specs.Column.{column_dtype, end_numbers};
ghost use Rattle.runend_column.specs.Record.{HasStatedType, record_of};
ghost use Rattle.runend_column.specs.Fault.{AreRecorded, AreStatedSlots, IsRecordedColumn, RecordFault, SlotsFault};

use column_core::{DType, Nullability, VortexError, VortexResult};
use column_fields::RunEndMetadata;
use runend_array::{
    ArrayRef, ExecutionCtx, RunEnd, RunEndArray, RunEndArrayExt, RunEndArraySlotsExt,
    validate_parts,
};
use std::alloc::Allocator;

/// Returns the bytes of the record of a run column: the number of the type of its ends, its number of runs and its
/// offset, in the written form of `RunEndMetadata::encode_to_vec`. Refused only for memory.
pub fn serialize<A: Allocator + Copy>(
    array: &RunEndArray<A>,
    ctx: &mut ExecutionCtx<A>,
) -> VortexResult<Vec<u8, A>>
    ensures written { IfOk result (λ bytes. IsWritten bytes.items (record_of array.now)) }
    ensures means { IfOk result (λ bytes. Means bytes.items (record_of array.now)) }
    ensures only { IsOkUnless result VortexError.OutOfMemory }
    ensures session { ctx.new ≡ ctx.old }
{
    metadata_of(array).encode_to_vec(*ctx.allocator())
}

/// Returns the run column of these ends and values with the offset that the bytes, its record, state, and with `length`
/// rows of the type `dtype`. Refused, in this order, as `BadMetadata` or `EndsTypeNumber` where the bytes are not a
/// record, `TypeMismatch` where the ends are not a plain non-nullable column of the type that it states, `RunCount`,
/// with the stated number and the number of the ends, where these differ, `TypeMismatch` where the values are not of
/// `dtype`, and then as `RunEnd::try_new_offset_length` refuses. Takes no memory.
pub fn deserialize<A: Allocator + Copy>(
    dtype: DType,
    length: usize,
    bytes: &[u8],
    ends: ArrayRef<A>,
    values: ArrayRef<A>,
    ctx: &mut ExecutionCtx<A>,
) -> VortexResult<RunEndArray<A>>
    ensures read { MatchResult result
        (λ array. IsRecordedColumn bytes.now dtype length (column_of ends) (column_of values) array)
        (λ error. RecordFault bytes.now dtype length (column_of ends) (column_of values) error) }
    ensures memory { result ≢ Err VortexError.OutOfMemory }
    ensures session { ctx.new ≡ ctx.old }
{
    let _ = &ctx;
    match read_record(bytes, dtype, length, &ends, &values) {
        Ok(metadata) => {
            let offset = metadata.offset as usize;
            Ok(RunEnd::new_unchecked(ends, values, offset, length))
        }
        Err(error) => {
            drop(ends);
            drop(values);
            Err(error)
        }
    }
}

// The record that the bytes mean, where the ends and the values are what it says and make a run column
// under its offset. Else the first fault.
fn read_record<A: Allocator + Copy>(
    bytes: &[u8],
    dtype: DType,
    length: usize,
    ends: &ArrayRef<A>,
    values: &ArrayRef<A>,
) -> VortexResult<RunEndMetadata>
    ensures { MatchResult result
        (λ m. AreRecorded m bytes.now dtype length (column_of ends.now) (column_of values.now))
        (λ error. RecordFault bytes.now dtype length (column_of ends.now) (column_of values.now) error) }
{
    let metadata = RunEndMetadata::decode(bytes)?;
    check_slots(&metadata, dtype, ends, values)?;
    validate_parts(ends, values, metadata.offset as usize, length)?;
    Ok(metadata)
}

// The record of a run column.
fn metadata_of<A: Allocator + Copy>(array: &RunEndArray<A>) -> RunEndMetadata
    ensures exact { result ≡ record_of array.now }
    ensures known { IsEndsTypeNumber result.ends_ptype }
{
    let ArrayRef::Primitive(ends) = array.ends() else {
        unreachable!()
    };
    let mut metadata = RunEndMetadata {
        ends_ptype: 0,
        num_runs: ends.len() as u64,
        offset: array.offset() as u64,
    };
    metadata.set_ends_ptype(ends.ptype());
    metadata
}

// The number of ends, where they are a plain column of the stated type without null.
fn count_stated<A: Allocator + Copy>(metadata: &RunEndMetadata, ends: &ArrayRef<A>) -> Option<usize>
    requires known { IsEndsTypeNumber metadata.now.ends_ptype }
    ensures { MatchOption result
        (¬ HasStatedType metadata.now (column_of ends.now))
        (λ count. HasStatedType metadata.now (column_of ends.now) ×
        (count ≡ length (end_numbers (column_of ends.now)))) }
{
    let stated = DType::Primitive(metadata.ends_ptype(), Nullability::NonNullable);
    match ends {
        ArrayRef::Primitive(plain) if is_same_type(plain.dtype(), stated) => Some(plain.len()),
        _ => None,
    }
}

// Are the types equal, nullability included?
fn is_same_type(left: DType, right: DType) -> bool
    ensures { IsTrue result ↔ (left ≡ right) }
{
    left == right
}

// Are the ends and the values what the record and the type say? Else the first fault.
fn check_slots<A: Allocator + Copy>(
    metadata: &RunEndMetadata,
    dtype: DType,
    ends: &ArrayRef<A>,
    values: &ArrayRef<A>,
) -> VortexResult<()>
    requires known { IsEndsTypeNumber metadata.now.ends_ptype }
    ensures { MatchResult result
        (λ _. AreStatedSlots metadata.now dtype (column_of ends.now) (column_of values.now))
        (λ error. SlotsFault metadata.now dtype (column_of ends.now) (column_of values.now) error) }
{
    let Some(found) = count_stated(metadata, ends) else {
        return Err(VortexError::TypeMismatch);
    };
    if metadata.num_runs != found as u64 {
        return Err(VortexError::RunCount {
            stated: metadata.num_runs,
            found,
        });
    }
    if !is_same_type(values.dtype(), dtype) {
        return Err(VortexError::TypeMismatch);
    }
    Ok(())
}
