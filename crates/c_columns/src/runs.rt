//! Run columns of what other handles hold, and what run columns consist of.
ghost use Rattle.std.specs.Prelude.{◌≡◌, [], length, IfOk, IfErr, IsOkUnless, OnOk, OnErr};
ghost use Rattle.column_base.specs.ValidityForm.{NeverNull};
ghost use Rattle.column_base.specs.declared.dtype.PType.TheVariants.{U8};
ghost use Rattle.column_core.specs.Leaf.{OfNumbers};
ghost use Rattle.column_core.specs.PrimitiveForm.{primitive_with};
ghost use Rattle.runend_array.specs.Array.{column_of};
ghost use Rattle.runend_array.specs.Column.{OfLeaf, column_of_runs};
ghost use Rattle.column_core.specs.Refusal.{IsRefusedBy};
ghost use Rattle.typed_columns.specs.Typed.{format_of};
ghost use Rattle.c_columns.specs.Makers.{AreRecordedRuns, AreRunsOf, IsCopyOf};
ghost use Rattle.c_columns.specs.Ending.{IsShortOr};
ghost use Rattle.c_columns.specs.Reads.{AreRunValuesOf, form_number, offset_in};
ghost use Rattle.c_columns.specs.RunParts.{AreEndsOf, IsRecordAtFront, RecordedFault, RunsFault, SerializeFault, no_runs_fault};

use crate::flat::{Boxed, boxed, boxed_like};
use crate::levels::check_levels;
use crate::row_value::put_bytes;
use crate::sessions::plain_context;
use column_core::{DType, NativePType, PrimitiveArray, Validity, VortexError, VortexResult};
use runend_array::{ArrayRef, RunEnd, RunEndArray, RunEndArrayExt, RunEndArraySlotsExt};
use runend_column::{deserialize, serialize};
use std::alloc::Global;
use typed_columns::TypedColumn;

/// Returns a copy in the same form. Refused only for memory.
pub fn copy(alloc: Global, array: &ArrayRef<Global>) -> VortexResult<ArrayRef<Global>>
    ensures same { IfOk result (λ made. IsCopyOf array.now made) }
    ensures only { IsOkUnless result VortexError.OutOfMemory }
{
    array.try_clone(&mut plain_context(alloc))
}

/// Returns a copy in the same form, with the same format, on the heap. Refused only for memory.
pub fn boxed_copy(alloc: Global, column: &TypedColumn<Global>) -> VortexResult<Boxed>
    ensures same { IfOk result (λ made. IsCopyOf column.now.array made.value.array) }
    ensures typed { IfOk result (λ made. format_of made.value ≡ format_of column.now) }
    ensures only { IsOkUnless result VortexError.OutOfMemory }
{
    boxed_like(alloc, copy(alloc, &column.array)?, column)
}

/// Returns a copy in the same form, with the same format, in buffers that no other column shares, on the heap. Refused
/// only for memory.
pub fn boxed_compact(alloc: Global, column: &TypedColumn<Global>) -> VortexResult<Boxed>
    ensures same { IfOk result (λ made. IsCopyOf column.now.array made.value.array) }
    ensures typed { IfOk result (λ made. format_of made.value ≡ format_of column.now) }
    ensures only { IsOkUnless result VortexError.OutOfMemory }
{
    boxed_like(alloc, compact(alloc, &column.array)?, column)
}

fn compact(alloc: Global, array: &ArrayRef<Global>) -> VortexResult<ArrayRef<Global>>
    ensures same { IfOk result (λ made. IsCopyOf array.now made) }
    ensures only { IsOkUnless result VortexError.OutOfMemory }
{
    array.compact(&mut plain_context(alloc))
}

/// Returns the run column of copies of these parts, with the format of the values. Refused as `Unsupported` where it
/// would have more than 64 levels of runs, then as `RunEnd::try_new_offset_length` refuses, or for memory.
#[tactic(auto, using(crate::proofs::RunsServed::runs_too_deep, crate::proofs::RunsServed::runs_refused, crate::proofs::RunsServed::runs_served))]
pub fn run_column(
    alloc: Global,
    ends: &ArrayRef<Global>,
    values: &TypedColumn<Global>,
    offset: usize,
    count: usize,
) -> VortexResult<Boxed>
    ensures made { IfOk result (λ made. AreRunsOf offset count ends.now values.now.array made.value.array) }
    ensures typed { IfOk result (λ made. format_of made.value ≡ format_of values.now) }
    ensures refused { IfErr result (λ error. IsShortOr (RunsFault offset count ends.now values.now.array) error) }
    ensures served { OnOk result ((error : VortexError) → ¬ (RunsFault offset count ends.now values.now.array error)) }
{
    check_levels(&values.array)?;
    let (run_ends, run_values) = copies(alloc, ends, &values.array)?;
    let runs = RunEnd::try_new_offset_length(
        run_ends,
        run_values,
        offset,
        count,
        &mut plain_context(alloc),
    )?;
    boxed_runs_like(alloc, runs, values)
}

/// Returns the run column of copies of these parts, by its record, with the format of the values. Refused as
/// `Unsupported` where it would have more than 64 levels of runs, then as `deserialize` refuses, or for memory.
#[tactic(auto, using(crate::proofs::RunsServed::record_too_deep, crate::proofs::RunsServed::record_refused))]
pub fn recorded_column(
    alloc: Global,
    dtype: DType,
    count: usize,
    bytes: &[u8],
    ends: &ArrayRef<Global>,
    values: &TypedColumn<Global>,
) -> VortexResult<Boxed>
    ensures made { IfOk result
        (λ made. AreRecordedRuns bytes.now dtype count ends.now values.now.array made.value.array) }
    ensures typed { IfOk result (λ made. format_of made.value ≡ format_of values.now) }
    ensures refused { IfErr result
        (λ error. IsShortOr (RecordedFault bytes.now dtype count ends.now values.now.array) error) }
    ensures served { OnOk result
        ((error : VortexError) → ¬ (RecordedFault bytes.now dtype count ends.now values.now.array error)) }
{
    check_levels(&values.array)?;
    let (run_ends, run_values) = copies(alloc, ends, &values.array)?;
    let mut ctx = plain_context(alloc);
    let runs = deserialize(dtype, count, bytes, run_ends, run_values, &mut ctx)?;
    boxed_runs_like(alloc, runs, values)
}

/// Returns a copy of the ends of a run column, without a format. Refused as `Unsupported` unless it is a run column,
/// else for memory.
pub fn ends_of(alloc: Global, array: &ArrayRef<Global>) -> VortexResult<Boxed>
    ensures made { IfOk result (λ made. AreEndsOf (column_of array.now) (column_of made.value.array)) }
    ensures untyped { IfOk result (λ made. format_of made.value ≡ []) }
    ensures refused { IsRefusedBy (no_runs_fault (column_of array.now)) result }
{
    match array {
        ArrayRef::RunEnd(runs) => boxed(alloc, copy(alloc, runs.ends())?),
        _ => Err(VortexError::Unsupported),
    }
}

/// Returns a copy of the values of a run column, with its format. Refused as `Unsupported` unless it is a run column,
/// else for memory.
pub fn values_of(alloc: Global, column: &TypedColumn<Global>) -> VortexResult<Boxed>
    ensures made { IfOk result (λ made. AreRunValuesOf (column_of column.now.array) (column_of made.value.array)) }
    ensures typed { IfOk result (λ made. format_of made.value ≡ format_of column.now) }
    ensures refused { IsRefusedBy (no_runs_fault (column_of column.now.array)) result }
{
    match &column.array {
        ArrayRef::RunEnd(runs) => boxed_like(alloc, copy(alloc, runs.values())?, column),
        _ => Err(VortexError::Unsupported),
    }
}

/// Returns how many rows of the runs lie before the window; 0 for any other column.
pub fn offset_of(array: &ArrayRef<Global>) -> usize
    ensures { result ≡ offset_in (column_of array.now) }
{
    match array {
        ArrayRef::RunEnd(runs) => runs.offset(),
        _ => 0,
    }
}

/// Returns 0 for a flat column, 1 for a constant, 2 for lists, and 3 for runs.
pub fn form_of_array(array: &ArrayRef<Global>) -> u8
    ensures { result ≡ form_number (column_of array.now) }
{
    match array {
        ArrayRef::Constant(_) => 1,
        ArrayRef::ListView(_) => 2,
        ArrayRef::RunEnd(_) => 3,
        _ => 0,
    }
}

/// Writes the record of a run column to the front of `room`, and returns how many bytes it has. Refused as
/// `Unsupported` unless it is a run column, and as `ColumnLength`, with that number and the room, where it does not
/// fit.
pub fn put_record(alloc: Global, array: &ArrayRef<Global>, room: &mut [u8]) -> VortexResult<usize>
    ensures put { IfOk result (λ size. IsRecordAtFront (column_of array.now) size room.new) }
    ensures refused { IfErr result (λ error. IsShortOr (SerializeFault (length room.old) array.now) error) }
    ensures served { OnOk result ((error : VortexError) → ¬ (SerializeFault (length room.old) array.now error)) }
    ensures kept { OnErr result (room.new ≡ room.old) }
    ensures len { length room.new ≡ length room.old }
{
    let ArrayRef::RunEnd(runs) = array else {
        return Err(VortexError::Unsupported);
    };
    let record = serialize(runs, &mut plain_context(alloc))?;
    let size = put_bytes(&record, room)?;
    Ok(size as usize)
}

/// Copies of both. Refused only for memory.
pub(crate) fn copies(
    alloc: Global,
    ends: &ArrayRef<Global>,
    values: &ArrayRef<Global>,
) -> VortexResult<(ArrayRef<Global>, ArrayRef<Global>)>
    ensures same { IfOk result (λ made. IsCopyOf ends.now made.0 × IsCopyOf values.now made.1) }
    ensures only { IsOkUnless result VortexError.OutOfMemory }
{
    let ends = copy(alloc, ends)?;
    match copy(alloc, values) {
        Ok(values) => Ok((ends, values)),
        Err(error) => {
            drop(ends);
            Err(error)
        }
    }
}

/// Returns a run column on the heap, without a format. Refused only for memory.
pub(crate) fn boxed_runs(alloc: Global, runs: RunEndArray<Global>) -> VortexResult<Boxed>
    ensures column { IfOk result (λ made. column_of made.value.array ≡ column_of_runs runs) }
    ensures untyped { IfOk result (λ made. format_of made.value ≡ []) }
    ensures only { IsOkUnless result VortexError.OutOfMemory }
{
    boxed(alloc, ArrayRef::of_runs(alloc, runs)?)
}

/// Returns a run column on the heap, with a copy of this one's format. Refused only for memory.
pub(crate) fn boxed_runs_like(
    alloc: Global,
    runs: RunEndArray<Global>,
    like: &TypedColumn<Global>,
) -> VortexResult<Boxed>
    ensures column { IfOk result (λ made. column_of made.value.array ≡ column_of_runs runs) }
    ensures typed { IfOk result (λ made. format_of made.value ≡ format_of like.now) }
    ensures only { IsOkUnless result VortexError.OutOfMemory }
{
    boxed_like(alloc, ArrayRef::of_runs(alloc, runs)?, like)
}

/// Returns a run column without rows, which holds no memory: it keeps the place of one that is put there later.
#[tactic(auto, using(crate::proofs::NoRuns::no_parts))]
pub(crate) fn no_runs(alloc: Global) -> RunEndArray<Global> {
    RunEnd::new_unchecked(no_ends(alloc), no_ends(alloc), 0, 0)
}

/// Returns a column of ends, or of other bytes, without rows, which holds no memory.
pub(crate) fn no_ends(alloc: Global) -> ArrayRef<Global>
    ensures { column_of result ≡ OfLeaf (OfNumbers (primitive_with U8 [] NeverNull)) }
{
    ArrayRef::Primitive(PrimitiveArray::new_unchecked(u8::empty(alloc), Validity::NonNullable))
}
