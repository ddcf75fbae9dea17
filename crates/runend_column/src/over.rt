//! Run columns over the visible runs of another, with values that were made of its own.
ghost use Rattle.std.specs.Prelude.{◌≡◌, length, IfOk, IsOkUnless};
ghost use Rattle.column_core.specs.Computed.{IsComputed, IsComputedLeaf};
ghost use Rattle.column_core.specs.FlatColumn.{leaf_of};
ghost use Rattle.column_core.specs.Leaf.{OfNumbers, leaf_dtype, leaf_rows, single_rows};
ghost use Rattle.column_core.specs.PrimitiveForm.{primitive_dtype};
ghost use Rattle.runend_windows.specs.Encoding.{number_rows};
ghost use Rattle.runend_windows.specs.Ends.{IsEndsType, ends_of};
ghost use Rattle.runend_windows.specs.Window.{run_rows, IsWindow};
ghost use Rattle.runend_array.specs.Array.{column_of, dtype_of, rows};
ghost use Rattle.runend_array.specs.Column.{column_dtype, column_of_runs, column_rows};
ghost use Rattle.runend_encode.specs.Joined.{AllHaveRows};
ghost use Rattle.runend_column.specs.MinimalForm.{AreMinimalRuns, IsMinimalForm, IsRunForm};
ghost use Rattle.runend_column.specs.VisibleForm.{IsOverVisibleRuns, visible_ends, visible_values as values_of_visible, window_start};

use crate::visible::{ends_of_visible, visible_offset};
use column_core::{FlatColumn, PrimitiveArray, VortexError, VortexResult};
use runend_array::{ArrayRef, RunEnd, RunEndArray, RunEndArrayExt, RunEndArraySlotsExt, array_of};
use runend_encode::coalesce_runs;
use std::alloc::Allocator;

/// Returns the rows that the visible runs show over these values, one for each, as a run column with ends of the same
/// type and flat values. Integers are in minimal form; other values keep the visible runs as they are. Refused only as
/// `OutOfMemory`.
pub fn over_runs<A: Allocator + Copy>(
    alloc: A,
    array: &RunEndArray<A>,
    values: FlatColumn<A>,
) -> VortexResult<ArrayRef<A>>
    requires paired { length (leaf_rows (leaf_of values)) ≡ length (values_of_visible array.now) }
    requires computed { IsComputedLeaf (leaf_of values) }
    ensures only { IsOkUnless result VortexError.OutOfMemory }
    ensures rows { IfOk result (λ part. rows part ≡ run_rows (visible_ends array.now) (single_rows (leaf_of values))
        (window_start array.now.count array.now.offset) array.now.count) }
    ensures dtype { IfOk result (λ part. dtype_of part ≡ leaf_dtype (leaf_of values)) }
    ensures form { IfOk result (λ part. IsRunForm (leaf_dtype (leaf_of values)) array.now (column_of part)) }
{
    match values {
        FlatColumn::Primitive(numbers) => with_minimal_runs(alloc, array, numbers),
        FlatColumn::Bool(truths) => over_visible_runs(alloc, array, FlatColumn::Bool(truths)),
        FlatColumn::Decimal(numbers) => over_visible_runs(
            alloc,
            array,
            FlatColumn::Decimal(numbers),
        ),
        FlatColumn::VarBinView(views) => over_visible_runs(
            alloc,
            array,
            FlatColumn::VarBinView(views),
        ),
    }
}

/// Returns the run column of the visible runs over these values, one for each, with ends of the same type. Refused only
/// as `OutOfMemory`.
pub fn over_visible_runs<A: Allocator + Copy>(
    alloc: A,
    array: &RunEndArray<A>,
    values: FlatColumn<A>,
) -> VortexResult<ArrayRef<A>>
    requires paired { length (leaf_rows (leaf_of values)) ≡ length (values_of_visible array.now) }
    requires computed { IsComputedLeaf (leaf_of values) }
    ensures only { IsOkUnless result VortexError.OutOfMemory }
    ensures rows { IfOk result (λ part. rows part ≡ run_rows (visible_ends array.now) (single_rows (leaf_of values))
        (window_start array.now.count array.now.offset) array.now.count) }
    ensures dtype { IfOk result (λ part. dtype_of part ≡ leaf_dtype (leaf_of values)) }
    ensures form { IfOk result (λ part. IsOverVisibleRuns array.now (column_of part)) }
{
    let ends = match ends_of_visible(alloc, array) {
        Ok(ends) => ArrayRef::Primitive(ends),
        Err(error) => {
            drop(values);
            return Err(error);
        }
    };
    let part = RunEnd::new_unchecked(ends, array_of(values), visible_offset(array), array.len());
    ArrayRef::of_runs(alloc, part)
}

/// Returns the rows that the visible runs show over these integers, one for each, as a run column in minimal form, with
/// ends of the same type. Refused only as `OutOfMemory`.
pub fn with_minimal_runs<A: Allocator + Copy>(
    alloc: A,
    array: &RunEndArray<A>,
    numbers: PrimitiveArray<A>,
) -> VortexResult<ArrayRef<A>>
    requires paired { length (leaf_rows (OfNumbers numbers)) ≡ length (values_of_visible array.now) }
    requires computed { IsComputed numbers }
    ensures only { IsOkUnless result VortexError.OutOfMemory }
    ensures rows { IfOk result (λ part. rows part ≡ run_rows (visible_ends array.now) (single_rows (OfNumbers numbers))
        (window_start array.now.count array.now.offset) array.now.count) }
    ensures dtype { IfOk result (λ part. dtype_of part ≡ primitive_dtype numbers) }
    ensures form { IfOk result (λ part. IsMinimalForm array.now.ends_type (column_of part)) }
{
    let ends = match ends_of_visible(alloc, array) {
        Ok(ends) => ends,
        Err(error) => {
            drop(numbers);
            return Err(error);
        }
    };
    let least = minimal_runs(alloc, ends, numbers, visible_offset(array), array.len())?;
    ArrayRef::of_runs(alloc, least)
}

/// Returns the rows that runs with these ends and values show, `count` of them from position `offset` on, as a run
/// column in minimal form, with ends of the same type. Each run has to show a row. Refused only as `OutOfMemory`.
pub fn minimal_runs<A: Allocator + Copy>(
    alloc: A,
    ends: PrimitiveArray<A>,
    values: PrimitiveArray<A>,
    offset: usize,
    count: usize,
) -> VortexResult<RunEndArray<A>>
    requires plain { IsEndsType (primitive_dtype ends) }
    requires window { IsWindow (ends_of ends) offset count }
    requires paired { length (leaf_rows (OfNumbers values)) ≡ length ends.numbers }
    requires shown { AllHaveRows (ends_of ends) offset count }
    requires computed { IsComputed values }
    ensures only { IsOkUnless result VortexError.OutOfMemory }
    ensures rows { IfOk result (λ least. column_rows (column_of_runs least) ≡
        run_rows (ends_of ends) (number_rows values) offset count) }
    ensures dtype { IfOk result (λ least. column_dtype least.values ≡ primitive_dtype values) }
    ensures form { IfOk result (λ least. AreMinimalRuns ends.ptype least) }
{
    prove_eq!(values.len(), ends.len());
    let (joined_ends, joined_values) = coalesce_runs(alloc, ends, values, offset, count)?;
    let least_ends = ArrayRef::Primitive(joined_ends);
    let least_values = ArrayRef::Primitive(joined_values);
    Ok(RunEnd::new_unchecked(least_ends, least_values, 0, count))
}
