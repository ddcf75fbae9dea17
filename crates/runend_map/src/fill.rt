//! Nulls of run columns, filled.
ghost use Rattle.std.specs.Prelude.{◌≡◌, IfOk, IfSome};
ghost use Rattle.column_core.specs.Leaf.{OfNumbers, single_rows};
ghost use Rattle.column_core.specs.PrimitiveForm.{primitive_dtype};
ghost use Rattle.column_core.specs.Refusal.{IsRefusedBy};
ghost use Rattle.column_core.specs.Value.{Single};
ghost use Rattle.column_ops.specs.Fill.{fill_dtype, fill_fault, fill_rows};
ghost use Rattle.runend_array.specs.Array.{column_of, dtype_of, rows};
ghost use Rattle.runend_array.specs.Column.{AreRuns, column_dtype, column_of_runs, column_rows};
ghost use Rattle.runend_column.specs.MinimalForm.{IsRunForm};
ghost use Rattle.runend_column.specs.VisibleForm.{visible_values as values_of_visible};

use column_core::{FlatColumn, PrimitiveArray, Scalar, VortexError, VortexResult, is_list_type};
use column_ops::ColumnOps;
use runend_array::{ArrayRef, ExecutionCtx, RunEndArray, RunEndArrayExt};
use runend_column::{borrowed_values, over_runs, visible_values};
use std::alloc::Allocator;

/// Returns the rows with the scalar's value in place of each null, of the column's kind and without null: a run column
/// with flat values and ends of the same type. Integers are in minimal form: no run is hidden, neighbours differ, the
/// offset is 0 and the last end is the length. Columns of other types keep the visible runs. Takes a step for each
/// visible run.
///
/// Refused as `Unsupported` for lists; then as `TypeMismatch` for a scalar of another kind; then as
/// `NullFill` for null; else only as `OutOfMemory`.
pub fn fill_null<A: Allocator + Copy>(
    array: &RunEndArray<A>,
    value: &Scalar<A>,
    ctx: &mut ExecutionCtx<A>,
) -> VortexResult<ArrayRef<A>>
    ensures refused { IsRefusedBy (fill_fault (column_dtype array.now.values) value.now) result }
    ensures rows { IfOk result (λ filled. IfSome value.now.value (λ flat. rows filled ≡
        fill_rows (column_rows (column_of_runs array.now)) (Single flat))) }
    ensures dtype { IfOk result (λ filled. dtype_of filled ≡ fill_dtype (column_dtype array.now.values)) }
    ensures form { IfOk result (λ filled. IsRunForm (fill_dtype (column_dtype array.now.values)) array.now
        (column_of filled)) }
    ensures session { ctx.new ≡ ctx.old }
{
    if is_list_type(array.dtype()) {
        return Err(VortexError::Unsupported);
    }
    let alloc = *ctx.allocator();
    if let Some(numbers) = borrowed_values(array) {
        return fill_lent(alloc, array, numbers, value);
    }
    let values = visible_values(alloc, array)?;
    let filled = values.fill_null(alloc, value);
    drop(values);
    let filled = filled?;
    over_runs(alloc, array, filled)
}

// A run column whose nulls are filled, where the values are lent: integers, each of which is visible.
fn fill_lent<A: Allocator + Copy>(
    alloc: A,
    array: &RunEndArray<A>,
    numbers: &PrimitiveArray<A>,
    value: &Scalar<A>,
) -> VortexResult<ArrayRef<A>>
    requires valid { AreRuns array.now }
    requires rows { single_rows (OfNumbers numbers.now) ≡ values_of_visible array.now }
    requires of_type { primitive_dtype numbers.now ≡ column_dtype array.now.values }
    ensures refused { IsRefusedBy (fill_fault (column_dtype array.now.values) value.now) result }
    ensures rows { IfOk result (λ filled. IfSome value.now.value (λ flat. rows filled ≡
        fill_rows (column_rows (column_of_runs array.now)) (Single flat))) }
    ensures dtype { IfOk result (λ filled. dtype_of filled ≡ fill_dtype (column_dtype array.now.values)) }
    ensures form { IfOk result (λ filled. IsRunForm (fill_dtype (column_dtype array.now.values)) array.now
        (column_of filled)) }
{
    let filled = numbers.fill_null(alloc, value)?;
    over_runs(alloc, array, FlatColumn::Primitive(filled))
}
