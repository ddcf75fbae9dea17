//! Run columns cast to another type.
ghost use Rattle.std.specs.Prelude.{◌≡◌, IfOk};
ghost use Rattle.column_core.specs.Refusal.{IsRefusedBy};
ghost use Rattle.column_core.specs.Leaf.{OfNumbers, single_rows};
ghost use Rattle.column_core.specs.PrimitiveForm.{primitive_dtype};
ghost use Rattle.column_ops.specs.Cast.{cast_fault};
ghost use Rattle.runend_array.specs.Array.{column_of, dtype_of, rows};
ghost use Rattle.runend_array.specs.Column.{AreRuns, column_dtype, column_of_runs, column_rows, plain_of};
ghost use Rattle.runend_column.specs.MinimalForm.{IsRunForm};
ghost use Rattle.runend_column.specs.VisibleForm.{visible_values as values_of_visible};

use column_core::{DType, FlatColumn, PrimitiveArray, VortexError, VortexResult, is_list_type};
use column_ops::ColumnOps;
use runend_array::{ArrayRef, ExecutionCtx, RunEndArray, RunEndArrayExt};
use runend_column::{borrowed_values, over_runs, visible_values};
use std::alloc::Allocator;

/// Returns the rows in the type: a run column with flat values and ends of the same type. Integers are in minimal form:
/// no run is hidden, neighbours differ (null is equal to null), the offset is 0 and the last end is the length. Columns
/// of other types keep the visible runs. Takes a step for each visible run, and no hidden run decides.
///
/// Refused as `Unsupported` unless both types are of integers, or both of one kind that is not a list;
/// then, at the first row that is not a value of the type, as `NullNotAllowed` for null and as
/// `CastOutOfRange` for a number; else only as `OutOfMemory`.
pub fn cast<A: Allocator + Copy>(
    array: &RunEndArray<A>,
    dtype: DType,
    ctx: &mut ExecutionCtx<A>,
) -> VortexResult<ArrayRef<A>>
    ensures refused { IsRefusedBy (cast_fault (plain_of (column_of_runs array.now)) dtype) result }
    ensures rows { IfOk result (λ cast. rows cast ≡ column_rows (column_of_runs array.now)) }
    ensures dtype { IfOk result (λ cast. dtype_of cast ≡ dtype) }
    ensures form { IfOk result (λ cast. IsRunForm dtype array.now (column_of cast)) }
    ensures session { ctx.new ≡ ctx.old }
{
    if is_list_type(array.dtype()) {
        return Err(VortexError::Unsupported);
    }
    let alloc = *ctx.allocator();
    if let Some(numbers) = borrowed_values(array) {
        return cast_lent(alloc, array, numbers, dtype);
    }
    let values = visible_values(alloc, array)?;
    let cast = values.cast(alloc, dtype);
    drop(values);
    let cast = cast?;
    over_runs(alloc, array, cast)
}

// The cast of a run column whose values are lent: integers, each of which is visible.
fn cast_lent<A: Allocator + Copy>(
    alloc: A,
    array: &RunEndArray<A>,
    numbers: &PrimitiveArray<A>,
    dtype: DType,
) -> VortexResult<ArrayRef<A>>
    requires valid { AreRuns array.now }
    requires rows { single_rows (OfNumbers numbers.now) ≡ values_of_visible array.now }
    requires of_type { primitive_dtype numbers.now ≡ column_dtype array.now.values }
    ensures refused { IsRefusedBy (cast_fault (plain_of (column_of_runs array.now)) dtype) result }
    ensures rows { IfOk result (λ cast. rows cast ≡ column_rows (column_of_runs array.now)) }
    ensures dtype { IfOk result (λ cast. dtype_of cast ≡ dtype) }
    ensures form { IfOk result (λ cast. IsRunForm dtype array.now (column_of cast)) }
{
    let cast = numbers.cast(alloc, dtype)?;
    over_runs(alloc, array, FlatColumn::Primitive(cast))
}
