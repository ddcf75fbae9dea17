//! Rows of columns of any form at indices, flat; in runs they are found by the runs.
ghost use Rattle.std.specs.Prelude.{◌≡◌, IfOk, length};
ghost use Rattle.column_core.specs.PrimitiveForm.{optional_numbers, primitive_dtype};
ghost use Rattle.column_core.specs.Refusal.{IsRefusedBy};
ghost use Rattle.column_ops.specs.Nullable.{take_dtype};
ghost use Rattle.column_ops.specs.Take.{take_fault, take_rows as rows_at_indices};
ghost use Rattle.runend_array.specs.Array.{column_of, dtype_of, rows};
ghost use Rattle.runend_array.specs.Column.{column_dtype, column_of_runs, column_rows};
ghost use Rattle.runend_array.specs.Encoding.{IsComputedFlat};

use crate::takes::take;
use column_core::{PrimitiveArray, VortexError, VortexResult};
use runend_array::{ArrayRef, ExecutionCtx, RunEndArray};
use runend_column::take_rows;
use std::alloc::Allocator;

/// Returns the rows of a column of any form at the indices, null for null, as a flat column. Its type has null where
/// the column's or the indices' has. A run column is written out only where it has no more rows than there are indices:
/// else the run of each index is looked up, and if the values are in runs themselves, one row is written for each of
/// the column's runs.
///
/// Refused as `OutOfBounds`, with the index and the number of rows, at the first valid index that is
/// negative or not below that number; else only as `OutOfMemory`.
pub fn rows_at<A: Allocator + Copy>(
    array: &ArrayRef<A>,
    indices: &PrimitiveArray<A>,
    ctx: &mut ExecutionCtx<A>,
) -> VortexResult<ArrayRef<A>>
    ensures refused { IsRefusedBy (take_fault (optional_numbers indices.now) (length (rows array.now))) result }
    ensures rows { IfOk result (λ taken. rows taken ≡ rows_at_indices (rows array.now) (optional_numbers indices.now)) }
    ensures dtype { IfOk result (λ taken. dtype_of taken ≡
        take_dtype (dtype_of array.now) (primitive_dtype indices.now)) }
    ensures flat { IfOk result (λ taken. IsComputedFlat (column_of taken)) }
    ensures session { ctx.new ≡ ctx.old }
{
    match array {
        ArrayRef::RunEnd(runs) if runs.len() > indices.len() => rows_of_runs(runs, indices, ctx),
        _ => take_rows(array, indices, ctx),
    }
}

// The rows of a run column at the indices, null for null, flat.
fn rows_of_runs<A: Allocator + Copy>(
    array: &RunEndArray<A>,
    indices: &PrimitiveArray<A>,
    ctx: &mut ExecutionCtx<A>,
) -> VortexResult<ArrayRef<A>>
    ensures refused { IsRefusedBy (take_fault (optional_numbers indices.now)
        (length (column_rows (column_of_runs array.now)))) result }
    ensures rows { IfOk result (λ taken. rows taken ≡
        rows_at_indices (column_rows (column_of_runs array.now)) (optional_numbers indices.now)) }
    ensures dtype { IfOk result (λ taken. dtype_of taken ≡
        take_dtype (column_dtype array.now.values) (primitive_dtype indices.now)) }
    ensures flat { IfOk result (λ taken. IsComputedFlat (column_of taken)) }
    ensures session { ctx.new ≡ ctx.old }
{
    let taken = take(array, indices, ctx)?;
    match taken {
        ArrayRef::Constant(nulls) => {
            let constant = ArrayRef::Constant(nulls);
            let written = constant.canonicalize(ctx);
            drop(constant);
            written
        }
        flat => Ok(flat),
    }
}
