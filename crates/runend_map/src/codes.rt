//! Run columns of codes, and what their dictionaries have for them.
ghost use Rattle.std.specs.Prelude.{◌≡◌, true, length, map, IfOk, IsOkUnless};
ghost use Rattle.column_core.specs.PrimitiveForm.{optional_numbers, primitive_dtype};
ghost use Rattle.column_core.specs.Refusal.{IsRefusedBy};
ghost use Rattle.column_ops.specs.Cast.{is_numbers};
ghost use Rattle.column_ops.specs.Codes.{code_fault, code_number, code_rows};
ghost use Rattle.column_ops.specs.Nullable.{take_dtype};
ghost use Rattle.runend_windows.specs.Window.{run_rows};
ghost use Rattle.runend_array.specs.Array.{column_of, dtype_of, rows};
ghost use Rattle.runend_array.specs.Column.{AreRuns, column_dtype, column_of_runs, plain_of};
ghost use Rattle.runend_array.specs.Encoding.{IsComputedFlat};
ghost use Rattle.runend_map.specs.Codes.{keeps_runs};
ghost use Rattle.runend_map.specs.TakenForm.{TakeFromLeaves};
ghost use Rattle.runend_column.specs.VisibleForm.{visible_ends, visible_values as values_of_visible, window_start};

use crate::visible::shown_values;
use column_core::{FlatColumn, PrimitiveArray, VortexError, VortexResult};
use runend_array::{ArrayRef, ExecutionCtx, RunEndArray};
use runend_column::{borrowed_values, over_visible_runs, visible_values, with_minimal_runs};
use runend_select::rows_at;
use std::alloc::Allocator;

/// Returns the dictionary's row for the code of each visible run, null for null, flat, in a type with null where the
/// dictionary's or the codes' has. In a dictionary in runs, the run of each code is looked up.
///
/// Refused as `OutOfBounds`, with the code and the number of rows of the dictionary, at the first code of a
/// visible run that is not null and is negative or not below that number; else only as `OutOfMemory`.
pub(crate) fn rows_for_runs<A: Allocator + Copy>(
    codes: &RunEndArray<A>,
    dictionary: &ArrayRef<A>,
    ctx: &mut ExecutionCtx<A>,
) -> VortexResult<ArrayRef<A>>
    requires numbers { is_numbers (column_dtype codes.now.values) ≡ true }
    ensures refused { IsRefusedBy (code_fault (plain_of (column_of_runs codes.now))
        (length (rows dictionary.now))) result }
    ensures rows { IfOk result (λ taken. rows taken ≡ code_rows (rows dictionary.now) (values_of_visible codes.now)) }
    ensures dtype { IfOk result (λ taken. dtype_of taken ≡
        take_dtype (dtype_of dictionary.now) (column_dtype codes.now.values)) }
    ensures flat { IfOk result (λ taken. IsComputedFlat (column_of taken)) }
    ensures valid { AreRuns codes.now }
    ensures session { ctx.new ≡ ctx.old }
{
    if let Some(indices) = borrowed_values(codes) {
        return rows_at(dictionary, indices, ctx);
    }
    let indices = visible_codes(*ctx.allocator(), codes)?;
    let taken = rows_at(dictionary, &indices, ctx);
    drop(indices);
    taken
}

// The codes of the visible runs. Refused only as `OutOfMemory`.
fn visible_codes<A: Allocator + Copy>(
    alloc: A,
    codes: &RunEndArray<A>,
) -> VortexResult<PrimitiveArray<A>>
    requires numbers { is_numbers (column_dtype codes.now.values) ≡ true }
    ensures only { IsOkUnless result VortexError.OutOfMemory }
    ensures codes { IfOk result (λ indices. map code_number (values_of_visible codes.now) ≡ optional_numbers indices) }
    ensures dtype { IfOk result (λ indices. primitive_dtype indices ≡ column_dtype codes.now.values) }
    ensures valid { AreRuns codes.now }
{
    let values = visible_values(alloc, codes)?;
    match values {
        FlatColumn::Primitive(indices) => Ok(indices),
        _ => unreachable!(),
    }
}

/// Returns the rows that the visible runs of codes show over these rows, one for each run: integers as a run column in
/// minimal form, booleans over the visible runs, both with ends of the same type, and other rows flat. Refused only as
/// `OutOfMemory`.
pub(crate) fn placed<A: Allocator + Copy>(
    codes: &RunEndArray<A>,
    taken: ArrayRef<A>,
    ctx: &mut ExecutionCtx<A>,
) -> VortexResult<ArrayRef<A>>
    requires paired { length (rows taken) ≡ length (values_of_visible codes.now) }
    requires computed { IsComputedFlat (column_of taken) }
    ensures only { IsOkUnless result VortexError.OutOfMemory }
    ensures rows { IfOk result (λ part. rows part ≡ run_rows (visible_ends codes.now) (rows taken)
        (window_start codes.now.count codes.now.offset) codes.now.count) }
    ensures dtype { IfOk result (λ part. dtype_of part ≡ dtype_of taken) }
    ensures form { IfOk result (λ part. TakeFromLeaves (keeps_runs (dtype_of taken)) (dtype_of taken) codes.now
        (column_of part)) }
    ensures session { ctx.new ≡ ctx.old }
{
    let alloc = *ctx.allocator();
    match taken {
        ArrayRef::Primitive(numbers) => with_minimal_runs(alloc, codes, numbers),
        ArrayRef::Bool(truths) => over_visible_runs(alloc, codes, FlatColumn::Bool(truths)),
        other => shown_values(codes, other, ctx),
    }
}
