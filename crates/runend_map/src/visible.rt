//! The rows that the visible runs of a run column show over other values.
ghost use Rattle.std.specs.Prelude.{◌≡◌, length, IfOk, IsOkUnless};
ghost use Rattle.column_core.specs.Computed.{IsComputedLeaf};
ghost use Rattle.column_core.specs.FlatColumn.{leaf_of};
ghost use Rattle.column_core.specs.BoolForm.{bool_dtype, bool_rows};
ghost use Rattle.column_core.specs.Leaf.{OfTruths, leaf_dtype, leaf_rows, single_rows};
ghost use Rattle.runend_windows.specs.Window.{run_rows};
ghost use Rattle.runend_array.specs.Array.{column_of, dtype_of, rows};
ghost use Rattle.runend_array.specs.Column.{column_dtype, column_of_runs, column_rows};
ghost use Rattle.runend_array.specs.Encoding.{IsComputedFlat, IsDecodedForm};
ghost use Rattle.runend_column.specs.VisibleForm.{visible_ends, visible_values as values_of_visible, window_start};

use column_core::{BoolArray, FlatColumn, VortexError, VortexResult};
use runend_array::{ArrayRef, ExecutionCtx, RunEnd, RunEndArray, RunEndArrayExt};
use runend_column::decompress_bool::runend_decode_bools;
use runend_column::{ends_of_visible, visible_offset};
use runend_windows::decode_flat;
use std::alloc::Allocator;

/// Returns the rows that the visible runs show over these values, one for each, as a flat column. From `prefill_runs`
/// runs on, all rows of booleans are first filled with what most runs show; the answer is the same. Refused only as
/// `OutOfMemory`.
pub(crate) fn shown_rows<A: Allocator + Copy>(
    alloc: A,
    array: &RunEndArray<A>,
    values: FlatColumn<A>,
    prefill_runs: usize,
) -> VortexResult<FlatColumn<A>>
    requires paired { length (leaf_rows (leaf_of values)) ≡ length (values_of_visible array.now) }
    ensures only { IsOkUnless result VortexError.OutOfMemory }
    ensures rows { IfOk result (λ flat. single_rows (leaf_of flat) ≡
        run_rows (visible_ends array.now) (single_rows (leaf_of values))
        (window_start array.now.count array.now.offset) array.now.count) }
    ensures dtype { IfOk result (λ flat. leaf_dtype (leaf_of flat) ≡ leaf_dtype (leaf_of values)) }
    ensures computed { IfOk result (λ flat. IsComputedLeaf (leaf_of flat)) }
{
    let ends = match ends_of_visible(alloc, array) {
        Ok(ends) => ends,
        Err(error) => {
            drop(values);
            return Err(error);
        }
    };
    let offset = visible_offset(array);
    let flat = decode_flat(
        alloc,
        &ends,
        values.view(),
        offset,
        array.len(),
        prefill_runs,
    );
    drop(ends);
    drop(values);
    flat
}

/// Returns the rows that the visible runs show over these values, one for each, in a flat form; lists become lists
/// over the same elements, with offsets and sizes in runs. Refused only as `OutOfMemory`.
pub(crate) fn shown_values<A: Allocator + Copy>(
    array: &RunEndArray<A>,
    values: ArrayRef<A>,
    ctx: &mut ExecutionCtx<A>,
) -> VortexResult<ArrayRef<A>>
    requires paired { length (rows values) ≡ length (values_of_visible array.now) }
    ensures only { IsOkUnless result VortexError.OutOfMemory }
    ensures rows { IfOk result (λ shown. rows shown ≡ run_rows (visible_ends array.now) (rows values)
        (window_start array.now.count array.now.offset) array.now.count) }
    ensures dtype { IfOk result (λ shown. dtype_of shown ≡ dtype_of values) }
    ensures flat { IfOk result (λ shown. IsComputedFlat (column_of shown)) }
    ensures session { ctx.new ≡ ctx.old }
{
    let alloc = *ctx.allocator();
    let runs = over_values(alloc, array, values)?;
    let part = ArrayRef::of_runs(alloc, runs)?;
    let shown = part.canonicalize(ctx);
    drop(part);
    shown
}

// The visible runs over these values, one for each. Refused only as `OutOfMemory`.
fn over_values<A: Allocator + Copy>(
    alloc: A,
    array: &RunEndArray<A>,
    values: ArrayRef<A>,
) -> VortexResult<RunEndArray<A>>
    requires paired { length (rows values) ≡ length (values_of_visible array.now) }
    ensures only { IsOkUnless result VortexError.OutOfMemory }
    ensures rows { IfOk result (λ part. column_rows (column_of_runs part) ≡
        run_rows (visible_ends array.now) (rows values) (window_start array.now.count array.now.offset)
        array.now.count) }
    ensures dtype { IfOk result (λ part. column_dtype part.values ≡ dtype_of values) }
{
    let ends = match ends_of_visible(alloc, array) {
        Ok(ends) => ArrayRef::Primitive(ends),
        Err(error) => {
            drop(values);
            return Err(error);
        }
    };
    let offset = visible_offset(array);
    Ok(RunEnd::new_unchecked(ends, values, offset, array.len()))
}

/// Returns the booleans that the visible runs show, one for each run: a constant null where there is a run and all are
/// null, else a flat column. Refused only as `OutOfMemory`.
pub(crate) fn shown_truths<A: Allocator + Copy>(
    array: &RunEndArray<A>,
    truths: BoolArray<A>,
    ctx: &mut ExecutionCtx<A>,
) -> VortexResult<ArrayRef<A>>
    requires paired { length (bool_rows truths) ≡ length (values_of_visible array.now) }
    ensures only { IsOkUnless result VortexError.OutOfMemory }
    ensures rows { IfOk result (λ shown. rows shown ≡ run_rows (visible_ends array.now) (single_rows (OfTruths truths))
        (window_start array.now.count array.now.offset) array.now.count) }
    ensures dtype { IfOk result (λ shown. dtype_of shown ≡ bool_dtype truths) }
    ensures form { IfOk result (λ shown. IsDecodedForm (single_rows (OfTruths truths)) (column_of shown)) }
    ensures session { ctx.new ≡ ctx.old }
{
    let alloc = *ctx.allocator();
    let ends = match ends_of_visible(alloc, array) {
        Ok(ends) => ends,
        Err(error) => {
            drop(truths);
            return Err(error);
        }
    };
    prove_eq!(truths.len(), ends.len());
    runend_decode_bools(ends, truths, visible_offset(array), array.len(), ctx)
}
