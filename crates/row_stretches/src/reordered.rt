//! The rows of stretches of a column of any form.
ghost use Rattle.std.specs.Prelude.{◌≡◌, ◌^◌, ◌<◌, All, IfOk, IsOkUnless, length, map, unsigned_abs};
ghost use Rattle.column_base.specs.Numbers.{numbers, ptype_of};
ghost use Rattle.column_base.specs.Types.{IsUnsigned};
ghost use Rattle.column_core.specs.FlatColumn.{leaf_of};
ghost use Rattle.column_core.specs.Leaf.{leaf_dtype, single_rows};
ghost use Rattle.column_core.specs.PrimitiveForm.{primitive_dtype};
ghost use Rattle.runend_windows.specs.Ends.{IsEndsType, ends_of};
ghost use Rattle.runend_windows.specs.Window.{IsWindow, run_rows};
ghost use Rattle.runend_encode.specs.Joined.{AllHaveRows};
ghost use Rattle.runend_encode.specs.Starts.{rows_at};
ghost use Rattle.runend_array.specs.Array.{column_of, dtype_of, rows};
ghost use Rattle.runend_array.specs.Column.{IsFlat, column_dtype, column_of_runs, column_rows};
ghost use Rattle.runend_array.specs.Lists.{list_dtype, list_rows};
ghost use Rattle.row_stretches.specs.Pieces.{ArePieces};
ghost use Rattle.row_stretches.specs.Stretches.{IsWithin, stretch_rows};

use crate::few_runs::is_in_few_runs;
use crate::lists::lists_in;
use crate::pieces::{Pieces, pieces_among};
use crate::positions::{positions_of, rows_at_positions};
use crate::stretches::{Stretch, are_long, row_count};
use column_core::{FlatColumn, PrimitiveArray, PrimitiveValues, VortexError, VortexResult};
use runend_array::{
    ArrayRef, Canonical, ExecutionCtx, ListViewArray, RunEnd, RunEndArray, RunEndArrayExt,
    RunEndArraySlotsExt, array_of,
};
use runend_encode::{encode_runs, least_ends};
use std::alloc::Allocator;

/// Returns the rows of these stretches of a column of any form, one stretch after another: of a constant as one; of
/// runs as runs, equal neighbours joined except of lists, or flat where runs would show fewer than two rows each; of
/// any other column flat. Takes one search for each stretch of runs and a step for each run in it; of a flat column a
/// step for each row, and of lists too, unless their offsets, sizes and validity are in few runs: then a search for
/// each run of these in a stretch, where the stretches have two rows each at least. Refused only as `OutOfMemory`.
pub fn rows_in<A: Allocator + Copy>(
    column: &ArrayRef<A>,
    order: &[Stretch],
    ctx: &mut ExecutionCtx<A>,
) -> VortexResult<ArrayRef<A>>
    requires within { All (IsWithin (length (rows column.now))) order.now }
    requires small { length (stretch_rows (rows column.now) order.now) < 2 ^ 64 }
    ensures only { IsOkUnless result VortexError.OutOfMemory }
    ensures rows { IfOk result (λ made. rows made ≡ stretch_rows (rows column.now) order.now) }
    ensures dtype { IfOk result (λ made. dtype_of made ≡ dtype_of column.now) }
    ensures flat { IsFlat (column_of column.now) → IfOk result (λ made. IsFlat (column_of made)) }
    ensures session { ctx.new ≡ ctx.old }
{
    match column {
        ArrayRef::Constant(constant) => {
            let part = constant.repeated(*ctx.allocator(), row_count(order))?;
            Ok(ArrayRef::Constant(part))
        }
        ArrayRef::RunEnd(runs) => match runs.ends() {
            ArrayRef::Primitive(ends) => rows_of_runs_in(runs, ends.values(), order, ctx),
            // No run column has other ends.
            _ => flat_rows_in(*ctx.allocator(), column, order),
        },
        ArrayRef::ListView(lists) if is_in_few_runs(column) && are_long(order) => {
            lists_in(*ctx.allocator(), lists, order)
        }
        _ => flat_rows_in(*ctx.allocator(), column, order),
    }
}

// The rows of these stretches of a run column with these ends.
fn rows_of_runs_in<A: Allocator + Copy>(
    runs: &RunEndArray<A>,
    ends: &PrimitiveValues<A>,
    order: &[Stretch],
    ctx: &mut ExecutionCtx<A>,
) -> VortexResult<ArrayRef<A>>
    requires unsigned { IsUnsigned (ptype_of ends.now) }
    requires ends { map unsigned_abs (numbers ends.now) ≡ runs.now.ends }
    requires window { IsWindow runs.now.ends runs.now.offset runs.now.count }
    requires within { All (IsWithin runs.now.count) order.now }
    requires small { length (stretch_rows (column_rows (column_of_runs runs.now)) order.now) < 2 ^ 64 }
    ensures only { IsOkUnless result VortexError.OutOfMemory }
    ensures rows { IfOk result (λ made. rows made ≡ stretch_rows (column_rows (column_of_runs runs.now)) order.now) }
    ensures dtype { IfOk result (λ made. dtype_of made ≡ column_dtype runs.now.values) }
    ensures session { ctx.new ≡ ctx.old }
{
    let alloc = *ctx.allocator();
    let pieces = pieces_among(alloc, ends, runs.offset(), runs.len(), order)?;
    let made = runs_of_pieces(alloc, runs, &pieces);
    drop(pieces);
    let made = made?;
    let few = made.len() / 2 < made.values().len();
    let made = ArrayRef::of_runs(alloc, made)?;
    if few {
        let flat = made.canonicalize(ctx);
        drop(made);
        return flat;
    }
    Ok(made)
}

// The run column of pieces, over the values of their runs.
fn runs_of_pieces<A: Allocator + Copy>(
    alloc: A,
    runs: &RunEndArray<A>,
    pieces: &Pieces<A>,
) -> VortexResult<RunEndArray<A>>
    requires pieces { ArePieces (length runs.now.ends) pieces.now.ends.items pieces.now.runs.items pieces.now.count }
    ensures only { IsOkUnless result VortexError.OutOfMemory }
    ensures rows { IfOk result (λ made. column_rows (column_of_runs made) ≡ run_rows pieces.now.ends.items
        (rows_at (column_rows runs.now.values) pieces.now.runs.items) 0 pieces.now.count) }
    ensures dtype { IfOk result (λ made. column_dtype made.values ≡ column_dtype runs.now.values) }
{
    let values = rows_at_positions(alloc, runs.values(), pieces.runs.as_slice())?;
    let ends = match least_ends(alloc, &pieces.ends) {
        Ok(ends) => ends,
        Err(error) => {
            drop(values);
            return Err(error);
        }
    };
    match values {
        Canonical::Flat(values) => joined_runs(alloc, ends, values, pieces.count),
        Canonical::List(lists) => list_runs(alloc, ends, lists, pieces.count),
    }
}

// The run column of `count` rows of runs that each have one, equal neighbours joined.
fn joined_runs<A: Allocator + Copy>(
    alloc: A,
    ends: PrimitiveArray<A>,
    values: FlatColumn<A>,
    count: usize,
) -> VortexResult<RunEndArray<A>>
    requires plain { IsEndsType (primitive_dtype ends) }
    requires window { IsWindow (ends_of ends) 0 count }
    requires paired { length (single_rows (leaf_of values)) ≡ length (ends_of ends) }
    requires shown { AllHaveRows (ends_of ends) 0 count }
    ensures only { IsOkUnless result VortexError.OutOfMemory }
    ensures rows { IfOk result (λ made. column_rows (column_of_runs made) ≡
        run_rows (ends_of ends) (single_rows (leaf_of values)) 0 count) }
    ensures dtype { IfOk result (λ made. column_dtype made.values ≡ leaf_dtype (leaf_of values)) }
{
    let encoded = encode_runs(alloc, &ends, &values, 0, count);
    drop(ends);
    drop(values);
    let (ends, values) = encoded?;
    Ok(RunEnd::new_unchecked(ArrayRef::Primitive(ends), array_of(values), 0, count))
}

// The run column of `count` rows of runs of lists.
fn list_runs<A: Allocator + Copy>(
    alloc: A,
    ends: PrimitiveArray<A>,
    lists: ListViewArray<A>,
    count: usize,
) -> VortexResult<RunEndArray<A>>
    requires plain { IsEndsType (primitive_dtype ends) }
    requires window { IsWindow (ends_of ends) 0 count }
    requires paired { length (list_rows lists) ≡ length (ends_of ends) }
    ensures only { IsOkUnless result VortexError.OutOfMemory }
    ensures rows { IfOk result (λ made. column_rows (column_of_runs made) ≡
        run_rows (ends_of ends) (list_rows lists) 0 count) }
    ensures dtype { IfOk result (λ made. column_dtype made.values ≡ list_dtype lists) }
{
    let values = match Canonical::List(lists).into_array(alloc) {
        Ok(values) => values,
        Err(error) => {
            drop(ends);
            return Err(error);
        }
    };
    Ok(RunEnd::new_unchecked(ArrayRef::Primitive(ends), values, 0, count))
}

// The rows of these stretches of a column, one by one.
fn flat_rows_in<A: Allocator + Copy>(
    alloc: A,
    column: &ArrayRef<A>,
    order: &[Stretch],
) -> VortexResult<ArrayRef<A>>
    requires within { All (IsWithin (length (rows column.now))) order.now }
    requires small { length (stretch_rows (rows column.now) order.now) < 2 ^ 64 }
    ensures only { IsOkUnless result VortexError.OutOfMemory }
    ensures rows { IfOk result (λ made. rows made ≡ stretch_rows (rows column.now) order.now) }
    ensures dtype { IfOk result (λ made. dtype_of made ≡ dtype_of column.now) }
    ensures flat { IfOk result (λ made. IsFlat (column_of made)) }
{
    let positions = positions_of(alloc, order)?;
    let taken = rows_at_positions(alloc, column, positions.as_slice());
    drop(positions);
    let taken = taken?;
    taken.into_array(alloc)
}
