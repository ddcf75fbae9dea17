//! Slices of run columns.
ghost use Rattle.std.specs.Prelude.{◌≡◌, ◌+◌, ◌-◌, ◌<◌, ◌≤◌, ◌↔◌, length, slice_range, IfOk, IsErrOf, IsOkUnless};
ghost use Rattle.column_core.specs.Value.{IsLists};
ghost use Rattle.column_core.specs.Ranges.{IsBadRange};
ghost use Rattle.column_core.specs.Refusal.{IsRefusedBy, range_fault};
ghost use Rattle.runend_windows.specs.Window.{IsWindow};
ghost use Rattle.runend_array.specs.Array.{column_of, dtype_of, rows};
ghost use Rattle.runend_array.specs.Canonical.{IsFlatPart};
ghost use Rattle.runend_array.specs.Column.{column_dtype, column_of_runs, column_rows};
ghost use Rattle.runend_column.specs.SliceForm.{IsOfRuns, SliceLeaves, RepeatsRun};

use column_core::is_list_type;
use runend_array::{
    ArrayRef, ConstantArray, ExecutionCtx, RunEnd, RunEndArray, RunEndArrayExt,
    RunEndArraySlotsExt, Scalar, VortexError, VortexResult,
};
use std::alloc::Allocator;
use std::ops::Range;

/// Returns the rows from `range.start` to `range.end - 1`. The answer for no rows is a run column without runs, for
/// rows of one run a constant, and for rows of several runs a run column of these runs, with flat values. A slice of
/// lists stays a run column also where one run is left.
///
/// Refused as `BadRange`, with both bounds and the number of rows, exactly where the range begins
/// after its end or ends after the last row, before any memory is taken; else only as `OutOfMemory`.
pub fn slice<A: Allocator + Copy>(
    array: &RunEndArray<A>,
    range: Range<usize>,
    ctx: &mut ExecutionCtx<A>,
) -> VortexResult<ArrayRef<A>>
    ensures refused { let count = length (column_rows (column_of_runs array.now)) in
        IsErrOf result (VortexError.BadRange range.start range.end count) ↔ IsBadRange range.start range.end count }
    ensures fault { IsRefusedBy (range_fault range.start range.end (length (column_rows (column_of_runs array.now))))
        result }
    ensures rows { IfOk result (λ part. rows part ≡
        slice_range (column_rows (column_of_runs array.now)) range.start range.end) }
    ensures dtype { IfOk result (λ part. dtype_of part ≡ column_dtype array.now.values) }
    ensures form { IfOk result (λ part. SliceLeaves array.now range.start range.end (column_of part)) }
    ensures session { ctx.new ≡ ctx.old }
{
    slice_of_count(array, range, ctx)
}

// The rows of the range; refusals have the column's own number of rows.
fn slice_of_count<A: Allocator + Copy>(
    array: &RunEndArray<A>,
    range: Range<usize>,
    ctx: &mut ExecutionCtx<A>,
) -> VortexResult<ArrayRef<A>>
    ensures refused { IsErrOf result (VortexError.BadRange range.start range.end array.now.count) ↔
        IsBadRange range.start range.end array.now.count }
    ensures only { ¬ IsBadRange range.start range.end array.now.count → IsOkUnless result VortexError.OutOfMemory }
    ensures rows { IfOk result (λ part. rows part ≡
        slice_range (column_rows (column_of_runs array.now)) range.start range.end) }
    ensures dtype { IfOk result (λ part. dtype_of part ≡ column_dtype array.now.values) }
    ensures form { IfOk result (λ part. SliceLeaves array.now range.start range.end (column_of part)) }
    ensures session { ctx.new ≡ ctx.old }
{
    if range.start > range.end || range.end > array.len() {
        return Err(VortexError::BadRange {
            start: range.start,
            stop: range.end,
            length: array.len(),
        });
    }
    if range.start == range.end {
        let empty = runs_between(array, 0..0, 0, 0, ctx)?;
        return Ok(empty);
    }
    rows_between(array, range.start, range.end, ctx)
}

// The rows from `start` to `stop - 1`, at least one.
fn rows_between<A: Allocator + Copy>(
    array: &RunEndArray<A>,
    start: usize,
    stop: usize,
    ctx: &mut ExecutionCtx<A>,
) -> VortexResult<ArrayRef<A>>
    requires some { start < stop }
    requires within { stop ≤ array.now.count }
    ensures only { IsOkUnless result VortexError.OutOfMemory }
    ensures rows { IfOk result (λ part. rows part ≡ slice_range (column_rows (column_of_runs array.now)) start stop) }
    ensures dtype { IfOk result (λ part. dtype_of part ≡ column_dtype array.now.values) }
    ensures form { IfOk result (λ part. SliceLeaves array.now start stop (column_of part)) }
    ensures session { ctx.new ≡ ctx.old }
{
    let single = !is_list_type(array.values().dtype());
    let runs = array.runs_of_rows(start, stop);
    let count = stop - start;
    if single && runs.end - runs.start == 1 {
        let constant = repeated(array, runs.start, count, ctx)?;
        return Ok(ArrayRef::Constant(constant));
    }
    let part = runs_between(array, runs, array.offset() + start, count, ctx)?;
    Ok(part)
}

// The value of a run, in each of `count` rows.
fn repeated<A: Allocator + Copy>(
    array: &RunEndArray<A>,
    run: usize,
    count: usize,
    ctx: &mut ExecutionCtx<A>,
) -> VortexResult<ConstantArray<A>>
    requires within { run < length array.now.ends }
    requires single { ¬ IsLists (column_dtype array.now.values) }
    ensures only { IsOkUnless result VortexError.OutOfMemory }
    ensures form { IfOk result (λ constant. RepeatsRun array.now run count constant) }
    ensures session { ctx.new ≡ ctx.old }
{
    let values = array.values();
    match values.scalar_at(run) {
        Ok(view) => {
            let scalar = Scalar::of_view(*ctx.allocator(), values.dtype(), view)?;
            Ok(ConstantArray::new(scalar, count))
        }
        Err(_) => unreachable!(),
    }
}

// Those runs; `count` of their rows are shown, from `offset` on.
fn runs_between<A: Allocator + Copy>(
    array: &RunEndArray<A>,
    runs: Range<usize>,
    offset: usize,
    count: usize,
    ctx: &mut ExecutionCtx<A>,
) -> VortexResult<ArrayRef<A>>
    requires ordered { runs.start ≤ runs.end }
    requires in_bounds { runs.end ≤ length array.now.ends }
    requires window { IsWindow (slice_range array.now.ends runs.start runs.end) offset count }
    ensures only { IsOkUnless result VortexError.OutOfMemory }
    ensures form { IfOk result (λ part. IsOfRuns array.now runs.start runs.end offset count (column_of part)) }
    ensures session { ctx.new ≡ ctx.old }
{
    let alloc = *ctx.allocator();
    let ends = array.ends_between(alloc, runs.start, runs.end)?;
    let values = match values_between(alloc, array.values(), runs.start, runs.end) {
        Ok(values) => values,
        Err(error) => {
            drop(ends);
            return Err(error);
        }
    };
    let ends = ArrayRef::Primitive(ends);
    let part = RunEnd::new_unchecked(ends, values, offset, count);
    ArrayRef::of_runs(alloc, part)
}

// The values from `start` to `stop - 1`, flat. Integers, which are cut most often, are moved once.
fn values_between<A: Allocator + Copy>(
    alloc: A,
    values: &ArrayRef<A>,
    start: usize,
    stop: usize,
) -> VortexResult<ArrayRef<A>>
    requires ordered { start ≤ stop }
    requires within { stop ≤ length (rows values.now) }
    ensures only { IsOkUnless result VortexError.OutOfMemory }
    ensures part { IfOk result (λ part. IsFlatPart (column_of values.now) start stop (column_of part)) }
{
    if let ArrayRef::Primitive(integers) = values {
        prove!(stop <= integers.len());
        let part = integers.slice(alloc, start..stop)?;
        return Ok(ArrayRef::Primitive(part));
    }
    let part = values.rows_between(alloc, start, stop)?;
    part.into_array(alloc)
}
