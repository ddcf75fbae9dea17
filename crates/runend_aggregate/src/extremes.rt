//! The least and the greatest row of a run column, by its visible runs.
ghost use Rattle.std.specs.Prelude.{◌≡◌, ◌≢◌, ◌≤◌, All, Err, IfNone, IfOk, IfSome, None, length, option_map, slice_range};
ghost use Rattle.column_core.specs.Refusal.{IsRefusedBy};
ghost use Rattle.column_core.specs.ScalarView.{sees, IsViewOf};
ghost use Rattle.column_ops.specs.OrderFacts.{IsFurthest, IsGreatest, IsLeast};
ghost use Rattle.runend_array.specs.Array.{dtype_of, rows};
ghost use Rattle.runend_array.specs.Column.{column_dtype, column_of_runs, column_rows};
ghost use Rattle.column_core.specs.Kinds.{list_fault};

use crate::rows::{is_past_best, row_of};
use column_core::{ScalarView, VortexError, VortexResult, fault_of_lists};
use runend_array::{ArrayRef, ExecutionCtx, RunEndArray, RunEndArrayExt, RunEndArraySlotsExt};
use std::alloc::Allocator;
use std::cmp::Ordering;
use std::ops::Range;

/// Returns the least and the greatest of the rows that are not null, borrowed from the column, or `None` where all rows
/// are null. Takes a step for each visible run. Refused as `Unsupported` exactly for lists. Takes no memory, whatever
/// the form of the run values.
pub fn min_max<'a, A: Allocator + Copy>(
    array: &'a RunEndArray<A>,
    ctx: &mut ExecutionCtx<A>,
) -> VortexResult<Option<(ScalarView<'a, A>, ScalarView<'a, A>)>>
    ensures refused { IsRefusedBy (list_fault (column_dtype array.now.values)) result }
    ensures no_memory { result ≢ Err VortexError.OutOfMemory }
    ensures none { IfOk result (λ found. IfNone found (All (λ row. row ≡
        None) (column_rows (column_of_runs array.now)))) }
    ensures least { IfOk result (λ found. IfSome found (λ ends. IsLeast (column_rows (column_of_runs array.now))
        (sees ends.0))) }
    ensures greatest { IfOk result (λ found. IfSome found (λ ends. IsGreatest (column_rows (column_of_runs array.now))
        (sees ends.1))) }
    ensures least_of_type { IfOk result (λ found. IfSome found (λ ends.
        IsViewOf (column_dtype array.now.values) ends.0)) }
    ensures greatest_of_type { IfOk result (λ found. IfSome found (λ ends.
        IsViewOf (column_dtype array.now.values) ends.1)) }
    ensures session { ctx.new ≡ ctx.old }
{
    let _ = &ctx;
    if let Some(error) = fault_of_lists(array.dtype()) {
        return Err(error);
    }
    Ok(ends_of(array.values(), array.visible_runs()))
}

/// Returns a row that is not null and furthest to that side, borrowed from the column: the least where the side is
/// `Less`, and the greatest where it is `Greater`. `None` where all rows are null. Takes a step for each visible run,
/// and compares only for that side. Refused as `Unsupported` exactly for lists. Takes no memory, whatever the form of
/// the run values.
pub fn extreme<'a, A: Allocator + Copy>(
    array: &'a RunEndArray<A>,
    side: Ordering,
    ctx: &mut ExecutionCtx<A>,
) -> VortexResult<Option<ScalarView<'a, A>>>
    requires side { side ≢ Ordering.Equal }
    ensures refused { IsRefusedBy (list_fault (column_dtype array.now.values)) result }
    ensures no_memory { result ≢ Err VortexError.OutOfMemory }
    ensures none { IfOk result (λ found. IfNone found (All (λ row. row ≡
        None) (column_rows (column_of_runs array.now)))) }
    ensures some { IfOk result (λ found. IfSome found (λ row. IsFurthest side (column_rows (column_of_runs array.now))
        (sees row))) }
    ensures of_type { IfOk result (λ found. IfSome found (λ row. IsViewOf (column_dtype array.now.values) row)) }
    ensures session { ctx.new ≡ ctx.old }
{
    let _ = &ctx;
    if let Some(error) = fault_of_lists(array.dtype()) {
        return Err(error);
    }
    Ok(end_of(array.values(), array.visible_runs(), side))
}

// A row that is not null, and past which no such row is on that side, or `None` where all rows are null.
fn furthest<A: Allocator + Copy>(
    values: &ArrayRef<A>,
    range: Range<usize>,
    side: Ordering,
) -> Option<ScalarView<'_, A>>
    requires ordered { range.start ≤ range.end }
    requires in_bounds { range.end ≤ length (rows values.now) }
    requires side { side ≢ Ordering.Equal }
    ensures none { IfNone result (All (λ row. row ≡ None) (slice_range (rows values.now) range.start range.end)) }
    ensures some { IfSome result (λ row. IsFurthest side (slice_range (rows values.now) range.start range.end)
        (sees row)) }
    ensures of_type { IfSome result (λ row. IsViewOf (dtype_of values.now) row) }
{
    let mut best = None;
    for index in range.start..range.end {
        let row = row_of(values, index);
        if is_past_best(&row, &best, side) {
            best = Some(row);
        }
    }
    best
}

// The least and the greatest of some rows that are not null, each looked up, or `None` where all of them are null.
fn looked_up_ends<A: Allocator + Copy>(
    values: &ArrayRef<A>,
    range: Range<usize>,
) -> Option<(ScalarView<'_, A>, ScalarView<'_, A>)>
    requires ordered { range.start ≤ range.end }
    requires in_bounds { range.end ≤ length (rows values.now) }
    ensures none { IfNone result (All (λ row. row ≡ None) (slice_range (rows values.now) range.start range.end)) }
    ensures least { IfSome result (λ ends. IsLeast (slice_range (rows values.now) range.start range.end)
        (sees ends.0)) }
    ensures greatest { IfSome result (λ ends. IsGreatest (slice_range (rows values.now) range.start range.end)
        (sees ends.1)) }
    ensures least_of_type { IfSome result (λ ends. IsViewOf (dtype_of values.now) ends.0) }
    ensures greatest_of_type { IfSome result (λ ends. IsViewOf (dtype_of values.now) ends.1) }
{
    let least = furthest(values, range.start..range.end, Ordering::Less)?;
    let greatest = furthest(values, range, Ordering::Greater)?;
    Some((least, greatest))
}

// The least and the greatest of some rows that are not null. Flat values are read where they are stored, by their type.
fn ends_of<A: Allocator + Copy>(
    values: &ArrayRef<A>,
    range: Range<usize>,
) -> Option<(ScalarView<'_, A>, ScalarView<'_, A>)>
    requires ordered { range.start ≤ range.end }
    requires in_bounds { range.end ≤ length (rows values.now) }
    ensures none { IfNone result (All (λ row. row ≡ None) (slice_range (rows values.now) range.start range.end)) }
    ensures least { IfSome result (λ ends. IsLeast (slice_range (rows values.now) range.start range.end)
        (sees ends.0)) }
    ensures greatest { IfSome result (λ ends. IsGreatest (slice_range (rows values.now) range.start range.end)
        (sees ends.1)) }
    ensures least_of_type { IfSome result (λ ends. IsViewOf (dtype_of values.now) ends.0) }
    ensures greatest_of_type { IfSome result (λ ends. IsViewOf (dtype_of values.now) ends.1) }
{
    match values.flat_view() {
        Some(flat) => column_ops::min_max(flat, range),
        None => looked_up_ends(values, range),
    }
}

// The row of these that is not null and furthest to a side. Flat values are read where they are stored, by their type.
fn end_of<A: Allocator + Copy>(
    values: &ArrayRef<A>,
    range: Range<usize>,
    side: Ordering,
) -> Option<ScalarView<'_, A>>
    requires ordered { range.start ≤ range.end }
    requires in_bounds { range.end ≤ length (rows values.now) }
    requires side { side ≢ Ordering.Equal }
    ensures none { IfNone result (All (λ row. row ≡ None) (slice_range (rows values.now) range.start range.end)) }
    ensures some { IfSome result (λ row. IsFurthest side (slice_range (rows values.now) range.start range.end)
        (sees row)) }
    ensures of_type { IfSome result (λ row. IsViewOf (dtype_of values.now) row) }
{
    match values.flat_view() {
        Some(flat) => column_ops::extreme(flat, range, side),
        None => furthest(values, range, side),
    }
}
