//! Whether the rows of a run column are constant or sorted, by its visible runs.
ghost use Rattle.std.specs.Prelude.{◌≡◌, ◌≢◌, ◌≤◌, ◌↔◌, Err, IfOk, IsTrue, false, length, slice_range};
ghost use Rattle.column_core.specs.Refusal.{IsRefusedBy};
ghost use Rattle.column_core.specs.Kinds.{is_list};
ghost use Rattle.column_ops.specs.OrderFacts.{IsConstant, IsSorted};
ghost use Rattle.column_ops.specs.Steps.{is_step_of};
ghost use Rattle.runend_array.specs.Array.{dtype_of, rows};
ghost use Rattle.runend_array.specs.Column.{column_dtype, column_of_runs, column_rows};
ghost use Rattle.column_core.specs.Kinds.{list_fault};

use crate::rows::order_at;
use column_core::{VortexError, VortexResult, fault_of_lists};
use runend_array::{ArrayRef, ExecutionCtx, RunEndArray, RunEndArrayExt, RunEndArraySlotsExt};
use std::alloc::Allocator;
use std::cmp::Ordering;
use std::ops::Range;

/// Returns whether all rows are equal, null being equal to null; for no rows the answer is true. Takes a step for each
/// visible run. Refused as `Unsupported` exactly for lists. Takes no memory, whatever the form of the run values.
pub fn is_constant<A: Allocator + Copy>(
    array: &RunEndArray<A>,
    ctx: &mut ExecutionCtx<A>,
) -> VortexResult<bool>
    ensures refused { IsRefusedBy (list_fault (column_dtype array.now.values)) result }
    ensures no_memory { result ≢ Err VortexError.OutOfMemory }
    ensures answer { IfOk result (λ constant. IsTrue constant ↔ IsConstant (column_rows (column_of_runs array.now))) }
    ensures session { ctx.new ≡ ctx.old }
{
    let _ = &ctx;
    if let Some(error) = fault_of_lists(array.dtype()) {
        return Err(error);
    }
    Ok(are_equal(array.values(), array.visible_runs()))
}

/// Returns whether no row is above the next, or, for `strict`, whether each is below the next; for no rows the answer
/// is true. Takes a step for each visible run. Refused as `Unsupported` exactly for lists. Takes no memory, whatever
/// the form of the run values.
pub fn is_sorted<A: Allocator + Copy>(
    array: &RunEndArray<A>,
    strict: bool,
    ctx: &mut ExecutionCtx<A>,
) -> VortexResult<bool>
    ensures refused { IsRefusedBy (list_fault (column_dtype array.now.values)) result }
    ensures no_memory { result ≢ Err VortexError.OutOfMemory }
    ensures answer { IfOk result (λ sorted. IsTrue sorted ↔ IsSorted strict (column_rows (column_of_runs array.now))) }
    ensures session { ctx.new ≡ ctx.old }
{
    let _ = &ctx;
    if let Some(error) = fault_of_lists(array.dtype()) {
        return Err(error);
    }
    let runs = array.visible_runs();
    // In strict order each run has one row.
    if strict && runs.end - runs.start != array.len() {
        return Ok(false);
    }
    Ok(are_sorted(array.values(), runs, strict))
}

// Are any two of the rows from `range.start` to `range.end - 1`, each looked up, equal?
fn are_looked_up_equal<A: Allocator + Copy>(values: &ArrayRef<A>, range: Range<usize>) -> bool
    requires flat { is_list (dtype_of values.now) ≡ false }
    requires ordered { range.start ≤ range.end }
    requires in_bounds { range.end ≤ length (rows values.now) }
    ensures { IsTrue result ↔ IsConstant (slice_range (rows values.now) range.start range.end) }
{
    for index in range.start..range.end {
        if order_at(values, range.start, index).is_ne() {
            return false;
        }
    }
    true
}

// Are any two of these rows equal? Flat values are read where they are stored, by their type.
fn are_equal<A: Allocator + Copy>(values: &ArrayRef<A>, range: Range<usize>) -> bool
    requires flat { is_list (dtype_of values.now) ≡ false }
    requires ordered { range.start ≤ range.end }
    requires in_bounds { range.end ≤ length (rows values.now) }
    ensures { IsTrue result ↔ IsConstant (slice_range (rows values.now) range.start range.end) }
{
    match values.flat_view() {
        Some(flat) => column_ops::is_constant(flat, range),
        None => are_looked_up_equal(values, range),
    }
}

// May a row come before the next one, with which it compares so?
fn is_step(ordering: Ordering, strict: bool) -> bool
    ensures { result ≡ is_step_of strict ordering }
{
    if strict {
        ordering.is_lt()
    } else {
        ordering.is_le()
    }
}

// May each of the rows from `range.start` to `range.end - 2`, each looked up, come before the next?
fn are_looked_up_sorted<A: Allocator + Copy>(
    values: &ArrayRef<A>,
    range: Range<usize>,
    strict: bool,
) -> bool
    requires flat { is_list (dtype_of values.now) ≡ false }
    requires ordered { range.start ≤ range.end }
    requires in_bounds { range.end ≤ length (rows values.now) }
    ensures { IsTrue result ↔ IsSorted strict (slice_range (rows values.now) range.start range.end) }
{
    for index in range.start..range.end.saturating_sub(1) {
        if !is_step(order_at(values, index, index + 1), strict) {
            return false;
        }
    }
    true
}

// Are these rows in order? Flat values are read where they are stored, by their type.
fn are_sorted<A: Allocator + Copy>(values: &ArrayRef<A>, range: Range<usize>, strict: bool) -> bool
    requires flat { is_list (dtype_of values.now) ≡ false }
    requires ordered { range.start ≤ range.end }
    requires in_bounds { range.end ≤ length (rows values.now) }
    ensures { IsTrue result ↔ IsSorted strict (slice_range (rows values.now) range.start range.end) }
{
    match values.flat_view() {
        Some(flat) => column_ops::is_sorted(flat, range, strict),
        None => are_looked_up_sorted(values, range, strict),
    }
}
