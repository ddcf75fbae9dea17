//! Whether rows are constant, and whether they are in order.
ghost use Rattle.std.specs.Prelude.{◌≡◌, ◌<◌, ◌≤◌, ◌↔◌, IsTrue, length, slice_range};
ghost use Rattle.column_core.specs.FlatView.{leaf_in};
ghost use Rattle.column_core.specs.Leaf.{leaf_rows, single_rows, OfNumbers};
ghost use Rattle.column_ops.specs.OrderFacts.{IsConstant, IsSorted};
ghost use Rattle.column_ops.specs.Steps.{HasOrderAt, is_step_of};

use crate::compared_views::compare_views;
use crate::flat_rows::FlatRows;
use crate::item_order::{is_constant_of, is_sorted_of};
use column_base::match_each_native;
use column_core::{FlatView, PrimitiveArray, PrimitiveValues};
use std::alloc::Allocator;
use std::cmp::Ordering;
use std::ops::Range;

/// Returns whether all rows from `range.start` to `range.end - 1` are equal, null being equal to null; for no rows the
/// answer is true. Takes no memory.
pub fn is_constant<A: Allocator + Copy>(column: FlatView<'_, A>, range: Range<usize>) -> bool
    requires ordered { range.start ≤ range.end }
    requires in_bounds { range.end ≤ length (leaf_rows (leaf_in column)) }
    ensures { IsTrue result ↔ IsConstant (slice_range (single_rows (leaf_in column.entry)) range.start range.end) }
{
    match column {
        FlatView::Primitive(array) => are_constant_numbers(array, range),
        FlatView::Bool(array) => are_constant_rows(array, range),
        FlatView::Decimal(array) => is_constant_of(array.values(), array.validity(), range),
        FlatView::VarBinView(array) => are_constant_rows(array, range),
    }
}

// Are any two of these rows of integers equal, by their native type?
fn are_constant_numbers<A: Allocator + Copy>(array: &PrimitiveArray<A>, range: Range<usize>) -> bool
    requires ordered { range.start ≤ range.end }
    requires in_bounds { range.end ≤ length (leaf_rows (OfNumbers array.now)) }
    ensures { IsTrue result ↔ IsConstant (slice_range (single_rows (OfNumbers array.now)) range.start range.end) }
{
    let validity = array.validity();
    match_each_native!(array.values(), items => is_constant_of(items.as_slice(), validity, range))
}

// Are any two of these rows equal, which are looked up one by one?
fn are_constant_rows<R: FlatRows<A>, A: Allocator + Copy>(column: &R, range: Range<usize>) -> bool
    requires ordered { range.start ≤ range.end }
    requires in_bounds { range.end ≤ length (leaf_rows (R.leaf column.now)) }
    ensures { IsTrue result ↔ IsConstant (slice_range (single_rows (R.leaf column.now)) range.start range.end) }
{
    for index in range.start..range.end {
        if order_at(column, range.start, index).is_ne() {
            return false;
        }
    }
    true
}

// How one row compares with another one.
fn order_at<R: FlatRows<A>, A: Allocator + Copy>(column: &R, left: usize, right: usize) -> Ordering
    requires left { left < length (leaf_rows (R.leaf column.now)) }
    requires right { right < length (leaf_rows (R.leaf column.now)) }
    ensures { HasOrderAt (single_rows (R.leaf column.now)) left right result }
{
    compare_views(&column.row(left), &column.row(right))
}

/// Returns whether no row from `range.start` to `range.end - 1` is above the next, or, for `strict`, whether each is
/// below the next; for no rows the answer is true. Takes no memory.
pub fn is_sorted<A: Allocator + Copy>(
    column: FlatView<'_, A>,
    range: Range<usize>,
    strict: bool,
) -> bool
    requires ordered { range.start ≤ range.end }
    requires in_bounds { range.end ≤ length (leaf_rows (leaf_in column)) }
    ensures { IsTrue result ↔ IsSorted strict (slice_range (single_rows (leaf_in column.entry)) range.start range.end) }
{
    match column {
        FlatView::Primitive(array) => are_sorted_numbers(array, range, strict),
        FlatView::Bool(array) => are_sorted_rows(array, range, strict),
        FlatView::Decimal(array) => is_sorted_of(array.values(), array.validity(), range, strict),
        FlatView::VarBinView(array) => are_sorted_rows(array, range, strict),
    }
}

// Are these rows of integers in order, by their native type?
fn are_sorted_numbers<A: Allocator + Copy>(
    array: &PrimitiveArray<A>,
    range: Range<usize>,
    strict: bool,
) -> bool
    requires ordered { range.start ≤ range.end }
    requires in_bounds { range.end ≤ length (leaf_rows (OfNumbers array.now)) }
    ensures { IsTrue result ↔ IsSorted strict (slice_range (single_rows (OfNumbers array.now)) range.start range.end) }
{
    let validity = array.validity();
    match_each_native!(array.values(), items => is_sorted_of(items.as_slice(), validity, range, strict))
}

// Are these rows in order, which are looked up one by one?
fn are_sorted_rows<R: FlatRows<A>, A: Allocator + Copy>(
    column: &R,
    range: Range<usize>,
    strict: bool,
) -> bool
    requires ordered { range.start ≤ range.end }
    requires in_bounds { range.end ≤ length (leaf_rows (R.leaf column.now)) }
    ensures { IsTrue result ↔ IsSorted strict (slice_range (single_rows (R.leaf column.now)) range.start range.end) }
{
    for index in range.start..range.end.saturating_sub(1) {
        if !is_step(order_at(column, index, index + 1), strict) {
            return false;
        }
    }
    true
}

// May a row come before the next one, with which it compares so?
fn is_step(ordering: Ordering, strict: bool) -> bool
    ensures { result ≡ is_step_of strict ordering }
{
    if strict {
        ordering.is_lt()
    } else {
        ordering.is_le()
    }
}
