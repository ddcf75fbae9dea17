//! The least and the greatest of some rows.
ghost use Rattle.std.specs.Prelude.{◌≡◌, ◌≢◌, ◌≤◌, All, IfNone, IfSome, None, MatchOption, length, option_map, slice_range};
ghost use Rattle.column_core.specs.DecimalForm.{decimal_dtype_of};
ghost use Rattle.column_core.specs.FlatView.{leaf_in};
ghost use Rattle.column_core.specs.Leaf.{leaf_dtype, leaf_rows, single_rows, OfDecimals, OfNumbers};
ghost use Rattle.column_core.specs.PrimitiveForm.{primitive_dtype};
ghost use Rattle.column_core.specs.ScalarView.{sees, IsViewOf};
ghost use Rattle.column_ops.specs.OrderFacts.{AreEnds, IsEnd, IsFurthest, IsGreatest, IsLeast};
ghost use Rattle.column_ops.specs.Steps.{is_past};

use crate::compared_views::compare_views;
use crate::flat_rows::FlatRows;
use crate::item_ends::{end_of, min_max_of};
use column_base::match_each_native;
use column_core::{DecimalArray, FlatView, PrimitiveArray, PrimitiveValues, ScalarView};
use std::alloc::Allocator;
use std::cmp::Ordering;
use std::ops::Range;

/// Returns the least and the greatest of the rows from `range.start` to `range.end - 1` that are not null, borrowed, or
/// `None` where all of them are null. Takes no memory.
pub fn min_max<'a, A: Allocator + Copy>(
    column: FlatView<'a, A>,
    range: Range<usize>,
) -> Option<(ScalarView<'a, A>, ScalarView<'a, A>)>
    requires ordered { range.start ≤ range.end }
    requires in_bounds { range.end ≤ length (leaf_rows (leaf_in column)) }
    ensures none { IfNone result (All (λ row. row ≡
        None) (slice_range (single_rows (leaf_in column.entry)) range.start range.end)) }
    ensures least { IfSome result (λ ends. IsLeast
        (slice_range (single_rows (leaf_in column.entry)) range.start range.end) (sees ends.0)) }
    ensures greatest { IfSome result (λ ends. IsGreatest
        (slice_range (single_rows (leaf_in column.entry)) range.start range.end) (sees ends.1)) }
    ensures least_of_type { IfSome result (λ ends. IsViewOf (leaf_dtype (leaf_in column.entry)) ends.0) }
    ensures greatest_of_type { IfSome result (λ ends. IsViewOf (leaf_dtype (leaf_in column.entry)) ends.1) }
{
    ends_in(column, range)
}

/// Returns a row from `range.start` to `range.end - 1` that is not null and furthest to that side, borrowed: the least
/// where the side is `Less`, and the greatest where it is `Greater`. `None` where all of them are null. Takes no
/// memory, and compares only for that side.
pub fn extreme<'a, A: Allocator + Copy>(
    column: FlatView<'a, A>,
    range: Range<usize>,
    side: Ordering,
) -> Option<ScalarView<'a, A>>
    requires ordered { range.start ≤ range.end }
    requires in_bounds { range.end ≤ length (leaf_rows (leaf_in column)) }
    requires side { side ≢ Ordering.Equal }
    ensures none { IfNone result (All (λ row. row ≡
        None) (slice_range (single_rows (leaf_in column.entry)) range.start range.end)) }
    ensures some { IfSome result (λ row. IsFurthest side
        (slice_range (single_rows (leaf_in column.entry)) range.start range.end) (sees row)) }
    ensures of_type { IfSome result (λ row. IsViewOf (leaf_dtype (leaf_in column.entry)) row) }
{
    end_in(column, range, side)
}

// The row of these that is furthest to a side, by kind.
fn end_in<'a, A: Allocator + Copy>(
    column: FlatView<'a, A>,
    range: Range<usize>,
    side: Ordering,
) -> Option<ScalarView<'a, A>>
    requires ordered { range.start ≤ range.end }
    requires in_bounds { range.end ≤ length (leaf_rows (leaf_in column)) }
    requires side { side ≢ Ordering.Equal }
    ensures { let rows = slice_range (single_rows (leaf_in column.entry)) range.start range.end in
        MatchOption result (All (λ row. row ≡ None) rows) (λ row.
        IsEnd side (leaf_dtype (leaf_in column.entry)) rows row) }
{
    match column {
        FlatView::Primitive(array) => end_of_numbers(array, range, side),
        FlatView::Bool(array) => end_of_rows(array, range, side),
        FlatView::Decimal(array) => end_of_decimals(array, range, side),
        FlatView::VarBinView(array) => end_of_rows(array, range, side),
    }
}

// The integer that is furthest to a side, by the native type.
fn end_of_numbers<'a, A: Allocator + Copy>(
    array: &'a PrimitiveArray<A>,
    range: Range<usize>,
    side: Ordering,
) -> Option<ScalarView<'a, A>>
    requires ordered { range.start ≤ range.end }
    requires in_bounds { range.end ≤ length (leaf_rows (OfNumbers array.now)) }
    requires side { side ≢ Ordering.Equal }
    ensures { let rows = slice_range (single_rows (OfNumbers array.now)) range.start range.end in
        MatchOption result (All (λ row. row ≡ None) rows) (λ row. IsEnd side (primitive_dtype array.now) rows row) }
{
    let validity = array.validity();
    match_each_native!(array.values(), items => end_of(items.as_slice(), validity, range, side))
}

// The decimal that is furthest to a side.
fn end_of_decimals<'a, A: Allocator + Copy>(
    array: &'a DecimalArray<A>,
    range: Range<usize>,
    side: Ordering,
) -> Option<ScalarView<'a, A>>
    requires ordered { range.start ≤ range.end }
    requires in_bounds { range.end ≤ length (leaf_rows (OfDecimals array.now)) }
    requires side { side ≢ Ordering.Equal }
    ensures { let rows = slice_range (single_rows (OfDecimals array.now)) range.start range.end in
        MatchOption result (All (λ row. row ≡ None) rows) (λ row. IsEnd side (decimal_dtype_of array.now) rows row) }
{
    end_of(array.values(), array.validity(), range, side)
}

// The row that is furthest to a side, of rows that are looked up one by one.
fn end_of_rows<'a, R: FlatRows<A>, A: Allocator + Copy>(
    column: &'a R,
    range: Range<usize>,
    side: Ordering,
) -> Option<ScalarView<'a, A>>
    requires ordered { range.start ≤ range.end }
    requires in_bounds { range.end ≤ length (leaf_rows (R.leaf column.now)) }
    requires side { side ≢ Ordering.Equal }
    ensures { let rows = slice_range (single_rows (R.leaf column.now)) range.start range.end in
        MatchOption result (All (λ row. row ≡ None) rows) (λ row.
        IsEnd side (leaf_dtype (R.leaf column.now)) rows row) }
{
    let row = furthest(column, range, side)?;
    Some(row)
}

// The least and the greatest of these rows, by kind.
fn ends_in<'a, A: Allocator + Copy>(
    column: FlatView<'a, A>,
    range: Range<usize>,
) -> Option<(ScalarView<'a, A>, ScalarView<'a, A>)>
    requires ordered { range.start ≤ range.end }
    requires in_bounds { range.end ≤ length (leaf_rows (leaf_in column)) }
    ensures { let rows = slice_range (single_rows (leaf_in column.entry)) range.start range.end in
        MatchOption result (All (λ row. row ≡ None) rows) (λ ends.
        AreEnds (leaf_dtype (leaf_in column.entry)) rows ends.0 ends.1) }
{
    match column {
        FlatView::Primitive(array) => ends_of_numbers(array, range),
        FlatView::Bool(array) => ends_of_rows(array, range),
        FlatView::Decimal(array) => ends_of_decimals(array, range),
        FlatView::VarBinView(array) => ends_of_rows(array, range),
    }
}

// The least and the greatest of integers, by their native type.
fn ends_of_numbers<'a, A: Allocator + Copy>(
    array: &'a PrimitiveArray<A>,
    range: Range<usize>,
) -> Option<(ScalarView<'a, A>, ScalarView<'a, A>)>
    requires ordered { range.start ≤ range.end }
    requires in_bounds { range.end ≤ length (leaf_rows (OfNumbers array.now)) }
    ensures { let rows = slice_range (single_rows (OfNumbers array.now)) range.start range.end in
        MatchOption result (All (λ row. row ≡ None) rows) (λ ends.
        AreEnds (primitive_dtype array.now) rows ends.0 ends.1) }
{
    let validity = array.validity();
    match_each_native!(array.values(), items => min_max_of(items.as_slice(), validity, range))
}

// The least and the greatest of decimals.
fn ends_of_decimals<'a, A: Allocator + Copy>(
    array: &'a DecimalArray<A>,
    range: Range<usize>,
) -> Option<(ScalarView<'a, A>, ScalarView<'a, A>)>
    requires ordered { range.start ≤ range.end }
    requires in_bounds { range.end ≤ length (leaf_rows (OfDecimals array.now)) }
    ensures { let rows = slice_range (single_rows (OfDecimals array.now)) range.start range.end in
        MatchOption result (All (λ row. row ≡ None) rows) (λ ends.
        AreEnds (decimal_dtype_of array.now) rows ends.0 ends.1) }
{
    min_max_of(array.values(), array.validity(), range)
}

// The least and the greatest of rows that are looked up one by one.
fn ends_of_rows<'a, R: FlatRows<A>, A: Allocator + Copy>(
    column: &'a R,
    range: Range<usize>,
) -> Option<(ScalarView<'a, A>, ScalarView<'a, A>)>
    requires ordered { range.start ≤ range.end }
    requires in_bounds { range.end ≤ length (leaf_rows (R.leaf column.now)) }
    ensures { let rows = slice_range (single_rows (R.leaf column.now)) range.start range.end in
        MatchOption result (All (λ row. row ≡ None) rows) (λ ends.
        AreEnds (leaf_dtype (R.leaf column.now)) rows ends.0 ends.1) }
{
    let least = furthest(column, range.start..range.end, Ordering::Less)?;
    let greatest = furthest(column, range, Ordering::Greater)?;
    Some((least, greatest))
}

// A row that is not null, and past which no such row is on that side, or `None` where all rows are null.
fn furthest<'a, R: FlatRows<A>, A: Allocator + Copy>(
    column: &'a R,
    range: Range<usize>,
    side: Ordering,
) -> Option<ScalarView<'a, A>>
    requires ordered { range.start ≤ range.end }
    requires in_bounds { range.end ≤ length (leaf_rows (R.leaf column.now)) }
    requires side { side ≢ Ordering.Equal }
    ensures none { IfNone result (All (λ row. row ≡
        None) (slice_range (single_rows (R.leaf column.now)) range.start range.end)) }
    ensures some { IfSome result (λ row. IsFurthest side
        (slice_range (single_rows (R.leaf column.now)) range.start range.end) (sees row)) }
    ensures of_type { IfSome result (λ row. IsViewOf (leaf_dtype (R.leaf column.now)) row) }
{
    let mut best = None;
    for index in range.start..range.end {
        let row = column.row(index);
        if is_past_best(&row, &best, side) {
            best = Some(row);
        }
    }
    best
}

// Is the row no null, and past the best one so far on that side?
fn is_past_best<A: Allocator>(
    row: &ScalarView<'_, A>,
    best: &Option<ScalarView<'_, A>>,
    side: Ordering,
) -> bool
    ensures { result ≡ is_past side (sees row.now) (option_map sees best.now) }
{
    match (row, best) {
        (ScalarView::Null, _) => false,
        (_, None) => true,
        (row, Some(best)) => compare_views(row, best) == side,
    }
}
