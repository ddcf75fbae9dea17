//! The rows of a column, and how they compare with one another.
ghost use Rattle.std.specs.Prelude.{◌≡◌, ◌<◌, Some, false, length, option_map, slice_get};
ghost use Rattle.column_core.specs.ScalarView.{sees, IsViewOf};
ghost use Rattle.column_core.specs.Kinds.{is_list};
ghost use Rattle.column_ops.specs.Steps.{HasOrderAt, is_past};
ghost use Rattle.runend_array.specs.Array.{dtype_of, rows};

use column_core::ScalarView;
use column_ops::compare_views;
use runend_array::ArrayRef;
use std::alloc::Allocator;
use std::cmp::Ordering;

/// Returns the row at an index, which has to be there.
pub(crate) fn row_of<A: Allocator + Copy>(values: &ArrayRef<A>, row: usize) -> ScalarView<'_, A>
    requires { row < length (rows values.now) }
    ensures row { slice_get (rows values.now) row ≡ Some (sees result) }
    ensures of_type { IsViewOf (dtype_of values.now) result }
{
    match values.scalar_at(row) {
        Ok(view) => view,
        Err(_) => unreachable!(),
    }
}

/// Returns how one row compares with another one.
pub(crate) fn order_at<A: Allocator + Copy>(
    values: &ArrayRef<A>,
    left: usize,
    right: usize,
) -> Ordering
    requires flat { is_list (dtype_of values.now) ≡ false }
    requires left { left < length (rows values.now) }
    requires right { right < length (rows values.now) }
    ensures order { HasOrderAt (rows values.now) left right result }
    ensures equal { result ≡ Ordering.Equal → slice_get (rows values.now) left ≡ slice_get (rows values.now) right }
{
    compare_views(&row_of(values, left), &row_of(values, right))
}

/// Returns whether the row is not null, and past the best one so far on that side.
pub(crate) fn is_past_best<A: Allocator>(
    row: &ScalarView<'_, A>,
    best: &Option<ScalarView<'_, A>>,
    side: Ordering,
) -> bool
    ensures { result ≡ is_past side (sees row.now) (option_map sees best.now) }
{
    match (row, best) {
        (ScalarView::Null, _) => false,
        (_, None) => true,
        (row, Some(best)) => compare_views(row, best) == side,
    }
}
