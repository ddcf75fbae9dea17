//! The order of two rows that are seen one by one.
ghost use Rattle.std.specs.Prelude.{◌≡◌, pos, Some, option_map};
ghost use Rattle.std.specs.Ordering.{int_cmp, nat_cmp};
ghost use Rattle.std.specs.Cmp.Lexicographic.{slice_cmp};
ghost use Rattle.column_core.specs.ScalarView.{sees};
ghost use Rattle.column_ops.specs.Order.{row_cmp};
ghost use Rattle.column_ops.specs.Steps.{row_index};

use column_core::ScalarView;
use std::alloc::Allocator;
use std::cmp::Ordering;

/// Returns how the left row compares with the right one: null is equal to null and below all else, numbers are ordered
/// by value, false is below true, and texts and bytes are ordered by their bytes. Among rows of two kinds, the first in
/// the order of `ScalarView` is below. Lists have no order, and any two of them count as equal.
pub fn compare_views<A: Allocator>(left: &ScalarView<'_, A>, right: &ScalarView<'_, A>) -> Ordering
    ensures { result ≡ row_cmp (sees left.now) (sees right.now) }
{
    match (left, right) {
        (ScalarView::Bool(left), ScalarView::Bool(right)) => left.cmp(right),
        (ScalarView::Unsigned(left), ScalarView::Unsigned(right)) => left.cmp(right),
        (ScalarView::Signed(left), ScalarView::Signed(right)) => left.cmp(right),
        (ScalarView::Unsigned(left), ScalarView::Signed(right)) => {
            wide_order(i128::from(*left), i128::from(*right))
        }
        (ScalarView::Signed(left), ScalarView::Unsigned(right)) => {
            wide_order(i128::from(*left), i128::from(*right))
        }
        (ScalarView::Decimal(left), ScalarView::Decimal(right)) => left.cmp(right),
        (ScalarView::Utf8(left), ScalarView::Utf8(right)) => text_order(left, right),
        (ScalarView::Binary(left), ScalarView::Binary(right)) => bytes_order(left, right),
        _ => kind_order(left, right),
    }
}

// The place of a view among the kinds, null first.
fn kind_of<A: Allocator>(view: &ScalarView<'_, A>) -> u8
    ensures { result ≡ row_index (sees view.now) }
{
    match view {
        ScalarView::Null => 0,
        ScalarView::Bool(_) => 1,
        ScalarView::Unsigned(_) => 2,
        ScalarView::Signed(_) => 2,
        ScalarView::Decimal(_) => 3,
        ScalarView::Utf8(_) => 4,
        ScalarView::Binary(_) => 5,
        ScalarView::List { .. } => 6,
    }
}

// The order of the kinds of two views.
fn kind_order<A: Allocator>(left: &ScalarView<'_, A>, right: &ScalarView<'_, A>) -> Ordering
    ensures { result ≡ nat_cmp (row_index (sees left.now)) (row_index (sees right.now)) }
{
    kind_of(left).cmp(&kind_of(right))
}

// The order of two numbers of any native type.
fn wide_order(left: i128, right: i128) -> Ordering
    ensures { result ≡ int_cmp left right }
{
    left.cmp(&right)
}

// The order of two texts by their bytes.
fn text_order(left: &str, right: &str) -> Ordering
    ensures { result ≡ slice_cmp nat_cmp left.now right.now }
{
    left.cmp(right)
}

// The order of two lists of bytes.
fn bytes_order(left: &[u8], right: &[u8]) -> Ordering
    ensures { result ≡ slice_cmp nat_cmp left.now right.now }
{
    left.cmp(right)
}
