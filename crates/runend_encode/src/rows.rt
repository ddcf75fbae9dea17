//! Rows of texts or bytes, compared one with another.
ghost use Rattle.std.specs.Prelude.{◌≡◌, ◌<◌, ◌↔◌, true, IsTrue, Option, length, option_map, slice_get};
ghost use Rattle.column_core.specs.Leaf.{single_rows, OfVarBins};
ghost use Rattle.column_core.specs.ScalarView.{sees};
ghost use Rattle.column_core.specs.Value.{FlatValue, Single};
ghost use Rattle.column_core.specs.VarBinForm.{varbin_rows};

use column_core::{ScalarView, VarBinViewArray, View};
use column_ops::compare_views;
use std::alloc::Allocator;

/// Returns whether the rows of texts or bytes at `left` and at `right` are equal, null being equal to null. Where the
/// views are the same, no byte is read.
#[inline(always)]
pub(crate) fn is_same<A: Allocator + Copy>(
    column: &VarBinViewArray<A>,
    left: usize,
    right: usize,
) -> bool
    requires left { left < length (varbin_rows column.now) }
    requires right { right < length (varbin_rows column.now) }
    ensures { IsTrue result ↔ (slice_get (single_rows (OfVarBins column.now)) left ≡
        slice_get (single_rows (OfVarBins column.now)) right) }
{
    let shared = are_same_views(column.views(), left, right);
    let validity = column.validity();
    if are_all(validity.is_valid(left), validity.is_valid(right), shared) {
        return true;
    }
    is_same_row(&column.get(left), &column.get(right))
}

// Are two rows of flat columns equal, null being equal to null?
fn is_same_row<A: Allocator>(left: &ScalarView<'_, A>, right: &ScalarView<'_, A>) -> bool
    ensures { (a b : Option FlatValue) → option_map Single a ≡ sees left.now → option_map Single b ≡ sees right.now →
        (IsTrue result ↔ (a ≡ b)) }
{
    compare_views(left, right).is_eq()
}

// Are all three true?
#[inline(always)]
fn are_all(first: bool, second: bool, third: bool) -> bool
    ensures first { result ≡ true → first ≡ true }
    ensures second { result ≡ true → second ≡ true }
    ensures third { result ≡ true → third ≡ true }
{
    first & second & third
}

/// Returns whether the views at `left` and at `right` are of the same bytes of the same buffer. Both are read whole, so
/// that no branch is taken between their fields.
#[inline(always)]
pub(crate) fn are_same_views(views: &[View], left: usize, right: usize) -> bool
    requires left { left < length views.now }
    requires right { right < length views.now }
    ensures { IsTrue result ↔ (slice_get views.now left ≡ slice_get views.now right) }
{
    let before = views[left];
    let here = views[right];
    before == here
}
