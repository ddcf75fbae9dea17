//! The calls on flat columns that rest on the order of values.
ghost use Rattle.std.specs.Prelude.{◌≡◌, ◌≤◌, ◌↔◌, All, IfNone, IfOk, IfSome, IsTrue, None, length, map, option_map, slice_range};
ghost use Rattle.column_core.specs.BoolForm.{bool_dtype, bool_rows};
ghost use Rattle.column_core.specs.FlatColumn.{leaf_of};
ghost use Rattle.column_core.specs.Leaf.{Leaf, leaf_dtype, leaf_rows, single_rows};
ghost use Rattle.column_core.specs.Refusal.{IsRefusedBy};
ghost use Rattle.column_core.specs.ScalarView.{sees, IsViewOf};
ghost use Rattle.column_core.specs.Value.{Single};
ghost use Rattle.column_ops.specs.CompareFault.{compare_column_fault, compare_scalar_fault};
ghost use Rattle.column_ops.specs.Comparing.{compare_dtype, compare_rows, compare_with, IsStoredComparison};
ghost use Rattle.column_ops.specs.OrderFacts.{IsConstant, IsGreatest, IsLeast, IsSorted};

use crate::operator::CompareOperator;
use crate::{compare, extremes, sorted};
use column_core::{BoolArray, FlatColumn, Scalar, ScalarView, VortexResult};
use std::alloc::Allocator;
use std::ops::Range;

/// Has the operations that rest on the order of values, for columns whose rows are stored one by one. Ranges are of
/// rows, counted from 0.
pub trait FlatOrder<A: Allocator + Copy> {
    // The form of a column.
    ghost form: { Self → Leaf };

    /// Returns whether the operator holds of each row and the scalar, null where the row or the scalar is null. The
    /// answer has null where either type has, and false is stored under null. Refused as `TypeMismatch` exactly where
    /// the two types differ in more than nullability, else only as `OutOfMemory`.
    fn compare_scalar(
        &self,
        alloc: A,
        operator: CompareOperator,
        right: &Scalar<A>,
    ) -> VortexResult<BoolArray<A>>
        ensures refused { IsRefusedBy (compare_scalar_fault (leaf_dtype (form self.now)) right.now.dtype) result }
        ensures rows { IfOk result (λ truths. map (option_map Single) (bool_rows truths) ≡
            compare_with operator (single_rows (form self.now)) (option_map Single right.now.value)) }
        ensures dtype { IfOk result (λ truths. bool_dtype truths ≡
            compare_dtype (leaf_dtype (form self.now)) right.now.dtype) }
        ensures stored { IfOk result IsStoredComparison };

    /// Returns whether the operator holds of each row and the row of the other column at the same place, null where
    /// either row is null. The answer has null where either type has, and false is stored under null. Refused, in this
    /// order, as `TypeMismatch` where the two types differ in more than nullability, and as `ColumnLength`, with the
    /// number of rows of this column and of the right one, where these differ; else only as `OutOfMemory`.
    fn compare_column(
        &self,
        alloc: A,
        operator: CompareOperator,
        right: &FlatColumn<A>,
    ) -> VortexResult<BoolArray<A>>
        ensures refused { IsRefusedBy (compare_column_fault (leaf_dtype (form self.now))
            (leaf_dtype (leaf_of right.now))
            (length (leaf_rows (form self.now))) (length (leaf_rows (leaf_of right.now)))) result }
        ensures rows { IfOk result (λ truths. map (option_map Single) (bool_rows truths) ≡
            compare_rows operator (single_rows (form self.now)) (single_rows (leaf_of right.now))) }
        ensures dtype { IfOk result (λ truths. bool_dtype truths ≡
            compare_dtype (leaf_dtype (form self.now)) (leaf_dtype (leaf_of right.now))) }
        ensures stored { IfOk result IsStoredComparison };

    /// Returns the least and the greatest of the rows from `range.start` to `range.end - 1` that are not null,
    /// borrowed, or `None` where all of them are null. Takes no memory.
    fn min_max(&self, range: Range<usize>) -> Option<(ScalarView<'_, A>, ScalarView<'_, A>)>
        requires ordered { range.start ≤ range.end }
        requires in_bounds { range.end ≤ length (leaf_rows (form self.now)) }
        ensures none { IfNone result (All (λ row. row ≡
            None) (slice_range (single_rows (form self.now)) range.start range.end)) }
        ensures least { IfSome result (λ ends. IsLeast (slice_range (single_rows (form self.now)) range.start range.end)
            (sees ends.0)) }
        ensures greatest { IfSome result (λ ends. IsGreatest
            (slice_range (single_rows (form self.now)) range.start range.end) (sees ends.1)) }
        ensures least_of_type { IfSome result (λ ends. IsViewOf (leaf_dtype (form self.now)) ends.0) }
        ensures greatest_of_type { IfSome result (λ ends. IsViewOf (leaf_dtype (form self.now)) ends.1) };

    /// Returns whether all rows from `range.start` to `range.end - 1` are equal, null being equal to null; for no rows
    /// the answer is true. Takes no memory.
    fn is_constant(&self, range: Range<usize>) -> bool
        requires ordered { range.start ≤ range.end }
        requires in_bounds { range.end ≤ length (leaf_rows (form self.now)) }
        ensures { IsTrue result ↔ IsConstant (slice_range (single_rows (form self.now)) range.start range.end) };

    /// Returns whether no row from `range.start` to `range.end - 1` is above the next, or, for `strict`, whether each
    /// is below the next; for no rows the answer is true. Takes no memory.
    fn is_sorted(&self, range: Range<usize>, strict: bool) -> bool
        requires ordered { range.start ≤ range.end }
        requires in_bounds { range.end ≤ length (leaf_rows (form self.now)) }
        ensures { IsTrue result ↔ IsSorted strict (slice_range (single_rows (form self.now)) range.start range.end) };
}

impl<A: Allocator + Copy> FlatOrder<A> for FlatColumn<A> {
    ghost form = { leaf_of };

    fn compare_scalar(
        &self,
        alloc: A,
        operator: CompareOperator,
        right: &Scalar<A>,
    ) -> VortexResult<BoolArray<A>> {
        compare::compare_scalar(alloc, self.view(), operator, right)
    }

    fn compare_column(
        &self,
        alloc: A,
        operator: CompareOperator,
        right: &FlatColumn<A>,
    ) -> VortexResult<BoolArray<A>> {
        compare::compare_column(alloc, self.view(), operator, right.view())
    }

    fn min_max(&self, range: Range<usize>) -> Option<(ScalarView<'_, A>, ScalarView<'_, A>)> {
        extremes::min_max(self.view(), range)
    }

    fn is_constant(&self, range: Range<usize>) -> bool {
        sorted::is_constant(self.view(), range)
    }

    fn is_sorted(&self, range: Range<usize>, strict: bool) -> bool {
        sorted::is_sorted(self.view(), range, strict)
    }
}
