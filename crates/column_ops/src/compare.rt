//! Comparisons of flat columns with a scalar, and with one another, row by row.
ghost use Rattle.std.specs.Prelude.{◌≡◌, true, false, is_none, length, map, option_map, IfOk, IsOkUnless};
ghost use Rattle.column_base.specs.Types.{nullability_of};
ghost use Rattle.column_core.specs.BoolForm.{bool_dtype, bool_rows};
ghost use Rattle.column_core.specs.FlatView.{leaf_in};
ghost use Rattle.column_core.specs.Kinds.{same_kind};
ghost use Rattle.column_core.specs.Leaf.{leaf_dtype, leaf_rows, single_rows};
ghost use Rattle.column_core.specs.Refusal.{IsRefusedBy};
ghost use Rattle.column_core.specs.ScalarView.{sees, IsViewOf};
ghost use Rattle.column_core.specs.Value.{Single};
ghost use Rattle.column_ops.specs.CompareFault.{compare_column_fault, compare_scalar_fault};
ghost use Rattle.column_ops.specs.Comparing.{compare_dtype, compare_rows, compare_with, either_nullability, IsStoredComparison};

use crate::compared_truths::{
    column_of_truths, push_truth, truth_of, validity_of_answers, validity_of_nulls,
};
use crate::constants::bits_of_answers;
use crate::faults::{column_fault, kind_fault};
use crate::operator::CompareOperator;
use column_core::{
    BitBufferMut, BoolArray, DType, FlatView, Nullability, Scalar, ScalarView, VortexError,
    VortexResult,
};
use std::alloc::Allocator;

/// Returns whether the operator holds of each row and the scalar, null where the row or the scalar is null. The answer
/// has null where either type has, and false is stored under null. Refused as `TypeMismatch` exactly where the two
/// types differ in more than nullability, else only as `OutOfMemory`.
pub fn compare_scalar<A: Allocator + Copy>(
    alloc: A,
    column: FlatView<'_, A>,
    operator: CompareOperator,
    right: &Scalar<A>,
) -> VortexResult<BoolArray<A>>
    ensures refused { IsRefusedBy (compare_scalar_fault (leaf_dtype (leaf_in column.entry)) right.now.dtype) result }
    ensures rows { IfOk result (λ truths. map (option_map Single) (bool_rows truths) ≡
        compare_with operator (single_rows (leaf_in column.entry)) (option_map Single right.now.value)) }
    ensures dtype { IfOk result (λ truths. bool_dtype truths ≡
        compare_dtype (leaf_dtype (leaf_in column.entry)) right.now.dtype) }
    ensures stored { IfOk result IsStoredComparison }
{
    if let Some(error) = kind_fault(column.dtype(), right.dtype()) {
        return Err(error);
    }
    let dtype = right.dtype();
    let right = right.view();
    if is_null(&right) {
        compare_to_null(alloc, column, operator, &right, dtype)
    } else {
        compare_to_value(alloc, column, operator, &right, dtype)
    }
}

/// Returns whether the operator holds of each row and the row of the other column at the same place, null where either
/// row is null. The answer has null where either type has, and false is stored under null. Refused, in this order, as
/// `TypeMismatch` where the two types differ in more than nullability, and as `ColumnLength`, with the number of rows
/// of the column and of the right one, where these differ; else only as `OutOfMemory`.
pub fn compare_column<A: Allocator + Copy>(
    alloc: A,
    column: FlatView<'_, A>,
    operator: CompareOperator,
    right: FlatView<'_, A>,
) -> VortexResult<BoolArray<A>>
    ensures refused { IsRefusedBy (compare_column_fault (leaf_dtype (leaf_in column.entry))
        (leaf_dtype (leaf_in right.entry))
        (length (leaf_rows (leaf_in column.entry))) (length (leaf_rows (leaf_in right.entry)))) result }
    ensures rows { IfOk result (λ truths. map (option_map Single) (bool_rows truths) ≡
        compare_rows operator (single_rows (leaf_in column.entry)) (single_rows (leaf_in right.entry))) }
    ensures dtype { IfOk result (λ truths. bool_dtype truths ≡
        compare_dtype (leaf_dtype (leaf_in column.entry)) (leaf_dtype (leaf_in right.entry))) }
    ensures stored { IfOk result IsStoredComparison }
{
    let fault = column_fault(column.dtype(), right.dtype(), column.len(), right.len());
    if let Some(error) = fault {
        return Err(error);
    }
    compare_beside(alloc, column, operator, right)
}

// Whether a comparison has null: where either type has.
fn joined_nullability(left: DType, right: DType) -> Nullability
    ensures { result ≡ either_nullability (nullability_of left) (nullability_of right) }
{
    match left.nullability() {
        Nullability::NonNullable => right.nullability(),
        Nullability::Nullable => Nullability::Nullable,
    }
}

// Is the row null?
fn is_null<A: Allocator>(view: &ScalarView<'_, A>) -> bool
    ensures { result ≡ is_none (sees view.now) }
{
    matches!(view, ScalarView::Null)
}

// Each row compared with null: all answers are null.
fn compare_to_null<A: Allocator + Copy>(
    alloc: A,
    column: FlatView<'_, A>,
    operator: CompareOperator,
    right: &ScalarView<'_, A>,
    dtype: DType,
) -> VortexResult<BoolArray<A>>
    requires of_type { IsViewOf dtype right.now }
    requires null { is_none (sees right.now) ≡ true }
    ensures only { IsOkUnless result VortexError.OutOfMemory }
    ensures rows { IfOk result (λ truths. map (option_map Single) (bool_rows truths) ≡
        compare_with operator (single_rows (leaf_in column.entry)) (sees right.now)) }
    ensures dtype { IfOk result (λ truths. bool_dtype truths ≡
        compare_dtype (leaf_dtype (leaf_in column.entry)) dtype) }
    ensures stored { IfOk result IsStoredComparison }
{
    let count = column.len();
    let bits = BitBufferMut::full(alloc, false, count)?;
    Ok(BoolArray::new_unchecked(bits.freeze(), validity_of_nulls(count)))
}

// Each row compared with one value that is not null.
fn compare_to_value<A: Allocator + Copy>(
    alloc: A,
    column: FlatView<'_, A>,
    operator: CompareOperator,
    right: &ScalarView<'_, A>,
    dtype: DType,
) -> VortexResult<BoolArray<A>>
    requires of_type { IsViewOf dtype right.now }
    requires same_kind { same_kind (leaf_dtype (leaf_in column)) dtype ≡ true }
    requires value { is_none (sees right.now) ≡ false }
    ensures only { IsOkUnless result VortexError.OutOfMemory }
    ensures rows { IfOk result (λ truths. map (option_map Single) (bool_rows truths) ≡
        compare_with operator (single_rows (leaf_in column.entry)) (sees right.now)) }
    ensures dtype { IfOk result (λ truths. bool_dtype truths ≡
        compare_dtype (leaf_dtype (leaf_in column.entry)) dtype) }
    ensures stored { IfOk result IsStoredComparison }
{
    let bits = bits_of_answers(alloc, column, operator, right)?;
    let rows = column.validity();
    let validity = validity_of_answers(alloc, rows, column.len(), dtype.nullability())?;
    Ok(BoolArray::new_unchecked(bits.freeze(), validity))
}

// The rows of two columns compared, each with the one at the same place.
fn compare_beside<A: Allocator + Copy>(
    alloc: A,
    column: FlatView<'_, A>,
    operator: CompareOperator,
    right: FlatView<'_, A>,
) -> VortexResult<BoolArray<A>>
    requires { length (leaf_rows (leaf_in column)) ≡ length (leaf_rows (leaf_in right)) }
    ensures only { IsOkUnless result VortexError.OutOfMemory }
    ensures rows { IfOk result (λ truths. map (option_map Single) (bool_rows truths) ≡
        compare_rows operator (single_rows (leaf_in column.entry)) (single_rows (leaf_in right.entry))) }
    ensures dtype { IfOk result (λ truths. bool_dtype truths ≡
        compare_dtype (leaf_dtype (leaf_in column.entry)) (leaf_dtype (leaf_in right.entry))) }
    ensures stored { IfOk result IsStoredComparison }
{
    let count = column.len();
    let mut bits = BitBufferMut::with_capacity(alloc, count)?;
    let mut flags = BitBufferMut::with_capacity(alloc, count)?;
    for index in 0..count {
        let truth = truth_of(operator, &column.get(index), &right.get(index));
        push_truth(&mut bits, &mut flags, truth)?;
    }
    let nullability = joined_nullability(column.dtype(), right.dtype());
    Ok(column_of_truths(bits, flags, nullability))
}
