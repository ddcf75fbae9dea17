//! Run columns compared: with a constant by visible runs, with other run columns by the visible runs of both, with
//! other columns row by row.
ghost use Rattle.std.specs.Prelude.{◌≡◌, ◌≢◌, ◌<◌, ◌↔◌, Err, None, length, option_map, IfOk, IsOkUnless, IsTrue};
ghost use Rattle.column_base.specs.declared.dtype.DType.TheVariants as column;
ghost use Rattle.column_base.specs.declared.dtype.Nullability.TheVariants.{Nullable};
ghost use Rattle.column_base.specs.Types.{nullability_of};
ghost use Rattle.column_core.specs.BoolForm.{bool_dtype};
ghost use Rattle.column_core.specs.Computed.{IsComputedLeaf};
ghost use Rattle.column_core.specs.FlatColumn.{leaf_of};
ghost use Rattle.column_core.specs.Leaf.{OfTruths, leaf_dtype, leaf_rows, single_rows};
ghost use Rattle.column_core.specs.Refusal.{IsRefusedBy};
ghost use Rattle.column_core.specs.Value.{IsLists, MayBeNull, Single};
ghost use Rattle.column_ops.specs.CompareFault.{compare_column_fault, compare_scalar_fault};
ghost use Rattle.column_ops.specs.Comparing.{compare_dtype, compare_rows, compare_with};
ghost use Rattle.runend_array.specs.Array.{column_of, dtype_of, rows};
ghost use Rattle.runend_array.specs.Column.{OfConstant, column_dtype, column_of_runs, column_rows};
ghost use Rattle.runend_array.specs.Encoding.{IsComputedFlat, IsDecodedForm};
ghost use Rattle.runend_map.specs.ComparisonForm.{IsComparisonForm, IsNullConstant};

use crate::pairs::compare_runs;
use crate::visible::{shown_rows, shown_truths};
use column_core::{
    BoolArray, DType, FlatColumn, Nullability, Scalar, ScalarView, VortexError, VortexResult,
};
use column_ops::{CompareOperator, FlatOrder, column_fault};
use runend_array::{ArrayRef, ConstantArray, ExecutionCtx, RunEndArray, RunEndArrayExt};
use runend_column::{flat_rows, visible_values};
use std::alloc::Allocator;

/// Returns whether the operator holds of each row and the row of `right` at the same place, null where either row is
/// null. The answer has null where either type has. A constant is compared with each visible run once, and the answer
/// is a constant null where there are rows and all answers are null; else, and with every other right side, the answer
/// is flat. A right side in runs is compared once for each stretch of rows in which both columns stay in one run. With
/// a constant null no value is looked at, and no memory is taken where there is a row.
///
/// Refused as `Unsupported` for lists; then as `TypeMismatch` where the two types differ in more than
/// nullability; then as `ColumnLength`, with the number of rows of this column and of the right one, where
/// these differ; else only as `OutOfMemory`.
pub fn compare<A: Allocator + Copy>(
    array: &RunEndArray<A>,
    operator: CompareOperator,
    right: &ArrayRef<A>,
    ctx: &mut ExecutionCtx<A>,
) -> VortexResult<ArrayRef<A>>
    ensures refused { IsRefusedBy (compare_column_fault (column_dtype array.now.values) (dtype_of right.now)
        (length (column_rows (column_of_runs array.now))) (length (rows right.now))) result }
    ensures null { IsNullConstant (column_of right.now) → result ≢ Err VortexError.OutOfMemory }
    ensures rows { IfOk result (λ truths. rows truths ≡
        compare_rows operator (column_rows (column_of_runs array.now)) (rows right.now)) }
    ensures dtype { IfOk result (λ truths. dtype_of truths ≡
        compare_dtype (column_dtype array.now.values) (dtype_of right.now)) }
    ensures form { IfOk result (λ truths. IsComparisonForm (column_of right.now) (column_of truths)) }
    ensures session { ctx.new ≡ ctx.old }
{
    if let Some(error) = fault_beside(array, right) {
        return Err(error);
    }
    match right {
        ArrayRef::Constant(constant) => compare_to_scalar(array, operator, constant.scalar(), ctx),
        ArrayRef::RunEnd(runs) => compare_runs(array, operator, runs, ctx),
        _ => compare_beside(array, operator, right, ctx),
    }
}

// Why a column is not compared with another one.
fn fault_beside<A: Allocator + Copy>(
    array: &RunEndArray<A>,
    right: &ArrayRef<A>,
) -> Option<VortexError>
    ensures { result ≡ compare_column_fault (column_dtype array.now.values) (dtype_of right.now) array.now.count
        (length (rows right.now)) }
{
    column_fault(array.dtype(), right.dtype(), array.len(), right.len())
}

// Is the scalar null?
fn is_null<A: Allocator>(scalar: &Scalar<A>) -> bool
    ensures null { IsTrue result ↔ (scalar.now.value ≡ None) }
    ensures typed { IsTrue result → MayBeNull (nullability_of scalar.now.dtype) }
{
    match scalar.view() {
        ScalarView::Null => true,
        _ => false,
    }
}

// Null in each of `count` rows of booleans. Takes no memory.
fn null_truths<A: Allocator + Copy>(count: usize) -> ArrayRef<A>
    ensures { column_of result ≡ OfConstant (record { dtype = column.Bool Nullable; value = None; count = count }) }
{
    let null = Scalar::try_new(DType::Bool(Nullability::Nullable), None).unwrap();
    ArrayRef::Constant(ConstantArray::new(null, count))
}

// Each row compared with a scalar of its kind.
fn compare_to_scalar<A: Allocator + Copy>(
    array: &RunEndArray<A>,
    operator: CompareOperator,
    right: &Scalar<A>,
    ctx: &mut ExecutionCtx<A>,
) -> VortexResult<ArrayRef<A>>
    requires kind { compare_scalar_fault (column_dtype array.now.values) right.now.dtype ≡ None }
    ensures only { IsOkUnless result VortexError.OutOfMemory }
    ensures null { right.now.value ≡ None → 0 < array.now.count → result ≢ Err VortexError.OutOfMemory }
    ensures rows { IfOk result (λ truths. rows truths ≡
        compare_with operator (column_rows (column_of_runs array.now)) (option_map Single right.now.value)) }
    ensures dtype { IfOk result (λ truths. dtype_of truths ≡
        compare_dtype (column_dtype array.now.values) right.now.dtype) }
    ensures form { IfOk result (λ truths. IsDecodedForm (rows truths) (column_of truths)) }
    ensures session { ctx.new ≡ ctx.old }
{
    // Null in each row, whatever the values are.
    if is_null(right) && !array.is_empty() {
        return Ok(null_truths(array.len()));
    }
    let alloc = *ctx.allocator();
    let values = visible_values(alloc, array)?;
    let truths = values.compare_scalar(alloc, operator, right);
    drop(values);
    let truths = truths?;
    shown_truths(array, truths, ctx)
}

// Each row of a flat column compared with the one at the same place. Refused only as `OutOfMemory`.
fn compare_flat<A: Allocator + Copy>(
    left: &FlatColumn<A>,
    operator: CompareOperator,
    right: &ArrayRef<A>,
    ctx: &mut ExecutionCtx<A>,
) -> VortexResult<BoolArray<A>>
    requires kind { compare_column_fault (leaf_dtype (leaf_of left.now)) (dtype_of right.now)
        (length (leaf_rows (leaf_of left.now))) (length (rows right.now)) ≡ None }
    ensures only { IsOkUnless result VortexError.OutOfMemory }
    ensures rows { IfOk result (λ truths. single_rows (OfTruths truths) ≡
        compare_rows operator (single_rows (leaf_of left.now)) (rows right.now)) }
    ensures dtype { IfOk result (λ truths. bool_dtype truths ≡
        compare_dtype (leaf_dtype (leaf_of left.now)) (dtype_of right.now)) }
    ensures computed { IfOk result (λ truths. IsComputedLeaf (OfTruths truths)) }
    ensures session { ctx.new ≡ ctx.old }
{
    let right = flat_rows(right, ctx)?;
    let truths = left.compare_column(*ctx.allocator(), operator, &right);
    drop(right);
    truths
}

// Each row compared with the one at the same place, which is not in a run. The answer has a boolean for each row, so
// that to write both columns row by row costs no more than to walk along runs and rows.
fn compare_beside<A: Allocator + Copy>(
    array: &RunEndArray<A>,
    operator: CompareOperator,
    right: &ArrayRef<A>,
    ctx: &mut ExecutionCtx<A>,
) -> VortexResult<ArrayRef<A>>
    requires kind { compare_column_fault (column_dtype array.now.values) (dtype_of right.now) array.now.count
        (length (rows right.now)) ≡ None }
    ensures only { IsOkUnless result VortexError.OutOfMemory }
    ensures rows { IfOk result (λ truths. rows truths ≡
        compare_rows operator (column_rows (column_of_runs array.now)) (rows right.now)) }
    ensures dtype { IfOk result (λ truths. dtype_of truths ≡
        compare_dtype (column_dtype array.now.values) (dtype_of right.now)) }
    ensures form { IfOk result (λ truths. IsComputedFlat (column_of truths)) }
    ensures session { ctx.new ≡ ctx.old }
{
    let alloc = *ctx.allocator();
    let prefill_runs = ctx.session().thresholds().prefill_runs;
    let values = visible_values(alloc, array)?;
    let left = shown_rows(alloc, array, values, prefill_runs)?;
    let truths = compare_flat(&left, operator, right, ctx);
    drop(left);
    let truths = truths?;
    Ok(ArrayRef::Bool(truths))
}
