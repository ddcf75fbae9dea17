//! The rows of a column compared with one value.
ghost use Rattle.std.specs.Prelude.{◌≡◌, None, IfOk, IsOkUnless, option_map};
ghost use Rattle.column_core.specs.BoolForm.{bool_dtype};
ghost use Rattle.column_core.specs.FlatView.{leaf_in};
ghost use Rattle.column_core.specs.Leaf.{OfTruths, leaf_dtype, single_rows};
ghost use Rattle.column_core.specs.Value.{Single};
ghost use Rattle.column_ops.specs.CompareFault.{compare_scalar_fault};
ghost use Rattle.column_ops.specs.Comparing.{compare_dtype, compare_with};
ghost use Rattle.runend_array.specs.Array.{dtype_of, rows};
ghost use Rattle.runend_array.specs.Column.{column_dtype, column_of_runs, column_rows};
ghost use Rattle.tables.specs.TableFaults.{IsRefusedFirstBy};

use column_core::{FlatColumn, Scalar, VortexError, VortexResult};
use column_ops::{CompareOperator, FlatOrder, compare_scalar, kind_fault};
use runend_array::{ArrayRef, ConstantArray, ExecutionCtx, RunEndArray};
use runend_column::{over_visible_runs, visible_values};
use std::alloc::Allocator;

/// Returns whether the operator holds of each row and a value, null where either is: of a run column a run column over
/// its visible runs, of a constant a constant, else flat. Takes a step for each visible run, or for each flat row.
///
/// Refused as `Unsupported` for lists, and as `TypeMismatch` for a value of another kind, however little memory there
/// is; else only as `OutOfMemory`.
pub fn compare_value<A: Allocator + Copy>(
    column: &ArrayRef<A>,
    operator: CompareOperator,
    value: &Scalar<A>,
    ctx: &mut ExecutionCtx<A>,
) -> VortexResult<ArrayRef<A>>
    ensures refused { IsRefusedFirstBy (compare_scalar_fault (dtype_of column.now) value.now.dtype) result }
    ensures rows { IfOk result (λ truths. rows truths ≡
        compare_with operator (rows column.now) (option_map Single value.now.value)) }
    ensures dtype { IfOk result (λ truths. dtype_of truths ≡ compare_dtype (dtype_of column.now) value.now.dtype) }
    ensures session { ctx.new ≡ ctx.old }
{
    if let Some(error) = kind_fault(column.dtype(), value.dtype()) {
        return Err(error);
    }
    let alloc = *ctx.allocator();
    if let ArrayRef::RunEnd(runs) = column {
        return compare_values_of_runs(alloc, runs, operator, value);
    }
    match column.flat_view() {
        Some(flat) => {
            let truths = compare_scalar(alloc, flat, operator, value)?;
            Ok(ArrayRef::Bool(truths))
        }
        None => compare_with_constant(column, operator, value, ctx),
    }
}

// Compares the value of each visible run, and keeps the runs. Refused only as `OutOfMemory`.
fn compare_values_of_runs<A: Allocator + Copy>(
    alloc: A,
    runs: &RunEndArray<A>,
    operator: CompareOperator,
    value: &Scalar<A>,
) -> VortexResult<ArrayRef<A>>
    requires kind { compare_scalar_fault (column_dtype runs.now.values) value.now.dtype ≡ None }
    ensures only { IsOkUnless result VortexError.OutOfMemory }
    ensures rows { IfOk result (λ truths. rows truths ≡
        compare_with operator (column_rows (column_of_runs runs.now)) (option_map Single value.now.value)) }
    ensures dtype { IfOk result (λ truths. dtype_of truths ≡
        compare_dtype (column_dtype runs.now.values) value.now.dtype) }
{
    let values = visible_values(alloc, runs)?;
    let truths = values.compare_scalar(alloc, operator, value);
    drop(values);
    let truths = truths?;
    over_visible_runs(alloc, runs, FlatColumn::Bool(truths))
}

// Compares a column with a constant. Refused only as `OutOfMemory`.
fn compare_with_constant<A: Allocator + Copy>(
    column: &ArrayRef<A>,
    operator: CompareOperator,
    value: &Scalar<A>,
    ctx: &mut ExecutionCtx<A>,
) -> VortexResult<ArrayRef<A>>
    requires kind { compare_scalar_fault (dtype_of column.now) value.now.dtype ≡ None }
    ensures only { IsOkUnless result VortexError.OutOfMemory }
    ensures rows { IfOk result (λ truths. rows truths ≡
        compare_with operator (rows column.now) (option_map Single value.now.value)) }
    ensures dtype { IfOk result (λ truths. dtype_of truths ≡ compare_dtype (dtype_of column.now) value.now.dtype) }
    ensures session { ctx.new ≡ ctx.old }
{
    let value = value.try_clone(*ctx.allocator())?;
    let right = ArrayRef::Constant(ConstantArray::new(value, column.len()));
    let truths = runend_pairs::compare(column, operator, &right, ctx);
    drop(right);
    truths
}
