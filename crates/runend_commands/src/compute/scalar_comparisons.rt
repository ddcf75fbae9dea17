//! Rows of an array of any form compared with one value.
ghost use Rattle.std.specs.Prelude.{◌≡◌, ◌<◌, option_map, IfOk};
ghost use Rattle.column_core.specs.Refusal.{IsRefusedBy};
ghost use Rattle.column_core.specs.Value.{Single};
ghost use Rattle.column_ops.specs.CompareFault.{compare_scalar_fault};
ghost use Rattle.column_ops.specs.Comparing.{compare_dtype, compare_with};
ghost use Rattle.runend_array.specs.Array.{column_of, dtype_of, rows};
ghost use Rattle.runend_array.specs.Column.{IsFlat, OfConstant, column_dtype, column_of_runs, column_rows};
ghost use Rattle.runend_array.specs.Encoding.{IsDecodedForm};
ghost use Rattle.runend_array.specs.declared.session.Kernel.TheVariants.{Compare as compare_kernel};
ghost use Rattle.runend_builder.specs.Encoded.{IsConstantForm};
ghost use Rattle.runend_commands.specs.Kept.{IsConstantWithRows};
ghost use Rattle.runend_commands.specs.KernelForms.{HasKernel};

use crate::compute::constants::{constant_with_rows, one_row, repeated_row};
use crate::compute::kernel_runs::runs_for;
use column_core::{Scalar, VortexResult};
use column_ops::{CompareOperator, FlatOrder};
use runend_array::{ArrayRef, ConstantArray, ExecutionCtx, Kernel, RunEndArray, RunEndArrayExt};
use runend_column::flat_rows;
use std::alloc::Allocator;

/// Compares each row with the value: it becomes whether the operator holds, null where either is null. A constant that
/// has a row leaves a constant, and no row of it is written. Else flat booleans are left, or a constant null where the
/// kernel serves a run column and all are null. Refused as `Unsupported` for lists, and as `TypeMismatch` for a value
/// of another kind.
pub fn compare_scalar<A: Allocator + Copy>(
    column: &ArrayRef<A>,
    operator: CompareOperator,
    value: &Scalar<A>,
    ctx: &mut ExecutionCtx<A>,
) -> VortexResult<ArrayRef<A>>
    ensures refused { IsRefusedBy (compare_scalar_fault (dtype_of column.now) value.now.dtype) result }
    ensures rows { IfOk result (λ truths. rows truths ≡
        compare_with operator (rows column.now) (option_map Single value.now.value)) }
    ensures dtype { IfOk result (λ truths. dtype_of truths ≡ compare_dtype (dtype_of column.now) value.now.dtype) }
    ensures kernel { HasKernel ctx.old compare_kernel (column_of column.now) →
        IfOk result (λ truths. IsDecodedForm (rows truths) (column_of truths)) }
    ensures constant { IsConstantWithRows (column_of column.now) →
        IfOk result (λ truths. IsConstantForm (column_of truths)) }
    ensures otherwise { ¬ HasKernel ctx.old compare_kernel (column_of column.now) →
        ¬ IsConstantWithRows (column_of column.now) → IfOk result (λ truths. IsFlat (column_of truths)) }
    ensures session { ctx.new ≡ ctx.old }
{
    if let Some(constant) = constant_with_rows(column) {
        return truth_of_constant(constant, operator, value, ctx);
    }
    match runs_for(column, Kernel::Compare, ctx) {
        Some(runs) => truths_of_runs(runs, operator, value, ctx),
        None => truths_row_by_row(column, operator, value, ctx),
    }
}

// Whether the operator holds of each row of a constant that has a row and the value: it holds of all or of none.
fn truth_of_constant<A: Allocator + Copy>(
    constant: &ConstantArray<A>,
    operator: CompareOperator,
    value: &Scalar<A>,
    ctx: &mut ExecutionCtx<A>,
) -> VortexResult<ArrayRef<A>>
    requires { 0 < constant.now.count }
    ensures refused { IsRefusedBy (compare_scalar_fault constant.now.dtype value.now.dtype) result }
    ensures rows { IfOk result (λ truths. rows truths ≡
        compare_with operator (column_rows (OfConstant constant.now)) (option_map Single value.now.value)) }
    ensures dtype { IfOk result (λ truths. dtype_of truths ≡ compare_dtype constant.now.dtype value.now.dtype) }
    ensures form { IfOk result (λ truths. IsConstantForm (column_of truths)) }
    ensures session { ctx.new ≡ ctx.old }
{
    let alloc = *ctx.allocator();
    let one = one_row(alloc, constant)?;
    let truth = truths_row_by_row(&one, operator, value, ctx);
    drop(one);
    let truth = truth?;
    let made = repeated_row(alloc, &truth, constant.len());
    drop(truth);
    made
}

// Whether the operator holds of each row of a run column and the value, by the kernel, which compares with a constant.
fn truths_of_runs<A: Allocator + Copy>(
    runs: &RunEndArray<A>,
    operator: CompareOperator,
    value: &Scalar<A>,
    ctx: &mut ExecutionCtx<A>,
) -> VortexResult<ArrayRef<A>>
    ensures refused { IsRefusedBy (compare_scalar_fault (column_dtype runs.now.values) value.now.dtype) result }
    ensures rows { IfOk result (λ truths. rows truths ≡
        compare_with operator (column_rows (column_of_runs runs.now)) (option_map Single value.now.value)) }
    ensures dtype { IfOk result (λ truths. dtype_of truths ≡
        compare_dtype (column_dtype runs.now.values) value.now.dtype) }
    ensures form { IfOk result (λ truths. IsDecodedForm (rows truths) (column_of truths)) }
    ensures session { ctx.new ≡ ctx.old }
{
    let value = value.try_clone(*ctx.allocator())?;
    let right = ArrayRef::Constant(ConstantArray::new(value, runs.len()));
    let truths = runend_map::compare(runs, operator, &right, ctx);
    drop(right);
    truths
}

// Whether the operator holds of each row of any column and the value, row by row.
fn truths_row_by_row<A: Allocator + Copy>(
    column: &ArrayRef<A>,
    operator: CompareOperator,
    value: &Scalar<A>,
    ctx: &mut ExecutionCtx<A>,
) -> VortexResult<ArrayRef<A>>
    ensures refused { IsRefusedBy (compare_scalar_fault (dtype_of column.now) value.now.dtype) result }
    ensures rows { IfOk result (λ truths. rows truths ≡
        compare_with operator (rows column.now) (option_map Single value.now.value)) }
    ensures dtype { IfOk result (λ truths. dtype_of truths ≡ compare_dtype (dtype_of column.now) value.now.dtype) }
    ensures form { IfOk result (λ truths. IsFlat (column_of truths)) }
    ensures session { ctx.new ≡ ctx.old }
{
    let flat = flat_rows(column, ctx)?;
    let truths = flat.compare_scalar(*ctx.allocator(), operator, value);
    drop(flat);
    Ok(ArrayRef::Bool(truths?))
}
