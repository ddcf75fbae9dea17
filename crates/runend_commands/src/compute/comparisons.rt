//! Rows of an array of any form compared with those of another.
ghost use Rattle.std.specs.Prelude.{◌≡◌, None, length, IfOk, IsOkUnless};
ghost use Rattle.column_core.specs.FlatColumn.{leaf_of};
ghost use Rattle.column_core.specs.Leaf.{leaf_dtype, single_rows};
ghost use Rattle.column_core.specs.Refusal.{IsRefusedBy};
ghost use Rattle.column_ops.specs.CompareFault.{compare_column_fault};
ghost use Rattle.column_ops.specs.Comparing.{compare_dtype, compare_rows};
ghost use Rattle.runend_array.specs.Array.{column_of, dtype_of, rows};
ghost use Rattle.runend_array.specs.Column.{IsFlat, OfConstant, column_rows};
ghost use Rattle.runend_array.specs.declared.session.Kernel.TheVariants.{Compare as compare_kernel};
ghost use Rattle.runend_map.specs.ComparisonForm.{IsComparisonForm};
ghost use Rattle.runend_builder.specs.Encoded.{IsConstantForm};
ghost use Rattle.runend_commands.specs.Kept.{AreConstants, IsConstantWithRows};
ghost use Rattle.runend_commands.specs.KernelForms.{HasKernel};

use crate::compute::compare_scalar;
use crate::compute::kernel_runs::runs_for;
use column_core::{FlatColumn, VortexError, VortexResult};
use column_ops::{CompareOperator, FlatOrder, column_fault};
use runend_array::{ArrayRef, ConstantArray, ExecutionCtx, Kernel};
use runend_column::flat_rows;
use std::alloc::Allocator;

/// Compares each row with the row of `right` at its place: it becomes whether the operator holds, null where either is
/// null. Two constants that have a row leave a constant, and no row of it is written. Else flat booleans are left, or a
/// constant null where the kernel serves a run column, `right` is a constant, and all are null. Refused as
/// `Unsupported` for lists, as `TypeMismatch` for two kinds, and as `ColumnLength` for two numbers of rows.
pub fn compare<A: Allocator + Copy>(
    column: &ArrayRef<A>,
    operator: CompareOperator,
    right: &ArrayRef<A>,
    ctx: &mut ExecutionCtx<A>,
) -> VortexResult<ArrayRef<A>>
    ensures refused { IsRefusedBy (compare_column_fault (dtype_of column.now) (dtype_of right.now)
        (length (rows column.now)) (length (rows right.now))) result }
    ensures rows { IfOk result (λ truths. rows truths ≡ compare_rows operator (rows column.now) (rows right.now)) }
    ensures dtype { IfOk result (λ truths. dtype_of truths ≡ compare_dtype (dtype_of column.now) (dtype_of right.now)) }
    ensures kernel { HasKernel ctx.old compare_kernel (column_of column.now) →
        IfOk result (λ truths. IsComparisonForm (column_of right.now) (column_of truths)) }
    ensures constants { AreConstants (column_of column.now) (column_of right.now) →
        IfOk result (λ truths. IsConstantForm (column_of truths)) }
    ensures otherwise { ¬ HasKernel ctx.old compare_kernel (column_of column.now) →
        ¬ AreConstants (column_of column.now) (column_of right.now) →
        IfOk result (λ truths. IsFlat (column_of truths)) }
    ensures session { ctx.new ≡ ctx.old }
{
    match runs_for(column, Kernel::Compare, ctx) {
        Some(runs) => runend_map::compare(runs, operator, right, ctx),
        None => truths_row_by_row(column, operator, right, ctx),
    }
}

// Whether the operator holds of each row of any column and the row at its place on the right, row by row. A fault is
// reported before a column is written row by row.
fn truths_row_by_row<A: Allocator + Copy>(
    column: &ArrayRef<A>,
    operator: CompareOperator,
    right: &ArrayRef<A>,
    ctx: &mut ExecutionCtx<A>,
) -> VortexResult<ArrayRef<A>>
    requires { ¬ HasKernel ctx.old compare_kernel (column_of column.now) }
    ensures refused { IsRefusedBy (compare_column_fault (dtype_of column.now) (dtype_of right.now)
        (length (rows column.now)) (length (rows right.now))) result }
    ensures rows { IfOk result (λ truths. rows truths ≡ compare_rows operator (rows column.now) (rows right.now)) }
    ensures dtype { IfOk result (λ truths. dtype_of truths ≡ compare_dtype (dtype_of column.now) (dtype_of right.now)) }
    ensures constants { AreConstants (column_of column.now) (column_of right.now) →
        IfOk result (λ truths. IsConstantForm (column_of truths)) }
    ensures otherwise { ¬ AreConstants (column_of column.now) (column_of right.now) →
        IfOk result (λ truths. IsFlat (column_of truths)) }
    ensures session { ctx.new ≡ ctx.old }
{
    if let Some(error) = fault_beside(column, right) {
        return Err(error);
    }
    match right {
        ArrayRef::Constant(constant) => truths_beside(column, operator, constant, ctx),
        _ => truths_of_rows(column, operator, right, ctx),
    }
}

// Compares each row with the value of a constant of as many rows, and writes no row of the constant.
fn truths_beside<A: Allocator + Copy>(
    column: &ArrayRef<A>,
    operator: CompareOperator,
    right: &ConstantArray<A>,
    ctx: &mut ExecutionCtx<A>,
) -> VortexResult<ArrayRef<A>>
    requires served { ¬ HasKernel ctx.old compare_kernel (column_of column.now) }
    requires comparable { compare_column_fault (dtype_of column.now) right.now.dtype (length (rows column.now))
        (length (column_rows (OfConstant right.now))) ≡ None }
    ensures only { IsOkUnless result VortexError.OutOfMemory }
    ensures rows { IfOk result (λ truths. rows truths ≡
        compare_rows operator (rows column.now) (column_rows (OfConstant right.now))) }
    ensures dtype { IfOk result (λ truths. dtype_of truths ≡ compare_dtype (dtype_of column.now) right.now.dtype) }
    ensures constant { IsConstantWithRows (column_of column.now) →
        IfOk result (λ truths. IsConstantForm (column_of truths)) }
    ensures otherwise { ¬ IsConstantWithRows (column_of column.now) →
        IfOk result (λ truths. IsFlat (column_of truths)) }
    ensures session { ctx.new ≡ ctx.old }
{
    compare_scalar(column, operator, right.scalar(), ctx)
}

// Why two columns are not compared.
fn fault_beside<A: Allocator + Copy>(
    column: &ArrayRef<A>,
    right: &ArrayRef<A>,
) -> Option<VortexError>
    ensures { result ≡ compare_column_fault (dtype_of column.now) (dtype_of right.now) (length (rows column.now))
        (length (rows right.now)) }
{
    column_fault(column.dtype(), right.dtype(), column.len(), right.len())
}

// Whether the operator holds of the two rows at each place, for columns that can be compared.
fn truths_of_rows<A: Allocator + Copy>(
    column: &ArrayRef<A>,
    operator: CompareOperator,
    right: &ArrayRef<A>,
    ctx: &mut ExecutionCtx<A>,
) -> VortexResult<ArrayRef<A>>
    requires comparable { compare_column_fault (dtype_of column.now) (dtype_of right.now) (length (rows column.now))
        (length (rows right.now)) ≡ None }
    ensures only { IsOkUnless result VortexError.OutOfMemory }
    ensures rows { IfOk result (λ truths. rows truths ≡ compare_rows operator (rows column.now) (rows right.now)) }
    ensures dtype { IfOk result (λ truths. dtype_of truths ≡ compare_dtype (dtype_of column.now) (dtype_of right.now)) }
    ensures form { IfOk result (λ truths. IsFlat (column_of truths)) }
    ensures session { ctx.new ≡ ctx.old }
{
    let left = flat_rows(column, ctx)?;
    let truths = truths_of_flat(&left, operator, right, ctx);
    drop(left);
    truths
}

// Whether the operator holds of the two rows at each place, where the rows of the left column are written.
fn truths_of_flat<A: Allocator + Copy>(
    left: &FlatColumn<A>,
    operator: CompareOperator,
    right: &ArrayRef<A>,
    ctx: &mut ExecutionCtx<A>,
) -> VortexResult<ArrayRef<A>>
    requires comparable { compare_column_fault (leaf_dtype (leaf_of left.now)) (dtype_of right.now)
        (length (single_rows (leaf_of left.now))) (length (rows right.now)) ≡ None }
    ensures only { IsOkUnless result VortexError.OutOfMemory }
    ensures rows { IfOk result (λ truths. rows truths ≡
        compare_rows operator (single_rows (leaf_of left.now)) (rows right.now)) }
    ensures dtype { IfOk result (λ truths. dtype_of truths ≡
        compare_dtype (leaf_dtype (leaf_of left.now)) (dtype_of right.now)) }
    ensures form { IfOk result (λ truths. IsFlat (column_of truths)) }
    ensures session { ctx.new ≡ ctx.old }
{
    let right = flat_rows(right, ctx)?;
    let truths = left.compare_column(*ctx.allocator(), operator, &right);
    drop(right);
    Ok(ArrayRef::Bool(truths?))
}
