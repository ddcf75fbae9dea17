//! Nulls of an array of any form filled.
ghost use Rattle.std.specs.Prelude.{◌≡◌, ◌<◌, IfOk};
ghost use Rattle.column_core.specs.Refusal.{IsRefusedBy};
ghost use Rattle.column_ops.specs.Fill.{fill_dtype, fill_fault};
ghost use Rattle.runend_array.specs.Array.{column_of, dtype_of, rows};
ghost use Rattle.runend_array.specs.Column.{IsFlat, OfConstant, column_rows};
ghost use Rattle.runend_array.specs.declared.session.Kernel.TheVariants.{FillNull as fill_kernel};
ghost use Rattle.runend_column.specs.MinimalForm.{IsRunForm};
ghost use Rattle.runend_builder.specs.Encoded.{IsConstantForm};
ghost use Rattle.runend_commands.specs.Kept.{IsConstantWithRows};
ghost use Rattle.runend_commands.specs.KernelForms.{HasKernel, OnRuns};
ghost use Rattle.runend_commands.specs.Meaning.{rows_filled};

use crate::compute::constants::{constant_with_rows, one_row, repeated_row};
use crate::compute::kernel_runs::runs_for;
use column_core::{Scalar, VortexResult};
use runend_array::{ArrayRef, ConstantArray, ExecutionCtx, Kernel};
use runend_map::fill_rows;
use std::alloc::Allocator;

/// Puts the value in place of each null, in the type without null. A constant that has a row stays one, and no row of
/// it is written. Where the kernel serves a run column, runs are left; else flat rows. Refused as
/// `Unsupported` for lists, as `TypeMismatch` for a value of another kind, and as `NullFill` for null.
pub fn fill_null<A: Allocator + Copy>(
    column: &ArrayRef<A>,
    value: &Scalar<A>,
    ctx: &mut ExecutionCtx<A>,
) -> VortexResult<ArrayRef<A>>
    ensures refused { IsRefusedBy (fill_fault (dtype_of column.now) value.now) result }
    ensures rows { IfOk result (λ filled. rows filled ≡ rows_filled (rows column.now) value.now.value) }
    ensures dtype { IfOk result (λ filled. dtype_of filled ≡ fill_dtype (dtype_of column.now)) }
    ensures kernel { HasKernel ctx.old fill_kernel (column_of column.now) → OnRuns (column_of column.now)
        (λ runs. IfOk result (λ filled. IsRunForm (fill_dtype (dtype_of column.now)) runs (column_of filled))) }
    ensures constant { IsConstantWithRows (column_of column.now) →
        IfOk result (λ filled. IsConstantForm (column_of filled)) }
    ensures otherwise { ¬ HasKernel ctx.old fill_kernel (column_of column.now) →
        ¬ IsConstantWithRows (column_of column.now) → IfOk result (λ filled. IsFlat (column_of filled)) }
    ensures session { ctx.new ≡ ctx.old }
{
    if let Some(constant) = constant_with_rows(column) {
        return fill_constant(constant, value, ctx);
    }
    match runs_for(column, Kernel::FillNull, ctx) {
        Some(runs) => runend_map::fill_null(runs, value, ctx),
        None => fill_rows(column, value, ctx),
    }
}

// A constant that has a row, filled: its own value, or the other in place of null.
fn fill_constant<A: Allocator + Copy>(
    constant: &ConstantArray<A>,
    value: &Scalar<A>,
    ctx: &mut ExecutionCtx<A>,
) -> VortexResult<ArrayRef<A>>
    requires { 0 < constant.now.count }
    ensures refused { IsRefusedBy (fill_fault constant.now.dtype value.now) result }
    ensures rows { IfOk result (λ filled. rows filled ≡
        rows_filled (column_rows (OfConstant constant.now)) value.now.value) }
    ensures dtype { IfOk result (λ filled. dtype_of filled ≡ fill_dtype constant.now.dtype) }
    ensures form { IfOk result (λ filled. IsConstantForm (column_of filled)) }
    ensures session { ctx.new ≡ ctx.old }
{
    let alloc = *ctx.allocator();
    let one = one_row(alloc, constant)?;
    let filled = fill_rows(&one, value, ctx);
    drop(one);
    let filled = filled?;
    let made = repeated_row(alloc, &filled, constant.len());
    drop(filled);
    made
}
