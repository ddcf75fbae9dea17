//! The rows of an array of any form in another type.
ghost use Rattle.std.specs.Prelude.{◌≡◌, ◌<◌, IfOk};
ghost use Rattle.column_core.specs.Refusal.{IsRefusedBy};
ghost use Rattle.column_ops.specs.Cast.{cast_fault};
ghost use Rattle.runend_array.specs.Array.{column_of, dtype_of, rows};
ghost use Rattle.runend_array.specs.Column.{IsFlat, OfConstant, column_rows, plain_of};
ghost use Rattle.runend_array.specs.declared.session.Kernel.TheVariants.{Cast as cast_kernel};
ghost use Rattle.runend_column.specs.MinimalForm.{IsRunForm};
ghost use Rattle.runend_builder.specs.Encoded.{IsConstantForm};
ghost use Rattle.runend_commands.specs.Kept.{IsConstantWithRows};
ghost use Rattle.runend_commands.specs.KernelForms.{HasKernel, OnRuns};
ghost use Rattle.runend_commands.specs.Meaning.{plain};

use crate::compute::constants::{constant_with_rows, one_row, repeated_row};
use crate::compute::kernel_runs::runs_for;
use column_core::{DType, VortexResult};
use runend_array::{ArrayRef, ConstantArray, ExecutionCtx, Kernel};
use runend_map::cast_rows;
use std::alloc::Allocator;

/// Casts the rows to the type. A constant that has a row stays one, and no row of it is written. Where the kernel
/// serves a run column, runs are left; else flat rows. Refused as `Unsupported` unless both types are of integers or of
/// one kind other than lists, and then at the first row that the type does not have: as `NullNotAllowed` for null, as
/// `CastOutOfRange` for a number.
pub fn cast<A: Allocator + Copy>(
    column: &ArrayRef<A>,
    dtype: DType,
    ctx: &mut ExecutionCtx<A>,
) -> VortexResult<ArrayRef<A>>
    ensures refused { IsRefusedBy (cast_fault (plain column.now) dtype) result }
    ensures rows { IfOk result (λ cast. rows cast ≡ rows column.now) }
    ensures dtype { IfOk result (λ cast. dtype_of cast ≡ dtype) }
    ensures kernel { HasKernel ctx.old cast_kernel (column_of column.now) → OnRuns (column_of column.now)
        (λ runs. IfOk result (λ cast. IsRunForm dtype runs (column_of cast))) }
    ensures constant { IsConstantWithRows (column_of column.now) →
        IfOk result (λ cast. IsConstantForm (column_of cast)) }
    ensures otherwise { ¬ HasKernel ctx.old cast_kernel (column_of column.now) →
        ¬ IsConstantWithRows (column_of column.now) → IfOk result (λ cast. IsFlat (column_of cast)) }
    ensures session { ctx.new ≡ ctx.old }
{
    if let Some(constant) = constant_with_rows(column) {
        return cast_constant(constant, dtype, ctx);
    }
    match runs_for(column, Kernel::Cast, ctx) {
        Some(runs) => runend_map::cast(runs, dtype, ctx),
        None => cast_rows(column, dtype, ctx),
    }
}

// A constant that has a row, in the type: its one value is cast.
fn cast_constant<A: Allocator + Copy>(
    constant: &ConstantArray<A>,
    dtype: DType,
    ctx: &mut ExecutionCtx<A>,
) -> VortexResult<ArrayRef<A>>
    requires { 0 < constant.now.count }
    ensures refused { IsRefusedBy (cast_fault (plain_of (OfConstant constant.now)) dtype) result }
    ensures rows { IfOk result (λ cast. rows cast ≡ column_rows (OfConstant constant.now)) }
    ensures dtype { IfOk result (λ cast. dtype_of cast ≡ dtype) }
    ensures form { IfOk result (λ cast. IsConstantForm (column_of cast)) }
    ensures session { ctx.new ≡ ctx.old }
{
    let alloc = *ctx.allocator();
    let one = one_row(alloc, constant)?;
    let cast = cast_rows(&one, dtype, ctx);
    drop(one);
    let cast = cast?;
    let made = repeated_row(alloc, &cast, constant.len());
    drop(cast);
    made
}
