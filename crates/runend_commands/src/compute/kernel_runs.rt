//! Which columns a kernel serves.
ghost use Rattle.std.specs.Prelude.{◌≡◌, MatchOption};
ghost use Rattle.runend_array.specs.Array.{column_of};
ghost use Rattle.runend_array.specs.Column.{OfConstant, column_of_runs};
ghost use Rattle.runend_commands.specs.KernelForms.{HasConstantKernel, HasKernel};

use runend_array::{ArrayRef, ConstantArray, ExecutionCtx, Kernel, RunEndArray};
use std::alloc::Allocator;

/// Returns the run column that the kernel is to serve, or `None` where the column is not a run column or the kernel is
/// not registered.
pub fn runs_for<'a, A: Allocator + Copy>(
    column: &'a ArrayRef<A>,
    kernel: Kernel,
    ctx: &ExecutionCtx<A>,
) -> Option<&'a RunEndArray<A>>
    ensures { MatchOption result
        (¬ HasKernel ctx.now kernel (column_of column.now))
        (λ runs. HasKernel ctx.now kernel (column_of column.now) × (column_of column.now ≡ column_of_runs runs.now)) }
{
    match column {
        ArrayRef::RunEnd(runs) if ctx.session().is_registered(kernel) => Some(runs),
        _ => None,
    }
}

/// Returns the constant that the kernel of an aggregate is to serve, as one run of all its rows, or `None` where the
/// column is not a constant or the kernel is not registered.
pub fn constant_for<'a, A: Allocator + Copy>(
    column: &'a ArrayRef<A>,
    kernel: Kernel,
    ctx: &ExecutionCtx<A>,
) -> Option<&'a ConstantArray<A>>
    ensures { MatchOption result
        (¬ HasConstantKernel ctx.now kernel (column_of column.now))
        (λ constant. HasConstantKernel ctx.now kernel (column_of column.now) ×
        (column_of column.now ≡ OfConstant constant.now)) }
{
    match column {
        ArrayRef::Constant(constant) if ctx.session().is_registered(kernel) => Some(constant),
        _ => None,
    }
}
