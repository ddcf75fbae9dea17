//! The sum of an array of any form.
ghost use Rattle.std.specs.Prelude.{◌≡◌, ◌≢◌, Err, IfOk};
ghost use Rattle.column_core.specs.Refusal.{IsRefusedBy};
ghost use Rattle.column_sums.specs.SumAnswer.{sum_fault, IsSumAnswer};
ghost use Rattle.runend_array.specs.Array.{column_of, dtype_of, rows};
ghost use Rattle.runend_array.specs.declared.session.Kernel.TheVariants.{Sum as sum_kernel};
ghost use Rattle.runend_commands.specs.KernelForms.{IsReadInPlace};

use crate::compute::kernel_runs::{constant_for, runs_for};
use column_core::{DType, VortexError, VortexResult};
use column_sums::{SumAnswer, sum_view};
use runend_aggregate::sum_of_constant;
use runend_array::{ArrayRef, ExecutionCtx, Kernel};
use runend_column::flat_rows;
use std::alloc::Allocator;

/// Returns the sum of the rows that are not null. Where the kernel is registered, runs and constants are added run by
/// run; a flat array is read where it is. Neither takes memory. Refused as `Unsupported` unless the rows are integers.
pub fn sum<A: Allocator + Copy>(
    column: &ArrayRef<A>,
    ctx: &mut ExecutionCtx<A>,
) -> VortexResult<SumAnswer>
    ensures refused { IsRefusedBy (sum_fault (dtype_of column.now)) result }
    ensures answer { IfOk result (IsSumAnswer (dtype_of column.now) (rows column.now)) }
    ensures in_place { IsReadInPlace ctx.old sum_kernel (column_of column.now) → result ≢ Err VortexError.OutOfMemory }
    ensures session { ctx.new ≡ ctx.old }
{
    if let Some(runs) = runs_for(column, Kernel::Sum, ctx) {
        return runend_aggregate::sum(runs, ctx);
    }
    if let Some(constant) = constant_for(column, Kernel::Sum, ctx) {
        return sum_of_constant(constant);
    }
    if let Some(flat) = column.flat_view() {
        return sum_view(flat);
    }
    sum_row_by_row(column, ctx)
}

// The sum of the rows, written out.
fn sum_row_by_row<A: Allocator + Copy>(
    column: &ArrayRef<A>,
    ctx: &mut ExecutionCtx<A>,
) -> VortexResult<SumAnswer>
    ensures refused { IsRefusedBy (sum_fault (dtype_of column.now)) result }
    ensures answer { IfOk result (IsSumAnswer (dtype_of column.now) (rows column.now)) }
    ensures session { ctx.new ≡ ctx.old }
{
    let DType::Primitive(_, _) = column.dtype() else {
        return Err(VortexError::Unsupported);
    };
    let flat = flat_rows(column, ctx)?;
    let total = sum_view(flat.view());
    drop(flat);
    total
}
