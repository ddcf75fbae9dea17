//! The rows of an array of any form at indices.
ghost use Rattle.std.specs.Prelude.{◌≡◌, length, IfOk};
ghost use Rattle.column_core.specs.PrimitiveForm.{optional_numbers, primitive_dtype};
ghost use Rattle.column_core.specs.Refusal.{IsRefusedBy};
ghost use Rattle.column_ops.specs.Nullable.{take_dtype};
ghost use Rattle.column_ops.specs.Take.{take_fault, take_rows as rows_at_indices};
ghost use Rattle.runend_array.specs.Array.{column_of, dtype_of, rows};
ghost use Rattle.runend_array.specs.Column.{IsFlat};
ghost use Rattle.runend_array.specs.declared.session.Kernel.TheVariants.{Take as take_kernel};
ghost use Rattle.runend_select.specs.TakeForm.{TakeLeaves};
ghost use Rattle.runend_commands.specs.KernelForms.{HasKernel};

use crate::compute::kernel_runs::runs_for;
use column_core::{PrimitiveArray, VortexResult};
use runend_array::{ArrayRef, ExecutionCtx, Kernel};
use runend_select::take_rows;
use std::alloc::Allocator;

/// Returns the row at each index, null at a null index, as a flat column, or as a constant where the kernel serves a
/// run column and all indices are null. Refused as `OutOfBounds`, with the index and the number of rows, at the first
/// valid index that is negative or not below the number of rows.
#[tactic(auto, using(crate::proofs::FlatForms::flat_if_computed))]
pub fn take<A: Allocator + Copy>(
    column: &ArrayRef<A>,
    indices: &PrimitiveArray<A>,
    ctx: &mut ExecutionCtx<A>,
) -> VortexResult<ArrayRef<A>>
    ensures refused { IsRefusedBy (take_fault (optional_numbers indices.now) (length (rows column.now))) result }
    ensures rows { IfOk result (λ taken. rows taken ≡
        rows_at_indices (rows column.now) (optional_numbers indices.now)) }
    ensures dtype { IfOk result (λ taken. dtype_of taken ≡
        take_dtype (dtype_of column.now) (primitive_dtype indices.now)) }
    ensures kernel { HasKernel ctx.old take_kernel (column_of column.now) →
        IfOk result (λ taken. TakeLeaves (optional_numbers indices.now) (column_of taken)) }
    ensures otherwise { ¬ HasKernel ctx.old take_kernel (column_of column.now) →
        IfOk result (λ taken. IsFlat (column_of taken)) }
    ensures session { ctx.new ≡ ctx.old }
{
    match runs_for(column, Kernel::Take, ctx) {
        Some(runs) => runend_select::take(runs, indices, ctx),
        None => take_rows(column, indices, ctx),
    }
}
