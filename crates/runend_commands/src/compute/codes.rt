//! Codes replaced by the rows of a dictionary.
ghost use Rattle.std.specs.Prelude.{◌≡◌, length, IfOk};
ghost use Rattle.column_core.specs.Refusal.{IsRefusedBy};
ghost use Rattle.column_ops.specs.Codes.{code_fault, code_rows};
ghost use Rattle.column_ops.specs.Nullable.{take_dtype};
ghost use Rattle.runend_array.specs.Array.{column_of, dtype_of, rows};
ghost use Rattle.runend_array.specs.Column.{IsFlat};
ghost use Rattle.runend_array.specs.declared.session.Kernel.TheVariants.{TakeFrom as take_from_kernel};
ghost use Rattle.runend_map.specs.Codes.{keeps_runs};
ghost use Rattle.runend_map.specs.TakenForm.{TakeFromLeaves};
ghost use Rattle.runend_commands.specs.KernelForms.{HasKernel, OnRuns};
ghost use Rattle.runend_commands.specs.Meaning.{plain};

use crate::compute::kernel_runs::runs_for;
use column_core::VortexResult;
use runend_array::{ArrayRef, ExecutionCtx, Kernel};
use runend_map::take_from_rows;
use std::alloc::Allocator;

/// Returns the dictionary's row for each code, null for null. Where the kernel serves a run column of codes and the
/// dictionary is of integers or booleans, runs are left; else flat rows. Refused as `TypeMismatch` unless the codes are
/// integers, and then as `OutOfBounds`, with the code and the dictionary's rows, at the first code that is negative or
/// does not name a row of it.
pub fn take_from<A: Allocator + Copy>(
    column: &ArrayRef<A>,
    dictionary: &ArrayRef<A>,
    ctx: &mut ExecutionCtx<A>,
) -> VortexResult<ArrayRef<A>>
    ensures refused { IsRefusedBy (code_fault (plain column.now) (length (rows dictionary.now))) result }
    ensures rows { IfOk result (λ taken. rows taken ≡ code_rows (rows dictionary.now) (rows column.now)) }
    ensures dtype { IfOk result (λ taken. dtype_of taken ≡ take_dtype (dtype_of dictionary.now) (dtype_of column.now)) }
    ensures kernel { HasKernel ctx.old take_from_kernel (column_of column.now) → OnRuns (column_of column.now)
        (λ runs. IfOk result (λ taken. TakeFromLeaves (keeps_runs (dtype_of dictionary.now)) (dtype_of dictionary.now)
        runs (column_of taken))) }
    ensures otherwise { ¬ HasKernel ctx.old take_from_kernel (column_of column.now) →
        IfOk result (λ taken. IsFlat (column_of taken)) }
    ensures session { ctx.new ≡ ctx.old }
{
    match runs_for(column, Kernel::TakeFrom, ctx) {
        Some(runs) => runend_map::take_from(runs, dictionary, ctx),
        None => take_from_rows(column, dictionary, ctx),
    }
}
