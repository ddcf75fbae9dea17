//! A range of rows of an array of any form.
ghost use Rattle.std.specs.Prelude.{◌≡◌, length, slice_range, IfOk};
ghost use Rattle.column_core.specs.Refusal.{range_fault, IsRefusedBy};
ghost use Rattle.runend_array.specs.Array.{column_of, dtype_of, rows};
ghost use Rattle.runend_array.specs.declared.session.Kernel.TheVariants.{Slice as slice_kernel};
ghost use Rattle.runend_column.specs.SliceForm.{SliceLeaves};
ghost use Rattle.runend_commands.specs.KernelForms.{HasKernel, OnRuns};
ghost use Rattle.runend_column.specs.Parts.{IsPlainPart};

use crate::compute::kernel_runs::runs_for;
use column_core::VortexResult;
use runend_array::{ArrayRef, ExecutionCtx, Kernel};
use runend_column::slice_rows;
use std::alloc::Allocator;
use std::ops::Range;

/// Returns the rows from `range.start` to `range.end` - 1. The kernel serves a run column where it is registered: it
/// leaves the runs of these rows. Else a constant stays one, and any other array is written flat. Refused as `BadRange`
/// where the start is past the end, or the end past the rows.
pub fn slice<A: Allocator + Copy>(
    column: &ArrayRef<A>,
    range: Range<usize>,
    ctx: &mut ExecutionCtx<A>,
) -> VortexResult<ArrayRef<A>>
    ensures refused { IsRefusedBy (range_fault range.start range.end (length (rows column.now))) result }
    ensures rows { IfOk result (λ part. rows part ≡ slice_range (rows column.now) range.start range.end) }
    ensures dtype { IfOk result (λ part. dtype_of part ≡ dtype_of column.now) }
    ensures kernel { HasKernel ctx.old slice_kernel (column_of column.now) → OnRuns (column_of column.now)
        (λ runs. IfOk result (λ part. SliceLeaves runs range.start range.end (column_of part))) }
    ensures otherwise { ¬ HasKernel ctx.old slice_kernel (column_of column.now)
        → IfOk result (λ part. IsPlainPart (column_of column.now) range.start range.end (column_of part)) }
    ensures session { ctx.new ≡ ctx.old }
{
    match runs_for(column, Kernel::Slice, ctx) {
        Some(runs) => runend_column::slice(runs, range, ctx),
        None => slice_rows(column, range, ctx),
    }
}
