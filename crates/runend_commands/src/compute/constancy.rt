//! Whether the rows of an array of any form are all equal.
ghost use Rattle.std.specs.Prelude.{◌≡◌, ◌≢◌, ◌↔◌, Err, IfOk, IsTrue};
ghost use Rattle.column_core.specs.FlatView.{leaf_in};
ghost use Rattle.column_core.specs.Leaf.{single_rows};
ghost use Rattle.column_core.specs.Refusal.{IsRefusedBy};
ghost use Rattle.column_ops.specs.OrderFacts as order;
ghost use Rattle.column_core.specs.Kinds.{list_fault};
ghost use Rattle.runend_array.specs.Array.{column_of, dtype_of, rows};
ghost use Rattle.runend_array.specs.declared.session.Kernel.TheVariants.{IsConstant as constant_kernel};
ghost use Rattle.runend_commands.specs.KernelForms.{IsReadInPlace};

use crate::compute::kernel_runs::{constant_for, runs_for};
use column_core::{FlatView, VortexError, VortexResult};
use runend_aggregate::is_constant_of_constant;
use runend_array::{ArrayRef, ExecutionCtx, Kernel};
use runend_column::flat_rows;
use std::alloc::Allocator;

/// Returns whether all rows are equal, null being equal to null. It takes no memory where the array is flat, or is runs
/// or a constant and the kernel is registered. Refused as `Unsupported` for lists.
pub fn is_constant<A: Allocator + Copy>(
    column: &ArrayRef<A>,
    ctx: &mut ExecutionCtx<A>,
) -> VortexResult<bool>
    ensures refused { IsRefusedBy (list_fault (dtype_of column.now)) result }
    ensures answer { IfOk result (λ constant. IsTrue constant ↔ order.IsConstant (rows column.now)) }
    ensures in_place { IsReadInPlace ctx.old constant_kernel (column_of column.now) →
        result ≢ Err VortexError.OutOfMemory }
    ensures session { ctx.new ≡ ctx.old }
{
    if let Some(runs) = runs_for(column, Kernel::IsConstant, ctx) {
        return runend_aggregate::is_constant(runs, ctx);
    }
    if let Some(constant) = constant_for(column, Kernel::IsConstant, ctx) {
        return is_constant_of_constant(constant);
    }
    if let Some(flat) = column.flat_view() {
        return Ok(is_flat_constant(flat));
    }
    let flat = flat_rows(column, ctx)?;
    let constant = is_flat_constant(flat.view());
    drop(flat);
    Ok(constant)
}

// Whether any two rows of a flat column are equal, null equal to null.
fn is_flat_constant<A: Allocator + Copy>(flat: FlatView<'_, A>) -> bool
    ensures { IsTrue result ↔ order.IsConstant (single_rows (leaf_in flat.entry)) }
{
    column_ops::is_constant(flat, 0..flat.len())
}
