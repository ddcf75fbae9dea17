//! Whether the rows of an array of any form are sorted.
ghost use Rattle.std.specs.Prelude.{◌≡◌, ◌≢◌, ◌↔◌, Err, IfOk, IsTrue};
ghost use Rattle.column_core.specs.FlatView.{leaf_in};
ghost use Rattle.column_core.specs.Leaf.{single_rows};
ghost use Rattle.column_core.specs.Refusal.{IsRefusedBy};
ghost use Rattle.column_ops.specs.OrderFacts as order;
ghost use Rattle.column_core.specs.Kinds.{list_fault};
ghost use Rattle.runend_array.specs.Array.{column_of, dtype_of, rows};
ghost use Rattle.runend_array.specs.declared.session.Kernel.TheVariants.{IsSorted as sorted_kernel};
ghost use Rattle.runend_commands.specs.KernelForms.{IsReadInPlace};

use crate::compute::kernel_runs::{constant_for, runs_for};
use column_core::{FlatView, VortexError, VortexResult};
use runend_aggregate::is_sorted_of_constant;
use runend_array::{ArrayRef, ExecutionCtx, Kernel};
use runend_column::flat_rows;
use std::alloc::Allocator;

/// Returns whether no row is above the next, or, for `strict`, whether each row is below the next; null is below all
/// else. It takes no memory where the array is flat, or is runs or a constant and the kernel is registered. Refused as
/// `Unsupported` for lists.
pub fn is_sorted<A: Allocator + Copy>(
    column: &ArrayRef<A>,
    strict: bool,
    ctx: &mut ExecutionCtx<A>,
) -> VortexResult<bool>
    ensures refused { IsRefusedBy (list_fault (dtype_of column.now)) result }
    ensures answer { IfOk result (λ sorted. IsTrue sorted ↔ order.IsSorted strict (rows column.now)) }
    ensures in_place { IsReadInPlace ctx.old sorted_kernel (column_of column.now) →
        result ≢ Err VortexError.OutOfMemory }
    ensures session { ctx.new ≡ ctx.old }
{
    if let Some(runs) = runs_for(column, Kernel::IsSorted, ctx) {
        return runend_aggregate::is_sorted(runs, strict, ctx);
    }
    if let Some(constant) = constant_for(column, Kernel::IsSorted, ctx) {
        return is_sorted_of_constant(constant, strict);
    }
    if let Some(flat) = column.flat_view() {
        return Ok(is_flat_sorted(flat, strict));
    }
    let flat = flat_rows(column, ctx)?;
    let sorted = is_flat_sorted(flat.view(), strict);
    drop(flat);
    Ok(sorted)
}

// Whether all rows of a flat column are in order.
fn is_flat_sorted<A: Allocator + Copy>(flat: FlatView<'_, A>, strict: bool) -> bool
    ensures { IsTrue result ↔ order.IsSorted strict (single_rows (leaf_in flat.entry)) }
{
    column_ops::is_sorted(flat, 0..flat.len(), strict)
}
