//! The rows of a column in reverse order.
ghost use Rattle.std.specs.Prelude.{◌≡◌, Some, IfOk, IsErrOf, IsOkUnless, reverse as reverse_rows};
ghost use Rattle.column_core.specs.Kinds.{list_fault};
ghost use Rattle.column_core.specs.Refusal.{IsRefusedBy};
ghost use Rattle.column_core.specs.Value.{IsLists};
ghost use Rattle.runend_array.specs.Array.{column_of, dtype_of, rows};
ghost use Rattle.runend_sorts.specs.Reordered.{IsEncodedColumn, IsInNewOrder};

use crate::row_runs::RowRuns;
use column_core::{VortexError, VortexResult, fault_of_lists};
use runend_array::{ArrayRef, ExecutionCtx};
use std::alloc::Allocator;

/// Returns the rows of a column of any form in reverse order: row i is row n - 1 - i of n. A constant stays one; any
/// other column becomes the run column of the only tight exact cover of the rows, with ends of the least unsigned type
/// that holds them, and flat values. Takes a step for each run. Refused as `Unsupported` exactly for lists, before any
/// memory is taken, else only as `OutOfMemory`.
pub fn reverse<A: Allocator + Copy>(
    array: &ArrayRef<A>,
    ctx: &mut ExecutionCtx<A>,
) -> VortexResult<ArrayRef<A>>
    ensures refused { IsRefusedBy (list_fault (dtype_of array.now)) result }
    ensures first { (error : VortexError) → list_fault (dtype_of array.now) ≡ Some error → IsErrOf result error }
    ensures rows { IfOk result (λ reversed. rows reversed ≡ reverse_rows (rows array.now)) }
    ensures dtype { IfOk result (λ reversed. dtype_of reversed ≡ dtype_of array.now) }
    ensures form { IfOk result (λ reversed.
        IsInNewOrder (column_of array.now) (reverse_rows (rows array.now)) (column_of reversed)) }
    ensures session { ctx.new ≡ ctx.old }
{
    if let Some(error) = fault_of_lists(array.dtype()) {
        return Err(error);
    }
    match array {
        ArrayRef::Constant(_) => array.try_clone(ctx),
        _ => reversed_runs(array, ctx),
    }
}

// The encoding of the rows in reverse order. Refused only as `OutOfMemory`.
fn reversed_runs<A: Allocator + Copy>(
    array: &ArrayRef<A>,
    ctx: &mut ExecutionCtx<A>,
) -> VortexResult<ArrayRef<A>>
    requires { ¬ IsLists (dtype_of array.now) }
    ensures only { IsOkUnless result VortexError.OutOfMemory }
    ensures encoded { IfOk result (λ reversed.
        IsEncodedColumn (reverse_rows (rows array.now)) (dtype_of array.now) (column_of reversed)) }
    ensures session { ctx.new ≡ ctx.old }
{
    let alloc = *ctx.allocator();
    let runs = RowRuns::of(alloc, array)?;
    let mut order = match runs.stretches(alloc) {
        Ok(order) => order,
        Err(error) => {
            drop(runs);
            return Err(error);
        }
    };
    order.reverse();
    let reversed = runs.in_order(&order, ctx);
    drop(order);
    drop(runs);
    reversed
}
