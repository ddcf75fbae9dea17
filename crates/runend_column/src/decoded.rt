//! Columns of any form but lists, written row by row.
ghost use Rattle.std.specs.Prelude.{◌≡◌, IfOk, IsErrOf, IsOkUnless, Some};
ghost use Rattle.column_base.specs.declared.error.VortexError.{VortexError};
ghost use Rattle.column_core.specs.FlatColumn.{leaf_of};
ghost use Rattle.column_core.specs.Kinds.{list_fault};
ghost use Rattle.column_core.specs.Leaf.{leaf_dtype, single_rows};
ghost use Rattle.column_core.specs.Refusal.{IsRefusedBy};
ghost use Rattle.column_core.specs.Value.{IsLists};
ghost use Rattle.runend_array.specs.Array.{dtype_of, rows};

use column_core::{FlatColumn, VortexError, VortexResult, fault_of_lists};
use runend_array::{ArrayRef, Canonical, ExecutionCtx};
use std::alloc::Allocator;

/// Returns the rows of a column, stored one by one. Shares the buffers of a flat column. Refused as `Unsupported`
/// exactly for lists, before any memory is taken, else only as `OutOfMemory`.
pub fn flat_rows<A: Allocator + Copy>(
    column: &ArrayRef<A>,
    ctx: &mut ExecutionCtx<A>,
) -> VortexResult<FlatColumn<A>>
    ensures refused { IsRefusedBy (list_fault (dtype_of column.now)) result }
    ensures first { (error : VortexError) → list_fault (dtype_of column.now) ≡ Some error → IsErrOf result error }
    ensures only { ¬ IsLists (dtype_of column.now) → IsOkUnless result VortexError.OutOfMemory }
    ensures rows { IfOk result (λ flat. single_rows (leaf_of flat) ≡ rows column.now) }
    ensures dtype { IfOk result (λ flat. leaf_dtype (leaf_of flat) ≡ dtype_of column.now) }
    ensures session { ctx.new ≡ ctx.old }
{
    if let Some(error) = fault_of_lists(column.dtype()) {
        return Err(error);
    }
    match column.to_canonical(ctx)? {
        Canonical::Flat(flat) => Ok(flat),
        Canonical::List(_) => unreachable!(),
    }
}
