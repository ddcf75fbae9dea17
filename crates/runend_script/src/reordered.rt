//! Columns whose rows are put in another order.
ghost use Rattle.std.specs.Prelude.{◌≡◌, OnErr, OnOk};
ghost use Rattle.column_core.specs.Kinds.{list_fault};
ghost use Rattle.column_core.specs.Refusal.{IsRefusedBy};
ghost use Rattle.runend_array.specs.Array.{dtype_of};
ghost use Rattle.runend_script.specs.Reordered.{IsInOrderOf};

use crate::command::RowOrder;
use column_base::VortexResult;
use runend_sorts::{reverse, sort};
use std::alloc::Allocator;
use std::mem::replace;
use vortex_runend::{ArrayRef, ExecutionCtx};

/// Puts the rows of the column in this order. Refused as `Unsupported` exactly for lists, else only as `OutOfMemory`.
#[tactic(auto, using(crate::proofs::NewOrders::rising, crate::proofs::NewOrders::reversed))]
pub fn reorder<A: Allocator + Copy>(
    order: RowOrder,
    column: &mut ArrayRef<A>,
    ctx: &mut ExecutionCtx<A>,
) -> VortexResult<()>
    ensures refused { IsRefusedBy (list_fault (dtype_of column.old)) result }
    ensures ordered { OnOk result (IsInOrderOf order column.old column.new) }
    ensures kept { OnErr result (column.new ≡ column.old) }
    ensures session { ctx.new ≡ ctx.old }
{
    let ordered = match order {
        RowOrder::Rising => sort(column, ctx),
        RowOrder::Reversed => reverse(column, ctx),
    };
    drop(replace(column, ordered?));
    Ok(())
}
