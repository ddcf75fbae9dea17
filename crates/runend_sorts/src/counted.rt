//! The distinct rows of a column, counted.
ghost use Rattle.std.specs.Prelude.{◌≡◌, Some, IfOk, IsErrOf};
ghost use Rattle.column_core.specs.Kinds.{list_fault};
ghost use Rattle.column_core.specs.Refusal.{IsRefusedBy};
ghost use Rattle.runend_array.specs.Array.{column_of, dtype_of, rows};
ghost use Rattle.runend_sorts.specs.Counts.{AreCounts};

use crate::row_runs::RowRuns;
use crate::sorted::sort;
use column_core::{NativePType, PrimitiveArray, Validity, VortexError, VortexResult};
use runend_array::{ArrayRef, ExecutionCtx, array_of};
use std::alloc::Allocator;

/// Holds the distinct rows of a column, and how many rows are equal to each.
#[derive(Drop)]
pub struct ValueCounts<A: Allocator> {
    /// Holds the distinct rows in order, null first, flat.
    pub values: ArrayRef<A>,
    /// Counts for each of them how many rows are equal to it: a flat `u64` column without null.
    pub counts: ArrayRef<A>,
}

/// Returns the distinct rows of a column of any form in order, null first, and how many rows are equal to each. Sorts
/// runs, not rows. Refused as `Unsupported` exactly for lists, before any memory is taken, else only as `OutOfMemory`.
pub fn value_counts<A: Allocator + Copy>(
    array: &ArrayRef<A>,
    ctx: &mut ExecutionCtx<A>,
) -> VortexResult<ValueCounts<A>>
    ensures refused { IsRefusedBy (list_fault (dtype_of array.now)) result }
    ensures first { (error : VortexError) → list_fault (dtype_of array.now) ≡ Some error → IsErrOf result error }
    ensures counts { IfOk result (λ counted. AreCounts (rows array.now) (dtype_of array.now)
        (column_of counted.values) (column_of counted.counts)) }
    ensures session { ctx.new ≡ ctx.old }
{
    let sorted = sort(array, ctx)?;
    let runs = RowRuns::of(*ctx.allocator(), &sorted);
    drop(sorted);
    let RowRuns { values, lengths } = runs?;
    let counts = PrimitiveArray::new_unchecked(u64::wrap(lengths), Validity::NonNullable);
    Ok(ValueCounts {
        values: array_of(values),
        counts: ArrayRef::Primitive(counts),
    })
}
