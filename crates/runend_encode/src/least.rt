//! Ends in the least type that has them.
ghost use Rattle.std.specs.Prelude.{IfOk, IsOkUnless};
ghost use Rattle.std.specs.List.Sorted.{IsStrictlyIncreasing};
ghost use Rattle.runend_encode.specs.Encoding.{AreLeastEnds};

use column_core::{PrimitiveArray, Validity, VortexError, VortexResult};
use runend_windows::narrowed;
use std::alloc::Allocator;

/// Returns the ends as a column of the least unsigned type that holds the last of them. Refused only as `OutOfMemory`.
pub fn least_ends<A: Allocator + Copy>(alloc: A, ends: &[u64]) -> VortexResult<PrimitiveArray<A>>
    requires { IsStrictlyIncreasing ends.now }
    ensures only { IsOkUnless result VortexError.OutOfMemory }
    ensures least { IfOk result (λ column. AreLeastEnds ends.now column) }
{
    let values = narrowed(alloc, ends)?;
    Ok(PrimitiveArray::new_unchecked(values, Validity::NonNullable))
}
