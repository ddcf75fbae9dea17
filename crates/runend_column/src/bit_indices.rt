//! The places of the rows that bits select.
ghost use Rattle.std.specs.Prelude.{◌≡◌, IfOk, IsOkUnless};
ghost use Rattle.column_base.specs.Bits.{set_indices_of};

use column_core::{BitBuffer, VortexError, VortexResult};
use std::alloc::Allocator;

/// Returns the places of the true bits, in ascending order. Refused only as `OutOfMemory`.
pub fn set_bit_indices<A: Allocator + Copy>(
    alloc: A,
    bits: &BitBuffer<A>,
) -> VortexResult<Vec<u64, A>>
    ensures only { IsOkUnless result VortexError.OutOfMemory }
    ensures places { IfOk result (λ places. places.items ≡ set_indices_of bits.now) }
{
    let mut places = Vec::with_capacity(alloc, bits.true_count())?;
    for place in bits.set_indices() {
        places.push_reserved(place as u64);
    }
    Ok(places)
}
