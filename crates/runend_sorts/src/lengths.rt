//! How many rows runs have, by their ends.
ghost use Rattle.std.specs.Prelude.{◌≡◌, IfOk, IsOkUnless, length, map, unsigned_abs};
ghost use Rattle.column_base.specs.Numbers.{numbers, ptype_of};
ghost use Rattle.column_base.specs.Types.{IsUnsigned};
ghost use Rattle.column_core.specs.PrimitiveForm.{primitive_dtype};
ghost use Rattle.runend_windows.specs.Ends.{IsEndsType, ends_of};
ghost use Rattle.runend_sorts.specs.Runs.{lengths_in};

use column_base::match_each_unsigned;
use column_core::{PrimitiveArray, PrimitiveValues, UnsignedPType, VortexError, VortexResult};
use std::alloc::Allocator;

/// Returns how many rows each run has; the first one begins at row 0. Refused only as `OutOfMemory`.
pub(crate) fn lengths_of<A: Allocator + Copy>(
    alloc: A,
    ends: &PrimitiveArray<A>,
) -> VortexResult<Vec<u64, A>>
    requires { IsEndsType (primitive_dtype ends.now) }
    ensures only { IsOkUnless result VortexError.OutOfMemory }
    ensures lengths { IfOk result (λ lengths. lengths.items ≡ lengths_in (ends_of ends.now)) }
{
    lengths_among(alloc, ends.values())
}

// The same for the numbers that the ends are.
#[tactic(auto, using(runend_windows::proofs::Ends::ends_stored))]
fn lengths_among<A: Allocator + Copy>(
    alloc: A,
    ends: &PrimitiveValues<A>,
) -> VortexResult<Vec<u64, A>>
    requires { IsUnsigned (ptype_of ends.now) }
    ensures only { IsOkUnless result VortexError.OutOfMemory }
    ensures lengths { IfOk result (λ lengths. lengths.items ≡ lengths_in (map unsigned_abs (numbers ends.now))) }
{
    match_each_unsigned!(ends, items => lengths_as(alloc, items.as_slice()))
}

// The same for ends of one type.
fn lengths_as<E: UnsignedPType, A: Allocator>(alloc: A, ends: &[E]) -> VortexResult<Vec<u64, A>>
    ensures only { IsOkUnless result VortexError.OutOfMemory }
    ensures lengths { IfOk result (λ lengths. lengths.items ≡ lengths_in (map E.natural ends.now)) }
{
    let mut lengths = Vec::with_capacity(alloc, ends.len())?;
    let mut start = 0;
    for end in ends {
        let stop = end.to_u64();
        lengths.push_reserved(stop.saturating_sub(start));
        start = stop;
    }
    Ok(lengths)
}
