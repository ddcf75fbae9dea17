//! Single ends of a flat column of them.
ghost use Rattle.std.specs.Prelude.{◌≡◌, ◌<◌, ◌^◌, length, map, slice_index, unsigned_abs};
ghost use Rattle.column_base.specs.Numbers.{numbers, ptype_of};
ghost use Rattle.column_base.specs.Types.{IsUnsigned};
ghost use Rattle.column_core.specs.PrimitiveForm.{primitive_dtype};
ghost use Rattle.runend_floats.specs.Runs.{first_row as first_row_of};
ghost use Rattle.runend_windows.specs.Ends.{IsEndsType, ends_of};

use column_base::match_each_unsigned;
use column_core::{PrimitiveArray, PrimitiveValues, UnsignedPType};
use std::alloc::Allocator;

/// Returns the row that a run ends before.
#[tactic(auto, using(runend_windows::proofs::Ends::length_ends_of))]
pub(crate) fn end_of<A: Allocator>(ends: &PrimitiveArray<A>, run: usize) -> usize
    requires plain { IsEndsType (primitive_dtype ends.now) }
    requires there { run < length (ends_of ends.now) }
    ensures end { result ≡ slice_index (ends_of ends.now) run }
{
    end_among(ends.values(), run)
}

/// Returns the first row of a run.
pub(crate) fn first_row<A: Allocator>(ends: &PrimitiveArray<A>, run: usize) -> usize
    requires plain { IsEndsType (primitive_dtype ends.now) }
    requires there { run < length (ends_of ends.now) }
    ensures { result ≡ first_row_of (ends_of ends.now) run }
{
    if run == 0 { 0 } else { end_of(ends, run - 1) }
}

// Returns the same of the numbers that the ends are.
#[tactic(auto, using(runend_windows::proofs::Ends::ends_stored))]
fn end_among<A: Allocator>(ends: &PrimitiveValues<A>, run: usize) -> usize
    requires unsigned { IsUnsigned (ptype_of ends.now) }
    requires there { run < length (numbers ends.now) }
    ensures end { result ≡ slice_index (map unsigned_abs (numbers ends.now)) run }
{
    match_each_unsigned!(ends, items => end_at(items.as_slice(), run))
}

// The same for ends of one type.
#[inline]
fn end_at<E: UnsignedPType>(ends: &[E], run: usize) -> usize
    requires { run < length ends.now }
    ensures end { result ≡ slice_index (map E.natural ends.now) run }
{
    ends[run].to_u64() as usize
}
