//! Single ends of a flat column of ends.
ghost use Rattle.std.specs.Prelude.{◌≡◌, ◌≢◌, ◌+◌, ◌<◌, length, map, slice_index, unsigned_abs};
ghost use Rattle.column_base.specs.Numbers.{numbers, ptype_of};
ghost use Rattle.column_base.specs.Types.{IsUnsigned};
ghost use Rattle.column_core.specs.PrimitiveForm.{primitive_dtype};
ghost use Rattle.runend_windows.specs.Ends.{IsEndsType, ends_of};

use column_base::match_each_unsigned;
use column_core::{PrimitiveArray, PrimitiveValues, UnsignedPType};
use std::alloc::Allocator;

/// Returns the row that a run ends before.
#[tactic(auto, using(runend_windows::proofs::Ends::length_ends_of))]
pub(crate) fn end_of<A: Allocator>(ends: &PrimitiveArray<A>, run: usize) -> usize
    requires plain { IsEndsType (primitive_dtype ends.now) }
    requires there { run < length (ends_of ends.now) }
    ensures end { result ≡ slice_index (ends_of ends.now) run }
    ensures bounded { run < usize.MAX }
{
    end_among(ends.values(), run)
}

// The same for the numbers that the ends are.
#[tactic(auto, using(runend_windows::proofs::Ends::ends_stored))]
fn end_among<A: Allocator>(ends: &PrimitiveValues<A>, run: usize) -> usize
    requires unsigned { IsUnsigned (ptype_of ends.now) }
    requires there { run < length (numbers ends.now) }
    ensures end { result ≡ slice_index (map unsigned_abs (numbers ends.now)) run }
    ensures bounded { run < usize.MAX }
{
    match_each_unsigned!(ends, items => end_at(items.as_slice(), run))
}

// The same for ends of one type.
#[inline]
fn end_at<E: UnsignedPType>(ends: &[E], run: usize) -> usize
    requires { run < length ends.now }
    ensures end { result ≡ slice_index (map E.natural ends.now) run }
    ensures bounded { run < usize.MAX }
{
    ends[run].to_u64() as usize
}

/// Returns the run of the row `row`, where `run` is the run of the row before it, and ends before row `end`: the next
/// run where `run` ends there, by a sum in place of a branch.
#[inline(always)]
pub(crate) fn run_after(run: usize, end: usize, row: usize) -> usize
    requires { run < usize.MAX }
    ensures ended { end ≡ row → result ≡ run + 1 }
    ensures going { end ≢ row → result ≡ run }
{
    run + usize::from(end == row)
}
