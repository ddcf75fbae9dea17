//! Which runs of a column are visible, and what they show.
ghost use Rattle.std.specs.Prelude.{◌≡◌, ◌-◌, ◌<◌, ◌≤◌, Some, length, map, min, option_map, pos, slice_get, slice_index};
ghost use Rattle.column_base.specs.Types.{IsUnsigned};
ghost use Rattle.column_sums.specs.SumAnswer.{number_in};
ghost use Rattle.runend_windows.specs.Ends.{ends_of};
ghost use Rattle.runend_array.specs.Array.{dtype_of, rows};
ghost use Rattle.runend_array.specs.Column.{AreRuns};
ghost use Rattle.runend_aggregate.specs.ShownRuns.{rows_before, rows_showing};
ghost use Rattle.runend_aggregate.specs.SignOf.{IsSignedType, IsUnsignedType};

use column_core::{PrimitiveArray, ScalarView, UnsignedPType};
use runend_array::{ArrayRef, RunEndArray, RunEndArrayExt, RunEndArraySlotsExt};
use std::alloc::Allocator;

/// Returns the ends, as the flat column that they are.
pub(crate) fn plain_ends<A: Allocator + Copy>(array: &RunEndArray<A>) -> &PrimitiveArray<A>
    ensures ends { ends_of result.now ≡ array.now.ends }
    ensures unsigned { IsUnsigned result.now.ptype }
    ensures valid { AreRuns array.now }
{
    match array.ends() {
        ArrayRef::Primitive(ends) => ends,
        _ => unreachable!(),
    }
}

// How many rows of the window lie before the end of a run.
#[inline]
fn rows_to_end<E: UnsignedPType>(ends: &[E], run: usize, offset: usize, count: usize) -> usize
    requires { run < length ends.now }
    ensures { result ≡ min (slice_index (map E.natural ends.now) run - offset) count }
{
    let rows = ends[run].to_u64().saturating_sub(offset as u64);
    rows.min(count as u64) as usize
}

#[inline]
fn rows_before_run<E: UnsignedPType>(ends: &[E], run: usize, offset: usize, count: usize) -> usize
    requires { run < length ends.now }
    ensures { result ≡ rows_before (map E.natural ends.now) offset count run }
{
    if run == 0 {
        return 0;
    }
    rows_to_end(ends, run - 1, offset, count)
}

/// Returns how many rows of a window, of `count` rows from position `offset` on, show a run.
#[inline]
pub(crate) fn rows_of_run<E: UnsignedPType>(
    ends: &[E],
    run: usize,
    offset: usize,
    count: usize,
) -> usize
    requires { run < length ends.now }
    ensures { result ≡ rows_showing (map E.natural ends.now) offset count run }
{
    rows_to_end(ends, run, offset, count).saturating_sub(rows_before_run(ends, run, offset, count))
}

/// Returns how many rows lie between the end of a run and the end of the run before it, where the ends increase. As
/// many rows of a window show a run that is neither the first nor the last visible one.
#[inline(always)]
pub(crate) fn rows_between<E: UnsignedPType>(ends: &[E], run: usize) -> usize
    requires within { run < length ends.now }
    requires second { 0 < run }
    requires increasing { slice_index (map E.natural ends.now) (run - 1) ≤ slice_index (map E.natural ends.now) run }
    ensures { result ≡ slice_index (map E.natural ends.now) run - slice_index (map E.natural ends.now) (run - 1) }
{
    (ends[run].to_u64() - ends[run - 1].to_u64()) as usize
}

/// Returns the number in a row of a column that has no unsigned numbers.
pub(crate) fn signed_in<A: Allocator + Copy>(values: &ArrayRef<A>, row: usize) -> Option<i64>
    requires signed { ¬ IsUnsignedType (dtype_of values.now) }
    requires within { row < length (rows values.now) }
    ensures { option_map number_in (slice_get (rows values.now) row) ≡ Some result }
{
    match values.scalar_at(row) {
        Ok(ScalarView::Signed(number)) => Some(number),
        _ => None,
    }
}

/// Returns the number in a row of a column that has no signed numbers.
pub(crate) fn unsigned_in<A: Allocator + Copy>(values: &ArrayRef<A>, row: usize) -> Option<u64>
    requires unsigned { ¬ IsSignedType (dtype_of values.now) }
    requires within { row < length (rows values.now) }
    ensures { option_map number_in (slice_get (rows values.now) row) ≡ Some (option_map pos result) }
{
    match values.scalar_at(row) {
        Ok(ScalarView::Unsigned(number)) => Some(number),
        _ => None,
    }
}
