//! Where neighbouring lists stop being known to be the same: where a run of offsets, sizes or validity ends.
ghost use Rattle.std.specs.Prelude.{◌≡◌, ◌+◌, ◌<◌, length, map, slice_index, unsigned_abs};
ghost use Rattle.column_base.specs.Numbers.{numbers, ptype_of};
ghost use Rattle.column_base.specs.Types.{IsUnsigned};
ghost use Rattle.column_core.specs.PrimitiveForm.{primitive_dtype};
ghost use Rattle.runend_array.specs.Array.{column_of, validity_of};
ghost use Rattle.runend_array.specs.Column.{index_of};
ghost use Rattle.runend_array.specs.Lists.{HasRows, index_at, index_count, list_at, list_count, row_flag_at};
ghost use Rattle.runend_windows.specs.Ends.{IsEndsType, ends_of};
ghost use Rattle.runend_windows.specs.Window.{run_at};
ghost use Rattle.row_stretches.specs.Copies.{StaysUntil};

use column_base::match_each_unsigned;
use column_core::{PrimitiveArray, PrimitiveValues, UnsignedPType};
use runend_array::{
    ArrayRef, ListViewArray, RowValidity, RunEndArray, RunEndArrayExt, RunEndArraySlotsExt,
};
use std::alloc::Allocator;

/// Returns the row before which the list in `row` is known to stay the same: where the first run of its offset, its
/// size or its validity ends; the next row where one of these is not in runs. Takes a search in each.
pub(crate) fn stop_of_lists<A: Allocator + Copy>(lists: &ListViewArray<A>, row: usize) -> usize
    requires { row < list_count lists.now }
    ensures { StaysUntil (list_at lists.now) row result (list_count lists.now) }
{
    let count = lists.len();
    let flags = stop_of_flags(lists.validity(), count, row);
    let offsets = stop_of_index(lists.offsets(), count, row);
    let sizes = stop_of_index(lists.sizes(), count, row);
    flags.min(offsets).min(sizes)
}

// The row before which the number in `row` stays the same, of `count` offsets or sizes.
fn stop_of_index<A: Allocator + Copy>(index: &ArrayRef<A>, count: usize, row: usize) -> usize
    requires counted { index_count (index_of (column_of index.now)) ≡ count }
    requires there { row < count }
    ensures { StaysUntil (index_at (index_of (column_of index.now))) row result count }
{
    match index {
        ArrayRef::RunEnd(runs) => stop_of_run(runs, row),
        _ => row + 1,
    }
}

// The row before which the flag in `row` stays the same, of `count` rows.
fn stop_of_flags<A: Allocator + Copy>(validity: &RowValidity<A>, count: usize, row: usize) -> usize
    requires counted { HasRows (validity_of validity.now) count }
    requires there { row < count }
    ensures { StaysUntil (row_flag_at (validity_of validity.now)) row result count }
{
    match validity {
        RowValidity::Bits(_) => row + 1,
        RowValidity::Runs(runs) => stop_of_run(runs, row),
        _ => count,
    }
}

// The row before which the run of `row` stays the same.
fn stop_of_run<A: Allocator + Copy>(runs: &RunEndArray<A>, row: usize) -> usize
    requires { row < runs.now.count }
    ensures { StaysUntil (λ k. run_at runs.now.ends (runs.now.offset + k)) row result runs.now.count }
{
    match runs.ends() {
        ArrayRef::Primitive(ends) => {
            let end = end_of(ends, runs.find_physical_index(row));
            end.saturating_sub(runs.offset()).min(runs.len())
        }
        // No run column has other ends.
        _ => row + 1,
    }
}

// The row that a run ends before, counted from the first end on.
#[tactic(auto, using(runend_windows::proofs::Ends::length_ends_of))]
fn end_of<A: Allocator>(ends: &PrimitiveArray<A>, run: usize) -> usize
    requires plain { IsEndsType (primitive_dtype ends.now) }
    requires there { run < length (ends_of ends.now) }
    ensures { result ≡ slice_index (ends_of ends.now) run }
{
    end_among(ends.values(), run)
}

// The same for the numbers that the ends are.
#[tactic(auto, using(runend_windows::proofs::Ends::ends_stored))]
fn end_among<A: Allocator>(ends: &PrimitiveValues<A>, run: usize) -> usize
    requires unsigned { IsUnsigned (ptype_of ends.now) }
    requires there { run < length (numbers ends.now) }
    ensures { result ≡ slice_index (map unsigned_abs (numbers ends.now)) run }
{
    match_each_unsigned!(ends, items => end_at(items.as_slice(), run))
}

// The same for ends of one type.
fn end_at<E: UnsignedPType>(ends: &[E], run: usize) -> usize
    requires { run < length ends.now }
    ensures { result ≡ slice_index (map E.natural ends.now) run }
{
    ends[run].to_u64() as usize
}
