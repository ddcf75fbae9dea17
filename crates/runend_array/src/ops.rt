//! Which run a row is in. Ends and rows count rows, and runs are counted from 0.
ghost use Rattle.std.specs.Prelude.{◌≡◌, ◌+◌, ◌-◌, ◌<◌, ◌≤◌, count_by, length, map, min, nat_le, nat_lt, slice_index, unsigned_abs};
ghost use Rattle.std.specs.List.Sorted.{IsStrictlyIncreasing};
ghost use Rattle.column_base.specs.Numbers.{numbers, ptype_of};
ghost use Rattle.column_base.specs.Types.{IsUnsigned};
ghost use Rattle.runend_windows.specs.Window.{run_at};
ghost use Rattle.runend_array.specs.Array.{column_of};
ghost use Rattle.runend_array.specs.Column.{IsPlainEnds, end_numbers};

use crate::array_ref::ArrayRef;
use column_core::PrimitiveValues;
pub use runend_windows::first_past;
use runend_windows::{ended_before, first_past_of};
use std::alloc::Allocator;

/// Returns the run of a row, over a column of ends: the number of ends at or below the row, or the last run where no
/// run ends past it. The ends are flat, unsigned, strictly increasing, and at least one.
#[tactic(auto, using(runend_windows::proofs::Ends::length_ends_of))]
pub fn find_physical_index<A: Allocator + Copy>(ends: &ArrayRef<A>, index: usize) -> usize
    requires plain { IsPlainEnds (column_of ends.now) }
    requires increasing { IsStrictlyIncreasing (end_numbers (column_of ends.now)) }
    requires some { 0 < length (end_numbers (column_of ends.now)) }
    ensures { result ≡ min (count_by (λ e. nat_le e index) (end_numbers (column_of ends.now)))
        (length (end_numbers (column_of ends.now)) - 1) }
{
    match ends {
        ArrayRef::Primitive(plain) => first_past_of(plain, index).min(plain.len() - 1),
        _ => unreachable!(),
    }
}

/// Returns where a slice that ends before row `index` stops, over a column of ends: one run past those that end below
/// the row, but at most the number of runs. The ends are flat, unsigned, strictly increasing, and at least one.
#[tactic(auto, using(runend_windows::proofs::Ends::length_ends_of))]
pub fn find_slice_end_index<A: Allocator + Copy>(ends: &ArrayRef<A>, index: usize) -> usize
    requires plain { IsPlainEnds (column_of ends.now) }
    requires increasing { IsStrictlyIncreasing (end_numbers (column_of ends.now)) }
    requires some { 0 < length (end_numbers (column_of ends.now)) }
    ensures { result ≡ min (count_by (λ e. nat_lt e index) (end_numbers (column_of ends.now)) + 1)
        (length (end_numbers (column_of ends.now))) }
{
    match ends {
        ArrayRef::Primitive(plain) => ended_before(plain, index)
            .saturating_add(1)
            .min(plain.len()),
        _ => unreachable!(),
    }
}

/// Returns the run of a row as `find_physical_index` does, without a search where it is the first run.
pub(crate) fn run_from_first<A: Allocator + Copy>(ends: &ArrayRef<A>, index: usize) -> usize
    requires plain { IsPlainEnds (column_of ends.now) }
    requires increasing { IsStrictlyIncreasing (end_numbers (column_of ends.now)) }
    requires some { 0 < length (end_numbers (column_of ends.now)) }
    ensures { result ≡ min (count_by (λ e. nat_le e index) (end_numbers (column_of ends.now)))
        (length (end_numbers (column_of ends.now)) - 1) }
{
    if index < end_of_run(ends, 0) {
        return 0;
    }
    find_physical_index(ends, index)
}

/// Returns where a slice that ends before row `index` stops, as `find_slice_end_index` does, without a search where no
/// run ends past the row.
pub(crate) fn slice_end_from_last<A: Allocator + Copy>(ends: &ArrayRef<A>, index: usize) -> usize
    requires plain { IsPlainEnds (column_of ends.now) }
    requires increasing { IsStrictlyIncreasing (end_numbers (column_of ends.now)) }
    requires some { 0 < length (end_numbers (column_of ends.now)) }
    ensures { result ≡ min (count_by (λ e. nat_lt e index) (end_numbers (column_of ends.now)) + 1)
        (length (end_numbers (column_of ends.now))) }
{
    let runs = run_count(ends);
    if end_of_run(ends, runs - 1) <= index {
        return runs;
    }
    find_slice_end_index(ends, index)
}

/// Returns the run of a row, over a column of strictly increasing ends: the first run that ends past it, or the number
/// of runs where none does.
pub(crate) fn run_of<A: Allocator + Copy>(ends: &ArrayRef<A>, row: usize) -> usize
    requires plain { IsPlainEnds (column_of ends.now) }
    requires increasing { IsStrictlyIncreasing (end_numbers (column_of ends.now)) }
    ensures place { result ≡ run_at (end_numbers (column_of ends.now)) row }
    ensures count { result ≡ count_by (λ e. nat_le e row) (end_numbers (column_of ends.now)) }
{
    match ends {
        ArrayRef::Primitive(plain) => first_past_of(plain, row),
        _ => unreachable!(),
    }
}

/// Returns the run of a row, over a column of strictly increasing ends. Goes run by run from `run` on, which is not
/// past it. Some run has to end past the row.
pub(crate) fn run_from<A: Allocator + Copy>(ends: &ArrayRef<A>, run: usize, row: usize) -> usize
    requires plain { IsPlainEnds (column_of ends.now) }
    requires increasing { IsStrictlyIncreasing (end_numbers (column_of ends.now)) }
    requires before { run ≤ run_at (end_numbers (column_of ends.now)) row }
    requires within { run_at (end_numbers (column_of ends.now)) row < length (end_numbers (column_of ends.now)) }
    ensures { result ≡ run_at (end_numbers (column_of ends.now)) row }
{
    for found in run..run_count(ends) {
        if row < end_of_run(ends, found) {
            return found;
        }
    }
    unreachable!()
}

// How many runs there are, over a column of ends.
#[tactic(auto, using(runend_windows::proofs::Ends::length_ends_of))]
fn run_count<A: Allocator + Copy>(ends: &ArrayRef<A>) -> usize
    requires plain { IsPlainEnds (column_of ends.now) }
    ensures { result ≡ length (end_numbers (column_of ends.now)) }
{
    match ends {
        ArrayRef::Primitive(plain) => plain.len(),
        _ => unreachable!(),
    }
}

/// Returns the end of a run, over a column of ends.
pub(crate) fn end_of_run<A: Allocator + Copy>(ends: &ArrayRef<A>, run: usize) -> usize
    requires plain { IsPlainEnds (column_of ends.now) }
    requires within { run < length (end_numbers (column_of ends.now)) }
    ensures { result ≡ slice_index (end_numbers (column_of ends.now)) run }
{
    match ends {
        ArrayRef::Primitive(plain) => end_among(plain.values(), run),
        _ => unreachable!(),
    }
}

// One of the ends as they are stored.
fn end_among<A: Allocator>(ends: &PrimitiveValues<A>, run: usize) -> usize
    requires unsigned { IsUnsigned (ptype_of ends.now) }
    requires within { run < length (map unsigned_abs (numbers ends.now)) }
    ensures { result ≡ slice_index (map unsigned_abs (numbers ends.now)) run }
{
    match ends {
        PrimitiveValues::U8(items) => items[run] as usize,
        PrimitiveValues::U16(items) => items[run] as usize,
        PrimitiveValues::U32(items) => items[run] as usize,
        PrimitiveValues::U64(items) => items[run] as usize,
        _ => unreachable!(),
    }
}
