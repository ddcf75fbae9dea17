//! The runs of a run column, one by one and many at once. None of this takes memory. A run that the column's window
//! does not reach shows no row: it starts where it stops.
ghost use Rattle.std.specs.Prelude.{◌≡◌, ◌+◌, ◌^◌, ◌<◌, ◌≤◌, ℕ, length, map, slice_index_or, unsigned_abs, IfErr, IfOk, OnErr};
ghost use Rattle.column_base.specs.Numbers.{numbers, ptype_of};
ghost use Rattle.column_base.specs.Types.{IsUnsigned};
ghost use Rattle.column_core.specs.PrimitiveForm.{primitive_dtype};
ghost use Rattle.runend_array.specs.Array.{column_of};
ghost use Rattle.runend_windows.specs.Ends.{IsEndsType, ends_of};
ghost use Rattle.runend_windows.specs.Trimmed.{trimmed_ends};
ghost use Rattle.c_columns.specs.ReadFaults.{IsRefusedOnlyBy};
ghost use Rattle.c_columns.specs.RunParts.{no_runs_fault};
ghost use Rattle.c_columns.specs.RunReads.{AreStopsFrom, IsRunCount, IsRunOfRow, IsRunTold, RunFault, run_of_row_fault, start_of, stop_of, stops_fault};

use crate::questions::row_at;
use crate::row_value::RowValue;
use crate::words::check_range;
use column_base::match_each_unsigned;
use column_core::{PrimitiveArray, PrimitiveValues, UnsignedPType, VortexError, VortexResult};
use runend_array::{ArrayRef, RunEndArray, RunEndArrayExt, RunEndArraySlotsExt};
use std::alloc::Global;
use std::ops::Range;

/// Holds a run: the rows from `start` to `stop - 1` of the column, and the value that they show.
#[derive(Clone, Copy)]
pub struct Run {
    pub start: usize,
    pub stop: usize,
    pub value: RowValue,
}

/// Returns how many runs are stored. Refused as `Unsupported` unless it is a run column.
pub fn run_count(array: &ArrayRef<Global>) -> VortexResult<usize>
    ensures count { IfOk result (λ count. IsRunCount count (column_of array.now)) }
    ensures refused { IsRefusedOnlyBy (no_runs_fault (column_of array.now)) result }
{
    match array {
        ArrayRef::RunEnd(runs) => Ok(runs.values().len()),
        _ => Err(VortexError::Unsupported),
    }
}

/// Returns the run of a row. Refused as `Unsupported` unless it is a run column, and as `OutOfBounds` where it does not
/// have the row.
#[tactic(auto, using(crate::proofs::RunsTold::some_run))]
pub fn run_of_row(array: &ArrayRef<Global>, row: usize) -> VortexResult<usize>
    ensures run { IfOk result (λ run. IsRunOfRow row run (column_of array.now)) }
    ensures refused { IsRefusedOnlyBy (run_of_row_fault row (column_of array.now)) result }
{
    let ArrayRef::RunEnd(runs) = array else {
        return Err(VortexError::Unsupported);
    };
    if row >= runs.len() {
        return Err(VortexError::OutOfBounds {
            index: row as i128,
            length: runs.len(),
        });
    }
    // Read for what holds of runs: where there is a row, there is one.
    let _ends = runs.ends();
    Ok(runs.find_physical_index(row))
}

/// Returns a run by its number, from 0. A text or bytes go to the front of `text`. Refused as `Unsupported` unless it
/// is a run column, and then as the look-up of this row of its values is.
#[tactic(auto, using(crate::proofs::RunsTold::run_told, crate::proofs::RunsTold::run_refused, crate::proofs::RunsTold::run_there))]
pub fn run_at(array: &ArrayRef<Global>, run: usize, text: &mut [u8]) -> VortexResult<Run>
    ensures told { IfOk result (λ told. IsRunTold run told.start told.stop text.new told.value (column_of array.now)) }
    ensures refused { IfErr result (λ error. RunFault run (length text.old) (column_of array.now) error) }
    ensures kept { OnErr result (text.new ≡ text.old) }
    ensures len { length text.new ≡ length text.old }
{
    let ArrayRef::RunEnd(runs) = array else {
        return Err(VortexError::Unsupported);
    };
    let value = row_at(runs.values(), run, text)?;
    let rows = rows_of_run(runs, run);
    Ok(Run {
        start: rows.start,
        stop: rows.end,
        value,
    })
}

/// Writes before which row each run stops, from run `first` on, as many as there are `stops`. Refused as `Unsupported`
/// unless it is a run column, and as `BadRange` where there are fewer runs.
pub fn read_stops(array: &ArrayRef<Global>, first: usize, stops: &mut [u64]) -> VortexResult<()>
    ensures stops { IfOk result (λ _. AreStopsFrom first stops.new (column_of array.now)) }
    ensures refused { IsRefusedOnlyBy (stops_fault first (length stops.old) (column_of array.now)) result }
    ensures kept { OnErr result (stops.new ≡ stops.old) }
    ensures len { length stops.new ≡ length stops.old }
{
    let ArrayRef::RunEnd(runs) = array else {
        return Err(VortexError::Unsupported);
    };
    check_range(first, stops.len(), runs.values().len())?;
    put_stops(runs, first, stops);
    Ok(())
}

// Where the runs from `first` on stop.
fn put_stops(runs: &RunEndArray<Global>, first: usize, stops: &mut [u64])
    requires there { first + length stops.old ≤ length runs.now.ends }
    requires numbered { first + length stops.old < 2 ^ 64 }
    ensures len { length stops.new ≡ length stops.old }
    ensures each { (k : ℕ) → k < length stops.new → slice_index_or stops.new k 0 ≡ stop_of runs.now (first + k) }
{
    for run in 0..stops.len() {
        stops[run] = stop_of_run(runs, first + run) as u64;
    }
}

/// Returns the rows that a run shows.
pub(crate) fn rows_of_run(runs: &RunEndArray<Global>, run: usize) -> Range<usize>
    requires { run < length runs.now.ends }
    ensures start { result.start ≡ start_of runs.now run }
    ensures stop { result.end ≡ stop_of runs.now run }
{
    let stop = stop_of_run(runs, run);
    match run.checked_sub(1) {
        Some(before) => stop_of_run(runs, before)..stop,
        None => 0..stop,
    }
}

// Where a run stops.
fn stop_of_run(runs: &RunEndArray<Global>, run: usize) -> usize
    requires { run < length runs.now.ends }
    ensures { result ≡ stop_of runs.now run }
{
    match runs.ends() {
        ArrayRef::Primitive(ends) => stop_in(ends, run, runs.offset(), runs.len()),
        _ => unreachable!(),
    }
}

// Where a run stops in a window of `count` rows from row `offset` on.
#[tactic(auto, using(runend_windows::proofs::Ends::length_ends_of))]
fn stop_in(ends: &PrimitiveArray<Global>, run: usize, offset: usize, count: usize) -> usize
    requires plain { IsEndsType (primitive_dtype ends.now) }
    requires there { run < length (ends_of ends.now) }
    ensures { result ≡ slice_index_or (trimmed_ends (ends_of ends.now) offset count) run 0 }
{
    stop_among(ends.values(), run, offset, count)
}

#[tactic(auto, using(runend_windows::proofs::Ends::ends_stored))]
fn stop_among(ends: &PrimitiveValues<Global>, run: usize, offset: usize, count: usize) -> usize
    requires unsigned { IsUnsigned (ptype_of ends.now) }
    requires there { run < length (numbers ends.now) }
    ensures { result ≡ slice_index_or (trimmed_ends (map unsigned_abs (numbers ends.now)) offset count) run 0 }
{
    match_each_unsigned!(ends, items => trimmed_at(items.as_slice(), run, offset, count))
}

#[tactic(auto, using(crate::proofs::RunsTold::stops_at))]
fn trimmed_at<E: UnsignedPType>(ends: &[E], run: usize, offset: usize, count: usize) -> usize
    requires { run < length ends.now }
    ensures { result ≡ slice_index_or (trimmed_ends (map E.natural ends.now) offset count) run 0 }
{
    let position = (ends[run].to_u64() as usize).saturating_sub(offset);
    position.min(count)
}
