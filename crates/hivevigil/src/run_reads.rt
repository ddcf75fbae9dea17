//! Calls that tell of the runs of a run column. None of them takes memory.
#![tactic(auto, using(crate::proofs::ReadEndings::read_empty, crate::proofs::ReadEndings::read_done, crate::proofs::ReadEndings::read_refused))]

ghost use Rattle.std.specs.Prelude.{◌≡◌, ◌≢◌, IsSomeAnd, length, pos};
ghost use Rattle.runend_array.specs.Array.{column_of};
ghost use Rattle.c_columns.specs.Handle.{array_in};
ghost use Rattle.c_columns.specs.ReadFaults.{EndsOnRead};
ghost use Rattle.c_columns.specs.RunParts.{no_runs_fault};
ghost use Rattle.c_columns.specs.RunReads.{AreStopsFrom, EndsOnRun, IsRunCount, IsRunOfRow, IsRunTold, run_of_row_fault, stops_fault};

use c_columns::error_fields::{ErrorFields, NO_COLUMN, refuse, write_answer, write_status};
use c_columns::handle::Handle;
use c_columns::row_value::RowValue;
use c_columns::run_reads;
use std::alloc::Global;

/// Returns how many runs the column stores. Refused as `Unsupported` where it has none.
#[unsafe(no_mangle)]
pub extern "C" fn hv_run_count(
    alloc: Global,
    column: &mut Handle,
    count: &mut usize,
    error: &mut ErrorFields,
) -> i32
    ensures same { column.new.column ≡ column.old.column }
    ensures told { result ≡ pos 0 → IsSomeAnd (array_in column.old.column) (λ c. IsRunCount count.new (column_of c)) }
    ensures kept { result ≢ pos 0 → count.new ≡ count.old }
    ensures ended { EndsOnRead no_runs_fault (array_in column.old.column) result error.new }
{
    let Some(held) = column.take(alloc) else {
        return NO_COLUMN;
    };
    let outcome = run_reads::run_count(&held.array);
    column.put(held);
    write_answer(outcome, count, error)
}

/// Returns the run of a row, from 0. Refused as `Unsupported` where the column has no runs, and then as `OutOfBounds`.
#[unsafe(no_mangle)]
pub extern "C" fn hv_run_of(
    alloc: Global,
    column: &mut Handle,
    row: usize,
    run: &mut usize,
    error: &mut ErrorFields,
) -> i32
    ensures same { column.new.column ≡ column.old.column }
    ensures told { result ≡ pos 0 → IsSomeAnd (array_in column.old.column) (λ c. IsRunOfRow row run.new (column_of c)) }
    ensures kept { result ≢ pos 0 → run.new ≡ run.old }
    ensures ended { EndsOnRead (run_of_row_fault row) (array_in column.old.column) result error.new }
{
    let Some(held) = column.take(alloc) else {
        return NO_COLUMN;
    };
    let outcome = run_reads::run_of_row(&held.array, row);
    column.put(held);
    write_answer(outcome, run, error)
}

/// Returns the rows that a run shows, from `start` to `stop - 1` of the column, and their value. A text or bytes go to
/// the front of `text`. Refused as `run_reads::run_at` says.
#[tactic(auto, using(crate::proofs::RunEndings::run_empty, crate::proofs::RunEndings::run_done, crate::proofs::RunEndings::run_refused))]
#[unsafe(no_mangle)]
pub extern "C" fn hv_run(
    alloc: Global,
    column: &mut Handle,
    run: usize,
    start: &mut usize,
    stop: &mut usize,
    value: &mut RowValue,
    text: &mut [u8],
    error: &mut ErrorFields,
) -> i32
    ensures same { column.new.column ≡ column.old.column }
    ensures told { result ≡ pos 0
        → IsSomeAnd (array_in column.old.column)
        (λ c. IsRunTold run start.new stop.new text.new value.new (column_of c)) }
    ensures kept_start { result ≢ pos 0 → start.new ≡ start.old }
    ensures kept_stop { result ≢ pos 0 → stop.new ≡ stop.old }
    ensures kept_value { result ≢ pos 0 → value.new ≡ value.old }
    ensures kept_text { result ≢ pos 0 → text.new ≡ text.old }
    ensures ended { EndsOnRun run (length text.old) (array_in column.old.column) result error.new }
{
    let Some(held) = column.take(alloc) else {
        return NO_COLUMN;
    };
    let outcome = run_reads::run_at(&held.array, run, text);
    column.put(held);
    match outcome {
        Ok(found) => {
            *start = found.start;
            *stop = found.stop;
            *value = found.value;
            0
        }
        Err(why) => refuse(why, error),
    }
}

/// Where the runs from `first` on stop, as many as there are `stops`, in rows of the column. Refused as
/// `run_reads::read_stops` says.
#[unsafe(no_mangle)]
pub extern "C" fn hv_read_ends_u64(
    alloc: Global,
    column: &mut Handle,
    first: usize,
    stops: &mut [u64],
    error: &mut ErrorFields,
) -> i32
    ensures same { column.new.column ≡ column.old.column }
    ensures told { result ≡ pos 0 →
        IsSomeAnd (array_in column.old.column) (λ c. AreStopsFrom first stops.new (column_of c)) }
    ensures kept { result ≢ pos 0 → stops.new ≡ stops.old }
    ensures ended { EndsOnRead (stops_fault first (length stops.old)) (array_in column.old.column) result error.new }
{
    let Some(held) = column.take(alloc) else {
        return NO_COLUMN;
    };
    let outcome = run_reads::read_stops(&held.array, first, stops);
    column.put(held);
    write_status(outcome, error)
}
