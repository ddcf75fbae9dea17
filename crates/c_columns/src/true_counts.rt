//! How many rows of a column of booleans are true. Runs are counted run by run: no bit is made for a row.
ghost use Rattle.std.specs.Prelude.{◌≡◌, ◌<◌, length, IfOk};
ghost use Rattle.column_core.specs.Refusal.{IsRefusedBy};
ghost use Rattle.runend_array.specs.Array.{dtype_of, rows};
ghost use Rattle.runend_array.specs.Column.{column_of_runs, column_rows};
ghost use Rattle.runend_select.specs.MaskRuns.{mask_fault};
ghost use Rattle.c_columns.specs.TwoColumns.{true_rows, true_rows_in};

use crate::masks::{is_selected, mask_of};
use crate::run_reads::rows_of_run;
use column_core::{DType, VortexError, VortexResult};
use runend_array::{ArrayRef, RunEndArray, RunEndArrayExt, RunEndArraySlotsExt};
use std::alloc::Global;

/// Counts the rows that are true; null is not true. Runs and constants take no memory. Refused as `TypeMismatch` unless
/// the rows are booleans, else only for memory.
pub fn true_count(alloc: Global, array: &ArrayRef<Global>) -> VortexResult<usize>
    ensures count { IfOk result (λ count. count ≡ true_rows (rows array.now)) }
    ensures refused { IsRefusedBy (mask_fault (dtype_of array.now)) result }
{
    let ArrayRef::RunEnd(runs) = array else {
        let mask = mask_of(alloc, array)?;
        let count = mask.true_count();
        drop(mask);
        return Ok(count);
    };
    match runs.dtype() {
        DType::Bool(_) => Ok(true_rows_of_runs(runs)),
        _ => Err(VortexError::TypeMismatch),
    }
}

// How many rows of runs are true: each run that shows a row is looked at once.
#[tactic(auto, using(crate::proofs::TrueCounts::counted_none, crate::proofs::TrueCounts::counted_next, crate::proofs::TrueCounts::counted_all, crate::proofs::TrueCounts::counted_small))]
fn true_rows_of_runs(runs: &RunEndArray<Global>) -> usize
    ensures { result ≡ true_rows (column_rows (column_of_runs runs.now)) }
{
    let visible = runs.visible_runs();
    let mut count = 0;
    for run in visible.start..visible.end {
        count += true_rows_of_run(runs, run);
    }
    count
}

// How many rows show a run, where its value is true, and else none.
fn true_rows_of_run(runs: &RunEndArray<Global>, run: usize) -> usize
    requires { run < length runs.now.ends }
    ensures { result ≡ true_rows_in runs.now run }
{
    let rows = rows_of_run(runs, run);
    match runs.values().scalar_at(run) {
        Ok(value) if is_selected(value) => rows.end.saturating_sub(rows.start),
        _ => 0,
    }
}
