//! The runs of a column of any form, for walks along them.
ghost use Rattle.std.specs.Prelude.{◌≡◌, ◌≢◌, ◌+◌, ◌<◌, length, IfOk, IsOkUnless};
ghost use Rattle.column_core.specs.FlatColumn.{leaf_of};
ghost use Rattle.column_core.specs.Leaf.{leaf_dtype};
ghost use Rattle.column_core.specs.PrimitiveForm.{primitive_dtype};
ghost use Rattle.column_core.specs.Value.{IsLists};
ghost use Rattle.runend_array.specs.Array.{dtype_of, rows};
ghost use Rattle.runend_array.specs.Column.{column_dtype, column_of_runs, column_rows};
ghost use Rattle.runend_windows.specs.Ends.{IsEndsType, ends_of};
ghost use Rattle.runend_pairs.specs.Runs.{AreColumnRuns, rows_in, stop_of};

use crate::ends::end_of;
use column_core::{FlatColumn, PrimitiveArray, VortexError, VortexResult};
use runend_array::{ArrayRef, RunEndArray};
use runend_builder::row_runs;
use runend_column::{ends_of_visible, visible_offset, visible_values};
use std::alloc::Allocator;

/// Shows the rows of a column by runs: where each ends, the position of the first row, and a value for each run.
#[derive(Drop)]
pub(crate) struct ColumnRuns<A: Allocator> {
    pub(crate) ends: PrimitiveArray<A>,
    pub(crate) offset: usize,
    pub(crate) values: FlatColumn<A>,
}

impl<A: Allocator + Copy> ColumnRuns<A> {
    /// Returns the runs of a column of any form: the visible runs of a run column, whose ends and flat values it shares
    /// if they are shared; the one run of a constant; the runs of equal rows of a flat column. Refused only as
    /// `OutOfMemory`.
    pub(crate) fn of(alloc: A, array: &ArrayRef<A>) -> VortexResult<ColumnRuns<A>>
        requires single { ¬ IsLists (dtype_of array.now) }
        ensures only { IsOkUnless result VortexError.OutOfMemory }
        ensures runs { IfOk result (λ runs.
            AreColumnRuns runs.ends runs.offset (leaf_of runs.values) (length (rows array.now))) }
        ensures rows { IfOk result (λ runs. rows_in runs.ends runs.offset (leaf_of runs.values)
            (length (rows array.now)) ≡ rows array.now) }
        ensures dtype { IfOk result (λ runs. leaf_dtype (leaf_of runs.values) ≡ dtype_of array.now) }
    {
        match array {
            ArrayRef::RunEnd(runs) => ColumnRuns::of_runs(alloc, runs),
            _ => ColumnRuns::of_encoding(alloc, array),
        }
    }

    // The runs of the encoding of a column.
    fn of_encoding(alloc: A, array: &ArrayRef<A>) -> VortexResult<ColumnRuns<A>>
        requires single { ¬ IsLists (dtype_of array.now) }
        ensures only { IsOkUnless result VortexError.OutOfMemory }
        ensures runs { IfOk result (λ runs.
            AreColumnRuns runs.ends runs.offset (leaf_of runs.values) (length (rows array.now))) }
        ensures rows { IfOk result (λ runs. rows_in runs.ends runs.offset (leaf_of runs.values)
            (length (rows array.now)) ≡ rows array.now) }
        ensures dtype { IfOk result (λ runs. leaf_dtype (leaf_of runs.values) ≡ dtype_of array.now) }
    {
        let (ends, values) = row_runs(alloc, array)?;
        Ok(ColumnRuns {
            ends,
            offset: 0,
            values,
        })
    }

    // The visible runs of a run column.
    fn of_runs(alloc: A, array: &RunEndArray<A>) -> VortexResult<ColumnRuns<A>>
        requires single { ¬ IsLists (column_dtype array.now.values) }
        ensures only { IsOkUnless result VortexError.OutOfMemory }
        ensures runs { IfOk result (λ runs. AreColumnRuns runs.ends runs.offset (leaf_of runs.values)
            (length (column_rows (column_of_runs array.now)))) }
        ensures rows { IfOk result (λ runs. rows_in runs.ends runs.offset (leaf_of runs.values)
            (length (column_rows (column_of_runs array.now))) ≡ column_rows (column_of_runs array.now)) }
        ensures dtype { IfOk result (λ runs. leaf_dtype (leaf_of runs.values) ≡ column_dtype array.now.values) }
    {
        let values = visible_values(alloc, array)?;
        let ends = match ends_of_visible(alloc, array) {
            Ok(ends) => ends,
            Err(error) => {
                drop(values);
                return Err(error);
            }
        };
        let offset = visible_offset(array);
        Ok(ColumnRuns {
            ends,
            offset,
            values,
        })
    }

    /// Returns the row that a run ends before, counted from the first row. It may be past the last row.
    pub(crate) fn stop(&self, run: usize) -> usize
        requires plain { IsEndsType (primitive_dtype self.now.ends) }
        requires there { run < length (ends_of self.now.ends) }
        ensures stop { result ≡ stop_of self.now.ends self.now.offset run }
        ensures bounded { run < usize.MAX }
    {
        stop_in(&self.ends, run, self.offset)
    }
}

/// Returns the run of the row `row`, where `run` is the run of the row before it, and stops before row `stop`: the next
/// run where `run` stops there, by a sum in place of a branch.
#[inline(always)]
pub(crate) fn run_after(run: usize, stop: usize, row: usize) -> usize
    requires { run < usize.MAX }
    ensures ended { stop ≡ row → result ≡ run + 1 }
    ensures going { stop ≢ row → result ≡ run }
{
    run + usize::from(stop == row)
}

/// Returns the row that a run ends before, counted from the row at position `offset`.
pub(crate) fn stop_in<A: Allocator + Copy>(
    ends: &PrimitiveArray<A>,
    run: usize,
    offset: usize,
) -> usize
    requires plain { IsEndsType (primitive_dtype ends.now) }
    requires there { run < length (ends_of ends.now) }
    ensures stop { result ≡ stop_of ends.now offset run }
    ensures bounded { run < usize.MAX }
{
    end_of(ends, run).saturating_sub(offset)
}
