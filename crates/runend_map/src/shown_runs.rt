//! The visible runs of a run column, for walks along them.
ghost use Rattle.std.specs.Prelude.{◌≡◌, ◌<◌, ◌-◌, length, map, slice_index, unsigned_abs, IfOk, IsOkUnless};
ghost use Rattle.column_base.specs.Numbers.{numbers, ptype_of};
ghost use Rattle.column_base.specs.Types.{IsUnsigned};
ghost use Rattle.column_core.specs.FlatColumn.{leaf_of};
ghost use Rattle.column_core.specs.Leaf.{leaf_dtype};
ghost use Rattle.column_core.specs.PrimitiveForm.{primitive_dtype};
ghost use Rattle.column_core.specs.Value.{IsLists};
ghost use Rattle.runend_array.specs.Column.{column_dtype, column_of_runs, column_rows};
ghost use Rattle.runend_map.specs.ShownRuns.{AreShownRuns, rows_shown, stop_of_run};
ghost use Rattle.runend_windows.specs.Ends.{IsEndsType, ends_of};

use column_base::match_each_unsigned;
use column_core::{
    FlatColumn, PrimitiveArray, PrimitiveValues, UnsignedPType, VortexError, VortexResult,
};
use runend_array::RunEndArray;
use runend_column::{ends_of_visible, visible_offset, visible_values};
use std::alloc::Allocator;

/// Holds the visible runs of a run column: their ends, the position of the first row, and a value for each.
#[derive(Drop)]
pub(crate) struct ShownRuns<A: Allocator> {
    pub(crate) ends: PrimitiveArray<A>,
    pub(crate) offset: usize,
    pub(crate) values: FlatColumn<A>,
}

impl<A: Allocator + Copy> ShownRuns<A> {
    /// Returns the visible runs of this column; shares ends and flat values if they are shared. Refused only as
    /// `OutOfMemory`.
    pub(crate) fn of(alloc: A, array: &RunEndArray<A>) -> VortexResult<ShownRuns<A>>
        requires single { ¬ IsLists (column_dtype array.now.values) }
        ensures only { IsOkUnless result VortexError.OutOfMemory }
        ensures shown { IfOk result (λ shown.
            AreShownRuns shown.ends shown.offset (leaf_of shown.values) array.now.count) }
        ensures rows { IfOk result (λ shown. rows_shown shown.ends shown.offset (leaf_of shown.values) array.now.count ≡
            column_rows (column_of_runs array.now)) }
        ensures dtype { IfOk result (λ shown. leaf_dtype (leaf_of shown.values) ≡ column_dtype array.now.values) }
    {
        let values = visible_values(alloc, array)?;
        let ends = match ends_of_visible(alloc, array) {
            Ok(ends) => ends,
            Err(error) => {
                drop(values);
                return Err(error);
            }
        };
        let offset = visible_offset(array);
        Ok(ShownRuns {
            ends,
            offset,
            values,
        })
    }

    /// Returns the row that a run ends before, counted from the first row. It may be past the last row.
    pub(crate) fn stop(&self, run: usize) -> usize
        requires plain { IsEndsType (primitive_dtype self.now.ends) }
        requires there { run < length (ends_of self.now.ends) }
        ensures stop { result ≡ stop_of_run self.now.ends self.now.offset run }
        ensures bounded { run < usize.MAX }
    {
        stop_in(&self.ends, run, self.offset)
    }
}

// The row that a run ends before, counted from the row at position `offset`.
#[tactic(auto, using(runend_windows::proofs::Ends::length_ends_of))]
fn stop_in<A: Allocator + Copy>(ends: &PrimitiveArray<A>, run: usize, offset: usize) -> usize
    requires plain { IsEndsType (primitive_dtype ends.now) }
    requires there { run < length (ends_of ends.now) }
    ensures stop { result ≡ stop_of_run ends.now offset run }
    ensures bounded { run < usize.MAX }
{
    stop_among(ends.values(), run, offset)
}

// The same for the numbers that the ends are.
#[tactic(auto, using(runend_windows::proofs::Ends::ends_stored))]
fn stop_among<A: Allocator + Copy>(ends: &PrimitiveValues<A>, run: usize, offset: usize) -> usize
    requires unsigned { IsUnsigned (ptype_of ends.now) }
    requires there { run < length (numbers ends.now) }
    ensures stop { result ≡ slice_index (map unsigned_abs (numbers ends.now)) run - offset }
    ensures bounded { run < usize.MAX }
{
    match_each_unsigned!(ends, items => stop_at(items.as_slice(), run, offset))
}

// The same for ends of one type.
fn stop_at<E: UnsignedPType>(ends: &[E], run: usize, offset: usize) -> usize
    requires { run < length ends.now }
    ensures stop { result ≡ slice_index (map E.natural ends.now) run - offset }
    ensures bounded { run < usize.MAX }
{
    (ends[run].to_u64() as usize).saturating_sub(offset)
}
