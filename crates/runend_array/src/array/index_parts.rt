//! Ranges of rows of run columns over flat u64 and booleans: the offsets, sizes and validities of lists.
ghost use Rattle.std.specs.Prelude.{◌≡◌, ◌+◌, ◌-◌, ◌≤◌, length, IfOk, IsOkUnless};
ghost use Rattle.runend_array.specs.Array.{column_of};
ghost use Rattle.runend_array.specs.Column.{IsPlainIndex, IsPlainTruths, column_of_runs, column_rows, index_of, runs_validity, runs_with};
ghost use Rattle.runend_array.specs.ListSlice.{IsIndexInRange, IsValidityInRange, position_of};
ghost use Rattle.runend_array.specs.RowRuns.{first_visible, stop_visible};
ghost use Rattle.runend_windows.specs.Visible.{visible};
ghost use Rattle.runend_windows.specs.Window.{IsWindow};

use super::{RunEnd, RunEndArray};
use crate::array_ref::ArrayRef;
use crate::lists::{plain_numbers_between, plain_truths_between};
use column_core::{
    BoolArray, PrimitiveArray, PrimitiveValues, Validity, VortexError, VortexResult,
};
use std::alloc::Allocator;
use std::ops::Range;

impl<A: Allocator + Copy> RunEndArray<A> {
    /// Returns the rows from `start` to `stop - 1` of a run column over flat u64 without null, in the runs that
    /// show them. Refused only as `OutOfMemory`.
    pub(crate) fn index_between(
        &self,
        alloc: A,
        start: usize,
        stop: usize,
    ) -> VortexResult<RunEndArray<A>>
        requires plain { IsPlainIndex self.now.values }
        requires ordered { start ≤ stop }
        requires in_bounds { stop ≤ self.now.count }
        ensures only { IsOkUnless result VortexError.OutOfMemory }
        ensures index { IfOk result (λ part. IsPlainIndex part.values) }
        ensures form { IfOk result (λ part.
            IsIndexInRange (index_of (column_of_runs self.now)) start stop (index_of (column_of_runs part))) }
    {
        let runs = self.runs_showing(start, stop);
        let numbers = plain_numbers_between(alloc, &self.values, runs.start, runs.end)?;
        let numbers = PrimitiveValues::U64(numbers);
        let values = PrimitiveArray::new_unchecked(numbers, Validity::NonNullable);
        let part = self.runs_over(alloc, runs, start, stop, ArrayRef::Primitive(values))?;
        Ok(part)
    }

    /// Returns the rows from `start` to `stop - 1` of a run column over flat booleans without null, in the runs
    /// that show them. Refused only as `OutOfMemory`.
    pub(crate) fn flags_in_range(
        &self,
        alloc: A,
        start: usize,
        stop: usize,
    ) -> VortexResult<RunEndArray<A>>
        requires plain { IsPlainTruths self.now.values }
        requires ordered { start ≤ stop }
        requires in_bounds { stop ≤ self.now.count }
        ensures only { IsOkUnless result VortexError.OutOfMemory }
        ensures truths { IfOk result (λ part. IsPlainTruths part.values) }
        ensures form { IfOk result (λ part.
            IsValidityInRange (runs_validity self.now) start stop (runs_validity part)) }
    {
        let runs = self.runs_showing(start, stop);
        let bits = plain_truths_between(alloc, &self.values, runs.start, runs.end)?;
        let values = BoolArray::new_unchecked(bits, Validity::NonNullable);
        let part = self.runs_over(alloc, runs, start, stop, ArrayRef::Bool(values))?;
        Ok(part)
    }

    // The runs of the rows from `start` to `stop - 1`, and `0..0` where there is none.
    fn runs_showing(&self, start: usize, stop: usize) -> Range<usize>
        requires ordered { start ≤ stop }
        requires in_bounds { stop ≤ self.now.count }
        ensures first { result.start ≡ first_visible self.now.ends (self.now.offset + start) (stop - start) }
        ensures stop { result.end ≡ stop_visible self.now.ends (self.now.offset + start) (stop - start) }
        ensures ordered { result.start ≤ result.end }
        ensures in_bounds { result.end ≤ length self.now.ends }
        ensures window { IsWindow (visible self.now.ends (self.now.offset + start) (stop - start) self.now.ends)
            (position_of (stop - start) (self.now.offset + start)) (stop - start) }
    {
        if start == stop {
            return 0..0;
        }
        self.runs_of_rows(start, stop)
    }

    // These runs, with a value for each, and the rows from `start` to `stop - 1`, which they show.
    fn runs_over(
        &self,
        alloc: A,
        runs: Range<usize>,
        start: usize,
        stop: usize,
        values: ArrayRef<A>,
    ) -> VortexResult<RunEndArray<A>>
        requires first { runs.start ≡ first_visible self.now.ends (self.now.offset + start) (stop - start) }
        requires stop { runs.end ≡ stop_visible self.now.ends (self.now.offset + start) (stop - start) }
        requires ordered { runs.start ≤ runs.end }
        requires in_bounds { runs.end ≤ length self.now.ends }
        requires rows { start ≤ stop }
        requires within { stop ≤ self.now.count }
        requires window { IsWindow (visible self.now.ends (self.now.offset + start) (stop - start) self.now.ends)
            (position_of (stop - start) (self.now.offset + start)) (stop - start) }
        requires paired { length (column_rows (column_of values)) ≡ runs.end - runs.start }
        ensures only { IsOkUnless result VortexError.OutOfMemory }
        ensures form { IfOk result (λ part. part ≡ runs_with self.now.ends_type
            (visible self.now.ends (self.now.offset + start) (stop - start) self.now.ends) (column_of values)
            (position_of (stop - start) (self.now.offset + start)) (stop - start)) }
    {
        let ends = match self.ends_between(alloc, runs.start, runs.end) {
            Ok(ends) => ArrayRef::Primitive(ends),
            Err(error) => {
                drop(values);
                return Err(error);
            }
        };
        let offset = self.position_of(start, stop);
        Ok(RunEnd::new_unchecked(ends, values, offset, stop - start))
    }

    // Where the window of the rows from `start` to `stop - 1` begins: 0 where there is none.
    fn position_of(&self, start: usize, stop: usize) -> usize
        requires ordered { start ≤ stop }
        requires in_bounds { stop ≤ self.now.count }
        ensures { result ≡ position_of (stop - start) (self.now.offset + start) }
    {
        if start == stop {
            return 0;
        }
        self.offset + start
    }
}
