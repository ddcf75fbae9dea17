//! The rows of a run column, and its runs.
ghost use Rattle.std.specs.Prelude.{◌≡◌, ◌+◌, ◌-◌, ◌<◌, ◌≤◌, ◌↔◌, Some, pos, length, slice_get, IsTrue, IfOk, IsErrOf, IsOkUnless, slice_range};
ghost use Rattle.column_core.specs.PrimitiveForm.{primitive_dtype};
ghost use Rattle.runend_windows.specs.Ends.{IsEndsType, ends_of};
ghost use Rattle.column_core.specs.ScalarView.{sees, IsViewOf};
ghost use Rattle.runend_array.specs.Array.{IsRowValidity, column_of, rows, validity_of};
ghost use Rattle.runend_array.specs.RowFlags.{IsValidityForm, IsValidityOf};
ghost use Rattle.runend_windows.specs.Visible.{visible};
ghost use Rattle.runend_windows.specs.Window.{IsWindow};
ghost use Rattle.runend_array.specs.Column.{AreRuns, IsPlainEnds, column_dtype, column_of_runs, column_rows, end_numbers, end_ptype};
ghost use Rattle.runend_array.specs.Canonical.{IsFlatPart, canonical_column};
ghost use Rattle.runend_array.specs.RowRuns.{first_run, first_visible, last_run, stop_visible};
ghost use Rattle.runend_array.specs.Encoding.{IsComputedFlat};

use super::{RunEndArray, plain_ends};
use crate::array_ref::{ArrayRef, out_of_bounds};
use crate::canonical::Canonical;
use crate::copies::Buffers;
use crate::lists::run_validity_of_lists;
use crate::ops;
use crate::session::ExecutionCtx;
use crate::validities::RowValidity;
use column_core::{DType, PrimitiveArray, ScalarView, VortexError, VortexResult};
use std::alloc::Allocator;
use std::ops::Range;

impl<A: Allocator + Copy> RunEndArray<A> {
    /// Returns how many rows there are.
    pub fn len(&self) -> usize
        ensures { result ≡ self.now.count }
    {
        self.length
    }

    /// Returns whether the column has no rows.
    pub fn is_empty(&self) -> bool
        ensures { IsTrue result ↔ (self.now.count ≡ 0) }
    {
        self.length == 0
    }

    #[cycle(dtype)]
    pub(crate) fn values_dtype(&self) -> DType
        ensures { result ≡ column_dtype self.now.values }
    {
        self.values.dtype()
    }

    /// Returns the row at `index`, borrowed from the column. Refused as `OutOfBounds`, with the index and the number of
    /// rows, exactly from that number on. Takes no memory.
    #[cycle(scalar_at)]
    pub fn row_at(&self, index: usize) -> VortexResult<ScalarView<'_, A>>
        ensures row { IfOk result (λ view. slice_get (column_rows (column_of_runs self.now)) index ≡ Some (sees view)) }
        ensures of_type { IfOk result (λ view. IsViewOf (column_dtype self.now.values) view) }
        ensures refused { IsErrOf result (VortexError.OutOfBounds (pos index) self.now.count) ↔
            (self.now.count ≤ index) }
        ensures only { IsOkUnless result (VortexError.OutOfBounds (pos index) self.now.count) }
    {
        if index >= self.length {
            return Err(out_of_bounds(index, self.length));
        }
        let run = ops::run_of(&self.ends, self.offset + index);
        match self.values.scalar_at(run) {
            Ok(view) => Ok(view),
            Err(_) => unreachable!(),
        }
    }

    /// Returns a run column that is equal in form. Shares the buffers that are shared, and copies the others. Refused
    /// only as `OutOfMemory`.
    pub fn try_clone(&self, ctx: &mut ExecutionCtx<A>) -> VortexResult<RunEndArray<A>>
        ensures only { IsOkUnless result VortexError.OutOfMemory }
        ensures form { IfOk result (λ array. array ≡ self.now) }
        ensures session { ctx.new ≡ ctx.old }
    {
        self.clone_in(*ctx.allocator(), Buffers::Shared)
    }

    #[cycle(clone_in)]
    pub(crate) fn clone_in(&self, alloc: A, buffers: Buffers) -> VortexResult<RunEndArray<A>>
        ensures only { IsOkUnless result VortexError.OutOfMemory }
        ensures form { IfOk result (λ array. array ≡ self.now) }
    {
        let ends = self.ends.clone_in(alloc, buffers)?;
        let values = match self.values.clone_in(alloc, buffers) {
            Ok(values) => values,
            Err(error) => {
                drop(ends);
                return Err(error);
            }
        };
        Ok(RunEndArray {
            ends,
            values,
            offset: self.offset,
            length: self.length,
        })
    }

    #[cycle(canonicalize_in)]
    pub(crate) fn canonicalize_in(
        &self,
        alloc: A,
        prefill_runs: usize,
    ) -> VortexResult<Canonical<A>>
        ensures only { IsOkUnless result VortexError.OutOfMemory }
        ensures rows { IfOk result (λ flat. column_rows (canonical_column flat) ≡
            column_rows (column_of_runs self.now)) }
        ensures dtype { IfOk result (λ flat. column_dtype (canonical_column flat) ≡ column_dtype self.now.values) }
        ensures form { IfOk result (λ flat. IsComputedFlat (canonical_column flat)) }
    {
        let Some(ends) = plain_ends(&self.ends) else {
            unreachable!()
        };
        self.values
            .decode_with(alloc, ends, self.offset, self.length, prefill_runs)
    }

    /// Returns the runs of the rows from `start` to `stop - 1`, of which there has to be one at least: from the run of
    /// the first row to one past the run of the last.
    pub fn runs_of_rows(&self, start: usize, stop: usize) -> Range<usize>
        requires some { start < stop }
        requires within { stop ≤ self.now.count }
        ensures first { result.start ≡ first_run self.now start }
        ensures last { result.end ≡ last_run self.now stop + 1 }
        ensures ordered { result.start < result.end }
        ensures in_bounds { result.end ≤ length self.now.ends }
        ensures window { IsWindow (slice_range self.now.ends result.start result.end) (self.now.offset + start)
            (stop - start) }
    {
        let first = ops::run_from_first(&self.ends, self.offset + start);
        let stop = ops::slice_end_from_last(&self.ends, self.offset + stop);
        first..stop
    }

    /// Returns the visible runs: from the run of the first row to one past the run of the last, and `0..0` without
    /// rows.
    pub fn visible_runs(&self) -> Range<usize>
        ensures first { result.start ≡ first_visible self.now.ends self.now.offset self.now.count }
        ensures stop { result.end ≡ stop_visible self.now.ends self.now.offset self.now.count }
        ensures ordered { result.start ≤ result.end }
        ensures in_bounds { result.end ≤ length self.now.ends }
        ensures ends { slice_range self.now.ends result.start result.end ≡
            visible self.now.ends self.now.offset self.now.count self.now.ends }
        ensures values { slice_range (column_rows self.now.values) result.start result.end ≡
            visible self.now.ends self.now.offset self.now.count (column_rows self.now.values) }
        ensures valid { AreRuns self.now }
    {
        if self.length == 0 {
            return 0..0;
        }
        self.runs_of_rows(0, self.length)
    }

    /// Returns the ends of the runs from `first` to `stop - 1`. Refused only as `OutOfMemory`.
    pub fn ends_between(
        &self,
        alloc: A,
        first: usize,
        stop: usize,
    ) -> VortexResult<PrimitiveArray<A>>
        requires ordered { first ≤ stop }
        requires in_bounds { stop ≤ length self.now.ends }
        ensures only { IsOkUnless result VortexError.OutOfMemory }
        ensures plain { IfOk result (λ part. IsEndsType (primitive_dtype part)) }
        ensures ends { IfOk result (λ part. ends_of part ≡ slice_range self.now.ends first stop) }
        ensures typed { IfOk result (λ part. part.ptype ≡ self.now.ends_type) }
    {
        ends_in(alloc, &self.ends, first, stop)
    }

    // The rows from `start` to `stop - 1`, of which there has to be one at least. Writes only the values of their runs.
    #[cycle(rows_between)]
    pub(crate) fn rows_between(
        &self,
        alloc: A,
        start: usize,
        stop: usize,
    ) -> VortexResult<Canonical<A>>
        requires some { start < stop }
        requires within { stop ≤ self.now.count }
        ensures only { IsOkUnless result VortexError.OutOfMemory }
        ensures part { IfOk result (λ flat. IsFlatPart (column_of_runs self.now) start stop (canonical_column flat)) }
    {
        let runs = self.runs_of_rows(start, stop);
        let ends = self.ends_between(alloc, runs.start, runs.end)?;
        let values = match self.values.rows_between(alloc, runs.start, runs.end) {
            Ok(values) => values,
            Err(error) => {
                drop(ends);
                return Err(error);
            }
        };
        // No session is known here; by default booleans are prefilled from 0 runs on.
        let made = values.decode_with(alloc, &ends, self.offset + start, stop - start, 0);
        drop(ends);
        let rows = made?;
        Ok(rows)
    }

    /// Returns which rows are valid. Refused only as `OutOfMemory`.
    #[cycle(run_validity)]
    pub fn run_validity(&self, alloc: A) -> VortexResult<RowValidity<A>>
        ensures only { IsOkUnless result VortexError.OutOfMemory }
        ensures rows { IfOk result (λ rows. IsValidityOf (column_of_runs self.now) (validity_of rows)) }
        ensures form { IfOk result (λ rows. IsValidityForm (column_of_runs self.now) (validity_of rows)) }
        ensures plain { IfOk result (λ rows. IsRowValidity rows) }
    {
        let values = self.values.run_validity(alloc)?;
        let Some(ends) = plain_ends(&self.ends) else {
            unreachable!()
        };
        let shown = run_validity_of_lists(alloc, ends, &values, self.offset, self.length);
        drop(values);
        shown
    }
}

// The ends from the run `first` to the run `stop - 1`.
fn ends_in<A: Allocator + Copy>(
    alloc: A,
    ends: &ArrayRef<A>,
    first: usize,
    stop: usize,
) -> VortexResult<PrimitiveArray<A>>
    requires plain { IsPlainEnds (column_of ends.now) }
    requires ordered { first ≤ stop }
    requires in_bounds { stop ≤ length (end_numbers (column_of ends.now)) }
    ensures only { IsOkUnless result VortexError.OutOfMemory }
    ensures plain { IfOk result (λ part. IsEndsType (primitive_dtype part)) }
    ensures ends { IfOk result (λ part. ends_of part ≡ slice_range (end_numbers (column_of ends.now)) first stop) }
    ensures typed { IfOk result (λ part. part.ptype ≡ end_ptype (column_of ends.now)) }
{
    match ends {
        ArrayRef::Primitive(plain) => {
            prove!(stop <= plain.len());
            let part = plain.slice(alloc, first..stop)?;
            Ok(part)
        }
        _ => unreachable!(),
    }
}
