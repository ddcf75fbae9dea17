//! Rows of run columns over flat u64 and booleans: the offsets, sizes and validities of lists.
ghost use Rattle.std.specs.Prelude.{◌≡◌, ◌+◌, ◌-◌, ◌<◌, ◌≤◌, ◌↔◌, length, min, slice_index, slice_index_or, false, IsTrue, IfOk, IsOkUnless, map};
ghost use Rattle.std.specs.List.{range_with_len};
ghost use Rattle.runend_array.specs.Array.{rows};
ghost use Rattle.runend_array.specs.Lists.{run_stop};
ghost use Rattle.runend_windows.specs.Window.{run_at};
ghost use Rattle.runend_array.specs.Column.{IsPlainIndex, IsPlainTruths, end_numbers, truths_of};

use super::RunEndArray;
use crate::lists::{Stretch, is_plain_index, is_plain_truths, plain_number_at, plain_truth_at};
use crate::ops;
use column_core::{BitBuffer, BitBufferMut, VortexError, VortexResult};
use runend_windows::RunWriter;
use std::alloc::Allocator;

impl<A: Allocator + Copy> RunEndArray<A> {
    /// Returns whether it is a run column over flat u64 without null.
    pub(crate) fn is_index(&self) -> bool
        ensures { IsTrue result ↔ IsPlainIndex self.now.values }
    {
        is_plain_index(&self.values)
    }

    /// Returns whether it is a run column over flat booleans without null.
    pub(crate) fn is_truths(&self) -> bool
        ensures { IsTrue result ↔ IsPlainTruths self.now.values }
    {
        is_plain_truths(&self.values)
    }

    /// Returns the number in a row of a run column over flat u64 without null.
    pub(crate) fn number_at(&self, index: usize) -> u64
        requires plain { IsPlainIndex self.now.values }
        requires within { index < self.now.count }
        ensures { result ≡ slice_index (end_numbers self.now.values) (run_at self.now.ends (self.now.offset + index)) }
    {
        let run = ops::run_of(&self.ends, self.offset + index);
        plain_number_at(&self.values, run)
    }

    /// Returns the boolean in a row of a run column over flat booleans without null.
    pub(crate) fn truth_at(&self, index: usize) -> bool
        requires plain { IsPlainTruths self.now.values }
        requires within { index < self.now.count }
        ensures { result ≡ slice_index_or (truths_of self.now.values) (run_at self.now.ends (self.now.offset +
            index)) false }
    {
        let run = ops::run_of(&self.ends, self.offset + index);
        plain_truth_at(&self.values, run)
    }

    // The run of a row, searched from `run` on, which is the run of an earlier row, or the first run.
    fn run_from(&self, run: usize, index: usize) -> usize
        requires within { index < self.now.count }
        requires before { run ≤ run_at self.now.ends (self.now.offset + index) }
        ensures { result ≡ run_at self.now.ends (self.now.offset + index) }
    {
        ops::run_from(&self.ends, run, self.offset + index)
    }

    /// Returns the number in a row of a run column over flat u64 without null, and where the run of this row ends. The
    /// run is searched from `run` on, which is the run of an earlier row, or the first run, and is put into `run`.
    pub(crate) fn number_from(&self, run: &mut usize, index: usize) -> Stretch<u64>
        requires plain { IsPlainIndex self.now.values }
        requires within { index < self.now.count }
        requires before { run.old ≤ run_at self.now.ends (self.now.offset + index) }
        ensures number { result.value ≡ slice_index (end_numbers self.now.values) (run_at self.now.ends
            (self.now.offset + index)) }
        ensures stop { result.stop ≡ run_stop self.now.ends self.now.offset self.now.count index }
        ensures within { index < result.stop }
        ensures run { run.new ≡ run_at self.now.ends (self.now.offset + index) }
    {
        *run = self.run_from(*run, index);
        Stretch {
            value: plain_number_at(&self.values, *run),
            stop: self.reach_of(*run, 0, self.length),
        }
    }

    /// Returns the boolean in a row of a run column over flat booleans without null, and where the run of this row
    /// ends. The run is searched from `run` on, which is the run of an earlier row, or the first run, and is put into
    /// `run`.
    pub(crate) fn truth_from(&self, run: &mut usize, index: usize) -> Stretch<bool>
        requires plain { IsPlainTruths self.now.values }
        requires within { index < self.now.count }
        requires before { run.old ≤ run_at self.now.ends (self.now.offset + index) }
        ensures truth { result.value ≡ slice_index_or (truths_of self.now.values) (run_at self.now.ends
            (self.now.offset + index)) false }
        ensures stop { result.stop ≡ run_stop self.now.ends self.now.offset self.now.count index }
        ensures within { index < result.stop }
        ensures run { run.new ≡ run_at self.now.ends (self.now.offset + index) }
    {
        *run = self.run_from(*run, index);
        Stretch {
            value: plain_truth_at(&self.values, *run),
            stop: self.reach_of(*run, 0, self.length),
        }
    }

    // How many of the rows from `start` to `stop - 1` are in the runs up to this one.
    fn reach_of(&self, run: usize, start: usize, stop: usize) -> usize
        requires ordered { start ≤ stop }
        requires in_bounds { stop ≤ self.now.count }
        requires within { run < length self.now.ends }
        ensures { result ≡ min (slice_index self.now.ends run - (self.now.offset + start)) (stop - start) }
    {
        ops::end_of_run(&self.ends, run)
            .saturating_sub(self.offset + start)
            .min(stop - start)
    }

    /// Returns the numbers in the rows from `start` to `stop - 1` of a run column over flat u64 without null. Looks at
    /// each run once. Refused only as `OutOfMemory`.
    pub(crate) fn numbers_between(
        &self,
        alloc: A,
        start: usize,
        stop: usize,
    ) -> VortexResult<Vec<u64, A>>
        requires plain { IsPlainIndex self.now.values }
        requires ordered { start ≤ stop }
        requires in_bounds { stop ≤ self.now.count }
        ensures only { IsOkUnless result VortexError.OutOfMemory }
        ensures numbers { IfOk result (λ numbers. numbers.items ≡
            map (λ row. slice_index (end_numbers self.now.values) (run_at self.now.ends (self.now.offset + row)))
            (range_with_len start (stop - start))) }
    {
        if start == stop {
            return Ok(Vec::new(alloc));
        }
        let mut rows = RunWriter::with_room(alloc, stop - start)?;
        let runs = self.runs_of_rows(start, stop);
        for run in runs.start..runs.end {
            let number = plain_number_at(&self.values, run);
            rows.repeat_to(number, self.reach_of(run, start, stop));
        }
        Ok(rows.finish())
    }

    /// Returns the booleans in the rows from `start` to `stop - 1` of a run column over flat booleans without null.
    /// Looks at each run once. Refused only as `OutOfMemory`.
    pub(crate) fn truths_between(
        &self,
        alloc: A,
        start: usize,
        stop: usize,
    ) -> VortexResult<BitBuffer<A>>
        requires plain { IsPlainTruths self.now.values }
        requires ordered { start ≤ stop }
        requires in_bounds { stop ≤ self.now.count }
        ensures only { IsOkUnless result VortexError.OutOfMemory }
        ensures truths { IfOk result (λ truths. truths ≡ map (λ row. slice_index_or (truths_of self.now.values)
            (run_at self.now.ends (self.now.offset + row)) false) (range_with_len start (stop - start))) }
    {
        let mut rows = BitBufferMut::with_capacity(alloc, stop - start)?;
        if start == stop {
            return Ok(rows.freeze());
        }
        let runs = self.runs_of_rows(start, stop);
        for run in runs.start..runs.end {
            let missing = self.reach_of(run, start, stop).saturating_sub(rows.len());
            rows.append_n(plain_truth_at(&self.values, run), missing)?;
        }
        Ok(rows.freeze())
    }
}
