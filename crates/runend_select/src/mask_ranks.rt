//! The rows of a mask in runs that are true, counted and listed along its runs.
ghost use Rattle.std.specs.Prelude.{◌≡◌, ◌-◌, ◌<◌, ◌≤◌, ◌++◌, IfOk, IsOkUnless, OnOk, count_by, length, slice_index, take};
ghost use Rattle.std.specs.List.{range_with_len};
ghost use Rattle.column_base.specs.Bits.{set_indices_of};
ghost use Rattle.column_core.specs.Value.{IsLists};
ghost use Rattle.runend_array.specs.Column.{column_dtype};
ghost use Rattle.runend_select.specs.MaskRuns.{AreMaskRuns, before_at, truths_of};

use crate::mask_runs::MaskRuns;
use crate::ranked::Ranked;
use column_core::{VortexError, VortexResult};
use runend_array::RunEndArray;
use std::alloc::Allocator;

/// Selects the rows of a mask that are true, and walks along its runs as they are counted.
#[derive(Drop)]
pub(crate) struct MaskRanks<'a, A: Allocator> {
    // (only contracts read its rows)
    pub(crate) mask: &'a RunEndArray<A>,
    pub(crate) runs: MaskRuns<A>,
    // The run of the last place that was asked for.
    pub(crate) at: usize,
}

impl<'a, A: Allocator + Copy> MaskRanks<'a, A> {
    /// Returns the rows of a mask that are true, with nothing counted yet. Refused only as `OutOfMemory`.
    pub(crate) fn of(alloc: A, mask: &'a RunEndArray<A>) -> VortexResult<MaskRanks<'a, A>>
        requires single { ¬ IsLists (column_dtype mask.now.values) }
        ensures only { IsOkUnless result VortexError.OutOfMemory }
        ensures mask { IfOk result (λ made. made.mask.now ≡ mask.now) }
        ensures runs { IfOk result (λ made. AreMaskRuns (truths_of made.mask.now) made.runs.stops.items
            made.runs.ranks.items) }
        ensures first { IfOk result (λ made. made.at ≡ 0) }
    {
        let runs = MaskRuns::of(alloc, mask)?;
        Ok(MaskRanks { mask, runs, at: 0 })
    }

    /// Returns the rows that are true, in ascending order. Refused only as `OutOfMemory`.
    pub(crate) fn places(&self, alloc: A) -> VortexResult<Vec<u64, A>>
        requires runs { AreMaskRuns (truths_of self.now.mask.now) self.now.runs.stops.items self.now.runs.ranks.items }
        ensures only { IsOkUnless result VortexError.OutOfMemory }
        ensures places { IfOk result (λ places. places.items ≡ set_indices_of (truths_of self.now.mask.now)) }
    {
        let stops = self.runs.stops.as_slice();
        let ranks = self.runs.ranks.as_slice();
        let mut places = Vec::with_capacity(alloc, self.runs.true_count())?;
        let mut start = 0;
        let mut before = 0;
        for run in 0..stops.len() {
            if ranks[run] != before {
                push_rows(&mut places, start, stops[run])?;
            }
            start = stops[run];
            before = ranks[run];
        }
        Ok(places)
    }

    // How many of the rows before a place of a run are true: either all rows between the start of the run and the place
    // are true, or none of them is.
    #[inline]
    fn rank_in(&self, run: usize, place: usize) -> usize
        requires runs { AreMaskRuns (truths_of self.now.mask.now) self.now.runs.stops.items self.now.runs.ranks.items }
        requires there { run < length self.now.runs.stops.items }
        requires from { before_at self.now.runs.stops.items run ≤ place }
        requires to { place ≤ slice_index self.now.runs.stops.items run }
        ensures { result ≡ count_by (λ bit. bit) (take place (truths_of self.now.mask.now)) }
    {
        let ranks = self.runs.ranks.as_slice();
        let before = before_in(ranks, run);
        if ranks[run] == before {
            return before;
        }
        before + (place - before_in(self.runs.stops.as_slice(), run))
    }
}

impl<'a, A: Allocator + Copy> Ranked for MaskRanks<'a, A> {
    ghost bits = { λ s. truths_of s.mask.now };

    ghost is_ranked = { λ s. AreMaskRuns (truths_of s.mask.now) s.runs.stops.items s.runs.ranks.items ×
        (s.at < length s.runs.stops.items) };

    ghost passed = { λ s. before_at s.runs.stops.items s.at };

    #[inline]
    fn rank(&mut self, place: usize) -> usize {
        let at = place_among(self.runs.stops.as_slice(), self.at, place);
        self.at = at;
        self.rank_in(at, place)
    }
}

// The run that a place is in or stops at, among runs with these stops, searched from an earlier run on.
#[tactic(auto, using(crate::proofs::MaskRuns::next_run))]
#[inline]
fn place_among(stops: &[usize], from: usize, place: usize) -> usize
    requires there { from < length stops.now }
    requires onward { before_at stops.now from ≤ place }
    requires within { place ≤ before_at stops.now (length stops.now) }
    ensures there { result < length stops.now }
    ensures from { before_at stops.now result ≤ place }
    ensures to { place ≤ slice_index stops.now result }
{
    let mut run = from;
    while stops[run] < place {
        run += 1;
    }
    run
}

// The number that is written for the run before, and 0 for the first run.
#[inline]
fn before_in(written: &[usize], run: usize) -> usize
    requires { run ≤ length written.now }
    ensures { result ≡ before_at written.now run }
{
    if run == 0 {
        return 0;
    }
    written[run - 1]
}

// Appends the rows from `start` to `stop - 1`.
fn push_rows<A: Allocator>(places: &mut Vec<u64, A>, start: usize, stop: usize) -> VortexResult<()>
    requires { start ≤ stop }
    ensures pushed { OnOk result (places.new.items ≡ places.old.items ++ range_with_len start (stop - start)) }
    ensures only { IsOkUnless result VortexError.OutOfMemory }
{
    for row in start..stop {
        places.push(row as u64)?;
    }
    Ok(())
}
