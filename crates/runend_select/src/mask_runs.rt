//! The runs of a mask: where each stops, and how many rows are true up to there.
ghost use Rattle.std.specs.Prelude.{◌≡◌, IfOk, IsOkUnless, if◌then◌else◌, length, map, unsigned_abs};
ghost use Rattle.column_base.specs.Numbers.{numbers, ptype_of};
ghost use Rattle.column_base.specs.Types.{IsUnsigned};
ghost use Rattle.column_core.specs.FlatColumn.{leaf_of};
ghost use Rattle.column_core.specs.Leaf.{single_rows};
ghost use Rattle.column_core.specs.ScalarView.{sees};
ghost use Rattle.column_core.specs.Value.{IsLists};
ghost use Rattle.runend_array.specs.Column.{column_dtype};
ghost use Rattle.runend_windows.specs.Window.{IsWindow, run_rows, typed_ends};
ghost use Rattle.runend_select.specs.MaskRuns.{AreMaskRuns, before_at, is_true, truths_of};

use column_base::match_each_unsigned;
use column_core::{
    FlatColumn, PrimitiveValues, ScalarView, UnsignedPType, VortexError, VortexResult,
};
use runend_array::RunEndArray;
use runend_column::{ends_of_visible, visible_offset, visible_values};
use runend_windows::reach_of;
use std::alloc::Allocator;

/// Holds at which row each visible run of a mask stops, and how many rows are true up to there: 16 bytes for a run.
#[derive(Drop)]
pub(crate) struct MaskRuns<A: Allocator> {
    pub(crate) stops: Vec<usize, A>,
    pub(crate) ranks: Vec<usize, A>,
}

impl<A: Allocator + Copy> MaskRuns<A> {
    /// Returns the visible runs of a mask. Null is not true. Refused only as `OutOfMemory`.
    pub(crate) fn of(alloc: A, mask: &RunEndArray<A>) -> VortexResult<MaskRuns<A>>
        requires single { ¬ IsLists (column_dtype mask.now.values) }
        ensures only { IsOkUnless result VortexError.OutOfMemory }
        ensures runs { IfOk result (λ runs. AreMaskRuns (truths_of mask.now) runs.stops.items runs.ranks.items) }
    {
        let values = visible_values(alloc, mask)?;
        let ends = match ends_of_visible(alloc, mask) {
            Ok(ends) => ends,
            Err(error) => {
                drop(values);
                return Err(error);
            }
        };
        let offset = visible_offset(mask);
        let runs = runs_among(alloc, ends.values(), offset, mask.len(), &values);
        drop(ends);
        drop(values);
        runs
    }

    /// Returns how many rows are true.
    pub(crate) fn true_count(&self) -> usize
        ensures { result ≡ before_at self.now.ranks.items (length self.now.ranks.items) }
    {
        match self.ranks.len() {
            0 => 0,
            runs => self.ranks[runs - 1],
        }
    }
}

// The runs of a mask with these ends.
fn runs_among<A: Allocator + Copy>(
    alloc: A,
    ends: &PrimitiveValues<A>,
    offset: usize,
    count: usize,
    truths: &FlatColumn<A>,
) -> VortexResult<MaskRuns<A>>
    requires unsigned { IsUnsigned (ptype_of ends.now) }
    requires window { IsWindow (map unsigned_abs (numbers ends.now)) offset count }
    requires paired { length (single_rows (leaf_of truths.now)) ≡ length (numbers ends.now) }
    ensures only { IsOkUnless result VortexError.OutOfMemory }
    ensures runs { IfOk result (λ runs. AreMaskRuns (map is_true (run_rows (map unsigned_abs (numbers ends.now))
        (single_rows (leaf_of truths.now)) offset count)) runs.stops.items runs.ranks.items) }
{
    match_each_unsigned!(ends, items => runs_in(alloc, items.as_slice(), offset, count, truths))
}

// The same for ends as they are stored.
fn runs_in<E: UnsignedPType, A: Allocator + Copy>(
    alloc: A,
    ends: &[E],
    offset: usize,
    count: usize,
    truths: &FlatColumn<A>,
) -> VortexResult<MaskRuns<A>>
    requires window { IsWindow (typed_ends E.number ends.now) offset count }
    requires paired { length (single_rows (leaf_of truths.now)) ≡ length ends.now }
    ensures only { IsOkUnless result VortexError.OutOfMemory }
    ensures runs { IfOk result (λ runs. AreMaskRuns (map is_true (run_rows (typed_ends E.number ends.now)
        (single_rows (leaf_of truths.now)) offset count)) runs.stops.items runs.ranks.items) }
{
    let mut stops = Vec::with_capacity(alloc, ends.len())?;
    let mut ranks = Vec::with_capacity(alloc, ends.len())?;
    let mut row = 0;
    let mut rank = 0;
    for run in 0..ends.len() {
        let stop = reach_of(ends, run, offset, count);
        rank += true_rows(&truths.get(run), stop - row);
        stops.push_reserved(stop);
        ranks.push_reserved(rank);
        row = stop;
    }
    Ok(MaskRuns { stops, ranks })
}

// Returns how many rows of this value are true, of `rows` rows.
#[inline]
fn true_rows<A: Allocator>(value: &ScalarView<'_, A>, rows: usize) -> usize
    ensures { result ≡ (if is_true (sees value.now) then rows else 0) }
{
    match value {
        ScalarView::Bool(true) => rows,
        _ => 0,
    }
}
