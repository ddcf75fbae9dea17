//! How many rows of a column are null.
ghost use Rattle.std.specs.Prelude.{◌≡◌, ◌-◌, ◌<◌, List, None, Option, cond, count_by, is_none, length, map, min, option_map, slice_index, slice_index_or};
ghost use Rattle.column_base.specs.Validity.{validity_flags};
ghost use Rattle.column_core.specs.FlatView.{leaf_in};
ghost use Rattle.column_core.specs.Leaf.{leaf_rows, single_rows};
ghost use Rattle.column_core.specs.ScalarView.{sees};
ghost use Rattle.column_core.specs.Value.{Single, Value};
ghost use Rattle.runend_array.specs.Array.{rows};
ghost use Rattle.runend_array.specs.Column.{column_of_runs, column_rows};
ghost use Rattle.runend_array.specs.Lists.{list_rows};
ghost use Rattle.runend_windows.specs.Window.{run_rows};
ghost use Rattle.runend_pairs.specs.NullCounts.{null_rows, where_true};

use crate::runs::stop_in;
use column_core::{FlatView, ScalarView, Validity};
use runend_array::{
    ArrayRef, ConstantArray, ListViewArray, RowValidity, RunEndArray, RunEndArrayExt,
    RunEndArraySlotsExt,
};
use std::alloc::Allocator;

/// Returns how many rows of a column of any kind are null. Takes a step for each visible run, of lists for each run of
/// their validity; bits are counted 64 at a time, and a constant takes one step. Takes no memory, and is never refused.
pub fn null_count<A: Allocator + Copy>(array: &ArrayRef<A>) -> usize
    ensures { result ≡ null_rows (rows array.now) }
{
    match array {
        ArrayRef::RunEnd(runs) => nulls_in_runs(
            runs,
            &Values {
                values: runs.values(),
            },
        ),
        ArrayRef::Constant(constant) => nulls_of_constant(constant),
        ArrayRef::ListView(lists) => nulls_of_lists(lists),
        _ => match array.flat_view() {
            Some(flat) => nulls_of_flat(flat, array.len()),
            None => unreachable!(),
        },
    }
}

/// Says which of some runs show null.
trait NullRuns {
    // What each run shows: of a row that is not null, that it is not.
    ghost shown: { Self → List (Option Value) };

    /// Returns how many of the `count` rows of a run are null: all, where the run shows null, else none.
    fn nulls_of(&self, run: usize, count: usize) -> usize
        requires { run < length (shown self.now) }
        ensures { result ≡ cond (is_none (slice_index_or (shown self.now) run None)) count 0 };
}

/// Shows null where a value is null.
#[derive(Drop)]
struct Values<'a, A: Allocator> {
    values: &'a ArrayRef<A>,
}

impl<'a, A: Allocator + Copy> NullRuns for Values<'a, A> {
    ghost shown = { λ own. rows own.values.now };

    fn nulls_of(&self, run: usize, count: usize) -> usize {
        match self.values.scalar_at(run) {
            Ok(row) if is_null_row(&row) => count,
            _ => 0,
        }
    }
}

/// Shows null where a flag is not true.
#[derive(Drop)]
struct Flags<'a, A: Allocator> {
    flags: &'a ArrayRef<A>,
}

impl<'a, A: Allocator + Copy> NullRuns for Flags<'a, A> {
    ghost shown = { λ own. map where_true (rows own.flags.now) };

    fn nulls_of(&self, run: usize, count: usize) -> usize {
        match self.flags.scalar_at(run) {
            Ok(ScalarView::Bool(true)) => 0,
            _ => count,
        }
    }
}

// How many of the rows of visible runs are null. Each run is looked at once.
fn nulls_in_runs<N: NullRuns, A: Allocator + Copy>(runs: &RunEndArray<A>, shows: &N) -> usize
    requires { length (N.shown shows.now) ≡ length runs.now.ends }
    ensures { result ≡ null_rows (run_rows runs.now.ends (N.shown shows.now) runs.now.offset runs.now.count) }
{
    let visible = runs.visible_runs();
    let mut count = 0;
    let mut row = 0;
    for run in visible.start..visible.end {
        let stop = stop_of_run(runs, run);
        count += shows.nulls_of(run, stop.saturating_sub(row));
        row = stop;
    }
    count
}

// The row that a run stops before, in the window of the column.
fn stop_of_run<A: Allocator + Copy>(runs: &RunEndArray<A>, run: usize) -> usize
    requires { run < length runs.now.ends }
    ensures { result ≡ min (slice_index runs.now.ends run - runs.now.offset) runs.now.count }
{
    match runs.ends() {
        ArrayRef::Primitive(ends) => stop_in(ends, run, runs.offset()).min(runs.len()),
        _ => unreachable!(),
    }
}

// Whether a row is null.
fn is_null_row<A: Allocator>(row: &ScalarView<'_, A>) -> bool
    ensures { result ≡ is_none (sees row.now) }
{
    match row {
        ScalarView::Null => true,
        _ => false,
    }
}

// How many rows of a constant are null: all or none.
fn nulls_of_constant<A: Allocator>(constant: &ConstantArray<A>) -> usize
    ensures { result ≡ cond (is_none (option_map Single constant.now.value)) constant.now.count 0 }
{
    if is_null_row(&constant.scalar().view()) {
        constant.len()
    } else {
        0
    }
}

// How many of the `count` rows of a flat column are null.
fn nulls_of_flat<A: Allocator>(flat: FlatView<'_, A>, count: usize) -> usize
    requires counted { count ≡ length (leaf_rows (leaf_in flat)) }
    ensures nulls { result ≡ null_rows (single_rows (leaf_in flat.entry)) }
{
    let valid = valid_count(flat.validity(), count);
    count.saturating_sub(valid)
}

// How many rows are valid.
fn valid_count<A: Allocator>(validity: &Validity<A>, count: usize) -> usize
    ensures { result ≡ count_by (λ flag. flag) (validity_flags validity.now count) }
{
    match validity {
        Validity::NonNullable | Validity::AllValid => count,
        Validity::AllInvalid => 0,
        Validity::Bits(bits) => bits.true_count(),
    }
}

// How many lists are null.
fn nulls_of_lists<A: Allocator + Copy>(lists: &ListViewArray<A>) -> usize
    ensures { result ≡ null_rows (list_rows lists.now) }
{
    match lists.validity() {
        RowValidity::NonNullable => 0,
        RowValidity::AllValid => 0,
        RowValidity::AllInvalid => lists.len(),
        RowValidity::Bits(bits) => lists.len().saturating_sub(bits.true_count()),
        RowValidity::Runs(runs) => nulls_in_runs(
            runs,
            &Flags {
                flags: runs.values(),
            },
        ),
    }
}
