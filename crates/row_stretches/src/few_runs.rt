//! Whether a column is in so few runs that a walk along them costs no more than a bit for each row.
ghost use Rattle.std.specs.Prelude.{◌↔◌, IsTrue};
ghost use Rattle.runend_array.specs.Array.{column_of, validity_of};
ghost use Rattle.runend_array.specs.Column.{index_of};
ghost use Rattle.row_stretches.specs.FewRuns.{AreListsInFewRuns, HasFewRuns, IsInFewRuns, IsIndexInFewRuns, IsValidityInFewRuns};

use runend_array::{ArrayRef, ListViewArray, RowValidity, RunEndArray};
use std::alloc::Allocator;

/// Returns whether a column is in at most one run for 64 rows: a constant is, a run column of so few visible runs, and
/// lists whose offsets, sizes and validity are. Takes no memory.
pub fn is_in_few_runs<A: Allocator + Copy>(column: &ArrayRef<A>) -> bool
    ensures { IsTrue result ↔ IsInFewRuns (column_of column.now) }
{
    match column {
        ArrayRef::Constant(_) => true,
        ArrayRef::RunEnd(runs) => has_few_runs(runs),
        ArrayRef::ListView(lists) => are_in_few_runs(lists),
        _ => false,
    }
}

// Are offsets, sizes and validity of lists in few runs? A validity without a flag for each row is.
fn are_in_few_runs<A: Allocator + Copy>(lists: &ListViewArray<A>) -> bool
    ensures { IsTrue result ↔ AreListsInFewRuns lists.now }
{
    is_index_in_few_runs(lists.offsets())
        && is_index_in_few_runs(lists.sizes())
        && is_validity_in_few_runs(lists.validity())
}

// Are offsets or sizes in few runs?
fn is_index_in_few_runs<A: Allocator + Copy>(index: &ArrayRef<A>) -> bool
    ensures { IsTrue result ↔ IsIndexInFewRuns (index_of (column_of index.now)) }
{
    match index {
        ArrayRef::RunEnd(runs) => has_few_runs(runs),
        _ => false,
    }
}

// Is a validity in few runs, or the same for all rows?
fn is_validity_in_few_runs<A: Allocator + Copy>(validity: &RowValidity<A>) -> bool
    ensures { IsTrue result ↔ IsValidityInFewRuns (validity_of validity.now) }
{
    match validity {
        RowValidity::Bits(_) => false,
        RowValidity::Runs(runs) => has_few_runs(runs),
        _ => true,
    }
}

// Is there at most one visible run for 64 rows?
fn has_few_runs<A: Allocator + Copy>(runs: &RunEndArray<A>) -> bool
    ensures { IsTrue result ↔ HasFewRuns runs.now.ends runs.now.offset runs.now.count }
{
    let visible = runs.visible_runs();
    visible.end - visible.start <= runs.len() / 64
}
