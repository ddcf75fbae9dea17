//! How many levels of runs lie one in the other. Most calls go into each of them, and what C makes has at most 64.
ghost use Rattle.std.specs.Prelude.{◌≡◌, ◌<◌, ◌≤◌, ◌↔◌, IfErr, IfOk, IsTrue};
ghost use Rattle.runend_array.specs.Array.{column_of};
ghost use Rattle.runend_array.specs.Column.{IsIndex, depth, index_of};
ghost use Rattle.runend_array.specs.Lists.{index_depth, lists_depth};
ghost use Rattle.c_columns.specs.RunParts.{most_levels};

use column_core::{VortexError, VortexResult};
use runend_array::{ArrayRef, ListViewArray, RowValidity, RunEndArraySlotsExt};
use std::alloc::{Allocator, Global};

/// Limits the levels of the values of a run column, which has one level more: 64 at most.
const MOST_VALUE_LEVELS: usize = 63;

/// Refuses values, as `Unsupported`, over which runs would have more than 64 levels.
pub(crate) fn check_levels(values: &ArrayRef<Global>) -> VortexResult<()>
    ensures fits { IfOk result (λ _. depth (column_of values.now) < most_levels) }
    ensures deep { IfErr result
        (λ error. (error ≡ VortexError.Unsupported) × (most_levels ≤ depth (column_of values.now))) }
{
    if has_levels(values, MOST_VALUE_LEVELS) {
        Ok(())
    } else {
        Err(VortexError::Unsupported)
    }
}

// Are there at most `most` levels of runs?
#[tactic(auto, using(crate::proofs::LevelCounts::flat_levels, crate::proofs::LevelCounts::no_level, crate::proofs::LevelCounts::level_more))]
fn has_levels<A: Allocator + Copy>(array: &ArrayRef<A>, most: usize) -> bool
    ensures { IsTrue result ↔ (depth (column_of array.now) ≤ most) }
{
    match array {
        ArrayRef::RunEnd(runs) => {
            if most == 0 {
                return false;
            }
            has_levels(runs.values(), most - 1)
        }
        ArrayRef::ListView(lists) => levels_of(lists) <= most,
        _ => true,
    }
}

// 2 where offsets, sizes or validity are in runs, else 0.
fn levels_of<A: Allocator + Copy>(lists: &ListViewArray<A>) -> usize
    ensures { result ≡ lists_depth lists.now }
{
    if is_in_runs(lists.offsets()) || is_in_runs(lists.sizes()) {
        return 2;
    }
    match lists.validity() {
        RowValidity::Runs(_) => 2,
        _ => 0,
    }
}

fn is_in_runs<A: Allocator + Copy>(array: &ArrayRef<A>) -> bool
    requires { IsIndex (column_of array.now) }
    ensures runs { IsTrue result → index_depth (index_of (column_of array.now)) ≡ 2 }
    ensures flat { ¬ IsTrue result → index_depth (index_of (column_of array.now)) ≡ 0 }
{
    match array {
        ArrayRef::RunEnd(_) => true,
        _ => false,
    }
}
