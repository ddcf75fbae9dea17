//! The runs of indices, found by the strategy that thresholds pick.
ghost use Rattle.std.specs.Prelude.{◌≡◌, ◌+◌, ◌*◌, ◌^◌, ◌<◌, ◌≤◌, ◌↔◌, IsTrue, IfOk, IsOkUnless, OnErr, length as item_count};
ghost use Rattle.column_base.specs.Mask.{mask_bits};
ghost use Rattle.runend_windows.specs.Window.{IsWindow};
ghost use Rattle.runend_select.specs.declared.strategy.Strategy.{Strategy};
ghost use Rattle.runend_select.specs.declared.strategy.Strategy.TheVariants.{SortedMerge};
ghost use Rattle.runend_select.specs.Indices.{AreInBounds, AreSorted, optional_indices, valid_count, masked_indices};
ghost use Rattle.runend_select.specs.Pick.{IsPicked, PrefersSortedMerge, answer_of, most_tests};

use crate::binary_search::physical_indices_binary;
use crate::by_rank::runs_by_rank;
use crate::linear_scan::{physical_indices_linear_sorted, physical_indices_linear_unsorted};
use crate::rows::are_sorted;
use crate::strategy::{Strategy, TakeThresholds};
use column_core::{CountedEnds, Mask, NativePType, UnsignedPType, VortexError, VortexResult};
use std::alloc::Allocator;

/// Returns the strategy for these indices over `runs` runs that show `length` rows: the first that the thresholds
/// allow.
pub fn picked_strategy<T: NativePType, A: Allocator>(
    indices: &[T],
    mask: &Mask<A>,
    runs: usize,
    length: usize,
    thresholds: TakeThresholds,
) -> Strategy
    requires masked { item_count (mask_bits mask.now) ≡ item_count indices.now }
    requires in_bounds { AreInBounds (masked_indices T.number indices.now mask.now) (2 ^ 64) }
    ensures { IsPicked (masked_indices T.number indices.now mask.now) runs length thresholds result }
{
    let count = mask.true_count();
    if prefers_sorted_merge(indices, mask, count, runs, thresholds) {
        return Strategy::SortedMerge;
    }
    if is_within(length, count, thresholds.table_len_per_index) {
        return Strategy::Table;
    }
    if prefers_sort_and_merge(count, runs, thresholds) {
        return Strategy::SortAndMerge;
    }
    Strategy::Binary
}

/// Returns the run of each valid index among `length` rows, where `offset` is the position of row 0, by the strategy
/// that the thresholds pick. A null index gets the run of row 0 from `Strategy::Table`, and 0 from the others. It tests
/// no more ends than the picked strategy. Refused only as `OutOfMemory`, before any test.
pub fn physical_indices<E: UnsignedPType, T: NativePType, A: Allocator + Copy>(
    alloc: A,
    ends: &mut CountedEnds<'_, E>,
    offset: usize,
    length: usize,
    indices: &[T],
    mask: &Mask<A>,
    thresholds: TakeThresholds,
) -> VortexResult<Vec<u64, A>>
    requires window { IsWindow ends.old.ends offset length }
    requires some { 0 < length }
    requires masked { item_count (mask_bits mask.now) ≡ item_count indices.now }
    requires in_bounds { AreInBounds (masked_indices T.number indices.now mask.now) length }
    ensures only { IsOkUnless result VortexError.OutOfMemory }
    ensures picked { let places = masked_indices T.number indices.now mask.now in (strategy : Strategy)
        × IsPicked places (item_count ends.old.ends) length thresholds strategy
        × IfOk result (λ runs. runs.items ≡ answer_of strategy ends.old.ends offset places)
        × (ends.new.tests ≤ ends.old.tests + most_tests strategy (valid_count places)
        (item_count ends.old.ends) length) }
    ensures same { ends.new.ends ≡ ends.old.ends }
    ensures untested { OnErr result (ends.new.tests ≡ ends.old.tests) }
{
    let strategy = picked_strategy(indices, mask, ends.len(), length, thresholds);
    physical_indices_by(alloc, strategy, ends, offset, length, indices, mask)
}

// Are there at most `per_index` runs or rows for each valid index?
fn is_within(total: usize, count: usize, per_index: usize) -> bool
    ensures { IsTrue result ↔ (total ≤ count * per_index) }
{
    total <= count.saturating_mul(per_index)
}

fn prefers_sorted_merge<T: NativePType, A: Allocator>(
    indices: &[T],
    mask: &Mask<A>,
    count: usize,
    runs: usize,
    thresholds: TakeThresholds,
) -> bool
    requires masked { item_count (mask_bits mask.now) ≡ item_count indices.now }
    requires counted { count ≡ valid_count (masked_indices T.number indices.now mask.now) }
    requires in_bounds { AreInBounds (masked_indices T.number indices.now mask.now) (2 ^ 64) }
    ensures { IsTrue result ↔ PrefersSortedMerge (optional_indices T.number indices.now
        (mask_bits mask.now)) runs thresholds }
{
    if !is_within(runs, count, thresholds.sorted_runs_per_index) {
        return false;
    }
    are_sorted(indices, mask)
}

fn prefers_sort_and_merge(count: usize, runs: usize, thresholds: TakeThresholds) -> bool
    ensures { IsTrue result
        ↔ ((thresholds.unsorted_min_runs ≤ runs) × (runs ≤ count * thresholds.unsorted_runs_per_index)) }
{
    if runs < thresholds.unsorted_min_runs {
        return false;
    }
    is_within(runs, count, thresholds.unsorted_runs_per_index)
}

// What a strategy answers.
fn physical_indices_by<E: UnsignedPType, T: NativePType, A: Allocator + Copy>(
    alloc: A,
    strategy: Strategy,
    ends: &mut CountedEnds<'_, E>,
    offset: usize,
    length: usize,
    indices: &[T],
    mask: &Mask<A>,
) -> VortexResult<Vec<u64, A>>
    requires window { IsWindow ends.old.ends offset length }
    requires some { 0 < length }
    requires masked { item_count (mask_bits mask.now) ≡ item_count indices.now }
    requires in_bounds { AreInBounds (masked_indices T.number indices.now mask.now) length }
    requires sorted { strategy ≡ SortedMerge → AreSorted (masked_indices T.number indices.now mask.now) }
    ensures only { IsOkUnless result VortexError.OutOfMemory }
    ensures runs { IfOk result (λ runs. runs.items ≡
        answer_of strategy ends.old.ends offset (masked_indices T.number indices.now mask.now)) }
    ensures same { ends.new.ends ≡ ends.old.ends }
    ensures cost { ends.new.tests ≤ ends.old.tests
        + most_tests strategy (valid_count (masked_indices T.number indices.now mask.now))
        (item_count ends.old.ends) length }
    ensures untested { OnErr result (ends.new.tests ≡ ends.old.tests) }
{
    match strategy {
        Strategy::SortedMerge => physical_indices_linear_sorted(alloc, ends, offset, indices, mask),
        Strategy::Table => runs_by_rank(alloc, ends, offset, length, indices, mask),
        Strategy::SortAndMerge => {
            physical_indices_linear_unsorted(alloc, ends, offset, indices, mask)
        }
        Strategy::Binary => physical_indices_binary(alloc, ends, offset, indices, mask),
    }
}
