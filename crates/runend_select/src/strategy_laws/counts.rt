//! The counts of tests as numbers, over four runs.
ghost use Rattle.std.specs.Prelude.{◌≡◌, ℕ, ◌+◌, ◌≤◌, IfOk, IsOkUnless, length as item_count};
ghost use Rattle.column_base.specs.Mask.{mask_bits};
ghost use Rattle.runend_windows.specs.Window.{IsWindow};
ghost use Rattle.runend_select.specs.Indices.{AreInBounds, AreInWindow, AreSorted, optional_indices, runs_of, valid_count, masked_indices};

use crate::binary_search::physical_indices_binary;
use crate::linear_scan::{physical_indices_linear_sorted, physical_indices_linear_unsorted};
use crate::picked::physical_indices;
use crate::strategy::TakeThresholds;
use column_core::{CountedEnds, Mask, NativePType, UnsignedPType, VortexError, VortexResult};
use std::alloc::Allocator;

/// Finds the runs of 6 valid indices over 4 runs by `physical_indices_linear_sorted`: at most 9 tests.
pub fn merge_of_six_indices<E: UnsignedPType, T: NativePType, A: Allocator + Copy>(
    alloc: A,
    four_runs: &mut CountedEnds<'_, E>,
    offset: usize,
    indices: &[T],
    mask: &Mask<A>,
) -> VortexResult<Vec<u64, A>>
    requires four { item_count four_runs.old.ends ≡ 4 }
    requires masked { item_count (mask_bits mask.now) ≡ item_count indices.now }
    requires six { valid_count (masked_indices T.number indices.now mask.now) ≡ 6 }
    requires in_window { AreInWindow four_runs.old.ends offset (optional_indices T.number indices.now
        (mask_bits mask.now)) }
    requires sorted { AreSorted (masked_indices T.number indices.now mask.now) }
    ensures only { IsOkUnless result VortexError.OutOfMemory }
    ensures runs { IfOk result (λ runs. runs.items ≡
        runs_of four_runs.old.ends offset 0 (masked_indices T.number indices.now mask.now)) }
    ensures same { four_runs.new.ends ≡ four_runs.old.ends }
    ensures cost { four_runs.new.tests ≤ four_runs.old.tests + 9 }
{
    physical_indices_linear_sorted(alloc, four_runs, offset, indices, mask)
}

/// Finds the runs of 6 valid indices over 4 runs by `physical_indices_binary`: at most 18 tests.
pub fn search_of_six_indices<E: UnsignedPType, T: NativePType, A: Allocator + Copy>(
    alloc: A,
    four_runs: &mut CountedEnds<'_, E>,
    offset: usize,
    indices: &[T],
    mask: &Mask<A>,
) -> VortexResult<Vec<u64, A>>
    requires four { item_count four_runs.old.ends ≡ 4 }
    requires masked { item_count (mask_bits mask.now) ≡ item_count indices.now }
    requires six { valid_count (masked_indices T.number indices.now mask.now) ≡ 6 }
    requires in_window { AreInWindow four_runs.old.ends offset (optional_indices T.number indices.now
        (mask_bits mask.now)) }
    ensures only { IsOkUnless result VortexError.OutOfMemory }
    ensures runs { IfOk result (λ runs. runs.items ≡
        runs_of four_runs.old.ends offset 0 (masked_indices T.number indices.now mask.now)) }
    ensures same { four_runs.new.ends ≡ four_runs.old.ends }
    ensures cost { four_runs.new.tests ≤ four_runs.old.tests + 18 }
{
    physical_indices_binary(alloc, four_runs, offset, indices, mask)
}

/// Finds the runs of 4 valid indices over 4 runs by `physical_indices_linear_unsorted`: at most 7 tests.
pub fn sort_of_four_indices<E: UnsignedPType, T: NativePType, A: Allocator + Copy>(
    alloc: A,
    four_runs: &mut CountedEnds<'_, E>,
    offset: usize,
    indices: &[T],
    mask: &Mask<A>,
) -> VortexResult<Vec<u64, A>>
    requires four { item_count four_runs.old.ends ≡ 4 }
    requires masked { item_count (mask_bits mask.now) ≡ item_count indices.now }
    requires four_valid { valid_count (masked_indices T.number indices.now mask.now) ≡ 4 }
    requires in_window { AreInWindow four_runs.old.ends offset (optional_indices T.number indices.now
        (mask_bits mask.now)) }
    ensures only { IsOkUnless result VortexError.OutOfMemory }
    ensures runs { IfOk result (λ runs. runs.items ≡
        runs_of four_runs.old.ends offset 0 (masked_indices T.number indices.now mask.now)) }
    ensures same { four_runs.new.ends ≡ four_runs.old.ends }
    ensures cost { four_runs.new.tests ≤ four_runs.old.tests + 7 }
{
    physical_indices_linear_unsorted(alloc, four_runs, offset, indices, mask)
}

/// Finds the runs of 4 valid indices over 4 runs by `physical_indices_binary`: at most 12 tests.
pub fn search_of_four_indices<E: UnsignedPType, T: NativePType, A: Allocator + Copy>(
    alloc: A,
    four_runs: &mut CountedEnds<'_, E>,
    offset: usize,
    indices: &[T],
    mask: &Mask<A>,
) -> VortexResult<Vec<u64, A>>
    requires four { item_count four_runs.old.ends ≡ 4 }
    requires masked { item_count (mask_bits mask.now) ≡ item_count indices.now }
    requires four_valid { valid_count (masked_indices T.number indices.now mask.now) ≡ 4 }
    requires in_window { AreInWindow four_runs.old.ends offset (optional_indices T.number indices.now
        (mask_bits mask.now)) }
    ensures only { IsOkUnless result VortexError.OutOfMemory }
    ensures runs { IfOk result (λ runs. runs.items ≡
        runs_of four_runs.old.ends offset 0 (masked_indices T.number indices.now mask.now)) }
    ensures same { four_runs.new.ends ≡ four_runs.old.ends }
    ensures cost { four_runs.new.tests ≤ four_runs.old.tests + 12 }
{
    physical_indices_binary(alloc, four_runs, offset, indices, mask)
}

/// Finds the runs of 4 valid indices over 4 runs that show 12 rows by `physical_indices`, with the thresholds 16, 8,
/// 524288 and 4: at most 15 tests. A table is picked unless the indices are sorted.
pub fn physical_indices_by_table<E: UnsignedPType, T: NativePType, A: Allocator + Copy>(
    alloc: A,
    four_runs: &mut CountedEnds<'_, E>,
    offset: usize,
    indices: &[T],
    mask: &Mask<A>,
) -> VortexResult<Vec<u64, A>>
    requires four { item_count four_runs.old.ends ≡ 4 }
    requires masked { item_count (mask_bits mask.now) ≡ item_count indices.now }
    requires four_valid { valid_count (masked_indices T.number indices.now mask.now) ≡ 4 }
    requires window { IsWindow four_runs.old.ends offset 12 }
    requires in_bounds { AreInBounds (masked_indices T.number indices.now mask.now) 12 }
    ensures only { IsOkUnless result VortexError.OutOfMemory }
    ensures runs { IfOk result (λ runs. (null : ℕ) × (runs.items ≡
        runs_of four_runs.old.ends offset null (masked_indices T.number indices.now mask.now))) }
    ensures same { four_runs.new.ends ≡ four_runs.old.ends }
    ensures cost { four_runs.new.tests ≤ four_runs.old.tests + 15 }
{
    let thresholds = TakeThresholds {
        sorted_runs_per_index: 16,
        table_len_per_index: 8,
        unsorted_min_runs: 524288,
        unsorted_runs_per_index: 4,
    };
    physical_indices(alloc, four_runs, offset, 12, indices, mask, thresholds)
}

/// Finds the runs of 4 valid indices over 4 runs that show 12 rows by `physical_indices`, with 0 for each threshold: at
/// most 12 tests, since each search is binary.
pub fn physical_indices_by_halves<E: UnsignedPType, T: NativePType, A: Allocator + Copy>(
    alloc: A,
    four_runs: &mut CountedEnds<'_, E>,
    offset: usize,
    indices: &[T],
    mask: &Mask<A>,
) -> VortexResult<Vec<u64, A>>
    requires four { item_count four_runs.old.ends ≡ 4 }
    requires masked { item_count (mask_bits mask.now) ≡ item_count indices.now }
    requires four_valid { valid_count (masked_indices T.number indices.now mask.now) ≡ 4 }
    requires window { IsWindow four_runs.old.ends offset 12 }
    requires in_bounds { AreInBounds (masked_indices T.number indices.now mask.now) 12 }
    ensures only { IsOkUnless result VortexError.OutOfMemory }
    ensures runs { IfOk result (λ runs. runs.items ≡
        runs_of four_runs.old.ends offset 0 (masked_indices T.number indices.now mask.now)) }
    ensures same { four_runs.new.ends ≡ four_runs.old.ends }
    ensures cost { four_runs.new.tests ≤ four_runs.old.tests + 12 }
{
    let thresholds = TakeThresholds {
        sorted_runs_per_index: 0,
        table_len_per_index: 0,
        unsorted_min_runs: 0,
        unsorted_runs_per_index: 0,
    };
    physical_indices(alloc, four_runs, offset, 12, indices, mask, thresholds)
}
