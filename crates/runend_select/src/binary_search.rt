//! The runs of indices, each found by a binary search.
ghost use Rattle.std.specs.Prelude.{◌≡◌, ◌+◌, ◌*◌, ◌^◌, ◌<◌, ◌≤◌, ◌∷◌, ◌++◌, [], All, IfOk, IfSome, IsOkUnless, None, OnErr, Some, length, option_map, pos, slice_get, true, vec_capacity, vec_len};
ghost use Rattle.std.specs.List.Sorted.{IsStrictlyIncreasing};
ghost use Rattle.column_base.specs.Mask.{mask_bits};
ghost use Rattle.column_core.specs.Digits.{digits};
ghost use Rattle.runend_select.specs.Indices.{AreInBounds, AreInWindow, optional_indices, run_of, runs_of, valid_count, masked_indices};

use crate::rows::{named_row, selects_all};
use column_core::{CountedEnds, Mask, NativePType, UnsignedPType, VortexError, VortexResult};
use runend_windows::{first_past, first_past_four};
use std::alloc::Allocator;

/// Returns the run of each valid index, and 0 for a null one, where `offset` is the position of row 0. For each valid
/// index it tests at most as many ends as the number of ends has binary digits. Refused only as `OutOfMemory`, before
/// any test.
pub fn physical_indices_binary<E: UnsignedPType, T: NativePType, A: Allocator + Copy>(
    alloc: A,
    ends: &mut CountedEnds<'_, E>,
    offset: usize,
    indices: &[T],
    mask: &Mask<A>,
) -> VortexResult<Vec<u64, A>>
    requires masked { length (mask_bits mask.now) ≡ length indices.now }
    requires in_window { AreInWindow ends.old.ends offset (masked_indices T.number indices.now mask.now) }
    ensures only { IsOkUnless result VortexError.OutOfMemory }
    ensures runs { IfOk result (λ runs. runs.items ≡
        runs_of ends.old.ends offset 0 (masked_indices T.number indices.now mask.now)) }
    ensures same { ends.new.ends ≡ ends.old.ends }
    ensures cost { ends.new.tests ≤ ends.old.tests + valid_count (optional_indices T.number indices.now
        (mask_bits mask.now)) * digits (length ends.old.ends) }
    ensures untested { OnErr result (ends.new.tests ≡ ends.old.tests) }
{
    if selects_all(mask) {
        searched_runs::<true, E, T, A>(alloc, ends, offset, indices, mask)
    } else {
        searched_runs::<false, E, T, A>(alloc, ends, offset, indices, mask)
    }
}

// The run of each valid index, and 0 for a null one. `ALL` says that no index is null.
fn searched_runs<const ALL: bool, E: UnsignedPType, T: NativePType, A: Allocator + Copy>(
    alloc: A,
    ends: &mut CountedEnds<'_, E>,
    offset: usize,
    indices: &[T],
    mask: &Mask<A>,
) -> VortexResult<Vec<u64, A>>
    requires masked { length (mask_bits mask.now) ≡ length indices.now }
    requires all { ALL ≡ true → All (λ bit. bit ≡ true) (mask_bits mask.now) }
    requires in_window { AreInWindow ends.old.ends offset (masked_indices T.number indices.now mask.now) }
    ensures only { IsOkUnless result VortexError.OutOfMemory }
    ensures runs { IfOk result (λ runs. runs.items ≡
        runs_of ends.old.ends offset 0 (masked_indices T.number indices.now mask.now)) }
    ensures same { ends.new.ends ≡ ends.old.ends }
    ensures cost { ends.new.tests ≤ ends.old.tests + valid_count (optional_indices T.number indices.now
        (mask_bits mask.now)) * digits (length ends.old.ends) }
    ensures untested { OnErr result (ends.new.tests ≡ ends.old.tests) }
{
    let mut runs = Vec::with_capacity(alloc, indices.len())?;
    let mut place = 0;
    while place < indices.len() {
        match four_rows::<ALL, T, A>(indices, mask, place) {
            Some(rows) => {
                let positions = (
                    offset + rows.0,
                    offset + rows.1,
                    offset + rows.2,
                    offset + rows.3,
                );
                push_four(&mut runs, first_past_four(ends, positions));
                place += 4;
            }
            None => {
                push_run(
                    ends,
                    &mut runs,
                    offset,
                    named_row::<ALL, T, A>(indices, mask, place),
                );
                place += 1;
            }
        }
    }
    Ok(runs)
}

// The rows of the next four indices from a place on, where there are four and none of them is null.
#[inline(always)]
fn four_rows<const ALL: bool, T: NativePType, A: Allocator>(
    indices: &[T],
    mask: &Mask<A>,
    place: usize,
) -> Option<(usize, usize, usize, usize)>
    requires within { place < length indices.now }
    requires masked { length (mask_bits mask.now) ≡ length indices.now }
    requires all { ALL ≡ true → All (λ bit. bit ≡ true) (mask_bits mask.now) }
    requires in_bounds { AreInBounds (masked_indices T.number indices.now mask.now) (2 ^ 64) }
    ensures first { IfSome result (λ rows. slice_get (optional_indices T.number indices.now
        (mask_bits mask.now)) place ≡ Some (Some (pos rows.0))) }
    ensures second { IfSome result (λ rows. slice_get (masked_indices T.number indices.now mask.now)
        (place + 1) ≡ Some (Some (pos rows.1))) }
    ensures third { IfSome result (λ rows. slice_get (masked_indices T.number indices.now mask.now)
        (place + 2) ≡ Some (Some (pos rows.2))) }
    ensures fourth { IfSome result (λ rows. slice_get (masked_indices T.number indices.now mask.now)
        (place + 3) ≡ Some (Some (pos rows.3))) }
{
    if indices.len() - place < 4 {
        return None;
    }
    let first = named_row::<ALL, T, A>(indices, mask, place)?;
    let second = named_row::<ALL, T, A>(indices, mask, place + 1)?;
    let third = named_row::<ALL, T, A>(indices, mask, place + 2)?;
    let fourth = named_row::<ALL, T, A>(indices, mask, place + 3)?;
    Some((first, second, third, fourth))
}

// Appends four runs, for which there is room.
#[inline(always)]
fn push_four<A: Allocator>(runs: &mut Vec<u64, A>, four: (usize, usize, usize, usize))
    requires room { vec_len runs.old + 4 ≤ vec_capacity runs.old }
    ensures items { runs.new.items ≡ runs.old.items ++ four.0 ∷ four.1 ∷ four.2 ∷ four.3 ∷ [] }
    ensures len { vec_len runs.new ≡ vec_len runs.old + 4 }
    ensures capacity { vec_capacity runs.new ≡ vec_capacity runs.old }
{
    runs.push_reserved(four.0 as u64);
    runs.push_reserved(four.1 as u64);
    runs.push_reserved(four.2 as u64);
    runs.push_reserved(four.3 as u64);
}

// Appends the run of a row, and 0 for a null index, for which there is room.
#[inline(always)]
fn push_run<E: UnsignedPType, A: Allocator>(
    ends: &mut CountedEnds<'_, E>,
    runs: &mut Vec<u64, A>,
    offset: usize,
    row: Option<usize>,
)
    requires increasing { IsStrictlyIncreasing ends.old.ends }
    requires position { IfSome row (λ row. offset + row < 2 ^ 64) }
    requires room { vec_len runs.old < vec_capacity runs.old }
    ensures items { runs.new.items ≡ runs.old.items ++ run_of ends.old.ends offset 0 (option_map (λ row. pos row) row) ∷
        [] }
    ensures len { vec_len runs.new ≡ vec_len runs.old + 1 }
    ensures capacity { vec_capacity runs.new ≡ vec_capacity runs.old }
    ensures same { ends.new.ends ≡ ends.old.ends }
    ensures cost { ends.new.tests ≤ ends.old.tests + digits (length ends.old.ends) }
    ensures untested { row ≡ None → ends.new.tests ≡ ends.old.tests }
{
    match row {
        Some(row) => runs.push_reserved(first_past(ends, offset + row) as u64),
        None => runs.push_reserved(0),
    }
}
