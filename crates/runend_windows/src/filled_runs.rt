//! Rows of booleans that start alike, in which runs are filled, 64 runs at a time.
ghost use Rattle.std.specs.Prelude.{◌≡◌, ◌≢◌, ℕ, ◌+◌, ◌-◌, ◌^◌, ◌<◌, ◌≤◌, Some, if◌then◌else◌};
ghost use Rattle.std.specs.Prelude.{length, min, nat_eq, slice_get, slice_index};
ghost use Rattle.std.specs.Int.{bit_at};
ghost use Rattle.runend_windows.specs.Window.{IsWindow, run_at, typed_ends};

use crate::decode::reach_of;
use column_core::{BitBufferMut, UnsignedPType};
use std::alloc::Allocator;

/// Returns which of 64 runs have another bit than `bit`.
#[inline(always)]
pub fn runs_unlike(word: u64, bit: bool) -> u64
    ensures { (j : ℕ) → j < 64 → bit_at result j ≡ (if bit then 1 - bit_at word j else bit_at word j) }
{
    if bit { !word } else { word }
}

/// Makes each row of run `first + j` of the window `bit`, where bit j of `runs` is 1, and changes no other row. Bits
/// after the last run do nothing. It goes from 1 to 1, so that no test of a run can be predicted wrongly.
#[inline(always)]
pub fn fill_runs<E: UnsignedPType, A: Allocator + Copy>(
    rows: &mut BitBufferMut<A>,
    ends: &[E],
    runs: u64,
    first: usize,
    bit: bool,
    offset: usize,
    count: usize,
)
    requires window { IsWindow (typed_ends E.number ends.now) offset count }
    requires long { length rows.old ≡ count }
    requires counts { first + 64 ≤ 2 ^ 64 }
    ensures len { length rows.new ≡ count }
    ensures put { (i : ℕ) → i < count → (j : ℕ) → run_at (typed_ends E.number ends.now) (offset + i) ≡
        first + j
        → bit_at runs j ≡ 1 → slice_get rows.new i ≡ Some bit }
    ensures kept { (i : ℕ) → i < count → (j : ℕ) → run_at (typed_ends E.number ends.now) (offset + i) ≡
        first + j
        → bit_at runs j ≡ 0 → slice_get rows.new i ≡ slice_get rows.old i }
    ensures before { (i : ℕ) → i < count → run_at (typed_ends E.number ends.now) (offset + i) < first
        → slice_get rows.new i ≡ slice_get rows.old i }
    ensures behind { (i : ℕ) → i < count → first + 64 ≤ run_at (typed_ends E.number ends.now) (offset + i)
        → slice_get rows.new i ≡ slice_get rows.old i }
{
    let mut left = runs;
    while left != 0 {
        let run = first + left.trailing_zeros() as usize;
        fill_run(rows, ends, run, bit, offset, count);
        left &= left - 1;
    }
}

// The first row of the window that the run shows.
#[inline(always)]
fn start_of<E: UnsignedPType>(ends: &[E], run: usize, offset: usize, count: usize) -> usize
    requires { run < length ends.now }
    ensures { result ≡ (if nat_eq run 0 then 0
        else min (slice_index (typed_ends E.number ends.now) (run - 1) - offset) count) }
{
    if run == 0 {
        return 0;
    }
    reach_of(ends, run - 1, offset, count)
}

// Makes each row of the run `bit`, where there is such a run: the last word has bits after the last run.
#[inline(always)]
fn fill_run<E: UnsignedPType, A: Allocator + Copy>(
    rows: &mut BitBufferMut<A>,
    ends: &[E],
    run: usize,
    bit: bool,
    offset: usize,
    count: usize,
)
    requires window { IsWindow (typed_ends E.number ends.now) offset count }
    requires long { length rows.old ≡ count }
    ensures len { length rows.new ≡ count }
    ensures here { (i : ℕ) → i < count → run_at (typed_ends E.number ends.now) (offset + i) ≡ run
        → slice_get rows.new i ≡ Some bit }
    ensures others { (i : ℕ) → i < count → run_at (typed_ends E.number ends.now) (offset + i) ≢ run
        → slice_get rows.new i ≡ slice_get rows.old i }
{
    if run >= ends.len() {
        return;
    }
    let start = start_of(ends, run, offset, count);
    let stop = reach_of(ends, run, offset, count);
    rows.fill_range(start, stop, bit);
}
