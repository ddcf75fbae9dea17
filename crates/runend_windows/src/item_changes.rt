//! Which of 64 numbers differ from the number before, compared at once.
ghost use Rattle.std.specs.Prelude.{◌≡◌, ◌↔◌, ◌+◌, ◌*◌, ◌<◌, ◌≤◌, ℕ, length, map, max, slice_index};
ghost use Rattle.std.specs.Int.{bit_at};
ghost use Rattle.runend_windows.specs.Starts.{GoesOn};

use column_core::NativePType;
use std::simd::prelude::*;

/// Returns a bit for each of the 64 numbers from `index` * 64 on, the first of them lowest: whether it differs from the
/// number before. The bit of the first number of all is false. Bits after the last number may be any.
#[inline(always)]
pub fn changed_items<T: NativePType>(items: &[T], index: usize) -> u64
    requires { index * 64 < length items.now }
    ensures { (lane : ℕ) → lane < 64 → index * 64 + lane < length items.now →
        ((bit_at result lane ≡ 0) ↔ GoesOn (map T.number items.now) (index * 64 + lane)) }
{
    let start = index * 64;
    let count = items.len() - start;
    if index > 0 && count >= 64 {
        nonzero_bits(&differing(items, start, 0, 64))
    } else {
        nonzero_bits(&differing(items, start, usize::from(index == 0), count.min(64)))
    }
}

// A byte for each of the numbers from `start` to `start + stop` - 1, 64 of them at most: 1 where it differs from the
// number before, and else 0. The lanes before `first` have none before. Where both are constants, this has no loop.
#[inline(always)]
fn differing<T: NativePType>(items: &[T], start: usize, first: usize, stop: usize) -> [u8; 64]
    requires first { start + first ≡ max 1 start }
    requires few { stop ≤ 64 }
    requires within { start + stop ≤ length items.now }
    ensures { (lane : ℕ) → lane < stop →
        ((slice_index result lane ≡ 0) ↔ GoesOn (map T.number items.now) (start + lane)) }
{
    let mut differs = [0u8; 64];
    for lane in first..stop {
        let here = start + lane;
        differs[lane] = u8::from(items[here] != items[here - 1]);
    }
    differs
}

// A bit for each byte, the first lowest: whether it is not 0.
#[inline(always)]
fn nonzero_bits(bytes: &[u8; 64]) -> u64
    ensures { (lane : ℕ) → lane < 64 → ((bit_at result lane ≡ 0) ↔ (slice_index bytes.now lane ≡ 0)) }
{
    u8x64::from_slice(&bytes[..])
        .simd_ne(u8x64::splat(0))
        .to_bitmask()
}
