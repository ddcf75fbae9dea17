//! Which of 64 numbers differ from the number before: of integers at once, of decimals one by one.
ghost use Rattle.std.specs.Prelude.{◌≡◌, ◌↔◌, ◌+◌, ◌*◌, ◌<◌, ◌≤◌, ℕ, IsTrue, length, slice_get};
ghost use Rattle.std.specs.Int.{bit_at};
ghost use Rattle.column_base.specs.Numbers.{numbers};
ghost use Rattle.runend_windows.specs.Starts.{AreChangeBits, GoesOn};

use column_base::match_each_native;
use column_core::PrimitiveValues;
use runend_windows::changed_items;
use std::alloc::Allocator;

/// Returns a bit for each of the 64 integers from `index` * 64 on, the first of them lowest: whether it differs from
/// the integer before. The bit of the first integer of all is false. Bits after the last integer may be any.
#[inline(always)]
pub(crate) fn changed_integers<A: Allocator>(values: &PrimitiveValues<A>, index: usize) -> u64
    requires { index * 64 < length (numbers values.now) }
    ensures { (lane : ℕ) → lane < 64 → index * 64 + lane < length (numbers values.now) →
        ((bit_at result lane ≡ 0) ↔ GoesOn (numbers values.now) (index * 64 + lane)) }
{
    match_each_native!(values, items => changed_items(items.as_slice(), index))
}

/// Returns a bit for each of up to 64 numbers from `start` on: whether it differs from the number before. The bit of
/// the first number of all is false.
#[inline(always)]
pub(crate) fn changed_numbers(numbers: &[i128], start: usize) -> u64
    requires { start < length numbers.now }
    ensures { (lane : ℕ) → lane < 64 → start + lane < length numbers.now →
        ((bit_at result lane ≡ 0) ↔ GoesOn numbers.now (start + lane)) }
{
    let count = numbers.len() - start;
    if count < 64 {
        few_numbers(numbers, start, count)
    } else {
        many_numbers(numbers, start)
    }
}

// The bits of 64 numbers. Eight at a time are compared without a loop, since their number is a constant.
#[inline(always)]
fn many_numbers(numbers: &[i128], start: usize) -> u64
    requires { start + 64 ≤ length numbers.now }
    ensures { AreChangeBits numbers.now start (start + 64) result }
{
    let mut word = 0;
    for eight in 0..8 {
        word |= few_numbers(numbers, start + eight * 8, 8) << (eight * 8);
    }
    word
}

// The bits of `count` numbers.
#[inline(always)]
fn few_numbers(numbers: &[i128], start: usize, count: usize) -> u64
    requires few { count ≤ 64 }
    requires in_bounds { start + count ≤ length numbers.now }
    ensures { AreChangeBits numbers.now start (start + count) result }
{
    let mut word = 0;
    let mut before = start.saturating_sub(1);
    for lane in 0..count {
        let here = start + lane;
        word |= u64::from(!are_same_numbers(numbers, before, here)) << lane;
        before = here;
    }
    word
}

// Are the numbers at `left` and at `right` equal?
#[inline(always)]
fn are_same_numbers(numbers: &[i128], left: usize, right: usize) -> bool
    requires left { left < length numbers.now }
    requires right { right < length numbers.now }
    ensures { IsTrue result ↔ (slice_get numbers.now left ≡ slice_get numbers.now right) }
{
    numbers[left] == numbers[right]
}
