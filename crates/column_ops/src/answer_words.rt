//! The bits of a comparison with a constant as words, 64 to a word from its lowest bit up.
ghost use Rattle.std.specs.Prelude.{◌≡◌, ℕ, ◌+◌, ◌/◌, ◌<◌, ◌≤◌, bit_and, length, map, slice_index, IfOk, IsOkUnless};
ghost use Rattle.column_base.specs.Words.{first_bits, IsWordOf};
ghost use Rattle.column_ops.specs.Comparing.{holds_of};

use crate::operator::CompareOperator;
use column_core::{VortexError, VortexResult};
use std::alloc::Allocator;

/// Returns a bit for each item: whether the operator holds of it and the right one. Each operator has a loop of its
/// own, in which it is a constant, so that no row branches. Refused only as `OutOfMemory`.
pub(crate) fn words_of_answers<T: Copy + Ord + Drop, A: Allocator + Copy>(
    alloc: A,
    items: &[T],
    operator: CompareOperator,
    right: T,
) -> VortexResult<Vec<u64, A>>
    ensures only { IsOkUnless result VortexError.OutOfMemory }
    ensures len { IfOk result (λ words. length words.items ≡ (length items.now + 63) / 64) }
    ensures bits { IfOk result (λ words. first_bits (length items.now) words.items ≡
        map (λ item. holds_of operator (T.cmp item right)) items.now) }
{
    match operator {
        CompareOperator::Eq => words_by(alloc, items, CompareOperator::Eq, right),
        CompareOperator::NotEq => words_by(alloc, items, CompareOperator::NotEq, right),
        CompareOperator::Gt => words_by(alloc, items, CompareOperator::Gt, right),
        CompareOperator::Gte => words_by(alloc, items, CompareOperator::Gte, right),
        CompareOperator::Lt => words_by(alloc, items, CompareOperator::Lt, right),
        CompareOperator::Lte => words_by(alloc, items, CompareOperator::Lte, right),
    }
}

/// Clears each bit of the words that is not set in the others.
pub(crate) fn clear_unset(words: &mut [u64], set: &[u64])
    requires { length set.now ≡ length words.old }
    ensures len { length words.new ≡ length words.old }
    ensures both { (k : ℕ) → k < length words.old →
        slice_index words.new k ≡ bit_and (slice_index words.old k) (slice_index set.now k) }
{
    for index in 0..words.len() {
        words[index] &= set[index];
    }
}

#[inline(always)]
fn words_by<T: Copy + Ord + Drop, A: Allocator + Copy>(
    alloc: A,
    items: &[T],
    operator: CompareOperator,
    right: T,
) -> VortexResult<Vec<u64, A>>
    ensures only { IsOkUnless result VortexError.OutOfMemory }
    ensures len { IfOk result (λ words. length words.items ≡ (length items.now + 63) / 64) }
    ensures bits { IfOk result (λ words. first_bits (length items.now) words.items ≡
        map (λ item. holds_of operator (T.cmp item right)) items.now) }
{
    let mut words = Vec::with_capacity(alloc, items.len().div_ceil(64))?;
    for chunk in items.chunks(64) {
        words.push(word_by(chunk, operator, right))?;
    }
    Ok(words)
}

// The bits of up to 64 items as a word, with 0 after them.
#[inline(always)]
fn word_by<T: Copy + Ord + Drop>(items: &[T], operator: CompareOperator, right: T) -> u64
    requires { length items.now ≤ 64 }
    ensures { IsWordOf result (map (λ item. holds_of operator (T.cmp item right)) items.now) }
{
    let mut word = 0;
    for index in 0..items.len() {
        word |= u64::from(operator.holds(items[index].cmp(&right))) << index;
    }
    word
}
