//! Bits taken at positions, 64 to a word.
ghost use Rattle.std.specs.Prelude.{◌≡◌, ℕ, ◌+◌, ◌*◌, ◌/◌, ◌<◌, ◌≤◌, IfOk, IsOkUnless, length, map, slice_index, if◌then◌else◌};
ghost use Rattle.std.specs.Int.{bit_at};
ghost use Rattle.column_base.specs.ValidityForm.{HasLength, HasRow, flag_at};
ghost use Rattle.column_base.specs.Validity.{form_of, validity_flags};
ghost use Rattle.column_base.specs.Words.{digit_at, one_if};
ghost use Rattle.column_core.specs.Optionals.{optionals};
ghost use Rattle.column_ops.specs.Take.{taken_bit};

use column_core::{BitBuffer, BitBufferMut, Validity, VortexError, VortexResult};
use std::alloc::Allocator;

/// Returns the bits at these positions: false where the position is null or has no bit. Any number may be stored under
/// null. Refused only as `OutOfMemory`.
pub(crate) fn bits_at<A: Allocator + Copy>(
    alloc: A,
    bits: &BitBuffer<A>,
    positions: &[u64],
    places: &Validity<A>,
) -> VortexResult<BitBuffer<A>>
    requires { HasLength (form_of places.now) (length positions.now) }
    ensures only { IsOkUnless result VortexError.OutOfMemory }
    ensures bits { IfOk result (λ taken. taken ≡
        map (taken_bit bits.now) (optionals positions.now (validity_flags places.now (length positions.now)))) }
{
    let words = words_at(alloc, bits.words(), positions, places)?;
    Ok(BitBufferMut::from_words(words, positions.len()).freeze())
}

// For each position its bit, and 0 where the position is null, in words of 64.
fn words_at<A: Allocator + Copy>(
    alloc: A,
    words: &[u64],
    positions: &[u64],
    places: &Validity<A>,
) -> VortexResult<Vec<u64, A>>
    requires { HasLength (form_of places.now) (length positions.now) }
    ensures only { IsOkUnless result VortexError.OutOfMemory }
    ensures len { IfOk result (λ taken. length taken.items ≡ (length positions.now + 63) / 64) }
    ensures digits { IfOk result (λ taken. (i : ℕ) → i < length positions.now → digit_at taken.items i ≡
        (if flag_at (form_of places.now) i then digit_at words.now (slice_index positions.now i) else 0)) }
{
    let count = positions.len();
    let mut taken = Vec::with_capacity(alloc, count.div_ceil(64))?;
    for index in 0..count.div_ceil(64) {
        let start = index * 64;
        let stop = start + (count - start).min(64);
        taken.push_reserved(word_at(words, &positions[start..stop]) & valid_word(places, index));
    }
    Ok(taken)
}

// The bits at up to 64 positions, the first of them lowest.
#[inline(always)]
fn word_at(words: &[u64], positions: &[u64]) -> u64
    requires { length positions.now ≤ 64 }
    ensures { (j : ℕ) → j < length positions.now → bit_at result j ≡ digit_at words.now (slice_index positions.now j) }
{
    let mut word = 0;
    let mut left = positions.len();
    while left > 0 {
        left -= 1;
        word = (word << 1) | bit_or_zero(words, positions[left]);
    }
    word
}

// The bit at a position, and 0 after the last word.
#[inline(always)]
fn bit_or_zero(words: &[u64], position: u64) -> u64
    ensures { result ≡ digit_at words.now position }
{
    (word_or_zero(words, position / 64) >> (position % 64)) & 1
}

// The word at an index, and 0 after the last.
#[inline(always)]
fn word_or_zero(words: &[u64], index: u64) -> u64
    ensures { result ≡ slice_index words.now index }
{
    match words.get(index as usize) {
        Some(word) => *word,
        None => 0,
    }
}

// For each of 64 rows, from row `index` * 64 on, whether it is valid.
#[inline(always)]
fn valid_word<A: Allocator>(validity: &Validity<A>, index: usize) -> u64
    requires { HasRow (form_of validity.now) (index * 64) }
    ensures { (j : ℕ) → j < 64 → bit_at result j ≡ one_if (flag_at (form_of validity.now) (index * 64 + j)) }
{
    match validity {
        Validity::NonNullable => u64::MAX,
        Validity::AllValid => u64::MAX,
        Validity::AllInvalid => 0,
        Validity::Bits(bits) => bits.words()[index],
    }
}
