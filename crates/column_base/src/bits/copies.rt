//! Bits in words that are copied from any place on.
ghost use Rattle.std.specs.Prelude.{◌≡◌, ◌+◌, ◌/◌, ◌≤◌, length, slice_index};
ghost use Rattle.column_base.specs.Words.{HasBitsFrom};

use crate::bits::masks::joined_words;

// The word at `index`, or 0 past the last word.
pub(crate) fn word_or_zero(words: &[u64], index: usize) -> u64
    ensures { result ≡ slice_index words.now index }
{
    if index < words.len() { words[index] } else { 0 }
}

// Fills all of `target` with the bits of `source` from `start` on, with 0 past its last.
pub(crate) fn copy_bits(target: &mut [u64], source: &[u64], start: usize)
    requires { start / 64 + length target.old ≤ length source.now }
    ensures len { length target.new ≡ length target.old }
    ensures bits { HasBitsFrom target.new (length target.old) source.now start }
{
    let first = start / 64;
    let low = start % 64;
    let count = target.len();
    if low == 0 {
        target.copy_from_slice(&source[first..first + count]);
        return;
    }
    if count == 0 {
        return;
    }
    let last = count - 1;
    for k in 0..last {
        target[k] = joined_words(source[first + k], source[first + k + 1], low);
    }
    target[last] = joined_words(
        source[first + last],
        word_or_zero(source, first + last + 1),
        low,
    );
}
