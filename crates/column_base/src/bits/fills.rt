//! Runs of bits in words that are made one bit, word by word.
ghost use Rattle.std.specs.Prelude.{◌≡◌, ◌+◌, ◌*◌, ◌/◌, ◌<◌, ◌≤◌, length};
ghost use Rattle.column_base.specs.Words.{IsClearedFrom, IsFilled};

use crate::bits::masks::{filled_word, low_mask, splat};

// Makes each bit from `count` on 0. The last word has bit `count - 1`.
pub(crate) fn clear_from(words: &mut [u64], count: usize)
    requires { length words.old ≡ (count + 63) / 64 }
    ensures { IsClearedFrom words.old words.new count }
{
    if count % 64 != 0 {
        words[count / 64] &= low_mask(count % 64);
    }
}

// Makes each bit from `low` to `high - 1` of the word at `index` the bit `bit`.
fn fill_in_word(words: &mut [u64], index: usize, low: usize, high: usize, bit: bool)
    requires in_words { index < length words.old }
    requires ordered { low < high }
    requires in_word { high ≤ 64 }
    ensures { IsFilled words.old words.new (index * 64 + low) (index * 64 + high) bit }
{
    words[index] = filled_word(words[index], low, high, bit);
}

// Makes each bit of the words from `first` to `last - 1` the bit `bit`.
fn fill_words(words: &mut [u64], first: usize, last: usize, bit: bool)
    requires ordered { first ≤ last }
    requires in_bounds { last ≤ length words.old }
    ensures { IsFilled words.old words.new (first * 64) (last * 64) bit }
{
    words[first..last].fill(splat(bit));
}

// Makes each bit from `start` to `stop - 1` the bit `bit`: whole words, with masks at both ends.
pub(crate) fn fill_bits(words: &mut [u64], start: usize, stop: usize, bit: bool)
    requires ordered { start ≤ stop }
    requires in_bounds { stop ≤ length words.old * 64 }
    ensures { IsFilled words.old words.new start stop bit }
{
    if start == stop {
        return;
    }
    let first = start / 64;
    let last = stop / 64;
    if first == last {
        fill_in_word(words, first, start % 64, stop % 64, bit);
        return;
    }
    fill_in_word(words, first, start % 64, 64, bit);
    fill_words(words, first + 1, last, bit);
    if stop % 64 == 0 {
        return;
    }
    fill_in_word(words, last, 0, stop % 64, bit);
}

// Makes each bit from `count` to the end of its word the bit `bit`.
pub(crate) fn fill_rest_of_word(words: &mut [u64], count: usize, bit: bool)
    requires { (count + 63) / 64 ≤ length words.old }
    ensures { IsFilled words.old words.new count ((count + 63) / 64 * 64) bit }
{
    if count % 64 != 0 {
        fill_in_word(words, count / 64, count % 64, 64, bit);
    }
}
