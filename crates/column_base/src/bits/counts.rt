//! How many bits of words are 1.
ghost use Rattle.std.specs.Prelude.{◌≡◌, ℕ, ◌-◌, ◌/◌, ◌%◌, ◌^◌, ◌<◌, ◌≤◌, slice_index, count_ones};
ghost use Rattle.std.specs.List.{sum_by};

use crate::bits::masks::low_mask;

// How many of the bits from `low` to `high - 1` are 1.
pub(crate) fn ones_between(word: u64, low: usize, high: usize) -> usize
    requires ordered { low < high }
    requires in_word { high ≤ 64 }
    ensures { result ≡ count_ones (word / 2 ^ low % 2 ^ (high - low)) }
{
    ((word >> low) & low_mask(high - low)).count_ones() as usize
}

// How many bits of the words are 1. The clause also says that they are words, which a caller that
// only lent them can't know.
pub(crate) fn ones_of(words: &[u64]) -> usize
    requires { sum_by count_ones words.now < 2 ^ 64 }
    ensures count { result ≡ sum_by count_ones words.now }
    ensures fits { (i : ℕ) → slice_index words.now i < 2 ^ 64 }
{
    words.iter().map(|word| word.count_ones() as usize).sum()
}
