//! Single words of bits: masks, and what they make of a word.
ghost use Rattle.std.specs.Prelude.{◌≡◌, ℕ, ◌+◌, ◌-◌, ◌/◌, ◌^◌, ◌<◌, ◌≤◌, nat_le, nat_lt, ◌&&◌, if◌then◌else◌};
ghost use Rattle.std.specs.Int.{bit_at};
ghost use Rattle.column_base.specs.Words.{one_if};

// How many words hold `count` bits.
pub(crate) fn words_for(count: usize) -> usize
    ensures { result ≡ (count + 63) / 64 }
{
    count.div_ceil(64)
}

// The lowest `count` bits.
pub(crate) fn low_mask(count: usize) -> u64
    requires some { 0 < count }
    requires in_word { count ≤ 64 }
    ensures { result ≡ 2 ^ count - 1 }
{
    u64::MAX >> (64 - count)
}

// 64 times the same bit.
pub(crate) fn splat(bit: bool) -> u64
    ensures { (j : ℕ) → j < 64 → bit_at result j ≡ one_if bit }
{
    if bit { u64::MAX } else { 0 }
}

// The bits from `low` to `high - 1`.
fn mask_between(low: usize, high: usize) -> u64
    requires ordered { low < high }
    requires in_word { high ≤ 64 }
    ensures { (j : ℕ) → j < 64 → bit_at result j ≡ one_if (nat_le low j && nat_lt j high) }
{
    (u64::MAX << low) & low_mask(high)
}

// The word with each bit from `low` to `high - 1` made `bit`.
pub(crate) fn filled_word(word: u64, low: usize, high: usize, bit: bool) -> u64
    requires ordered { low < high }
    requires in_word { high ≤ 64 }
    ensures { (j : ℕ) → j < 64 → bit_at result j ≡
        (if nat_le low j && nat_lt j high then one_if bit else bit_at word j) }
{
    if bit {
        word | mask_between(low, high)
    } else {
        word & !mask_between(low, high)
    }
}

// 64 bits from bit `low` of `word` on, the last of them the first of `next`.
pub(crate) fn joined_words(word: u64, next: u64, low: usize) -> u64
    requires some { 0 < low }
    requires not_all { low < 64 }
    ensures { (j : ℕ) → j < 64 → bit_at result j ≡
        (if nat_lt (low + j) 64 then bit_at word (low + j) else bit_at next (low + j - 64)) }
{
    (word >> low) | (next << (64 - low))
}
