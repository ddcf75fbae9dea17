//! Which of 64 bits or flags differ from the one before, by words.
ghost use Rattle.std.specs.Prelude.{◌≡◌, ◌≢◌, ◌+◌, ◌-◌, ◌*◌, ◌<◌, ℕ, true, false, length};
ghost use Rattle.std.specs.Int.{bit_at};
ghost use Rattle.column_base.specs.ValidityForm.{HasRow, flag_at};
ghost use Rattle.column_base.specs.Validity.{form_of};
ghost use Rattle.column_base.specs.Words.{digit_at};

use column_core::Validity;
use std::alloc::Allocator;

/// Returns a bit for each of the 64 rows from row `index` * 64 on: whether it differs from the row before, given
/// whether its item does. Null is equal to null, over any items.
#[inline(always)]
pub fn changed_optionals<A: Allocator>(validity: &Validity<A>, index: usize, items: u64) -> u64
    requires { HasRow (form_of validity.now) (index * 64) }
    ensures valid { (lane : ℕ) → lane < 64 → flag_at (form_of validity.now) (index * 64 + lane - 1) ≡ true →
        flag_at (form_of validity.now) (index * 64 + lane) ≡ true → bit_at result lane ≡ bit_at items lane }
    ensures null { (lane : ℕ) → lane < 64 → flag_at (form_of validity.now) (index * 64 + lane - 1) ≡ false →
        flag_at (form_of validity.now) (index * 64 + lane) ≡ false → bit_at result lane ≡ 0 }
    ensures one { (lane : ℕ) → lane < 64 → flag_at (form_of validity.now) (index * 64 + lane - 1) ≢
        flag_at (form_of validity.now) (index * 64 + lane) → bit_at result lane ≡ 1 }
{
    match validity {
        Validity::NonNullable => items,
        Validity::AllValid => items,
        Validity::AllInvalid => 0,
        Validity::Bits(flags) => {
            let words = flags.words();
            changed_bits(words, index) | (words[index] & items)
        }
    }
}

/// Returns a bit for each bit of the word at `index`: whether it differs from the bit before. The bit for the first bit
/// of all is false.
#[inline(always)]
pub fn changed_bits(words: &[u64], index: usize) -> u64
    requires { index < length words.now }
    ensures same { (lane : ℕ) → lane < 64 → digit_at words.now (index * 64 + lane - 1) ≡
        digit_at words.now (index * 64 + lane) → bit_at result lane ≡ 0 }
    ensures differs { (lane : ℕ) → lane < 64 → digit_at words.now (index * 64 + lane - 1) ≢
        digit_at words.now (index * 64 + lane) → bit_at result lane ≡ 1 }
{
    let word = words[index];
    word ^ ((word << 1) | bit_before(words, index))
}

// The bit before the word at `index`, and the first bit of all for the first word.
#[inline(always)]
fn bit_before(words: &[u64], index: usize) -> u64
    requires { index < length words.now }
    ensures { result ≡ digit_at words.now (index * 64 - 1) }
{
    if index == 0 {
        words[0] & 1
    } else {
        words[index - 1] >> 63
    }
}
