//! Comparisons with a constant as ranges of keys: a test of integers decides a comparison of numbers. A pattern is not
//! equal to the constant exactly where its key is outside of the range of `keys_equal`.
ghost use Rattle.std.specs.Prelude.{◌≡◌, ◌↔◌, ◌<ℤ◌, ◌≤ℤ◌, ℕ};
ghost use Rattle.float_bits.specs.Format.{IsPattern};
ghost use Rattle.float_bits.specs.KeyRanges.{IsWithin, first_key, lowest_key, past_key, past_keys};
ghost use Rattle.float_bits.specs.Number.{IsAtMost, IsEqual, IsLess, IsNan};
ghost use Rattle.float_bits.specs.TotalOrder.{total_key as key_of};

use crate::comparisons::is_nan;
use crate::formats::FloatFormat;
use crate::total_order::total_key;
use std::ops::Range;

/// Returns the keys of the numbers below the constant: none where it is a NaN.
pub fn keys_below(format: FloatFormat, constant: u64) -> Range<i64>
    requires { IsPattern format constant }
    ensures { (bits : ℕ) → IsPattern format bits →
        IsLess format bits constant ↔ IsWithin result.start result.end (key_of format bits) }
{
    if is_nan(format, constant) {
        return 0..0;
    }
    first_number(format)..first_not_below(format, constant)
}

/// Returns the keys of the numbers that are the constant or below it: none where it is a NaN.
pub fn keys_at_most(format: FloatFormat, constant: u64) -> Range<i64>
    requires { IsPattern format constant }
    ensures { (bits : ℕ) → IsPattern format bits →
        IsAtMost format bits constant ↔ IsWithin result.start result.end (key_of format bits) }
{
    if is_nan(format, constant) {
        return 0..0;
    }
    first_number(format)..first_above(format, constant)
}

/// Returns the keys of the patterns of the constant: both zeros for a zero, and none for a NaN.
pub fn keys_equal(format: FloatFormat, constant: u64) -> Range<i64>
    requires { IsPattern format constant }
    ensures { (bits : ℕ) → IsPattern format bits →
        IsEqual format bits constant ↔ IsWithin result.start result.end (key_of format bits) }
{
    if is_nan(format, constant) {
        return 0..0;
    }
    first_not_below(format, constant)..first_above(format, constant)
}

/// Returns the keys of the numbers that are the constant or above it: none where it is a NaN.
pub fn keys_at_least(format: FloatFormat, constant: u64) -> Range<i64>
    requires { IsPattern format constant }
    ensures { (bits : ℕ) → IsPattern format bits →
        IsAtMost format constant bits ↔ IsWithin result.start result.end (key_of format bits) }
{
    if is_nan(format, constant) {
        return 0..0;
    }
    first_not_below(format, constant)..first_nan(format)
}

/// Returns the keys of the numbers above the constant: none where it is a NaN.
pub fn keys_above(format: FloatFormat, constant: u64) -> Range<i64>
    requires { IsPattern format constant }
    ensures { (bits : ℕ) → IsPattern format bits →
        IsLess format constant bits ↔ IsWithin result.start result.end (key_of format bits) }
{
    if is_nan(format, constant) {
        return 0..0;
    }
    first_above(format, constant)..first_nan(format)
}

// Returns the key of the negative infinity, the first of a number.
fn first_number(format: FloatFormat) -> i64
    ensures { result ≡ lowest_key format }
{
    -1 - format.infinity() as i64
}

// Returns the key after the positive infinity's, the last of a number.
fn first_nan(format: FloatFormat) -> i64
    ensures { result ≡ past_keys format }
{
    format.infinity() as i64 + 1
}

// Returns the first key of the constant itself: -0.0's for a zero.
fn first_not_below(format: FloatFormat, constant: u64) -> i64
    requires pattern { IsPattern format constant }
    requires number { ¬ IsNan format constant }
    ensures { result ≡ first_key format constant }
{
    if constant == 0 {
        return -1;
    }
    total_key(format, constant)
}

// Returns the key after the last one of the constant itself: after 0.0's for a zero.
fn first_above(format: FloatFormat, constant: u64) -> i64
    requires pattern { IsPattern format constant }
    requires number { ¬ IsNan format constant }
    ensures { result ≡ past_key format constant }
{
    if constant == format.sign_bit() {
        return 1;
    }
    total_key(format, constant) + 1
}
