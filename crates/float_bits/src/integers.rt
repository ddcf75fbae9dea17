//! Integers as floats, and floats as integers.
ghost use Rattle.std.specs.Prelude.{◌≡◌, ◌<◌, ◌≤◌, ◌*◌, ◌^◌, ℕ, ℤ, MatchOption, unsigned_abs};
ghost use Rattle.float_bits.specs.Casts.{IsFloatOf, IsInteger, IsNearestToInteger};
ghost use Rattle.float_bits.specs.CommonSizes.{one_size};
ghost use Rattle.float_bits.specs.Format.{IsPattern};
ghost use Rattle.float_bits.specs.Nearest.{IsExactly, IsNearestIn};

use crate::decoding::decode;
use crate::formats::FloatFormat;
use crate::nearest::{Nearest, round_size};

// How often 2^-1074 is doubled until it is 1.
const ONE_DOUBLINGS: u64 = 1074;

/// Returns the bits of the float that is this integer, or `None` where the format has none. 0 is 0.0.
pub fn cast_integer(format: FloatFormat, integer: i128) -> Option<u64>
    requires { unsigned_abs integer < 2 ^ 64 }
    ensures { MatchOption result ((bits : ℕ) → ¬ IsFloatOf format integer bits) (IsFloatOf format integer) }
{
    let nearest = nearest_to(format, integer);
    if !nearest.is_exact {
        return None;
    }
    if integer < 0 {
        return Some(format.sign_bit() + nearest.bits);
    }
    Some(nearest.bits)
}

/// Returns the bits of the float that is nearest to this integer, at a tie the even one. 0 is 0.0.
pub fn round_integer(format: FloatFormat, integer: i128) -> u64
    requires { unsigned_abs integer < 2 ^ 64 }
    ensures { IsNearestToInteger format integer result }
{
    let nearest = nearest_to(format, integer);
    if integer < 0 {
        return format.sign_bit() + nearest.bits;
    }
    nearest.bits
}

// Returns the float with plus that is nearest to an integer without its sign.
fn nearest_to(format: FloatFormat, integer: i128) -> Nearest
    requires { unsigned_abs integer < 2 ^ 64 }
    ensures nearest { IsNearestIn format (unsigned_abs integer * one_size) result.bits }
    ensures exact { IsExactly format (unsigned_abs integer * one_size) result.bits result.is_exact }
{
    round_size(format, integer.unsigned_abs() as u64, ONE_DOUBLINGS)
}

/// Returns the integer that a float is, or `None` where it is not one, or not one of 64 bits and a sign: where it has a
/// fraction, is infinite or a NaN. -0.0 is 0.
pub fn integer_of(format: FloatFormat, bits: u64) -> Option<i128>
    requires { IsPattern format bits }
    ensures { MatchOption result ((integer : ℤ) → unsigned_abs integer < 2 ^ 64 → ¬ IsInteger format bits integer)
        (IsInteger format bits) }
{
    let sign_bit = format.sign_bit();
    if bits % sign_bit >= format.infinity() {
        return None;
    }
    let size = decode(format, bits);
    let whole = whole_of(size.digits, size.doublings + format.unit_doublings())?;
    if bits >= sign_bit {
        return Some(-(whole as i128));
    }
    Some(whole as i128)
}

// Returns how many times these digits of 2^-1074, doubled this many times, have 1, or `None` where that leaves a
// fraction, or may be 2^64 or more.
fn whole_of(digits: u64, doublings: u64) -> Option<u128>
    requires { digits < 2 ^ 53 }
    ensures { MatchOption result ((whole : ℕ) → whole < 2 ^ 64 → ¬ (digits * 2 ^ doublings ≡ whole * one_size))
        (λ whole. (digits * 2 ^ doublings ≡ whole * one_size) × (whole < 2 ^ 127)) }
{
    if digits == 0 {
        return Some(0);
    }
    if doublings >= ONE_DOUBLINGS {
        return doubled(digits, doublings - ONE_DOUBLINGS);
    }
    halved(digits, ONE_DOUBLINGS - doublings)
}

// Returns digits doubled this many times, or `None` where that is 2^64 or more.
fn doubled(digits: u64, times: u64) -> Option<u128>
    requires some { 0 < digits }
    requires digits { digits < 2 ^ 53 }
    ensures { MatchOption result (2 ^ 64 ≤ digits * 2 ^ times)
        (λ whole. (whole ≡ digits * 2 ^ times) × (whole < 2 ^ 127)) }
{
    if times > 63 {
        return None;
    }
    Some(u128::from(digits) << times)
}

// Returns digits halved this many times, or `None` where that leaves a fraction.
fn halved(digits: u64, times: u64) -> Option<u128>
    requires some { 0 < digits }
    requires digits { digits < 2 ^ 53 }
    ensures { MatchOption result ((whole : ℕ) → ¬ (digits ≡ whole * 2 ^ times))
        (λ whole. (digits ≡ whole * 2 ^ times) × (whole < 2 ^ 127)) }
{
    if times > 63 {
        return None;
    }
    let unit = 1u64 << times;
    if digits % unit == 0 {
        Some(u128::from(digits / unit))
    } else {
        None
    }
}
