//! Comparisons of numbers as IEEE 754 has them: a NaN is neither below, above nor equal to anything, itself included,
//! and the two zeros are equal.
ghost use Rattle.std.specs.Prelude.{◌≡◌, ◌↔◌, IsTrue};
ghost use Rattle.float_bits.specs.Format.{IsPattern};
ghost use Rattle.float_bits.specs.Number.{IsEqual, IsLess, IsNan, signed_magnitude as signed_magnitude_of};

use crate::formats::FloatFormat;

/// Returns whether the left number is below the right one.
pub fn is_less(format: FloatFormat, left: u64, right: u64) -> bool
    requires left { IsPattern format left }
    requires right { IsPattern format right }
    ensures { IsTrue result ↔ IsLess format left right }
{
    if is_nan(format, left) || is_nan(format, right) {
        return false;
    }
    signed_magnitude(format, left) < signed_magnitude(format, right)
}

/// Returns whether both are the same number.
pub fn is_equal(format: FloatFormat, left: u64, right: u64) -> bool
    requires left { IsPattern format left }
    requires right { IsPattern format right }
    ensures { IsTrue result ↔ IsEqual format left right }
{
    if is_nan(format, left) || is_nan(format, right) {
        return false;
    }
    signed_magnitude(format, left) == signed_magnitude(format, right)
}

/// Returns whether the bits are a NaN's.
#[tactic(auto, using(crate::proofs::Magnitudes::nan_past_infinity))]
pub fn is_nan(format: FloatFormat, bits: u64) -> bool
    ensures { IsTrue result ↔ IsNan format bits }
{
    bits % format.sign_bit() > format.infinity()
}

/// Returns the bits below the sign as an integer with that sign: numbers are in its order, and both zeros have 0.
pub(crate) fn signed_magnitude(format: FloatFormat, bits: u64) -> i64
    requires { IsPattern format bits }
    ensures { result ≡ signed_magnitude_of format bits }
{
    let sign_bit = format.sign_bit();
    if bits >= sign_bit {
        return -((bits - sign_bit) as i64);
    }
    bits as i64
}
