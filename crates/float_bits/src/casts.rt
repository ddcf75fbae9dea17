//! Floats of one format as floats of another: the same float, or the nearest.
ghost use Rattle.std.specs.Prelude.{◌≡◌, ◌<◌, ℕ, MatchOption};
ghost use Rattle.float_bits.specs.Casts.{IsRoundedFloat, IsRoundedMagnitude, IsSameFloat, IsSameMagnitude};
ghost use Rattle.float_bits.specs.CommonSizes.{common_size};
ghost use Rattle.float_bits.specs.Format.{IsPattern, infinity, sign_bit};
ghost use Rattle.float_bits.specs.Nearest.{IsExactly, IsNearestIn};

use crate::decoding::decode;
use crate::formats::FloatFormat;
use crate::nearest::{Nearest, round_size};

/// Returns the bits of the same float in another format, or `None` where that format does not have it. A NaN keeps its
/// sign and its payload, from the highest bit on, so that it is refused where lower bits would be lost.
pub fn cast_float(from: FloatFormat, to: FloatFormat, bits: u64) -> Option<u64>
    requires { IsPattern from bits }
    ensures { MatchOption result ((other : ℕ) → ¬ IsSameFloat from bits to other) (IsSameFloat from bits to) }
{
    let sign_bit = from.sign_bit();
    if bits < sign_bit {
        return cast_magnitude(from, to, bits);
    }
    match cast_magnitude(from, to, bits - sign_bit) {
        Some(magnitude) => Some(to.sign_bit() + magnitude),
        None => None,
    }
}

/// Returns the bits of the float of another format that is nearest, at a tie the even one, with the same sign. By IEEE
/// 754 a number past the finite floats by half a step or more is an infinity. A NaN keeps its payload where the other
/// format has it, and is else the quiet NaN without payload.
pub fn round_float(from: FloatFormat, to: FloatFormat, bits: u64) -> u64
    requires { IsPattern from bits }
    ensures { IsRoundedFloat from bits to result }
{
    let sign_bit = from.sign_bit();
    if bits < sign_bit {
        return round_magnitude(from, to, bits);
    }
    to.sign_bit() + round_magnitude(from, to, bits - sign_bit)
}

// Returns the same of a float with plus.
fn cast_magnitude(from: FloatFormat, to: FloatFormat, magnitude: u64) -> Option<u64>
    requires { magnitude < sign_bit from }
    ensures { MatchOption result ((other : ℕ) → ¬ IsSameMagnitude from magnitude to other)
        (IsSameMagnitude from magnitude to) }
{
    if magnitude > from.infinity() {
        return cast_nan(from, to, magnitude);
    }
    if magnitude == from.infinity() {
        return Some(to.infinity());
    }
    let nearest = nearest_to(from, to, magnitude);
    if nearest.is_exact {
        Some(nearest.bits)
    } else {
        None
    }
}

// Returns the same of a float with plus.
fn round_magnitude(from: FloatFormat, to: FloatFormat, magnitude: u64) -> u64
    requires { magnitude < sign_bit from }
    ensures { IsRoundedMagnitude from magnitude to result }
{
    if magnitude > from.infinity() {
        return match cast_nan(from, to, magnitude) {
            Some(nan) => nan,
            None => to.quiet_nan(),
        };
    }
    if magnitude == from.infinity() {
        return to.infinity();
    }
    nearest_to(from, to, magnitude).bits
}

// Returns the float of another format that is nearest to a finite one with plus.
fn nearest_to(from: FloatFormat, to: FloatFormat, magnitude: u64) -> Nearest
    requires { magnitude < infinity from }
    ensures nearest { IsNearestIn to (common_size from magnitude) result.bits }
    ensures exact { IsExactly to (common_size from magnitude) result.bits result.is_exact }
{
    let size = decode(from, magnitude);
    round_size(to, size.digits, size.doublings + from.unit_doublings())
}

// Returns the NaN with plus of another format that has the same fraction from the highest bit on, or `None` where that
// would lose bits.
fn cast_nan(from: FloatFormat, to: FloatFormat, magnitude: u64) -> Option<u64>
    requires nan { infinity from < magnitude }
    requires plus { magnitude < sign_bit from }
    ensures { MatchOption result ((other : ℕ) → ¬ IsSameMagnitude from magnitude to other)
        (IsSameMagnitude from magnitude to) }
{
    let fraction = u128::from(magnitude - from.infinity()) * u128::from(to.exponent_unit());
    let unit = u128::from(from.exponent_unit());
    if fraction % unit == 0 {
        return Some(to.infinity() + (fraction / unit) as u64);
    }
    None
}
