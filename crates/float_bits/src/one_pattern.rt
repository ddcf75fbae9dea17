//! One pattern for each value, so that equal bits are equal values.
ghost use Rattle.std.specs.Prelude.{◌≡◌};
ghost use Rattle.float_bits.specs.Format.{IsPattern};
ghost use Rattle.float_bits.specs.Number.{IsSameValue, canonical as canonical_of};

use crate::comparisons::is_nan;
use crate::formats::FloatFormat;

/// Returns the one pattern for all patterns of the same value: 0.0 for both zeros, the quiet NaN with a plus
/// and no payload for every NaN, and the bits themselves for any other number.
pub fn canonical(format: FloatFormat, bits: u64) -> u64
    requires { IsPattern format bits }
    ensures one { result ≡ canonical_of format bits }
    ensures pattern { IsPattern format result }
    ensures value { IsSameValue format bits result }
{
    if is_nan(format, bits) {
        return format.quiet_nan();
    }
    if bits == format.sign_bit() {
        return 0;
    }
    bits
}
