//! The sizes of finite floats, as digits that are doubled.
ghost use Rattle.std.specs.Prelude.{◌≡◌, ◌+◌, ◌*◌, ◌^◌, ◌<◌, ◌≤◌};
ghost use Rattle.float_bits.specs.CommonSizes.{IsFiniteIn, unit_doublings};
ghost use Rattle.float_bits.specs.Number.{size};

use crate::formats::FloatFormat;

/// Holds the size of a finite float: these digits, doubled this many times.
#[derive(Clone, Copy)]
pub(crate) struct Size {
    pub(crate) digits: u64,
    pub(crate) doublings: u64,
}

/// Returns the size of a finite float, in units of the smallest positive one of its format.
pub(crate) fn decode(format: FloatFormat, bits: u64) -> Size
    requires { IsFiniteIn format bits }
    ensures size { size format bits ≡ result.digits * 2 ^ result.doublings }
    ensures digits { result.digits < 2 ^ 53 }
    ensures doublings { result.doublings + unit_doublings format ≤ 2045 }
{
    let unit = format.exponent_unit();
    let exponent = bits % format.sign_bit() / unit;
    let fraction = bits % unit;
    if exponent == 0 {
        return Size {
            digits: fraction,
            doublings: 0,
        };
    }
    Size {
        digits: unit + fraction,
        doublings: exponent - 1,
    }
}
