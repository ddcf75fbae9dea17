//! Sizes rounded to the nearest float of a format.
ghost use Rattle.std.specs.Prelude.{◌≡◌, ◌+◌, ◌*◌, ◌/◌, ◌%◌, ◌^◌, ◌<◌, ◌≤◌};
ghost use Rattle.float_bits.specs.CommonSizes.{unit_doublings, unit_size};
ghost use Rattle.float_bits.specs.Format.{exponent_unit, greatest_steps};
ghost use Rattle.float_bits.specs.Nearest.{IsExactly, IsNearestIn};

use crate::formats::FloatFormat;

/// Holds the bits of the float with plus that is nearest to a size, and whether it has exactly that size.
#[derive(Clone, Copy)]
pub(crate) struct Nearest {
    pub(crate) bits: u64,
    pub(crate) is_exact: bool,
}

/// Returns the float that is nearest to these digits of 2^-1074, doubled this many times, at a tie the even one:
/// infinity past the finite floats.
pub(crate) fn round_size(format: FloatFormat, digits: u64, doublings: u64) -> Nearest
    requires { doublings ≤ 2045 }
    ensures nearest { IsNearestIn format (digits * 2 ^ doublings) result.bits }
    ensures exact { IsExactly format (digits * 2 ^ doublings) result.bits result.is_exact }
{
    if digits == 0 {
        return Nearest {
            bits: 0,
            is_exact: true,
        };
    }
    let steps = exponent_steps(format, digits, doublings);
    if steps > format.greatest_steps() {
        return Nearest {
            bits: format.infinity(),
            is_exact: false,
        };
    }
    let shift = steps + format.unit_doublings() + 63 - doublings;
    if shift > 127 {
        return Nearest {
            bits: 0,
            is_exact: false,
        };
    }
    round_digits(format, digits, doublings, steps, shift)
}

// Returns how many steps of the exponent past the least one the float of a size has, when it is cut after as many
// digits as the format has.
fn exponent_steps(format: FloatFormat, digits: u64, doublings: u64) -> u64
    requires some { 0 < digits }
    requires doublings { doublings ≤ 2045 }
    ensures high { digits * 2 ^ doublings < 2 * exponent_unit format * (unit_size format * 2 ^ result) }
    ensures low { 0 < result → exponent_unit format * (unit_size format * 2 ^ result) ≤ digits * 2 ^ doublings }
    ensures shift { doublings < result + unit_doublings format + 63 }
    ensures few { result ≤ 2109 }
{
    let places = 64 - u64::from(digits.leading_zeros()) + doublings;
    let least = format.precision() + format.unit_doublings();
    if places > least { places - least } else { 0 }
}

// Returns the float that is nearest to a size, by the digits that are left when the others are cut off. What 1 in the
// digits that are left counts for is what 1 counts for, doubled `shift` times, in the digits doubled 63 times.
fn round_digits(format: FloatFormat, digits: u64, doublings: u64, steps: u64, shift: u64) -> Nearest
    requires high { digits * 2 ^ doublings < 2 * exponent_unit format * (unit_size format * 2 ^ steps) }
    requires low { 0 < steps → exponent_unit format * (unit_size format * 2 ^ steps) ≤ digits * 2 ^ doublings }
    requires steps { steps ≤ greatest_steps format }
    requires shift { shift + doublings ≡ steps + unit_doublings format + 63 }
    requires some { 0 < shift }
    requires few { shift ≤ 127 }
    ensures nearest { IsNearestIn format (digits * 2 ^ doublings) result.bits }
    ensures exact { IsExactly format (digits * 2 ^ doublings) result.bits result.is_exact }
{
    let cut = cut_digits(digits, shift);
    let bits = steps * format.exponent_unit() + cut.kept;
    if cut.lost < cut.half {
        return Nearest {
            bits,
            is_exact: cut.lost == 0,
        };
    }
    if cut.lost > cut.half {
        return Nearest {
            bits: bits + 1,
            is_exact: false,
        };
    }
    Nearest {
        bits: bits + cut.kept % 2,
        is_exact: false,
    }
}

// Digits that are doubled 63 times, cut: what is kept of them, what is lost, and half of what 1 in the kept ones counts
// for.
#[derive(Clone, Copy)]
struct CutDigits {
    kept: u64,
    lost: u128,
    half: u128,
}

// Cuts digits that are doubled 63 times before as many of the last binary ones as `shift`.
fn cut_digits(digits: u64, shift: u64) -> CutDigits
    requires shift { shift ≤ 127 }
    requires few { digits * 2 ^ 63 / 2 ^ shift < 2 ^ 64 }
    ensures kept { result.kept ≡ digits * 2 ^ 63 / 2 ^ shift }
    ensures lost { result.lost ≡ digits * 2 ^ 63 % 2 ^ shift }
    ensures half { result.half ≡ 2 ^ shift / 2 }
{
    let unit = 1u128 << shift;
    let wide = u128::from(digits) << 63;
    CutDigits {
        kept: (wide / unit) as u64,
        lost: wide % unit,
        half: unit / 2,
    }
}
