//! What floats of all formats are as numbers, and how they are in order.
ghost use Rattle.std.specs.Prelude.{◌≡◌, ◌+◌, ◌*◌, ◌^◌, ◌<◌, ◌≤◌, ℤ, FitsSigned, Some, min, nat_lt};
ghost use Rattle.std.specs.Int.{w128};
ghost use Rattle.std.specs.Ordering.{int_cmp};
ghost use Rattle.float_bits.specs.CommonSizes.{IsFiniteIn, common_size, unit_doublings};
ghost use Rattle.float_bits.specs.Format.{exponent_unit, sign_bit};
ghost use Rattle.float_bits.specs.Number.{size, with_sign};
ghost use Rattle.exact_numbers.specs.Exact.{exact_cmp, exact_decimal, exact_float};
ghost use Rattle.exact_numbers.specs.Floats.{exact_finite, exact_value, size_of, IsSmall, IsSmallFinite};
ghost use Rattle.exact_numbers.specs.Positions.{order_at};

use crate::decimals::zeros_after;
use crate::positions::Position;
use crate::quotients::Ratio;
use float_bits::FloatFormat;
use std::cmp::Ordering;

/// Holds what a float is as a number.
#[derive(Clone, Copy)]
pub(crate) enum FloatValue {
    Nan,
    Infinite { is_positive: bool },
    Finite(FiniteFloat),
}

/// Holds a finite float: these digits, doubled this many times.
#[derive(Clone, Copy)]
pub(crate) struct FiniteFloat {
    is_positive: bool,
    digits: u64,
    doublings: u32,
}

impl FloatValue {
    /// Returns what the float of a format is that has these bits.
    pub(crate) fn of(format: FloatFormat, bits: u64) -> FloatValue
        ensures value { exact_value result ≡ exact_float format bits }
        ensures small { IsSmall result }
    {
        let magnitude = bits % format.sign_bit();
        if magnitude > format.infinity() {
            return FloatValue::Nan;
        }
        if magnitude == format.infinity() {
            let is_positive = bits < format.sign_bit();
            return FloatValue::Infinite { is_positive };
        }
        FloatValue::Finite(decode(format, bits))
    }

    /// Returns where the float is among the integers of 128 bits that decimals of a scale are.
    pub(crate) fn position(self, scale: i8) -> Position
        requires { IsSmall self }
        ensures { (row : ℤ) → FitsSigned w128 row →
            exact_cmp (exact_decimal scale row) (exact_value self) ≡ order_at result row }
    {
        match self {
            FloatValue::Nan => Position::Nowhere,
            FloatValue::Infinite { is_positive: true } => Position::AboveAll,
            FloatValue::Infinite { is_positive: false } => Position::BelowAll,
            FloatValue::Finite(float) => float.position(scale),
        }
    }

    /// Returns the order of two floats, and none where either is a NaN.
    pub(crate) fn compare(self, other: FloatValue) -> Option<Ordering>
        requires small { IsSmall self }
        requires other { IsSmall other }
        ensures { result ≡ exact_cmp (exact_value self) (exact_value other) }
    {
        match (self, other) {
            (FloatValue::Nan, _) | (_, FloatValue::Nan) => None,
            (FloatValue::Finite(left), FloatValue::Finite(right)) => Some(left.compare(right)),
            (
                FloatValue::Infinite { is_positive: left },
                FloatValue::Infinite { is_positive: right },
            ) => Some(left.cmp(&right)),
            (FloatValue::Infinite { is_positive: true }, _)
            | (_, FloatValue::Infinite { is_positive: false }) => Some(Ordering::Greater),
            _ => Some(Ordering::Less),
        }
    }
}

impl FiniteFloat {
    // Returns where the float is among the integers of 128 bits that decimals of a scale are.
    fn position(self, scale: i8) -> Position
        requires { IsSmallFinite self }
        ensures { (row : ℤ) → FitsSigned w128 row →
            exact_cmp (exact_decimal scale row) (exact_finite self) ≡ order_at result row }
    {
        let wanted = zeros_after(scale);
        let ratio = Ratio {
            digits: u128::from(self.digits),
            tens: 127u32.saturating_sub(wanted),
            doublings: self.doublings.saturating_sub(1074),
            tenths: wanted.saturating_sub(127),
            halvings: 1074u32.saturating_sub(self.doublings),
        };
        Position::of_quotient(!self.is_positive, ratio.quotient())
    }

    // Returns the order of two floats.
    fn compare(self, other: FiniteFloat) -> Ordering
        requires small { IsSmallFinite self }
        requires other { IsSmallFinite other }
        ensures { exact_cmp (exact_finite self) (exact_finite other) ≡ Some result }
    {
        let left = self.doubled(self.doublings.saturating_sub(other.doublings));
        let right = other.doubled(other.doublings.saturating_sub(self.doublings));
        left.cmp(&right)
    }

    // Returns the digits with their sign, doubled so often, or 64 times where that is less: any digits but 0 are past
    // 64 bits then.
    fn doubled(self, times: u32) -> i128
        requires { IsSmallFinite self }
        ensures { result ≡ with_sign self.is_positive (self.digits * 2 ^ min times 64) }
    {
        let size = self.doubled_size(times) as i128;
        if self.is_positive { size } else { -size }
    }

    // Returns the same without a sign.
    fn doubled_size(self, times: u32) -> u128
        requires { IsSmallFinite self }
        ensures size { result ≡ self.digits * 2 ^ min times 64 }
        ensures few { result < 2 ^ 117 }
    {
        u128::from(self.digits) << times.min(64)
    }
}

// Returns a finite float in units of 2^-1074.
fn decode(format: FloatFormat, bits: u64) -> FiniteFloat
    requires { IsFiniteIn format bits }
    ensures sign { result.is_positive ≡ nat_lt bits (sign_bit format) }
    ensures size { common_size format bits ≡ size_of result }
    ensures small { IsSmallFinite result }
{
    let own = decode_own(format, bits);
    FiniteFloat {
        is_positive: own.is_positive,
        digits: own.digits,
        doublings: own.doublings + unit_doublings(format),
    }
}

// Returns a finite float in units of the smallest positive one of its format.
fn decode_own(format: FloatFormat, bits: u64) -> FiniteFloat
    requires { IsFiniteIn format bits }
    ensures sign { result.is_positive ≡ nat_lt bits (sign_bit format) }
    ensures size { size format bits ≡ size_of result }
    ensures digits { result.digits < 2 ^ 53 }
    ensures doublings { result.doublings + unit_doublings format ≤ 2045 }
{
    let unit = exponent_unit(format);
    let exponent = bits % format.sign_bit() / unit;
    let fraction = bits % unit;
    let is_positive = bits < format.sign_bit();
    if exponent == 0 {
        return FiniteFloat {
            is_positive,
            digits: fraction,
            doublings: 0,
        };
    }
    FiniteFloat {
        is_positive,
        digits: unit + fraction,
        doublings: (exponent - 1) as u32,
    }
}

// Returns what 1 in the exponent's field counts for.
fn exponent_unit(format: FloatFormat) -> u64
    ensures { result ≡ exponent_unit format }
{
    match format {
        FloatFormat::F16 => 1 << 10,
        FloatFormat::F32 => 1 << 23,
        FloatFormat::F64 => 1 << 52,
    }
}

// Returns how often 2^-1074 is doubled until it is the smallest positive float of the format.
fn unit_doublings(format: FloatFormat) -> u32
    ensures { result ≡ unit_doublings format }
{
    match format {
        FloatFormat::F16 => 1050,
        FloatFormat::F32 => 925,
        FloatFormat::F64 => 0,
    }
}
