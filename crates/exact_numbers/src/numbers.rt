//! A number of any type, and where it is among the integers that decimals of a scale are.
ghost use Rattle.std.specs.Prelude.{◌≡◌, ℤ, FitsSigned, option_map};
ghost use Rattle.std.specs.Int.{w128};
ghost use Rattle.std.specs.Ordering.{ordering_reverse};
ghost use Rattle.exact_numbers.specs.Exact.{exact_cmp, exact_decimal, exact_float, exact_of};
ghost use Rattle.exact_numbers.specs.Positions.{order_at};

use crate::decimals::decimal_position;
use crate::floats::FloatValue;
use crate::positions::Position;
use float_bits::FloatFormat;
use std::cmp::Ordering;

/// Holds a number that need not be of the type of the column that it is compared with.
#[derive(Clone, Copy, Debug, PartialEq, Eq, Drop)]
pub enum ExactNumber {
    /// Holds an integer, of which the last `scale` digits are after the point; where the scale is negative, as many
    /// zeros follow.
    Decimal { digits: i128, scale: i8 },
    /// Holds the float of 64 bits that has these bits.
    Double { bits: u64 },
}

impl ExactNumber {
    /// Returns where the number is among the integers of 128 bits that decimals of a scale are. Integers are decimals
    /// of scale 0.
    pub(crate) fn position(self, scale: i8) -> Position
        ensures { (row : ℤ) → FitsSigned w128 row →
            exact_cmp (exact_decimal scale row) (exact_of self) ≡ order_at result row }
    {
        match self {
            ExactNumber::Decimal { digits, scale: own } => decimal_position(digits, own, scale),
            ExactNumber::Double { bits } => {
                FloatValue::of(FloatFormat::F64, bits).position(scale)
            },
        }
    }

    /// Returns the order of a float of a format and this number, and none where either is a NaN.
    pub(crate) fn compare_float(self, format: FloatFormat, bits: u64) -> Option<Ordering>
        ensures { result ≡ exact_cmp (exact_float format bits) (exact_of self) }
    {
        let float = FloatValue::of(format, bits);
        match self {
            ExactNumber::Decimal { digits, scale } => {
                reversed(float.position(scale).order(digits))
            },
            ExactNumber::Double { bits: own } => {
                float.compare(FloatValue::of(FloatFormat::F64, own))
            },
        }
    }
}

// Returns an order from the other side.
fn reversed(order: Option<Ordering>) -> Option<Ordering>
    ensures { result ≡ option_map ordering_reverse order }
{
    match order {
        Some(order) => Some(order.reverse()),
        None => None,
    }
}
