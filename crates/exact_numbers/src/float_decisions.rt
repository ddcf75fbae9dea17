//! Comparisons of floats with a number of any type, decided by comparisons with a float that their format has.
ghost use Rattle.std.specs.Prelude.{◌≡◌, ◌+◌, ◌*◌, ◌<◌, true, MatchBool, Some};
ghost use Rattle.float_bits.specs.Format.{IsPattern, infinity};
ghost use Rattle.float_bits.specs.Number.{IsNan};
ghost use Rattle.exact_numbers.specs.Exact.{exact_cmp, exact_float, exact_of};
ghost use Rattle.exact_numbers.specs.FloatDecisions.{IsDecidedAmongFloats, IsDecidedPast, IsGreatestFloat, float_at, is_at_most};

use crate::numbers::ExactNumber;
use column_ops::CompareOperator;
use float_bits::FloatFormat;
use std::cmp::Ordering;

/// Holds a comparison that answers for each float of a format what a comparison with a number of any type answers.
#[derive(Clone, Copy, Debug, PartialEq, Eq, Drop)]
pub struct FloatDecision {
    pub operator: CompareOperator,
    /// Holds the bits of a float that the format has.
    pub bits: u64,
}

impl ExactNumber {
    /// Returns the comparison that answers for each float of a format, as `float_bits` compares them, what the operator
    /// answers of it and this number: with this number where the format has it, else with the greatest float below it,
    /// or with a NaN, which only is unequal.
    pub fn decide_floats(self, operator: CompareOperator, format: FloatFormat) -> FloatDecision
        ensures pattern { IsPattern format result.bits }
        ensures decided { IsDecidedAmongFloats operator self format result }
    {
        if !self.is_from(format, float_at(format, 0)) {
            let bits = format.quiet_nan();
            return FloatDecision { operator, bits };
        }
        let bits = self.greatest_float(format);
        if self.is_float(format, bits) {
            FloatDecision { operator, bits }
        } else {
            past(operator, format, bits)
        }
    }

    // Returns the greatest float of a format that is not above the number.
    fn greatest_float(self, format: FloatFormat) -> u64
        requires { is_at_most (exact_cmp (exact_float format (float_at format 0)) (exact_of self)) ≡ true }
        ensures { IsGreatestFloat format (exact_of self) result }
    {
        let mut low = 0;
        let mut high = 2 * format.infinity() + 2;
        while high - low > 1 {
            let middle = low + (high - low) / 2;
            if self.is_from(format, float_at(format, middle)) {
                low = middle;
            } else {
                high = middle;
            }
        }
        float_at(format, low)
    }

    // Returns whether the number is a float.
    fn is_float(self, format: FloatFormat, bits: u64) -> bool
        ensures { let order = exact_cmp (exact_float format bits) (exact_of self) in
            MatchBool result (order ≡ Some Ordering.Equal) (¬ (order ≡ Some Ordering.Equal)) }
    {
        match self.compare_float(format, bits) {
            Some(Ordering::Equal) => true,
            _ => false,
        }
    }

    // Returns whether the number is a float or above it.
    fn is_from(self, format: FloatFormat, bits: u64) -> bool
        ensures { result ≡ is_at_most (exact_cmp (exact_float format bits) (exact_of self)) }
    {
        match self.compare_float(format, bits) {
            Some(Ordering::Less | Ordering::Equal) => true,
            _ => false,
        }
    }
}

// Returns the comparison for a number that is above a float and below the next.
fn past(operator: CompareOperator, format: FloatFormat, bits: u64) -> FloatDecision
    requires pattern { IsPattern format bits }
    requires number { ¬ IsNan format bits }
    ensures pattern { IsPattern format result.bits }
    ensures decided { IsDecidedPast operator format bits result }
{
    match operator {
        CompareOperator::Lt | CompareOperator::Lte => FloatDecision {
            operator: CompareOperator::Lte,
            bits,
        },
        CompareOperator::Gt | CompareOperator::Gte => FloatDecision {
            operator: CompareOperator::Gt,
            bits,
        },
        CompareOperator::Eq | CompareOperator::NotEq => FloatDecision {
            operator,
            bits: format.quiet_nan(),
        },
    }
}

// Returns the bits of the float at a place among those other than NaNs, in their order: -0.0 is before 0.0.
fn float_at(format: FloatFormat, place: u64) -> u64
    requires { place < 2 * infinity format + 2 }
    ensures { result ≡ float_at format place }
{
    let infinity = format.infinity();
    if place <= infinity {
        format.sign_bit() + (infinity - place)
    } else {
        place - infinity - 1
    }
}
