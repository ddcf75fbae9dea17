//! Tests that decide comparisons of floats by their keys.
ghost use Rattle.std.specs.Prelude.{◌≡◌, ◌↔◌, ℕ, ℤ, Bool, IsTrue, false, true};
ghost use Rattle.std.specs.Ordering.{int_cmp};
ghost use Rattle.column_ops.specs.Comparing.{holds_of};
ghost use Rattle.float_bits.specs.Format.{IsPattern};
ghost use Rattle.float_bits.specs.Number.{IsNan};
ghost use Rattle.float_bits.specs.TotalOrder.{total_key as key_of};
ghost use Rattle.column_floats.specs.Comparisons.{HoldsInTotalOrder, HoldsOfNumbers, is_in_range, is_on_side};

use column_ops::CompareOperator;
use float_bits::{
    FloatFormat, keys_above, keys_at_least, keys_at_most, keys_below, keys_equal, total_key,
};
use std::ops::Range;

/// Tests keys.
pub trait KeyTest {
    // Whether a key passes.
    ghost passes: { Self → ℤ → Bool };

    /// Returns whether the key passes.
    fn test(&self, key: i64) -> bool
        ensures { result ≡ passes self.now key };
}

/// Passes the keys that compare with this one in this way.
#[derive(Drop)]
pub struct KeyComparison {
    operator: CompareOperator,
    key: i64,
}

impl KeyTest for KeyComparison {
    ghost passes = { λ own key. holds_of own.operator (int_cmp key own.key) };

    fn test(&self, key: i64) -> bool {
        self.operator.holds(key.cmp(&self.key))
    }
}

impl KeyComparison {
    /// Returns the test that the float of a key compares with this float in this way, in the total order.
    pub fn with(operator: CompareOperator, format: FloatFormat, bits: u64) -> KeyComparison
        requires { IsPattern format bits }
        ensures { (other : ℕ) → IsPattern format other →
            IsTrue (holds_of result.operator (int_cmp (key_of format other) result.key)) ↔
            HoldsInTotalOrder operator format other bits }
    {
        KeyComparison {
            operator,
            key: total_key(format, bits),
        }
    }
}

/// Passes the keys from `low` on and before `past`, or those outside.
#[derive(Drop)]
pub struct KeyRange {
    low: i64,
    past: i64,
    within: bool,
}

impl KeyTest for KeyRange {
    ghost passes = { λ own key. is_on_side own.within (is_in_range own.low own.past key) };

    fn test(&self, key: i64) -> bool {
        let inside = self.low <= key && key < self.past;
        if self.within { inside } else { !inside }
    }
}

impl KeyRange {
    /// Returns the test that the number of a key compares with this number in this way.
    pub fn with(operator: CompareOperator, format: FloatFormat, bits: u64) -> KeyRange
        requires { IsPattern format bits }
        ensures { (other : ℕ) → IsPattern format other →
            IsTrue (is_on_side result.within (is_in_range result.low result.past (key_of format other))) ↔
            HoldsOfNumbers operator format other bits }
    {
        match operator {
            CompareOperator::Eq => KeyRange::inside(keys_equal(format, bits)),
            CompareOperator::NotEq => KeyRange::outside(keys_equal(format, bits)),
            CompareOperator::Gt => KeyRange::inside(keys_above(format, bits)),
            CompareOperator::Gte => KeyRange::inside(keys_at_least(format, bits)),
            CompareOperator::Lt => KeyRange::inside(keys_below(format, bits)),
            CompareOperator::Lte => KeyRange::inside(keys_at_most(format, bits)),
        }
    }

    /// Returns the test that a key is not one of a NaN.
    pub fn of_numbers(format: FloatFormat) -> KeyRange
        ensures { (other : ℕ) → IsPattern format other →
            IsTrue (is_on_side result.within (is_in_range result.low result.past (key_of format other))) ↔
            ¬ IsNan format other }
    {
        KeyRange::with(CompareOperator::Lte, format, format.infinity())
    }

    // The test that a key is in the range.
    fn inside(keys: Range<i64>) -> KeyRange
        ensures low { result.low ≡ keys.start }
        ensures past { result.past ≡ keys.end }
        ensures side { result.within ≡ true }
    {
        KeyRange {
            low: keys.start,
            past: keys.end,
            within: true,
        }
    }

    // The test that it is not.
    fn outside(keys: Range<i64>) -> KeyRange
        ensures low { result.low ≡ keys.start }
        ensures past { result.past ≡ keys.end }
        ensures side { result.within ≡ false }
    {
        KeyRange {
            low: keys.start,
            past: keys.end,
            within: false,
        }
    }
}

/// Passes every key.
#[derive(Drop)]
pub struct EveryKey;

impl KeyTest for EveryKey {
    ghost passes = { λ own key. true };

    fn test(&self, key: i64) -> bool {
        let _ = key;
        true
    }
}
