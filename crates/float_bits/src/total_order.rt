//! The order of all patterns, as the order of integers.
ghost use Rattle.std.specs.Prelude.{◌≡◌, ◌↔◌, ◌<ℤ◌, ◌≤ℤ◌, pos, neg_ℤ};
ghost use Rattle.std.specs.declared.cmp.Ordering.TheVariants.{Less, Equal, Greater};
ghost use Rattle.float_bits.specs.Format.{IsPattern, sign_bit};
ghost use Rattle.float_bits.specs.TotalOrder.{IsTotallyBelow, total_key as key_of};

use crate::formats::FloatFormat;
use std::cmp::Ordering;

/// Compares two patterns by `totalOrder` of IEEE 754: `Equal` only for equal bits, so -0.0 is below 0.0, and NaNs are
/// below and above all numbers, by their signs.
pub fn compare_total(format: FloatFormat, left: u64, right: u64) -> Ordering
    requires left { IsPattern format left }
    requires right { IsPattern format right }
    ensures less { (result ≡ Less) ↔ IsTotallyBelow format left right }
    ensures equal { (result ≡ Equal) ↔ (left ≡ right) }
    ensures greater { (result ≡ Greater) ↔ IsTotallyBelow format right left }
{
    total_key(format, left).cmp(&total_key(format, right))
}

/// Returns the key of a pattern: a signed integer of the format's width, in the order of `compare_total`. 0.0 has 0,
/// -0.0 has -1.
pub fn total_key(format: FloatFormat, bits: u64) -> i64
    requires { IsPattern format bits }
    ensures { result ≡ key_of format bits }
{
    let sign_bit = format.sign_bit();
    if bits >= sign_bit {
        return -1 - (bits - sign_bit) as i64;
    }
    bits as i64
}

/// Returns the pattern that has this key; each signed integer of the format's width is the key of one.
pub fn from_total_key(format: FloatFormat, key: i64) -> u64
    requires low { neg_ℤ (pos (sign_bit format)) ≤ℤ key }
    requires high { key <ℤ pos (sign_bit format) }
    ensures pattern { IsPattern format result }
    ensures key { key_of format result ≡ key }
{
    if key < 0 {
        return format.sign_bit() + (-1 - key) as u64;
    }
    key as u64
}
