//! Floats by their keys: calculations as IEEE 754 defines them.
ghost use Rattle.std.specs.Prelude.{◌≡◌};
ghost use Rattle.std.specs.Float.{binary32, binary64};
ghost use Rattle.float_bits.specs.declared.formats.FloatFormat.{FloatFormat};
ghost use Rattle.float_bits.specs.declared.formats.FloatFormat.TheVariants.{F32, F64};
ghost use Rattle.runend_pairs.specs.FloatKeys.{float_given, float_of_key, key_given, key_of_float};

use crate::float_numerics::FloatOperator;
use column_core::NativePType;
use float_bits::{FloatFormat, from_total_key, total_key};
use std::num::{
    f32_from_bits_with_nan, f32_to_bits_with_nan, f64_from_bits_with_nan, f64_to_bits_with_nan,
};

/// Calculates with floats of one format by their keys.
pub(crate) trait FloatKey: NativePType {
    // The format.
    ghost format: { FloatFormat };

    /// Returns the key of the float that an operator gives for the floats of two keys.
    fn combine(operator: FloatOperator, left: Self, right: Self) -> Self
        ensures { Self.number result ≡ key_given operator format (Self.number left) (Self.number right) };
}

impl FloatKey for i32 {
    ghost format = { F32 };

    fn combine(operator: FloatOperator, left: i32, right: i32) -> i32 {
        key_of_f32(operator.of_f32(f32_of_key(left), f32_of_key(right)))
    }
}

impl FloatKey for i64 {
    ghost format = { F64 };

    fn combine(operator: FloatOperator, left: i64, right: i64) -> i64 {
        key_of_f64(operator.of_f64(f64_of_key(left), f64_of_key(right)))
    }
}

impl FloatOperator {
    // The float of 32 bits that two give.
    fn of_f32(self, left: f32, right: f32) -> f32
        ensures { result ≡ float_given self binary32 left right }
    {
        match self {
            FloatOperator::Add => left + right,
            FloatOperator::Subtract => left - right,
            FloatOperator::Multiply => left * right,
            FloatOperator::Divide => left / right,
        }
    }

    // The float of 64 bits that two give.
    fn of_f64(self, left: f64, right: f64) -> f64
        ensures { result ≡ float_given self binary64 left right }
    {
        match self {
            FloatOperator::Add => left + right,
            FloatOperator::Subtract => left - right,
            FloatOperator::Multiply => left * right,
            FloatOperator::Divide => left / right,
        }
    }
}

// The float that has this key.
fn f32_of_key(key: i32) -> f32
    ensures { result ≡ float_of_key F32 key }
{
    let bits = from_total_key(FloatFormat::F32, i64::from(key));
    f32_from_bits_with_nan(bits as u32)
}

// The key of a float; every NaN has the key of the quiet NaN with a plus and without payload.
fn key_of_f32(float: f32) -> i32
    ensures { result ≡ key_of_float F32 float }
{
    let bits = f32_to_bits_with_nan(float);
    total_key(FloatFormat::F32, u64::from(bits)) as i32
}

// The float that has this key.
fn f64_of_key(key: i64) -> f64
    ensures { result ≡ float_of_key F64 key }
{
    f64_from_bits_with_nan(from_total_key(FloatFormat::F64, key))
}

// The key of a float; every NaN has the key of the quiet NaN with a plus and without payload.
fn key_of_f64(float: f64) -> i64
    ensures { result ≡ key_of_float F64 float }
{
    total_key(FloatFormat::F64, f64_to_bits_with_nan(float))
}
