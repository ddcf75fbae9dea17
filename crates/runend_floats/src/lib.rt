//! Columns of floats of 16, 32 and 64 bits in any form, stored by their keys in columns of integers.
#![tactic(auto)]

mod casts;
mod comparisons;
mod decoding;
mod encoding;
mod ends;
mod extremes;
mod sums;

pub use casts::{
    cast_floats, floats_of_integers, integers_of_floats, round_floats, round_integers,
};
pub use column_floats::{FloatFormat, FloatPatterns, bits_type, float_format, key_type};
pub use column_ops::CompareOperator;
pub use comparisons::{compare_numbers, compare_total};
pub use decoding::{decode_floats, float_at};
pub use encoding::encode_floats;
pub use extremes::{min_max_numbers, min_max_total};
pub use float_bits::FloatSum;
pub use sums::sum_floats;
