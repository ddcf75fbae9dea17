//! Flat columns of floats of 16, 32 and 64 bits, stored by their keys in columns of integers.
#![tactic(auto)]

mod casts;
mod extremes;
mod formats;
mod key_tests;
mod keys;
mod number_casts;
mod patterns;
mod stored;
mod tested;
mod widths;

pub use casts::cast_numbers;
pub use extremes::{extremes_of, floats_of_keys};
pub use float_bits::FloatFormat;
pub use formats::{
    bits_type, float_format, format_of_column, format_of_constant, holds_bits, key_type,
};
pub use key_tests::{EveryKey, KeyComparison, KeyRange, KeyTest};
pub use keys::key_at;
pub use number_casts::{
    FloatsOfIntegers, IntegersOfFloats, NumberCast, RoundedFloats, RoundedIntegers, SameFloats,
};
pub use patterns::FloatPatterns;
pub use stored::{bits_of, keys_of};
pub use tested::tested_keys;
