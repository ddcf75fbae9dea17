//! Floating-point numbers by their bits: their total order, their comparisons, one pattern for each value, casts,
//! exact or rounded, and exact sums over runs, rounded once.
#![tactic(auto)]

mod bins;
mod casts;
mod comparisons;
mod decoding;
mod float_sum;
mod formats;
mod integers;
mod key_ranges;
mod laws;
mod nearest;
mod one_pattern;
mod rounding;
mod sum_laws;
mod total_order;
mod wide_natural;

pub use casts::{cast_float, round_float};
pub use comparisons::{is_equal, is_less, is_nan};
pub use float_sum::FloatSum;
pub use formats::FloatFormat;
pub use integers::{cast_integer, integer_of, round_integer};
pub use key_ranges::{keys_above, keys_at_least, keys_at_most, keys_below, keys_equal};
pub use laws::{canonical_patterns_tell_values, total_keys_are_ordered};
pub use one_pattern::canonical;
pub use sum_laws::tallies_add_up;
pub use total_order::{compare_total, from_total_key, total_key};
