//! Columns of integers, decimals and floats, compared with a number of any type as the exact numbers that they are.
#![tactic(auto)]

mod comparisons;
mod filters;
mod number_types;

pub use comparisons::{compare_number, number_fault};
pub use exact_numbers::ExactNumber;
pub use filters::filter_by_number;
