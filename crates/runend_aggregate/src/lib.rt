//! Aggregates over run columns: sums, the least and the greatest row, and whether rows are constant or sorted. Each
//! looks only at the visible runs, and answers over runs what its definition answers over rows. A constant column is
//! one run of all its rows, and has the same aggregates.
#![tactic(auto)]

mod constant_sums;
mod constants;
mod extremes;
pub mod laws;
mod order;
mod rows;
mod signed_sums;
mod sums;
mod unsigned_sums;
mod visible;
mod visible_sums;

pub use column_sums::{SignedSum, SumAnswer, SumValue, UnsignedSum};
pub use constant_sums::sum_of_constant;
pub use constants::{is_constant_of_constant, is_sorted_of_constant, min_max_of_constant};
pub use extremes::{extreme, min_max};
pub use order::{is_constant, is_sorted};
pub use sums::{sum, sum_signed_runs, sum_unsigned_runs};
