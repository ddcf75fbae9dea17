//! The rows of a column reversed, sorted, and counted by value, at the cost of its runs.
#![tactic(auto)]

mod counted;
mod keyed;
mod keys;
mod lengths;
mod reversed;
mod row_runs;
mod sorted;
mod table;

pub use counted::{ValueCounts, value_counts};
pub use reversed::reverse;
pub use sorted::sort;
