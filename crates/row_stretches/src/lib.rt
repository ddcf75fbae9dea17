//! Rows in stretches: which rows, one stretch after another, of a column of any form; and the stretches of the rows at
//! which a mask of any form is true.
#![tactic(auto)]

mod few_runs;
mod list_stops;
mod lists;
mod masks;
mod pieces;
mod positions;
mod reordered;
mod stretches;

pub use few_runs::is_in_few_runs;
pub use masks::true_stretches;
pub use reordered::rows_in;
pub use stretches::{Stretch, row_count};
