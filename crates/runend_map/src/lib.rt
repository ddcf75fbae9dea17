//! Kernels that work on the values of the visible runs of a column and keep the runs: nulls filled, values cast and
//! compared. Hidden runs decide nothing, and a kernel answers over runs what its definition answers over rows.
#![tactic(auto)]

mod answers;
mod casts;
mod codes;
mod comparisons;
mod dictionary;
mod fill;
mod pairs;
mod scalar_fn;
mod shown_runs;
mod visible;

pub use casts::cast;
pub use column_ops::CompareOperator;
pub use comparisons::compare;
pub use dictionary::{take_from, take_from_rows};
pub use fill::fill_null;
pub use runend_column::{cast_rows, fill_rows};
pub use scalar_fn::{map_rows, map_rows_bool};
