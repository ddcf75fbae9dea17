//! Groups of rows that are equal in several columns, and the order of rows by several columns, at the cost of the runs
//! of all.
#![tactic(auto)]

mod common_ends;
mod folds;
mod groups;
mod keys;
mod orders;
mod ranks;

pub use folds::fold_groups;
pub use groups::{cut_groups, one_group, rows_alone, starts_of};
pub use keys::{RowOrder, SortKey};
pub use orders::sorted_groups;
