//! What is asked of the groups of a column, answered by what its rows are worked as.
#![tactic(auto)]

mod answering;
mod answers;
mod bounds;
mod each;
mod folds;
mod group;
mod question;
mod row_scalars;
mod sums;

pub use answering::is_answered;
pub use answers::answer_groups;
