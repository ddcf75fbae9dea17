//! The run-end encoding of columns of any kind: of flat columns, and of runs over them.
#![tactic(auto)]

mod changes;
mod encode;
mod item_changes;
mod join;
mod joined;
mod least;
mod row_changes;
mod row_ends;
mod rows;
mod run_ends;
mod shifted;
mod view_changes;

pub use encode::{encode_flat, encode_runs};
pub use join::coalesce_runs;
pub use least::least_ends;
