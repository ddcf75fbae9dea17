//! Rows of run columns that a mask selects or that indices name, found by runs; and the run that each index is in, by
//! every strategy, which counts its tests.
#![tactic(auto)]

mod binary_search;
mod by_rank;
mod filtered_ends;
mod filtered_runs;
mod filters;
mod flat_takes;
pub mod laws;
mod linear_scan;
mod mask_filters;
mod mask_ranks;
mod mask_runs;
mod picked;
mod positions;
mod rank;
mod ranked;
mod ranks;
mod rows;
mod strategy;
pub mod strategy_laws;
mod table;
mod taken_runs;
mod takes;

pub use binary_search::physical_indices_binary;
pub use filtered_ends::filter_run_end_primitive;
pub use filters::filter;
pub use flat_takes::rows_at;
pub use linear_scan::{physical_indices_linear_sorted, physical_indices_linear_unsorted};
pub use mask_filters::filter_by_runs;
pub use picked::picked_strategy;
pub use positions::physical_indices;
pub use rows::{are_sorted, indexed_row};
pub use runend_column::{filter_rows, take_rows};
pub use strategy::{Strategy, TakeThresholds};
pub use table::{physical_indices_table, run_index_table};
pub use takes::{take, take_indices_unchecked};
