//! One run column: its decoders, single rows, the validity, its data, its slices and its metadata record; columns of
//! any form worked row by row; how many bytes columns take, and the parts of lists.
#![tactic(auto)]

mod bit_indices;
pub mod compress;
mod constant_rows;
mod data;
mod decoded;
pub mod decompress_bool;
mod fill_and_cast;
mod filter_take;
mod flags;
mod flat_sizes;
mod list_values;
mod lists;
mod over;
mod probe;
mod record;
mod run_values;
mod sizes;
mod sliced_rows;
mod slices;
mod valid_rows;
mod visible;

pub use bit_indices::set_bit_indices;
pub use data::{RunEndData, RunEndDataParts};
pub use decoded::flat_rows;
pub use fill_and_cast::{cast_rows, fill_rows};
pub use filter_take::{filter_rows, take_rows};
pub use lists::{list_elements, list_offsets, list_sizes, list_validity, lists_over};
pub use over::{minimal_runs, over_runs, over_visible_runs, with_minimal_runs};
pub use probe::RunEndProbe;
pub use record::{deserialize, serialize};
pub use run_values::{select_values, selected_by, take_values};
pub use sizes::bytes_used;
pub use sliced_rows::slice_rows;
pub use slices::slice;
pub use valid_rows::validity;
pub use visible::{borrowed_values, ends_of_visible, visible_offset, visible_values};
