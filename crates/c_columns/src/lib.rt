//! Columns as C holds, makes, asks and reads them: what the calls of the library for C are made of. A function here has
//! the exact result and the refusals; a call takes columns out of its handles, and writes number and fields.
#![tactic(auto)]

pub mod arguments;
mod bits;
pub mod builder_handle;
pub mod builders;
pub mod commands;
pub mod constants;
pub mod error_fields;
pub mod flat;
pub mod formats;
mod front;
pub mod handle;
pub mod kinds;
mod levels;
pub mod lists;
mod masks;
pub mod messages;
pub mod numbers;
pub mod pairs;
pub mod questions;
mod raw_box;
pub mod row_value;
mod rows;
pub mod run_reads;
pub mod runs;
pub mod sessions;
pub mod slices;
mod text_rows;
pub mod texts;
mod true_counts;
pub mod two_columns;
pub mod windows;
mod words;
