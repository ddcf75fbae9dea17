//! Run-end encodings that are built batch by batch, flat columns that grow at their end, and laws of columns that are
//! cut into chunks.
#![tactic(auto)]

mod bits;
mod builder;
mod column_builder;
mod columns;
mod encode;
mod ends;
mod items;
pub mod laws;
mod numbers;
mod row_items;
mod seam;
mod spans;
mod taken;
mod texts;

pub use builder::RunBuilder;
pub use column_builder::FlatBuilder;
pub use encode::{encode_rows, row_runs};
