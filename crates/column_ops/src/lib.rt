//! Operations on flat columns: take, filter, cast and the filling of nulls; the order of values, and what rests on it:
//! comparisons, least and greatest rows, whether rows are constant, and whether they are sorted.
#![tactic(auto)]

mod answer_words;
mod bit_writer;
mod bits_at;
mod blanks;
mod cast_numbers;
mod compare;
mod compared_truths;
mod compared_views;
mod computed_validity;
mod constants;
mod decimals;
mod extremes;
mod faults;
mod fill_items;
mod filter_bits;
mod filter_items;
mod flat_ops;
mod flat_order;
mod flat_rows;
mod item_ends;
mod item_order;
mod items;
mod items_or;
mod keep_items;
mod kinds;
mod numbers;
mod operator;
mod ops;
mod positions;
mod rows;
mod sorted;
mod take_items;
mod truths;
mod views;

pub use bit_writer::BitWriter;
pub use compare::{compare_column, compare_scalar};
pub use compared_views::compare_views;
pub use extremes::{extreme, min_max};
pub use faults::{column_fault, kind_fault};
pub use flat_order::FlatOrder;
pub use operator::CompareOperator;
pub use ops::ColumnOps;
pub use positions::{checked_index, positions_of};
pub use rows::item_at;
pub use sorted::{is_constant, is_sorted};
