//! Columns of lists.
mod index;
mod listview;
mod runs;
mod slice;
mod stretch;
mod take;
mod within;

pub(crate) use index::{
    is_plain_index, is_plain_truths, plain_number_at, plain_numbers_between, plain_truth_at,
    plain_truths_between,
};
pub use listview::ListViewArray;
pub(crate) use runs::run_validity_of_lists;
pub(crate) use stretch::Stretch;
