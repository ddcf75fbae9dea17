//! Tables: named columns of one number of rows, each with the format of Arrow that says what its rows mean.
#![tactic(auto)]

mod appended;
mod columns;
mod comparisons;
mod fault;
mod filtered;
mod groups;
mod joined;
mod keys;
mod masks;
mod names;
mod put;
mod refusals;
mod sort;
mod table;
mod taken;
mod valid;
mod without_null;

pub use comparisons::compare_value;
pub use fault::TableError;
pub use groups::Asked;
pub use row_groups::RowOrder;
pub use runend_pairs::GroupFold;
pub use sort::KeyOrder;
pub use table::Table;
pub use typed_columns::TypedColumn;
