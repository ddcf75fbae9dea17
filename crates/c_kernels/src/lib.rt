//! Two columns that C holds, worked row by row at the cost of the runs of both, or one grouped by the other; one
//! reversed, sorted, and counted by value; what one adds to a sum; its running totals; its sum, rows, least and
//! greatest by what its format says; columns of floats, stored by their keys; casts of floats and decimals.
#![tactic(auto)]

mod cast_calls;
mod chosen;
mod combined;
mod counted;
mod decimal_cast_calls;
mod decimal_casts;
mod equal;
mod float_calls;
mod float_casts;
mod float_columns;
mod float_pairs;
mod group_calls;
mod grouped;
mod hashed;
mod named;
mod number_calls;
mod operators;
mod order_calls;
mod pair_calls;
mod part_calls;
mod reordered;
mod tested;
mod total_calls;
mod totals;
mod typed_ends;
mod typed_rows;
mod typed_sums;

pub use cast_calls::{cast_floats_handle, cast_integers_handle, cast_keys_handle};
pub use chosen::choose_handles;
pub use combined::combine;
pub use counted::{BoxedCounts, count_values};
pub use decimal_cast_calls::{cast_decimals_handle, cast_wholes_handle};
pub use decimal_casts::{decimals_cast, wholes_cast};
pub use equal::{are_equal, equal_handles};
pub use float_calls::{compare_handle, decode_handle, encode_handle};
pub use float_casts::{floats_cast, format_numbered, integers_cast, keys_cast};
pub use float_columns::{compared, decoded, encoded};
pub use float_pairs::{combine_float_handles, float_operator_by, floats_combined};
pub use group_calls::fold_handles;
pub use grouped::{BoxedGroups, groups_of};
pub use hashed::{hash_handle, hash_of};
pub use named::fold_named;
pub use number_calls::compare_number_handle;
pub use operators::{PairOperator, pair_operator_by};
pub use order_calls::{count_handle, reverse_handle, sort_handle};
pub use pair_calls::combine_handles;
pub use part_calls::{PartPairs, nulls_in_handle, part_pairs, sum_parts_in_handle};
pub use reordered::{reversed, sorted};
pub use tested::{RowTest, test_handle};
pub use total_calls::totals_handle;
pub use totals::{BoxedTotals, totals_of};
pub use typed_ends::typed_min_max_in_handle;
pub use typed_rows::typed_row_in_handle;
pub use typed_sums::{Total, typed_sum_in_handle};
