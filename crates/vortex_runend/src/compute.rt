//! The kernels of run columns, and the strategies by which a take finds its runs.

pub use crate::strategies::{
    physical_indices_binary, physical_indices_linear_sorted, physical_indices_linear_unsorted,
    physical_indices_table, run_index_table,
};
pub use runend_aggregate::{is_constant, is_sorted, min_max, sum};
pub use runend_column::slice;
pub use runend_map::{
    CompareOperator, cast, compare, fill_null, map_rows, map_rows_bool, take_from,
};
pub use runend_select::{
    filter, filter_run_end_primitive, physical_indices, take, take_indices_unchecked,
};
