//! The operations on arrays of any form, flat, constant, lists or runs. `compute` has the kernels, which serve only run
//! columns.

pub use runend_commands::compute::{
    cast, compare, compare_scalar, encode, fill_null, filter, is_constant, is_sorted, min_max,
    slice, sum, take, take_from,
};
