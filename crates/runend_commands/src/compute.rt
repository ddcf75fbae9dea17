//! The operations on arrays of any form, each with the exact rows, type and refusals of its definition on the plain
//! list of rows. Which kernel of the session serves, if any, decides only the form that is left and the cost.

mod casts;
mod codes;
mod comparisons;
mod constancy;
mod constants;
mod encodings;
mod extremes;
mod fills;
mod filters;
mod kernel_runs;
mod scalar_comparisons;
mod slices;
mod sortedness;
mod sums;
mod takes;

pub use casts::cast;
pub use codes::take_from;
pub use comparisons::compare;
pub use constancy::is_constant;
pub(crate) use constants::has_constant_form;
pub use encodings::encode;
pub use extremes::{extreme, min_max};
pub use fills::fill_null;
pub use filters::{filter, filter_by_runs};
pub use scalar_comparisons::compare_scalar;
pub use slices::slice;
pub use sortedness::is_sorted;
pub use sums::sum;
pub use takes::take;
