//! Which rows of columns are valid.
mod row_flags;
mod row_validity;

pub(crate) use row_flags::rows_of_validity;
pub use row_validity::RowValidity;
