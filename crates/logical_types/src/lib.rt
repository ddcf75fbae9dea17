//! Logical types: what the integers of a column mean, as an annotation that travels with the column.
#![tactic(auto)]

mod annotation;
mod formats;
mod laws;
mod numbers;
mod operations;
mod storage;
mod types;
mod units;
mod written;

pub use annotation::Annotation;
pub use formats::read_format;
pub use laws::{names_are_unique, written_formats_are_read};
pub use operations::Operation;
pub use types::{DateUnit, DecimalWidth, LogicalType, TimeUnit};
pub use units::recount;
pub use written::push_format;
