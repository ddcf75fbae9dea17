//! Columns worked as what their formats say that their rows mean: floats, times, or what is stored.
#![tactic(auto)]

mod extremes;
mod meanings;
mod sums;
mod views;

pub use extremes::{TypedExtremes, typed_min_max};
pub use meanings::Served;
pub use sums::{Summand, TypedSum, typed_sum};
pub use views::{TypedView, typed_at};
