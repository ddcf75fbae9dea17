//! Columns of decimals of up to 38 digits in any form, worked along their runs.
#![tactic(auto)]

mod ends;
mod fault;
mod from_integers;
mod powers;
mod rescaled;
mod runs;
mod scales;
mod scaling;
mod sums;
mod to_integers;
mod totals;

pub use fault::{DecimalError, RescaleError};
pub use from_integers::decimals_of;
pub use scales::rescale;
pub use sums::{DecimalSum, sum_decimals};
pub use to_integers::integers_of;
