//! Sums of integers: of runs, each added at once, and of flat columns.
#![tactic(auto)]

mod answer;
mod calls;
mod flat;
mod item_flags;
mod items;
mod known_runs;
mod numbers;
mod run_sum;
mod runs;
mod signed;
mod signed_ptype;
mod summed_in;
mod unsigned;

pub use answer::{SumAnswer, SumValue};
pub use flat::sum_view;
pub use item_flags::{AllValid, ByBits, ItemFlags};
pub use items::{AllNull, Items, Numbers};
pub use numbers::{signed_at, unsigned_at};
pub use run_sum::RunSum;
pub use runs::{Runs, sum_in_runs};
pub use signed::SignedSum;
pub use signed_ptype::SignedPType;
pub use summed_in::SummedIn;
pub use unsigned::UnsignedSum;
