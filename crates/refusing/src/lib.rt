// Tests of refused memory: an allocator that refuses chosen requests and passes the others on, and calls with each
// request refused in turn.
#![tactic(auto)]

mod allocator;
mod plan;
mod trials;

pub use allocator::Refusing;
pub use plan::Refusals;
pub use trials::{Calls, are_answered_in_turn};
