//! Numbers of any type, compared exactly with the numbers of a type: integers, decimals and floats.
#![tactic(auto)]

mod decimals;
mod decisions;
mod digits;
mod float_decisions;
mod floats;
mod numbers;
mod positions;
mod quotients;

pub use decisions::Decision;
pub use float_decisions::FloatDecision;
pub use numbers::ExactNumber;
