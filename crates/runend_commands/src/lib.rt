//! Lists of commands on one column, each answered as its definition on the plain list of rows says, and the kernels
//! and thresholds by which a session chooses how.
#![tactic(auto)]

mod command;
pub mod compute;
mod execution;
mod kernels;
pub mod laws;
mod steps;

pub use command::{Answer, Command};
pub use execution::{execute, execute_one};
pub use kernels::{KERNELS, default_thresholds, initialize};
pub use steps::{StepResult, kept_outcome_of, outcome_of};
