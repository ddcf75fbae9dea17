//! Scripts of commands on a column: their lines are read, done, and answered by a line each.
#![tactic(auto)]

mod answer;
mod command;
mod floats;
mod input;
mod lengthened;
mod listed;
mod message;
mod output;
mod reads;
mod record;
mod reordered;
mod scripts;
mod serving;
mod session;
mod shown;
mod values;
mod words;

pub use answer::answer_line;
pub use scripts::{ScriptAnswer, script};
pub use serving::serve;
