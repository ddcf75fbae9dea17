//! A column with the format of Arrow that says what its rows mean.
#![tactic(auto)]

mod typed_column;

pub use typed_column::TypedColumn;
