//! Columns as bytes: messages of the Protocol Buffers encoding, each column in its one spelling.
#![tactic(auto)]

mod column;
mod constant_checks;
mod constant_sizes;
mod constants;
mod decimal_constants;
mod flat;
mod flat_messages;
mod flat_sizes;
mod kinds;
pub mod laws;
mod leaf_checks;
mod list_checks;
mod list_constants;
mod list_parts;
mod list_reading;
mod list_sizes;
mod list_views;
mod list_walks;
mod lists;
mod message_checks;
mod run_checks;
mod run_cursors;
mod run_views;
mod runs;
mod sizes;
mod text_checks;
mod text_reading;
mod text_writing;
mod texts;
mod typed;
mod views;

pub use column::{MOST_LEVELS, put_message, read_column, write_column};
pub use column_base::{VortexError, VortexResult};
pub use message_checks::is_message;
pub use sizes::message_size;
pub use typed::{
    is_typed_message, put_typed, read_typed, type_start, typed_size, typed_spelling_is_unique,
    write_typed,
};
