//! The words of numbers, floats, types, bits, bytes, rows and refusals, which the script has.
#![tactic(auto)]

mod bits;
mod bytes;
mod floats;
mod numbers;
mod refusals;
mod rows;
mod types;

pub use bits::parse_bits;
pub use bytes::{parse_byte, parse_bytes, push_byte, push_bytes};
pub use floats::{parse_float, parse_format, push_float};
pub use numbers::{parse_count, parse_integer};
pub use refusals::push_refusal_words;
pub use rows::{is_null_or_number, push_row_word, push_total_word};
pub use types::{name_of, parse_ptype, parse_type, push_marked, split_mark};
