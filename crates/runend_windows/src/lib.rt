//! Run-end encoding of flat columns: which run a row is in, which windows are valid, the encoder, and the decoders.
#![tactic(auto)]

mod bit_runs;
mod changes;
mod decode;
mod decode_bool;
mod encode;
mod filled_runs;
mod flag_changes;
mod flat;
mod item_changes;
pub mod laws;
mod narrow;
mod run_writer;
mod searches;
mod shown;
mod trimmed;
mod typed;
mod typed_bool;
mod validate;

pub use decode::{decode_numbers, decode_rows, decode_validity, reach_of};
pub use decode_bool::decode_truths;
pub use encode::{encode_plain, is_all_null, validity_with};
pub use flag_changes::{changed_bits, changed_optionals};
pub use flat::{decode_flat, has_nulls_alone};
pub use item_changes::changed_items;
pub use narrow::narrowed;
pub use run_writer::{RunWriter, repeated_items};
pub use searches::{ended_before, first_past, first_past_four, first_past_of, last_end_of};
pub use shown::shown_at;
pub use trimmed::{TrimmedEnds, trimmed_ends_iter};
pub use typed::{decode_typed_numbers, no_null, no_value};
pub use typed_bool::{decode_typed_bits, masks_all};
pub use validate::validate_ends;
