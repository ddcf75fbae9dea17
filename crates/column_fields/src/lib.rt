//! The fields of a message that holds a column, each in its one spelling, from varints up; and the metadata record of a
//! run column. Earlier content of a buffer stays in front of what a writer puts at its end, also where the writer is
//! refused.
#![tactic(auto)]

mod bit_bytes;
mod decimal_fields;
mod decimals;
mod element_fields;
mod ends;
mod field_views;
mod fields;
mod fitting;
mod flat_fields;
mod header;
mod held;
mod length_bytes;
mod length_sizes;
mod lengths;
mod list_fields;
mod metadata;
mod numbers;
mod record_fields;
pub mod record_laws;
mod run_fields;
mod short_varints;
mod sizes;
mod spans;
mod stored;
mod types;
mod validity;
mod validity_views;
mod varint;

pub use bit_bytes::{bytes_for, load_bits, put_bits};
pub use column_base::{VortexError, VortexResult};
pub use decimal_fields::{put_decimal_type, read_decimal_fields};
pub use decimals::{DECIMAL_SIZE, load_decimal, load_decimals, put_decimal, put_decimals};
pub use element_fields::{put_element_type, read_element_type};
pub use ends::load_ends;
pub use field_views::{view_decimal_fields, view_flat_fields};
pub use fields::{
    put_bytes, put_bytes_key, put_number, put_varint, read_bytes, read_constant, read_last_bytes,
    read_number,
};
pub use fitting::{decimals_fit, values_fit};
pub use flat_fields::read_flat_fields;
pub use header::{Header, put_header, read_header};
pub use held::{holds_bits, holds_decimals, holds_values};
pub use length_sizes::lengths_size;
pub use lengths::put_lengths_field;
pub use list_fields::{ListFields, list_fields_size, read_list_fields};
pub use metadata::RunEndMetadata;
pub use numbers::{load_value, load_values, put_value, put_values, size_of_type};
pub use run_fields::{RunFields, put_run_fields, read_run_fields, run_fields_size};
pub use sizes::{
    bit_validity_size, bytes_key_size, decimal_type_size, header_size, number_size, size_of_total,
    validity_size, varint_size,
};
pub use spans::{EndsSpan, span_of_lengths};
pub use types::{number_of_type, type_of_number};
pub use validity::{put_bit_validity, put_validity, read_validity};
pub use validity_views::{ValidityView, view_validity};
pub use varint::{push_varint, read_shortest, read_varint, varint_len};
