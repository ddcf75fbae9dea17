//! The encoder, and the decoders of runs that are given by their parts.

pub use runend_array::compress::runend_encode;
pub use runend_column::compress::{
    runend_decode_decimal, runend_decode_listview, runend_decode_primitive,
    runend_decode_typed_primitive, runend_decode_varbinview,
};
