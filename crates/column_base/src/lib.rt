//! What columns are made of: errors, types, native numbers, bits, masks and validity.
#![tactic(auto)]

mod bits;
mod dtype;
mod error;
mod mask;
mod native;
mod validity;
mod values;

pub use bits::{BitBuffer, BitBufferMut, SetIndices};
pub use dtype::{DType, DecimalDType, ElementDType, Nullability, PType};
pub use error::{VortexError, VortexResult};
pub use mask::Mask;
pub use native::{NativePType, UnsignedPType};
pub use shared_buffer::Buffer;
pub use validity::Validity;
pub use values::PrimitiveValues;
