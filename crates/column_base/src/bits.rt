//! Lists of bits, 64 to a word: one to read, one that grows, and the places of the true bits.

mod buffer;
mod builder;
mod copies;
mod counts;
mod fills;
mod masks;
mod set_indices;

pub use buffer::BitBuffer;
pub use builder::BitBufferMut;
pub use set_indices::SetIndices;
