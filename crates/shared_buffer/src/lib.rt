//! Items in memory that several columns may own: their parts and clones copy nothing.
#![tactic(auto)]

mod buffer;

pub use buffer::Buffer;
