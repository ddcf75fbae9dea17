//! One row of a column, borrowed from it.
use crate::flat::FlatColumn;
use std::alloc::Allocator;

/// Shows one row of a column: null, or a value. A text, bytes and a list are borrowed from the
/// column; a list is `size` elements from `start` on. Unsigned types are seen as `Unsigned`, signed
/// ones as `Signed`.
#[derive(Clone, Copy)]
pub enum ScalarView<'a, A: Allocator> {
    Null,
    Bool(bool),
    Unsigned(u64),
    Signed(i64),
    Decimal(i128),
    Utf8(&'a str),
    Binary(&'a [u8]),
    List {
        elements: &'a FlatColumn<A>,
        start: usize,
        size: usize,
    },
}
