//! How many bytes a column of any form takes.
ghost use Rattle.std.specs.Prelude.{◌≡◌};
ghost use Rattle.column_core.specs.FlatColumn.{leaf_of};
ghost use Rattle.runend_array.specs.Array.{column_of, validity_of, IsRowValidity};
ghost use Rattle.runend_array.specs.Column.{IsIndex, IsLeaf, index_of};
ghost use Rattle.runend_column.specs.BytesUsed.{column_bytes, in_usize, index_bytes, lists_bytes, row_validity_bytes, runs_bytes};

use crate::flat_sizes::{bytes_of_bits, bytes_of_flat, bytes_of_scalar};
use runend_array::{ArrayRef, ListViewArray, RowValidity, RunEndArray, RunEndArraySlotsExt};
use std::alloc::Allocator;

/// Returns how many bytes the column takes for what it shows, in its form, and 2^64 - 1 where there are more: numbers
/// as wide as their type, decimals 16 each, bits eight to a byte; texts and bytes take a view of 24 for each row and
/// the bytes that the rows show. Bits of validity count where there are some. Runs take their ends and values, also
/// those before and after the window; a constant takes its value; lists take an offset and a size of 8 each, and all of
/// their elements. What columns share counts for each of them. Takes no memory, and looks at single rows only of texts
/// and bytes.
#[tactic(auto, using(crate::proofs::Parts::ends_are_leaf, crate::proofs::Parts::ends_bytes))]
pub fn bytes_used<A: Allocator + Copy>(array: &ArrayRef<A>) -> usize
    ensures { result ≡ in_usize (column_bytes (column_of array.now)) }
{
    match array {
        ArrayRef::ListView(lists) => bytes_of_lists(lists),
        ArrayRef::Constant(constant) => bytes_of_scalar(constant.scalar()),
        ArrayRef::RunEnd(runs) => {
            let ends = bytes_of_leaf(runs.ends());
            ends.saturating_add(bytes_used(runs.values()))
        }
        _ => bytes_of_leaf(array),
    }
}

// The bytes of a column whose rows are stored one by one.
fn bytes_of_leaf<A: Allocator + Copy>(array: &ArrayRef<A>) -> usize
    requires { IsLeaf (column_of array.now) }
    ensures { result ≡ in_usize (column_bytes (column_of array.now)) }
{
    match array.flat_view() {
        Some(flat) => bytes_of_flat(flat),
        None => unreachable!(),
    }
}

// The bytes of elements, offsets, sizes and validity.
fn bytes_of_lists<A: Allocator + Copy>(lists: &ListViewArray<A>) -> usize
    ensures { result ≡ in_usize (lists_bytes lists.now) }
{
    let elements = bytes_of_flat(lists.elements().view());
    let offsets = bytes_of_index(lists.offsets());
    let sizes = bytes_of_index(lists.sizes());
    let validity = bytes_of_row_validity(lists.validity());
    elements
        .saturating_add(offsets)
        .saturating_add(sizes)
        .saturating_add(validity)
}

// The bytes of offsets or sizes, flat or in runs over flat ones.
#[tactic(auto, using(crate::proofs::Parts::index_is_leaf, crate::proofs::Parts::plain_index_bytes))]
fn bytes_of_index<A: Allocator + Copy>(array: &ArrayRef<A>) -> usize
    requires { IsIndex (column_of array.now) }
    ensures { result ≡ in_usize (index_bytes (index_of (column_of array.now))) }
{
    match array {
        ArrayRef::RunEnd(runs) => bytes_of_leaf_runs(runs),
        _ => bytes_of_leaf(array),
    }
}

// The bytes of a validity, by rows or by runs over flat flags.
#[tactic(auto, using(crate::proofs::Parts::truths_are_leaf, crate::proofs::Parts::truths_bytes))]
fn bytes_of_row_validity<A: Allocator + Copy>(validity: &RowValidity<A>) -> usize
    requires { IsRowValidity validity.now }
    ensures { result ≡ in_usize (row_validity_bytes (validity_of validity.now)) }
{
    match validity {
        RowValidity::NonNullable | RowValidity::AllValid | RowValidity::AllInvalid => 0,
        RowValidity::Bits(bits) => bytes_of_bits(bits),
        RowValidity::Runs(runs) => bytes_of_leaf_runs(runs),
    }
}

// The bytes of the ends, and of values that are stored one by one.
#[tactic(auto, using(crate::proofs::Parts::ends_are_leaf, crate::proofs::Parts::ends_bytes))]
fn bytes_of_leaf_runs<A: Allocator + Copy>(runs: &RunEndArray<A>) -> usize
    requires { IsLeaf runs.now.values }
    ensures { result ≡ in_usize (runs_bytes runs.now) }
{
    let ends = bytes_of_leaf(runs.ends());
    ends.saturating_add(bytes_of_leaf(runs.values()))
}
