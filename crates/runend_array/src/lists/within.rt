//! Whether the lists of a column lie within its elements.
ghost use Rattle.std.specs.Prelude.{◌≡◌, ℕ, ◌+◌, ◌<◌, ◌≤◌, ◌↔◌, IsTrue, MatchOption, length};
ghost use Rattle.column_core.specs.FlatColumn.{leaf_of};
ghost use Rattle.runend_array.specs.Array.{AreListTypes, column_of, lists_of, validity_of};
ghost use Rattle.runend_array.specs.Column.{index_of};
ghost use Rattle.runend_array.specs.Fault.{IsFirstOutside, IsFirstPast};
ghost use Rattle.runend_array.specs.Lists.{AreLists, HasRows, IsRangeWithin, index_count};

use crate::array_ref::ArrayRef;
use crate::lists::index::{index_from, index_len, plain_numbers};
use crate::validities::RowValidity;
use column_core::FlatColumn;
use std::alloc::Allocator;

/// Returns the first valid row that does not lie within the elements.
pub(crate) fn first_outside<A: Allocator + Copy>(
    elements: &FlatColumn<A>,
    offsets: &ArrayRef<A>,
    sizes: &ArrayRef<A>,
    validity: &RowValidity<A>,
) -> Option<usize>
    requires types { AreListTypes offsets.now sizes.now validity.now }
    requires sized { index_count (index_of (column_of sizes.now)) ≡ index_count (index_of (column_of offsets.now)) }
    requires flagged { HasRows (validity_of validity.now) (index_count (index_of (column_of offsets.now))) }
    ensures { MatchOption result
        (AreLists (lists_of elements.now offsets.now sizes.now validity.now))
        (λ row. IsFirstOutside (lists_of elements.now offsets.now sizes.now validity.now) row) }
{
    if validity.is_all_valid() {
        if let Some(starts) = plain_numbers(offsets) {
            if let Some(counts) = plain_numbers(sizes) {
                return first_past(starts, counts, elements.len());
            }
        }
    }
    first_outside_in_stretches(elements, offsets, sizes, validity)
}

// The first of the lists of `sizes` elements from `offsets` on that goes past `count` elements.
fn first_past(offsets: &[u64], sizes: &[u64], count: usize) -> Option<usize>
    requires { length sizes.now ≡ length offsets.now }
    ensures { MatchOption result
        ((row : ℕ) → row < length offsets.now → IsRangeWithin offsets.now sizes.now count row)
        (λ row. IsFirstPast offsets.now sizes.now count row) }
{
    for row in 0..offsets.len() {
        if !is_within(offsets[row], sizes[row], count) {
            return Some(row);
        }
    }
    None
}

// The first valid row that does not lie within the elements. A step is a stretch of rows in which
// offset, size and validity stay the same, so rows in runs take one step for each run.
fn first_outside_in_stretches<A: Allocator + Copy>(
    elements: &FlatColumn<A>,
    offsets: &ArrayRef<A>,
    sizes: &ArrayRef<A>,
    validity: &RowValidity<A>,
) -> Option<usize>
    requires types { AreListTypes offsets.now sizes.now validity.now }
    requires sized { index_count (index_of (column_of sizes.now)) ≡ index_count (index_of (column_of offsets.now)) }
    requires flagged { HasRows (validity_of validity.now) (index_count (index_of (column_of offsets.now))) }
    ensures { MatchOption result
        (AreLists (lists_of elements.now offsets.now sizes.now validity.now))
        (λ row. IsFirstOutside (lists_of elements.now offsets.now sizes.now validity.now) row) }
{
    let rows = index_len(offsets);
    let count = elements.len();
    let mut flag_run = 0;
    let mut offset_run = 0;
    let mut size_run = 0;
    let mut row = 0;
    while row < rows {
        let flag = validity.valid_from(&mut flag_run, row, rows);
        let offset = index_from(offsets, &mut offset_run, row);
        let size = index_from(sizes, &mut size_run, row);
        if flag.value && !is_within(offset.value, size.value, count) {
            return Some(row);
        }
        row = flag.stop.min(offset.stop).min(size.stop);
    }
    None
}

// Does the list of `size` elements from `offset` on lie within `count` elements?
fn is_within(offset: u64, size: u64, count: usize) -> bool
    ensures { IsTrue result ↔ (offset + size ≤ count) }
{
    let count = count as u64;
    offset <= count && size <= count - offset
}
