//! The rows that indices name.
ghost use Rattle.std.specs.Prelude.{◌≡◌, ◌^◌, ◌<◌, ◌↔◌, All, IsTrue, Some, length, option_map, pos, slice_get, true};
ghost use Rattle.column_base.specs.Mask.{mask_bits};
ghost use Rattle.runend_select.specs.Indices.{AreInBounds, AreSorted, masked_indices};

use column_core::{Mask, NativePType};
use std::alloc::Allocator;

/// Returns the row that the index at `place` names, or `None` where the index is null.
#[inline]
pub fn indexed_row<T: NativePType, A: Allocator>(
    indices: &[T],
    mask: &Mask<A>,
    place: usize,
) -> Option<usize>
    requires within { place < length indices.now }
    requires masked { length (mask_bits mask.now) ≡ length indices.now }
    requires in_bounds { AreInBounds (masked_indices T.number indices.now mask.now) (2 ^ 64) }
    ensures { slice_get (masked_indices T.number indices.now mask.now) place ≡
        Some (option_map (λ row. pos row) result) }
{
    named_row::<false, T, A>(indices, mask, place)
}

/// Returns whether the form of the mask says that it selects all indices. Walks over indices ask this once, and then
/// read no bit for each index.
pub(crate) fn selects_all<A: Allocator>(mask: &Mask<A>) -> bool
    ensures { IsTrue result → All (λ bit. bit ≡ true) (mask_bits mask.now) }
{
    match mask {
        Mask::AllTrue(_) => true,
        Mask::AllFalse(_) => false,
        Mask::Values(_) => false,
    }
}

// Is the index at `place` valid? If all are, no bit is read.
#[inline(always)]
fn is_valid<const ALL: bool, A: Allocator>(mask: &Mask<A>, place: usize) -> bool
    requires within { place < length (mask_bits mask.now) }
    requires all { ALL ≡ true → All (λ bit. bit ≡ true) (mask_bits mask.now) }
    ensures { slice_get (mask_bits mask.now) place ≡ Some result }
{
    if ALL {
        return true;
    }
    mask.value(place)
}

/// Returns the row that the index at `place` names, as `indexed_row` does. `ALL` says that no index is null.
#[inline(always)]
pub(crate) fn named_row<const ALL: bool, T: NativePType, A: Allocator>(
    indices: &[T],
    mask: &Mask<A>,
    place: usize,
) -> Option<usize>
    requires within { place < length indices.now }
    requires masked { length (mask_bits mask.now) ≡ length indices.now }
    requires all { ALL ≡ true → All (λ bit. bit ≡ true) (mask_bits mask.now) }
    requires in_bounds { AreInBounds (masked_indices T.number indices.now mask.now) (2 ^ 64) }
    ensures { slice_get (masked_indices T.number indices.now mask.now) place ≡
        Some (option_map (λ row. pos row) result) }
{
    if is_valid::<ALL, A>(mask, place) {
        Some(indices[place].widen() as usize)
    } else {
        None
    }
}

/// Returns whether no valid index is below a valid one before it.
pub fn are_sorted<T: NativePType, A: Allocator>(indices: &[T], mask: &Mask<A>) -> bool
    requires masked { length (mask_bits mask.now) ≡ length indices.now }
    requires in_bounds { AreInBounds (masked_indices T.number indices.now mask.now) (2 ^ 64) }
    ensures { IsTrue result ↔ AreSorted (masked_indices T.number indices.now mask.now) }
{
    if selects_all(mask) {
        never_fall::<true, T, A>(indices, mask)
    } else {
        never_fall::<false, T, A>(indices, mask)
    }
}

// Is no valid index below a valid one before it? `ALL` says that no index is null.
fn never_fall<const ALL: bool, T: NativePType, A: Allocator>(indices: &[T], mask: &Mask<A>) -> bool
    requires masked { length (mask_bits mask.now) ≡ length indices.now }
    requires all { ALL ≡ true → All (λ bit. bit ≡ true) (mask_bits mask.now) }
    requires in_bounds { AreInBounds (masked_indices T.number indices.now mask.now) (2 ^ 64) }
    ensures { IsTrue result ↔ AreSorted (masked_indices T.number indices.now mask.now) }
{
    let mut last = 0;
    for place in 0..indices.len() {
        if let Some(row) = named_row::<ALL, T, A>(indices, mask, place) {
            if row < last {
                return false;
            }
            last = row;
        }
    }
    true
}
