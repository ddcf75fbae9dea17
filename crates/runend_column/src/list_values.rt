//! Lists at positions, and those that a mask selects. The elements are shared.
ghost use Rattle.std.specs.Prelude.{◌≡◌, ◌≤◌, IfOk, IsOkUnless, length, slice_range};
ghost use Rattle.column_base.specs.Mask.{mask_bits};
ghost use Rattle.column_base.specs.Types.{nullability_of, with_nullability as dtype_with};
ghost use Rattle.column_base.specs.ValidityForm.{HasLength, nullability_in};
ghost use Rattle.column_base.specs.Validity.{form_of, validity_flags};
ghost use Rattle.column_core.specs.Optionals.{optionals};
ghost use Rattle.column_ops.specs.Filter.{filter_rows};
ghost use Rattle.column_ops.specs.Nullable.{either_nullable};
ghost use Rattle.column_ops.specs.Take.{ArePositions, position_numbers, take_rows};
ghost use Rattle.runend_array.specs.Column.{OfLists};
ghost use Rattle.runend_array.specs.Lists.{list_count, list_dtype, list_rows};
ghost use Rattle.runend_column.specs.Computed.{IsComputedAs};

use crate::bit_indices::set_bit_indices;
use column_core::{BitBuffer, Mask, Validity, VortexError, VortexResult};
use runend_array::ListViewArray;
use std::alloc::Allocator;

/// Returns the lists at these positions, null for null. Refused only as `OutOfMemory`.
pub(crate) fn take_lists<A: Allocator + Copy>(
    alloc: A,
    lists: &ListViewArray<A>,
    positions: &[u64],
    places: &Validity<A>,
) -> VortexResult<ListViewArray<A>>
    requires counted { HasLength (form_of places.now) (length positions.now) }
    requires within { ArePositions (optionals positions.now (validity_flags places.now (length positions.now)))
        (length (list_rows lists.now)) }
    ensures only { IsOkUnless result VortexError.OutOfMemory }
    ensures made { IfOk result (λ taken. IsComputedAs
        (take_rows (list_rows lists.now) (position_numbers (optionals positions.now (validity_flags places.now
        (length positions.now)))))
        (dtype_with (list_dtype lists.now) (either_nullable (nullability_of (list_dtype lists.now))
        (nullability_in (form_of places.now))))
        (OfLists taken)) }
{
    lists.take_at(alloc, positions, places)
}

// The lists whose bits are true.
fn lists_at_bits<A: Allocator + Copy>(
    alloc: A,
    lists: &ListViewArray<A>,
    bits: &BitBuffer<A>,
) -> VortexResult<ListViewArray<A>>
    requires masked { length bits.now ≡ length (list_rows lists.now) }
    ensures only { IsOkUnless result VortexError.OutOfMemory }
    ensures made { IfOk result (λ kept. IsComputedAs (filter_rows bits.now (list_rows lists.now)) (list_dtype lists.now)
        (OfLists kept)) }
{
    let places = set_bit_indices(alloc, bits)?;
    let kept = take_lists(alloc, lists, places.as_slice(), &Validity::NonNullable);
    drop(places);
    kept
}

// The first `count` lists.
fn first_lists<A: Allocator + Copy>(
    alloc: A,
    lists: &ListViewArray<A>,
    count: usize,
) -> VortexResult<ListViewArray<A>>
    requires within { count ≤ list_count lists.now }
    ensures only { IsOkUnless result VortexError.OutOfMemory }
    ensures rows { IfOk result (λ kept. list_rows kept ≡ slice_range (list_rows lists.now) 0 count) }
    ensures dtype { IfOk result (λ kept. list_dtype kept ≡ list_dtype lists.now) }
{
    lists.slice(alloc, 0..count)
}

/// Returns the lists at which the mask is true, in order. Refused only as `OutOfMemory`.
pub(crate) fn select_lists<A: Allocator + Copy>(
    alloc: A,
    lists: &ListViewArray<A>,
    mask: &Mask<A>,
) -> VortexResult<ListViewArray<A>>
    requires masked { length (mask_bits mask.now) ≡ length (list_rows lists.now) }
    ensures only { IsOkUnless result VortexError.OutOfMemory }
    ensures made { IfOk result (λ kept. IsComputedAs (filter_rows (mask_bits mask.now) (list_rows lists.now))
        (list_dtype lists.now) (OfLists kept)) }
{
    match mask {
        Mask::AllTrue(_) => first_lists(alloc, lists, lists.len()),
        Mask::AllFalse(_) => first_lists(alloc, lists, 0),
        Mask::Values(bits) => lists_at_bits(alloc, lists, bits),
    }
}
