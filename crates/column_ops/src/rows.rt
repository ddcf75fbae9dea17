//! Rows of stored items under a validity, of any kind of item.
ghost use Rattle.std.specs.Prelude.{◌≡◌, ◌<◌, Some, IsSome, length, slice_get};
ghost use Rattle.column_base.specs.declared.dtype.Nullability.TheVariants.{NonNullable};
ghost use Rattle.column_base.specs.ValidityForm.{HasLength, nullability_in};
ghost use Rattle.column_base.specs.Validity.{form_of, validity_flags};
ghost use Rattle.column_core.specs.Optionals.{optionals};

use column_core::Validity;
use std::alloc::Allocator;

/// Returns the item in a row, or `None` for null.
pub fn item_at<T: Copy + Drop, A: Allocator>(
    items: &[T],
    validity: &Validity<A>,
    row: usize,
) -> Option<T>
    requires within { row < length items.now }
    requires fits { HasLength (form_of validity.now) (length items.now) }
    ensures row { slice_get (optionals items.now (validity_flags validity.now (length items.now))) row ≡ Some result }
    ensures valid { nullability_in (form_of validity.now) ≡ NonNullable → IsSome result }
{
    if validity.is_valid(row) {
        Some(items[row])
    } else {
        None
    }
}
