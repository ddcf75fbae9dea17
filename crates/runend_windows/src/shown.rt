//! What single rows of flat numbers show.
ghost use Rattle.std.specs.Prelude.{◌≡◌, ◌<◌, Some, IsSome, length, map, option_map, slice_get};
ghost use Rattle.column_base.specs.ValidityForm.{NeverNull, HasLength};
ghost use Rattle.column_base.specs.Validity.{form_of, validity_flags};
ghost use Rattle.column_core.specs.PrimitiveForm.{optionals};

use column_core::{NativePType, Validity};
use std::alloc::Allocator;

/// Returns the number in a row, or `None` for null.
pub fn shown_at<T: NativePType, A: Allocator>(
    items: &[T],
    validity: &Validity<A>,
    row: usize,
) -> Option<T>
    requires within { row < length items.now }
    requires fits { HasLength (form_of validity.now) (length items.now) }
    ensures shows { slice_get (optionals (map T.number items.now) (validity_flags validity.now (length items.now))) row
        ≡ Some (option_map T.number result) }
    ensures never { form_of validity.now ≡ NeverNull → IsSome result }
{
    if validity.is_valid(row) {
        Some(items[row])
    } else {
        None
    }
}
