//! The numbers of flat columns, row by row.
ghost use Rattle.std.specs.Prelude.{◌≡◌, ◌<◌, pos, Some, length, option_map, slice_get};
ghost use Rattle.column_base.specs.Types.{IsUnsigned};
ghost use Rattle.column_core.specs.PrimitiveForm.{optional_numbers};

use column_core::{PrimitiveArray, ScalarView};
use std::alloc::Allocator;

/// Returns the number in a row of a column of a signed type, or `None` where the row is null.
pub fn signed_at<A: Allocator>(array: &PrimitiveArray<A>, row: usize) -> Option<i64>
    requires signed { ¬ IsUnsigned array.now.ptype }
    requires within { row < length (optional_numbers array.now) }
    ensures { slice_get (optional_numbers array.now) row ≡ Some result }
{
    match array.get(row) {
        ScalarView::Signed(number) => Some(number),
        _ => None,
    }
}

/// Returns the number in a row of a column of an unsigned type, or `None` where the row is null.
pub fn unsigned_at<A: Allocator>(array: &PrimitiveArray<A>, row: usize) -> Option<u64>
    requires unsigned { IsUnsigned array.now.ptype }
    requires within { row < length (optional_numbers array.now) }
    ensures { slice_get (optional_numbers array.now) row ≡ Some (option_map pos result) }
{
    match array.get(row) {
        ScalarView::Unsigned(number) => Some(number),
        _ => None,
    }
}
