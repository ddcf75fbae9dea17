//! Single keys of a flat column of them.
ghost use Rattle.std.specs.Prelude.{◌≡◌, ◌<◌, IfSome, Some, length, slice_get, true};
ghost use Rattle.column_core.specs.PrimitiveForm.{optional_numbers};
ghost use Rattle.column_floats.specs.Formats.{IsKey, format_of_width, holds_keys};

use column_core::{PrimitiveArray, ScalarView};
use std::alloc::Allocator;

/// Returns the key in a row, or `None` for null.
#[inline]
pub fn key_at<A: Allocator>(keys: &PrimitiveArray<A>, row: usize) -> Option<i64>
    requires native { holds_keys keys.now.ptype ≡ true }
    requires there { row < length keys.now.numbers }
    ensures key { slice_get (optional_numbers keys.now) row ≡ Some result }
    ensures fits { IfSome result (IsKey (format_of_width keys.now.ptype)) }
{
    match keys.get(row) {
        ScalarView::Signed(key) => Some(key),
        ScalarView::Null => None,
        _ => unreachable!(),
    }
}
