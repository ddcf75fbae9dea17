//! Which types can be cast to which.
ghost use Rattle.std.specs.Prelude.{◌≡◌};
ghost use Rattle.column_ops.specs.Cast.{can_cast};

use column_core::{DType, is_list_type, is_number_type, is_same_kind};

/// Returns whether rows of the first type can be cast to the second: both are of integers, or both
/// of one kind other than lists.
pub(crate) fn is_castable(from: DType, to: DType) -> bool
    ensures { result ≡ can_cast from to }
{
    if is_number_type(from) && is_number_type(to) {
        return true;
    }
    is_same_kind(from, to) && !is_list_type(to)
}
