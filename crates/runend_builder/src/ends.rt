//! The ends of a part, appended to others.
ghost use Rattle.std.specs.Prelude.{◌≡◌, ◌+◌, ◌^◌, ◌<◌, ◌≤◌, ◌++◌, All, length, map, vec_capacity, vec_len};
ghost use Rattle.runend_builder.specs.Encodings.{behind};
ghost use Rattle.column_core.specs.PrimitiveForm.{primitive_dtype};
ghost use Rattle.runend_windows.specs.Ends.{IsEndsType, ends_of};

use column_base::match_each_unsigned;
use column_core::{PrimitiveArray, PrimitiveValues, UnsignedPType};
use std::alloc::Allocator;

/// Appends the ends of a part, each moved by the rows that come before the part.
pub(crate) fn push_ends<A: Allocator>(ends: &mut Vec<u64, A>, part: &PrimitiveArray<A>, count: u64)
    requires plain { IsEndsType (primitive_dtype part.now) }
    requires room { vec_len ends.old + length (ends_of part.now) ≤ vec_capacity ends.old }
    requires small { All (λ end. count + end < 2 ^ 64) (ends_of part.now) }
    ensures { ends.new.items ≡ ends.old.items ++ behind count (ends_of part.now) }
{
    match_each_unsigned!(part.values(), items => push_stored(ends, items.as_slice(), count))
}

// The same for ends as they are stored.
fn push_stored<E: UnsignedPType, A: Allocator>(ends: &mut Vec<u64, A>, part: &[E], count: u64)
    requires room { vec_len ends.old + length part.now ≤ vec_capacity ends.old }
    requires small { All (λ end. count + end < 2 ^ 64) (map E.natural part.now) }
    ensures { ends.new.items ≡ ends.old.items ++ behind count (map E.natural part.now) }
{
    for end in part {
        ends.push_reserved(count + end.to_u64());
    }
}
