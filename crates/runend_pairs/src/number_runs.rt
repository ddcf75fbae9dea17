//! The runs of a column of integers.
ghost use Rattle.std.specs.Prelude.{◌≡◌, true, IfOk, IsOkUnless};
ghost use Rattle.column_core.specs.Kinds.{is_numbers};
ghost use Rattle.column_core.specs.Leaf.{OfNumbers};
ghost use Rattle.runend_array.specs.Array.{dtype_of, rows};
ghost use Rattle.runend_encode.specs.Encoding.{IsRowEncoding};

use column_core::{FlatColumn, PrimitiveArray, VortexError, VortexResult};
use runend_array::ArrayRef;
use runend_builder::row_runs;
use std::alloc::Allocator;

/// Returns the runs of equal neighbouring rows of a column of integers: the row that each ends before, and the number
/// of each. Refused only as `OutOfMemory`.
pub(crate) fn number_runs<A: Allocator + Copy>(
    alloc: A,
    array: &ArrayRef<A>,
) -> VortexResult<(PrimitiveArray<A>, PrimitiveArray<A>)>
    requires { is_numbers (dtype_of array.now) ≡ true }
    ensures only { IsOkUnless result VortexError.OutOfMemory }
    ensures encoding { IfOk result (λ parts.
        IsRowEncoding (rows array.now) (dtype_of array.now) parts.0 (OfNumbers parts.1)) }
{
    let (ends, values) = row_runs(alloc, array)?;
    match values {
        FlatColumn::Primitive(numbers) => Ok((ends, numbers)),
        _ => unreachable!(),
    }
}
