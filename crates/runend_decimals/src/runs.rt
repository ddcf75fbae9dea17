//! The runs of a column of decimals, and of one of integers.
ghost use Rattle.std.specs.Prelude.{◌≡◌, ◌<◌, Some, length, slice_get, IfOk, IsOkUnless, true};
ghost use Rattle.column_core.specs.DecimalForm.{optional_decimals};
ghost use Rattle.column_core.specs.Kinds.{is_numbers};
ghost use Rattle.column_core.specs.Leaf.{OfDecimals, OfNumbers};
ghost use Rattle.runend_array.specs.Array.{dtype_of, rows};
ghost use Rattle.runend_encode.specs.Encoding.{IsRowEncoding};
ghost use Rattle.runend_decimals.specs.Rows.{is_decimals};

use column_core::{DecimalArray, FlatColumn, PrimitiveArray, VortexError, VortexResult};
use column_ops::item_at;
use runend_array::ArrayRef;
use runend_builder::row_runs;
use std::alloc::Allocator;

/// Returns the ends and the values of the encoding of a column of decimals of any form. Looks only at the visible runs
/// of a run column or a constant. Refused only as `OutOfMemory`.
pub(crate) fn decimal_runs<A: Allocator + Copy>(
    alloc: A,
    column: &ArrayRef<A>,
) -> VortexResult<(PrimitiveArray<A>, DecimalArray<A>)>
    requires { is_decimals (dtype_of column.now) ≡ true }
    ensures only { IsOkUnless result VortexError.OutOfMemory }
    ensures encoding { IfOk result (λ parts.
        IsRowEncoding (rows column.now) (dtype_of column.now) parts.0 (OfDecimals parts.1)) }
{
    let (ends, values) = row_runs(alloc, column)?;
    match values {
        FlatColumn::Decimal(decimals) => Ok((ends, decimals)),
        _ => unreachable!(),
    }
}

/// Returns the same for a column of integers. Refused only as `OutOfMemory`.
pub(crate) fn integer_runs<A: Allocator + Copy>(
    alloc: A,
    column: &ArrayRef<A>,
) -> VortexResult<(PrimitiveArray<A>, PrimitiveArray<A>)>
    requires { is_numbers (dtype_of column.now) ≡ true }
    ensures only { IsOkUnless result VortexError.OutOfMemory }
    ensures encoding { IfOk result (λ parts.
        IsRowEncoding (rows column.now) (dtype_of column.now) parts.0 (OfNumbers parts.1)) }
{
    let (ends, values) = row_runs(alloc, column)?;
    match values {
        FlatColumn::Primitive(integers) => Ok((ends, integers)),
        others => {
            drop(others);
            drop(ends);
            Err(VortexError::Unsupported)
        }
    }
}

/// Returns the integer of the decimal in a row, or `None` for null.
pub(crate) fn decimal_at<A: Allocator>(values: &DecimalArray<A>, row: usize) -> Option<i128>
    requires { row < length values.now.numbers }
    ensures { slice_get (optional_decimals values.now) row ≡ Some result }
{
    item_at(values.values(), values.validity(), row)
}
