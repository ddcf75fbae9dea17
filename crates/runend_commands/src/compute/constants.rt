//! Constants that stay constants: their one value is worked on as one row, and no other row is written.
ghost use Rattle.std.specs.Prelude.{◌≡◌, ◌<◌, ◌↔◌, length, replicate, IfOk, IsOkUnless, IsTrue, MatchOption, Option};
ghost use Rattle.column_core.specs.Value.{IsLists, Value};
ghost use Rattle.runend_array.specs.Array.{column_of, dtype_of, rows};
ghost use Rattle.runend_array.specs.Column.{OfConstant, repeated};
ghost use Rattle.runend_builder.specs.Encoded.{IsConstantForm};
ghost use Rattle.runend_commands.specs.Kept.{IsConstantWithRows};

use column_core::{Scalar, VortexError, VortexResult};
use runend_array::{ArrayRef, ConstantArray};
use std::alloc::Allocator;

/// Returns the constant, or `None` where the column is not one, or has no row.
pub fn constant_with_rows<A: Allocator + Copy>(column: &ArrayRef<A>) -> Option<&ConstantArray<A>>
    ensures { MatchOption result
        (¬ IsConstantWithRows (column_of column.now))
        (λ constant. (column_of column.now ≡ OfConstant constant.now) × (0 < constant.now.count)) }
{
    match column {
        ArrayRef::Constant(constant) if !constant.is_empty() => Some(constant),
        _ => None,
    }
}

/// Reports whether the column is a constant.
pub fn has_constant_form<A: Allocator>(column: &ArrayRef<A>) -> bool
    ensures { IsTrue result ↔ IsConstantForm (column_of column.now) }
{
    matches!(column, ArrayRef::Constant(_))
}

/// Returns one row of the constant. Refused only as `OutOfMemory`.
pub fn one_row<A: Allocator + Copy>(
    alloc: A,
    constant: &ConstantArray<A>,
) -> VortexResult<ArrayRef<A>>
    ensures only { IsOkUnless result VortexError.OutOfMemory }
    ensures form { IfOk result (λ one. column_of one ≡ OfConstant (repeated constant.now 1)) }
{
    let one = constant.repeated(alloc, 1)?;
    Ok(ArrayRef::Constant(one))
}

/// Repeats the one row of an array, which is not a list, as a constant of `count` rows. Refused only as `OutOfMemory`.
pub fn repeated_row<A: Allocator + Copy>(
    alloc: A,
    one: &ArrayRef<A>,
    count: usize,
) -> VortexResult<ArrayRef<A>>
    requires single { ¬ IsLists (dtype_of one.now) }
    requires one { length (rows one.now) ≡ 1 }
    ensures only { IsOkUnless result VortexError.OutOfMemory }
    ensures rows { IfOk result (λ made. (row : Option Value) → rows one.now ≡ replicate 1 row →
        rows made ≡ replicate count row) }
    ensures dtype { IfOk result (λ made. dtype_of made ≡ dtype_of one.now) }
    ensures form { IfOk result (λ made. IsConstantForm (column_of made)) }
{
    match one.scalar_at(0) {
        Ok(row) => {
            let scalar = Scalar::of_view(alloc, one.dtype(), row)?;
            Ok(ArrayRef::Constant(ConstantArray::new(scalar, count)))
        }
        Err(_) => unreachable!(),
    }
}
