//! Commands that are made of a value that C passes.
ghost use Rattle.runend_array.specs.Array.{dtype_of};
ghost use Rattle.c_columns.specs.Values.{IsPassed};
ghost use Rattle.c_columns.specs.Calls.{IsPassedBuilt, compare_with_passed, fill_with_passed};

use crate::row_value::{RowValue, scalar_of};
use column_core::VortexResult;
use column_ops::CompareOperator;
use runend_array::ArrayRef;
use runend_commands::Command;
use std::alloc::Global;

/// Returns the comparison with the value that is passed, in the type of the column. Refused as `TypeMismatch` where it
/// is not a value of the type, else only for memory.
pub fn compare_scalar_command(
    alloc: Global,
    operator: CompareOperator,
    array: &ArrayRef<Global>,
    value: &RowValue,
    text: &[u8],
) -> VortexResult<Command<Global>>
    ensures { IsPassedBuilt (IsPassed (dtype_of array.now) value.now.kind value.now text.now)
        (compare_with_passed operator value.now text.now array.now) result }
{
    match scalar_of(alloc, array, value, text) {
        Ok(scalar) => Ok(Command::CompareScalar(operator, scalar)),
        Err(error) => Err(error),
    }
}

/// Returns the filling of nulls with the value that is passed, in the type of the column. Refused as `TypeMismatch`
/// where it is not a value of the type, else only for memory.
pub fn fill_command(
    alloc: Global,
    array: &ArrayRef<Global>,
    value: &RowValue,
    text: &[u8],
) -> VortexResult<Command<Global>>
    ensures { IsPassedBuilt (IsPassed (dtype_of array.now) value.now.kind value.now text.now)
        (fill_with_passed value.now text.now array.now) result }
{
    match scalar_of(alloc, array, value, text) {
        Ok(scalar) => Ok(Command::FillNull(scalar)),
        Err(error) => Err(error),
    }
}
