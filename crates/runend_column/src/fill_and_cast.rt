//! Columns of any form filled and cast where no kernel serves: they are written row by row first.
ghost use Rattle.std.specs.Prelude.{◌≡◌, IfOk, IfSome};
ghost use Rattle.column_core.specs.Refusal.{IsRefusedBy};
ghost use Rattle.column_core.specs.Value.{Single};
ghost use Rattle.column_ops.specs.Cast.{cast_fault};
ghost use Rattle.column_ops.specs.Fill.{fill_dtype, fill_fault, fill_rows as filled_rows};
ghost use Rattle.runend_array.specs.Array.{column_of, dtype_of, rows};
ghost use Rattle.runend_array.specs.Column.{plain_of};
ghost use Rattle.runend_array.specs.Encoding.{IsComputedFlat};

use crate::decoded::flat_rows;
use column_core::{DType, Scalar, VortexError, VortexResult, is_list_type};
use column_ops::ColumnOps;
use runend_array::{ArrayRef, ExecutionCtx, array_of};
use std::alloc::Allocator;

/// Returns the rows with the scalar's value in place of each null, of the column's kind and without null, flat. Refused
/// as `Unsupported` for lists; then as `TypeMismatch` for a scalar of another kind; then as `NullFill` for null; else
/// only as `OutOfMemory`.
pub fn fill_rows<A: Allocator + Copy>(
    array: &ArrayRef<A>,
    value: &Scalar<A>,
    ctx: &mut ExecutionCtx<A>,
) -> VortexResult<ArrayRef<A>>
    ensures refused { IsRefusedBy (fill_fault (dtype_of array.now) value.now) result }
    ensures rows { IfOk result (λ filled. IfSome value.now.value (λ flat. rows filled ≡
        filled_rows (rows array.now) (Single flat))) }
    ensures dtype { IfOk result (λ filled. dtype_of filled ≡ fill_dtype (dtype_of array.now)) }
    ensures form { IfOk result (λ filled. IsComputedFlat (column_of filled)) }
    ensures session { ctx.new ≡ ctx.old }
{
    if is_list_type(array.dtype()) {
        return Err(VortexError::Unsupported);
    }
    let flat = flat_rows(array, ctx)?;
    let filled = flat.fill_null(*ctx.allocator(), value);
    drop(flat);
    let filled = filled?;
    Ok(array_of(filled))
}

/// Returns the rows in the type, flat. Refused as `Unsupported` unless both types are of integers, or both of one kind
/// that is not a list; then, at the first row that is not a value of the type, as `NullNotAllowed` for null and as
/// `CastOutOfRange` for a number; else only as `OutOfMemory`.
pub fn cast_rows<A: Allocator + Copy>(
    array: &ArrayRef<A>,
    dtype: DType,
    ctx: &mut ExecutionCtx<A>,
) -> VortexResult<ArrayRef<A>>
    ensures refused { IsRefusedBy (cast_fault (plain_of (column_of array.now)) dtype) result }
    ensures rows { IfOk result (λ cast. rows cast ≡ rows array.now) }
    ensures dtype { IfOk result (λ cast. dtype_of cast ≡ dtype) }
    ensures form { IfOk result (λ cast. IsComputedFlat (column_of cast)) }
    ensures session { ctx.new ≡ ctx.old }
{
    if is_list_type(array.dtype()) {
        return Err(VortexError::Unsupported);
    }
    let flat = flat_rows(array, ctx)?;
    let cast = flat.cast(*ctx.allocator(), dtype);
    drop(flat);
    let cast = cast?;
    Ok(array_of(cast))
}
