//! Floats decoded: columns of their keys as columns of their bits, and one row.
ghost use Rattle.std.specs.Prelude.{◌≡◌, IfOk, IsErrOf, Some, false, length, map, slice_get};
ghost use Rattle.column_core.specs.Leaf.{OfNumbers, single_rows};
ghost use Rattle.column_core.specs.PrimitiveForm.{primitive_dtype};
ghost use Rattle.column_core.specs.Refusal.{IsRefusedBy, row_fault};
ghost use Rattle.runend_array.specs.Array.{dtype_of, rows};
ghost use Rattle.std.specs.Option.{option_or};
ghost use Rattle.column_floats.specs.FloatRows.{bits_row, floats_of};
ghost use Rattle.column_floats.specs.Formats.{IsRefusedOnlyBy, bits_dtype, floats_fault, is_floats};

use column_core::{FlatColumn, PrimitiveArray, ScalarView, VortexError, VortexResult};
use column_floats::{bits_of, format_of_column};
use float_bits::from_total_key;
use runend_array::{ArrayRef, ExecutionCtx};
use runend_column::flat_rows;
use std::alloc::Allocator;

/// Returns the bits of the floats of a column of any form, which stores them by their keys, as a flat column of `u16`,
/// `u32` or `u64`, null where the row is. Takes 4 to 16 bytes a row during the call. Refused as `TypeMismatch` exactly
/// where the column is not of `i16`, `i32` or `i64`, before any memory is taken, else only as `OutOfMemory`.
pub fn decode_floats<A: Allocator + Copy>(
    column: &ArrayRef<A>,
    ctx: &mut ExecutionCtx<A>,
) -> VortexResult<PrimitiveArray<A>>
    ensures refused { IsRefusedBy (floats_fault (dtype_of column.now)) result }
    ensures first { is_floats (dtype_of column.now) ≡ false → IsErrOf result VortexError.TypeMismatch }
    ensures floats { IfOk result (λ bits. single_rows (OfNumbers bits) ≡
        map bits_row (floats_of (dtype_of column.now) (rows column.now))) }
    ensures dtype { IfOk result (λ bits. primitive_dtype bits ≡ bits_dtype (dtype_of column.now)) }
    ensures session { ctx.new ≡ ctx.old }
{
    format_of_column(column.dtype())?;
    match flat_rows(column, ctx)? {
        FlatColumn::Primitive(keys) => {
            let bits = bits_of(*ctx.allocator(), &keys);
            drop(keys);
            bits
        }
        _ => unreachable!(),
    }
}

/// Returns the bits of the float in the row at `index`, or `None` for null, of a column of any form. Takes no memory.
/// Refused as `TypeMismatch` where the column is not of `i16`, `i32` or `i64`, then as `OutOfBounds`, with the index
/// and the number of rows, from that number on.
pub fn float_at<A: Allocator + Copy>(
    column: &ArrayRef<A>,
    index: usize,
) -> VortexResult<Option<u64>>
    ensures refused { IsRefusedOnlyBy (option_or (floats_fault (dtype_of column.now))
        (row_fault index (length (rows column.now)))) result }
    ensures float { IfOk result (λ float.
        slice_get (floats_of (dtype_of column.now) (rows column.now)) index ≡ Some float) }
{
    let format = format_of_column(column.dtype())?;
    match column.scalar_at(index)? {
        ScalarView::Signed(key) => Ok(Some(from_total_key(format, key))),
        ScalarView::Null => Ok(None),
        _ => unreachable!(),
    }
}
