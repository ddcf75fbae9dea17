//! Rows of columns of any form, flat: what a session answers where no kernel serves.
ghost use Rattle.std.specs.Prelude.{◌≡◌, IfOk, length};
ghost use Rattle.column_base.specs.Mask.{mask_bits};
ghost use Rattle.column_core.specs.PrimitiveForm.{optional_numbers, primitive_dtype};
ghost use Rattle.column_core.specs.Refusal.{IsRefusedBy};
ghost use Rattle.column_ops.specs.Filter.{filter_fault, filter_rows as selected_rows};
ghost use Rattle.column_ops.specs.Nullable.{take_dtype};
ghost use Rattle.column_ops.specs.Take.{take_fault, take_rows as rows_at_indices};
ghost use Rattle.runend_array.specs.Array.{column_of, dtype_of, rows};
ghost use Rattle.runend_array.specs.Encoding.{IsComputedFlat};

use crate::run_values::{select_values, take_values};
use column_core::{Mask, PrimitiveArray, VortexError, VortexResult};
use column_ops::positions_of;
use runend_array::{ArrayRef, ExecutionCtx};
use std::alloc::Allocator;

/// Returns the rows of a column of any form at which the mask is true, in order and flat.
///
/// Refused as `MaskLength`, with the mask's length and the number of rows, where they differ; else only as
/// `OutOfMemory`.
pub fn filter_rows<A: Allocator + Copy>(
    array: &ArrayRef<A>,
    mask: &Mask<A>,
    ctx: &mut ExecutionCtx<A>,
) -> VortexResult<ArrayRef<A>>
    ensures refused { IsRefusedBy (filter_fault (length (mask_bits mask.now)) (length (rows array.now))) result }
    ensures rows { IfOk result (λ kept. rows kept ≡ selected_rows (mask_bits mask.now) (rows array.now)) }
    ensures dtype { IfOk result (λ kept. dtype_of kept ≡ dtype_of array.now) }
    ensures flat { IfOk result (λ kept. IsComputedFlat (column_of kept)) }
    ensures session { ctx.new ≡ ctx.old }
{
    if mask.len() != array.len() {
        return Err(VortexError::MaskLength {
            mask: mask.len(),
            length: array.len(),
        });
    }
    let alloc = *ctx.allocator();
    let kept = select_values(alloc, array, mask)?;
    kept.into_array(alloc)
}

/// Returns the rows of a column of any form at the indices, null for null, flat. The type has null where the column's
/// or the indices' has.
///
/// Refused as `OutOfBounds`, with the index and the number of rows, at the first valid index that is
/// negative or not below that number; else only as `OutOfMemory`.
pub fn take_rows<A: Allocator + Copy>(
    array: &ArrayRef<A>,
    indices: &PrimitiveArray<A>,
    ctx: &mut ExecutionCtx<A>,
) -> VortexResult<ArrayRef<A>>
    ensures refused { IsRefusedBy (take_fault (optional_numbers indices.now) (length (rows array.now))) result }
    ensures rows { IfOk result (λ taken. rows taken ≡ rows_at_indices (rows array.now) (optional_numbers indices.now)) }
    ensures dtype { IfOk result (λ taken. dtype_of taken ≡
        take_dtype (dtype_of array.now) (primitive_dtype indices.now)) }
    ensures flat { IfOk result (λ taken. IsComputedFlat (column_of taken)) }
    ensures session { ctx.new ≡ ctx.old }
{
    let alloc = *ctx.allocator();
    let (positions, places) = positions_of(alloc, indices, array.len())?;
    let taken = take_values(alloc, array, positions.as_slice(), &places);
    drop(positions);
    drop(places);
    let taken = taken?;
    taken.into_array(alloc)
}
