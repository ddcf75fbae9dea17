//! The decoders of booleans.
ghost use Rattle.std.specs.Prelude.{◌≡◌, ℕ, List, IfOk, IsOkUnless, length as item_count};
ghost use Rattle.column_base.specs.declared.dtype.DType.TheVariants as column;
ghost use Rattle.column_base.specs.Mask.{mask_bits};
ghost use Rattle.column_core.specs.Leaf.{OfTruths, leaf_dtype, single_rows};
ghost use Rattle.column_core.specs.PrimitiveForm.{primitive_dtype};
ghost use Rattle.runend_windows.specs.Ends.{IsEndsType, ends_of};
ghost use Rattle.runend_windows.specs.RunEnds.{AreRunEnds, FitsMask, masked_truths};
ghost use Rattle.runend_windows.specs.Window.{IsWindow, run_rows};
ghost use Rattle.runend_array.specs.Array.{column_of, dtype_of, rows};
ghost use Rattle.runend_array.specs.Encoding.{IsDecodedForm};

use crate::compress::decode_runs;
use column_core::{
    BitBuffer, BoolArray, DType, FlatColumn, Mask, Nullability, PrimitiveArray, VortexError,
    VortexResult,
};
use runend_array::{ArrayRef, ExecutionCtx, null_constant};
use runend_windows::{decode_typed_bits, masks_all};
use std::alloc::Allocator;

/// Returns the `length` rows, from row `offset` on, that runs of booleans show: a constant null where there is a run
/// and all values are null, else a flat column with false under null. The parts have to be a valid window over flat
/// unsigned ends without null. Refused only as `OutOfMemory`.
pub fn runend_decode_bools<A: Allocator + Copy>(
    ends: PrimitiveArray<A>,
    values: BoolArray<A>,
    offset: usize,
    length: usize,
    ctx: &mut ExecutionCtx<A>,
) -> VortexResult<ArrayRef<A>>
    requires plain { IsEndsType (primitive_dtype ends) }
    requires window { IsWindow (ends_of ends) offset length }
    requires paired { item_count values.bits ≡ item_count ends.numbers }
    ensures only { IsOkUnless result VortexError.OutOfMemory }
    ensures rows { IfOk result (λ array. rows array ≡
        run_rows (ends_of ends) (single_rows (OfTruths values)) offset length) }
    ensures dtype { IfOk result (λ array. dtype_of array ≡ leaf_dtype (OfTruths values)) }
    ensures form { IfOk result (λ array. IsDecodedForm (single_rows (OfTruths values)) (column_of array)) }
    ensures session { ctx.new ≡ ctx.old }
{
    prove_eq!(values.len(), ends.len());
    decode_runs(ends, FlatColumn::Bool(values), offset, length, ctx)
}

/// Returns the rows of runs whose ends come from an iterator: a constant null where there is a run and the mask is
/// nowhere true, else a flat column with false under null. Row i is the bit of the first run that ends past it, null
/// where the mask is false there. Ends count rows; a run that ends where the one before it does shows no row. Refused
/// only as `OutOfMemory`.
///
/// The iterator has to give an end for each value, none below the one before it, and `length` as the last one. The mask
/// has a bit for each value; only under `Mask::AllTrue` may the type have no null.
pub fn runend_decode_typed_bool<I: Iterator<Item = usize>, A: Allocator + Copy>(
    run_ends: I,
    values: &BitBuffer<A>,
    values_validity: Mask<A>,
    values_nullability: Nullability,
    length: usize,
    ctx: &mut ExecutionCtx<A>,
) -> VortexResult<ArrayRef<A>>
    requires can { I.can_next run_ends }
    requires ends { (ends : List ℕ) × AreRunEnds I.next_gives run_ends (item_count values.now) length ends }
    requires masked { item_count (mask_bits values_validity) ≡ item_count values.now }
    requires nullable { FitsMask values_nullability values_validity }
    ensures only { IsOkUnless result VortexError.OutOfMemory }
    ensures rows { IfOk result (λ array. (ends : List ℕ) →
        AreRunEnds I.next_gives run_ends (item_count values.now) length ends →
        rows array ≡ run_rows ends (masked_truths values.now (mask_bits values_validity)) 0 length) }
    ensures dtype { IfOk result (λ array. dtype_of array ≡ column.Bool values_nullability) }
    ensures form { IfOk result (λ array. IsDecodedForm (masked_truths values.now (mask_bits values_validity))
        (column_of array)) }
    ensures session { ctx.new ≡ ctx.old }
{
    if masks_all(&values_validity, values) {
        drop(values_validity);
        let dtype = DType::Bool(values_nullability);
        return Ok(ArrayRef::Constant(null_constant(dtype, length)));
    }
    let prefill_runs = ctx.session().thresholds().prefill_runs;
    let decoded = decode_typed_bits(
        *ctx.allocator(),
        run_ends,
        values,
        &values_validity,
        values_nullability,
        length,
        prefill_runs,
    );
    drop(values_validity);
    let (bits, validity) = decoded?;
    Ok(ArrayRef::Bool(BoolArray::new_unchecked(bits, validity)))
}
