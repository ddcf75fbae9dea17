//! The encoder of integers, and the decoder of flat values.
ghost use Rattle.std.specs.Prelude.{◌≡◌, ℕ, List, None, length, length as item_count, map, IfOk, IsOkUnless};
ghost use Rattle.column_base.specs.declared.dtype.DType.TheVariants as column;
ghost use Rattle.column_base.specs.Mask.{mask_bits};
ghost use Rattle.column_core.specs.Computed.{IsComputed};
ghost use Rattle.column_core.specs.FlatColumn.{leaf_of};
ghost use Rattle.column_core.specs.Leaf.{OfDecimals, OfVarBins, leaf_dtype, leaf_rows, single_rows};
ghost use Rattle.column_core.specs.PrimitiveForm.{primitive_dtype};
ghost use Rattle.runend_windows.specs.Encoding.{IsAllInvalid, number_rows};
ghost use Rattle.runend_windows.specs.Ends.{IsEndsType, ends_of};
ghost use Rattle.runend_windows.specs.RunEnds.{AreRunEnds, FitsMask, masked_values};
ghost use Rattle.column_core.specs.Computed.{HasRowIfAllNull};
ghost use Rattle.runend_windows.specs.Window.{IsWindow, run_rows};
ghost use Rattle.runend_array.specs.Array.{column_of, dtype_of, rows};
ghost use Rattle.runend_array.specs.ListRuns.{AreListsInRuns};
ghost use Rattle.runend_array.specs.Lists.{list_count, list_dtype, list_rows};
ghost use Rattle.runend_array.specs.Encoding.{IsEncoding, IsDecodedForm};

use crate::array_ref::ArrayRef;
use crate::canonical::array_of;
use crate::constant::null_constant;
use crate::lists::ListViewArray;
use crate::session::ExecutionCtx;
use column_core::{
    DecimalArray, FlatColumn, Mask, NativePType, Nullability, PrimitiveArray, PrimitiveValues,
    Validity, VarBinViewArray, VortexError, VortexResult,
};
use runend_windows::{
    decode_flat, decode_typed_numbers, encode_plain, has_nulls_alone, is_all_null,
};
use std::alloc::Allocator;

/// Returns the ends and the values of the runs of a column: a run for each longest stretch of equal rows, null being
/// equal to null. Ends are of the least type that holds them. A column whose validity says that all of its rows are
/// null, and that has a row, gives one end in u64 and one constant null. Refused only as `OutOfMemory`.
pub fn runend_encode<A: Allocator + Copy>(
    array: &PrimitiveArray<A>,
    ctx: &mut ExecutionCtx<A>,
) -> VortexResult<(PrimitiveArray<A>, ArrayRef<A>)>
    ensures only { IsOkUnless result VortexError.OutOfMemory }
    ensures encoding { IfOk result (λ parts. IsEncoding array.now parts.0 (column_of parts.1)) }
    ensures session { ctx.new ≡ ctx.old }
{
    let alloc = *ctx.allocator();
    if is_all_null(array) {
        return encode_nulls(alloc, array);
    }
    let (ends, values) = encode_plain(alloc, array)?;
    Ok((ends, ArrayRef::Primitive(values)))
}

// The encoding of rows that are all null: one end in u64, and one constant null.
fn encode_nulls<A: Allocator + Copy>(
    alloc: A,
    array: &PrimitiveArray<A>,
) -> VortexResult<(PrimitiveArray<A>, ArrayRef<A>)>
    requires { IsAllInvalid array.now }
    ensures only { IsOkUnless result VortexError.OutOfMemory }
    ensures encoding { IfOk result (λ parts. IsEncoding array.now parts.0 (column_of parts.1)) }
{
    let ends = Vec::from_slice(alloc, &[array.len() as u64])?;
    let ends = PrimitiveArray::new_unchecked(
        PrimitiveValues::from_vec(ends),
        Validity::NonNullable,
    );
    let values = null_constant(array.dtype(), 1);
    Ok((ends, ArrayRef::Constant(values)))
}

/// Returns the `count` rows, from row `offset` on, that runs show: a constant null where there is a run and all values
/// are null, else a flat column with 0, false or the view of nothing under null. From `prefill_runs` runs on, all rows
/// of booleans are first filled with what most runs show; other types make no use of it. Refused only as `OutOfMemory`.
pub fn decode_column<A: Allocator + Copy>(
    alloc: A,
    ends: &PrimitiveArray<A>,
    values: FlatColumn<A>,
    offset: usize,
    count: usize,
    prefill_runs: usize,
) -> VortexResult<ArrayRef<A>>
    requires plain { IsEndsType (primitive_dtype ends.now) }
    requires window { IsWindow (ends_of ends.now) offset count }
    requires paired { length (leaf_rows (leaf_of values)) ≡ length ends.now.numbers }
    ensures only { IsOkUnless result VortexError.OutOfMemory }
    ensures rows { IfOk result (λ array. rows array ≡
        run_rows (ends_of ends.now) (single_rows (leaf_of values)) offset count) }
    ensures dtype { IfOk result (λ array. dtype_of array ≡ leaf_dtype (leaf_of values)) }
    ensures form { IfOk result (λ array. IsDecodedForm (single_rows (leaf_of values)) (column_of array)) }
{
    if has_nulls_alone(&values) {
        let nulls = null_constant(values.dtype(), count);
        drop(values);
        return Ok(ArrayRef::Constant(nulls));
    }
    let array = decode_flat(alloc, ends, values.view(), offset, count, prefill_runs);
    drop(values);
    Ok(array_of(array?))
}
