//! The decoders of runs that are given by their parts.
ghost use Rattle.std.specs.Prelude.{◌≡◌, ℕ, List, length as item_count, map, IfOk, IsOkUnless};
ghost use Rattle.column_base.specs.declared.dtype.DType.TheVariants as column;
ghost use Rattle.column_base.specs.Mask.{mask_bits};
ghost use Rattle.column_core.specs.Computed.{HasRowIfAllNull, IsComputed};
ghost use Rattle.column_core.specs.FlatColumn.{leaf_of};
ghost use Rattle.column_core.specs.Leaf.{OfDecimals, OfVarBins, leaf_dtype, leaf_rows, single_rows};
ghost use Rattle.column_core.specs.PrimitiveForm.{primitive_dtype};
ghost use Rattle.runend_windows.specs.Encoding.{number_rows};
ghost use Rattle.runend_windows.specs.Ends.{IsEndsType, ends_of};
ghost use Rattle.runend_windows.specs.RunEnds.{AreRunEnds, FitsMask, masked_values};
ghost use Rattle.runend_windows.specs.Window.{IsWindow, run_rows};
ghost use Rattle.runend_array.specs.Array.{column_of, dtype_of, rows};
ghost use Rattle.runend_array.specs.Encoding.{IsDecodedForm};
ghost use Rattle.runend_array.specs.ListRuns.{AreListsInRuns};
ghost use Rattle.runend_array.specs.Lists.{list_count, list_dtype, list_rows};

use column_core::{
    DecimalArray, FlatColumn, Mask, NativePType, Nullability, PrimitiveArray, VarBinViewArray,
    VortexError, VortexResult,
};
use runend_array::compress::decode_column;
use runend_array::{ArrayRef, ExecutionCtx, ListViewArray};
use runend_windows::decode_typed_numbers;
use std::alloc::Allocator;

/// Returns the `length` rows, from row `offset` on, that runs show: a constant null where there is a run and all values
/// are null, else a flat column with 0 under null. The parts have to be a valid window over flat unsigned ends without
/// null. Refused only as `OutOfMemory`.
pub fn runend_decode_primitive<A: Allocator + Copy>(
    ends: PrimitiveArray<A>,
    values: PrimitiveArray<A>,
    offset: usize,
    length: usize,
    ctx: &mut ExecutionCtx<A>,
) -> VortexResult<ArrayRef<A>>
    requires plain { IsEndsType (primitive_dtype ends) }
    requires window { IsWindow (ends_of ends) offset length }
    requires paired { item_count values.numbers ≡ item_count ends.numbers }
    ensures only { IsOkUnless result VortexError.OutOfMemory }
    ensures rows { IfOk result (λ array. rows array ≡ run_rows (ends_of ends) (number_rows values) offset length) }
    ensures dtype { IfOk result (λ array. dtype_of array ≡ primitive_dtype values) }
    ensures form { IfOk result (λ array. IsDecodedForm (number_rows values) (column_of array)) }
    ensures session { ctx.new ≡ ctx.old }
{
    prove_eq!(values.len(), ends.len());
    decode_runs(ends, FlatColumn::Primitive(values), offset, length, ctx)
}

/// Returns the `length` rows, from row `offset` on, that runs of decimals show: a constant null where there is a run
/// and all values are null, else a flat column with 0 under null. The parts have to be a valid window over flat
/// unsigned ends without null. Refused only as `OutOfMemory`.
pub fn runend_decode_decimal<A: Allocator + Copy>(
    ends: PrimitiveArray<A>,
    values: DecimalArray<A>,
    offset: usize,
    length: usize,
    ctx: &mut ExecutionCtx<A>,
) -> VortexResult<ArrayRef<A>>
    requires plain { IsEndsType (primitive_dtype ends) }
    requires window { IsWindow (ends_of ends) offset length }
    requires paired { item_count values.numbers ≡ item_count ends.numbers }
    ensures only { IsOkUnless result VortexError.OutOfMemory }
    ensures rows { IfOk result (λ array. rows array ≡
        run_rows (ends_of ends) (single_rows (OfDecimals values)) offset length) }
    ensures dtype { IfOk result (λ array. dtype_of array ≡ leaf_dtype (OfDecimals values)) }
    ensures form { IfOk result (λ array. IsDecodedForm (single_rows (OfDecimals values)) (column_of array)) }
    ensures session { ctx.new ≡ ctx.old }
{
    prove_eq!(values.len(), ends.len());
    decode_runs(ends, FlatColumn::Decimal(values), offset, length, ctx)
}

/// Returns the `length` rows, from row `offset` on, that runs of texts or bytes show: a constant null where there is a
/// run and all values are null, else a flat column with the view of nothing under null. The parts have to be a valid
/// window over flat unsigned ends without null. Keeps the buffers. Refused only as `OutOfMemory`.
pub fn runend_decode_varbinview<A: Allocator + Copy>(
    ends: PrimitiveArray<A>,
    values: VarBinViewArray<A>,
    offset: usize,
    length: usize,
    ctx: &mut ExecutionCtx<A>,
) -> VortexResult<ArrayRef<A>>
    requires plain { IsEndsType (primitive_dtype ends) }
    requires window { IsWindow (ends_of ends) offset length }
    requires paired { item_count values.views ≡ item_count ends.numbers }
    ensures only { IsOkUnless result VortexError.OutOfMemory }
    ensures rows { IfOk result (λ array. rows array ≡
        run_rows (ends_of ends) (single_rows (OfVarBins values)) offset length) }
    ensures dtype { IfOk result (λ array. dtype_of array ≡ leaf_dtype (OfVarBins values)) }
    ensures form { IfOk result (λ array. IsDecodedForm (single_rows (OfVarBins values)) (column_of array)) }
    ensures session { ctx.new ≡ ctx.old }
{
    prove_eq!(values.len(), ends.len());
    decode_runs(ends, FlatColumn::VarBinView(values), offset, length, ctx)
}

/// Returns the `length` rows, from row `offset` on, that runs of flat values show: a constant null where there is a run
/// and all values are null, else a flat column with 0, false or the view of nothing under null. From the session's
/// `prefill_runs` runs on, all rows of booleans are first filled with what most runs show. Refused only as
/// `OutOfMemory`.
pub(crate) fn decode_runs<A: Allocator + Copy>(
    ends: PrimitiveArray<A>,
    values: FlatColumn<A>,
    offset: usize,
    length: usize,
    ctx: &mut ExecutionCtx<A>,
) -> VortexResult<ArrayRef<A>>
    requires plain { IsEndsType (primitive_dtype ends) }
    requires window { IsWindow (ends_of ends) offset length }
    requires paired { item_count (leaf_rows (leaf_of values)) ≡ item_count ends.numbers }
    ensures only { IsOkUnless result VortexError.OutOfMemory }
    ensures rows { IfOk result (λ array. rows array ≡
        run_rows (ends_of ends) (single_rows (leaf_of values)) offset length) }
    ensures dtype { IfOk result (λ array. dtype_of array ≡ leaf_dtype (leaf_of values)) }
    ensures form { IfOk result (λ array. IsDecodedForm (single_rows (leaf_of values)) (column_of array)) }
    ensures session { ctx.new ≡ ctx.old }
{
    let alloc = *ctx.allocator();
    let prefill_runs = ctx.session().thresholds().prefill_runs;
    let decoded = decode_column(alloc, &ends, values, offset, length, prefill_runs);
    drop(ends);
    decoded
}

/// Returns the `length` rows, from row `offset` on, that runs of lists show: lists over the same elements, whose
/// offsets and sizes, and validity where it is stored, are run columns over these ends and this window, with flat
/// values. The parts have to be a valid window over flat unsigned ends without null. Refused only as `OutOfMemory`.
pub fn runend_decode_listview<A: Allocator + Copy>(
    ends: PrimitiveArray<A>,
    values: ListViewArray<A>,
    offset: usize,
    length: usize,
    ctx: &mut ExecutionCtx<A>,
) -> VortexResult<ListViewArray<A>>
    requires plain { IsEndsType (primitive_dtype ends) }
    requires window { IsWindow (ends_of ends) offset length }
    requires paired { list_count values ≡ item_count ends.numbers }
    ensures only { IsOkUnless result VortexError.OutOfMemory }
    ensures rows { IfOk result (λ lists. list_rows lists ≡ run_rows (ends_of ends) (list_rows values) offset length) }
    ensures dtype { IfOk result (λ lists. list_dtype lists ≡ list_dtype values) }
    ensures form { IfOk result (λ lists. AreListsInRuns ends.ptype (ends_of ends) values offset length lists) }
    ensures session { ctx.new ≡ ctx.old }
{
    let shown = values.decode_with(*ctx.allocator(), &ends, offset, length);
    drop(values);
    drop(ends);
    shown
}

/// Returns the rows of runs whose ends come from an iterator, as a flat column of `T` with 0 under null: row i is the
/// value of the first run that ends past it, null where the mask is false there. Ends count rows; a run that ends where
/// the one before it does shows no row. The validity of a type with null is the one that `Validity::from_bits` makes.
/// Refused only as `OutOfMemory`.
///
/// The iterator has to give an end for each value, none below the one before it, and `length` as the last one. The mask
/// has a bit for each value; only under `Mask::AllTrue` may the type have no null.
pub fn runend_decode_typed_primitive<
    T: NativePType,
    I: Iterator<Item = usize>,
    A: Allocator + Copy,
>(
    run_ends: I,
    values: &[T],
    values_validity: Mask<A>,
    values_nullability: Nullability,
    length: usize,
    ctx: &mut ExecutionCtx<A>,
) -> VortexResult<PrimitiveArray<A>>
    requires can { I.can_next run_ends }
    requires ends { (ends : List ℕ) × AreRunEnds I.next_gives run_ends (item_count values.now) length ends }
    requires masked { item_count (mask_bits values_validity) ≡ item_count values.now }
    requires nullable { FitsMask values_nullability values_validity }
    ensures only { IsOkUnless result VortexError.OutOfMemory }
    ensures rows { IfOk result (λ array. (ends : List ℕ) →
        AreRunEnds I.next_gives run_ends (item_count values.now) length ends →
        number_rows array ≡ run_rows ends (masked_values (map T.number values.now)
        (mask_bits values_validity)) 0 length) }
    ensures dtype { IfOk result (λ array. primitive_dtype array ≡ column.Primitive T.PTYPE values_nullability) }
    ensures form { IfOk result (λ array. IsComputed array) }
    ensures some { IfOk result (λ array. HasRowIfAllNull array.validity length) }
    ensures session { ctx.new ≡ ctx.old }
{
    let decoded = decode_typed_numbers(
        *ctx.allocator(),
        run_ends,
        values,
        &values_validity,
        values_nullability,
        length,
    );
    drop(values_validity);
    decoded
}
