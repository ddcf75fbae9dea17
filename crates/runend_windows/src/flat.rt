//! The decoder over flat columns of any type.
ghost use Rattle.std.specs.Prelude.{◌≡◌, ◌↔◌, IfOk, IsOkUnless, IsTrue, count_by, length};
ghost use Rattle.column_base.specs.ValidityForm.{HasLength, flags};
ghost use Rattle.column_core.specs.FlatColumn.{leaf_of};
ghost use Rattle.column_core.specs.FlatView.{leaf_in};
ghost use Rattle.column_core.specs.Leaf.{OfDecimals, OfVarBins, leaf_count, leaf_dtype, leaf_rows, leaf_validity};
ghost use Rattle.column_core.specs.PrimitiveForm.{primitive_dtype};
ghost use Rattle.runend_windows.specs.Window.{IsWindow};
ghost use Rattle.runend_windows.specs.Ends.{IsEndsType, ends_of};
ghost use Rattle.runend_windows.specs.Window.{run_rows};
ghost use Rattle.runend_windows.specs.Encoding.{HasNullsAlone, IsDecodedLeaf};
ghost use Rattle.column_core.specs.Leaf.{single_rows};

use crate::decode::{decode_numbers, decode_rows};
use crate::decode_bool::decode_truths;
use bytes::Bytes;
use column_core::{
    DecimalArray, FlatColumn, FlatView, PrimitiveArray, Validity, VarBinViewArray, View,
    VortexError, VortexResult,
};
use std::alloc::Allocator;

/// Returns the `count` rows, from row `offset` on, that runs show, as a flat column with 0, false or the view of
/// nothing under null. The values are left as they are; texts and bytes share their bytes. From `prefill_runs` runs on,
/// all rows of booleans are first filled with what most runs show; the answer is the same. Refused only as
/// `OutOfMemory`.
pub fn decode_flat<A: Allocator + Copy>(
    alloc: A,
    ends: &PrimitiveArray<A>,
    values: FlatView<'_, A>,
    offset: usize,
    count: usize,
    prefill_runs: usize,
) -> VortexResult<FlatColumn<A>>
    requires plain { IsEndsType (primitive_dtype ends.now) }
    requires window { IsWindow (ends_of ends.now) offset count }
    requires paired { length (leaf_rows (leaf_in values)) ≡ length ends.now.numbers }
    ensures only { IsOkUnless result VortexError.OutOfMemory }
    ensures flat { IfOk result (λ array. IsDecodedLeaf (ends_of ends.now) (leaf_in values.entry) offset count
        (leaf_of array)) }
{
    match values {
        FlatView::Primitive(values) => {
            prove_eq!(values.len(), ends.len());
            let array = decode_numbers(alloc, ends, values, offset, count)?;
            Ok(FlatColumn::Primitive(array))
        }
        FlatView::Bool(values) => {
            prove_eq!(values.len(), ends.len());
            let array = decode_truths(alloc, ends, values, offset, count, prefill_runs)?;
            Ok(FlatColumn::Bool(array))
        }
        FlatView::Decimal(values) => {
            prove_eq!(values.len(), ends.len());
            let array = decode_decimals(alloc, ends, values, offset, count)?;
            Ok(FlatColumn::Decimal(array))
        }
        FlatView::VarBinView(values) => {
            prove_eq!(values.len(), ends.len());
            let array = decode_views(alloc, ends, values, offset, count)?;
            Ok(FlatColumn::VarBinView(array))
        }
    }
}

/// Returns whether there is a row, and all rows are null.
pub fn has_nulls_alone<A: Allocator>(values: &FlatColumn<A>) -> bool
    ensures nulls { IsTrue result ↔ HasNullsAlone (single_rows (leaf_of values.now)) }
    ensures fits { HasLength (leaf_validity (leaf_of values.now)) (leaf_count (leaf_of values.now)) }
{
    valid_count(values) == 0 && values.len() != 0
}

// How many rows are valid.
fn valid_count<A: Allocator>(array: &FlatColumn<A>) -> usize
    ensures count { result ≡ count_by (λ flag. flag) (flags (leaf_validity (leaf_of array.now))
        (leaf_count (leaf_of array.now))) }
    ensures fits { HasLength (leaf_validity (leaf_of array.now)) (leaf_count (leaf_of array.now)) }
    ensures rows { length (leaf_rows (leaf_of array.now)) ≡ leaf_count (leaf_of array.now) }
{
    match array.validity() {
        Validity::NonNullable => array.len(),
        Validity::AllValid => array.len(),
        Validity::AllInvalid => 0,
        Validity::Bits(bits) => bits.true_count(),
    }
}

// The rows that runs of decimals show, 0 under null.
fn decode_decimals<A: Allocator + Copy>(
    alloc: A,
    ends: &PrimitiveArray<A>,
    values: &DecimalArray<A>,
    offset: usize,
    count: usize,
) -> VortexResult<DecimalArray<A>>
    requires plain { IsEndsType (primitive_dtype ends.now) }
    requires window { IsWindow (ends_of ends.now) offset count }
    requires paired { length values.now.numbers ≡ length ends.now.numbers }
    ensures only { IsOkUnless result VortexError.OutOfMemory }
    ensures flat { IfOk result (λ array. IsDecodedLeaf (ends_of ends.now) (OfDecimals values.now) offset count
        (OfDecimals array)) }
{
    let validity = values.validity();
    let (numbers, rows) = decode_rows(alloc, ends, values.values(), validity, 0, offset, count)?;
    Ok(DecimalArray::new_unchecked(numbers, values.decimal_dtype(), rows))
}

// The rows that runs of texts or bytes show, the view of nothing under null. The bytes of the buffers are
// shared.
fn decode_views<A: Allocator + Copy>(
    alloc: A,
    ends: &PrimitiveArray<A>,
    values: &VarBinViewArray<A>,
    offset: usize,
    count: usize,
) -> VortexResult<VarBinViewArray<A>>
    requires plain { IsEndsType (primitive_dtype ends.now) }
    requires window { IsWindow (ends_of ends.now) offset count }
    requires paired { length values.now.views ≡ length ends.now.numbers }
    ensures only { IsOkUnless result VortexError.OutOfMemory }
    ensures flat { IfOk result (λ array. IsDecodedLeaf (ends_of ends.now) (OfVarBins values.now) offset count
        (OfVarBins array)) }
{
    let blank = View {
        buffer: 0,
        start: 0,
        size: 0,
    };
    let validity = values.validity();
    let (views, rows) = decode_rows(alloc, ends, values.views(), validity, blank, offset, count)?;
    match buffers_of(alloc, values) {
        Ok(buffers) => Ok(VarBinViewArray::new_unchecked(views, buffers, values.kind(), rows)),
        Err(error) => {
            drop(rows);
            drop(views);
            Err(error)
        }
    }
}

// The buffers of a column, whose bytes are shared.
fn buffers_of<A: Allocator + Copy>(
    alloc: A,
    values: &VarBinViewArray<A>,
) -> VortexResult<Vec<Bytes<A>, A>>
    ensures only { IsOkUnless result VortexError.OutOfMemory }
    ensures shared { IfOk result (λ buffers. buffers.items ≡ values.now.buffers) }
{
    // A column without rows still has all of its buffers.
    let no_row = values.slice(alloc, 0..0)?;
    let (views, buffers, _, validity) = no_row.into_parts();
    drop(validity);
    drop(views);
    Ok(buffers)
}
