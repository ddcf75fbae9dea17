//! The bytes of flat columns, of what they consist of, and of one value.
ghost use Rattle.std.specs.Prelude.{◌≡◌, ◌+◌, ◌*◌, ◌<◌, None, length, slice_index_or};
ghost use Rattle.column_base.specs.Validity.{form_of};
ghost use Rattle.column_core.specs.FlatView.{leaf_in};
ghost use Rattle.column_core.specs.Leaf.{OfVarBins, single_rows};
ghost use Rattle.runend_column.specs.BytesUsed.{bits_bytes, in_usize, leaf_bytes, number_width, shown_bytes, text_length, validity_bytes, value_bytes, width_of as bytes_of_ptype};

use column_core::{
    BitBuffer, DType, FlatView, PType, Scalar, ScalarValue, ScalarView, Validity, VarBinViewArray,
};
use std::alloc::Allocator;

/// Returns the bytes of the items and of the validity.
pub(crate) fn bytes_of_flat<A: Allocator>(flat: FlatView<'_, A>) -> usize
    ensures { result ≡ in_usize (leaf_bytes (leaf_in flat.entry)) }
{
    match flat {
        FlatView::Primitive(numbers) => {
            let items = numbers.len().saturating_mul(width_of(numbers.ptype()));
            with_validity(items, numbers.validity())
        }
        FlatView::Bool(truths) => {
            with_validity(bytes_of_bits(truths.values()), truths.validity())
        }
        FlatView::Decimal(decimals) => {
            with_validity(decimals.len().saturating_mul(16), decimals.validity())
        }
        FlatView::VarBinView(texts) => with_validity(bytes_of_texts(texts), texts.validity()),
    }
}

/// Returns the bytes of bits, 8 to a byte.
pub(crate) fn bytes_of_bits<A: Allocator>(bits: &BitBuffer<A>) -> usize
    ensures { result ≡ in_usize (bits_bytes (length bits.now)) }
{
    bits.len().div_ceil(8)
}

/// Returns the bytes of one value of a type; null has none.
pub(crate) fn bytes_of_scalar<A: Allocator>(scalar: &Scalar<A>) -> usize
    ensures { result ≡ in_usize (value_bytes scalar.now.dtype scalar.now.value) }
{
    match scalar.value() {
        None => 0,
        Some(ScalarValue::Bool(_)) => 1,
        Some(ScalarValue::Unsigned(_) | ScalarValue::Signed(_)) => width_in(scalar.dtype()),
        Some(ScalarValue::Decimal(_)) => 16,
        Some(ScalarValue::Utf8(text)) => text.len(),
        Some(ScalarValue::Binary(bytes)) => bytes.len(),
    }
}

// The bytes of the views and of the texts or bytes that they show.
fn bytes_of_texts<A: Allocator>(texts: &VarBinViewArray<A>) -> usize
    ensures { result ≡ in_usize (length texts.now.views * 24 + shown_bytes (OfVarBins texts.now)) }
{
    let views = texts.len().saturating_mul(24);
    views.saturating_add(shown_by(texts))
}

// How many bytes the rows show.
#[tactic(auto, using(crate::proofs::Shown::one_row_more, crate::proofs::Shown::all_rows))]
fn shown_by<A: Allocator>(texts: &VarBinViewArray<A>) -> usize
    ensures { result ≡ in_usize (shown_bytes (OfVarBins texts.now)) }
{
    let mut bytes: usize = 0;
    for row in 0..texts.len() {
        bytes = bytes.saturating_add(shown_at(texts, row));
    }
    bytes
}

// How many bytes a row shows, none where it is null.
fn shown_at<A: Allocator>(texts: &VarBinViewArray<A>, row: usize) -> usize
    requires { row < length texts.now.views }
    ensures { result ≡ text_length (slice_index_or (single_rows (OfVarBins texts.now)) row None) }
{
    match texts.get(row) {
        ScalarView::Utf8(text) => text.len(),
        ScalarView::Binary(bytes) => bytes.len(),
        _ => 0,
    }
}

// The bytes of the items, and those of a validity's bits, where it has any.
fn with_validity<A: Allocator>(items: usize, validity: &Validity<A>) -> usize
    ensures { result ≡ in_usize (items + validity_bytes (form_of validity.now)) }
{
    match validity {
        Validity::NonNullable | Validity::AllValid | Validity::AllInvalid => items,
        Validity::Bits(bits) => items.saturating_add(bytes_of_bits(bits)),
    }
}

// How wide the numbers of a type are; 0 for a type of other values.
fn width_in(dtype: DType) -> usize
    ensures { result ≡ number_width dtype }
{
    match dtype {
        DType::Primitive(ptype, _) => width_of(ptype),
        _ => 0,
    }
}

// How many bytes a number takes.
fn width_of(ptype: PType) -> usize
    ensures { result ≡ bytes_of_ptype ptype }
{
    match ptype {
        PType::U8 | PType::I8 => 1,
        PType::U16 | PType::I16 => 2,
        PType::U32 | PType::I32 => 4,
        PType::U64 | PType::I64 => 8,
    }
}
