//! How many bytes the messages of flat columns have, counted without writing them.
ghost use Rattle.std.specs.Prelude.{◌≡◌, ◌+◌, ◌*◌, ◌^◌, ◌≤◌, ◌++◌, length, IfOk, IfErr, OnOk};
ghost use Rattle.column_base.specs.Validity.{form_of};
ghost use Rattle.column_core.specs.Leaf.{OfNumbers, OfTruths, OfDecimals, OfVarBins};
ghost use Rattle.runend_array.specs.Column.{OfLeaf};
ghost use Rattle.column_fields.specs.Varint.{varint};
ghost use Rattle.column_fields.specs.Header.{header_bytes};
ghost use Rattle.column_fields.specs.Sizes.{IsPast};
ghost use Rattle.column_fields.specs.Validity.{validity_field};
ghost use Rattle.column_bytes.specs.Texts.{AreTexts};
ghost use Rattle.column_bytes.specs.Bytes.{column_bytes};
ghost use Rattle.column_bytes.specs.Stored.{AreNumbers, AreTruths, AreDecimals};

use crate::flat::{DECIMALS, TRUTHS};
use crate::kinds::number_of_kind;
use crate::text_writing::text_fields_size;
use column_base::{Validity, VortexError, VortexResult};
use column_core::{BoolArray, DecimalArray, PrimitiveArray, VarBinViewArray};
use column_fields::{
    DECIMAL_SIZE, Header, bytes_for, bytes_key_size, decimal_type_size, decimals_fit, header_size,
    number_of_type, size_of_total, size_of_type, validity_size, values_fit,
};
use std::alloc::Allocator;

/// Returns how many bytes the message of a flat column of integers has. Refused as `OutOfMemory` exactly where their
/// number does not fit `usize`.
pub(crate) fn numbers_size<A: Allocator>(array: &PrimitiveArray<A>) -> VortexResult<usize>
    ensures size { IfOk result (λ size. size ≡ length (column_bytes (OfLeaf (OfNumbers array.now)))) }
    ensures stored { AreNumbers array.now }
    ensures past { IfErr result (λ error. IsPast (length (column_bytes (OfLeaf (OfNumbers array.now)))) error) }
{
    let (rows, ptype, validity) = (array.len(), array.ptype(), array.validity());
    values_fit(array.values());
    let Some(count) = rows.checked_mul(size_of_type(ptype)) else {
        return Err(VortexError::OutOfMemory);
    };
    let head = head_size(number_of_type(ptype), rows, validity, count);
    size_of_total(head as u128 + count as u128)
}

/// Returns the same for a flat column of booleans.
pub(crate) fn truths_size<A: Allocator>(array: &BoolArray<A>) -> VortexResult<usize>
    ensures size { IfOk result (λ size. size ≡ length (column_bytes (OfLeaf (OfTruths array.now)))) }
    ensures stored { AreTruths array.now }
    ensures past { IfErr result (λ error. IsPast (length (column_bytes (OfLeaf (OfTruths array.now)))) error) }
{
    let rows = array.len();
    let count = bytes_for(rows);
    let head = head_size(TRUTHS, rows, array.validity(), count);
    size_of_total(head as u128 + count as u128)
}

/// Returns the same for a flat column of decimals.
pub(crate) fn decimals_size<A: Allocator>(array: &DecimalArray<A>) -> VortexResult<usize>
    ensures size { IfOk result (λ size. size ≡ length (column_bytes (OfLeaf (OfDecimals array.now)))) }
    ensures stored { AreDecimals array.now }
    ensures past { IfErr result (λ error. IsPast (length (column_bytes (OfLeaf (OfDecimals array.now)))) error) }
{
    let (rows, validity) = (array.len(), array.validity());
    decimals_fit(array.values());
    let typed = decimal_type_size(array.decimal_dtype());
    let Some(count) = rows.checked_mul(DECIMAL_SIZE) else {
        return Err(VortexError::OutOfMemory);
    };
    let head = head_size(DECIMALS, rows, validity, count);
    size_of_total(head as u128 + count as u128 + typed as u128)
}

/// Returns the same for a flat column of texts or of bytes.
pub(crate) fn texts_size<A: Allocator>(array: &VarBinViewArray<A>) -> VortexResult<usize>
    ensures size { IfOk result (λ size. size ≡ length (column_bytes (OfLeaf (OfVarBins array.now)))) }
    ensures stored { OnOk result (AreTexts array.now) }
    ensures past { IfErr result (λ error. IsPast (length (column_bytes (OfLeaf (OfVarBins array.now)))) error) }
{
    let header = header_size(Header {
        kind: number_of_kind(array.dtype()),
        form: 1,
        rows: array.len() as u64,
    });
    match text_fields_size(array) {
        Ok(fields) => match size_of_total(header as u128 + fields as u128) {
            Ok(size) => Ok(size),
            Err(error) => Err(error),
        },
        Err(error) => Err(error),
    }
}

// How many bytes come before the bytes of items.
fn head_size<A: Allocator>(kind: u64, rows: usize, validity: &Validity<A>, count: usize) -> usize
    ensures size { result ≡ length (header_bytes kind 1 rows) + length (validity_field (form_of validity.now)) +
        length (varint (7 * 8 + 2) ++ varint count) }
    ensures most { result ≤ 2 ^ 63 }
{
    let stated = Header {
        kind,
        form: 1,
        rows: rows as u64,
    };
    header_size(stated) + validity_size(validity) + bytes_key_size(7, count)
}
