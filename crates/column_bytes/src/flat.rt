//! Flat columns of integers, of booleans and of decimals, and the reader of flat columns.
ghost use Rattle.std.specs.Prelude.{◌≡◌, ◌*◌, ◌↔◌, ◌++◌, IsTrue, ℕ, length, OnOk, IfOk, IfErr, IsErrOf, IsOkUnless};
ghost use Rattle.column_core.specs.Leaf.{OfNumbers, OfTruths, OfDecimals};
ghost use Rattle.runend_array.specs.Column.{OfLeaf};
ghost use Rattle.runend_array.specs.Array.{column_of};
ghost use Rattle.column_fields.specs.Kept.{StaysInFront};
ghost use Rattle.column_fields.specs.Room.{UsesCountedRoom};
ghost use Rattle.column_fields.specs.Refusal.{IsBadOrMemory};
ghost use Rattle.column_bytes.specs.Bytes.{column_bytes};
ghost use Rattle.column_bytes.specs.Stored.{AreNumbers, AreTruths, AreDecimals};
ghost use Rattle.column_bytes.specs.Read.{IsBody, IsNoBody, AreNumbersOf, AreNoNumbersOf, AreTruthsOf, AreNoTruthsOf, AreDecimalsOf, AreNoDecimalsOf};

use crate::texts::read_texts;
use bytes::BufMut;
use column_base::{PType, VortexError, VortexResult};
use column_core::{BoolArray, DecimalArray, PrimitiveArray, VarBinKind};
use column_fields::{
    DECIMAL_SIZE, Header, bytes_for, load_bits, load_decimals, load_values, number_of_type,
    put_bits, put_bytes_key, put_decimal_type, put_decimals, put_header, put_validity, put_values,
    read_decimal_fields, read_flat_fields, size_of_type, type_of_number,
};
use runend_array::ArrayRef;
use std::alloc::Allocator;

/// Numbers the type of booleans.
pub(crate) const TRUTHS: u64 = 9;

/// Numbers the type of decimals.
pub(crate) const DECIMALS: u64 = 10;

/// Numbers the type of texts.
pub(crate) const TEXTS: u64 = 11;

/// Numbers the type of bytes.
pub(crate) const BYTES: u64 = 12;

/// Writes a flat column of integers at the end. Refused only as `OutOfMemory`.
pub(crate) fn put_numbers<A: Allocator, W: BufMut>(
    out: &mut W,
    array: &PrimitiveArray<A>,
) -> VortexResult<()>
    ensures ok { OnOk result (W.written out.new ≡ W.written out.old ++ column_bytes (OfLeaf (OfNumbers array.now))) }
    ensures room { UsesCountedRoom result (W.spare out.old) (W.spare out.new)
        (length (column_bytes (OfLeaf (OfNumbers array.now)))) }
    ensures stored { OnOk result (AreNumbers array.now) }
    ensures kept { StaysInFront (W.written out.old) (W.written out.new) }
    ensures only { IsOkUnless result VortexError.OutOfMemory }
{
    let rows = array.len();
    let ptype = array.ptype();
    // No memory has these bytes, but their number would not fit `usize`.
    let Some(count) = rows.checked_mul(size_of_type(ptype)) else {
        return Err(VortexError::OutOfMemory);
    };
    let kind = number_of_type(ptype);
    put_header(
        out,
        Header {
            kind,
            form: 1,
            rows: rows as u64,
        },
    )?;
    put_validity(out, array.validity())?;
    put_bytes_key(out, 7, count)?;
    put_values(out, array.values())?;
    Ok(())
}

/// Writes a flat column of booleans at the end. Refused only as `OutOfMemory`.
pub(crate) fn put_truths<A: Allocator, W: BufMut>(
    out: &mut W,
    array: &BoolArray<A>,
) -> VortexResult<()>
    ensures ok { OnOk result (W.written out.new ≡ W.written out.old ++ column_bytes (OfLeaf (OfTruths array.now))) }
    ensures room { UsesCountedRoom result (W.spare out.old) (W.spare out.new)
        (length (column_bytes (OfLeaf (OfTruths array.now)))) }
    ensures stored { OnOk result (AreTruths array.now) }
    ensures kept { StaysInFront (W.written out.old) (W.written out.new) }
    ensures only { IsOkUnless result VortexError.OutOfMemory }
{
    let rows = array.len();
    put_header(
        out,
        Header {
            kind: TRUTHS,
            form: 1,
            rows: rows as u64,
        },
    )?;
    put_validity(out, array.validity())?;
    put_bytes_key(out, 7, bytes_for(rows))?;
    put_bits(out, array.values())?;
    Ok(())
}

/// Writes a flat column of decimals at the end. Refused only as `OutOfMemory`.
pub(crate) fn put_decimal_rows<A: Allocator, W: BufMut>(
    out: &mut W,
    array: &DecimalArray<A>,
) -> VortexResult<()>
    ensures ok { OnOk result (W.written out.new ≡ W.written out.old ++ column_bytes (OfLeaf (OfDecimals array.now))) }
    ensures room { UsesCountedRoom result (W.spare out.old) (W.spare out.new)
        (length (column_bytes (OfLeaf (OfDecimals array.now)))) }
    ensures stored { OnOk result (AreDecimals array.now) }
    ensures kept { StaysInFront (W.written out.old) (W.written out.new) }
    ensures only { IsOkUnless result VortexError.OutOfMemory }
{
    let rows = array.len();
    // No memory has these bytes, but their number would not fit `usize`.
    let Some(count) = rows.checked_mul(DECIMAL_SIZE) else {
        return Err(VortexError::OutOfMemory);
    };
    put_header(
        out,
        Header {
            kind: DECIMALS,
            form: 1,
            rows: rows as u64,
        },
    )?;
    put_validity(out, array.validity())?;
    put_bytes_key(out, 7, count)?;
    put_decimals(out, array.values())?;
    put_decimal_type(out, array.decimal_dtype())?;
    Ok(())
}

/// Returns the flat column after this header. Refused as `BadMetadata` exactly where there is none, else only as
/// `OutOfMemory`.
pub(crate) fn read_leaf<A: Allocator + Copy>(
    alloc: A,
    header: Header,
    bytes: &[u8],
) -> VortexResult<ArrayRef<A>>
    ensures found { IfOk result (λ array. IsBody 0 header.kind 1 header.rows bytes.now (column_of array)) }
    ensures bad { IsErrOf result VortexError.BadMetadata → (levels : ℕ) →
        IsNoBody levels header.kind 1 header.rows bytes.now }
    ensures only { IfErr result IsBadOrMemory }
{
    let rows = header.rows as usize;
    if header.kind == TRUTHS {
        return match read_truths(alloc, rows, bytes) {
            Ok(truths) => Ok(ArrayRef::Bool(truths)),
            Err(error) => Err(error),
        };
    }
    if header.kind == DECIMALS {
        return match read_decimals(alloc, rows, bytes) {
            Ok(decimals) => Ok(ArrayRef::Decimal(decimals)),
            Err(error) => Err(error),
        };
    }
    if header.kind == TEXTS {
        return read_texts(alloc, VarBinKind::Utf8, rows, bytes);
    }
    if header.kind == BYTES {
        return read_texts(alloc, VarBinKind::Binary, rows, bytes);
    }
    let Some(ptype) = type_of_number(header.kind) else {
        return Err(VortexError::BadMetadata);
    };
    match read_numbers(alloc, ptype, rows, bytes) {
        Ok(numbers) => Ok(ArrayRef::Primitive(numbers)),
        Err(error) => Err(error),
    }
}

fn read_numbers<A: Allocator + Copy>(
    alloc: A,
    ptype: PType,
    rows: usize,
    bytes: &[u8],
) -> VortexResult<PrimitiveArray<A>>
    ensures found { IfOk result (λ array. AreNumbersOf ptype rows bytes.now array) }
    ensures bad { IsErrOf result VortexError.BadMetadata → AreNoNumbersOf ptype rows bytes.now }
    ensures only { IfErr result IsBadOrMemory }
{
    let (validity, items) = read_flat_fields(alloc, bytes, rows)?;
    if !is_size(rows, size_of_type(ptype), items.len()) {
        drop(validity);
        return Err(VortexError::BadMetadata);
    }
    match load_values(alloc, ptype, items, rows) {
        Ok(values) => Ok(PrimitiveArray::new_unchecked(values, validity)),
        Err(error) => {
            drop(validity);
            Err(error)
        }
    }
}

fn read_truths<A: Allocator + Copy>(
    alloc: A,
    rows: usize,
    bytes: &[u8],
) -> VortexResult<BoolArray<A>>
    ensures found { IfOk result (λ array. AreTruthsOf rows bytes.now array) }
    ensures bad { IsErrOf result VortexError.BadMetadata → AreNoTruthsOf rows bytes.now }
    ensures only { IfErr result IsBadOrMemory }
{
    let (validity, items) = read_flat_fields(alloc, bytes, rows)?;
    if items.len() != bytes_for(rows) {
        drop(validity);
        return Err(VortexError::BadMetadata);
    }
    match load_bits(alloc, items, rows) {
        Ok(bits) => Ok(BoolArray::new_unchecked(bits, validity)),
        Err(error) => {
            drop(validity);
            Err(error)
        }
    }
}

fn read_decimals<A: Allocator + Copy>(
    alloc: A,
    rows: usize,
    bytes: &[u8],
) -> VortexResult<DecimalArray<A>>
    ensures found { IfOk result (λ array. AreDecimalsOf rows bytes.now array) }
    ensures bad { IsErrOf result VortexError.BadMetadata → AreNoDecimalsOf rows bytes.now }
    ensures only { IfErr result IsBadOrMemory }
{
    let (validity, decimal, items) = read_decimal_fields(alloc, bytes, rows)?;
    if !is_size(rows, DECIMAL_SIZE, items.len()) {
        drop(validity);
        return Err(VortexError::BadMetadata);
    }
    match load_decimals(alloc, items, rows) {
        Ok(values) => Ok(DecimalArray::new_unchecked(values, decimal, validity)),
        Err(error) => {
            drop(validity);
            Err(error)
        }
    }
}

// Do `rows` rows of `size` bytes each have `count` bytes?
fn is_size(rows: usize, size: usize, count: usize) -> bool
    ensures { IsTrue result ↔ (count ≡ rows * size) }
{
    match rows.checked_mul(size) {
        Some(product) => product == count,
        None => false,
    }
}
