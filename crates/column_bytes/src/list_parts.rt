//! The parts of columns of lists, read.
ghost use Rattle.std.specs.Prelude.{◌≡◌, ◌++◌, IfOk, IfErr, IsErrOf};
ghost use Rattle.column_base.specs.Validity.{form_of};
ghost use Rattle.column_core.specs.FlatColumn.{leaf_of};
ghost use Rattle.column_fields.specs.Field.{number_field};
ghost use Rattle.column_fields.specs.Refusal.{IsBadOrMemory};
ghost use Rattle.runend_array.specs.Array.{column_of, validity_of, IsRowValidity};
ghost use Rattle.runend_array.specs.Column.{OfLeaf, IsIndex, IsLeaf, index_of};
ghost use Rattle.runend_array.specs.Lists.{ByRows};
ghost use Rattle.column_bytes.specs.ListRead.{IsLeafMessage, IsNoLeafMessage, IsIndexMessage, IsNoIndexMessage};
ghost use Rattle.column_bytes.specs.ListRead.{BeginsWithValidity, BeginsWithNoValidity};

use crate::flat::read_leaf;
use crate::flat_messages::{read_flat, read_flat_runs};
use column_base::{DType, Nullability, PType, Validity, VortexError, VortexResult};
use column_core::FlatColumn;
use column_fields::{read_bytes, read_constant, read_header, read_validity};
use runend_array::{ArrayRef, RowValidity};
use std::alloc::Allocator;
use std::rc::Rc;

/// Returns which of `rows` lists are valid, and the bytes after the validity. Refused as `BadMetadata` exactly where
/// the bytes begin with none, else only as `OutOfMemory`.
pub(crate) fn read_row_validity<A: Allocator + Copy>(
    alloc: A,
    bytes: &[u8],
    rows: usize,
) -> VortexResult<(RowValidity<A>, &[u8])>
    ensures found { IfOk result (λ r. BeginsWithValidity rows bytes.now (validity_of r.0) r.1.now) }
    ensures plain { IfOk result (λ r. IsRowValidity r.0) }
    ensures bad { IsErrOf result VortexError.BadMetadata → BeginsWithNoValidity rows bytes.now }
    ensures only { IfErr result IsBadOrMemory }
{
    if let Some(after) = read_constant(bytes, 5, 5) {
        return read_run_validity(alloc, after, rows);
    }
    let (validity, rest) = read_validity(alloc, bytes, rows)?;
    Ok((by_rows(validity), rest))
}

// A validity that is held row by row.
fn by_rows<A: Allocator>(validity: Validity<A>) -> RowValidity<A>
    ensures form { validity_of result ≡ ByRows (form_of validity) }
    ensures plain { IsRowValidity result }
{
    match validity {
        Validity::NonNullable => RowValidity::NonNullable,
        Validity::AllValid => RowValidity::AllValid,
        Validity::AllInvalid => RowValidity::AllInvalid,
        Validity::Bits(bits) => RowValidity::Bits(bits),
    }
}

// The validity in runs of booleans, after the field that says so, and the bytes after it.
fn read_run_validity<A: Allocator + Copy>(
    alloc: A,
    bytes: &[u8],
    rows: usize,
) -> VortexResult<(RowValidity<A>, &[u8])>
    ensures found { IfOk result
        (λ r. BeginsWithValidity rows (number_field 5 5 ++ bytes.now) (validity_of r.0) r.1.now) }
    ensures plain { IfOk result (λ r. IsRowValidity r.0) }
    ensures bad { IsErrOf result VortexError.BadMetadata → BeginsWithNoValidity rows (number_field 5 5 ++ bytes.now) }
    ensures only { IfErr result IsBadOrMemory }
{
    let Some((flags, rest)) = read_bytes(bytes, 16) else {
        return Err(VortexError::BadMetadata);
    };
    let runs = read_flat_runs(alloc, flags, DType::Bool(Nullability::NonNullable))?;
    if runs.len() != rows {
        drop(runs);
        return Err(VortexError::BadMetadata);
    }
    match Box::new(alloc, runs) {
        Ok(runs) => Ok((RowValidity::Runs(runs), rest)),
        Err(failed) => {
            drop(failed);
            Err(VortexError::OutOfMemory)
        }
    }
}

/// Returns the elements of lists that the bytes are the message of. Refused as `BadMetadata` exactly where they are not
/// the message of a flat column, else only as `OutOfMemory`.
pub(crate) fn read_elements<A: Allocator + Copy>(
    alloc: A,
    bytes: &[u8],
) -> VortexResult<Rc<FlatColumn<A>, A>>
    ensures found { IfOk result (λ elements. IsLeafMessage bytes.now (leaf_of elements.value)) }
    ensures bad { IsErrOf result VortexError.BadMetadata → IsNoLeafMessage bytes.now }
    ensures only { IfErr result IsBadOrMemory }
{
    let Some((header, body)) = read_header(bytes) else {
        return Err(VortexError::BadMetadata);
    };
    if header.form != 1 {
        return Err(VortexError::BadMetadata);
    }
    let column = read_leaf(alloc, header, body)?;
    Ok(Rc::new(alloc, flat_of(column))?)
}

// The flat column that an array is.
fn flat_of<A: Allocator>(array: ArrayRef<A>) -> FlatColumn<A>
    requires { IsLeaf (column_of array) }
    ensures { column_of array ≡ OfLeaf (leaf_of result) }
{
    match array {
        ArrayRef::Primitive(numbers) => FlatColumn::Primitive(numbers),
        ArrayRef::Bool(truths) => FlatColumn::Bool(truths),
        ArrayRef::Decimal(decimals) => FlatColumn::Decimal(decimals),
        ArrayRef::VarBinView(texts) => FlatColumn::VarBinView(texts),
        _ => unreachable!(),
    }
}

/// Returns the offsets or sizes that the bytes are the message of: flat, or runs over a flat column. Refused as
/// `BadMetadata` exactly where they are not such a message, else only as `OutOfMemory`.
pub(crate) fn read_index<A: Allocator + Copy>(alloc: A, bytes: &[u8]) -> VortexResult<ArrayRef<A>>
    ensures found { IfOk result (λ index. IsIndexMessage bytes.now (index_of (column_of index))) }
    ensures plain { IfOk result (λ index. IsIndex (column_of index)) }
    ensures bad { IsErrOf result VortexError.BadMetadata → IsNoIndexMessage bytes.now }
    ensures only { IfErr result IsBadOrMemory }
{
    let Some((header, _)) = read_header(bytes) else {
        return Err(VortexError::BadMetadata);
    };
    let dtype = DType::Primitive(PType::U64, Nullability::NonNullable);
    if header.form == 1 {
        return read_flat(alloc, bytes, dtype);
    }
    let runs = read_flat_runs(alloc, bytes, dtype)?;
    ArrayRef::of_runs(alloc, runs)
}
