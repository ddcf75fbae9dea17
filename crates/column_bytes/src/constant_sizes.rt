//! How many bytes the messages of constants have, counted without writing them.
ghost use Rattle.std.specs.Prelude.{◌≡◌, ◌+◌, ◌*◌, ◌≤◌, ◌++◌, length, option_map, OnOk, IfOk, IfErr};
ghost use Rattle.column_base.specs.Types.{nullability_of};
ghost use Rattle.column_core.specs.Value.{Number, Single, IsRowOf};
ghost use Rattle.runend_array.specs.Column.{OfConstant};
ghost use Rattle.column_fields.specs.Varint.{varint};
ghost use Rattle.column_fields.specs.ElementFields.{element_type, numbered_type, nullability_number, IsElementType};
ghost use Rattle.column_fields.specs.Field.{number_field};
ghost use Rattle.column_fields.specs.FlatFields.{flat_fields};
ghost use Rattle.column_fields.specs.Sizes.{IsPast};
ghost use Rattle.column_fields.specs.Validity.{validity_field};
ghost use Rattle.column_bytes.specs.Bytes.{column_bytes};
ghost use Rattle.column_bytes.specs.Stored.{IsStoredConstant};
ghost use Rattle.column_bytes.specs.Values.{IsNumberIn, IsStoredType, some_validity, some_bytes, value_fields, type_fields};

use crate::kinds::number_of_kind;
use column_base::{DType, ElementDType, Nullability, VortexResult};
use column_core::{Scalar, ScalarView};
use column_fields::{
    DECIMAL_SIZE, Header, bytes_key_size, decimal_type_size, header_size, number_of_type,
    number_size, size_of_total, size_of_type,
};
use runend_array::ConstantArray;
use std::alloc::Allocator;

/// Returns how many bytes the message of a constant has. Refused as `OutOfMemory` exactly where their number does not
/// fit `usize`.
pub(crate) fn constant_size<A: Allocator>(array: &ConstantArray<A>) -> VortexResult<usize>
    ensures size { IfOk result (λ size. size ≡ length (column_bytes (OfConstant array.now))) }
    ensures stored { OnOk result (IsStoredConstant array.now) }
    ensures past { IfErr result (λ error. IsPast (length (column_bytes (OfConstant array.now))) error) }
{
    let dtype = array.dtype();
    let header = header_size(Header {
        kind: number_of_kind(dtype),
        form: 3,
        rows: array.len() as u64,
    });
    let typed = type_size(dtype);
    match scalar_size(array.scalar()) {
        Ok(value) => match size_of_total(header as u128 + value as u128 + typed as u128) {
            Ok(size) => Ok(size),
            Err(error) => Err(error),
        },
        Err(error) => Err(error),
    }
}

// How many bytes say of a type what its number does not say.
fn type_size(dtype: DType) -> usize
    ensures size { result ≡ length (type_fields dtype) }
    ensures stored { IsStoredType dtype }
{
    match dtype {
        DType::Decimal(decimal, _) => decimal_type_size(decimal),
        DType::List(element, _) => element_type_size(element),
        _ => 0,
    }
}

// How many bytes name the type of the elements of lists.
fn element_type_size(element: ElementDType) -> usize
    ensures size { result ≡ length (element_type element) }
    ensures typed { IsElementType element }
{
    match element {
        ElementDType::Bool(nullability) => numbered_size(9, nullability),
        ElementDType::Primitive(ptype, nullability) => {
            numbered_size(number_of_type(ptype), nullability)
        }
        ElementDType::Decimal(decimal, nullability) => {
            decimal_type_size(decimal) + numbered_size(10, nullability)
        }
        ElementDType::Utf8(nullability) => numbered_size(11, nullability),
        ElementDType::Binary(nullability) => numbered_size(12, nullability),
    }
}

// How many bytes say the number of a type, and whether it has a null.
fn numbered_size(number: u64, nullability: Nullability) -> usize
    ensures size { result ≡ length (numbered_type number nullability) }
    ensures most { result ≤ 40 }
{
    number_size(20, number) + nullability_size(nullability)
}

// How many bytes say whether a type of elements has a null.
fn nullability_size(nullability: Nullability) -> usize
    ensures size { result ≡ length (number_field 21 (nullability_number nullability)) }
    ensures most { result ≤ 20 }
{
    match nullability {
        Nullability::NonNullable => number_size(21, 1),
        Nullability::Nullable => number_size(21, 2),
    }
}

// How many bytes say the value.
fn scalar_size<A: Allocator>(scalar: &Scalar<A>) -> VortexResult<usize>
    ensures size { IfOk result (λ size. size ≡ length (value_fields scalar.now.dtype scalar.now.value)) }
    ensures typed { IsRowOf scalar.now.dtype (option_map Single scalar.now.value) }
    ensures past { IfErr result (λ error. IsPast (length (value_fields scalar.now.dtype scalar.now.value)) error) }
{
    let dtype = scalar.dtype();
    match scalar.view() {
        ScalarView::Null => Ok(number_size(5, 3) + bytes_key_size(7, 0)),
        ScalarView::Bool(_) => some_size(dtype.nullability(), 1),
        ScalarView::Unsigned(number) => whole_size(dtype, i128::from(number)),
        ScalarView::Signed(number) => whole_size(dtype, i128::from(number)),
        ScalarView::Utf8(text) => some_size(dtype.nullability(), text.as_bytes().len()),
        ScalarView::Binary(bytes) => some_size(dtype.nullability(), bytes.len()),
        ScalarView::Decimal(_) => some_size(dtype.nullability(), DECIMAL_SIZE),
        ScalarView::List { .. } => unreachable!(),
    }
}

// The same for a number, where the type is one of numbers.
fn whole_size(dtype: DType, number: i128) -> VortexResult<usize>
    requires { IsNumberIn dtype number }
    ensures size { IfOk result (λ size. size ≡
        length (flat_fields (some_validity (nullability_of dtype)) (some_bytes dtype (Number number)))) }
    ensures past { IfErr result (λ error. IsPast
        (length (flat_fields (some_validity (nullability_of dtype)) (some_bytes dtype (Number number)))) error) }
{
    match dtype {
        DType::Primitive(ptype, nullability) => some_size(nullability, size_of_type(ptype)),
        _ => unreachable!(),
    }
}

// The same for a value of `count` bytes, which is not null.
#[tactic(auto, unfolding(column_fields::specs::Validity::validity_field))]
fn some_size(nullability: Nullability, count: usize) -> VortexResult<usize>
    ensures size { IfOk result (λ size. size ≡ length (validity_field (some_validity nullability)) +
        length (varint (7 * 8 + 2) ++ varint count) + count) }
    ensures past { IfErr result (λ error. IsPast (length (validity_field (some_validity nullability)) +
        length (varint (7 * 8 + 2) ++ varint count) + count) error) }
{
    let told = match nullability {
        Nullability::NonNullable => number_size(5, 1),
        Nullability::Nullable => number_size(5, 2),
    };
    let key = bytes_key_size(7, count);
    size_of_total(told as u128 + key as u128 + count as u128)
}
