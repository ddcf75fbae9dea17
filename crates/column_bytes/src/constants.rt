//! Constants: one value in each row, or null.
ghost use Rattle.std.specs.Prelude.{◌≡◌, ◌++◌, ◌∷◌, [], length, ℕ, ℤ, Bool, Some, option_map, OnOk, IfOk, IfErr, IfSome, IfNone, IsErrOf, IsOkUnless};
ghost use Rattle.column_base.specs.declared.dtype.Nullability.{Nullability};
ghost use Rattle.column_base.specs.declared.dtype.DType.TheVariants.{Primitive};
ghost use Rattle.column_base.specs.Types.{nullability_of};
ghost use Rattle.column_base.specs.ValidityForm.{AllNull};
ghost use Rattle.column_base.specs.Words.{one_if};
ghost use Rattle.column_core.specs.Scalar.{flat_of, IsOwnedOf};
ghost use Rattle.column_core.specs.Value.{Number, Single, IsRowOf};
ghost use Rattle.runend_array.specs.Array.{column_of};
ghost use Rattle.runend_array.specs.Column.{OfConstant};
ghost use Rattle.column_fields.specs.DecimalBytes.{decimal_bytes};
ghost use Rattle.column_fields.specs.FlatFields.{flat_fields};
ghost use Rattle.column_fields.specs.Kept.{StaysInFront};
ghost use Rattle.column_fields.specs.Room.{UsesRoom, UsesCountedRoom};
ghost use Rattle.column_fields.specs.NumberBytes.{number_bytes};
ghost use Rattle.column_fields.specs.Validity.{validity_field};
ghost use Rattle.column_fields.specs.Refusal.{IsBadOrMemory};
ghost use Rattle.column_bytes.specs.Bytes.{column_bytes};
ghost use Rattle.column_bytes.specs.Values.{IsPlainType, IsStoredType, IsStoredValue, IsNumberIn, some_validity, some_bytes, value_fields, type_fields};
ghost use Rattle.column_bytes.specs.Stored.{IsStoredConstant};
ghost use Rattle.column_bytes.specs.Read.{IsBody, IsNoBody, IsScalarIn, HasNoScalarIn, IsValueIn, HasNoValueIn, IsNullOf, HasNoNullOf, IsSomeOf, HasNoSomeOf, IsWholeOf, HasNoValueOf};

use crate::decimal_constants::read_decimal;
use crate::flat::DECIMALS;
use crate::kinds::{kind_of_number, number_of_kind};
use crate::list_constants::read_null_list;
use crate::lists::LISTS;
use bytes::BufMut;
use column_base::{DType, Nullability, PType, Validity, VortexError, VortexResult};
use column_core::{Scalar, ScalarValue, ScalarView};
use column_fields::{
    DECIMAL_SIZE, Header, load_value, put_bytes, put_bytes_key, put_decimal, put_decimal_type,
    put_element_type, put_header, put_number, put_value, read_flat_fields, size_of_type,
};
use runend_array::{ArrayRef, ConstantArray};
use std::alloc::Allocator;

/// Writes a constant at the end. Refused only as `OutOfMemory`.
pub(crate) fn put_constant<A: Allocator, W: BufMut>(
    out: &mut W,
    array: &ConstantArray<A>,
) -> VortexResult<()>
    ensures ok { OnOk result (W.written out.new ≡ W.written out.old ++ column_bytes (OfConstant array.now)) }
    ensures room { UsesCountedRoom result (W.spare out.old) (W.spare out.new)
        (length (column_bytes (OfConstant array.now))) }
    ensures stored { OnOk result (IsStoredConstant array.now) }
    ensures kept { StaysInFront (W.written out.old) (W.written out.new) }
    ensures only { IsOkUnless result VortexError.OutOfMemory }
{
    let dtype = array.dtype();
    put_header(
        out,
        Header {
            kind: number_of_kind(dtype),
            form: 3,
            rows: array.len() as u64,
        },
    )?;
    put_scalar(out, array.scalar())?;
    put_type(out, dtype)?;
    Ok(())
}

// Writes of a type what its number does not say.
fn put_type<W: BufMut>(out: &mut W, dtype: DType) -> VortexResult<()>
    ensures ok { OnOk result (W.written out.new ≡ W.written out.old ++ type_fields dtype) }
    ensures room { UsesRoom result (W.spare out.old) (W.spare out.new) (length (type_fields dtype)) }
    ensures stored { OnOk result (IsStoredType dtype) }
    ensures kept { StaysInFront (W.written out.old) (W.written out.new) }
    ensures only { IsOkUnless result VortexError.OutOfMemory }
{
    match dtype {
        DType::Decimal(decimal, _) => put_decimal_type(out, decimal),
        DType::List(element, _) => put_element_type(out, element),
        _ => Ok(()),
    }
}

// Writes what the message of a constant says of its value.
fn put_scalar<A: Allocator, W: BufMut>(out: &mut W, scalar: &Scalar<A>) -> VortexResult<()>
    ensures ok { OnOk result (W.written out.new ≡ W.written out.old ++ value_fields scalar.now.dtype scalar.now.value) }
    ensures room { UsesRoom result (W.spare out.old) (W.spare out.new)
        (length (value_fields scalar.now.dtype scalar.now.value)) }
    ensures typed { IsRowOf scalar.now.dtype (option_map Single scalar.now.value) }
    ensures kept { StaysInFront (W.written out.old) (W.written out.new) }
    ensures only { IsOkUnless result VortexError.OutOfMemory }
{
    let dtype = scalar.dtype();
    match scalar.view() {
        ScalarView::Null => put_null(out),
        ScalarView::Bool(truth) => put_truth(out, dtype.nullability(), truth),
        ScalarView::Unsigned(number) => put_whole(out, dtype, i128::from(number)),
        ScalarView::Signed(number) => put_whole(out, dtype, i128::from(number)),
        ScalarView::Utf8(text) => put_some(out, dtype.nullability(), text.as_bytes()),
        ScalarView::Binary(bytes) => put_some(out, dtype.nullability(), bytes),
        ScalarView::Decimal(number) => put_number_of(out, dtype.nullability(), number),
        ScalarView::List { .. } => unreachable!(),
    }
}

// Writes that the value is null.
fn put_null<W: BufMut>(out: &mut W) -> VortexResult<()>
    ensures ok { OnOk result (W.written out.new ≡ W.written out.old ++ flat_fields AllNull []) }
    ensures room { UsesRoom result (W.spare out.old) (W.spare out.new) (length (flat_fields AllNull [])) }
    ensures kept { StaysInFront (W.written out.old) (W.written out.new) }
    ensures only { IsOkUnless result VortexError.OutOfMemory }
{
    put_number(out, 5, 3)?;
    put_bytes_key(out, 7, 0)?;
    Ok(())
}

// Writes that there is a value, and its bytes.
fn put_some<W: BufMut>(out: &mut W, nullability: Nullability, bytes: &[u8]) -> VortexResult<()>
    ensures ok { OnOk result (W.written out.new ≡ W.written out.old ++
        flat_fields (some_validity nullability) bytes.now) }
    ensures room { UsesRoom result (W.spare out.old) (W.spare out.new)
        (length (flat_fields (some_validity nullability) bytes.now)) }
    ensures kept { StaysInFront (W.written out.old) (W.written out.new) }
    ensures only { IsOkUnless result VortexError.OutOfMemory }
{
    put_told(out, nullability)?;
    put_bytes(out, 7, bytes)?;
    Ok(())
}

// The same for a boolean.
fn put_truth<W: BufMut>(out: &mut W, nullability: Nullability, truth: bool) -> VortexResult<()>
    ensures ok { OnOk result (W.written out.new ≡ W.written out.old ++
        flat_fields (some_validity nullability) (one_if truth ∷ [])) }
    ensures room { UsesRoom result (W.spare out.old) (W.spare out.new)
        (length (flat_fields (some_validity nullability) (one_if truth ∷ []))) }
    ensures kept { StaysInFront (W.written out.old) (W.written out.new) }
    ensures only { IsOkUnless result VortexError.OutOfMemory }
{
    put_told(out, nullability)?;
    put_bytes(out, 7, &[u8::from(truth)])?;
    Ok(())
}

// The same for a decimal.
fn put_number_of<W: BufMut>(out: &mut W, nullability: Nullability, number: i128) -> VortexResult<()>
    ensures ok { OnOk result (W.written out.new ≡ W.written out.old ++
        flat_fields (some_validity nullability) (decimal_bytes number)) }
    ensures room { UsesRoom result (W.spare out.old) (W.spare out.new)
        (length (flat_fields (some_validity nullability) (decimal_bytes number))) }
    ensures kept { StaysInFront (W.written out.old) (W.written out.new) }
    ensures only { IsOkUnless result VortexError.OutOfMemory }
{
    put_told(out, nullability)?;
    put_bytes_key(out, 7, DECIMAL_SIZE)?;
    put_decimal(out, number)?;
    Ok(())
}

// The same for a number, where the type is one of numbers.
fn put_whole<W: BufMut>(out: &mut W, dtype: DType, number: i128) -> VortexResult<()>
    requires { IsNumberIn dtype number }
    ensures ok { OnOk result (W.written out.new ≡ W.written out.old ++
        flat_fields (some_validity (nullability_of dtype)) (some_bytes dtype (Number number))) }
    ensures room { UsesRoom result (W.spare out.old) (W.spare out.new)
        (length (flat_fields (some_validity (nullability_of dtype)) (some_bytes dtype (Number number)))) }
    ensures kept { StaysInFront (W.written out.old) (W.written out.new) }
    ensures only { IsOkUnless result VortexError.OutOfMemory }
{
    match dtype {
        DType::Primitive(ptype, nullability) => {
            put_told(out, nullability)?;
            put_bytes_key(out, 7, size_of_type(ptype))?;
            put_value(out, ptype, number)?;
            Ok(())
        }
        _ => unreachable!(),
    }
}

// Writes that there is a value.
#[tactic(auto, unfolding(column_fields::specs::Validity::validity_field))]
fn put_told<W: BufMut>(out: &mut W, nullability: Nullability) -> VortexResult<()>
    ensures ok { OnOk result (W.written out.new ≡ W.written out.old ++ validity_field (some_validity nullability)) }
    ensures room { UsesRoom result (W.spare out.old) (W.spare out.new)
        (length (validity_field (some_validity nullability))) }
    ensures kept { StaysInFront (W.written out.old) (W.written out.new) }
    ensures only { IsOkUnless result VortexError.OutOfMemory }
{
    match nullability {
        Nullability::NonNullable => put_number(out, 5, 1),
        Nullability::Nullable => put_number(out, 5, 2),
    }
}

/// Returns the constant after this header. Refused as `BadMetadata` exactly where there is none, else only as
/// `OutOfMemory`.
pub(crate) fn read_constant<A: Allocator + Copy>(
    alloc: A,
    header: Header,
    bytes: &[u8],
) -> VortexResult<ArrayRef<A>>
    ensures found { IfOk result (λ array. IsBody 0 header.kind 3 header.rows bytes.now (column_of array)) }
    ensures bad { IsErrOf result VortexError.BadMetadata → (levels : ℕ) →
        IsNoBody levels header.kind 3 header.rows bytes.now }
    ensures only { IfErr result IsBadOrMemory }
{
    match read_scalar(alloc, header.kind, bytes) {
        Ok(scalar) => Ok(ArrayRef::Constant(ConstantArray::new(scalar, header.rows as usize))),
        Err(error) => Err(error),
    }
}

// What the bytes say of the value, whose type has this number.
fn read_scalar<A: Allocator + Copy>(alloc: A, kind: u64, bytes: &[u8]) -> VortexResult<Scalar<A>>
    ensures found { IfOk result (λ scalar. IsScalarIn kind bytes.now scalar) }
    ensures bad { IsErrOf result VortexError.BadMetadata → HasNoScalarIn kind bytes.now }
    ensures only { IfErr result IsBadOrMemory }
{
    if kind == DECIMALS {
        return read_decimal(alloc, bytes);
    }
    if kind == LISTS {
        return read_null_list(bytes);
    }
    read_plain(alloc, kind, bytes)
}

// The same for a type of integers, booleans, texts or bytes.
fn read_plain<A: Allocator + Copy>(alloc: A, kind: u64, bytes: &[u8]) -> VortexResult<Scalar<A>>
    ensures found { IfOk result (λ scalar. IsValueIn kind bytes.now scalar) }
    ensures bad { IsErrOf result VortexError.BadMetadata → HasNoValueIn kind bytes.now }
    ensures only { IfErr result IsBadOrMemory }
{
    let (validity, items) = read_flat_fields(alloc, bytes, 0)?;
    match validity {
        Validity::NonNullable => read_some(alloc, kind, Nullability::NonNullable, items),
        Validity::AllValid => read_some(alloc, kind, Nullability::Nullable, items),
        Validity::AllInvalid => read_null(kind, items),
        Validity::Bits(bits) => {
            drop(bits);
            Err(VortexError::BadMetadata)
        }
    }
}

// The null that these bytes hold.
fn read_null<A: Allocator + Copy>(kind: u64, bytes: &[u8]) -> VortexResult<Scalar<A>>
    ensures found { IfOk result (λ scalar. IsNullOf kind bytes.now scalar) }
    ensures bad { IsErrOf result VortexError.BadMetadata → HasNoNullOf kind bytes.now }
    ensures only { IsOkUnless result VortexError.BadMetadata }
{
    if bytes.len() != 0 {
        return Err(VortexError::BadMetadata);
    }
    match kind_of_number(kind, Nullability::Nullable) {
        Some(dtype) => Ok(Scalar::try_new(dtype, None).unwrap()),
        None => Err(VortexError::BadMetadata),
    }
}

// The value that these bytes hold, where it is of the type of that number.
fn read_some<A: Allocator + Copy>(
    alloc: A,
    kind: u64,
    nullability: Nullability,
    bytes: &[u8],
) -> VortexResult<Scalar<A>>
    ensures found { IfOk result (λ scalar. IsSomeOf kind nullability bytes.now scalar) }
    ensures bad { IsErrOf result VortexError.BadMetadata → HasNoSomeOf kind nullability bytes.now }
    ensures only { IfErr result IsBadOrMemory }
{
    let Some(dtype) = kind_of_number(kind, nullability) else {
        return Err(VortexError::BadMetadata);
    };
    let value = read_value(alloc, dtype, bytes)?;
    Ok(Scalar::try_new(dtype, Some(value)).unwrap())
}

// The value of the type that these bytes hold.
fn read_value<A: Allocator + Copy>(
    alloc: A,
    dtype: DType,
    bytes: &[u8],
) -> VortexResult<ScalarValue<A>>
    requires { IsPlainType dtype }
    ensures owned { IfOk result (λ value. IsOwnedOf dtype value) }
    ensures stored { IfOk result (λ value. IsStoredValue dtype (Some (flat_of value))) }
    ensures spelt { IfOk result (λ value. some_bytes dtype (flat_of value) ≡ bytes.now) }
    ensures bad { IsErrOf result VortexError.BadMetadata → HasNoValueOf dtype bytes.now }
    ensures only { IfErr result IsBadOrMemory }
{
    match dtype {
        DType::Primitive(ptype, _) => match read_whole(ptype, bytes) {
            Some(value) => Ok(value),
            None => Err(VortexError::BadMetadata),
        },
        DType::Bool(_) => match read_truth(bytes) {
            Some(truth) => Ok(ScalarValue::Bool(truth)),
            None => Err(VortexError::BadMetadata),
        },
        DType::Utf8(_) => match str::from_utf8(bytes) {
            Ok(text) => Ok(ScalarValue::Utf8(String::from_str(alloc, text)?)),
            Err(_) => Err(VortexError::BadMetadata),
        },
        DType::Binary(_) => Ok(ScalarValue::Binary(Vec::from_slice(alloc, bytes)?)),
        DType::Decimal(_, _) | DType::List(_, _) => unreachable!(),
    }
}

// The boolean that this byte holds.
pub(crate) fn read_truth(bytes: &[u8]) -> Option<bool>
    ensures found { IfSome result (λ truth. one_if truth ∷ [] ≡ bytes.now) }
    ensures none { IfNone result ((truth : Bool) → one_if truth ∷ [] ≡ bytes.now → ⊥) }
{
    if bytes.len() != 1 || bytes[0] > 1 {
        return None;
    }
    Some(bytes[0] == 1)
}

// The number of the type that these bytes hold.
fn read_whole<A: Allocator>(ptype: PType, bytes: &[u8]) -> Option<ScalarValue<A>>
    ensures owned { IfSome result (λ value. (n : Nullability) → IsOwnedOf (Primitive ptype n) value) }
    ensures found { IfSome result (λ value. IsWholeOf ptype bytes.now (flat_of value)) }
    ensures none { IfNone result ((z : ℤ) → number_bytes ptype z ≡ bytes.now → ⊥) }
{
    if bytes.len() != size_of_type(ptype) {
        return None;
    }
    let number = load_value(ptype, bytes);
    Some(if ptype.is_unsigned_int() {
        ScalarValue::Unsigned(number as u64)
    } else {
        ScalarValue::Signed(number as i64)
    })
}
