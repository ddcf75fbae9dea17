//! Whether bytes are those of a constant, looked at where they lie.
ghost use Rattle.std.specs.Prelude.{◌≡◌, [], ℕ, ℤ, Some, FitsSigned};
ghost use Rattle.std.specs.Bool.{OnTrue, OnFalse};
ghost use Rattle.std.specs.Int.{w128};
ghost use Rattle.column_core.specs.ScalarForm.{ScalarForm};
ghost use Rattle.column_core.specs.Value.{FlatValue};
ghost use Rattle.column_fields.specs.DecimalBytes.{decimal_bytes};
ghost use Rattle.runend_array.specs.Column.{Column};
ghost use Rattle.column_bytes.specs.Values.{IsPlainType, IsStoredValue, some_bytes};
ghost use Rattle.column_bytes.specs.Read.{IsBody, IsNoBody, IsScalarIn, HasNoScalarIn, IsValueIn, HasNoValueIn, IsNullOf, HasNoNullOf, IsSomeOf, HasNoSomeOf, HasNoValueOf};

use crate::constants::read_truth;
use crate::flat::DECIMALS;
use crate::kinds::kind_of_number;
use crate::list_constants::read_element;
use crate::lists::LISTS;
use column_base::{DType, Nullability};
use column_fields::{
    DECIMAL_SIZE, Header, ValidityView, holds_values, view_decimal_fields, view_flat_fields,
};
use std::str;

/// Returns whether the bytes are what the message of a constant says after this header.
pub(crate) fn is_constant(header: Header, bytes: &[u8]) -> bool
    ensures yes { OnTrue result ((c : Column) × IsBody 0 header.kind 3 header.rows bytes.now c) }
    ensures no { OnFalse result ((levels : ℕ) → IsNoBody levels header.kind 3 header.rows bytes.now) }
{
    is_scalar(header.kind, bytes)
}

// Do the bytes say a value whose type has this number?
fn is_scalar(kind: u64, bytes: &[u8]) -> bool
    ensures yes { OnTrue result ((s : ScalarForm) × IsScalarIn kind bytes.now s) }
    ensures no { OnFalse result (HasNoScalarIn kind bytes.now) }
{
    if kind == DECIMALS {
        return is_decimal(bytes);
    }
    if kind == LISTS {
        return is_null_list(bytes);
    }
    is_plain(kind, bytes)
}

// Do the bytes say null of lists, and the type of their elements?
fn is_null_list(bytes: &[u8]) -> bool
    ensures yes { OnTrue result ((s : ScalarForm) × IsScalarIn 13 bytes.now s) }
    ensures no { OnFalse result (HasNoScalarIn 13 bytes.now) }
{
    match read_element(bytes) {
        Some(_element) => true,
        None => false,
    }
}

// Do the bytes say a decimal, or null?
fn is_decimal(bytes: &[u8]) -> bool
    ensures yes { OnTrue result ((s : ScalarForm) × IsScalarIn 10 bytes.now s) }
    ensures no { OnFalse result (HasNoScalarIn 10 bytes.now) }
{
    let Some((validity, _decimal, items)) = view_decimal_fields(bytes, 0) else {
        return false;
    };
    match validity {
        ValidityView::NonNullable => is_decimal_number(items),
        ValidityView::AllValid => is_decimal_number(items),
        ValidityView::AllInvalid => is_empty(items),
        ValidityView::Bits(_bits) => false,
    }
}

// Are these the bytes of the integer of a decimal?
fn is_decimal_number(bytes: &[u8]) -> bool
    ensures yes { OnTrue result ((z : ℤ) × FitsSigned w128 z × (decimal_bytes z ≡ bytes.now)) }
    ensures no { OnFalse result ((z : ℤ) → decimal_bytes z ≡ bytes.now → ⊥) }
{
    if bytes.len() != DECIMAL_SIZE {
        return false;
    }
    true
}

// Is there no byte?
fn is_empty(bytes: &[u8]) -> bool
    ensures yes { OnTrue result (bytes.now ≡ []) }
    ensures no { OnFalse result (¬ (bytes.now ≡ [])) }
{
    if bytes.len() != 0 {
        return false;
    }
    true
}

// Do the bytes say a value of a type of integers, booleans, texts or bytes that has this number, or null?
fn is_plain(kind: u64, bytes: &[u8]) -> bool
    ensures yes { OnTrue result ((s : ScalarForm) × IsValueIn kind bytes.now s) }
    ensures no { OnFalse result (HasNoValueIn kind bytes.now) }
{
    let Some((validity, items)) = view_flat_fields(bytes, 0) else {
        return false;
    };
    match validity {
        ValidityView::NonNullable => is_some_of(kind, Nullability::NonNullable, items),
        ValidityView::AllValid => is_some_of(kind, Nullability::Nullable, items),
        ValidityView::AllInvalid => is_null_of(kind, items),
        ValidityView::Bits(_bits) => false,
    }
}

// Is null, of the type of that number, said by no bytes, and are there none?
fn is_null_of(kind: u64, bytes: &[u8]) -> bool
    ensures yes { OnTrue result ((s : ScalarForm) × IsNullOf kind bytes.now s) }
    ensures no { OnFalse result (HasNoNullOf kind bytes.now) }
{
    if bytes.len() != 0 {
        return false;
    }
    match kind_of_number(kind, Nullability::Nullable) {
        Some(_dtype) => true,
        None => false,
    }
}

// Are these the bytes of a value of the type of that number?
fn is_some_of(kind: u64, nullability: Nullability, bytes: &[u8]) -> bool
    ensures yes { OnTrue result ((s : ScalarForm) × IsSomeOf kind nullability bytes.now s) }
    ensures no { OnFalse result (HasNoSomeOf kind nullability bytes.now) }
{
    match kind_of_number(kind, nullability) {
        Some(dtype) => is_value(dtype, bytes),
        None => false,
    }
}

// Are these the bytes of a value of the type?
fn is_value(dtype: DType, bytes: &[u8]) -> bool
    requires { IsPlainType dtype }
    ensures yes { OnTrue result ((v : FlatValue) × IsStoredValue dtype (Some v) × (some_bytes dtype v ≡ bytes.now)) }
    ensures no { OnFalse result (HasNoValueOf dtype bytes.now) }
{
    match dtype {
        DType::Primitive(ptype, _) => holds_values(ptype, bytes, 1),
        DType::Bool(_) => match read_truth(bytes) {
            Some(_truth) => true,
            None => false,
        },
        DType::Utf8(_) => match str::from_utf8(bytes) {
            Ok(_text) => true,
            Err(_) => false,
        },
        DType::Binary(_) => true,
        DType::Decimal(_, _) | DType::List(_, _) => unreachable!(),
    }
}
