//! One value of a type, or null, on its own.
ghost use Rattle.std.specs.Prelude.{◌≡◌, ◌≢◌, ◌↔◌, Some, None, option_map, IfOk, IsErrOf, IsOk, IsOkUnless, IsSome, IsNone, IsTrue, IfSome};
ghost use Rattle.std.specs.Cmp.{partial_equiv_from_equiv};
ghost use Rattle.column_base.specs.declared.dtype.Nullability.TheVariants.{NonNullable};
ghost use Rattle.column_base.specs.declared.dtype.DType.{DType};
ghost use Rattle.column_base.specs.Types.{HasNumber, nullability_of};
ghost use Rattle.column_core.specs.Value.{IsLists, Single};
ghost use Rattle.column_core.specs.Scalar.{flat_of, IsOwnedOf, IsScalarOf};
ghost use Rattle.column_core.specs.ScalarView.{sees, IsViewOf};
ghost use Rattle.column_core.specs.SameScalar.{same_scalar, same_scalar_equivalence};

use crate::view::ScalarView;
use column_base::{DType, NativePType, Nullability, PType, VortexError, VortexResult};
use std::alloc::Allocator;
use std::marker::Model;

/// Owns a value that is not null. Unsigned types have `Unsigned`, signed ones `Signed`.
#[derive(Drop)]
#[derive_where(Debug, PartialEq, Eq)]
pub enum ScalarValue<A: Allocator> {
    Bool(bool),
    Unsigned(u64),
    Signed(i64),
    Decimal(i128),
    Utf8(String<A>),
    Binary(Vec<u8, A>),
}

/// Holds a type, and one optional value of it. A scalar of a list type is null.
#[derive(Drop)]
#[derive_where(Debug)]
pub struct Scalar<A: Allocator> {
    dtype: DType,
    value: Option<ScalarValue<A>>,
}

impl<A: Allocator> Model for Scalar<A> {
    ghost use Rattle.std.specs.Prelude.{option_map};
    ghost use Rattle.column_core.specs.ScalarForm.{ScalarForm};
    ghost use Rattle.column_core.specs.Scalar.{flat_of, IsScalarOf};

    ghost Value = { ScalarForm };

    ghost view = { λ s. record { dtype = s.dtype; value = option_map flat_of s.value } };

    ghost invariant = { λ s. IsScalarOf s.dtype s.value };
}

impl<A: Allocator> ScalarValue<A> {
    /// Returns whether it is a value of the type.
    pub fn is_of(&self, dtype: DType) -> bool
        ensures { IsTrue result ↔ IsOwnedOf dtype self.now }
    {
        match (dtype, self) {
            (DType::Bool(_), ScalarValue::Bool(_)) => true,
            (DType::Primitive(ptype, _), ScalarValue::Unsigned(number)) => {
                ptype.is_unsigned_int() && has_number(ptype, i128::from(*number))
            }
            (DType::Primitive(ptype, _), ScalarValue::Signed(number)) => {
                !ptype.is_unsigned_int() && has_number(ptype, i128::from(*number))
            }
            (DType::Decimal(_, _), ScalarValue::Decimal(_)) => true,
            (DType::Utf8(_), ScalarValue::Utf8(_)) => true,
            (DType::Binary(_), ScalarValue::Binary(_)) => true,
            _ => false,
        }
    }
}

impl<A: Allocator> Scalar<A> {
    /// Returns the scalar of these parts. Refused as `NullNotAllowed` for null in a type without null, and as
    /// `TypeMismatch` for a value that is not of the type.
    pub fn try_new(dtype: DType, value: Option<ScalarValue<A>>) -> VortexResult<Self>
        ensures ok { IfOk result (λ scalar. scalar ≡ record { dtype = dtype; value = option_map flat_of value }) }
        ensures accepts { IsOk result ↔ IsScalarOf dtype value }
        ensures null { IsErrOf result VortexError.NullNotAllowed ↔
            (IsNone value × (nullability_of dtype ≡ NonNullable)) }
        ensures mismatch { IsErrOf result VortexError.TypeMismatch ↔ (IsSome value × (¬ IsScalarOf dtype value)) }
    {
        match &value {
            None => {
                if dtype.nullability() == Nullability::NonNullable {
                    return Err(VortexError::NullNotAllowed);
                }
            }
            Some(value) => {
                if !value.is_of(dtype) {
                    return Err(VortexError::TypeMismatch);
                }
            }
        }
        Ok(Scalar { dtype, value })
    }

    /// Returns the type.
    pub fn dtype(&self) -> DType
        ensures { result ≡ self.now.dtype }
    {
        self.dtype
    }

    /// Returns the value, or `None` for null.
    pub fn value(&self) -> Option<&ScalarValue<A>>
        ensures value { option_map (λ v. flat_of v.now) result ≡ self.now.value }
        ensures of_type { IfSome result (λ v. IsOwnedOf self.now.dtype v.now) }
    {
        self.value.as_ref()
    }

    /// Returns the value as a row shows it, borrowed.
    pub fn view(&self) -> ScalarView<'_, A>
        ensures value { sees result ≡ option_map Single self.now.value }
        ensures of_type { IsViewOf self.now.dtype result }
    {
        match &self.value {
            None => ScalarView::Null,
            Some(ScalarValue::Bool(truth)) => ScalarView::Bool(*truth),
            Some(ScalarValue::Unsigned(number)) => ScalarView::Unsigned(*number),
            Some(ScalarValue::Signed(number)) => ScalarView::Signed(*number),
            Some(ScalarValue::Decimal(number)) => ScalarView::Decimal(*number),
            Some(ScalarValue::Utf8(text)) => ScalarView::Utf8(text.as_str()),
            Some(ScalarValue::Binary(bytes)) => ScalarView::Binary(bytes.as_slice()),
        }
    }
}

impl<A: Allocator> PartialEq for Scalar<A> {
    ghost eq = { same_scalar };

    ghost laws = { partial_equiv_from_equiv same_scalar_equivalence };

    /// Returns whether the two are of one type, and both null or of equal values.
    fn eq(&self, other: &Scalar<A>) -> bool
        ensures answer { result ≡ same_scalar self.now other.now }
        ensures exact { IsTrue result ↔ (self.now ≡ other.now) }
    {
        self.dtype == other.dtype && self.value == other.value
    }
}

impl<A: Allocator> Eq for Scalar<A> {
    ghost laws = { same_scalar_equivalence };
}

impl<A: Allocator + Copy> ScalarValue<A> {
    /// Returns a copy of the value, in memory of its own. Refused only as `OutOfMemory`.
    pub fn try_clone(&self, alloc: A) -> VortexResult<ScalarValue<A>>
        ensures only { IsOkUnless result VortexError.OutOfMemory }
        ensures value { IfOk result (λ v. flat_of v ≡ flat_of self.now) }
        ensures of_type { (dtype : DType) → IsOwnedOf dtype self.now → IfOk result (λ v. IsOwnedOf dtype v) }
    {
        Ok(match self {
            ScalarValue::Bool(truth) => ScalarValue::Bool(*truth),
            ScalarValue::Unsigned(number) => ScalarValue::Unsigned(*number),
            ScalarValue::Signed(number) => ScalarValue::Signed(*number),
            ScalarValue::Decimal(number) => ScalarValue::Decimal(*number),
            ScalarValue::Utf8(text) => ScalarValue::Utf8(String::from_str(alloc, text.as_str())?),
            ScalarValue::Binary(bytes) => ScalarValue::Binary(Vec::from_slice(alloc, bytes)?),
        })
    }
}

impl<A: Allocator + Copy> Scalar<A> {
    /// Returns the scalar of what a row of that type shows, in memory of its own. Refused only as `OutOfMemory`.
    pub fn of_view(alloc: A, dtype: DType, view: ScalarView<'_, A>) -> VortexResult<Scalar<A>>
        requires single { ¬ IsLists dtype }
        requires of_type { IsViewOf dtype view }
        ensures only { IsOkUnless result VortexError.OutOfMemory }
        ensures dtype { IfOk result (λ scalar. scalar.dtype ≡ dtype) }
        ensures value { IfOk result (λ scalar. option_map Single scalar.value ≡ sees view.entry) }
    {
        let value = match view {
            ScalarView::Null => None,
            ScalarView::Bool(truth) => Some(ScalarValue::Bool(truth)),
            ScalarView::Unsigned(number) => Some(ScalarValue::Unsigned(number)),
            ScalarView::Signed(number) => Some(ScalarValue::Signed(number)),
            ScalarView::Decimal(number) => Some(ScalarValue::Decimal(number)),
            ScalarView::Utf8(text) => Some(ScalarValue::Utf8(String::from_str(alloc, text)?)),
            ScalarView::Binary(bytes) => Some(ScalarValue::Binary(Vec::from_slice(alloc, bytes)?)),
            ScalarView::List { .. } => unreachable!(),
        };
        Ok(Scalar { dtype, value })
    }

    /// Returns an equal scalar, in memory of its own. Refused only as `OutOfMemory`.
    pub fn try_clone(&self, alloc: A) -> VortexResult<Scalar<A>>
        ensures only { IsOkUnless result VortexError.OutOfMemory }
        ensures same { IfOk result (λ scalar. scalar ≡ self.now) }
    {
        let value = match &self.value {
            None => None,
            Some(value) => Some(value.try_clone(alloc)?),
        };
        Ok(Scalar {
            dtype: self.dtype,
            value,
        })
    }
}

// Does the native type have the number?
fn has_number(ptype: PType, number: i128) -> bool
    ensures { IsTrue result ↔ HasNumber ptype number }
{
    match ptype {
        PType::U8 => u8::narrow(number).is_some(),
        PType::U16 => u16::narrow(number).is_some(),
        PType::U32 => u32::narrow(number).is_some(),
        PType::U64 => u64::narrow(number).is_some(),
        PType::I8 => i8::narrow(number).is_some(),
        PType::I16 => i16::narrow(number).is_some(),
        PType::I32 => i32::narrow(number).is_some(),
        PType::I64 => i64::narrow(number).is_some(),
    }
}
