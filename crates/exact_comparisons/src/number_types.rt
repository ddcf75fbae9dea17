//! The numbers that types of columns have.
ghost use Rattle.std.specs.Prelude.{◌≡◌, ◌↔◌, ◌≤ℤ◌, ℤ, pos, MatchOption, Some, false, true};
ghost use Rattle.column_base.specs.Types.{HasNumber};
ghost use Rattle.column_core.specs.Scalar.{flat_of, IsOwnedOf};
ghost use Rattle.exact_comparisons.specs.ExactRows.{flat_number, is_numeric, AreNumbersOf, HasStored};
ghost use Rattle.exact_numbers.specs.Positions.{IsWithin};

use column_core::{DType, PType, Scalar, ScalarValue};
use std::alloc::Allocator;

/// Says which numbers a type has: the integers of a range, each with its last `scale` digits after the point.
#[derive(Clone, Copy)]
pub(crate) struct NumberType {
    pub(crate) scale: i8,
    pub(crate) least: i128,
    pub(crate) greatest: i128,
}

impl NumberType {
    /// Returns the numbers of a type, or `None` where its rows are not numbers.
    pub(crate) fn of(dtype: DType) -> Option<NumberType>
        ensures { MatchOption result (is_numeric dtype ≡ false)
            (λ numbers. (is_numeric dtype ≡ true) × AreNumbersOf dtype numbers) }
    {
        match dtype {
            DType::Primitive(ptype, _) => Some(integers_of(ptype)),
            DType::Decimal(decimal, _) => Some(NumberType {
                scale: decimal.scale,
                least: i128::MIN,
                greatest: i128::MAX,
            }),
            _ => None,
        }
    }
}

// Returns the integers of a native type.
fn integers_of(ptype: PType) -> NumberType
    ensures scale { result.scale ≡ pos 0 }
    ensures some { result.least ≤ℤ result.greatest }
    ensures all { (z : ℤ) → HasNumber ptype z ↔ IsWithin result.least result.greatest z }
{
    let (least, greatest) = match ptype {
        PType::U8 => (0, 0xff),
        PType::U16 => (0, 0xffff),
        PType::U32 => (0, 0xffff_ffff),
        PType::U64 => (0, 0xffff_ffff_ffff_ffff),
        PType::I8 => (-0x80, 0x7f),
        PType::I16 => (-0x8000, 0x7fff),
        PType::I32 => (-0x8000_0000, 0x7fff_ffff),
        PType::I64 => (-0x8000_0000_0000_0000, 0x7fff_ffff_ffff_ffff),
    };
    NumberType {
        scale: 0,
        least,
        greatest,
    }
}

/// Returns a number that the type has, as a value of it.
pub(crate) fn scalar_of<A: Allocator>(dtype: DType, number: i128) -> Scalar<A>
    requires { HasStored dtype number }
    ensures { result ≡ record { dtype = dtype; value = Some (flat_number dtype number) } }
{
    Scalar::try_new(dtype, Some(value_of(dtype, number))).unwrap()
}

// Returns the same without the type.
fn value_of<A: Allocator>(dtype: DType, number: i128) -> ScalarValue<A>
    requires { HasStored dtype number }
    ensures owned { IsOwnedOf dtype result }
    ensures value { flat_of result ≡ flat_number dtype number }
{
    match dtype {
        DType::Decimal(_, _) => ScalarValue::Decimal(number),
        DType::Primitive(ptype, _) if ptype.is_unsigned_int() => {
            ScalarValue::Unsigned(number as u64)
        }
        _ => ScalarValue::Signed(number as i64),
    }
}
