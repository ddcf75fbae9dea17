//! The numbers of the types of columns.
ghost use Rattle.std.specs.Prelude.{◌≡◌, IfSome, IfNone};
ghost use Rattle.column_base.specs.Types.{nullability_of};
ghost use Rattle.column_bytes.specs.Bytes.{kind_number};
ghost use Rattle.column_bytes.specs.Values.{IsPlainType};
ghost use Rattle.column_bytes.specs.Read.{HasNoPlainType};

use column_base::{DType, Nullability};
use column_fields::{number_of_type, type_of_number};

/// Returns the number of a type.
pub(crate) fn number_of_kind(dtype: DType) -> u64
    ensures { result ≡ kind_number dtype }
{
    match dtype {
        DType::Primitive(ptype, _) => number_of_type(ptype),
        DType::Bool(_) => 9,
        DType::Decimal(_, _) => 10,
        DType::Utf8(_) => 11,
        DType::Binary(_) => 12,
        DType::List(_, _) => 13,
    }
}

/// Returns the type of integers, booleans, texts or bytes with that number.
pub(crate) fn kind_of_number(number: u64, nullability: Nullability) -> Option<DType>
    ensures found { IfSome result (λ t. kind_number t ≡ number) }
    ensures nullability { IfSome result (λ t. nullability_of t ≡ nullability) }
    ensures plain { IfSome result (λ t. IsPlainType t) }
    ensures none { IfNone result (HasNoPlainType number) }
{
    match number {
        9 => Some(DType::Bool(nullability)),
        11 => Some(DType::Utf8(nullability)),
        12 => Some(DType::Binary(nullability)),
        _ => match type_of_number(number) {
            Some(ptype) => Some(DType::Primitive(ptype, nullability)),
            None => None,
        },
    }
}
