//! Tests on the kinds of types.
ghost use Rattle.std.specs.Prelude.{◌≡◌, ◌↔◌, IsTrue};
ghost use Rattle.column_core.specs.Kinds.{is_list, is_numbers, list_fault, same_kind};
ghost use Rattle.column_core.specs.Value.{IsLists};

use column_base::{DType, Nullability, VortexError};

/// Returns whether it is a type of lists.
pub fn is_list_type(dtype: DType) -> bool
    ensures same { result ≡ is_list dtype }
    ensures lists { IsTrue result ↔ IsLists dtype }
{
    match dtype {
        DType::List(_, _) => true,
        _ => false,
    }
}

/// Returns why a call that does not serve lists refuses this type: `Unsupported` for lists, else
/// nothing.
pub fn fault_of_lists(dtype: DType) -> Option<VortexError>
    ensures { result ≡ list_fault dtype }
{
    if is_list_type(dtype) {
        return Some(VortexError::Unsupported);
    }
    None
}

/// Returns whether it is a type of integers.
pub fn is_number_type(dtype: DType) -> bool
    ensures { result ≡ is_numbers dtype }
{
    match dtype {
        DType::Primitive(_, _) => true,
        _ => false,
    }
}

/// Returns whether the two types are equal but for nullability.
pub fn is_same_kind(left: DType, right: DType) -> bool
    ensures { result ≡ same_kind left right }
{
    left.with_nullability(Nullability::NonNullable)
        == right.with_nullability(Nullability::NonNullable)
}
