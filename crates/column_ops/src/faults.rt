//! Why comparisons are refused.
ghost use Rattle.std.specs.Prelude.{◌≡◌};
ghost use Rattle.column_ops.specs.CompareFault.{compare_column_fault, compare_scalar_fault};

use column_core::{DType, VortexError, is_list_type, is_same_kind};

/// Returns why rows of the left type are not compared with values of the right one: `Unsupported` for lists, then
/// `TypeMismatch` where the types differ in more than nullability.
pub fn kind_fault(left: DType, right: DType) -> Option<VortexError>
    ensures { result ≡ compare_scalar_fault left right }
{
    if is_list_type(left) {
        return Some(VortexError::Unsupported);
    }
    if is_same_kind(left, right) {
        None
    } else {
        Some(VortexError::TypeMismatch)
    }
}

/// Returns why two columns of these types and numbers of rows are not compared: as with a scalar, then `ColumnLength`
/// where the numbers of rows differ.
pub fn column_fault(
    left: DType,
    right: DType,
    left_count: usize,
    right_count: usize,
) -> Option<VortexError>
    ensures { result ≡ compare_column_fault left right left_count right_count }
{
    if let Some(error) = kind_fault(left, right) {
        return Some(error);
    }
    if left_count == right_count {
        None
    } else {
        Some(VortexError::ColumnLength {
            left: left_count,
            right: right_count,
        })
    }
}
