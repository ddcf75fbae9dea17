//! Rows whose nulls are filled, of any kind of item.
ghost use Rattle.std.specs.Prelude.{◌≡◌, ◌≢◌, Err, Some, IfOk, IsOkUnless, length};
ghost use Rattle.column_base.specs.declared.dtype.Nullability.TheVariants.{NonNullable};
ghost use Rattle.column_base.specs.ValidityForm.{HasLength};
ghost use Rattle.column_base.specs.Validity.{form_of, validity_flags};
ghost use Rattle.column_core.specs.Optionals.{optionals};
ghost use Rattle.column_core.specs.Scalar.{flat_of, IsOwnedOf};
ghost use Rattle.column_core.specs.Refusal.{IsRefusedBy};
ghost use Rattle.column_ops.specs.Fill.{fill_fault, fill_rows};
ghost use Rattle.column_ops.specs.Written.{AreStoredAs};

use crate::items_or::items_or;
use column_core::{
    DType, Scalar, ScalarValue, Validity, VortexError, VortexResult, is_list_type, is_same_kind,
};
use std::alloc::Allocator;

/// Returns the rows with the value in place of each null. Refused only as `OutOfMemory`.
pub(crate) fn fill_items<T: Copy + Drop, A: Allocator + Copy>(
    alloc: A,
    items: &[T],
    validity: &Validity<A>,
    blank: T,
    value: T,
) -> VortexResult<(Vec<T, A>, Validity<A>)>
    requires { HasLength (form_of validity.now) (length items.now) }
    ensures only { IsOkUnless result VortexError.OutOfMemory }
    ensures filled { IfOk result (λ parts. AreStoredAs blank
        (fill_rows (optionals items.now (validity_flags validity.now (length items.now))) value)
        NonNullable parts.0.items (form_of parts.1)) }
{
    let filled = items_or(alloc, items, validity, value)?;
    Ok((filled, Validity::NonNullable))
}

/// Returns the value that fills the nulls of rows of this type. Refused as `Unsupported` for lists; then as
/// `TypeMismatch` for a scalar of another kind; then as `NullFill` for null. Takes no memory.
pub(crate) fn fill_value<A: Allocator>(
    dtype: DType,
    scalar: &Scalar<A>,
) -> VortexResult<&ScalarValue<A>>
    ensures refused { IsRefusedBy (fill_fault dtype scalar.now) result }
    ensures no_memory { result ≢ Err VortexError.OutOfMemory }
    ensures value { IfOk result (λ value. scalar.now.value ≡ Some (flat_of value.now)) }
    ensures of_type { IfOk result (λ value. IsOwnedOf dtype value.now) }
{
    if is_list_type(dtype) {
        return Err(VortexError::Unsupported);
    }
    if !is_same_kind(dtype, scalar.dtype()) {
        return Err(VortexError::TypeMismatch);
    }
    match scalar.value() {
        None => Err(VortexError::NullFill),
        Some(value) => Ok(value),
    }
}
