//! Rows kept as they are in a type that may lack null, of any kind of item.
ghost use Rattle.std.specs.Prelude.{◌≡◌, ◌≢◌, Err, None, IfOk, length};
ghost use Rattle.column_base.specs.declared.dtype.Nullability.TheVariants.{NonNullable};
ghost use Rattle.column_base.specs.ValidityForm.{HasLength};
ghost use Rattle.column_base.specs.Validity.{form_of, validity_flags};
ghost use Rattle.column_core.specs.Optionals.{optionals};
ghost use Rattle.column_core.specs.Refusal.{IsRefusedBy};
ghost use Rattle.column_ops.specs.Cast.{null_fault, null_row_fault};
ghost use Rattle.column_ops.specs.Fault.{first_fault};
ghost use Rattle.column_ops.specs.Written.{AreStoredAs};

use crate::computed_validity::{check_nulls, computed_validity};
use crate::items_or::items_or;
use column_core::{Nullability, Validity, VortexError, VortexResult};
use std::alloc::Allocator;

/// Returns null, as a row of a type with this nullability. Refused as `NullNotAllowed` where rows may not be null.
/// Takes no memory.
pub(crate) fn null_row<T: Drop>(nullability: Nullability) -> VortexResult<Option<T>>
    ensures refused { IsRefusedBy (null_fault nullability) result }
    ensures no_memory { result ≢ Err VortexError.OutOfMemory }
    ensures null { IfOk result (λ row. row ≡ None) }
    ensures nullable { IfOk result (λ row. nullability ≢ NonNullable) }
{
    match nullability {
        Nullability::NonNullable => Err(VortexError::NullNotAllowed),
        Nullability::Nullable => Ok(None),
    }
}

/// Returns the rows in a type of that nullability, with the blank item stored under null. Refused as `NullNotAllowed`
/// for a null where rows may not be null; else only as `OutOfMemory`.
pub(crate) fn keep_items<T: Copy + Drop, A: Allocator + Copy>(
    alloc: A,
    items: &[T],
    validity: &Validity<A>,
    blank: T,
    nullability: Nullability,
) -> VortexResult<(Vec<T, A>, Validity<A>)>
    requires { HasLength (form_of validity.now) (length items.now) }
    ensures refused { IsRefusedBy (first_fault (null_row_fault nullability) (optionals items.now
        (validity_flags validity.now (length items.now)))) result }
    ensures kept { IfOk result (λ parts. AreStoredAs blank
        (optionals items.now (validity_flags validity.now (length items.now)))
        nullability parts.0.items (form_of parts.1)) }
{
    check_nulls(items, validity, nullability)?;
    let kept = items_or(alloc, items, validity, blank)?;
    match computed_validity(alloc, validity, items.len(), nullability) {
        Ok(rows) => Ok((kept, rows)),
        Err(error) => {
            drop(kept);
            Err(error)
        }
    }
}
