//! The validity of rows that are kept in a type that may lack null.
ghost use Rattle.std.specs.Prelude.{◌≡◌, ◌≢◌, ℕ, ◌<◌, true, false, Err, IfOk, IsOkUnless, count_by, length, replicate};
ghost use Rattle.column_base.specs.declared.dtype.Nullability.TheVariants.{NonNullable, Nullable};
ghost use Rattle.column_base.specs.ValidityForm.{HasLength, nullability_in};
ghost use Rattle.column_base.specs.Validity.{form_of, validity_flags};
ghost use Rattle.column_core.specs.Optionals.{optionals};
ghost use Rattle.column_core.specs.Refusal.{IsRefusedBy};
ghost use Rattle.column_ops.specs.Cast.{null_row_fault};
ghost use Rattle.column_ops.specs.Fault.{first_fault};
ghost use Rattle.column_ops.specs.Written.{IsValidityOf};

use column_core::{Nullability, Validity, VortexError, VortexResult};
use std::alloc::Allocator;

/// Returns whether the form says that no row is null. Bits are not read.
pub(crate) fn is_all_valid<A: Allocator>(validity: &Validity<A>) -> bool
    ensures valid { (count : ℕ) → result ≡ true → validity_flags validity.now count ≡ replicate count true }
    ensures nullable { result ≡ false → nullability_in (form_of validity.now) ≡ Nullable }
{
    match validity {
        Validity::NonNullable => true,
        Validity::AllValid => true,
        Validity::AllInvalid => false,
        Validity::Bits(_) => false,
    }
}

/// Refuses nulls as `NullNotAllowed` where the type has no null. Takes no memory.
pub(crate) fn check_nulls<T: Copy + Drop, A: Allocator>(
    items: &[T],
    validity: &Validity<A>,
    nullability: Nullability,
) -> VortexResult<()>
    requires { HasLength (form_of validity.now) (length items.now) }
    ensures refused { IsRefusedBy (first_fault (null_row_fault nullability) (optionals items.now
        (validity_flags validity.now (length items.now)))) result }
    ensures no_memory { result ≢ Err VortexError.OutOfMemory }
    ensures valid { IfOk result (λ _. nullability ≡ NonNullable → validity_flags validity.now (length items.now) ≡
        replicate (length items.now) true) }
{
    match nullability {
        Nullability::Nullable => Ok(()),
        Nullability::NonNullable => {
            if has_null(validity, items.len()) {
                return Err(VortexError::NullNotAllowed);
            }
            Ok(())
        }
    }
}

// Is one of `count` rows null?
fn has_null<A: Allocator>(validity: &Validity<A>, count: usize) -> bool
    requires { HasLength (form_of validity.now) count }
    ensures null { result ≡ true → count_by (λ valid. valid) (validity_flags validity.now count) < count }
    ensures valid { result ≡ false → validity_flags validity.now count ≡ replicate count true }
{
    match validity {
        Validity::NonNullable => false,
        Validity::AllValid => false,
        Validity::AllInvalid => count > 0,
        Validity::Bits(bits) => bits.true_count() < count,
    }
}

/// Returns the validity of `count` rows in a type of that nullability, in the form that a call computes. Refused only
/// as `OutOfMemory`.
pub(crate) fn computed_validity<A: Allocator + Copy>(
    alloc: A,
    validity: &Validity<A>,
    count: usize,
    nullability: Nullability,
) -> VortexResult<Validity<A>>
    requires fits { HasLength (form_of validity.now) count }
    requires valid { nullability ≡ NonNullable → validity_flags validity.now count ≡ replicate count true }
    ensures only { IsOkUnless result VortexError.OutOfMemory }
    ensures kept { IfOk result (λ kept. IsValidityOf (validity_flags validity.now count) nullability count
        (form_of kept)) }
{
    match nullability {
        Nullability::NonNullable => Ok(Validity::NonNullable),
        Nullability::Nullable => nullable_validity(alloc, validity, count),
    }
}

// The validity of `count` rows in a type with null.
fn nullable_validity<A: Allocator + Copy>(
    alloc: A,
    validity: &Validity<A>,
    count: usize,
) -> VortexResult<Validity<A>>
    requires { HasLength (form_of validity.now) count }
    ensures only { IsOkUnless result VortexError.OutOfMemory }
    ensures kept { IfOk result (λ kept. IsValidityOf (validity_flags validity.now count) Nullable count
        (form_of kept)) }
{
    match validity {
        Validity::NonNullable => Ok(Validity::AllValid),
        Validity::AllValid => Ok(Validity::AllValid),
        Validity::AllInvalid if count == 0 => Ok(Validity::AllValid),
        Validity::AllInvalid => Ok(Validity::AllInvalid),
        Validity::Bits(bits) => Ok(Validity::from_bits(bits.try_clone(alloc)?)),
    }
}
