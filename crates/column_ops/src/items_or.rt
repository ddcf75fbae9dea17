//! Items with another one in place of each null, of any kind of item.
ghost use Rattle.std.specs.Prelude.{◌≡◌, IfOk, IsOkUnless, length, map, replicate, unwrap_or};
ghost use Rattle.column_base.specs.ValidityForm.{HasLength};
ghost use Rattle.column_base.specs.Validity.{form_of, validity_flags};
ghost use Rattle.column_core.specs.Optionals.{optionals};

use crate::blanks::put_at_zeros;
use column_core::{BitBuffer, Validity, VortexError, VortexResult};
use std::alloc::Allocator;

/// Returns the items, with this one in place of each null. Refused only as `OutOfMemory`.
pub(crate) fn items_or<T: Copy + Drop, A: Allocator + Copy>(
    alloc: A,
    items: &[T],
    validity: &Validity<A>,
    instead: T,
) -> VortexResult<Vec<T, A>>
    requires { HasLength (form_of validity.now) (length items.now) }
    ensures only { IsOkUnless result VortexError.OutOfMemory }
    ensures items { IfOk result (λ shown. shown.items ≡
        map (λ row. unwrap_or row instead) (optionals items.now (validity_flags validity.now (length items.now)))) }
{
    match validity {
        Validity::NonNullable => Ok(Vec::from_slice(alloc, items)?),
        Validity::AllValid => Ok(Vec::from_slice(alloc, items)?),
        Validity::AllInvalid => filled_vec(alloc, instead, items.len()),
        Validity::Bits(bits) => items_by_bits(alloc, items, bits, instead),
    }
}

/// Returns `count` copies of the item. Refused only as `OutOfMemory`.
pub(crate) fn filled_vec<T: Copy + Drop, A: Allocator>(
    alloc: A,
    item: T,
    count: usize,
) -> VortexResult<Vec<T, A>>
    ensures only { IsOkUnless result VortexError.OutOfMemory }
    ensures items { IfOk result (λ copies. copies.items ≡ replicate count item) }
{
    let mut copies = Vec::with_capacity(alloc, count)?;
    for _ in 0..count {
        copies.push_reserved(item);
    }
    Ok(copies)
}

/// Returns the items where the bits are true, and this one elsewhere. Refused only as `OutOfMemory`.
pub(crate) fn items_by_bits<T: Copy + Drop, A: Allocator + Copy>(
    alloc: A,
    items: &[T],
    bits: &BitBuffer<A>,
    instead: T,
) -> VortexResult<Vec<T, A>>
    requires { length bits.now ≡ length items.now }
    ensures only { IsOkUnless result VortexError.OutOfMemory }
    ensures items { IfOk result (λ shown. shown.items ≡
        map (λ row. unwrap_or row instead) (optionals items.now bits.now)) }
{
    let mut shown = Vec::from_slice(alloc, items)?;
    put_at_zeros(&mut shown, bits.words(), instead);
    Ok(shown)
}

/// Returns the items where the bits are true, and this one elsewhere, in the memory that they are in.
pub(crate) fn with_item_at_nulls<T: Copy + Drop, A: Allocator>(
    mut items: Vec<T, A>,
    bits: &BitBuffer<A>,
    instead: T,
) -> Vec<T, A>
    requires { length bits.now ≡ length items.items }
    ensures { result.items ≡ map (λ row. unwrap_or row instead) (optionals items.items bits.now) }
{
    put_at_zeros(&mut items, bits.words(), instead);
    items
}
