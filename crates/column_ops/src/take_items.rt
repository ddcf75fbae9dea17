//! Rows taken by their numbers, of any kind of item.
ghost use Rattle.std.specs.Prelude.{◌≡◌, ◌<◌, false, All, IfOk, IsOkUnless, Some, is_some, length, map, slice_get, slice_index_or, unwrap_or};
ghost use Rattle.column_base.specs.ValidityForm.{HasLength, flags, nullability_in};
ghost use Rattle.column_base.specs.Validity.{form_of, validity_flags};
ghost use Rattle.column_core.specs.Optionals.{optionals};
ghost use Rattle.column_ops.specs.Nullable.{either_nullable};
ghost use Rattle.column_ops.specs.Take.{ArePositions, position_numbers, take_rows, taken_bit};
ghost use Rattle.column_ops.specs.Written.{AreStoredAs, IsValidityOf};

use crate::bits_at::bits_at;
use crate::computed_validity::{computed_validity, is_all_valid};
use crate::items_or::{filled_vec, with_item_at_nulls};
use column_core::{BitBuffer, BitBufferMut, Nullability, Validity, VortexError, VortexResult};
use std::alloc::Allocator;

/// Returns the rows at these positions, null for null, with the blank item stored under null. Refused only as
/// `OutOfMemory`.
pub(crate) fn take_items<T: Copy + Drop, A: Allocator + Copy>(
    alloc: A,
    items: &[T],
    validity: &Validity<A>,
    blank: T,
    positions: &[u64],
    places: &Validity<A>,
) -> VortexResult<(Vec<T, A>, Validity<A>)>
    requires fits { HasLength (form_of validity.now) (length items.now) }
    requires counted { HasLength (form_of places.now) (length positions.now) }
    requires within { ArePositions (optionals positions.now (validity_flags places.now (length positions.now)))
        (length items.now) }
    ensures only { IsOkUnless result VortexError.OutOfMemory }
    ensures taken { IfOk result (λ parts. AreStoredAs blank
        (take_rows (optionals items.now (validity_flags validity.now (length items.now)))
        (position_numbers (optionals positions.now (validity_flags places.now (length positions.now)))))
        (either_nullable (nullability_in (form_of validity.now)) (nullability_in (form_of places.now)))
        parts.0.items (form_of parts.1)) }
{
    let nullability = either(validity.nullability(), places.nullability());
    let rows = taken_validity(alloc, validity, items.len(), positions, places, nullability)?;
    match taken_items(alloc, items, validity, blank, positions, places, &rows) {
        Ok(taken) => Ok((taken, rows)),
        Err(error) => {
            drop(rows);
            Err(error)
        }
    }
}

/// Returns the bits at these positions and their validity, null for null, with false stored under null. Refused only as
/// `OutOfMemory`.
pub(crate) fn take_bits<A: Allocator + Copy>(
    alloc: A,
    bits: &BitBuffer<A>,
    validity: &Validity<A>,
    positions: &[u64],
    places: &Validity<A>,
) -> VortexResult<(BitBuffer<A>, Validity<A>)>
    requires fits { HasLength (form_of validity.now) (length bits.now) }
    requires counted { HasLength (form_of places.now) (length positions.now) }
    requires within { ArePositions (optionals positions.now (validity_flags places.now (length positions.now)))
        (length bits.now) }
    ensures only { IsOkUnless result VortexError.OutOfMemory }
    ensures taken { IfOk result (λ parts. AreStoredAs false
        (take_rows (optionals bits.now (validity_flags validity.now (length bits.now)))
        (position_numbers (optionals positions.now (validity_flags places.now (length positions.now)))))
        (either_nullable (nullability_in (form_of validity.now)) (nullability_in (form_of places.now)))
        parts.0 (form_of parts.1)) }
{
    let nullability = either(validity.nullability(), places.nullability());
    let rows = taken_validity(alloc, validity, bits.len(), positions, places, nullability)?;
    match bits_at(alloc, bits, positions, &rows) {
        Ok(taken) => Ok((taken, rows)),
        Err(error) => {
            drop(rows);
            Err(error)
        }
    }
}

// With null where either has null.
fn either(left: Nullability, right: Nullability) -> Nullability
    ensures { result ≡ either_nullable left right }
{
    match left {
        Nullability::NonNullable => right,
        Nullability::Nullable => Nullability::Nullable,
    }
}

// The items at these positions, whose rows are valid where `rows` says so, with the blank one for null. What is valid
// is asked once, where no row is null.
fn taken_items<T: Copy + Drop, A: Allocator + Copy>(
    alloc: A,
    items: &[T],
    validity: &Validity<A>,
    blank: T,
    positions: &[u64],
    places: &Validity<A>,
    rows: &Validity<A>,
) -> VortexResult<Vec<T, A>>
    requires fits { HasLength (form_of validity.now) (length items.now) }
    requires counted { HasLength (form_of places.now) (length positions.now) }
    requires within { ArePositions (optionals positions.now (validity_flags places.now (length positions.now)))
        (length items.now) }
    requires sized { HasLength (form_of rows.now) (length positions.now) }
    requires shown { validity_flags rows.now (length positions.now) ≡
        map (taken_bit (validity_flags validity.now (length items.now)))
        (optionals positions.now (validity_flags places.now (length positions.now))) }
    ensures only { IsOkUnless result VortexError.OutOfMemory }
    ensures items { IfOk result (λ taken. taken.items ≡ map (λ row. unwrap_or row blank)
        (take_rows (optionals items.now (validity_flags validity.now (length items.now)))
        (position_numbers (optionals positions.now (validity_flags places.now (length positions.now)))))) }
{
    if is_all_valid(validity) && is_all_valid(places) {
        return items_at(alloc, items, positions);
    }
    shown_items(alloc, items, blank, positions, rows)
}

// The items at positions none of which is null.
fn items_at<T: Copy + Drop, A: Allocator>(
    alloc: A,
    items: &[T],
    positions: &[u64],
) -> VortexResult<Vec<T, A>>
    requires { All (λ position. position < length items.now) positions.now }
    ensures only { IsOkUnless result VortexError.OutOfMemory }
    ensures items { IfOk result (λ taken. map Some taken.items ≡
        map (λ position. slice_get items.now position) positions.now) }
{
    let mut taken = Vec::with_capacity(alloc, positions.len())?;
    for position in positions {
        taken.push_reserved(items[*position as usize]);
    }
    Ok(taken)
}

// The item at the position of each valid row, and the blank one elsewhere: all items are taken in one loop, and null is
// blanked then. What is stored under null need not be a position.
fn shown_items<T: Copy + Drop, A: Allocator + Copy>(
    alloc: A,
    items: &[T],
    blank: T,
    positions: &[u64],
    rows: &Validity<A>,
) -> VortexResult<Vec<T, A>>
    requires { HasLength (form_of rows.now) (length positions.now) }
    ensures only { IsOkUnless result VortexError.OutOfMemory }
    ensures items { IfOk result (λ taken. taken.items ≡ map (λ row. unwrap_or row blank)
        (optionals (map (λ position. slice_index_or items.now position blank) positions.now)
        (validity_flags rows.now (length positions.now)))) }
{
    match rows {
        Validity::NonNullable => items_or_blank(alloc, items, blank, positions),
        Validity::AllValid => items_or_blank(alloc, items, blank, positions),
        Validity::AllInvalid => filled_vec(alloc, blank, positions.len()),
        Validity::Bits(marks) => {
            let taken = items_or_blank(alloc, items, blank, positions)?;
            Ok(with_item_at_nulls(taken, marks, blank))
        }
    }
}

// The items at positions, with the blank one where there is none.
fn items_or_blank<T: Copy + Drop, A: Allocator>(
    alloc: A,
    items: &[T],
    blank: T,
    positions: &[u64],
) -> VortexResult<Vec<T, A>>
    ensures only { IsOkUnless result VortexError.OutOfMemory }
    ensures items { IfOk result (λ taken. taken.items ≡
        map (λ position. slice_index_or items.now position blank) positions.now) }
{
    let mut taken = Vec::with_capacity(alloc, positions.len())?;
    for position in positions {
        taken.push_reserved(item_or(items, *position, blank));
    }
    Ok(taken)
}

// The item at a position, and the blank one where there is none.
#[inline(always)]
fn item_or<T: Copy + Drop>(items: &[T], position: u64, blank: T) -> T
    ensures { result ≡ slice_index_or items.now position blank }
{
    match items.get(position as usize) {
        Some(item) => *item,
        None => blank,
    }
}

// The validity of the rows at these positions of `count` rows.
fn taken_validity<A: Allocator + Copy>(
    alloc: A,
    validity: &Validity<A>,
    count: usize,
    positions: &[u64],
    places: &Validity<A>,
    nullability: Nullability,
) -> VortexResult<Validity<A>>
    requires fits { HasLength (form_of validity.now) count }
    requires counted { HasLength (form_of places.now) (length positions.now) }
    requires within { ArePositions (optionals positions.now (validity_flags places.now (length positions.now))) count }
    requires wanted { nullability ≡ either_nullable (nullability_in (form_of validity.now))
        (nullability_in (form_of places.now)) }
    ensures only { IsOkUnless result VortexError.OutOfMemory }
    ensures flags { IfOk result (λ rows. IsValidityOf
        (map (taken_bit (validity_flags validity.now count))
        (optionals positions.now (validity_flags places.now (length positions.now))))
        nullability (length positions.now) (form_of rows)) }
{
    match validity {
        Validity::NonNullable => computed_validity(alloc, places, positions.len(), nullability),
        Validity::AllValid => computed_validity(alloc, places, positions.len(), nullability),
        Validity::AllInvalid => {
            let flags = BitBufferMut::full(alloc, false, positions.len())?;
            Ok(Validity::from_bits(flags.freeze()))
        }
        Validity::Bits(marks) => {
            let flags = bits_at(alloc, marks, positions, places)?;
            Ok(Validity::from_bits(flags))
        }
    }
}
