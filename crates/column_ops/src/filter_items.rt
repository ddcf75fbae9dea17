//! Rows that a mask selects, of any kind of item.
ghost use Rattle.std.specs.Prelude.{◌≡◌, IfOk, IsOkUnless, is_some, length, map, unwrap_or};
ghost use Rattle.column_base.specs.declared.dtype.Nullability.TheVariants.{Nullable};
ghost use Rattle.column_base.specs.Mask.{mask_bits};
ghost use Rattle.column_base.specs.ValidityForm.{HasLength, flags, nullability_in};
ghost use Rattle.column_base.specs.Validity.{form_of, validity_flags};
ghost use Rattle.column_core.specs.Optionals.{optionals};
ghost use Rattle.column_ops.specs.Filter.{filter_rows};
ghost use Rattle.column_ops.specs.Written.{AreStoredAs, IsValidityOf};

use crate::computed_validity::is_all_valid;
use crate::filter_bits::selected_bits;
use crate::items_or::{items_or, with_item_at_nulls};
use crate::rows::item_at;
use column_core::{BitBuffer, BitBufferMut, Mask, Validity, VortexError, VortexResult};
use std::alloc::Allocator;

/// Returns the rows at which the mask is true, with the blank item stored under null. Refused only as `OutOfMemory`.
pub(crate) fn filter_items<T: Copy + Drop, A: Allocator + Copy>(
    alloc: A,
    items: &[T],
    validity: &Validity<A>,
    blank: T,
    mask: &Mask<A>,
) -> VortexResult<(Vec<T, A>, Validity<A>)>
    requires fits { HasLength (form_of validity.now) (length items.now) }
    requires masked { length (mask_bits mask.now) ≡ length items.now }
    ensures only { IsOkUnless result VortexError.OutOfMemory }
    ensures filtered { IfOk result (λ parts. AreStoredAs blank
        (filter_rows (mask_bits mask.now) (optionals items.now (validity_flags validity.now (length items.now))))
        (nullability_in (form_of validity.now)) parts.0.items (form_of parts.1)) }
{
    if let Mask::Values(bits) = mask {
        if let Validity::Bits(marks) = validity {
            return filter_marked(alloc, items, marks, blank, bits);
        }
    }
    filter_parts(alloc, items, validity, blank, mask)
}

// The selected rows of items that are null where their mark is false: items and marks are selected alike, and the blank
// item is put at the nulls that are left.
fn filter_marked<T: Copy + Drop, A: Allocator + Copy>(
    alloc: A,
    items: &[T],
    marks: &BitBuffer<A>,
    blank: T,
    bits: &BitBuffer<A>,
) -> VortexResult<(Vec<T, A>, Validity<A>)>
    requires marked { length marks.now ≡ length items.now }
    requires masked { length bits.now ≡ length items.now }
    ensures only { IsOkUnless result VortexError.OutOfMemory }
    ensures filtered { IfOk result (λ parts. AreStoredAs blank
        (filter_rows bits.now (optionals items.now marks.now)) Nullable parts.0.items (form_of parts.1)) }
{
    let flags = selected_bits(alloc, marks, bits)?;
    match selected_items(alloc, items, bits) {
        Ok(kept) => {
            let shown = with_item_at_nulls(kept, &flags, blank);
            Ok((shown, Validity::from_bits(flags)))
        }
        Err(error) => {
            drop(flags);
            Err(error)
        }
    }
}

// The selected rows and their validity, for each form of mask and of validity.
fn filter_parts<T: Copy + Drop, A: Allocator + Copy>(
    alloc: A,
    items: &[T],
    validity: &Validity<A>,
    blank: T,
    mask: &Mask<A>,
) -> VortexResult<(Vec<T, A>, Validity<A>)>
    requires fits { HasLength (form_of validity.now) (length items.now) }
    requires masked { length (mask_bits mask.now) ≡ length items.now }
    ensures only { IsOkUnless result VortexError.OutOfMemory }
    ensures filtered { IfOk result (λ parts. AreStoredAs blank
        (filter_rows (mask_bits mask.now) (optionals items.now (validity_flags validity.now (length items.now))))
        (nullability_in (form_of validity.now)) parts.0.items (form_of parts.1)) }
{
    let kept = kept_items(alloc, items, validity, blank, mask)?;
    match selected_validity(alloc, items, validity, mask) {
        Ok(rows) => Ok((kept, rows)),
        Err(error) => {
            drop(kept);
            Err(error)
        }
    }
}

// The items at which the mask is true, with the blank one for null. What is valid is asked once, where no row is
// null.
fn kept_items<T: Copy + Drop, A: Allocator + Copy>(
    alloc: A,
    items: &[T],
    validity: &Validity<A>,
    blank: T,
    mask: &Mask<A>,
) -> VortexResult<Vec<T, A>>
    requires fits { HasLength (form_of validity.now) (length items.now) }
    requires masked { length (mask_bits mask.now) ≡ length items.now }
    ensures only { IsOkUnless result VortexError.OutOfMemory }
    ensures items { IfOk result (λ kept. kept.items ≡ map (λ row. unwrap_or row blank)
        (filter_rows (mask_bits mask.now) (optionals items.now (validity_flags validity.now (length items.now))))) }
{
    match mask {
        Mask::AllTrue(_) => items_or(alloc, items, validity, blank),
        Mask::AllFalse(_) => Ok(Vec::new(alloc)),
        Mask::Values(bits) => {
            if is_all_valid(validity) {
                return selected_items(alloc, items, bits);
            }
            selected_rows(alloc, items, validity, blank, bits)
        }
    }
}

// The items at which the bits are true.
fn selected_items<T: Copy + Drop, A: Allocator + Copy>(
    alloc: A,
    items: &[T],
    bits: &BitBuffer<A>,
) -> VortexResult<Vec<T, A>>
    requires { length bits.now ≡ length items.now }
    ensures only { IsOkUnless result VortexError.OutOfMemory }
    ensures items { IfOk result (λ kept. kept.items ≡ filter_rows bits.now items.now) }
{
    let mut kept = Vec::with_capacity(alloc, bits.true_count())?;
    for row in bits.set_indices() {
        kept.push_reserved(items[row]);
    }
    Ok(kept)
}

// The items at which the bits are true, for rows some of which may be null, with the blank item in place of null.
fn selected_rows<T: Copy + Drop, A: Allocator + Copy>(
    alloc: A,
    items: &[T],
    validity: &Validity<A>,
    blank: T,
    bits: &BitBuffer<A>,
) -> VortexResult<Vec<T, A>>
    requires fits { HasLength (form_of validity.now) (length items.now) }
    requires masked { length bits.now ≡ length items.now }
    ensures only { IsOkUnless result VortexError.OutOfMemory }
    ensures items { IfOk result (λ kept. kept.items ≡ map (λ row. unwrap_or row blank)
        (filter_rows bits.now (optionals items.now (validity_flags validity.now (length items.now))))) }
{
    let mut kept = Vec::with_capacity(alloc, bits.true_count())?;
    for row in bits.set_indices() {
        kept.push_reserved(item_at(items, validity, row).unwrap_or(blank));
    }
    Ok(kept)
}

// The validity of the rows at which the mask is true.
fn selected_validity<T: Copy + Drop, A: Allocator + Copy>(
    alloc: A,
    items: &[T],
    validity: &Validity<A>,
    mask: &Mask<A>,
) -> VortexResult<Validity<A>>
    requires fits { HasLength (form_of validity.now) (length items.now) }
    requires masked { length (mask_bits mask.now) ≡ length items.now }
    ensures only { IsOkUnless result VortexError.OutOfMemory }
    ensures flags { IfOk result (λ rows. IsValidityOf
        (map is_some (filter_rows (mask_bits mask.now) (optionals items.now (validity_flags validity.now
        (length items.now)))))
        (nullability_in (form_of validity.now))
        (length (filter_rows (mask_bits mask.now) (optionals items.now (validity_flags validity.now
        (length items.now)))))
        (form_of rows)) }
{
    match validity {
        Validity::NonNullable => Ok(Validity::NonNullable),
        Validity::AllValid => Ok(Validity::AllValid),
        _ => {
            let flags = selected_flags(alloc, items, validity, mask)?;
            Ok(Validity::from_bits(flags))
        }
    }
}

// Whether each row at which the mask is true is valid.
fn selected_flags<T: Copy + Drop, A: Allocator + Copy>(
    alloc: A,
    items: &[T],
    validity: &Validity<A>,
    mask: &Mask<A>,
) -> VortexResult<BitBuffer<A>>
    requires fits { HasLength (form_of validity.now) (length items.now) }
    requires masked { length (mask_bits mask.now) ≡ length items.now }
    ensures only { IsOkUnless result VortexError.OutOfMemory }
    ensures flags { IfOk result (λ kept. kept ≡ map is_some
        (filter_rows (mask_bits mask.now) (optionals items.now (validity_flags validity.now (length items.now))))) }
{
    let mut kept = BitBufferMut::with_capacity(alloc, mask.true_count())?;
    for row in 0..items.len() {
        if mask.value(row) {
            kept.append(item_at(items, validity, row).is_some())?;
        }
    }
    Ok(kept.freeze())
}
