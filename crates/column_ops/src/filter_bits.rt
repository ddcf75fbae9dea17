//! Booleans that a mask selects, written 64 to a word.
ghost use Rattle.std.specs.Prelude.{◌≡◌, ◌<◌, true, false, Some, IfOk, IsOkUnless, length, map, replicate, slice_get, unwrap_or};
ghost use Rattle.column_base.specs.declared.dtype.Nullability.TheVariants.{Nullable};
ghost use Rattle.column_base.specs.Mask.{mask_bits};
ghost use Rattle.column_base.specs.ValidityForm.{HasLength, flags, nullability_in};
ghost use Rattle.column_base.specs.Validity.{form_of, validity_flags};
ghost use Rattle.column_core.specs.Optionals.{optionals};
ghost use Rattle.column_ops.specs.Filter.{filter_rows};
ghost use Rattle.column_ops.specs.Written.{AreStoredAs};

use crate::bit_writer::BitWriter;
use column_core::{BitBuffer, BitBufferMut, Mask, Validity, VortexError, VortexResult};
use std::alloc::Allocator;

/// Returns the booleans of the rows at which the mask is true and their validity, with false stored under null. Refused
/// only as `OutOfMemory`.
pub(crate) fn filter_bits<A: Allocator + Copy>(
    alloc: A,
    bits: &BitBuffer<A>,
    validity: &Validity<A>,
    mask: &Mask<A>,
) -> VortexResult<(BitBuffer<A>, Validity<A>)>
    requires fits { HasLength (form_of validity.now) (length bits.now) }
    requires masked { length (mask_bits mask.now) ≡ length bits.now }
    ensures only { IsOkUnless result VortexError.OutOfMemory }
    ensures filtered { IfOk result (λ parts. AreStoredAs false
        (filter_rows (mask_bits mask.now) (optionals bits.now (validity_flags validity.now (length bits.now))))
        (nullability_in (form_of validity.now)) parts.0 (form_of parts.1)) }
{
    match mask {
        Mask::AllTrue(_) => filter_alike(alloc, bits, validity, true),
        Mask::AllFalse(_) => filter_alike(alloc, bits, validity, false),
        Mask::Values(selected) => filter_by(alloc, bits, validity, selected),
    }
}

/// Returns the bits at which the mask is true. Refused only as `OutOfMemory`.
pub(crate) fn selected_bits<A: Allocator + Copy>(
    alloc: A,
    bits: &BitBuffer<A>,
    mask: &BitBuffer<A>,
) -> VortexResult<BitBuffer<A>>
    requires { length mask.now ≡ length bits.now }
    ensures only { IsOkUnless result VortexError.OutOfMemory }
    ensures bits { IfOk result (λ kept. kept ≡ filter_rows mask.now bits.now) }
{
    let count = mask.true_count();
    let mut kept = BitWriter::with_capacity(alloc, count)?;
    for row in mask.set_indices() {
        kept.append(bits.value(row))?;
    }
    let kept = kept.finish(count)?;
    Ok(kept.freeze())
}

// The same by a mask that is this bit in each row.
fn filter_alike<A: Allocator + Copy>(
    alloc: A,
    bits: &BitBuffer<A>,
    validity: &Validity<A>,
    selected: bool,
) -> VortexResult<(BitBuffer<A>, Validity<A>)>
    requires { HasLength (form_of validity.now) (length bits.now) }
    ensures only { IsOkUnless result VortexError.OutOfMemory }
    ensures filtered { IfOk result (λ parts. AreStoredAs false
        (filter_rows (replicate (length bits.now) selected) (optionals bits.now (validity_flags validity.now
        (length bits.now))))
        (nullability_in (form_of validity.now)) parts.0 (form_of parts.1)) }
{
    let mask = BitBufferMut::full(alloc, selected, bits.len())?;
    let mask = mask.freeze();
    let kept = filter_by(alloc, bits, validity, &mask);
    drop(mask);
    kept
}

// The same by a mask of bits.
fn filter_by<A: Allocator + Copy>(
    alloc: A,
    bits: &BitBuffer<A>,
    validity: &Validity<A>,
    mask: &BitBuffer<A>,
) -> VortexResult<(BitBuffer<A>, Validity<A>)>
    requires fits { HasLength (form_of validity.now) (length bits.now) }
    requires masked { length mask.now ≡ length bits.now }
    ensures only { IsOkUnless result VortexError.OutOfMemory }
    ensures filtered { IfOk result (λ parts. AreStoredAs false
        (filter_rows mask.now (optionals bits.now (validity_flags validity.now (length bits.now))))
        (nullability_in (form_of validity.now)) parts.0 (form_of parts.1)) }
{
    match validity {
        Validity::NonNullable => {
            let kept = selected_bits(alloc, bits, mask)?;
            Ok((kept, Validity::NonNullable))
        }
        Validity::AllValid => {
            let kept = selected_bits(alloc, bits, mask)?;
            Ok((kept, Validity::AllValid))
        }
        Validity::AllInvalid => {
            let marks = BitBufferMut::full(alloc, false, bits.len())?;
            let marks = marks.freeze();
            let kept = filter_marked(alloc, bits, &marks, mask);
            drop(marks);
            kept
        }
        Validity::Bits(marks) => filter_marked(alloc, bits, marks, mask),
    }
}

// The same for booleans that are null where their mark is false.
fn filter_marked<A: Allocator + Copy>(
    alloc: A,
    bits: &BitBuffer<A>,
    marks: &BitBuffer<A>,
    mask: &BitBuffer<A>,
) -> VortexResult<(BitBuffer<A>, Validity<A>)>
    requires marked { length marks.now ≡ length bits.now }
    requires masked { length mask.now ≡ length bits.now }
    ensures only { IsOkUnless result VortexError.OutOfMemory }
    ensures filtered { IfOk result (λ parts. AreStoredAs false
        (filter_rows mask.now (optionals bits.now marks.now)) Nullable parts.0 (form_of parts.1)) }
{
    let (kept, flags) = selected_with_marks(alloc, bits, marks, mask)?;
    Ok((kept, Validity::from_bits(flags)))
}

// The booleans at which the mask is true, false where their mark is, and these marks.
fn selected_with_marks<A: Allocator + Copy>(
    alloc: A,
    bits: &BitBuffer<A>,
    marks: &BitBuffer<A>,
    mask: &BitBuffer<A>,
) -> VortexResult<(BitBuffer<A>, BitBuffer<A>)>
    requires marked { length marks.now ≡ length bits.now }
    requires masked { length mask.now ≡ length bits.now }
    ensures only { IsOkUnless result VortexError.OutOfMemory }
    ensures shown { IfOk result (λ parts. parts.0 ≡
        map (λ row. unwrap_or row false) (filter_rows mask.now (optionals bits.now marks.now))) }
    ensures flags { IfOk result (λ parts. parts.1 ≡ filter_rows mask.now marks.now) }
{
    let count = mask.true_count();
    let mut kept = BitWriter::with_capacity(alloc, count)?;
    let mut flags = BitWriter::with_capacity(alloc, count)?;
    for row in mask.set_indices() {
        kept.append(shown_bit(bits, marks, row))?;
        flags.append(marks.value(row))?;
    }
    let kept = kept.finish(count)?;
    let flags = flags.finish(count)?;
    Ok((kept.freeze(), flags.freeze()))
}

// The boolean in a row, and false for null. Both bits are read in any case: no branch depends on them.
#[inline(always)]
fn shown_bit<A: Allocator>(bits: &BitBuffer<A>, marks: &BitBuffer<A>, row: usize) -> bool
    requires within { row < length bits.now }
    requires marked { length marks.now ≡ length bits.now }
    ensures { slice_get (map (λ row. unwrap_or row false) (optionals bits.now marks.now)) row ≡ Some result }
{
    let bit = bits.value(row);
    if marks.value(row) { bit } else { false }
}
