//! The decoder of one native type, whose ends come from any iterator, so that runs may be empty.
ghost use Rattle.std.specs.Prelude.{◌≡◌, ◌<◌, ℕ, List, None, Some, false, is_some, IfOk, IsOkUnless, length, length as item_count, map, pos, option_map, replicate, slice_get};
ghost use Rattle.column_base.specs.declared.dtype.Nullability.TheVariants.{Nullable};
ghost use Rattle.column_base.specs.declared.dtype.DType.TheVariants as column;
ghost use Rattle.column_base.specs.Mask.{mask_bits};
ghost use Rattle.column_base.specs.ValidityForm.{HasLength, IsNormal, flags, nullability_in};
ghost use Rattle.column_base.specs.Validity.{form_of, validity_flags};
ghost use Rattle.column_core.specs.PrimitiveForm.{optionals, primitive_dtype};
ghost use Rattle.runend_windows.specs.Window.{run_rows};
ghost use Rattle.column_core.specs.Computed.{IsComputed, without_nulls};
ghost use Rattle.runend_windows.specs.Encoding.{blanked, number_rows};
ghost use Rattle.runend_windows.specs.RunEnds.{AreRunEnds, Fills, FitsMask, masked_values};
ghost use Rattle.column_core.specs.Computed.{HasRowIfAllNull};

use crate::run_writer::{RunWriter, repeated_items};
use column_core::{
    BitBuffer, BitBufferMut, Mask, NativePType, Nullability, PrimitiveArray, Validity, VortexError,
    VortexResult,
};
use std::alloc::Allocator;

/// Returns the next end of an iterator that does not stop here.
pub fn next_end<I: Iterator<Item = usize>>(run_ends: &mut I) -> usize
    requires can { I.can_next run_ends.old }
    requires more { (after : I) → ¬ (I.next_gives run_ends.old None after) }
    ensures gives { I.next_gives run_ends.old (Some result) run_ends.new }
    ensures can { I.can_next run_ends.new }
{
    match run_ends.next() {
        Some(end) => end,
        None => unreachable!(),
    }
}

// The value of each run, repeated up to the run's end.
fn repeat_values<T: NativePType, I: Iterator<Item = usize>, A: Allocator + Copy>(
    alloc: A,
    mut run_ends: I,
    values: &[T],
    count: usize,
) -> VortexResult<Vec<T, A>>
    requires can { I.can_next run_ends }
    requires ends { (ends : List ℕ) × AreRunEnds I.next_gives run_ends (length values.now) count ends }
    ensures only { IsOkUnless result VortexError.OutOfMemory }
    ensures fills { IfOk result (λ items. (ends : List ℕ) →
        AreRunEnds I.next_gives run_ends (length values.now) count ends →
        Fills (map T.number items.items) ends (map T.number values.now) count) }
{
    let mut rows = RunWriter::with_room(alloc, count)?;
    for value in values {
        rows.repeat_to(*value, next_end(&mut run_ends));
    }
    Ok(rows.finish())
}

// The number of a run, or `None` where the mask is false.
fn number_at<T: NativePType, A: Allocator>(values: &[T], mask: &Mask<A>, run: usize) -> Option<T>
    requires within { run < length values.now }
    requires masked { length (mask_bits mask.now) ≡ length values.now }
    ensures number { slice_get (optionals (map T.number values.now) (mask_bits mask.now)) run ≡
        Some (option_map T.number result) }
    ensures flag { slice_get (mask_bits mask.now) run ≡ Some (is_some result) }
{
    if mask.value(run) {
        Some(values[run])
    } else {
        None
    }
}

// The number of each run, 0 for null, and whether it is valid, repeated up to the run's end.
fn repeat_masked<T: NativePType, I: Iterator<Item = usize>, A: Allocator + Copy>(
    alloc: A,
    mut run_ends: I,
    values: &[T],
    mask: &Mask<A>,
    count: usize,
) -> VortexResult<(Vec<T, A>, BitBuffer<A>)>
    requires can { I.can_next run_ends }
    requires ends { (ends : List ℕ) × AreRunEnds I.next_gives run_ends (length values.now) count ends }
    requires masked { length (mask_bits mask.now) ≡ length values.now }
    ensures only { IsOkUnless result VortexError.OutOfMemory }
    ensures numbers { IfOk result (λ rows. (ends : List ℕ) →
        AreRunEnds I.next_gives run_ends (length values.now) count ends →
        Fills (map T.number rows.0.items) ends (blanked (pos 0) (optionals (map T.number values.now)
        (mask_bits mask.now))) count) }
    ensures flags { IfOk result (λ rows. (ends : List ℕ) →
        AreRunEnds I.next_gives run_ends (length values.now) count ends →
        Fills rows.1 ends (mask_bits mask.now) count) }
{
    let mut numbers = RunWriter::with_room(alloc, count)?;
    let mut flags = BitBufferMut::with_capacity(alloc, count)?;
    for run in 0..values.len() {
        let end = next_end(&mut run_ends);
        let number = number_at(values, mask, run);
        let missing = end.saturating_sub(flags.len());
        numbers.repeat_to(number.unwrap_or_default(), end);
        flags.append_n(number.is_some(), missing)?;
    }
    Ok((numbers.finish(), flags.freeze()))
}

/// Returns the validity of rows none of which is null.
pub fn no_null<A: Allocator>(nullability: Nullability) -> Validity<A>
    ensures { form_of result ≡ without_nulls nullability }
{
    match nullability {
        Nullability::NonNullable => Validity::NonNullable,
        Nullability::Nullable => Validity::AllValid,
    }
}

/// Returns the validity of rows that are all null; there may be no rows.
pub fn no_value<A: Allocator>(count: usize) -> Validity<A>
    ensures flags { validity_flags result count ≡ replicate count false }
    ensures fits { HasLength (form_of result) count }
    ensures normal { IsNormal (form_of result) }
    ensures nullable { nullability_in (form_of result) ≡ Nullable }
    ensures some { HasRowIfAllNull (form_of result) count }
{
    if count == 0 {
        Validity::AllValid
    } else {
        Validity::AllInvalid
    }
}

/// Returns the rows of runs whose ends come from an iterator, as a flat column of `T` with 0 under null: row i is the
/// value of the first run that ends past it, null where the mask is false there. Ends count rows; a run that ends where
/// the one before it does shows no row. The validity of a type with null is the one that `Validity::from_bits` makes.
/// Refused only as `OutOfMemory`.
///
/// The iterator has to give an end for each value, none below the one before it, and `count` as the last one. The mask
/// has a bit for each value; only under `Mask::AllTrue` may the type have no null.
pub fn decode_typed_numbers<T: NativePType, I: Iterator<Item = usize>, A: Allocator + Copy>(
    alloc: A,
    run_ends: I,
    values: &[T],
    mask: &Mask<A>,
    nullability: Nullability,
    count: usize,
) -> VortexResult<PrimitiveArray<A>>
    requires can { I.can_next run_ends }
    requires ends { (ends : List ℕ) × AreRunEnds I.next_gives run_ends (item_count values.now) count ends }
    requires masked { item_count (mask_bits mask.now) ≡ item_count values.now }
    requires nullable { FitsMask nullability mask.now }
    ensures only { IsOkUnless result VortexError.OutOfMemory }
    ensures rows { IfOk result (λ array. (ends : List ℕ) →
        AreRunEnds I.next_gives run_ends (item_count values.now) count ends →
        number_rows array ≡ run_rows ends (masked_values (map T.number values.now) (mask_bits mask.now)) 0 count) }
    ensures dtype { IfOk result (λ array. primitive_dtype array ≡ column.Primitive T.PTYPE nullability) }
    ensures form { IfOk result (λ array. IsComputed array) }
    ensures some { IfOk result (λ array. HasRowIfAllNull array.validity count) }
{
    match mask {
        Mask::AllTrue(_) => {
            let items = repeat_values(alloc, run_ends, values, count)?;
            let validity = no_null(nullability);
            Ok(PrimitiveArray::new_unchecked(T::wrap(items), validity))
        }
        Mask::AllFalse(_) => {
            let zeros = repeated_items(alloc, T::default(), count)?;
            Ok(PrimitiveArray::new_unchecked(T::wrap(zeros), no_value(count)))
        }
        Mask::Values(_) => {
            let (items, bits) = repeat_masked(alloc, run_ends, values, mask, count)?;
            let validity = Validity::from_bits(bits);
            Ok(PrimitiveArray::new_unchecked(T::wrap(items), validity))
        }
    }
}
