//! The decoder: each run's value is repeated up to where the run reaches in the window.
ghost use Rattle.std.specs.Prelude.{◌≡◌, ◌-◌, ◌<◌, ◌≤◌, IfOk, IsOkUnless, length, map, min, slice_get, slice_index, Some};
ghost use Rattle.column_base.specs.declared.dtype.Nullability.TheVariants.{Nullable};
ghost use Rattle.column_base.specs.ValidityForm.{HasLength, IsNormal, nullability_in};
ghost use Rattle.column_base.specs.Validity.{form_of, validity_flags};
ghost use Rattle.column_core.specs.Computed.{HasRowIfAllNull};
ghost use Rattle.column_core.specs.Optionals.{optionals};
ghost use Rattle.column_core.specs.PrimitiveForm.{primitive_dtype, primitive_with};
ghost use Rattle.runend_windows.specs.Window.{IsWindow, typed_ends};
ghost use Rattle.runend_windows.specs.Cover.{Covers};
ghost use Rattle.runend_windows.specs.Ends.{IsEndsType, ends_of};
ghost use Rattle.runend_windows.specs.Decoding.{AreDecoded};
ghost use Rattle.runend_windows.specs.Encoding.{IsDecodedFlat, blanked};

use crate::run_writer::{RunWriter, repeated_items};
use column_base::{match_each_native, match_each_unsigned};
use column_core::{
    BitBuffer, BitBufferMut, NativePType, PrimitiveArray, UnsignedPType, Validity, VortexError,
    VortexResult,
};
use std::alloc::Allocator;

/// Returns how many rows of the window the runs up to this one reach.
pub fn reach_of<E: UnsignedPType>(ends: &[E], run: usize, offset: usize, count: usize) -> usize
    requires { run < length ends.now }
    ensures { result ≡ min (slice_index (typed_ends E.number ends.now) run - offset) count }
{
    let rows = ends[run].to_u64().saturating_sub(offset as u64);
    rows.min(count as u64) as usize
}

// The items that the runs show in the window, where no run is null.
fn decode_valid<E: UnsignedPType, T: Copy + Drop, A: Allocator + Copy>(
    alloc: A,
    ends: &[E],
    values: &[T],
    offset: usize,
    count: usize,
) -> VortexResult<Vec<T, A>>
    requires window { IsWindow (typed_ends E.number ends.now) offset count }
    requires paired { length values.now ≡ length ends.now }
    ensures only { IsOkUnless result VortexError.OutOfMemory }
    ensures cover { IfOk result (λ items. Covers items.items
        (typed_ends E.number ends.now) values.now offset count) }
{
    let mut rows = RunWriter::with_room(alloc, count)?;
    for run in 0..ends.len() {
        rows.repeat_to(values[run], reach_of(ends, run, offset, count));
    }
    Ok(rows.finish())
}

// The item in a row, and the blank one for null.
fn stored_at<T: Copy + Drop, A: Allocator>(
    items: &[T],
    marks: &BitBuffer<A>,
    row: usize,
    blank: T,
) -> T
    requires within { row < length items.now }
    requires fits { length marks.now ≡ length items.now }
    ensures { slice_get (blanked blank (optionals items.now marks.now)) row ≡ Some result }
{
    if marks.value(row) { items[row] } else { blank }
}

// The items that the runs show in the window, the blank one for null, and whether each row is valid.
// The bits start true, so that only the runs of null write any.
fn decode_marked<E: UnsignedPType, T: Copy + Drop, A: Allocator + Copy>(
    alloc: A,
    ends: &[E],
    values: &[T],
    marks: &BitBuffer<A>,
    blank: T,
    offset: usize,
    count: usize,
) -> VortexResult<(Vec<T, A>, BitBufferMut<A>)>
    requires window { IsWindow (typed_ends E.number ends.now) offset count }
    requires paired { length values.now ≡ length ends.now }
    requires fits { length marks.now ≡ length values.now }
    ensures only { IsOkUnless result VortexError.OutOfMemory }
    ensures items { IfOk result (λ parts. Covers parts.0.items (typed_ends E.number ends.now)
        (blanked blank (optionals values.now marks.now)) offset count) }
    ensures bits { IfOk result (λ parts. Covers parts.1 (typed_ends E.number ends.now) marks.now offset
        count) }
{
    let mut rows = RunWriter::with_room(alloc, count)?;
    let mut bits = BitBufferMut::full(alloc, true, count)?;
    let mut start = 0;
    for run in 0..ends.len() {
        let reach = reach_of(ends, run, offset, count);
        let item = stored_at(values, marks, run, blank);
        rows.repeat_to(item, reach);
        if !marks.value(run) {
            bits.fill_range(start, reach, false);
        }
        start = reach;
    }
    Ok((rows.finish(), bits))
}

// Whether each row that the runs show in the window is valid.
fn decode_flags<E: UnsignedPType, A: Allocator + Copy>(
    alloc: A,
    ends: &[E],
    validity: &Validity<A>,
    offset: usize,
    count: usize,
) -> VortexResult<BitBufferMut<A>>
    requires window { IsWindow (typed_ends E.number ends.now) offset count }
    requires fits { HasLength (form_of validity.now) (length ends.now) }
    ensures only { IsOkUnless result VortexError.OutOfMemory }
    ensures cover { IfOk result (λ bits. Covers bits (typed_ends E.number ends.now)
        (validity_flags validity.now (length ends.now)) offset count) }
{
    let mut rows = BitBufferMut::with_capacity(alloc, count)?;
    for run in 0..ends.len() {
        let missing = reach_of(ends, run, offset, count).saturating_sub(rows.len());
        rows.append_n(validity.is_valid(run), missing)?;
    }
    Ok(rows)
}

// The validity of the rows that the runs show in the window, of a type with null.
fn decode_nullable<E: UnsignedPType, A: Allocator + Copy>(
    alloc: A,
    ends: &[E],
    validity: &Validity<A>,
    offset: usize,
    count: usize,
) -> VortexResult<Validity<A>>
    requires window { IsWindow (typed_ends E.number ends.now) offset count }
    requires fits { HasLength (form_of validity.now) (length ends.now) }
    ensures only { IsOkUnless result VortexError.OutOfMemory }
    ensures cover { IfOk result (λ rows. Covers (validity_flags rows count) (typed_ends E.number ends.now)
        (validity_flags validity.now (length ends.now)) offset count) }
    ensures fits { IfOk result (λ rows. HasLength (form_of rows) count) }
    ensures normal { IfOk result (λ rows. IsNormal (form_of rows)) }
    ensures nullable { IfOk result (λ rows. nullability_in (form_of rows) ≡ Nullable) }
    ensures some { IfOk result (λ rows. HasRowIfAllNull (form_of rows) count) }
{
    let bits = decode_flags(alloc, ends, validity, offset, count)?;
    Ok(Validity::from_bits(bits.freeze()))
}

/// Returns the validity of the rows that the runs show in the window. Where no run is null, no row is. Refused only as
/// `OutOfMemory`.
pub fn decode_validity<E: UnsignedPType, A: Allocator + Copy>(
    alloc: A,
    ends: &[E],
    validity: &Validity<A>,
    offset: usize,
    count: usize,
) -> VortexResult<Validity<A>>
    requires window { IsWindow (typed_ends E.number ends.now) offset count }
    requires fits { HasLength (form_of validity.now) (length ends.now) }
    ensures only { IsOkUnless result VortexError.OutOfMemory }
    ensures cover { IfOk result (λ rows. Covers (validity_flags rows count) (typed_ends E.number ends.now)
        (validity_flags validity.now (length ends.now)) offset count) }
    ensures fits { IfOk result (λ rows. HasLength (form_of rows) count) }
    ensures normal { IfOk result (λ rows. IsNormal (form_of rows)) }
    ensures nullability { IfOk result (λ rows. nullability_in (form_of rows) ≡ nullability_in (form_of validity.now)) }
    ensures some { IfOk result (λ rows. HasRowIfAllNull (form_of rows) count) }
{
    match validity {
        Validity::NonNullable => Ok(Validity::NonNullable),
        Validity::AllValid => Ok(Validity::AllValid),
        Validity::AllInvalid => decode_nullable(alloc, ends, validity, offset, count),
        Validity::Bits(_) => decode_nullable(alloc, ends, validity, offset, count),
    }
}

// The items and the validity of the rows that the runs show in the window.
fn decode_under<E: UnsignedPType, T: Copy + Drop, A: Allocator + Copy>(
    alloc: A,
    ends: &[E],
    values: &[T],
    validity: &Validity<A>,
    blank: T,
    offset: usize,
    count: usize,
) -> VortexResult<(Vec<T, A>, Validity<A>)>
    requires window { IsWindow (typed_ends E.number ends.now) offset count }
    requires paired { length values.now ≡ length ends.now }
    requires fits { HasLength (form_of validity.now) (length values.now) }
    ensures only { IsOkUnless result VortexError.OutOfMemory }
    ensures decoded { IfOk result (λ parts. AreDecoded blank (typed_ends E.number ends.now) values.now
        (form_of validity.now) offset count
        parts.0.items (form_of parts.1)) }
{
    match validity {
        Validity::NonNullable => {
            let items = decode_valid(alloc, ends, values, offset, count)?;
            Ok((items, Validity::NonNullable))
        }
        Validity::AllValid => {
            let items = decode_valid(alloc, ends, values, offset, count)?;
            Ok((items, Validity::AllValid))
        }
        Validity::AllInvalid => {
            let items = repeated_items(alloc, blank, count)?;
            let rows = decode_validity(alloc, ends, validity, offset, count)?;
            Ok((items, rows))
        }
        Validity::Bits(marks) => {
            let (items, bits) = decode_marked(alloc, ends, values, marks, blank, offset, count)?;
            Ok((items, Validity::from_bits(bits.freeze())))
        }
    }
}

/// Returns the items and the validity of the `count` rows, from row `offset` on, that runs show, with the blank item
/// under null. Refused only as `OutOfMemory`.
pub fn decode_rows<T: Copy + Drop, A: Allocator + Copy>(
    alloc: A,
    ends: &PrimitiveArray<A>,
    values: &[T],
    validity: &Validity<A>,
    blank: T,
    offset: usize,
    count: usize,
) -> VortexResult<(Vec<T, A>, Validity<A>)>
    requires plain { IsEndsType (primitive_dtype ends.now) }
    requires window { IsWindow (ends_of ends.now) offset count }
    requires paired { length values.now ≡ length ends.now.numbers }
    requires fits { HasLength (form_of validity.now) (length values.now) }
    ensures only { IsOkUnless result VortexError.OutOfMemory }
    ensures decoded { IfOk result (λ parts. AreDecoded blank (ends_of ends.now) values.now
        (form_of validity.now) offset count
        parts.0.items (form_of parts.1)) }
{
    match_each_unsigned!(ends.values(), items => decode_under(alloc, items.as_slice(), values, validity, blank, offset,
    count))
}

fn decode_as<T: NativePType, A: Allocator + Copy>(
    alloc: A,
    ends: &PrimitiveArray<A>,
    values: &[T],
    validity: &Validity<A>,
    offset: usize,
    count: usize,
) -> VortexResult<PrimitiveArray<A>>
    requires plain { IsEndsType (primitive_dtype ends.now) }
    requires window { IsWindow (ends_of ends.now) offset count }
    requires paired { length values.now ≡ length ends.now.numbers }
    requires fits { HasLength (form_of validity.now) (length values.now) }
    ensures only { IsOkUnless result VortexError.OutOfMemory }
    ensures flat { IfOk result (λ array. IsDecodedFlat (ends_of ends.now)
        (primitive_with T.PTYPE (map T.number values.now) (form_of validity.now)) offset count array) }
{
    let zero = T::default();
    let (items, rows) = decode_rows(alloc, ends, values, validity, zero, offset, count)?;
    Ok(PrimitiveArray::new_unchecked(T::wrap(items), rows))
}

/// Returns the `count` rows, from row `offset` on, that runs of integers show, as a flat column with 0 under null.
/// Refused only as `OutOfMemory`.
pub fn decode_numbers<A: Allocator + Copy>(
    alloc: A,
    ends: &PrimitiveArray<A>,
    values: &PrimitiveArray<A>,
    offset: usize,
    count: usize,
) -> VortexResult<PrimitiveArray<A>>
    requires plain { IsEndsType (primitive_dtype ends.now) }
    requires window { IsWindow (ends_of ends.now) offset count }
    requires paired { length values.now.numbers ≡ length ends.now.numbers }
    ensures only { IsOkUnless result VortexError.OutOfMemory }
    ensures flat { IfOk result (λ array. IsDecodedFlat (ends_of ends.now) values.now offset count array) }
{
    let validity = values.validity();
    match_each_native!(values.values(), items => decode_as(alloc, ends, items.as_slice(), validity, offset, count))
}
