//! Offsets, sizes and validity of lists at positions.
ghost use Rattle.std.specs.Prelude.{◌≡◌, ◌<◌, length, map, IfOk, IsOkUnless};
ghost use Rattle.std.specs.List.{range_with_len};
ghost use Rattle.column_base.specs.ValidityForm.{HasLength, nullability_in};
ghost use Rattle.column_base.specs.Validity.{form_of};
ghost use Rattle.runend_array.specs.Array.{IsRowValidity, column_of, validity_of};
ghost use Rattle.runend_array.specs.Column.{IsIndex, index_of};
ghost use Rattle.runend_array.specs.ListTake.{ArePlacesOf, IsValidityAt, flag_taken, nullability_taken, number_taken};
ghost use Rattle.runend_array.specs.Lists.{HasRows, PlainIndex, index_count, row_nullability};

use crate::array_ref::ArrayRef;
use crate::lists::index::index_at;
use crate::validities::{RowValidity, rows_of_validity};
use column_core::{
    BitBuffer, BitBufferMut, Nullability, PrimitiveArray, PrimitiveValues, Validity, VortexError,
    VortexResult,
};
use std::alloc::Allocator;

/// Returns the numbers of an index at the positions, 0 for null, flat. Refused only as `OutOfMemory`.
pub(crate) fn index_taken<A: Allocator + Copy>(
    alloc: A,
    index: &ArrayRef<A>,
    positions: &[u64],
    places: &Validity<A>,
) -> VortexResult<ArrayRef<A>>
    requires index { IsIndex (column_of index.now) }
    requires fits { HasLength (form_of places.now) (length positions.now) }
    requires within { ArePlacesOf (index_count (index_of (column_of index.now))) positions.now (form_of places.now) }
    ensures only { IsOkUnless result VortexError.OutOfMemory }
    ensures index { IfOk result (λ part. IsIndex (column_of part)) }
    ensures form { IfOk result (λ part. index_of (column_of part) ≡
        PlainIndex (map (number_taken (index_of (column_of index.now)) positions.now (form_of places.now))
        (range_with_len 0 (length positions.now)))) }
{
    let numbers = numbers_at(alloc, index, positions, places)?;
    let values = PrimitiveValues::from_vec(numbers);
    let flat = PrimitiveArray::new_unchecked(values, Validity::NonNullable);
    Ok(ArrayRef::Primitive(flat))
}

// The numbers of an index at the positions.
fn numbers_at<A: Allocator + Copy>(
    alloc: A,
    index: &ArrayRef<A>,
    positions: &[u64],
    places: &Validity<A>,
) -> VortexResult<Vec<u64, A>>
    requires index { IsIndex (column_of index.now) }
    requires fits { HasLength (form_of places.now) (length positions.now) }
    requires within { ArePlacesOf (index_count (index_of (column_of index.now))) positions.now (form_of places.now) }
    ensures only { IsOkUnless result VortexError.OutOfMemory }
    ensures numbers { IfOk result (λ numbers. numbers.items ≡
        map (number_taken (index_of (column_of index.now)) positions.now (form_of places.now))
        (range_with_len 0 (length positions.now))) }
{
    let mut numbers = Vec::with_capacity(alloc, positions.len())?;
    for place in 0..positions.len() {
        numbers.push(number_at(index, positions, places, place))?;
    }
    Ok(numbers)
}

// The number at the position of a place, and 0 for a null position.
fn number_at<A: Allocator + Copy>(
    index: &ArrayRef<A>,
    positions: &[u64],
    places: &Validity<A>,
    place: usize,
) -> u64
    requires index { IsIndex (column_of index.now) }
    requires fits { HasLength (form_of places.now) (length positions.now) }
    requires within { ArePlacesOf (index_count (index_of (column_of index.now))) positions.now (form_of places.now) }
    requires there { place < length positions.now }
    ensures { result ≡ number_taken (index_of (column_of index.now)) positions.now (form_of places.now) place }
{
    if places.is_valid(place) {
        index_at(index, positions[place] as usize)
    } else {
        0
    }
}

/// Returns the validity of the rows at the positions, of `count` rows, with bits only where some of these rows are null
/// and others are not. Refused only as `OutOfMemory`.
pub(crate) fn validity_taken<A: Allocator + Copy>(
    alloc: A,
    validity: &RowValidity<A>,
    count: usize,
    positions: &[u64],
    places: &Validity<A>,
) -> VortexResult<RowValidity<A>>
    requires plain { IsRowValidity validity.now }
    requires counted { HasRows (validity_of validity.now) count }
    requires fits { HasLength (form_of places.now) (length positions.now) }
    requires within { ArePlacesOf count positions.now (form_of places.now) }
    ensures only { IsOkUnless result VortexError.OutOfMemory }
    ensures plain { IfOk result (λ part. IsRowValidity part) }
    ensures form { IfOk result (λ part. IsValidityAt (validity_of validity.now) positions.now (form_of places.now)
        (validity_of part)) }
{
    match nullability_at(validity, places) {
        Nullability::NonNullable => Ok(RowValidity::NonNullable),
        Nullability::Nullable => {
            let flags = flags_at(alloc, validity, count, positions, places)?;
            Ok(rows_of_validity(Validity::from_bits(flags)))
        }
    }
}

// Nullable where the rows or the positions may be null.
fn nullability_at<A: Allocator + Copy>(
    validity: &RowValidity<A>,
    places: &Validity<A>,
) -> Nullability
    ensures { result ≡ nullability_taken (row_nullability (validity_of validity.now))
        (nullability_in (form_of places.now)) }
{
    match validity.nullability() {
        Nullability::NonNullable => places.nullability(),
        Nullability::Nullable => Nullability::Nullable,
    }
}

// Whether each row at the positions is valid, of `count` rows.
fn flags_at<A: Allocator + Copy>(
    alloc: A,
    validity: &RowValidity<A>,
    count: usize,
    positions: &[u64],
    places: &Validity<A>,
) -> VortexResult<BitBuffer<A>>
    requires plain { IsRowValidity validity.now }
    requires counted { HasRows (validity_of validity.now) count }
    requires fits { HasLength (form_of places.now) (length positions.now) }
    requires within { ArePlacesOf count positions.now (form_of places.now) }
    ensures only { IsOkUnless result VortexError.OutOfMemory }
    ensures flags { IfOk result (λ bits. bits ≡ map (flag_taken (validity_of validity.now) positions.now
        (form_of places.now)) (range_with_len 0 (length positions.now))) }
{
    let mut bits = BitBufferMut::with_capacity(alloc, positions.len())?;
    for place in 0..positions.len() {
        bits.append(flag_at_place(validity, count, positions, places, place))?;
    }
    Ok(bits.freeze())
}

// Is the row at the position of a place valid? Not for a null position.
fn flag_at_place<A: Allocator + Copy>(
    validity: &RowValidity<A>,
    count: usize,
    positions: &[u64],
    places: &Validity<A>,
    place: usize,
) -> bool
    requires plain { IsRowValidity validity.now }
    requires counted { HasRows (validity_of validity.now) count }
    requires fits { HasLength (form_of places.now) (length positions.now) }
    requires within { ArePlacesOf count positions.now (form_of places.now) }
    requires there { place < length positions.now }
    ensures { result ≡ flag_taken (validity_of validity.now) positions.now (form_of places.now) place }
{
    if places.is_valid(place) {
        validity.is_valid(positions[place] as usize, count)
    } else {
        false
    }
}
