//! The positions of indices, each tested as a signed number before it becomes a position.
ghost use Rattle.std.specs.Prelude.{◌≡◌, ◌≢◌, pos, Err, None, Some, IfOk, if◌then◌else◌, length, map, unwrap_or};
ghost use Rattle.column_base.specs.ValidityForm.{HasLength, nullability_in};
ghost use Rattle.column_base.specs.Validity.{form_of};
ghost use Rattle.column_core.specs.Optionals.{optionals};
ghost use Rattle.column_core.specs.PrimitiveForm.{optional_numbers, primitive_with};
ghost use Rattle.column_core.specs.Refusal.{IsRefusedBy};
ghost use Rattle.column_ops.specs.Fault.{first_fault};
ghost use Rattle.column_ops.specs.Take.{ArePositionsFor, index_fault, take_fault};

use crate::computed_validity::computed_validity;
use crate::items_or::{filled_vec, with_item_at_nulls};
use column_base::match_each_native;
use column_core::{BitBuffer, NativePType, PrimitiveArray, Validity, VortexError, VortexResult};
use std::alloc::Allocator;

/// Returns the positions of indices among `count` rows, null for null. Refused as `OutOfBounds`, with the index and
/// `count`, at the first valid index that is negative or not below `count`; else only as `OutOfMemory`.
pub fn positions_of<A: Allocator + Copy>(
    alloc: A,
    indices: &PrimitiveArray<A>,
    count: usize,
) -> VortexResult<(Vec<u64, A>, Validity<A>)>
    ensures refused { IsRefusedBy (take_fault (optional_numbers indices.now) count) result }
    ensures positions { IfOk result (λ parts. ArePositionsFor (optional_numbers indices.now)
        (nullability_in indices.now.validity) count parts.0.items (form_of parts.1)) }
{
    let validity = indices.validity();
    match_each_native!(indices.values(), items => native_positions(alloc, items.as_slice(), validity, count))
}

/// Returns the position of an index among `count` rows. Refused as `OutOfBounds`, with the index and `count`, exactly
/// where it is negative or not below `count`. Takes no memory.
#[inline(always)]
pub fn checked_index(index: i128, count: usize) -> VortexResult<u64>
    ensures refused { IsRefusedBy (index_fault count (Some index)) result }
    ensures no_memory { result ≢ Err VortexError.OutOfMemory }
    ensures same { IfOk result (λ position. pos position ≡ index) }
{
    if index < 0 || index >= count as i128 {
        return Err(VortexError::OutOfBounds {
            index,
            length: count,
        });
    }
    Ok(index as u64)
}

// The positions of indices of one native type.
fn native_positions<T: NativePType, A: Allocator + Copy>(
    alloc: A,
    indices: &[T],
    validity: &Validity<A>,
    count: usize,
) -> VortexResult<(Vec<u64, A>, Validity<A>)>
    requires fits { HasLength (form_of validity.now) (length indices.now) }
    ensures refused { IsRefusedBy (take_fault (optional_numbers (primitive_with T.PTYPE (map T.number indices.now)
        (form_of validity.now))) count) result }
    ensures positions { IfOk result (λ parts. ArePositionsFor (optional_numbers (primitive_with T.PTYPE
        (map T.number indices.now) (form_of validity.now)))
        (nullability_in (form_of validity.now)) count parts.0.items (form_of parts.1)) }
{
    let positions = position_items(alloc, indices, validity, count)?;
    match computed_validity(alloc, validity, indices.len(), validity.nullability()) {
        Ok(places) => Ok((positions, places)),
        Err(error) => {
            drop(positions);
            Err(error)
        }
    }
}

// The positions, with 0 for null.
fn position_items<T: NativePType, A: Allocator + Copy>(
    alloc: A,
    indices: &[T],
    validity: &Validity<A>,
    count: usize,
) -> VortexResult<Vec<u64, A>>
    requires fits { HasLength (form_of validity.now) (length indices.now) }
    ensures refused { IsRefusedBy (take_fault (optional_numbers (primitive_with T.PTYPE (map T.number indices.now)
        (form_of validity.now))) count) result }
    ensures same { IfOk result (λ positions. map pos positions.items ≡ map (λ row. unwrap_or row (pos 0))
        (optional_numbers (primitive_with T.PTYPE (map T.number indices.now) (form_of validity.now)))) }
{
    match validity {
        Validity::NonNullable => valid_positions(alloc, indices, count),
        Validity::AllValid => valid_positions(alloc, indices, count),
        Validity::AllInvalid => filled_vec(alloc, 0, indices.len()),
        Validity::Bits(marks) => marked_positions(alloc, indices, marks, count),
    }
}

// The positions of indices none of which is null.
fn valid_positions<T: NativePType, A: Allocator>(
    alloc: A,
    indices: &[T],
    count: usize,
) -> VortexResult<Vec<u64, A>>
    ensures refused { IsRefusedBy (first_fault (λ index. index_fault count (Some index))
        (map T.number indices.now)) result }
    ensures same { IfOk result (λ positions. map pos positions.items ≡ map T.number indices.now) }
{
    let mut positions = Vec::with_capacity(alloc, indices.len())?;
    for index in indices {
        match checked_index(index.widen(), count) {
            Ok(position) => positions.push_reserved(position),
            Err(error) => {
                drop(positions);
                return Err(error);
            }
        }
    }
    Ok(positions)
}

// The positions, with 0 for null, of indices that are null where their mark is false. What is stored under null is
// tested too, and 0 is put there then. Only if an index is outside, the marks are looked at one by one: it may be null.
fn marked_positions<T: NativePType, A: Allocator + Copy>(
    alloc: A,
    indices: &[T],
    marks: &BitBuffer<A>,
    count: usize,
) -> VortexResult<Vec<u64, A>>
    requires fits { length marks.now ≡ length indices.now }
    ensures refused { IsRefusedBy (take_fault (optionals (map T.number indices.now) marks.now) count) result }
    ensures same { IfOk result (λ positions. map pos positions.items ≡
        map (λ row. unwrap_or row (pos 0)) (optionals (map T.number indices.now) marks.now)) }
{
    match valid_positions(alloc, indices, count) {
        Ok(positions) => Ok(with_item_at_nulls(positions, marks, 0)),
        Err(VortexError::OutOfMemory) => Err(VortexError::OutOfMemory),
        Err(_) => shown_positions(alloc, indices, marks, count),
    }
}

// The positions, with 0 for null, where the marks of the indices are looked at one by one.
fn shown_positions<T: NativePType, A: Allocator>(
    alloc: A,
    indices: &[T],
    marks: &BitBuffer<A>,
    count: usize,
) -> VortexResult<Vec<u64, A>>
    requires fits { length marks.now ≡ length indices.now }
    ensures refused { IsRefusedBy (take_fault (optionals (map T.number indices.now) marks.now) count) result }
    ensures same { IfOk result (λ positions. map pos positions.items ≡
        map (λ row. unwrap_or row (pos 0)) (optionals (map T.number indices.now) marks.now)) }
{
    let mut positions = Vec::with_capacity(alloc, indices.len())?;
    for place in 0..indices.len() {
        match position_if(marks.value(place), indices[place], count) {
            Ok(position) => positions.push_reserved(position),
            Err(error) => {
                drop(positions);
                return Err(error);
            }
        }
    }
    Ok(positions)
}

// The position of an index that is valid, and 0 of one that is null.
#[inline(always)]
fn position_if<T: NativePType>(is_valid: bool, index: T, count: usize) -> VortexResult<u64>
    ensures refused { IsRefusedBy (index_fault count (if is_valid then Some (T.number index) else None)) result }
    ensures same { IfOk result (λ position. pos position ≡
        unwrap_or (if is_valid then Some (T.number index) else None) (pos 0)) }
{
    if is_valid {
        checked_index(index.widen(), count)
    } else {
        Ok(0)
    }
}
