//! Flat columns of numbers cast row by row.
ghost use Rattle.std.specs.Prelude.{◌≡◌, ◌<◌, IfErr, IfOk, IfSome, MatchOption, Some, length, map, slice_get};
ghost use Rattle.std.specs.List.{AllZip};
ghost use Rattle.column_base.specs.declared.dtype.DType.TheVariants as types;
ghost use Rattle.column_base.specs.Numbers.{numbers, ptype_of};
ghost use Rattle.column_base.specs.Types.{HasNumber};
ghost use Rattle.column_base.specs.ValidityForm.{nullability_in};
ghost use Rattle.column_core.specs.Leaf.{OfNumbers, single_rows};
ghost use Rattle.column_core.specs.PrimitiveForm.{optional_numbers, primitive_dtype};
ghost use Rattle.column_floats.specs.Casts.{Becomes, BecomesNone, IsCastRefusal, IsCastRow, IsStoredFor};

use crate::number_casts::NumberCast;
use column_core::{
    NativePType, PType, PrimitiveArray, PrimitiveValues, ScalarView, VortexError, VortexResult,
};
use std::alloc::Allocator;

/// Returns what each number becomes, null for null. Refused as `CastOutOfRange` where a number does not become one of
/// the type, and else only as `OutOfMemory`.
pub fn cast_numbers<C: NumberCast, A: Allocator + Copy>(
    alloc: A,
    array: &PrimitiveArray<A>,
    cast: &C,
) -> VortexResult<PrimitiveArray<A>>
    requires { array.now.ptype ≡ C.source cast.now }
    ensures refused { IfErr result (IsCastRefusal (Becomes (C.target cast.now) (C.casts cast.now))
        (optional_numbers array.now)) }
    ensures rows { IfOk result (λ made. AllZip (IsCastRow (Becomes (C.target cast.now) (C.casts cast.now)))
        (single_rows (OfNumbers array.now)) (single_rows (OfNumbers made))) }
    ensures dtype { IfOk result (λ made. primitive_dtype made ≡
        types.Primitive (C.target cast.now) (nullability_in array.now.validity)) }
{
    let validity = array.validity().try_clone(alloc)?;
    let values = cast_values(alloc, array, cast)?;
    Ok(PrimitiveArray::new_unchecked(values, validity))
}

// Returns the numbers that are stored, in the type that they are cast to.
fn cast_values<C: NumberCast, A: Allocator + Copy>(
    alloc: A,
    array: &PrimitiveArray<A>,
    cast: &C,
) -> VortexResult<PrimitiveValues<A>>
    requires { array.now.ptype ≡ C.source cast.now }
    ensures refused { IfErr result (IsCastRefusal (Becomes (C.target cast.now) (C.casts cast.now))
        (optional_numbers array.now)) }
    ensures items { IfOk result (λ made. AllZip (IsStoredFor (Becomes (C.target cast.now) (C.casts cast.now)))
        (optional_numbers array.now) (numbers made)) }
    ensures typed { IfOk result (λ made. ptype_of made ≡ C.target cast.now) }
{
    match cast.ptype() {
        PType::U8 => cast_items::<C, u8, A>(alloc, array, cast),
        PType::U16 => cast_items::<C, u16, A>(alloc, array, cast),
        PType::U32 => cast_items::<C, u32, A>(alloc, array, cast),
        PType::U64 => cast_items::<C, u64, A>(alloc, array, cast),
        PType::I8 => cast_items::<C, i8, A>(alloc, array, cast),
        PType::I16 => cast_items::<C, i16, A>(alloc, array, cast),
        PType::I32 => cast_items::<C, i32, A>(alloc, array, cast),
        PType::I64 => cast_items::<C, i64, A>(alloc, array, cast),
    }
}

// Returns the same in one type.
fn cast_items<C: NumberCast, K: NativePType, A: Allocator + Copy>(
    alloc: A,
    array: &PrimitiveArray<A>,
    cast: &C,
) -> VortexResult<PrimitiveValues<A>>
    requires source { array.now.ptype ≡ C.source cast.now }
    requires target { C.target cast.now ≡ K.PTYPE }
    ensures refused { IfErr result (IsCastRefusal (Becomes (C.target cast.now) (C.casts cast.now))
        (optional_numbers array.now)) }
    ensures items { IfOk result (λ made. AllZip (IsStoredFor (Becomes (C.target cast.now) (C.casts cast.now)))
        (optional_numbers array.now) (numbers made)) }
    ensures typed { IfOk result (λ made. ptype_of made ≡ C.target cast.now) }
{
    let mut items: Vec<K, A> = Vec::with_capacity(alloc, array.len())?;
    for row in 0..array.len() {
        match cast_item::<C, K>(number_at(array, row), cast) {
            Some(item) => items.push(item)?,
            None => {
                drop(items);
                return Err(VortexError::CastOutOfRange);
            }
        }
    }
    Ok(K::wrap(items))
}

// Returns what is stored for a number, or `None` where it becomes no number of the type. For null the default is
// stored.
#[inline]
fn cast_item<C: NumberCast, K: NativePType>(number: Option<i128>, cast: &C) -> Option<K>
    requires source { IfSome number (HasNumber (C.source cast.now)) }
    requires target { C.target cast.now ≡ K.PTYPE }
    ensures { MatchOption result (MatchOption number ⊥ (BecomesNone (Becomes (C.target cast.now) (C.casts cast.now))))
        (λ item. IsStoredFor (Becomes (C.target cast.now) (C.casts cast.now)) number (K.number item)) }
{
    match number {
        None => Some(K::default()),
        Some(number) => match cast.cast(number) {
            Some(number) => K::narrow(number),
            None => None,
        },
    }
}

// Returns the number in a row, or `None` for null.
#[inline]
fn number_at<A: Allocator>(array: &PrimitiveArray<A>, row: usize) -> Option<i128>
    requires { row < length array.now.numbers }
    ensures number { slice_get (optional_numbers array.now) row ≡ Some result }
    ensures fits { IfSome result (HasNumber array.now.ptype) }
{
    match array.get(row) {
        ScalarView::Signed(number) => Some(i128::from(number)),
        ScalarView::Unsigned(number) => Some(i128::from(number)),
        ScalarView::Null => None,
        _ => unreachable!(),
    }
}
