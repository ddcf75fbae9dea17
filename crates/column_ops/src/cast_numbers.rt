//! Integers cast to another native type.
ghost use Rattle.std.specs.Prelude.{◌≡◌, ◌≢◌, pos, true, Err, None, Some, IfOk, IsSome, cond, length, map, option_map, unwrap_or};
ghost use Rattle.column_base.specs.declared.dtype.DType.TheVariants as column;
ghost use Rattle.column_base.specs.declared.dtype.Nullability.TheVariants.{NonNullable};
ghost use Rattle.column_base.specs.ValidityForm.{HasLength};
ghost use Rattle.column_base.specs.Validity.{form_of};
ghost use Rattle.column_core.specs.Leaf.{OfNumbers, single_rows};
ghost use Rattle.column_core.specs.Optionals.{optionals};
ghost use Rattle.column_core.specs.PrimitiveForm.{optional_numbers, primitive_rows, primitive_with};
ghost use Rattle.column_core.specs.Refusal.{IsRefusedBy};
ghost use Rattle.column_core.specs.Value.{Number, Single};
ghost use Rattle.column_ops.specs.Cast.{cast_row_fault, number_fault};
ghost use Rattle.column_ops.specs.Computed.{IsMade};
ghost use Rattle.column_ops.specs.Fault.{first_fault};
ghost use Rattle.column_ops.specs.Written.{AreStoredAs};

use crate::computed_validity::computed_validity;
use crate::items_or::{items_by_bits, with_item_at_nulls};
use crate::keep_items::null_row;
use crate::rows::item_at;
use column_base::match_each_native;
use column_core::{
    BitBuffer, NativePType, Nullability, PType, PrimitiveArray, Validity, VortexError, VortexResult,
};
use std::alloc::Allocator;

/// Returns the numbers in the native type, with 0 stored under null. Refused, at the first row that the type does not
/// have, as `NullNotAllowed` for null and as `CastOutOfRange` for a number; else only as `OutOfMemory`.
pub(crate) fn cast_values<A: Allocator + Copy>(
    alloc: A,
    array: &PrimitiveArray<A>,
    ptype: PType,
    nullability: Nullability,
) -> VortexResult<PrimitiveArray<A>>
    ensures refused { IsRefusedBy (first_fault (cast_row_fault (column.Primitive ptype nullability))
        (single_rows (OfNumbers array.now))) result }
    ensures made { IfOk result (λ cast. IsMade (primitive_rows array.now) (column.Primitive ptype nullability)
        (OfNumbers cast)) }
{
    let validity = array.validity();
    match_each_native!(array.values(), items => cast_native(alloc, items.as_slice(), validity, ptype, nullability))
}

// The number as one of the type `T`.
fn cast_number<S: NativePType, T: NativePType>(item: S) -> VortexResult<T>
    ensures refused { IsRefusedBy (number_fault (column.Primitive T.PTYPE NonNullable) (S.number item)) result }
    ensures no_memory { result ≢ Err VortexError.OutOfMemory }
    ensures same { IfOk result (λ cast. T.number cast ≡ S.number item) }
{
    match T::narrow(item.widen()) {
        None => Err(VortexError::CastOutOfRange),
        Some(number) => Ok(number),
    }
}

// The number as one of the type `T`, or 0 where the type does not have it, and whether it has it.
#[inline(always)]
fn cast_or_zero<S: NativePType, T: NativePType>(item: S) -> (T, bool)
    ensures fault { number_fault (column.Primitive T.PTYPE NonNullable) (S.number item) ≡
        cond result.1 None (Some VortexError.CastOutOfRange) }
    ensures same { result.1 ≡ true → T.number result.0 ≡ S.number item }
{
    match T::narrow(item.widen()) {
        None => (T::default(), false),
        Some(number) => (number, true),
    }
}

// The row as one of the type `T` with this nullability.
fn cast_row<S: NativePType, T: NativePType>(
    row: Option<S>,
    nullability: Nullability,
) -> VortexResult<Option<T>>
    ensures refused { IsRefusedBy (cast_row_fault (column.Primitive T.PTYPE nullability)
        (option_map Single (option_map Number (option_map S.number row)))) result }
    ensures no_memory { result ≢ Err VortexError.OutOfMemory }
    ensures same { IfOk result (λ cast. option_map T.number cast ≡ option_map S.number row) }
    ensures valid { IfOk result (λ cast. nullability ≡ NonNullable → IsSome cast) }
{
    match row {
        None => null_row(nullability),
        Some(item) => {
            let number = cast_number(item)?;
            Ok(Some(number))
        }
    }
}

// The numbers as items of the type `T`, with 0 under null.
fn cast_items<S: NativePType, T: NativePType, A: Allocator + Copy>(
    alloc: A,
    items: &[S],
    validity: &Validity<A>,
    nullability: Nullability,
) -> VortexResult<(Vec<T, A>, Validity<A>)>
    requires { HasLength (form_of validity.now) (length items.now) }
    ensures refused { IsRefusedBy (first_fault (cast_row_fault (column.Primitive T.PTYPE nullability))
        (single_rows (OfNumbers (primitive_with S.PTYPE (map S.number items.now) (form_of validity.now))))) result }
    ensures cast { IfOk result (λ parts. AreStoredAs (pos 0)
        (optional_numbers (primitive_with S.PTYPE (map S.number items.now) (form_of validity.now)))
        nullability (map T.number parts.0.items) (form_of parts.1)) }
{
    let cast = cast_all::<S, T, A>(alloc, items, validity, nullability)?;
    match computed_validity(alloc, validity, items.len(), nullability) {
        Ok(rows) => Ok((cast, rows)),
        Err(error) => {
            drop(cast);
            Err(error)
        }
    }
}

// The numbers in the type `T`, with 0 in place of null. What is valid is asked once, where no row is null.
fn cast_all<S: NativePType, T: NativePType, A: Allocator + Copy>(
    alloc: A,
    items: &[S],
    validity: &Validity<A>,
    nullability: Nullability,
) -> VortexResult<Vec<T, A>>
    requires { HasLength (form_of validity.now) (length items.now) }
    ensures refused { IsRefusedBy (first_fault (cast_row_fault (column.Primitive T.PTYPE nullability))
        (single_rows (OfNumbers (primitive_with S.PTYPE (map S.number items.now) (form_of validity.now))))) result }
    ensures cast { IfOk result (λ cast. map T.number cast.items ≡ map (λ row. unwrap_or row (pos 0))
        (optional_numbers (primitive_with S.PTYPE (map S.number items.now) (form_of validity.now)))) }
{
    match validity {
        Validity::NonNullable => cast_valid::<S, T, A>(alloc, items),
        Validity::AllValid => cast_valid::<S, T, A>(alloc, items),
        Validity::AllInvalid => cast_rows::<S, T, A>(alloc, items, validity, nullability),
        Validity::Bits(bits) => match nullability {
            Nullability::Nullable => cast_nullable::<S, T, A>(alloc, items, bits),
            Nullability::NonNullable => cast_rows::<S, T, A>(alloc, items, validity, nullability),
        },
    }
}

// Numbers, none of which is null, in the type `T`. All are converted, so that no branch is taken for any of them.
fn cast_valid<S: NativePType, T: NativePType, A: Allocator>(
    alloc: A,
    items: &[S],
) -> VortexResult<Vec<T, A>>
    ensures refused { IsRefusedBy (first_fault (number_fault (column.Primitive T.PTYPE NonNullable))
        (map S.number items.now)) result }
    ensures cast { IfOk result (λ cast. map T.number cast.items ≡ map S.number items.now) }
{
    let mut cast = Vec::with_capacity(alloc, items.len())?;
    let mut all_fit = true;
    for item in items {
        let (number, fits) = cast_or_zero::<S, T>(*item);
        cast.push_reserved(number);
        all_fit = all_fit & fits;
    }
    if all_fit {
        Ok(cast)
    } else {
        drop(cast);
        Err(VortexError::CastOutOfRange)
    }
}

// The numbers in the type `T` where null may stay, with 0 in place of it. What is stored under null is cast too, and 0
// is put there then. Only if a number does not fit, the rows are looked at one by one: it may be under null.
fn cast_nullable<S: NativePType, T: NativePType, A: Allocator + Copy>(
    alloc: A,
    items: &[S],
    bits: &BitBuffer<A>,
) -> VortexResult<Vec<T, A>>
    requires { length bits.now ≡ length items.now }
    ensures refused { IsRefusedBy (first_fault (number_fault (column.Primitive T.PTYPE NonNullable)) (map (λ row.
        unwrap_or row (pos 0)) (optionals (map S.number items.now) bits.now))) result }
    ensures cast { IfOk result (λ cast. map T.number cast.items ≡
        map (λ row. unwrap_or row (pos 0)) (optionals (map S.number items.now) bits.now)) }
{
    match cast_valid::<S, T, A>(alloc, items) {
        Ok(cast) => Ok(with_item_at_nulls(cast, bits, T::default())),
        Err(VortexError::OutOfMemory) => Err(VortexError::OutOfMemory),
        Err(_) => cast_shown::<S, T, A>(alloc, items, bits),
    }
}

// The numbers in the type `T` where null may stay, with 0 put in place of each null before the cast: each type has 0.
fn cast_shown<S: NativePType, T: NativePType, A: Allocator + Copy>(
    alloc: A,
    items: &[S],
    bits: &BitBuffer<A>,
) -> VortexResult<Vec<T, A>>
    requires { length bits.now ≡ length items.now }
    ensures refused { IsRefusedBy (first_fault (number_fault (column.Primitive T.PTYPE NonNullable)) (map (λ row.
        unwrap_or row (pos 0)) (optionals (map S.number items.now) bits.now))) result }
    ensures cast { IfOk result (λ cast. map T.number cast.items ≡
        map (λ row. unwrap_or row (pos 0)) (optionals (map S.number items.now) bits.now)) }
{
    let shown = items_by_bits(alloc, items, bits, S::default())?;
    let cast = cast_valid::<S, T, A>(alloc, &shown);
    drop(shown);
    cast
}

// The numbers in the type `T`, with 0 in place of null where that may stay, row by row.
fn cast_rows<S: NativePType, T: NativePType, A: Allocator + Copy>(
    alloc: A,
    items: &[S],
    validity: &Validity<A>,
    nullability: Nullability,
) -> VortexResult<Vec<T, A>>
    requires { HasLength (form_of validity.now) (length items.now) }
    ensures refused { IsRefusedBy (first_fault (cast_row_fault (column.Primitive T.PTYPE nullability))
        (single_rows (OfNumbers (primitive_with S.PTYPE (map S.number items.now) (form_of validity.now))))) result }
    ensures cast { IfOk result (λ cast. map T.number cast.items ≡ map (λ row. unwrap_or row (pos 0))
        (optional_numbers (primitive_with S.PTYPE (map S.number items.now) (form_of validity.now)))) }
{
    let mut cast = Vec::with_capacity(alloc, items.len())?;
    for row in 0..items.len() {
        let item = item_at(items, validity, row);
        match cast_row::<S, T>(item, nullability) {
            Ok(number) => cast.push_reserved(number.unwrap_or(T::default())),
            Err(error) => {
                drop(cast);
                return Err(error);
            }
        }
    }
    Ok(cast)
}

// The numbers as a column of the type `T`.
fn cast_column<S: NativePType, T: NativePType, A: Allocator + Copy>(
    alloc: A,
    items: &[S],
    validity: &Validity<A>,
    nullability: Nullability,
) -> VortexResult<PrimitiveArray<A>>
    requires { HasLength (form_of validity.now) (length items.now) }
    ensures refused { IsRefusedBy (first_fault (cast_row_fault (column.Primitive T.PTYPE nullability))
        (single_rows (OfNumbers (primitive_with S.PTYPE (map S.number items.now) (form_of validity.now))))) result }
    ensures made { IfOk result (λ array. IsMade
        (primitive_rows (primitive_with S.PTYPE (map S.number items.now) (form_of validity.now)))
        (column.Primitive T.PTYPE nullability) (OfNumbers array)) }
{
    let (cast, rows) = cast_items::<S, T, A>(alloc, items, validity, nullability)?;
    Ok(PrimitiveArray::new_unchecked(T::wrap(cast), rows))
}

// The numbers as a column of the native type.
fn cast_native<S: NativePType, A: Allocator + Copy>(
    alloc: A,
    items: &[S],
    validity: &Validity<A>,
    ptype: PType,
    nullability: Nullability,
) -> VortexResult<PrimitiveArray<A>>
    requires { HasLength (form_of validity.now) (length items.now) }
    ensures refused { IsRefusedBy (first_fault (cast_row_fault (column.Primitive ptype nullability))
        (single_rows (OfNumbers (primitive_with S.PTYPE (map S.number items.now) (form_of validity.now))))) result }
    ensures made { IfOk result (λ array. IsMade
        (primitive_rows (primitive_with S.PTYPE (map S.number items.now) (form_of validity.now)))
        (column.Primitive ptype nullability) (OfNumbers array)) }
{
    match ptype {
        PType::U8 => cast_column::<S, u8, A>(alloc, items, validity, nullability),
        PType::U16 => cast_column::<S, u16, A>(alloc, items, validity, nullability),
        PType::U32 => cast_column::<S, u32, A>(alloc, items, validity, nullability),
        PType::U64 => cast_column::<S, u64, A>(alloc, items, validity, nullability),
        PType::I8 => cast_column::<S, i8, A>(alloc, items, validity, nullability),
        PType::I16 => cast_column::<S, i16, A>(alloc, items, validity, nullability),
        PType::I32 => cast_column::<S, i32, A>(alloc, items, validity, nullability),
        PType::I64 => cast_column::<S, i64, A>(alloc, items, validity, nullability),
    }
}
