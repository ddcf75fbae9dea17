//! The values that a line of the script lists.
ghost use Rattle.std.specs.Prelude.{◌≡◌, ◌↔◌, List, ℕ, length, map, option_map, IfOk, IfSome, IsOkUnless, IsSome};
ghost use Rattle.std.specs.Iterator.{AlwaysYields, IsFinite};
ghost use Rattle.column_base.specs.Numbers.{numbers, ptype_of};
ghost use Rattle.column_base.specs.ValidityForm.{HasLength, nullability_in};
ghost use Rattle.column_base.specs.Validity.{form_of};
ghost use Rattle.column_base.specs.Mask.{mask_bits, IsNormalMask};
ghost use Rattle.column_core.specs.Optionals.{optionals};
ghost use Rattle.column_words.specs.Bits.{IsBitWord, bit_word};
ghost use Rattle.runend_script.specs.Rows.{PushesRows, ReadsNumber, ReadsRows, ReadsValue, parsed_rows, stored_ptype};
ghost use Rattle.runend_script.specs.Scalars.{ReadsOwned, ReadsScalar};

use crate::command::RowWords;
use crate::words::Words;
use column_base::{
    BitBufferMut, DType, Mask, NativePType, Nullability, PType, PrimitiveValues, Validity,
    VortexError, VortexResult,
};
use column_core::{PrimitiveArray, Scalar, ScalarValue};
use column_words::{parse_bits, parse_float, parse_integer};
use float_bits::total_key;
use std::alloc::Allocator;

/// Holds stored numbers, and says which rows are null.
#[derive(Drop)]
pub struct ParsedRows<A: Allocator> {
    pub numbers: PrimitiveValues<A>,
    pub validity: Validity<A>,
}

/// Returns the rows that the words mean, in order, or `None` exactly where one of them does not mean a row of the type.
/// Under null the number 0 is stored. Refused only as `OutOfMemory`.
pub fn read_values<'a, I: Iterator<Item = &'a str> + Drop, A: Allocator + Copy>(
    alloc: A,
    reading: RowWords,
    nullability: Nullability,
    words: I,
) -> VortexResult<Option<ParsedRows<A>>>
    requires can { I.can_next words }
    requires finite { IsFinite (I.remaining words) }
    ensures only { IsOkUnless result VortexError.OutOfMemory }
    ensures typed { IfOk result (λ read. IfSome read (λ listed. ptype_of listed.numbers ≡ stored_ptype reading)) }
    ensures nullable { IfOk result (λ read. IfSome read
        (λ listed. nullability_in (form_of listed.validity) ≡ nullability)) }
    ensures counted { IfOk result (λ read. IfSome read (λ listed.
        HasLength (form_of listed.validity) (length (numbers listed.numbers)))) }
    ensures rows { (taken : List (List ℕ)) → AlwaysYields I.next_gives (λ word. word.now) words taken →
        IfOk result (λ read. ReadsRows reading nullability taken (option_map parsed_rows read)) }
{
    match reading.stored_type() {
        PType::U8 => read_natives::<u8, I, A>(alloc, reading, nullability, words),
        PType::U16 => read_natives::<u16, I, A>(alloc, reading, nullability, words),
        PType::U32 => read_natives::<u32, I, A>(alloc, reading, nullability, words),
        PType::U64 => read_natives::<u64, I, A>(alloc, reading, nullability, words),
        PType::I8 => read_natives::<i8, I, A>(alloc, reading, nullability, words),
        PType::I16 => read_natives::<i16, I, A>(alloc, reading, nullability, words),
        PType::I32 => read_natives::<i32, I, A>(alloc, reading, nullability, words),
        PType::I64 => read_natives::<i64, I, A>(alloc, reading, nullability, words),
    }
}

/// Returns the scalar that the word means: null of the nullable type for `null`, whether rows may be null or not, and
/// otherwise the number, in the type of the rows. `None` where the word is neither `null` nor a number of the type, or
/// the rows are not integers.
pub fn read_scalar<A: Allocator>(dtype: DType, word: &str) -> Option<Scalar<A>>
    ensures { ReadsScalar dtype word.now result }
{
    let DType::Primitive(ptype, _) = dtype else {
        return None;
    };
    if word == "null" {
        return Scalar::try_new(DType::Primitive(ptype, Nullability::Nullable), None).ok();
    }
    let value = read_number(ptype, word)?;
    Scalar::try_new(dtype, Some(value)).ok()
}

// The owned value of the word's number, where the widest type of that sign has it.
fn read_number<A: Allocator>(ptype: PType, word: &str) -> Option<ScalarValue<A>>
    ensures { ReadsOwned ptype word.now result }
{
    let number = parse_integer(word)?;
    if ptype.is_unsigned_int() {
        return Some(ScalarValue::Unsigned(u64::narrow(number)?));
    }
    Some(ScalarValue::Signed(i64::narrow(number)?))
}

/// Returns the mask of the bits of the word, by `Mask::from_buffer`: a row for each `0` or `1`, selected where it is
/// `1`. `None` where a byte is neither. Refused only as `OutOfMemory`.
pub fn read_mask<A: Allocator + Copy>(alloc: A, word: &str) -> VortexResult<Option<Mask<A>>>
    ensures only { IsOkUnless result VortexError.OutOfMemory }
    ensures bits { IfOk result (λ read. IfSome read (λ mask. (bit_word (mask_bits mask) ≡ word.now) ×
        IsNormalMask mask)) }
    ensures found { IfOk result (λ read. IsSome read ↔ IsBitWord word.now) }
{
    let Some(bits) = parse_bits(alloc, word)? else {
        return Ok(None);
    };
    Ok(Some(Mask::from_buffer(bits)))
}

/// Returns the indices that the words mean, in `i64`, where `null` is a null index over a stored 0. They are nullable
/// where a word is `null`. `None` where a word is neither `null` nor a number of `i64`. Refused only as `OutOfMemory`.
pub fn read_indices<A: Allocator + Copy>(
    alloc: A,
    words: Words<'_>,
) -> VortexResult<Option<PrimitiveArray<A>>>
    ensures only { IsOkUnless result VortexError.OutOfMemory }
    ensures typed { IfOk result (λ read. IfSome read (λ indices. indices.ptype ≡ PType.I64)) }
{
    let mut nulls = words;
    let nullability = match nulls.find(|word| *word == "null") {
        Some(_) => Nullability::Nullable,
        None => Nullability::NonNullable,
    };
    let listed = read_values(alloc, RowWords::Integers(PType::I64), nullability, words)?;
    let Some(listed) = listed else {
        return Ok(None);
    };
    let indices = PrimitiveArray::new_unchecked(listed.numbers, listed.validity);
    Ok(Some(indices))
}

fn read_natives<'a, T: NativePType, I: Iterator<Item = &'a str> + Drop, A: Allocator + Copy>(
    alloc: A,
    reading: RowWords,
    nullability: Nullability,
    words: I,
) -> VortexResult<Option<ParsedRows<A>>>
    requires can { I.can_next words }
    requires finite { IsFinite (I.remaining words) }
    requires stored { T.PTYPE ≡ stored_ptype reading }
    ensures only { IsOkUnless result VortexError.OutOfMemory }
    ensures typed { IfOk result (λ read. IfSome read (λ listed. ptype_of listed.numbers ≡ T.PTYPE)) }
    ensures nullable { IfOk result (λ read. IfSome read
        (λ listed. nullability_in (form_of listed.validity) ≡ nullability)) }
    ensures counted { IfOk result (λ read. IfSome read (λ listed.
        HasLength (form_of listed.validity) (length (numbers listed.numbers)))) }
    ensures rows { (taken : List (List ℕ)) → AlwaysYields I.next_gives (λ word. word.now) words taken →
        IfOk result (λ read. ReadsRows reading nullability taken (option_map parsed_rows read)) }
{
    let mut items = Vec::new(alloc);
    let mut valid = BitBufferMut::with_capacity(alloc, 0)?;
    let read = push_rows::<T, I, A>(&mut items, &mut valid, reading, nullability, words);
    if let Ok(true) = read {
        let validity = match nullability {
            Nullability::NonNullable => Validity::NonNullable,
            Nullability::Nullable => Validity::from_bits(valid.freeze()),
        };
        let numbers = T::wrap(items);
        return Ok(Some(ParsedRows { numbers, validity }));
    }
    drop(items);
    drop(valid);
    read?;
    Ok(None)
}

// Appends the rows that the words mean to the items, and whether they are valid to the flags. False where a word does
// not mean a row of the type.
fn push_rows<'a, T: NativePType, I: Iterator<Item = &'a str> + Drop, A: Allocator + Copy>(
    items: &mut Vec<T, A>,
    valid: &mut BitBufferMut<A>,
    reading: RowWords,
    nullability: Nullability,
    words: I,
) -> VortexResult<bool>
    requires can { I.can_next words }
    requires finite { IsFinite (I.remaining words) }
    requires stored { T.PTYPE ≡ stored_ptype reading }
    requires counted { length items.old.items ≡ length valid.old }
    ensures only { IsOkUnless result VortexError.OutOfMemory }
    ensures counted { IfOk result (λ found. length items.new.items ≡ length valid.new) }
    ensures rows { (taken : List (List ℕ)) → AlwaysYields I.next_gives (λ word. word.now) words taken →
        IfOk result (λ found. PushesRows reading nullability taken
        (optionals (map T.number items.old.items) valid.old) found
        (optionals (map T.number items.new.items) valid.new)) }
{
    for word in words {
        let Some(row) = parse_row::<T>(reading, word, nullability) else {
            return Ok(false);
        };
        valid.append(row.is_some())?;
        items.push(row.unwrap_or_default())?;
    }
    Ok(true)
}

// The row that a word means: `Some(None)` for `null` where rows may be null, otherwise the number as `parse_native`
// reads it. `None` where the word does not mean a row of the type.
fn parse_row<T: NativePType>(
    reading: RowWords,
    word: &str,
    nullability: Nullability,
) -> Option<Option<T>>
    requires { T.PTYPE ≡ stored_ptype reading }
    ensures { ReadsValue T.number reading nullability word.now result }
{
    if nullability == Nullability::Nullable && word == "null" {
        return Some(None);
    }
    Some(Some(parse_native(reading, word)?))
}

// Returns the value of the number that a word means, exactly where it means one: an integer that the type has, or the
// key of a float.
fn parse_native<T: NativePType>(reading: RowWords, word: &str) -> Option<T>
    requires { T.PTYPE ≡ stored_ptype reading }
    ensures { ReadsNumber T.number reading word.now result }
{
    match reading {
        RowWords::Integers(_) => T::narrow(parse_integer(word)?),
        RowWords::Floats(format) => {
            T::narrow(i128::from(total_key(format, parse_float(format, word)?)))
        }
    }
}
