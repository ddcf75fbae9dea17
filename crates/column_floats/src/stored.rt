//! Flat columns of keys from those of bits, and back.
ghost use Rattle.std.specs.Prelude.{◌≡◌, IfOk, IsOkUnless, map, pos, true, unsigned_abs};
ghost use Rattle.column_base.specs.Numbers.{numbers, ptype_of};
ghost use Rattle.column_core.specs.Leaf.{OfNumbers, single_rows};
ghost use Rattle.column_core.specs.PrimitiveForm.{primitive_dtype};
ghost use Rattle.column_floats.specs.FloatRows.{bits_of_key, bits_row, floats_of, key_row};
ghost use Rattle.column_floats.specs.Formats.{bits_dtype, bits_ptype, format_of_width, holds_bits, holds_keys, keys_dtype, keys_ptype};
ghost use Rattle.column_floats.specs.Patterns.{stored_key};

use crate::patterns::FloatPatterns;
use crate::widths::FloatBits;
use column_core::{NativePType, PrimitiveArray, PrimitiveValues, VortexError, VortexResult};
use std::alloc::Allocator;

/// Returns the keys of the floats with these bits, null where the bits are. Refused only as `OutOfMemory`.
pub fn keys_of<A: Allocator + Copy>(
    alloc: A,
    bits: &PrimitiveArray<A>,
    patterns: FloatPatterns,
) -> VortexResult<PrimitiveArray<A>>
    requires { holds_bits bits.now.ptype ≡ true }
    ensures only { IsOkUnless result VortexError.OutOfMemory }
    ensures rows { IfOk result (λ keys. single_rows (OfNumbers keys) ≡
        map (key_row (stored_key patterns (format_of_width bits.now.ptype))) (single_rows (OfNumbers bits.now))) }
    ensures dtype { IfOk result (λ keys. primitive_dtype keys ≡ keys_dtype (primitive_dtype bits.now)) }
{
    let validity = bits.validity().try_clone(alloc)?;
    let keys = key_values(alloc, bits.values(), patterns)?;
    Ok(PrimitiveArray::new_unchecked(keys, validity))
}

/// Returns the bits of the floats with these keys, null where the keys are. Refused only as `OutOfMemory`.
pub fn bits_of<A: Allocator + Copy>(
    alloc: A,
    keys: &PrimitiveArray<A>,
) -> VortexResult<PrimitiveArray<A>>
    requires { holds_keys keys.now.ptype ≡ true }
    ensures only { IsOkUnless result VortexError.OutOfMemory }
    ensures rows { IfOk result (λ bits. single_rows (OfNumbers bits) ≡
        map bits_row (floats_of (primitive_dtype keys.now) (single_rows (OfNumbers keys.now)))) }
    ensures dtype { IfOk result (λ bits. primitive_dtype bits ≡ bits_dtype (primitive_dtype keys.now)) }
{
    let validity = keys.validity().try_clone(alloc)?;
    let bits = bit_values(alloc, keys.values())?;
    Ok(PrimitiveArray::new_unchecked(bits, validity))
}

// Returns the keys of the floats with these bits. Refused only as `OutOfMemory`.
fn key_values<A: Allocator + Copy>(
    alloc: A,
    bits: &PrimitiveValues<A>,
    patterns: FloatPatterns,
) -> VortexResult<PrimitiveValues<A>>
    requires { holds_bits (ptype_of bits.now) ≡ true }
    ensures only { IsOkUnless result VortexError.OutOfMemory }
    ensures keys { IfOk result (λ keys. numbers keys ≡ map (λ n.
        stored_key patterns (format_of_width (ptype_of bits.now)) (unsigned_abs n)) (numbers bits.now)) }
    ensures typed { IfOk result (λ keys. ptype_of keys ≡ keys_ptype (ptype_of bits.now)) }
{
    match bits {
        PrimitiveValues::U16(items) => keys_from::<u16, i16, A>(alloc, items.as_slice(), patterns),
        PrimitiveValues::U32(items) => keys_from::<u32, i32, A>(alloc, items.as_slice(), patterns),
        PrimitiveValues::U64(items) => keys_from::<u64, i64, A>(alloc, items.as_slice(), patterns),
        _ => unreachable!(),
    }
}

// Returns the same of bits in one type. Refused only as `OutOfMemory`.
fn keys_from<B: FloatBits<K>, K: NativePType, A: Allocator + Copy>(
    alloc: A,
    bits: &[B],
    patterns: FloatPatterns,
) -> VortexResult<PrimitiveValues<A>>
    ensures only { IsOkUnless result VortexError.OutOfMemory }
    ensures keys { IfOk result (λ keys. numbers keys ≡
        map (λ n. stored_key patterns B.format (unsigned_abs n)) (map B.number bits.now)) }
    ensures typed { IfOk result (λ keys. ptype_of keys ≡ K.PTYPE) }
{
    let mut keys: Vec<K, A> = Vec::with_capacity(alloc, bits.len())?;
    for row in 0..bits.len() {
        keys.push(bits[row].key(patterns))?;
    }
    Ok(K::wrap(keys))
}

// Returns the bits of the floats with these keys. Refused only as `OutOfMemory`.
fn bit_values<A: Allocator + Copy>(
    alloc: A,
    keys: &PrimitiveValues<A>,
) -> VortexResult<PrimitiveValues<A>>
    requires { holds_keys (ptype_of keys.now) ≡ true }
    ensures only { IsOkUnless result VortexError.OutOfMemory }
    ensures bits { IfOk result (λ bits. numbers bits ≡ map (λ n.
        pos (bits_of_key (format_of_width (ptype_of keys.now)) n)) (numbers keys.now)) }
    ensures typed { IfOk result (λ bits. ptype_of bits ≡ bits_ptype (ptype_of keys.now)) }
{
    match keys {
        PrimitiveValues::I16(items) => bits_from::<u16, i16, A>(alloc, items.as_slice()),
        PrimitiveValues::I32(items) => bits_from::<u32, i32, A>(alloc, items.as_slice()),
        PrimitiveValues::I64(items) => bits_from::<u64, i64, A>(alloc, items.as_slice()),
        _ => unreachable!(),
    }
}

// Returns the same of keys in one type. Refused only as `OutOfMemory`.
fn bits_from<B: FloatBits<K>, K: NativePType, A: Allocator + Copy>(
    alloc: A,
    keys: &[K],
) -> VortexResult<PrimitiveValues<A>>
    ensures only { IsOkUnless result VortexError.OutOfMemory }
    ensures bits { IfOk result (λ bits. numbers bits ≡
        map (λ n. pos (bits_of_key B.format n)) (map K.number keys.now)) }
    ensures typed { IfOk result (λ bits. ptype_of bits ≡ B.PTYPE) }
{
    let mut bits: Vec<B, A> = Vec::with_capacity(alloc, keys.len())?;
    for row in 0..keys.len() {
        bits.push(B::of_key(keys[row]))?;
    }
    Ok(B::wrap(bits))
}
