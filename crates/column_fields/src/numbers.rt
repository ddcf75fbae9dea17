//! Buffers of native numbers as bytes.
ghost use Rattle.std.specs.Prelude.{◌≡◌, ◌+◌, ◌*◌, ◌++◌, length, map, pos, All, OnOk, IfOk, IsOkUnless, vec_capacity};
ghost use Rattle.column_base.specs.Types.{HasNumber};
ghost use Rattle.column_base.specs.declared.dtype.PType.TheVariants.{U8};
ghost use Rattle.column_base.specs.Numbers.{numbers, ptype_of};
ghost use Rattle.column_fields.specs.Kept.{StaysInFront};
ghost use Rattle.column_fields.specs.Room.{UsesRoom};
ghost use Rattle.column_fields.specs.NumberBytes.{number_bytes, numbers_bytes, size_of};

use crate::stored::StoredNumber;
use bytes::BufMut;
use column_base::{PType, PrimitiveValues, VortexError, VortexResult};
use std::alloc::Allocator;

/// Returns how many bytes a number of that type has.
pub fn size_of_type(ptype: PType) -> usize
    ensures { result ≡ size_of ptype }
{
    match ptype {
        PType::U8 | PType::I8 => 1,
        PType::U16 | PType::I16 => 2,
        PType::U32 | PType::I32 => 4,
        PType::U64 | PType::I64 => 8,
    }
}

/// Writes one number of a type at the end.
pub fn put_value<W: BufMut>(out: &mut W, ptype: PType, number: i128) -> VortexResult<()>
    requires { HasNumber ptype number }
    ensures ok { OnOk result (W.written out.new ≡ W.written out.old ++ number_bytes ptype number) }
    ensures room { UsesRoom result (W.spare out.old) (W.spare out.new) (length (number_bytes ptype number)) }
    ensures kept { StaysInFront (W.written out.old) (W.written out.new) }
    ensures only { IsOkUnless result VortexError.OutOfMemory }
{
    match ptype {
        PType::U8 => put_one::<u8, W>(out, number),
        PType::U16 => put_one::<u16, W>(out, number),
        PType::U32 => put_one::<u32, W>(out, number),
        PType::U64 => put_one::<u64, W>(out, number),
        PType::I8 => put_one::<i8, W>(out, number),
        PType::I16 => put_one::<i16, W>(out, number),
        PType::I32 => put_one::<i32, W>(out, number),
        PType::I64 => put_one::<i64, W>(out, number),
    }
}

fn put_one<T: StoredNumber, W: BufMut>(out: &mut W, number: i128) -> VortexResult<()>
    requires { HasNumber T.PTYPE number }
    ensures ok { OnOk result (W.written out.new ≡ W.written out.old ++ number_bytes T.PTYPE number) }
    ensures room { UsesRoom result (W.spare out.old) (W.spare out.new) (length (number_bytes T.PTYPE number)) }
    ensures kept { StaysInFront (W.written out.old) (W.written out.new) }
    ensures only { IsOkUnless result VortexError.OutOfMemory }
{
    let Some(item) = T::narrow(number) else {
        unreachable!()
    };
    item.put(out)?;
    Ok(())
}

/// Returns the number of a type that these bytes hold.
pub fn load_value(ptype: PType, bytes: &[u8]) -> i128
    requires { length bytes.now ≡ size_of ptype }
    ensures shows { number_bytes ptype result ≡ bytes.now }
    ensures fits { HasNumber ptype result }
{
    match ptype {
        PType::U8 => load_one::<u8>(bytes),
        PType::U16 => load_one::<u16>(bytes),
        PType::U32 => load_one::<u32>(bytes),
        PType::U64 => load_one::<u64>(bytes),
        PType::I8 => load_one::<i8>(bytes),
        PType::I16 => load_one::<i16>(bytes),
        PType::I32 => load_one::<i32>(bytes),
        PType::I64 => load_one::<i64>(bytes),
    }
}

fn load_one<T: StoredNumber>(bytes: &[u8]) -> i128
    requires { length bytes.now ≡ size_of T.PTYPE }
    ensures shows { number_bytes T.PTYPE result ≡ bytes.now }
    ensures fits { HasNumber T.PTYPE result }
{
    T::load(bytes).widen()
}

// Writes the numbers at the end, eight in one step.
pub(crate) fn put_all<T: StoredNumber, W: BufMut>(out: &mut W, items: &[T]) -> VortexResult<()>
    ensures ok { OnOk result
        (W.written out.new ≡ W.written out.old ++ numbers_bytes T.PTYPE (map T.number items.now)) }
    ensures room { UsesRoom result (W.spare out.old) (W.spare out.new)
        (length (numbers_bytes T.PTYPE (map T.number items.now))) }
    ensures fits { OnOk result (All (λ n. HasNumber T.PTYPE n) (map T.number items.now)) }
    ensures kept { StaysInFront (W.written out.old) (W.written out.new) }
    ensures only { IsOkUnless result VortexError.OutOfMemory }
{
    out.reserve(items.len().saturating_mul(T::size()))?;
    let mut rest = items;
    while rest.len() >= 8 {
        let (front, back) = rest.split_at(8);
        T::put_eight(out, front)?;
        rest = back;
    }
    put_each(out, rest)
}

// Writes the numbers at the end, one by one.
fn put_each<T: StoredNumber, W: BufMut>(out: &mut W, items: &[T]) -> VortexResult<()>
    ensures ok { OnOk result
        (W.written out.new ≡ W.written out.old ++ numbers_bytes T.PTYPE (map T.number items.now)) }
    ensures room { UsesRoom result (W.spare out.old) (W.spare out.new)
        (length (numbers_bytes T.PTYPE (map T.number items.now))) }
    ensures fits { OnOk result (All (λ n. HasNumber T.PTYPE n) (map T.number items.now)) }
    ensures kept { StaysInFront (W.written out.old) (W.written out.new) }
    ensures only { IsOkUnless result VortexError.OutOfMemory }
{
    for item in items {
        item.put(out)?;
    }
    Ok(())
}

// Writes numbers of one byte each at the end, which are their bytes.
fn put_u8<W: BufMut>(out: &mut W, items: &[u8]) -> VortexResult<()>
    ensures ok { OnOk result (W.written out.new ≡ W.written out.old ++ numbers_bytes U8 (map (λ n. pos n) items.now)) }
    ensures room { UsesRoom result (W.spare out.old) (W.spare out.new)
        (length (numbers_bytes U8 (map (λ n. pos n) items.now))) }
    ensures fits { OnOk result (All (λ n. HasNumber U8 n) (map (λ n. pos n) items.now)) }
    ensures kept { StaysInFront (W.written out.old) (W.written out.new) }
    ensures only { IsOkUnless result VortexError.OutOfMemory }
{
    out.put_slice(items)?;
    Ok(())
}

/// Writes the numbers of a buffer at the end.
pub fn put_values<A: Allocator, W: BufMut>(
    out: &mut W,
    values: &PrimitiveValues<A>,
) -> VortexResult<()>
    ensures ok { OnOk result (W.written out.new ≡ W.written out.old ++ numbers_bytes (ptype_of values.now)
        (numbers values.now)) }
    ensures room { UsesRoom result (W.spare out.old) (W.spare out.new)
        (length (numbers_bytes (ptype_of values.now) (numbers values.now))) }
    ensures fits { OnOk result (All (λ n. HasNumber (ptype_of values.now) n) (numbers values.now)) }
    ensures kept { StaysInFront (W.written out.old) (W.written out.new) }
    ensures only { IsOkUnless result VortexError.OutOfMemory }
{
    match values {
        PrimitiveValues::U8(items) => put_u8(out, items.as_slice()),
        PrimitiveValues::U16(items) => put_all(out, items.as_slice()),
        PrimitiveValues::U32(items) => put_all(out, items.as_slice()),
        PrimitiveValues::U64(items) => put_all(out, items.as_slice()),
        PrimitiveValues::I8(items) => put_all(out, items.as_slice()),
        PrimitiveValues::I16(items) => put_all(out, items.as_slice()),
        PrimitiveValues::I32(items) => put_all(out, items.as_slice()),
        PrimitiveValues::I64(items) => put_all(out, items.as_slice()),
    }
}

/// Returns the `count` numbers that these bytes hold. Takes memory only for them.
fn load_all<T: StoredNumber, A: Allocator>(
    alloc: A,
    bytes: &[u8],
    count: usize,
) -> VortexResult<Vec<T, A>>
    requires { length bytes.now ≡ count * size_of T.PTYPE }
    ensures shows { IfOk result (λ v. numbers_bytes T.PTYPE (map T.number v.items) ≡ bytes.now) }
    ensures counted { IfOk result (λ v. length v.items ≡ count) }
    ensures fits { IfOk result (λ v. All (λ n. HasNumber T.PTYPE n) (map T.number v.items)) }
    ensures memory { IfOk result (λ v. vec_capacity v ≡ count) }
    ensures only { IsOkUnless result VortexError.OutOfMemory }
{
    let mut items = Vec::with_capacity(alloc, count)?;
    let mut rest = bytes;
    for _row in 0..count {
        let (front, back) = rest.split_at(T::size());
        items.push_reserved(T::load(front));
        rest = back;
    }
    Ok(items)
}

fn load_as<T: StoredNumber, A: Allocator + Copy>(
    alloc: A,
    bytes: &[u8],
    count: usize,
) -> VortexResult<PrimitiveValues<A>>
    requires { length bytes.now ≡ count * size_of T.PTYPE }
    ensures typed { IfOk result (λ v. ptype_of v ≡ T.PTYPE) }
    ensures shows { IfOk result (λ v. numbers_bytes T.PTYPE (numbers v) ≡ bytes.now) }
    ensures counted { IfOk result (λ v. length (numbers v) ≡ count) }
    ensures fits { IfOk result (λ v. All (λ n. HasNumber T.PTYPE n) (numbers v)) }
    ensures only { IsOkUnless result VortexError.OutOfMemory }
{
    Ok(T::wrap(load_all::<T, A>(alloc, bytes, count)?))
}

/// Returns a buffer of the `count` numbers of a type that these bytes hold. Takes memory only for them.
pub fn load_values<A: Allocator + Copy>(
    alloc: A,
    ptype: PType,
    bytes: &[u8],
    count: usize,
) -> VortexResult<PrimitiveValues<A>>
    requires { length bytes.now ≡ count * size_of ptype }
    ensures typed { IfOk result (λ v. ptype_of v ≡ ptype) }
    ensures shows { IfOk result (λ v. numbers_bytes ptype (numbers v) ≡ bytes.now) }
    ensures counted { IfOk result (λ v. length (numbers v) ≡ count) }
    ensures fits { IfOk result (λ v. All (λ n. HasNumber ptype n) (numbers v)) }
    ensures only { IsOkUnless result VortexError.OutOfMemory }
{
    match ptype {
        PType::U8 => load_as::<u8, A>(alloc, bytes, count),
        PType::U16 => load_as::<u16, A>(alloc, bytes, count),
        PType::U32 => load_as::<u32, A>(alloc, bytes, count),
        PType::U64 => load_as::<u64, A>(alloc, bytes, count),
        PType::I8 => load_as::<i8, A>(alloc, bytes, count),
        PType::I16 => load_as::<i16, A>(alloc, bytes, count),
        PType::I32 => load_as::<i32, A>(alloc, bytes, count),
        PType::I64 => load_as::<i64, A>(alloc, bytes, count),
    }
}
