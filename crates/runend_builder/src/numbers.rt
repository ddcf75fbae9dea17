//! Integers of one native type, which grow.
ghost use Rattle.std.specs.Prelude.{◌≡◌, ◌≤◌, ◌++◌, [], IfOk, IsOkUnless, OnErr, OnOk, drop, length, map};
ghost use Rattle.column_base.specs.Numbers.{numbers, ptype_of};
ghost use Rattle.runend_builder.specs.Items.{numbers_in, ptype_in};

use column_core::{NativePType, PType, PrimitiveValues, VortexError, VortexResult};
use std::alloc::Allocator;
use std::mem::replace;

/// Holds integers of one native type, in order, as they are stored.
#[derive(Drop)]
pub(crate) enum NumberItems<A: Allocator> {
    U8(Vec<u8, A>),
    U16(Vec<u16, A>),
    U32(Vec<u32, A>),
    U64(Vec<u64, A>),
    I8(Vec<i8, A>),
    I16(Vec<i16, A>),
    I32(Vec<i32, A>),
    I64(Vec<i64, A>),
}

/// Returns no integers of the type.
pub(crate) fn no_numbers<A: Allocator>(alloc: A, ptype: PType) -> NumberItems<A>
    ensures none { numbers_in result ≡ [] }
    ensures typed { ptype_in result ≡ ptype }
{
    match ptype {
        PType::U8 => NumberItems::U8(Vec::new(alloc)),
        PType::U16 => NumberItems::U16(Vec::new(alloc)),
        PType::U32 => NumberItems::U32(Vec::new(alloc)),
        PType::U64 => NumberItems::U64(Vec::new(alloc)),
        PType::I8 => NumberItems::I8(Vec::new(alloc)),
        PType::I16 => NumberItems::I16(Vec::new(alloc)),
        PType::I32 => NumberItems::I32(Vec::new(alloc)),
        PType::I64 => NumberItems::I64(Vec::new(alloc)),
    }
}

/// Appends the numbers of the same type from number `start` on. Refused only as `OutOfMemory`, and then the others stay
/// as they are.
pub(crate) fn append_numbers<A: Allocator>(
    items: &mut NumberItems<A>,
    part: &PrimitiveValues<A>,
    start: usize,
) -> VortexResult<()>
    requires typed { ptype_of part.now ≡ ptype_in items.old }
    requires within { start ≤ length (numbers part.now) }
    ensures only { IsOkUnless result VortexError.OutOfMemory }
    ensures numbers { OnOk result (numbers_in items.new ≡ numbers_in items.old ++ drop start (numbers part.now)) }
    ensures kept { OnErr result (numbers_in items.new ≡ numbers_in items.old) }
    ensures typed { ptype_in items.new ≡ ptype_in items.old }
{
    match items {
        NumberItems::U8(items) => append_part(items, part, start),
        NumberItems::U16(items) => append_part(items, part, start),
        NumberItems::U32(items) => append_part(items, part, start),
        NumberItems::U64(items) => append_part(items, part, start),
        NumberItems::I8(items) => append_part(items, part, start),
        NumberItems::I16(items) => append_part(items, part, start),
        NumberItems::I32(items) => append_part(items, part, start),
        NumberItems::I64(items) => append_part(items, part, start),
    }
}

/// Returns a copy of the numbers as a column stores them. Refused only as `OutOfMemory`.
pub(crate) fn copied_numbers<A: Allocator + Copy>(
    alloc: A,
    items: &NumberItems<A>,
) -> VortexResult<PrimitiveValues<A>>
    ensures only { IsOkUnless result VortexError.OutOfMemory }
    ensures numbers { IfOk result (λ values. numbers values ≡ numbers_in items.now) }
    ensures typed { IfOk result (λ values. ptype_of values ≡ ptype_in items.now) }
{
    match items {
        NumberItems::U8(items) => copied(alloc, items),
        NumberItems::U16(items) => copied(alloc, items),
        NumberItems::U32(items) => copied(alloc, items),
        NumberItems::U64(items) => copied(alloc, items),
        NumberItems::I8(items) => copied(alloc, items),
        NumberItems::I16(items) => copied(alloc, items),
        NumberItems::I32(items) => copied(alloc, items),
        NumberItems::I64(items) => copied(alloc, items),
    }
}

/// Returns the numbers themselves as a column stores them: none is copied, and none stays. Not refused where memory
/// runs out.
pub(crate) fn taken_numbers<A: Allocator + Copy>(
    alloc: A,
    items: &mut NumberItems<A>,
) -> PrimitiveValues<A>
    ensures numbers { numbers result ≡ numbers_in items.old }
    ensures typed { ptype_of result ≡ ptype_in items.old }
    ensures none { numbers_in items.new ≡ [] }
    ensures same_type { ptype_in items.new ≡ ptype_in items.old }
{
    match items {
        NumberItems::U8(items) => taken(alloc, items),
        NumberItems::U16(items) => taken(alloc, items),
        NumberItems::U32(items) => taken(alloc, items),
        NumberItems::U64(items) => taken(alloc, items),
        NumberItems::I8(items) => taken(alloc, items),
        NumberItems::I16(items) => taken(alloc, items),
        NumberItems::I32(items) => taken(alloc, items),
        NumberItems::I64(items) => taken(alloc, items),
    }
}

// Appends the numbers of the type from number `start` on.
fn append_part<T: NativePType, A: Allocator>(
    items: &mut Vec<T, A>,
    part: &PrimitiveValues<A>,
    start: usize,
) -> VortexResult<()>
    requires typed { ptype_of part.now ≡ T.PTYPE }
    requires within { start ≤ length (numbers part.now) }
    ensures only { IsOkUnless result VortexError.OutOfMemory }
    ensures numbers { OnOk result (map T.number items.new.items ≡
        map T.number items.old.items ++ drop start (numbers part.now)) }
    ensures kept { OnErr result (items.new.items ≡ items.old.items) }
{
    let Some(stored) = T::slice_of(part) else {
        unreachable!()
    };
    items.extend_from_slice(&stored[start..])?;
    Ok(())
}

fn copied<T: NativePType, A: Allocator + Copy>(
    alloc: A,
    items: &[T],
) -> VortexResult<PrimitiveValues<A>>
    ensures only { IsOkUnless result VortexError.OutOfMemory }
    ensures numbers { IfOk result (λ values. numbers values ≡ map T.number items.now) }
    ensures typed { IfOk result (λ values. ptype_of values ≡ T.PTYPE) }
{
    Ok(T::wrap(Vec::from_slice(alloc, items)?))
}

fn taken<T: NativePType, A: Allocator + Copy>(alloc: A, items: &mut Vec<T, A>) -> PrimitiveValues<A>
    ensures numbers { numbers result ≡ map T.number items.old.items }
    ensures typed { ptype_of result ≡ T.PTYPE }
    ensures none { items.new.items ≡ [] }
{
    T::wrap(replace(items, Vec::new(alloc)))
}
