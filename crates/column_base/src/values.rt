//! Buffers of numbers of one native type.
ghost use Rattle.std.specs.Prelude.{◌≡◌, ◌<◌, ◌≤◌, ◌↔◌, Some, [], IsTrue, length, map, slice_get, slice_range, IfOk, IsOkUnless};
ghost use Rattle.column_base.specs.Numbers.{numbers, ptype_of};

use crate::dtype::PType;
use crate::error::{VortexError, VortexResult};
use crate::native::NativePType;
use shared_buffer::Buffer;
use std::alloc::Allocator;
use std::ops::Range;

/// Holds numbers of one native type, in order, in a buffer that columns may share.
#[derive(Drop)]
pub enum PrimitiveValues<A: Allocator> {
    U8(Buffer<u8, A>),
    U16(Buffer<u16, A>),
    U32(Buffer<u32, A>),
    U64(Buffer<u64, A>),
    I8(Buffer<i8, A>),
    I16(Buffer<i16, A>),
    I32(Buffer<i32, A>),
    I64(Buffer<i64, A>),
}

/// Evaluates the body with the `Buffer` of the numbers, whatever their type.
#[macro_export]
macro_rules! match_each_native {
    ($values:expr, $items:ident => $body:expr) => {
        match $values {
            $crate::PrimitiveValues::U8($items) => $body,
            $crate::PrimitiveValues::U16($items) => $body,
            $crate::PrimitiveValues::U32($items) => $body,
            $crate::PrimitiveValues::U64($items) => $body,
            $crate::PrimitiveValues::I8($items) => $body,
            $crate::PrimitiveValues::I16($items) => $body,
            $crate::PrimitiveValues::I32($items) => $body,
            $crate::PrimitiveValues::I64($items) => $body,
        }
    };
}

/// Evaluates the first body with the `Buffer` of numbers of an unsigned type, else the second. Without a second body
/// the numbers are known to be of an unsigned type.
#[macro_export]
macro_rules! match_each_unsigned {
    ($values:expr, $items:ident => $body:expr, _ => $other:expr) => {
        match $values {
            $crate::PrimitiveValues::U8($items) => $body,
            $crate::PrimitiveValues::U16($items) => $body,
            $crate::PrimitiveValues::U32($items) => $body,
            $crate::PrimitiveValues::U64($items) => $body,
            _ => $other,
        }
    };
    ($values:expr, $items:ident => $body:expr) => {
        match $values {
            $crate::PrimitiveValues::U8($items) => $body,
            $crate::PrimitiveValues::U16($items) => $body,
            $crate::PrimitiveValues::U32($items) => $body,
            $crate::PrimitiveValues::U64($items) => $body,
            _ => unreachable!(),
        }
    };
}

impl<A: Allocator> PrimitiveValues<A> {
    /// Returns how many numbers there are.
    pub fn len(&self) -> usize
        ensures { result ≡ length (numbers self.now) }
    {
        match_each_native!(self, items => items.len())
    }

    /// Returns whether it has no numbers.
    pub fn is_empty(&self) -> bool
        ensures { IsTrue result ↔ (numbers self.now ≡ []) }
    {
        self.len() == 0
    }

    /// Returns the type of the numbers.
    pub fn ptype(&self) -> PType
        ensures { result ≡ ptype_of self.now }
    {
        match_each_native!(self, items => ptype_of_items(items.as_slice()))
    }

    /// Returns the number at `index`.
    pub fn get(&self, index: usize) -> i128
        requires { index < length (numbers self.now) }
        ensures { slice_get (numbers self.now) index ≡ Some result }
    {
        match_each_native!(self, items => number_at(items.as_slice(), index))
    }
}

impl<A: Allocator + Copy> PrimitiveValues<A> {
    /// Returns the numbers of the vector, shared as `Buffer::shared` shares them. Copies nothing, and is not refused
    /// where memory runs out.
    pub fn from_vec<T: NativePType>(items: Vec<T, A>) -> PrimitiveValues<A>
        ensures shows { numbers result ≡ map T.number items.items }
        ensures typed { ptype_of result ≡ T.PTYPE }
    {
        T::wrap(items)
    }

    /// Returns a copy of the numbers, of the same type. Shares them if they are shared, and copies them otherwise.
    /// Refused only as `OutOfMemory`.
    pub fn try_clone(&self, alloc: A) -> VortexResult<PrimitiveValues<A>>
        ensures only { IsOkUnless result VortexError.OutOfMemory }
        ensures shows { IfOk result (λ values. numbers values ≡ numbers self.now) }
        ensures typed { IfOk result (λ values. ptype_of values ≡ ptype_of self.now) }
    {
        match_each_native!(self, items => clone_of(alloc, items))
    }

    /// Returns the numbers from `range.start` to `range.end - 1`, of the same type. Shares them if they are shared, and
    /// copies them otherwise. Refused only as `OutOfMemory`.
    pub fn slice(&self, alloc: A, range: Range<usize>) -> VortexResult<PrimitiveValues<A>>
        requires ordered { range.start ≤ range.end }
        requires in_bounds { range.end ≤ length (numbers self.now) }
        ensures only { IsOkUnless result VortexError.OutOfMemory }
        ensures shows { IfOk result (λ part. numbers part ≡ slice_range (numbers self.now) range.start range.end) }
        ensures typed { IfOk result (λ part. ptype_of part ≡ ptype_of self.now) }
    {
        match_each_native!(self, items => part_of(alloc, items, range.start, range.end))
    }

    /// Returns a copy of the numbers, of the same type, that nothing else shares: a longer buffer that these are a part
    /// of may then be freed. Refused only as `OutOfMemory`.
    pub fn compact(&self, alloc: A) -> VortexResult<PrimitiveValues<A>>
        ensures only { IsOkUnless result VortexError.OutOfMemory }
        ensures shows { IfOk result (λ values. numbers values ≡ numbers self.now) }
        ensures typed { IfOk result (λ values. ptype_of values ≡ ptype_of self.now) }
    {
        match_each_native!(self, items => copy_of(alloc, items))
    }
}

fn ptype_of_items<T: NativePType>(_items: &[T]) -> PType
    ensures { result ≡ T.PTYPE }
{
    T::PTYPE
}

fn number_at<T: NativePType>(items: &[T], index: usize) -> i128
    requires { index < length items.now }
    ensures { slice_get (map T.number items.now) index ≡ Some result }
{
    items[index].widen()
}

fn clone_of<T: NativePType, A: Allocator + Copy>(
    alloc: A,
    items: &Buffer<T, A>,
) -> VortexResult<PrimitiveValues<A>>
    ensures only { IsOkUnless result VortexError.OutOfMemory }
    ensures shows { IfOk result (λ values. numbers values ≡ map T.number items.now.items) }
    ensures typed { IfOk result (λ values. ptype_of values ≡ T.PTYPE) }
{
    Ok(T::from_buffer(alloc, items.try_clone(alloc)?))
}

fn copy_of<T: NativePType, A: Allocator + Copy>(
    alloc: A,
    items: &Buffer<T, A>,
) -> VortexResult<PrimitiveValues<A>>
    ensures only { IsOkUnless result VortexError.OutOfMemory }
    ensures shows { IfOk result (λ values. numbers values ≡ map T.number items.now.items) }
    ensures typed { IfOk result (λ values. ptype_of values ≡ T.PTYPE) }
{
    Ok(T::from_buffer(alloc, items.compact(alloc)?))
}

// The numbers from `start` to `stop - 1`.
#[tactic(auto, using(crate::proofs::Ranges::slice_range_of_map))]
fn part_of<T: NativePType, A: Allocator + Copy>(
    alloc: A,
    items: &Buffer<T, A>,
    start: usize,
    stop: usize,
) -> VortexResult<PrimitiveValues<A>>
    requires ordered { start ≤ stop }
    requires in_bounds { stop ≤ length items.now.items }
    ensures only { IsOkUnless result VortexError.OutOfMemory }
    ensures shows { IfOk result (λ part. numbers part ≡ slice_range (map T.number items.now.items) start stop) }
    ensures typed { IfOk result (λ part. ptype_of part ≡ T.PTYPE) }
{
    Ok(T::from_buffer(alloc, items.slice(alloc, start..stop)?))
}
