//! Bits and columns of numbers, and parts that are joined.
use column_core::{BitBuffer, BitBufferMut, NativePType, PrimitiveArray, Validity, VortexResult};
use std::alloc::Allocator;

/// Returns a bit for each flag.
pub(crate) fn bits<A: Allocator + Copy>(alloc: A, flags: &[bool]) -> VortexResult<BitBuffer<A>> {
    let mut bits = BitBufferMut::with_capacity(alloc, flags.len())?;
    for flag in flags {
        bits.append(*flag)?;
    }
    Ok(bits.freeze())
}

/// Returns a column of a type without null.
pub(crate) fn required<T: NativePType, A: Allocator + Copy>(
    alloc: A,
    items: &[T],
) -> VortexResult<PrimitiveArray<A>> {
    let items = Vec::from_slice(alloc, items)?;
    PrimitiveArray::try_new(T::wrap(items), Validity::NonNullable)
}

/// Returns a column with a bit for each row, null where the flag is false.
pub(crate) fn nullable<T: NativePType, A: Allocator + Copy>(
    alloc: A,
    items: &[T],
    flags: &[bool],
) -> VortexResult<PrimitiveArray<A>> {
    let flags = bits(alloc, flags)?;
    match Vec::from_slice(alloc, items) {
        Ok(items) => PrimitiveArray::try_new(T::wrap(items), Validity::Bits(flags)),
        Err(error) => {
            drop(flags);
            Err(error.into())
        }
    }
}
