//! The unsigned types.
ghost use Rattle.std.specs.Prelude.{pos, refl};
ghost use Rattle.column_base.specs.Number.{unsigned_numbered};
ghost use Rattle.column_base.specs.declared.dtype.PType.TheVariants.{U8, U16, U32, U64};

use super::{NativePType, UnsignedPType};
use crate::dtype::PType;
use crate::values::PrimitiveValues;
use num_traits::cast;
use shared_buffer::Buffer;
use std::alloc::Allocator;
use std::mem;

impl NativePType for u8 {
    const PTYPE: PType = PType::U8;

    ghost PTYPE = { U8 };

    ghost number = { λ n. pos n };

    ghost law = { unsigned_numbered };

    fn widen(self) -> i128 {
        i128::from(self)
    }

    fn narrow(n: i128) -> Option<u8> {
        cast(n)
    }

    fn empty<A: Allocator>(alloc: A) -> PrimitiveValues<A> {
        PrimitiveValues::U8(Buffer::from_vec(Vec::new(alloc)))
    }

    fn swap_in<A: Allocator>(items: &mut Buffer<u8, A>, values: &mut PrimitiveValues<A>) {
        if let PrimitiveValues::U8(own) = values {
            mem::swap(own, items);
        }
    }

    fn slice_of<A: Allocator>(values: &PrimitiveValues<A>) -> Option<&[u8]> {
        match values {
            PrimitiveValues::U8(items) => Some(items.as_slice()),
            _ => None,
        }
    }

    fn into_buffer<A: Allocator>(values: PrimitiveValues<A>) -> Option<Buffer<u8, A>> {
        match values {
            PrimitiveValues::U8(items) => Some(items),
            _ => None,
        }
    }
}

impl NativePType for u16 {
    const PTYPE: PType = PType::U16;

    ghost PTYPE = { U16 };

    ghost number = { λ n. pos n };

    ghost law = { unsigned_numbered };

    fn widen(self) -> i128 {
        i128::from(self)
    }

    fn narrow(n: i128) -> Option<u16> {
        cast(n)
    }

    fn empty<A: Allocator>(alloc: A) -> PrimitiveValues<A> {
        PrimitiveValues::U16(Buffer::from_vec(Vec::new(alloc)))
    }

    fn swap_in<A: Allocator>(items: &mut Buffer<u16, A>, values: &mut PrimitiveValues<A>) {
        if let PrimitiveValues::U16(own) = values {
            mem::swap(own, items);
        }
    }

    fn slice_of<A: Allocator>(values: &PrimitiveValues<A>) -> Option<&[u16]> {
        match values {
            PrimitiveValues::U16(items) => Some(items.as_slice()),
            _ => None,
        }
    }

    fn into_buffer<A: Allocator>(values: PrimitiveValues<A>) -> Option<Buffer<u16, A>> {
        match values {
            PrimitiveValues::U16(items) => Some(items),
            _ => None,
        }
    }
}

impl NativePType for u32 {
    const PTYPE: PType = PType::U32;

    ghost PTYPE = { U32 };

    ghost number = { λ n. pos n };

    ghost law = { unsigned_numbered };

    fn widen(self) -> i128 {
        i128::from(self)
    }

    fn narrow(n: i128) -> Option<u32> {
        cast(n)
    }

    fn empty<A: Allocator>(alloc: A) -> PrimitiveValues<A> {
        PrimitiveValues::U32(Buffer::from_vec(Vec::new(alloc)))
    }

    fn swap_in<A: Allocator>(items: &mut Buffer<u32, A>, values: &mut PrimitiveValues<A>) {
        if let PrimitiveValues::U32(own) = values {
            mem::swap(own, items);
        }
    }

    fn slice_of<A: Allocator>(values: &PrimitiveValues<A>) -> Option<&[u32]> {
        match values {
            PrimitiveValues::U32(items) => Some(items.as_slice()),
            _ => None,
        }
    }

    fn into_buffer<A: Allocator>(values: PrimitiveValues<A>) -> Option<Buffer<u32, A>> {
        match values {
            PrimitiveValues::U32(items) => Some(items),
            _ => None,
        }
    }
}

impl NativePType for u64 {
    const PTYPE: PType = PType::U64;

    ghost PTYPE = { U64 };

    ghost number = { λ n. pos n };

    ghost law = { unsigned_numbered };

    fn widen(self) -> i128 {
        i128::from(self)
    }

    fn narrow(n: i128) -> Option<u64> {
        cast(n)
    }

    fn empty<A: Allocator>(alloc: A) -> PrimitiveValues<A> {
        PrimitiveValues::U64(Buffer::from_vec(Vec::new(alloc)))
    }

    fn swap_in<A: Allocator>(items: &mut Buffer<u64, A>, values: &mut PrimitiveValues<A>) {
        if let PrimitiveValues::U64(own) = values {
            mem::swap(own, items);
        }
    }

    fn slice_of<A: Allocator>(values: &PrimitiveValues<A>) -> Option<&[u64]> {
        match values {
            PrimitiveValues::U64(items) => Some(items.as_slice()),
            _ => None,
        }
    }

    fn into_buffer<A: Allocator>(values: PrimitiveValues<A>) -> Option<Buffer<u64, A>> {
        match values {
            PrimitiveValues::U64(items) => Some(items),
            _ => None,
        }
    }
}

impl UnsignedPType for u8 {
    ghost natural = { λ n. n };

    ghost natural_law = { λ n. refl };

    ghost unsigned_law = { tt };

    fn to_u64(self) -> u64 {
        u64::from(self)
    }
}

impl UnsignedPType for u16 {
    ghost natural = { λ n. n };

    ghost natural_law = { λ n. refl };

    ghost unsigned_law = { tt };

    fn to_u64(self) -> u64 {
        u64::from(self)
    }
}

impl UnsignedPType for u32 {
    ghost natural = { λ n. n };

    ghost natural_law = { λ n. refl };

    ghost unsigned_law = { tt };

    fn to_u64(self) -> u64 {
        u64::from(self)
    }
}

impl UnsignedPType for u64 {
    ghost natural = { λ n. n };

    ghost natural_law = { λ n. refl };

    ghost unsigned_law = { tt };

    fn to_u64(self) -> u64 {
        self
    }
}
