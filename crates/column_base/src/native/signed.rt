//! The signed types.
ghost use Rattle.column_base.specs.Number.{signed_numbered};
ghost use Rattle.column_base.specs.declared.dtype.PType.TheVariants.{I8, I16, I32, I64};

use super::NativePType;
use crate::dtype::PType;
use crate::values::PrimitiveValues;
use num_traits::cast;
use shared_buffer::Buffer;
use std::alloc::Allocator;
use std::mem;

impl NativePType for i8 {
    const PTYPE: PType = PType::I8;

    ghost PTYPE = { I8 };

    ghost number = { λ n. n };

    ghost law = { signed_numbered };

    fn widen(self) -> i128 {
        i128::from(self)
    }

    fn narrow(n: i128) -> Option<i8> {
        cast(n)
    }

    fn empty<A: Allocator>(alloc: A) -> PrimitiveValues<A> {
        PrimitiveValues::I8(Buffer::from_vec(Vec::new(alloc)))
    }

    fn swap_in<A: Allocator>(items: &mut Buffer<i8, A>, values: &mut PrimitiveValues<A>) {
        if let PrimitiveValues::I8(own) = values {
            mem::swap(own, items);
        }
    }

    fn slice_of<A: Allocator>(values: &PrimitiveValues<A>) -> Option<&[i8]> {
        match values {
            PrimitiveValues::I8(items) => Some(items.as_slice()),
            _ => None,
        }
    }

    fn into_buffer<A: Allocator>(values: PrimitiveValues<A>) -> Option<Buffer<i8, A>> {
        match values {
            PrimitiveValues::I8(items) => Some(items),
            _ => None,
        }
    }
}

impl NativePType for i16 {
    const PTYPE: PType = PType::I16;

    ghost PTYPE = { I16 };

    ghost number = { λ n. n };

    ghost law = { signed_numbered };

    fn widen(self) -> i128 {
        i128::from(self)
    }

    fn narrow(n: i128) -> Option<i16> {
        cast(n)
    }

    fn empty<A: Allocator>(alloc: A) -> PrimitiveValues<A> {
        PrimitiveValues::I16(Buffer::from_vec(Vec::new(alloc)))
    }

    fn swap_in<A: Allocator>(items: &mut Buffer<i16, A>, values: &mut PrimitiveValues<A>) {
        if let PrimitiveValues::I16(own) = values {
            mem::swap(own, items);
        }
    }

    fn slice_of<A: Allocator>(values: &PrimitiveValues<A>) -> Option<&[i16]> {
        match values {
            PrimitiveValues::I16(items) => Some(items.as_slice()),
            _ => None,
        }
    }

    fn into_buffer<A: Allocator>(values: PrimitiveValues<A>) -> Option<Buffer<i16, A>> {
        match values {
            PrimitiveValues::I16(items) => Some(items),
            _ => None,
        }
    }
}

impl NativePType for i32 {
    const PTYPE: PType = PType::I32;

    ghost PTYPE = { I32 };

    ghost number = { λ n. n };

    ghost law = { signed_numbered };

    fn widen(self) -> i128 {
        i128::from(self)
    }

    fn narrow(n: i128) -> Option<i32> {
        cast(n)
    }

    fn empty<A: Allocator>(alloc: A) -> PrimitiveValues<A> {
        PrimitiveValues::I32(Buffer::from_vec(Vec::new(alloc)))
    }

    fn swap_in<A: Allocator>(items: &mut Buffer<i32, A>, values: &mut PrimitiveValues<A>) {
        if let PrimitiveValues::I32(own) = values {
            mem::swap(own, items);
        }
    }

    fn slice_of<A: Allocator>(values: &PrimitiveValues<A>) -> Option<&[i32]> {
        match values {
            PrimitiveValues::I32(items) => Some(items.as_slice()),
            _ => None,
        }
    }

    fn into_buffer<A: Allocator>(values: PrimitiveValues<A>) -> Option<Buffer<i32, A>> {
        match values {
            PrimitiveValues::I32(items) => Some(items),
            _ => None,
        }
    }
}

impl NativePType for i64 {
    const PTYPE: PType = PType::I64;

    ghost PTYPE = { I64 };

    ghost number = { λ n. n };

    ghost law = { signed_numbered };

    fn widen(self) -> i128 {
        i128::from(self)
    }

    fn narrow(n: i128) -> Option<i64> {
        cast(n)
    }

    fn empty<A: Allocator>(alloc: A) -> PrimitiveValues<A> {
        PrimitiveValues::I64(Buffer::from_vec(Vec::new(alloc)))
    }

    fn swap_in<A: Allocator>(items: &mut Buffer<i64, A>, values: &mut PrimitiveValues<A>) {
        if let PrimitiveValues::I64(own) = values {
            mem::swap(own, items);
        }
    }

    fn slice_of<A: Allocator>(values: &PrimitiveValues<A>) -> Option<&[i64]> {
        match values {
            PrimitiveValues::I64(items) => Some(items.as_slice()),
            _ => None,
        }
    }

    fn into_buffer<A: Allocator>(values: PrimitiveValues<A>) -> Option<Buffer<i64, A>> {
        match values {
            PrimitiveValues::I64(items) => Some(items),
            _ => None,
        }
    }
}
