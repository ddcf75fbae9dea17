//! Native integers: what generic code may rely on, and the eight types that meet it.
ghost use Rattle.std.specs.Prelude.{◌≡◌, ◌↔◌, ℤ, ℕ, pos, [], map, IsSome, IfSome};
ghost use Rattle.column_base.specs.Number.{IsNumbered, Narrows};
ghost use Rattle.column_base.specs.Numbers.{numbers, ptype_of};
ghost use Rattle.column_base.specs.Types.{HasNumber, IsUnsigned};
ghost use Rattle.column_base.specs.declared.dtype.PType.{PType};

mod signed;
mod unsigned;

use crate::dtype::PType;
use crate::values::PrimitiveValues;
use shared_buffer::Buffer;
use std::alloc::Allocator;

/// Says what a native type of integers can do. Equality and order are those of the numbers, a number has at most one
/// value, and the default is 0.
pub trait NativePType: Copy + Default + Eq + Ord + Drop {
    const PTYPE: PType;

    ghost PTYPE: { PType };

    // The number of a value.
    ghost number: { Self → ℤ };

    /// Returns the value's number.
    fn widen(self) -> i128
        ensures { result ≡ number self };

    /// Returns the value of the number `n`, or `None` exactly where the type does not have it.
    fn narrow(n: i128) -> Option<Self>
        ensures { Narrows number (HasNumber PTYPE) n result };

    /// Returns a buffer of this type without numbers.
    fn empty<A: Allocator>(alloc: A) -> PrimitiveValues<A>
        ensures shows { numbers result ≡ [] }
        ensures typed { ptype_of result ≡ PTYPE };

    /// Replaces the numbers of a buffer of this type by the items.
    fn swap_in<A: Allocator>(items: &mut Buffer<Self, A>, values: &mut PrimitiveValues<A>)
        requires { ptype_of values.old ≡ PTYPE }
        ensures shows { numbers values.new ≡ map number items.old.items }
        ensures typed { ptype_of values.new ≡ PTYPE };

    /// Returns the numbers of this vector, shared as `Buffer::shared` shares them. Copies nothing, and is not refused
    /// where memory runs out.
    final fn wrap<A: Allocator + Copy>(items: Vec<Self, A>) -> PrimitiveValues<A>
        ensures shows { numbers result ≡ map number items.items }
        ensures typed { ptype_of result ≡ PTYPE }
    {
        let alloc = *items.allocator();
        Self::from_buffer(alloc, Buffer::shared(items))
    }

    /// Returns the numbers of this buffer. Copies nothing and takes no memory.
    final fn from_buffer<A: Allocator + Copy>(
        alloc: A,
        mut items: Buffer<Self, A>,
    ) -> PrimitiveValues<A>
        ensures shows { numbers result ≡ map number items.items }
        ensures typed { ptype_of result ≡ PTYPE }
    {
        let mut values = Self::empty(alloc);
        Self::swap_in(&mut items, &mut values);
        values
    }

    /// Returns the items of a buffer, where it is of this type.
    fn slice_of<A: Allocator>(values: &PrimitiveValues<A>) -> Option<&[Self]>
        ensures typed { IsSome result ↔ (ptype_of values.now ≡ PTYPE) }
        ensures shows { IfSome result (λ items. map number items.now ≡ numbers values.now) };

    /// Returns the items of a buffer by value, where it is of this type.
    fn into_buffer<A: Allocator>(values: PrimitiveValues<A>) -> Option<Buffer<Self, A>>
        ensures typed { IsSome result ↔ (ptype_of values ≡ PTYPE) }
        ensures shows { IfSome result (λ items. map number items.items ≡ numbers values) };

    ghost law: { IsNumbered Self.eq Self.cmp Self.is_default number };
}

/// Says that a type is one of the four unsigned ones.
pub trait UnsignedPType: NativePType {
    // The number of a value, as a natural number.
    ghost natural: { Self → ℕ };

    /// Returns the value as a `u64`, which has the numbers of all four types.
    fn to_u64(self) -> u64
        ensures { result ≡ natural self };

    ghost natural_law: { (a : Self) → Self.number a ≡ pos (natural a) };

    ghost unsigned_law: { IsUnsigned Self.PTYPE };
}
