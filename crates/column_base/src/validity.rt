//! Which rows are there, and which are null.
ghost use Rattle.std.specs.Prelude.{◌≡◌, ◌-◌, ◌<◌, ◌≤◌, ◌↔◌, ℕ, true, false, length, slice_range, All, IfOk, IfSome, IsNone, IsOkUnless, IsTrue, count_by};
ghost use Rattle.column_base.specs.ValidityForm.{NoneNull, AllNull, HasLength, HasRow, IsNormal, flags, flag_at, length_of, nullability_in};
ghost use Rattle.column_base.specs.Validity.{form_of, validity_flags};

use crate::bits::BitBuffer;
use crate::dtype::Nullability;
use crate::error::{VortexError, VortexResult};
use std::alloc::Allocator;
use std::ops::Range;

/// Says which rows of a column are null.
#[derive(Drop)]
pub enum Validity<A: Allocator> {
    /// Says that the type has no null, so that no row is null.
    NonNullable,
    /// Says that the type has null, and no row is null.
    AllValid,
    /// Says that all rows are null.
    AllInvalid,
    /// Holds a bit for each row, which is null where the bit is false.
    Bits(BitBuffer<A>),
}

impl<A: Allocator> Validity<A> {
    /// Returns the validity of these bits: `AllValid` where no bit is false, `AllInvalid` where there are bits and none
    /// is true, else one with these bits. Takes no memory. Where the first 64 bits are of both kinds, no other is read.
    pub fn from_bits(bits: BitBuffer<A>) -> Self
        ensures flags { validity_flags result (length bits) ≡ bits }
        ensures fits { HasLength (form_of result) (length bits) }
        ensures normal { IsNormal (form_of result) }
        ensures all_valid { (form_of result ≡ NoneNull) ↔ All (λ bit. bit ≡ true) bits }
        ensures all_null { (form_of result ≡ AllNull) ↔ ((0 < length bits) × All (λ bit. bit ≡ false) bits) }
    {
        if begins_mixed(&bits) {
            return Validity::Bits(bits);
        }
        let valid = bits.true_count();
        if valid == bits.len() {
            Validity::AllValid
        } else if valid == 0 {
            Validity::AllInvalid
        } else {
            Validity::Bits(bits)
        }
    }

    /// Returns whether the type of the rows has null.
    pub fn nullability(&self) -> Nullability
        ensures { result ≡ nullability_in (form_of self.now) }
    {
        match self {
            Validity::NonNullable => Nullability::NonNullable,
            Validity::AllValid => Nullability::Nullable,
            Validity::AllInvalid => Nullability::Nullable,
            Validity::Bits(_) => Nullability::Nullable,
        }
    }

    /// Returns for how many rows it has bits, and `None` where it has no bits, since it then serves any number of rows.
    pub fn len(&self) -> Option<usize>
        ensures { result ≡ length_of (form_of self.now) }
    {
        match self {
            Validity::NonNullable => None,
            Validity::AllValid => None,
            Validity::AllInvalid => None,
            Validity::Bits(bits) => Some(bits.len()),
        }
    }

    /// Returns whether the row at `index` is valid.
    pub fn is_valid(&self, index: usize) -> bool
        requires { HasRow (form_of self.now) index }
        ensures { result ≡ flag_at (form_of self.now) index }
    {
        match self {
            Validity::NonNullable => true,
            Validity::AllValid => true,
            Validity::AllInvalid => false,
            Validity::Bits(bits) => bits.value(index),
        }
    }
}

impl<A: Allocator + Copy> Validity<A> {
    /// Returns a copy of the validity in its form. Refused only for memory.
    pub fn try_clone(&self, alloc: A) -> VortexResult<Validity<A>>
        ensures same { IfOk result (λ copy. form_of copy ≡ form_of self.now) }
        ensures only { IsOkUnless result VortexError.OutOfMemory }
    {
        match self {
            Validity::NonNullable => Ok(Validity::NonNullable),
            Validity::AllValid => Ok(Validity::AllValid),
            Validity::AllInvalid => Ok(Validity::AllInvalid),
            Validity::Bits(bits) => Ok(Validity::Bits(bits.try_clone(alloc)?)),
        }
    }

    /// Returns a copy of the validity in its form, with bits that nothing else shares. Refused only for memory.
    pub fn compact(&self, alloc: A) -> VortexResult<Validity<A>>
        ensures same { IfOk result (λ copy. form_of copy ≡ form_of self.now) }
        ensures only { IsOkUnless result VortexError.OutOfMemory }
    {
        match self {
            Validity::NonNullable => Ok(Validity::NonNullable),
            Validity::AllValid => Ok(Validity::AllValid),
            Validity::AllInvalid => Ok(Validity::AllInvalid),
            Validity::Bits(bits) => Ok(Validity::Bits(bits.compact(alloc)?)),
        }
    }

    /// Returns the validity of the rows from `range.start` to `range.end - 1`, with bits only where some of them are
    /// null and others are not. Where the type has null, the validity of no rows is `AllValid`. Refused only for
    /// memory.
    pub fn slice(&self, alloc: A, range: Range<usize>) -> VortexResult<Validity<A>>
        requires ordered { range.start ≤ range.end }
        requires in_bounds { IfSome (length_of (form_of self.now)) (λ count. range.end ≤ count) }
        ensures flags { IfOk result (λ part. (count : ℕ) → HasLength (form_of self.now) count → range.end ≤ count →
            validity_flags part (range.end - range.start) ≡
            slice_range (validity_flags self.now count) range.start range.end) }
        ensures fits { IfOk result (λ part. HasLength (form_of part) (range.end - range.start)) }
        ensures normal { IfOk result (λ part. IsNormal (form_of part)) }
        ensures empty { IfOk result (λ part. form_of part ≡ AllNull → range.start < range.end) }
        ensures without_bits { IfOk result (λ part. IsNone (length_of (form_of self.now)) → range.start < range.end →
            form_of part ≡ form_of self.now) }
        ensures nullability { IfOk result (λ part. nullability_in (form_of part) ≡ nullability_in (form_of self.now)) }
        ensures only { IsOkUnless result VortexError.OutOfMemory }
    {
        match self {
            Self::NonNullable => Ok(Self::NonNullable),
            Self::AllValid => Ok(Self::AllValid),
            Self::AllInvalid if range.start == range.end => Ok(Self::AllValid),
            Self::AllInvalid => Ok(Self::AllInvalid),
            Self::Bits(bits) => Ok(Self::from_bits(bits.slice(alloc, range)?)),
        }
    }
}

// Are bits of both kinds among the first 64? The others need not be counted then.
fn begins_mixed<A: Allocator>(bits: &BitBuffer<A>) -> bool
    ensures some { IsTrue result → 0 < count_by (λ bit. bit) bits.now }
    ensures not_all { IsTrue result → count_by (λ bit. bit) bits.now < length bits.now }
{
    let count = bits.len().min(64);
    let valid = bits.count_range(0, count);
    0 < valid && valid < count
}
