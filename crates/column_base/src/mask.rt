//! Which rows are selected.
ghost use Rattle.std.specs.Prelude.{◌≡◌, ℕ, ◌<◌, ◌↔◌, IsTrue, true, Some, [], length, slice_get, count_by, All, Contains, IfOk, IsOkUnless};
ghost use Rattle.std.specs.List.Sorted.{IsStrictlyIncreasing};
ghost use Rattle.column_base.specs.Mask.{mask_bits, IsNormalMask};

use crate::bits::{BitBuffer, BitBufferMut};
use crate::error::{VortexError, VortexResult};
use std::alloc::Allocator;

/// Says of each row whether it is selected.
#[derive(Drop)]
pub enum Mask<A: Allocator> {
    /// Selects all rows; it holds their number.
    AllTrue(usize),
    /// Selects none of the rows; it holds their number.
    AllFalse(usize),
    /// Selects the rows whose bit is true.
    Values(BitBuffer<A>),
}

impl<A: Allocator> Mask<A> {
    /// Returns the mask of these bits: `AllTrue` where no bit is false, `AllFalse` where there are bits and none is
    /// true, else one with these bits. Takes no memory.
    pub fn from_buffer(bits: BitBuffer<A>) -> Self
        ensures bits { mask_bits result ≡ bits }
        ensures normal { IsNormalMask result }
    {
        let count = bits.len();
        let selected = bits.true_count();
        if selected == count {
            Mask::AllTrue(count)
        } else if selected == 0 {
            Mask::AllFalse(count)
        } else {
            Mask::Values(bits)
        }
    }

    /// Returns how many rows there are.
    pub fn len(&self) -> usize
        ensures { result ≡ length (mask_bits self.now) }
    {
        match self {
            Mask::AllTrue(count) => *count,
            Mask::AllFalse(count) => *count,
            Mask::Values(bits) => bits.len(),
        }
    }

    /// Returns whether it has no rows.
    pub fn is_empty(&self) -> bool
        ensures { IsTrue result ↔ (mask_bits self.now ≡ []) }
    {
        match self {
            Mask::AllTrue(count) => *count == 0,
            Mask::AllFalse(count) => *count == 0,
            Mask::Values(bits) => bits.is_empty(),
        }
    }

    /// Returns how many rows are selected.
    pub fn true_count(&self) -> usize
        ensures { result ≡ count_by (λ bit. bit) (mask_bits self.now) }
    {
        match self {
            Mask::AllTrue(count) => *count,
            Mask::AllFalse(_) => 0,
            Mask::Values(bits) => bits.true_count(),
        }
    }

    /// Returns whether the row at `index` is selected.
    pub fn value(&self, index: usize) -> bool
        requires { index < length (mask_bits self.now) }
        ensures { slice_get (mask_bits self.now) index ≡ Some result }
    {
        match self {
            Mask::AllTrue(_) => true,
            Mask::AllFalse(_) => false,
            Mask::Values(bits) => bits.value(index),
        }
    }
}

impl<A: Allocator + Copy> Mask<A> {
    /// Returns the mask of `len` rows that selects those at `indices`, in the form that `from_buffer` gives. Refused
    /// only for memory.
    pub fn from_indices(alloc: A, len: usize, indices: &[usize]) -> VortexResult<Mask<A>>
        requires ascending { IsStrictlyIncreasing indices.now }
        requires in_bounds { All (λ index. index < len) indices.now }
        ensures selected { IfOk result (λ mask. (i : ℕ) → i < len → ((slice_get (mask_bits mask) i ≡ Some true) ↔
            Contains indices.now i)) }
        ensures len { IfOk result (λ mask. length (mask_bits mask) ≡ len) }
        ensures normal { IfOk result (λ mask. IsNormalMask mask) }
        ensures only { IsOkUnless result VortexError.OutOfMemory }
    {
        let mut bits = BitBufferMut::full(alloc, false, len)?;
        for index in indices {
            bits.fill_range(*index, *index + 1, true);
        }
        Ok(Mask::from_buffer(bits.freeze()))
    }

    /// Returns a copy of the mask in its form. Refused only for memory.
    pub fn try_clone(&self, alloc: A) -> VortexResult<Mask<A>>
        ensures same { IfOk result (λ copy. copy ≡ self.now) }
        ensures only { IsOkUnless result VortexError.OutOfMemory }
    {
        match self {
            Mask::AllTrue(count) => Ok(Mask::AllTrue(*count)),
            Mask::AllFalse(count) => Ok(Mask::AllFalse(*count)),
            Mask::Values(bits) => Ok(Mask::Values(bits.try_clone(alloc)?)),
        }
    }
}
