//! Flat columns of booleans.
ghost use Rattle.std.specs.Prelude.{◌≡◌, ◌<◌, ◌↔◌, IsErrOf, slice_range, Some, length, map, option_map, slice_get, IfOk, IfErr, IsOk, IsOkUnless, IsSomeAnd, IsTrue, []};
ghost use Rattle.column_base.specs.ValidityForm.{AllNull, HasLength, IsNormal, length_of};
ghost use Rattle.column_base.specs.Validity.{form_of};
ghost use Rattle.column_core.specs.Value.{Single};
ghost use Rattle.column_core.specs.BoolForm.{bool_with, bool_rows, bool_dtype};
ghost use Rattle.column_core.specs.Ranges.{IsBadRange};
ghost use Rattle.column_core.specs.Refusal.{range_fault, IsRefusedBy};
ghost use Rattle.column_core.specs.ScalarView.{sees, IsViewOf};

use crate::view::ScalarView;
use column_base::{BitBuffer, DType, Validity, VortexError, VortexResult};
use std::alloc::Allocator;
use std::marker::Model;
use std::ops::Range;

/// Holds booleans, and says which rows are null. Under null a bit is stored that no row shows.
#[derive(Drop)]
pub struct BoolArray<A: Allocator> {
    bits: BitBuffer<A>,
    validity: Validity<A>,
}

impl<A: Allocator> Model for BoolArray<A> {
    ghost use Rattle.std.specs.Prelude.{length};
    ghost use Rattle.column_base.specs.ValidityForm.{HasLength};
    ghost use Rattle.column_base.specs.Validity.{form_of};
    ghost use Rattle.column_core.specs.BoolForm.{BoolForm, bool_with};

    ghost Value = { BoolForm };

    ghost view = { λ a. bool_with a.bits (form_of a.validity) };

    ghost invariant = { λ a. HasLength (form_of a.validity) (length a.bits) };
}

impl<A: Allocator> BoolArray<A> {
    /// Returns the column of these bits, null where the validity says so. Refused as `ColumnLength`, with both lengths,
    /// where the validity is of another number of rows.
    pub fn try_new(values: BitBuffer<A>, validity: Validity<A>) -> VortexResult<Self>
        ensures ok { IfOk result (λ array. array ≡ bool_with values (form_of validity)) }
        ensures accepts { IsOk result ↔ HasLength (form_of validity) (length values) }
        ensures refused { IfErr result (λ error. IsSomeAnd (length_of (form_of validity))
            (λ count. error ≡ VortexError.ColumnLength (length values) count)) }
    {
        if let Some(count) = validity.len() {
            if count != values.len() {
                return Err(VortexError::ColumnLength {
                    left: values.len(),
                    right: count,
                });
            }
        }
        Ok(BoolArray {
            bits: values,
            validity,
        })
    }

    /// Returns the column of parts that `try_new` accepts.
    pub fn new_unchecked(values: BitBuffer<A>, validity: Validity<A>) -> Self
        requires { HasLength (form_of validity) (length values) }
        ensures { result ≡ bool_with values (form_of validity) }
    {
        BoolArray {
            bits: values,
            validity,
        }
    }

    /// Returns how many rows there are.
    pub fn len(&self) -> usize
        ensures bits { result ≡ length self.now.bits }
        ensures rows { result ≡ length (bool_rows self.now) }
    {
        self.bits.len()
    }

    /// Returns whether the column has no rows.
    pub fn is_empty(&self) -> bool
        ensures { IsTrue result ↔ (self.now.bits ≡ []) }
    {
        self.bits.is_empty()
    }

    /// Returns the type of the rows.
    pub fn dtype(&self) -> DType
        ensures { result ≡ bool_dtype self.now }
    {
        DType::Bool(self.validity.nullability())
    }

    /// Returns the bits as they are stored, under null too.
    pub fn values(&self) -> &BitBuffer<A>
        ensures { result.now ≡ self.now.bits }
    {
        &self.bits
    }

    /// Returns which rows are valid.
    pub fn validity(&self) -> &Validity<A>
        ensures form { form_of result.now ≡ self.now.validity }
        ensures counted { HasLength self.now.validity (length self.now.bits) }
    {
        &self.validity
    }

    /// Returns the bits and the validity.
    pub fn into_parts(self) -> (BitBuffer<A>, Validity<A>)
        ensures whole { self ≡ bool_with result.0 (form_of result.1) }
        ensures counted { HasLength (form_of result.1) (length result.0) }
    {
        (self.bits, self.validity)
    }

    /// Returns the row at `index`.
    pub fn get(&self, index: usize) -> ScalarView<'_, A>
        requires { index < length self.now.bits }
        ensures row { slice_get (map (option_map Single) (bool_rows self.now)) index ≡ Some (sees result) }
        ensures of_type { IsViewOf (bool_dtype self.now) result }
    {
        if self.validity.is_valid(index) {
            ScalarView::Bool(self.bits.value(index))
        } else {
            ScalarView::Null
        }
    }
}

impl<A: Allocator + Copy> BoolArray<A> {
    /// Returns a copy of the column in its form. Shares the buffers that are shared, and copies the others. Refused
    /// only as `OutOfMemory`.
    pub fn try_clone(&self, alloc: A) -> VortexResult<BoolArray<A>>
        ensures only { IsOkUnless result VortexError.OutOfMemory }
        ensures form { IfOk result (λ array. array ≡ self.now) }
    {
        let bits = self.bits.try_clone(alloc)?;
        let validity = self.validity.try_clone(alloc)?;
        Ok(BoolArray { bits, validity })
    }

    /// Returns a copy of the column in its form, with buffers that nothing else shares: a longer buffer that these are
    /// a part of may then be freed. Refused only as `OutOfMemory`.
    pub fn compact(&self, alloc: A) -> VortexResult<BoolArray<A>>
        ensures only { IsOkUnless result VortexError.OutOfMemory }
        ensures form { IfOk result (λ array. array ≡ self.now) }
    {
        let bits = self.bits.compact(alloc)?;
        let validity = self.validity.compact(alloc)?;
        Ok(BoolArray { bits, validity })
    }

    /// Returns the rows from `range.start` to `range.end - 1`, with the bits as they are stored. Shares the bits as
    /// `BitBuffer::slice` does, and copies them otherwise. Refused as `BadRange`, with both bounds and the number of
    /// rows, exactly where the range begins after its end or ends after the last row, before any memory is taken; else
    /// only as `OutOfMemory`.
    pub fn slice(&self, alloc: A, range: Range<usize>) -> VortexResult<BoolArray<A>>
        ensures refused { let count = length (bool_rows self.now) in
            IsErrOf result (VortexError.BadRange range.start range.end count) ↔ IsBadRange range.start range.end count }
        ensures only { ¬ IsBadRange range.start range.end (length (bool_rows self.now)) →
            IsOkUnless result VortexError.OutOfMemory }
        ensures refusal { IsRefusedBy (range_fault range.start range.end (length (bool_rows self.now))) result }
        ensures rows { IfOk result (λ part. bool_rows part ≡ slice_range (bool_rows self.now) range.start range.end) }
        ensures dtype { IfOk result (λ part. bool_dtype part ≡ bool_dtype self.now) }
        ensures stored { IfOk result (λ part. part.bits ≡ slice_range self.now.bits range.start range.end) }
        ensures normal { IfOk result (λ part. IsNormal part.validity) }
        ensures empty { IfOk result (λ part. part.validity ≡ AllNull → range.start < range.end) }
    {
        let length = self.len();
        if range.start > range.end || range.end > length {
            return Err(VortexError::BadRange {
                start: range.start,
                stop: range.end,
                length,
            });
        }
        let bits = self.bits.slice(alloc, range.start..range.end)?;
        let validity = self.validity.slice(alloc, range)?;
        Ok(BoolArray { bits, validity })
    }
}
