//! Flat columns of integers.
ghost use Rattle.std.specs.Prelude.{◌≡◌, ◌≢◌, ◌<◌, ◌↔◌, IsErrOf, slice_range, Some, length, map, option_map, slice_get, IfOk, IfErr, IsOk, IsOkUnless, IsSomeAnd, IsTrue, [], pos};
ghost use Rattle.column_base.specs.Numbers.{numbers, ptype_of};
ghost use Rattle.column_base.specs.declared.dtype.Nullability.{Nullability};
ghost use Rattle.column_base.specs.declared.dtype.DType.TheVariants as column;
ghost use Rattle.column_base.specs.ValidityForm.{AllNull, HasLength, IsNormal, length_of};
ghost use Rattle.column_base.specs.Validity.{form_of};
ghost use Rattle.column_core.specs.Value.{Single, Number};
ghost use Rattle.column_core.specs.PrimitiveForm.{primitive_dtype, primitive_rows};
ghost use Rattle.column_core.specs.Primitive.{primitive_of};
ghost use Rattle.column_core.specs.Ranges.{IsBadRange};
ghost use Rattle.column_core.specs.Refusal.{range_fault, IsRefusedBy};
ghost use Rattle.column_core.specs.ScalarView.{sees, IsViewOf};

use crate::view::ScalarView;
use column_base::{
    DType, Nullability, PType, PrimitiveValues, Validity, VortexError, VortexResult,
};
use std::alloc::Allocator;
use std::marker::Model;
use std::ops::Range;

/// Holds integers of one native type, and says which rows are null. Under null a number is stored that no row shows.
#[derive(Drop)]
pub struct PrimitiveArray<A: Allocator> {
    values: PrimitiveValues<A>,
    validity: Validity<A>,
}

impl<A: Allocator> Model for PrimitiveArray<A> {
    ghost use Rattle.std.specs.Prelude.{length};
    ghost use Rattle.column_base.specs.Numbers.{numbers};
    ghost use Rattle.column_base.specs.ValidityForm.{HasLength};
    ghost use Rattle.column_base.specs.Validity.{form_of};
    ghost use Rattle.column_core.specs.PrimitiveForm.{PrimitiveForm};
    ghost use Rattle.column_core.specs.Primitive.{primitive_of};

    ghost Value = { PrimitiveForm };

    ghost view = { λ a. primitive_of a.values a.validity };

    ghost invariant = { λ a. HasLength (form_of a.validity) (length (numbers a.values)) };
}

impl<A: Allocator> PrimitiveArray<A> {
    /// Returns the column of these numbers, null where the validity says so. Refused as `ColumnLength`, with both
    /// lengths, where the validity is of another number of rows.
    pub fn try_new(values: PrimitiveValues<A>, validity: Validity<A>) -> VortexResult<Self>
        ensures ok { IfOk result (λ array. array ≡ primitive_of values validity) }
        ensures accepts { IsOk result ↔ HasLength (form_of validity) (length (numbers values)) }
        ensures refused { IfErr result (λ error. IsSomeAnd (length_of (form_of validity))
            (λ count. error ≡ VortexError.ColumnLength (length (numbers values)) count)) }
    {
        if let Some(count) = validity.len() {
            if count != values.len() {
                return Err(VortexError::ColumnLength {
                    left: values.len(),
                    right: count,
                });
            }
        }
        Ok(PrimitiveArray { values, validity })
    }

    /// Returns the column of parts that `try_new` accepts.
    pub fn new_unchecked(values: PrimitiveValues<A>, validity: Validity<A>) -> Self
        requires { HasLength (form_of validity) (length (numbers values)) }
        ensures { result ≡ primitive_of values validity }
    {
        PrimitiveArray { values, validity }
    }

    /// Returns how many rows there are.
    pub fn len(&self) -> usize
        ensures numbers { result ≡ length self.now.numbers }
        ensures rows { result ≡ length (primitive_rows self.now) }
    {
        self.values.len()
    }

    /// Returns whether the column has no rows.
    pub fn is_empty(&self) -> bool
        ensures { IsTrue result ↔ (self.now.numbers ≡ []) }
    {
        self.values.is_empty()
    }

    /// Returns the native type of the numbers.
    pub fn ptype(&self) -> PType
        ensures { result ≡ self.now.ptype }
    {
        self.values.ptype()
    }

    /// Returns the type of the rows.
    pub fn dtype(&self) -> DType
        ensures { result ≡ primitive_dtype self.now }
    {
        DType::Primitive(self.values.ptype(), self.validity.nullability())
    }

    /// Returns the numbers as they are stored, under null too.
    pub fn values(&self) -> &PrimitiveValues<A>
        ensures shows { numbers result.now ≡ self.now.numbers }
        ensures typed { ptype_of result.now ≡ self.now.ptype }
    {
        &self.values
    }

    /// Returns which rows are valid.
    pub fn validity(&self) -> &Validity<A>
        ensures form { form_of result.now ≡ self.now.validity }
        ensures counted { HasLength self.now.validity (length self.now.numbers) }
    {
        &self.validity
    }

    /// Returns the numbers and the validity.
    pub fn into_parts(self) -> (PrimitiveValues<A>, Validity<A>)
        ensures whole { self ≡ primitive_of result.0 result.1 }
        ensures counted { HasLength (form_of result.1) (length (numbers result.0)) }
    {
        (self.values, self.validity)
    }

    /// Returns the row at `index`.
    pub fn get(&self, index: usize) -> ScalarView<'_, A>
        requires { index < length self.now.numbers }
        ensures row { slice_get (map (option_map Single) (primitive_rows self.now)) index ≡ Some (sees result) }
        ensures of_type { IsViewOf (primitive_dtype self.now) result }
    {
        if self.validity.is_valid(index) {
            number_view(&self.values, index)
        } else {
            ScalarView::Null
        }
    }
}

impl<A: Allocator + Copy> PrimitiveArray<A> {
    /// Returns a copy of the column in its form. Shares the buffers that are shared, and copies the others. Refused
    /// only as `OutOfMemory`.
    pub fn try_clone(&self, alloc: A) -> VortexResult<PrimitiveArray<A>>
        ensures only { IsOkUnless result VortexError.OutOfMemory }
        ensures form { IfOk result (λ array. array ≡ self.now) }
    {
        let values = self.values.try_clone(alloc)?;
        let validity = self.validity.try_clone(alloc)?;
        Ok(PrimitiveArray { values, validity })
    }

    /// Returns a copy of the column in its form, with buffers that nothing else shares: a longer buffer that these are
    /// a part of may then be freed. Refused only as `OutOfMemory`.
    pub fn compact(&self, alloc: A) -> VortexResult<PrimitiveArray<A>>
        ensures only { IsOkUnless result VortexError.OutOfMemory }
        ensures form { IfOk result (λ array. array ≡ self.now) }
    {
        let values = self.values.compact(alloc)?;
        let validity = self.validity.compact(alloc)?;
        Ok(PrimitiveArray { values, validity })
    }

    /// Returns the rows from `range.start` to `range.end - 1`, with the numbers as they are stored. Shares the buffers
    /// that are shared, and copies the others. Refused as `BadRange`, with both bounds and the number of rows, exactly
    /// where the range begins after its end or ends after the last row, before any memory is taken; else only as
    /// `OutOfMemory`.
    pub fn slice(&self, alloc: A, range: Range<usize>) -> VortexResult<PrimitiveArray<A>>
        ensures refused { let count = length (primitive_rows self.now) in
            IsErrOf result (VortexError.BadRange range.start range.end count) ↔ IsBadRange range.start range.end count }
        ensures only { ¬ IsBadRange range.start range.end (length (primitive_rows self.now)) →
            IsOkUnless result VortexError.OutOfMemory }
        ensures refusal { IsRefusedBy (range_fault range.start range.end (length (primitive_rows self.now))) result }
        ensures rows { IfOk result (λ part. primitive_rows part ≡
            slice_range (primitive_rows self.now) range.start range.end) }
        ensures dtype { IfOk result (λ part. primitive_dtype part ≡ primitive_dtype self.now) }
        ensures stored { IfOk result (λ part. part.numbers ≡ slice_range self.now.numbers range.start range.end) }
        ensures normal { IfOk result (λ part. IsNormal part.validity) }
        ensures empty { IfOk result (λ part. part.validity ≡ AllNull → range.start < range.end) }
    {
        let length = self.len();
        if range.start > range.end || range.end > length {
            return Err(VortexError::BadRange {
                start: range.start,
                stop: range.end,
                length,
            });
        }
        let values = self.values.slice(alloc, range.start..range.end)?;
        let validity = self.validity.slice(alloc, range)?;
        Ok(PrimitiveArray { values, validity })
    }
}

// The number at `index`, as a view of an unsigned or of a signed number.
fn number_view<A: Allocator>(values: &PrimitiveValues<A>, index: usize) -> ScalarView<'_, A>
    requires { index < length (numbers values.now) }
    ensures row { option_map (λ n. Some (Single (Number n))) (slice_get (numbers values.now) index) ≡
        Some (sees result) }
    ensures of_type { (nullability : Nullability) →
        IsViewOf (column.Primitive (ptype_of values.now) nullability) result }
{
    match values {
        PrimitiveValues::U8(items) => ScalarView::Unsigned(u64::from(items[index])),
        PrimitiveValues::U16(items) => ScalarView::Unsigned(u64::from(items[index])),
        PrimitiveValues::U32(items) => ScalarView::Unsigned(u64::from(items[index])),
        PrimitiveValues::U64(items) => ScalarView::Unsigned(items[index]),
        PrimitiveValues::I8(items) => ScalarView::Signed(i64::from(items[index])),
        PrimitiveValues::I16(items) => ScalarView::Signed(i64::from(items[index])),
        PrimitiveValues::I32(items) => ScalarView::Signed(i64::from(items[index])),
        PrimitiveValues::I64(items) => ScalarView::Signed(items[index]),
    }
}
