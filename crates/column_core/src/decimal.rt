//! Flat columns of decimals.
ghost use Rattle.std.specs.Prelude.{◌≡◌, ◌<◌, ◌↔◌, IsErrOf, slice_range, Some, length, map, option_map, slice_get, IfOk, IfErr, IsOk, IsOkUnless, IsSomeAnd, IsTrue, []};
ghost use Rattle.column_base.specs.ValidityForm.{AllNull, HasLength, IsNormal, length_of};
ghost use Rattle.column_base.specs.Validity.{form_of};
ghost use Rattle.column_base.specs.declared.dtype.DecimalDType.{DecimalDType};
ghost use Rattle.column_base.specs.declared.dtype.Nullability.{Nullability};
ghost use Rattle.column_base.specs.declared.dtype.DType.TheVariants as column;
ghost use Rattle.column_core.specs.Value.{Single, DecimalNumber};
ghost use Rattle.column_core.specs.DecimalForm.{decimal_with, decimal_rows, decimal_dtype_of};
ghost use Rattle.column_core.specs.Ranges.{IsBadRange};
ghost use Rattle.column_core.specs.Refusal.{range_fault, IsRefusedBy};
ghost use Rattle.column_core.specs.ScalarView.{sees, IsViewOf};

use crate::view::ScalarView;
use column_base::{Buffer, DType, DecimalDType, Validity, VortexError, VortexResult};
use std::alloc::Allocator;
use std::marker::Model;
use std::ops::Range;

/// Holds decimals of one precision and scale, and says which rows are null. A decimal is stored as the integer that it
/// is times 10 to the power of the scale, and that number is not tested against the precision. Under null a number is
/// stored that no row shows.
#[derive(Drop)]
pub struct DecimalArray<A: Allocator> {
    values: Buffer<i128, A>,
    decimal: DecimalDType,
    validity: Validity<A>,
}

impl<A: Allocator> Model for DecimalArray<A> {
    ghost use Rattle.std.specs.Prelude.{length};
    ghost use Rattle.column_base.specs.ValidityForm.{HasLength};
    ghost use Rattle.column_base.specs.Validity.{form_of};
    ghost use Rattle.column_core.specs.DecimalForm.{DecimalForm, decimal_with};

    ghost Value = { DecimalForm };

    ghost view = { λ a. decimal_with a.decimal a.values.items (form_of a.validity) };

    ghost invariant = { λ a. HasLength (form_of a.validity) (length a.values.items) };
}

impl<A: Allocator + Copy> DecimalArray<A> {
    /// Returns the column of these integers of decimals, null where the validity says so. Refused only as
    /// `ColumnLength`, with both lengths, where the validity is of another number of rows, and not where memory runs
    /// out.
    pub fn try_new(
        values: Vec<i128, A>,
        decimal_dtype: DecimalDType,
        validity: Validity<A>,
    ) -> VortexResult<Self>
        ensures ok { IfOk result (λ array. array ≡ decimal_with decimal_dtype values.items (form_of validity)) }
        ensures accepts { IsOk result ↔ HasLength (form_of validity) (length values.items) }
        ensures refused { IfErr result (λ error. IsSomeAnd (length_of (form_of validity))
            (λ count. error ≡ VortexError.ColumnLength (length values.items) count)) }
    {
        if let Some(count) = validity.len() {
            if count != values.len() {
                return Err(VortexError::ColumnLength {
                    left: values.len(),
                    right: count,
                });
            }
        }
        Ok(DecimalArray {
            values: Buffer::shared(values),
            decimal: decimal_dtype,
            validity,
        })
    }

    /// Returns the column of parts that `try_new` accepts.
    pub fn new_unchecked(
        values: Vec<i128, A>,
        decimal_dtype: DecimalDType,
        validity: Validity<A>,
    ) -> Self
        requires { HasLength (form_of validity) (length values.items) }
        ensures { result ≡ decimal_with decimal_dtype values.items (form_of validity) }
    {
        DecimalArray {
            values: Buffer::shared(values),
            decimal: decimal_dtype,
            validity,
        }
    }
}

impl<A: Allocator> DecimalArray<A> {
    /// Returns how many rows there are.
    pub fn len(&self) -> usize
        ensures numbers { result ≡ length self.now.numbers }
        ensures rows { result ≡ length (decimal_rows self.now) }
    {
        self.values.len()
    }

    /// Returns whether the column has no rows.
    pub fn is_empty(&self) -> bool
        ensures { IsTrue result ↔ (self.now.numbers ≡ []) }
    {
        self.values.is_empty()
    }

    /// Returns the precision and the scale of the rows.
    pub fn decimal_dtype(&self) -> DecimalDType
        ensures { result ≡ self.now.decimal }
    {
        self.decimal
    }

    /// Returns the type of the rows.
    pub fn dtype(&self) -> DType
        ensures { result ≡ decimal_dtype_of self.now }
    {
        DType::Decimal(self.decimal, self.validity.nullability())
    }

    /// Returns the integers of the decimals as they are stored, under null too.
    pub fn values(&self) -> &[i128]
        ensures { result.now ≡ self.now.numbers }
    {
        self.values.as_slice()
    }

    /// Returns which rows are valid.
    pub fn validity(&self) -> &Validity<A>
        ensures form { form_of result.now ≡ self.now.validity }
        ensures counted { HasLength self.now.validity (length self.now.numbers) }
    {
        &self.validity
    }

    /// Returns the integers of the decimals, their precision and scale, and the validity.
    pub fn into_parts(self) -> (Buffer<i128, A>, DecimalDType, Validity<A>)
        ensures whole { self ≡ decimal_with result.1 result.0.items (form_of result.2) }
        ensures counted { HasLength (form_of result.2) (length result.0.items) }
    {
        (self.values, self.decimal, self.validity)
    }

    /// Returns the row at `index`.
    pub fn get(&self, index: usize) -> ScalarView<'_, A>
        requires { index < length self.now.numbers }
        ensures row { slice_get (map (option_map Single) (decimal_rows self.now)) index ≡ Some (sees result) }
        ensures of_type { IsViewOf (decimal_dtype_of self.now) result }
    {
        if self.validity.is_valid(index) {
            decimal_view(self.values.as_slice(), index)
        } else {
            ScalarView::Null
        }
    }
}

impl<A: Allocator + Copy> DecimalArray<A> {
    /// Returns a copy of the column in its form. Shares the buffers that are shared, and copies the others. Refused
    /// only as `OutOfMemory`.
    pub fn try_clone(&self, alloc: A) -> VortexResult<DecimalArray<A>>
        ensures only { IsOkUnless result VortexError.OutOfMemory }
        ensures form { IfOk result (λ array. array ≡ self.now) }
    {
        let values = self.values.try_clone(alloc)?;
        let validity = self.validity.try_clone(alloc)?;
        Ok(DecimalArray {
            values,
            decimal: self.decimal,
            validity,
        })
    }

    /// Returns a copy of the column in its form, with buffers that nothing else shares: a longer buffer that these are
    /// a part of may then be freed. Refused only as `OutOfMemory`.
    pub fn compact(&self, alloc: A) -> VortexResult<DecimalArray<A>>
        ensures only { IsOkUnless result VortexError.OutOfMemory }
        ensures form { IfOk result (λ array. array ≡ self.now) }
    {
        let values = self.values.compact(alloc)?;
        let validity = self.validity.compact(alloc)?;
        Ok(DecimalArray {
            values,
            decimal: self.decimal,
            validity,
        })
    }

    /// Returns the rows from `range.start` to `range.end - 1`, with the numbers as they are stored. Shares the buffers
    /// that are shared, and copies the others. Refused as `BadRange`, with both bounds and the number of rows, exactly
    /// where the range begins after its end or ends after the last row, before any memory is taken; else only as
    /// `OutOfMemory`.
    pub fn slice(&self, alloc: A, range: Range<usize>) -> VortexResult<DecimalArray<A>>
        ensures refused { let count = length (decimal_rows self.now) in
            IsErrOf result (VortexError.BadRange range.start range.end count) ↔ IsBadRange range.start range.end count }
        ensures only { ¬ IsBadRange range.start range.end (length (decimal_rows self.now)) →
            IsOkUnless result VortexError.OutOfMemory }
        ensures refusal { IsRefusedBy (range_fault range.start range.end (length (decimal_rows self.now))) result }
        ensures rows { IfOk result (λ part. decimal_rows part ≡
            slice_range (decimal_rows self.now) range.start range.end) }
        ensures dtype { IfOk result (λ part. decimal_dtype_of part ≡ decimal_dtype_of self.now) }
        ensures stored { IfOk result (λ part. part.numbers ≡ slice_range self.now.numbers range.start range.end) }
        ensures normal { IfOk result (λ part. IsNormal part.validity) }
        ensures empty { IfOk result (λ part. part.validity ≡ AllNull → range.start < range.end) }
    {
        let length = self.len();
        if range.start > range.end || range.end > length {
            return Err(VortexError::BadRange {
                start: range.start,
                stop: range.end,
                length,
            });
        }
        let values = self.values.slice(alloc, range.start..range.end)?;
        let validity = self.validity.slice(alloc, range)?;
        Ok(DecimalArray {
            values,
            decimal: self.decimal,
            validity,
        })
    }
}

// The decimal at `index`, seen.
fn decimal_view<A: Allocator>(numbers: &[i128], index: usize) -> ScalarView<'_, A>
    requires { index < length numbers.now }
    ensures row { option_map (λ n. Some (Single (DecimalNumber n))) (slice_get numbers.now index) ≡ Some (sees result) }
    ensures of_type { (decimal : DecimalDType) (nullability : Nullability) →
        IsViewOf (column.Decimal decimal nullability) result }
{
    ScalarView::Decimal(numbers[index])
}
