//! Operations on columns of integers.
ghost use Rattle.std.specs.Prelude.{◌≡◌, IfOk, IsOkUnless, length, map};
ghost use Rattle.column_base.specs.declared.dtype.DType.TheVariants as column;
ghost use Rattle.column_base.specs.declared.dtype.Nullability.TheVariants.{NonNullable};
ghost use Rattle.column_base.specs.Types.{HasNumber};
ghost use Rattle.column_core.specs.Value.{Number};
ghost use Rattle.column_ops.specs.Fill.{fill_rows};
ghost use Rattle.column_base.specs.Mask.{mask_bits};
ghost use Rattle.column_base.specs.ValidityForm.{HasLength, nullability_in};
ghost use Rattle.column_base.specs.Validity.{form_of, validity_flags};
ghost use Rattle.column_core.specs.Leaf.{OfNumbers};
ghost use Rattle.column_core.specs.Optionals.{optionals};
ghost use Rattle.column_core.specs.PrimitiveForm.{primitive_dtype, primitive_rows, primitive_with};
ghost use Rattle.column_ops.specs.Computed.{IsMade};
ghost use Rattle.column_ops.specs.Filter.{filter_rows};
ghost use Rattle.column_ops.specs.Nullable.{either_nullable};
ghost use Rattle.column_ops.specs.Take.{ArePositions, position_numbers, take_rows};

use crate::cast_numbers::cast_values;
use crate::fill_items::fill_items;
use crate::filter_items::filter_items;
use crate::ops::ColumnOps;
use crate::take_items::take_items;
use column_base::match_each_native;
use column_core::{
    DType, Mask, NativePType, PrimitiveArray, ScalarValue, Validity, VortexError, VortexResult,
};
use std::alloc::Allocator;

impl<A: Allocator + Copy> ColumnOps<A> for PrimitiveArray<A> {
    ghost leaf = { λ array. OfNumbers array };

    fn row_count(&self) -> usize {
        self.len()
    }

    fn column_dtype(&self) -> DType {
        self.dtype()
    }

    fn take_at(
        &self,
        alloc: A,
        positions: &[u64],
        validity: &Validity<A>,
    ) -> VortexResult<PrimitiveArray<A>> {
        let own = self.validity();
        match_each_native!(self.values(), items => take_numbers(alloc, items.as_slice(), own, positions, validity))
    }

    fn filter(&self, alloc: A, mask: &Mask<A>) -> VortexResult<PrimitiveArray<A>> {
        if mask.len() != self.len() {
            return Err(VortexError::MaskLength {
                mask: mask.len(),
                length: self.len(),
            });
        }
        let own = self.validity();
        match_each_native!(self.values(), items => filter_numbers(alloc, items.as_slice(), own, mask))
    }

    fn fill_with(&self, alloc: A, value: &ScalarValue<A>) -> VortexResult<PrimitiveArray<A>> {
        match value {
            ScalarValue::Unsigned(number) => fill_values(alloc, self, i128::from(*number)),
            ScalarValue::Signed(number) => fill_values(alloc, self, i128::from(*number)),
            _ => unreachable!(),
        }
    }

    fn cast_to(&self, alloc: A, dtype: DType) -> VortexResult<PrimitiveArray<A>> {
        let DType::Primitive(ptype, nullability) = dtype else {
            unreachable!()
        };
        cast_values(alloc, self, ptype, nullability)
    }
}

// The numbers at these positions, null for null.
fn take_numbers<T: NativePType, A: Allocator + Copy>(
    alloc: A,
    items: &[T],
    validity: &Validity<A>,
    positions: &[u64],
    places: &Validity<A>,
) -> VortexResult<PrimitiveArray<A>>
    requires fits { HasLength (form_of validity.now) (length items.now) }
    requires counted { HasLength (form_of places.now) (length positions.now) }
    requires within { ArePositions (optionals positions.now (validity_flags places.now (length positions.now)))
        (length items.now) }
    ensures only { IsOkUnless result VortexError.OutOfMemory }
    ensures made { IfOk result (λ array. IsMade
        (take_rows (primitive_rows (primitive_with T.PTYPE (map T.number items.now) (form_of validity.now)))
        (position_numbers (optionals positions.now (validity_flags places.now (length positions.now)))))
        (column.Primitive T.PTYPE (either_nullable (nullability_in (form_of validity.now))
        (nullability_in (form_of places.now))))
        (OfNumbers array)) }
{
    let (taken, rows) = take_items(alloc, items, validity, T::default(), positions, places)?;
    Ok(PrimitiveArray::new_unchecked(T::wrap(taken), rows))
}

// The numbers at which the mask is true.
fn filter_numbers<T: NativePType, A: Allocator + Copy>(
    alloc: A,
    items: &[T],
    validity: &Validity<A>,
    mask: &Mask<A>,
) -> VortexResult<PrimitiveArray<A>>
    requires fits { HasLength (form_of validity.now) (length items.now) }
    requires masked { length (mask_bits mask.now) ≡ length items.now }
    ensures only { IsOkUnless result VortexError.OutOfMemory }
    ensures made { IfOk result (λ array. IsMade
        (filter_rows (mask_bits mask.now) (primitive_rows (primitive_with T.PTYPE (map T.number items.now)
        (form_of validity.now))))
        (column.Primitive T.PTYPE (nullability_in (form_of validity.now)))
        (OfNumbers array)) }
{
    let (kept, rows) = filter_items(alloc, items, validity, T::default(), mask)?;
    Ok(PrimitiveArray::new_unchecked(T::wrap(kept), rows))
}

// The numbers of the column, with this one in place of each null.
fn fill_values<A: Allocator + Copy>(
    alloc: A,
    array: &PrimitiveArray<A>,
    number: i128,
) -> VortexResult<PrimitiveArray<A>>
    requires { HasNumber array.now.ptype number }
    ensures only { IsOkUnless result VortexError.OutOfMemory }
    ensures made { IfOk result (λ filled. IsMade (fill_rows (primitive_rows array.now) (Number number))
        (column.Primitive array.now.ptype NonNullable) (OfNumbers filled)) }
{
    let validity = array.validity();
    match_each_native!(array.values(), items => fill_numbers(alloc, items.as_slice(), validity, number))
}

// The numbers, with this one in place of each null.
fn fill_numbers<T: NativePType, A: Allocator + Copy>(
    alloc: A,
    items: &[T],
    validity: &Validity<A>,
    number: i128,
) -> VortexResult<PrimitiveArray<A>>
    requires fits { HasLength (form_of validity.now) (length items.now) }
    requires has { HasNumber T.PTYPE number }
    ensures only { IsOkUnless result VortexError.OutOfMemory }
    ensures made { IfOk result (λ array. IsMade
        (fill_rows (primitive_rows (primitive_with T.PTYPE (map T.number items.now) (form_of validity.now)))
        (Number number))
        (column.Primitive T.PTYPE NonNullable) (OfNumbers array)) }
{
    let Some(value) = T::narrow(number) else {
        unreachable!()
    };
    let (filled, rows) = fill_items(alloc, items, validity, T::default(), value)?;
    Ok(PrimitiveArray::new_unchecked(T::wrap(filled), rows))
}
