//! Operations on columns of decimals.
ghost use Rattle.column_core.specs.Leaf.{OfDecimals};

use crate::fill_items::fill_items;
use crate::filter_items::filter_items;
use crate::keep_items::keep_items;
use crate::ops::ColumnOps;
use crate::take_items::take_items;
use column_core::{DType, DecimalArray, Mask, ScalarValue, Validity, VortexError, VortexResult};
use std::alloc::Allocator;

impl<A: Allocator + Copy> ColumnOps<A> for DecimalArray<A> {
    ghost leaf = { λ array. OfDecimals array };

    fn row_count(&self) -> usize {
        self.len()
    }

    fn column_dtype(&self) -> DType {
        self.dtype()
    }

    fn take_at(
        &self,
        alloc: A,
        positions: &[u64],
        validity: &Validity<A>,
    ) -> VortexResult<DecimalArray<A>> {
        let own = self.validity();
        let (taken, rows) = take_items(alloc, self.values(), own, 0, positions, validity)?;
        Ok(DecimalArray::new_unchecked(taken, self.decimal_dtype(), rows))
    }

    fn filter(&self, alloc: A, mask: &Mask<A>) -> VortexResult<DecimalArray<A>> {
        if mask.len() != self.len() {
            return Err(VortexError::MaskLength {
                mask: mask.len(),
                length: self.len(),
            });
        }
        let (kept, rows) = filter_items(alloc, self.values(), self.validity(), 0, mask)?;
        Ok(DecimalArray::new_unchecked(kept, self.decimal_dtype(), rows))
    }

    fn fill_with(&self, alloc: A, value: &ScalarValue<A>) -> VortexResult<DecimalArray<A>> {
        let ScalarValue::Decimal(number) = value else {
            unreachable!()
        };
        let (filled, rows) = fill_items(alloc, self.values(), self.validity(), 0, *number)?;
        Ok(DecimalArray::new_unchecked(filled, self.decimal_dtype(), rows))
    }

    fn cast_to(&self, alloc: A, dtype: DType) -> VortexResult<DecimalArray<A>> {
        let validity = self.validity();
        let (numbers, rows) = keep_items(alloc, self.values(), validity, 0, dtype.nullability())?;
        Ok(DecimalArray::new_unchecked(numbers, self.decimal_dtype(), rows))
    }
}
