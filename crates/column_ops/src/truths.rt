//! Operations on columns of booleans.
ghost use Rattle.std.specs.Prelude.{◌≡◌, IfOk, IsOkUnless, length};
ghost use Rattle.column_base.specs.ValidityForm.{HasLength};
ghost use Rattle.column_base.specs.Validity.{form_of};
ghost use Rattle.column_core.specs.BoolForm.{bool_with};
ghost use Rattle.column_core.specs.Leaf.{OfTruths};

use crate::fill_items::fill_items;
use crate::filter_bits::filter_bits;
use crate::keep_items::keep_items;
use crate::ops::ColumnOps;
use crate::take_items::take_bits;
use column_core::{
    BitBuffer, BitBufferMut, BoolArray, DType, Mask, ScalarValue, Validity, VortexError,
    VortexResult,
};
use std::alloc::Allocator;

impl<A: Allocator + Copy> ColumnOps<A> for BoolArray<A> {
    ghost leaf = { λ array. OfTruths array };

    fn row_count(&self) -> usize {
        self.len()
    }

    fn column_dtype(&self) -> DType {
        self.dtype()
    }

    fn take_at(
        &self,
        alloc: A,
        positions: &[u64],
        validity: &Validity<A>,
    ) -> VortexResult<BoolArray<A>> {
        let own = self.validity();
        let (bits, rows) = take_bits(alloc, self.values(), own, positions, validity)?;
        Ok(BoolArray::new_unchecked(bits, rows))
    }

    fn filter(&self, alloc: A, mask: &Mask<A>) -> VortexResult<BoolArray<A>> {
        if mask.len() != self.len() {
            return Err(VortexError::MaskLength {
                mask: mask.len(),
                length: self.len(),
            });
        }
        let (kept, rows) = filter_bits(alloc, self.values(), self.validity(), mask)?;
        Ok(BoolArray::new_unchecked(kept, rows))
    }

    fn fill_with(&self, alloc: A, value: &ScalarValue<A>) -> VortexResult<BoolArray<A>> {
        let ScalarValue::Bool(truth) = value else {
            unreachable!()
        };
        let own = items_of(alloc, self.values())?;
        let filled = fill_items(alloc, own.as_slice(), self.validity(), false, *truth);
        drop(own);
        let (filled, rows) = filled?;
        array_of(alloc, filled, rows)
    }

    fn cast_to(&self, alloc: A, dtype: DType) -> VortexResult<BoolArray<A>> {
        let own = items_of(alloc, self.values())?;
        let validity = self.validity();
        let kept = keep_items(alloc, own.as_slice(), validity, false, dtype.nullability());
        drop(own);
        let (kept, rows) = kept?;
        array_of(alloc, kept, rows)
    }
}

// The bits as items.
fn items_of<A: Allocator + Copy>(alloc: A, bits: &BitBuffer<A>) -> VortexResult<Vec<bool, A>>
    ensures only { IsOkUnless result VortexError.OutOfMemory }
    ensures same { IfOk result (λ items. items.items ≡ bits.now) }
{
    let mut items = Vec::with_capacity(alloc, bits.len())?;
    for row in 0..bits.len() {
        items.push(bits.value(row))?;
    }
    Ok(items)
}

// The column of these items and this validity.
fn array_of<A: Allocator + Copy>(
    alloc: A,
    items: Vec<bool, A>,
    validity: Validity<A>,
) -> VortexResult<BoolArray<A>>
    requires { HasLength (form_of validity) (length items.items) }
    ensures only { IsOkUnless result VortexError.OutOfMemory }
    ensures same { IfOk result (λ array. array ≡ bool_with items.items (form_of validity)) }
{
    let bits = bits_of(alloc, items.as_slice());
    drop(items);
    match bits {
        Ok(bits) => Ok(BoolArray::new_unchecked(bits, validity)),
        Err(error) => {
            drop(validity);
            Err(error)
        }
    }
}

// The items as bits.
fn bits_of<A: Allocator + Copy>(alloc: A, items: &[bool]) -> VortexResult<BitBuffer<A>>
    ensures only { IsOkUnless result VortexError.OutOfMemory }
    ensures same { IfOk result (λ bits. bits ≡ items.now) }
{
    let mut bits = BitBufferMut::with_capacity(alloc, items.len())?;
    for item in items {
        bits.append(*item)?;
    }
    Ok(bits.freeze())
}
