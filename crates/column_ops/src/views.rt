//! Operations on columns of texts or of bytes. The bytes of the buffers are shared.
ghost use Rattle.std.specs.Prelude.{◌≡◌, ◌∷◌, ◌++◌, [], IfOk, IsOkUnless};
ghost use Rattle.column_base.specs.declared.dtype.Nullability.TheVariants.{NonNullable};
ghost use Rattle.column_core.specs.VarBinForm.{IsOfKind, kind_dtype, varbin_rows, varbin_value};
ghost use Rattle.column_ops.specs.Computed.{IsMade};
ghost use Rattle.column_ops.specs.Fill.{fill_rows};
ghost use Rattle.column_core.specs.Leaf.{OfVarBins};

use crate::fill_items::fill_items;
use crate::filter_items::filter_items;
use crate::keep_items::keep_items;
use crate::ops::ColumnOps;
use crate::take_items::take_items;
use bytes::Bytes;
use column_core::{
    DType, Mask, ScalarValue, Validity, VarBinViewArray, View, VortexError, VortexResult,
};
use std::alloc::Allocator;

// The view of nothing, which is stored under null.
const NOTHING: View = View {
    buffer: 0,
    start: 0,
    size: 0,
};

impl<A: Allocator + Copy> ColumnOps<A> for VarBinViewArray<A> {
    ghost leaf = { λ array. OfVarBins array };

    fn row_count(&self) -> usize {
        self.len()
    }

    fn column_dtype(&self) -> DType {
        self.dtype()
    }

    fn take_at(
        &self,
        alloc: A,
        positions: &[u64],
        validity: &Validity<A>,
    ) -> VortexResult<VarBinViewArray<A>> {
        let own = self.validity();
        let (taken, rows) = take_items(alloc, self.views(), own, NOTHING, positions, validity)?;
        let buffers = share(alloc, self.buffers())?;
        Ok(VarBinViewArray::new_unchecked(taken, buffers, self.kind(), rows))
    }

    fn filter(&self, alloc: A, mask: &Mask<A>) -> VortexResult<VarBinViewArray<A>> {
        if mask.len() != self.len() {
            return Err(VortexError::MaskLength {
                mask: mask.len(),
                length: self.len(),
            });
        }
        let (kept, rows) = filter_items(alloc, self.views(), self.validity(), NOTHING, mask)?;
        let buffers = share(alloc, self.buffers())?;
        Ok(VarBinViewArray::new_unchecked(kept, buffers, self.kind(), rows))
    }

    fn fill_with(&self, alloc: A, value: &ScalarValue<A>) -> VortexResult<VarBinViewArray<A>> {
        match value {
            ScalarValue::Utf8(text) => fill_bytes(alloc, self, text.as_str().as_bytes()),
            ScalarValue::Binary(bytes) => fill_bytes(alloc, self, bytes.as_slice()),
            _ => unreachable!(),
        }
    }

    fn cast_to(&self, alloc: A, dtype: DType) -> VortexResult<VarBinViewArray<A>> {
        let validity = self.validity();
        let (views, rows) = keep_items(
            alloc,
            self.views(),
            validity,
            NOTHING,
            dtype.nullability(),
        )?;
        let buffers = share(alloc, self.buffers())?;
        Ok(VarBinViewArray::new_unchecked(views, buffers, self.kind(), rows))
    }
}

// A list of these buffers, whose bytes are shared.
fn share<A: Allocator + Copy>(alloc: A, buffers: &[Bytes<A>]) -> VortexResult<Vec<Bytes<A>, A>>
    ensures only { IsOkUnless result VortexError.OutOfMemory }
    ensures same { IfOk result (λ owners. owners.items ≡ buffers.now) }
{
    let mut owners = Vec::with_capacity(alloc, buffers.len())?;
    for buffer in buffers {
        owners.push(buffer.clone()?)?;
    }
    Ok(owners)
}

// The texts or bytes of the column, with these bytes in place of each null, in one more buffer.
fn fill_bytes<A: Allocator + Copy>(
    alloc: A,
    array: &VarBinViewArray<A>,
    bytes: &[u8],
) -> VortexResult<VarBinViewArray<A>>
    requires { IsOfKind array.now.kind bytes.now }
    ensures only { IsOkUnless result VortexError.OutOfMemory }
    ensures made { IfOk result (λ filled. IsMade (fill_rows (varbin_rows array.now)
        (varbin_value array.now.kind bytes.now))
        (kind_dtype array.now.kind NonNullable) (OfVarBins filled)) }
{
    let shared = array.buffers();
    let whole = View {
        buffer: shared.len(),
        start: 0,
        size: bytes.len(),
    };
    let buffers = share_with(alloc, shared, bytes)?;
    let own = array.validity();
    let (filled, rows) = fill_items(alloc, array.views(), own, NOTHING, whole)?;
    Ok(VarBinViewArray::new_unchecked(filled, buffers, array.kind(), rows))
}

// A list of these buffers, whose bytes are shared, and one more that holds these bytes.
fn share_with<A: Allocator + Copy>(
    alloc: A,
    buffers: &[Bytes<A>],
    bytes: &[u8],
) -> VortexResult<Vec<Bytes<A>, A>>
    ensures only { IsOkUnless result VortexError.OutOfMemory }
    ensures more { IfOk result (λ owners. owners.items ≡ buffers.now ++ bytes.now ∷ []) }
{
    let mut owners = share(alloc, buffers)?;
    owners.push(Bytes::copy_from_slice(alloc, bytes)?)?;
    Ok(owners)
}
