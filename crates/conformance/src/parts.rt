//! Bits, and columns of which run columns are made: texts and lists.
use crate::columns::{both, required};
use bytes::Bytes;
use std::alloc::Allocator;
use std::rc::Rc;
use vortex_runend::{
    ArrayRef, BitBuffer, BitBufferMut, ExecutionCtx, FlatColumn, ListViewArray, RowValidity,
    Validity, VarBinKind, VarBinViewArray, View, VortexResult,
};

/// Returns a bit for each flag.
pub(crate) fn bits<A: Allocator + Copy>(alloc: A, flags: &[bool]) -> VortexResult<BitBuffer<A>> {
    let mut bits = BitBufferMut::with_capacity(alloc, flags.len())?;
    for flag in flags {
        bits.append(*flag)?;
    }
    Ok(bits.freeze())
}

/// Returns the lists 1 2, null and 4 5 6.
pub(crate) fn three_lists<A: Allocator + Copy>(
    ctx: &mut ExecutionCtx<A>,
) -> VortexResult<ListViewArray<A>> {
    let alloc = *ctx.allocator();
    let numbers = FlatColumn::Primitive(required(alloc, &[1i64, 2, 3, 4, 5, 6])?);
    let elements = match Rc::new(alloc, numbers) {
        Ok(elements) => Ok(elements),
        Err(failed) => Err(failed.into()),
    };
    let starts_and_sizes = both(
        required(alloc, &[0u64, 2, 3]),
        required(alloc, &[2u64, 1, 3]),
    );
    let flags = bits(alloc, &[true, false, true]);
    let ((elements, flags), (starts, sizes)) = both(both(elements, flags), starts_and_sizes)?;
    let (starts, sizes) = (ArrayRef::Primitive(starts), ArrayRef::Primitive(sizes));
    ListViewArray::try_new(elements, starts, sizes, RowValidity::Bits(flags), ctx)
}

// Where each text lies in that buffer.
fn three_views<A: Allocator + Copy>(alloc: A) -> VortexResult<Vec<View, A>> {
    let view = |start, size| View {
        buffer: 0,
        start,
        size,
    };
    Ok(Vec::from_slice(alloc, &[view(0, 5), view(5, 0), view(5, 4)])?)
}

/// Makes the texts "first", null and "last", one after the other in one buffer.
pub(crate) fn three_texts<A: Allocator + Copy>(alloc: A) -> VortexResult<VarBinViewArray<A>> {
    let parts = both(three_views(alloc), buffer_of(alloc, "firstlast"));
    let ((views, buffers), flags) = both(parts, bits(alloc, &[true, false, true]))?;
    VarBinViewArray::try_new(views, buffers, VarBinKind::Utf8, Validity::Bits(flags))
}

// One buffer of the bytes of a word.
fn buffer_of<A: Allocator + Copy>(alloc: A, word: &str) -> VortexResult<Vec<Bytes<A>, A>> {
    let mut buffers = Vec::with_capacity(alloc, 1)?;
    let bytes = Bytes::copy_from_slice(alloc, word.as_bytes())?;
    buffers.push_reserved(bytes);
    Ok(buffers)
}
