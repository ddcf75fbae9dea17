//! Flat columns of the texts and bytes that C passes, one after the other, with offsets.
ghost use Rattle.std.specs.Prelude.{◌≡◌, ◌+◌, ◌-◌, ◌<◌, ℕ, [], ◌∷◌, map, length, pos, IfErr, IfOk, IfSome, IsOkUnless, MatchOption, OnOk};
ghost use Rattle.typed_columns.specs.Typed.{format_of};
ghost use Rattle.c_columns.specs.Bits.{validity_by};
ghost use Rattle.c_columns.specs.Ending.{IsShortOr};
ghost use Rattle.c_columns.specs.Makers.{AreCuts, AreTextsOf, CutsFault, IsCut, IsRowCut, TextsFault};

use crate::bits::validity_of;
use crate::flat::{Boxed, boxed};
use bytes::Bytes;
use column_core::{NativePType, VarBinKind, VarBinViewArray, View, VortexError, VortexResult};
use runend_array::ArrayRef;
use std::alloc::Global;

/// Returns the flat column whose row i is the bytes from offset i up to offset i + 1. Refused as `NoRunsWindow` without
/// an offset, as `EndsNotStrict`, with the row, where an offset is negative or below the one before, as `validity_of`
/// refuses, and then as `VarBinViewArray::try_new` refuses.
#[tactic(auto, using(crate::proofs::Cuts::cuts_refused, crate::proofs::Cuts::bits_refused, crate::proofs::Cuts::texts_refused))]
pub fn texts<T: NativePType>(
    alloc: Global,
    kind: VarBinKind,
    offsets: &[T],
    bytes: &[u8],
    nulls: u8,
    bits: &[u8],
    first: usize,
) -> VortexResult<Boxed>
    ensures made { IfOk result (λ made. AreTextsOf kind (map T.number offsets.now) bytes.now
        (validity_by nulls bits.now first (length offsets.now - 1)) made.value.array) }
    ensures untyped { IfOk result (λ made. format_of made.value ≡ []) }
    ensures refused { IfErr result
        (λ error. IsShortOr (TextsFault kind (map T.number offsets.now) bytes.now nulls bits.now first) error) }
    ensures served { OnOk result ((error : VortexError)
        → ¬ (TextsFault kind (map T.number offsets.now) bytes.now nulls bits.now first error)) }
{
    let views = views_between(alloc, offsets)?;
    let validity = validity_of(alloc, nulls, bits, first, views.len())?;
    let buffers = only_buffer(alloc, bytes)?;
    let array = VarBinViewArray::try_new(views, buffers, kind, validity)?;
    boxed(alloc, ArrayRef::VarBinView(array))
}

// A view from each offset to the next.
#[tactic(auto, using(crate::proofs::Cuts::first_uncut))]
fn views_between<T: NativePType>(alloc: Global, offsets: &[T]) -> VortexResult<Vec<View>>
    ensures cuts { IfOk result (λ views. AreCuts (map T.number offsets.now) views.items) }
    ensures each { IfOk result
        (λ views. (row : ℕ) → row < length views.items → IsRowCut (map T.number offsets.now) row) }
    ensures refused { IfErr result (λ error. IsShortOr (CutsFault (map T.number offsets.now)) error) }
{
    if offsets.is_empty() {
        return Err(VortexError::NoRunsWindow {
            offset: 0,
            length: 0,
        });
    }
    let rows = offsets.len() - 1;
    let mut views = Vec::with_capacity(alloc, rows)?;
    for row in 0..rows {
        match view_between(offsets[row], offsets[row + 1]) {
            Some(view) => views.push(view)?,
            None => return Err(VortexError::EndsNotStrict { run: row }),
        }
    }
    Ok(views)
}

// The view from one offset to the next of the first buffer.
#[tactic(auto, using(crate::proofs::Cuts::uncut_start, crate::proofs::Cuts::uncut_stop, crate::proofs::Cuts::uncut_order, crate::proofs::Cuts::is_cut))]
fn view_between<T: NativePType>(start: T, stop: T) -> Option<View>
    ensures view { IfSome result
        (λ view. (view.buffer ≡ 0) × (pos view.start ≡ T.number start)
        × (pos (view.start + view.size) ≡ T.number stop)) }
    ensures cut { MatchOption result (¬ IsCut (T.number start) (T.number stop))
        (λ _. IsCut (T.number start) (T.number stop)) }
{
    let start = usize::try_from(start.widen()).ok()?;
    let stop = usize::try_from(stop.widen()).ok()?;
    let size = stop.checked_sub(start)?;
    Some(View {
        buffer: 0,
        start,
        size,
    })
}

// These bytes as the one buffer.
fn only_buffer(alloc: Global, bytes: &[u8]) -> VortexResult<Vec<Bytes<Global>>>
    ensures buffer { IfOk result (λ buffers. buffers.items ≡ bytes.now ∷ []) }
    ensures only { IsOkUnless result VortexError.OutOfMemory }
{
    let mut buffers = Vec::with_capacity(alloc, 1)?;
    buffers.push(Bytes::copy_from_slice(alloc, bytes)?)?;
    Ok(buffers)
}
