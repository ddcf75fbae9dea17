//! Texts or bytes, read.
ghost use Rattle.std.specs.Prelude.{◌≡◌, ◌^◌, ◌<◌, ◌∷◌, [], length, IfOk, IfErr, IfSome, IfNone, IsErrOf, IsOkUnless};
ghost use Rattle.column_base.specs.Validity.{form_of};
ghost use Rattle.column_base.specs.ValidityForm.{HasLength};
ghost use Rattle.column_fields.specs.Refusal.{IsBadOrMemory};
ghost use Rattle.column_bytes.specs.Texts.{text_items};
ghost use Rattle.column_bytes.specs.TextReading.{AreNoTextItems, AreNoTextsIn, AreNoTextsOf, AreRowsOf, AreTextsIn, AreTextsOf, HasNoTextsOver, AreTextsOver};

use crate::views::read_views;
use bytes::Bytes;
use column_base::{Validity, VortexError, VortexResult};
use column_core::{VarBinKind, VarBinViewArray, View};
use column_fields::{read_bytes, read_last_bytes, read_validity};
use std::alloc::Allocator;

/// Returns the flat column of `rows` texts, or bytes, that the bytes are the fields of: one buffer has the bytes that
/// the rows show, one row after the other. Refused as `BadMetadata` exactly where they are not the fields of such a
/// column, else only as `OutOfMemory`.
pub fn read_text_fields<A: Allocator + Copy>(
    alloc: A,
    kind: VarBinKind,
    rows: usize,
    bytes: &[u8],
) -> VortexResult<VarBinViewArray<A>>
    ensures found { IfOk result (λ array. AreTextsOf kind rows bytes.now array) }
    ensures bad { IsErrOf result VortexError.BadMetadata → AreNoTextsOf kind rows bytes.now }
    ensures only { IfErr result IsBadOrMemory }
{
    let (validity, rest) = read_validity(alloc, bytes, rows)?;
    match read_text_items(rest) {
        Some((sizes, content)) => read_rows(alloc, kind, rows, validity, sizes, content),
        None => {
            drop(validity);
            Err(VortexError::BadMetadata)
        }
    }
}

// The bytes of the sizes, and the bytes that the rows show, which the bytes are.
pub(crate) fn read_text_items(bytes: &[u8]) -> Option<(&[u8], &[u8])>
    ensures found { IfSome result (λ r. bytes.now ≡ text_items r.0.now r.1.now) }
    ensures small { IfSome result (λ r. (length r.0.now < 2 ^ 64) × (length r.1.now < 2 ^ 64)) }
    ensures none { IfNone result (AreNoTextItems bytes.now) }
{
    let (sizes, rest) = read_bytes(bytes, 12)?;
    let content = read_last_bytes(rest, 13)?;
    Some((sizes, content))
}

// The column of `rows` rows with this validity, from the bytes of the sizes, and the bytes that the rows show.
fn read_rows<A: Allocator + Copy>(
    alloc: A,
    kind: VarBinKind,
    rows: usize,
    validity: Validity<A>,
    sizes: &[u8],
    content: &[u8],
) -> VortexResult<VarBinViewArray<A>>
    requires { HasLength (form_of validity) rows }
    ensures found { IfOk result (λ array. AreTextsIn kind rows (form_of validity) sizes.now content.now array) }
    ensures bad { IsErrOf result VortexError.BadMetadata →
        AreNoTextsIn kind rows (form_of validity) sizes.now content.now }
    ensures only { IfErr result IsBadOrMemory }
{
    match read_views(alloc, &validity, rows, sizes, content.len()) {
        Ok(views) => join_texts(alloc, kind, views, validity, content),
        Err(error) => {
            drop(validity);
            Err(error)
        }
    }
}

// The column of these views into these bytes.
fn join_texts<A: Allocator + Copy>(
    alloc: A,
    kind: VarBinKind,
    views: Vec<View, A>,
    validity: Validity<A>,
    content: &[u8],
) -> VortexResult<VarBinViewArray<A>>
    ensures found { IfOk result (λ array. AreTextsOver kind views.items content.now (form_of validity) array) }
    ensures bad { IsErrOf result VortexError.BadMetadata →
        HasNoTextsOver kind views.items content.now (form_of validity) }
    ensures only { IfErr result IsBadOrMemory }
{
    match only_buffer(alloc, content) {
        Ok(buffers) => match VarBinViewArray::try_new(views, buffers, kind, validity) {
            Ok(array) => Ok(array),
            Err(_) => Err(VortexError::BadMetadata),
        },
        Err(error) => {
            drop(views);
            drop(validity);
            Err(error)
        }
    }
}

// These bytes as the one buffer.
fn only_buffer<A: Allocator + Copy>(alloc: A, bytes: &[u8]) -> VortexResult<Vec<Bytes<A>, A>>
    ensures buffer { IfOk result (λ buffers. buffers.items ≡ bytes.now ∷ []) }
    ensures only { IsOkUnless result VortexError.OutOfMemory }
{
    let mut buffers = Vec::with_capacity(alloc, 1)?;
    buffers.push(Bytes::copy_from_slice(alloc, bytes)?)?;
    Ok(buffers)
}
