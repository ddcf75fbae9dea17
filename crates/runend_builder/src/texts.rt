//! Texts or bytes that grow, one after the other in one buffer.
ghost use Rattle.std.specs.Prelude.{◌≡◌, ◌≤◌, ◌<◌, ◌++◌, ◌∷◌, [], IsOkUnless, OnErr, OnOk, drop, length, map, slice_index, slice_index_or, take};
ghost use Rattle.column_core.specs.VarBinForm.{IsOfKind, IsWithinBuffer, IsZeroViewAtNulls, view_bytes, zero_view};
ghost use Rattle.runend_builder.specs.Texts.{AreCut, text_view, texts_of};

use crate::spans::{push_span, span_of};
use bytes::Bytes;
use column_core::{VarBinKind, VarBinViewArray, View, VortexError, VortexResult};
use std::alloc::Allocator;

/// Holds a view for each text, and the bytes that all of them cut.
#[derive(Drop)]
pub(crate) struct TextItems<A: Allocator> {
    pub(crate) kind: VarBinKind,
    pub(crate) views: Vec<View, A>,
    pub(crate) bytes: Vec<u8, A>,
}

/// Returns no texts of the kind. Takes no memory.
pub(crate) fn no_texts<A: Allocator + Copy>(alloc: A, kind: VarBinKind) -> TextItems<A>
    ensures kind { result.kind ≡ kind }
    ensures views { result.views.items ≡ [] }
    ensures bytes { result.bytes.items ≡ [] }
{
    TextItems {
        kind,
        views: Vec::new(alloc),
        bytes: Vec::new(alloc),
    }
}

/// Appends the texts of the same kind from row `start` on, in bytes of their own, with the view of nothing for null.
/// Refused only as `OutOfMemory`, and then the others stay as they are.
pub(crate) fn append_texts<A: Allocator>(
    items: &mut TextItems<A>,
    part: &VarBinViewArray<A>,
    start: usize,
) -> VortexResult<()>
    requires kind { part.now.kind ≡ items.old.kind }
    requires blank { IsZeroViewAtNulls part.now }
    requires within { start ≤ length part.now.views }
    requires cut { AreCut items.old.kind (items.old.bytes.items ∷ []) items.old.views.items }
    ensures only { IsOkUnless result VortexError.OutOfMemory }
    ensures texts { OnOk result (texts_of (items.new.bytes.items ∷ []) items.new.views.items ≡
        texts_of (items.old.bytes.items ∷ []) items.old.views.items ++
        drop start (texts_of part.now.buffers part.now.views)) }
    ensures kept_views { OnErr result (items.new.views.items ≡ items.old.views.items) }
    ensures kept_bytes { OnErr result (items.new.bytes.items ≡ items.old.bytes.items) }
    ensures cut { AreCut items.new.kind (items.new.bytes.items ∷ []) items.new.views.items }
    ensures kind { items.new.kind ≡ items.old.kind }
{
    if let [buffer] = part.buffers() {
        let views = &part.views()[start..];
        if let Some(span) = span_of(views, buffer.as_slice()) {
            return push_span(
                &mut items.views,
                &mut items.bytes,
                views,
                buffer.as_slice(),
                &span,
            );
        }
    }
    append_each(items, part, start)
}

// The same text by text.
fn append_each<A: Allocator>(
    items: &mut TextItems<A>,
    part: &VarBinViewArray<A>,
    start: usize,
) -> VortexResult<()>
    requires kind { part.now.kind ≡ items.old.kind }
    requires blank { IsZeroViewAtNulls part.now }
    requires within { start ≤ length part.now.views }
    requires cut { AreCut items.old.kind (items.old.bytes.items ∷ []) items.old.views.items }
    ensures only { IsOkUnless result VortexError.OutOfMemory }
    ensures texts { OnOk result (texts_of (items.new.bytes.items ∷ []) items.new.views.items ≡
        texts_of (items.old.bytes.items ∷ []) items.old.views.items ++
        drop start (texts_of part.now.buffers part.now.views)) }
    ensures kept_views { OnErr result (items.new.views.items ≡ items.old.views.items) }
    ensures kept_bytes { OnErr result (items.new.bytes.items ≡ items.old.bytes.items) }
    ensures cut { AreCut items.new.kind (items.new.bytes.items ∷ []) items.new.views.items }
    ensures kind { items.new.kind ≡ items.old.kind }
{
    let rows = items.views.len();
    let size = items.bytes.len();
    let pushed = push_texts(&mut items.views, &mut items.bytes, part, start);
    if pushed.is_err() {
        items.views.truncate(rows);
        items.bytes.truncate(size);
    }
    pushed
}

// Appends the texts one by one. Where it is refused, some may have been appended.
fn push_texts<A: Allocator>(
    views: &mut Vec<View, A>,
    bytes: &mut Vec<u8, A>,
    part: &VarBinViewArray<A>,
    start: usize,
) -> VortexResult<()>
    requires blank { IsZeroViewAtNulls part.now }
    requires within { start ≤ length part.now.views }
    requires cut { AreCut part.now.kind (bytes.old.items ∷ []) views.old.items }
    ensures only { IsOkUnless result VortexError.OutOfMemory }
    ensures texts { OnOk result (texts_of (bytes.new.items ∷ []) views.new.items ≡
        texts_of (bytes.old.items ∷ []) views.old.items ++ drop start (texts_of part.now.buffers part.now.views)) }
    ensures first_views { take (length views.old.items) views.new.items ≡ views.old.items }
    ensures first_bytes { take (length bytes.old.items) bytes.new.items ≡ bytes.old.items }
    ensures cut { OnOk result (AreCut part.now.kind (bytes.new.items ∷ []) views.new.items) }
{
    for row in start..part.len() {
        push_text(views, bytes, text_at(part, row))?;
    }
    Ok(())
}

/// Appends a text to the others. Refused only as `OutOfMemory`, and then nothing is changed.
pub(crate) fn push_text<A: Allocator>(
    views: &mut Vec<View, A>,
    bytes: &mut Vec<u8, A>,
    text: &[u8],
) -> VortexResult<()>
    ensures only { IsOkUnless result VortexError.OutOfMemory }
    ensures view { OnOk result (views.new.items ≡ views.old.items ++ text_view bytes.old.items text.now ∷ []) }
    ensures bytes { OnOk result (bytes.new.items ≡ bytes.old.items ++ text.now) }
    ensures kept_views { OnErr result (views.new.items ≡ views.old.items) }
    ensures kept_bytes { OnErr result (bytes.new.items ≡ bytes.old.items) }
{
    views.reserve(1)?;
    let view = view_behind(bytes, text);
    bytes.extend_from_slice(text)?;
    views.push_reserved(view);
    Ok(())
}

// The view of a text that is put after the bytes.
fn view_behind(bytes: &[u8], text: &[u8]) -> View
    ensures { result ≡ text_view bytes.now text.now }
{
    if text.is_empty() {
        return View::default();
    }
    View {
        buffer: 0,
        start: bytes.len(),
        size: text.len(),
    }
}

// The bytes of a row, none for null.
fn text_at<A: Allocator>(part: &VarBinViewArray<A>, row: usize) -> &[u8]
    requires blank { IsZeroViewAtNulls part.now }
    requires within { row < length part.now.views }
    ensures text { result.now ≡ view_bytes part.now.buffers (slice_index_or part.now.views row zero_view) }
    ensures of_kind { IsOfKind part.now.kind result.now }
{
    if part.validity().is_valid(row) {
        cut(part.buffers(), part.views()[row])
    } else {
        &[]
    }
}

// The bytes that the view cuts from its buffer.
fn cut<A: Allocator>(buffers: &[Bytes<A>], view: View) -> &[u8]
    requires { IsWithinBuffer buffers.now view }
    ensures { result.now ≡ view_bytes buffers.now view }
{
    let bytes = buffers[view.buffer].as_slice();
    &bytes[view.start..view.start + view.size]
}
