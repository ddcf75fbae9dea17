//! Texts of one buffer, appended to others all at once: their bytes as they are, and a view for each.
ghost use Rattle.std.specs.Prelude.{◌≡◌, ◌+◌, ◌-◌, ◌^◌, ◌<◌, ◌≤◌, ◌++◌, ◌∷◌, ℕ, [], All, IfSome, IsOkUnless, OnErr, OnOk, length, map, slice_range, vec_capacity, vec_len};
ghost use Rattle.column_core.specs.VarBinForm.{IsWithinBuffer};
ghost use Rattle.runend_builder.specs.Spans.{IsInSpan, moved_view};

use column_core::{View, VortexError, VortexResult};
use std::alloc::Allocator;
use std::ops::Range;

/// Returns the range of the buffer from the first to the last byte of its texts, unless it is longer than they are
/// together: then it has bytes that no text has.
pub(crate) fn span_of(views: &[View], buffer: &[u8]) -> Option<Range<usize>>
    requires { All (IsWithinBuffer (buffer.now ∷ [])) views.now }
    ensures ordered { IfSome result (λ span. span.start ≤ span.end) }
    ensures within { IfSome result (λ span. span.end ≤ length buffer.now) }
    ensures texts { IfSome result (λ span. All (IsInSpan span.start span.end) views.now) }
{
    let mut start = buffer.len();
    let mut end = 0;
    let mut size: usize = 0;
    for view in views {
        start = start_with(start, *view);
        end = end_with(end, *view);
        size = size.saturating_add(view.size);
    }
    let start = start.min(end);
    if end - start > size {
        return None;
    }
    Some(start..end)
}

/// Appends texts of a buffer: the bytes of the range in which all of them lie, and a view for each. Refused only as
/// `OutOfMemory`, and then the others stay as they are.
pub(crate) fn push_span<A: Allocator>(
    views: &mut Vec<View, A>,
    bytes: &mut Vec<u8, A>,
    part: &[View],
    buffer: &[u8],
    span: &Range<usize>,
) -> VortexResult<()>
    requires ordered { span.now.start ≤ span.now.end }
    requires within { span.now.end ≤ length buffer.now }
    requires texts { All (IsInSpan span.now.start span.now.end) part.now }
    ensures only { IsOkUnless result VortexError.OutOfMemory }
    ensures views { OnOk result (views.new.items ≡
        views.old.items ++ map (moved_view span.now.start (length bytes.old.items)) part.now) }
    ensures bytes { OnOk result (bytes.new.items ≡
        bytes.old.items ++ slice_range buffer.now span.now.start span.now.end) }
    ensures kept_views { OnErr result (views.new.items ≡ views.old.items) }
    ensures kept_bytes { OnErr result (bytes.new.items ≡ bytes.old.items) }
{
    views.reserve(part.len())?;
    let base = bytes.len();
    bytes.extend_from_slice(&buffer[span.start..span.end])?;
    push_moved(views, part, span, base);
    Ok(())
}

// Appends a view for each text, once the range begins at byte `base`.
fn push_moved<A: Allocator>(
    views: &mut Vec<View, A>,
    part: &[View],
    span: &Range<usize>,
    base: usize,
)
    requires texts { All (IsInSpan span.now.start span.now.end) part.now }
    requires room { vec_len views.old + length part.now ≤ vec_capacity views.old }
    requires fits { base + (span.now.end - span.now.start) < 2 ^ 64 }
    ensures { views.new.items ≡ views.old.items ++ map (moved_view span.now.start base) part.now }
{
    for view in part {
        views.push_reserved(moved(*view, span, base));
    }
}

// The view of a text of the range, once the range begins at byte `base`.
#[inline(always)]
fn moved(view: View, span: &Range<usize>, base: usize) -> View
    requires text { IsInSpan span.now.start span.now.end view }
    requires fits { base + (span.now.end - span.now.start) < 2 ^ 64 }
    ensures { result ≡ moved_view span.now.start base view }
{
    if view.size == 0 {
        return View::default();
    }
    View {
        buffer: 0,
        start: base + (view.start - span.start),
        size: view.size,
    }
}

// The first byte of a text and of those before it.
#[inline(always)]
fn start_with(start: usize, view: View) -> usize
    ensures text { 0 < view.size → result ≤ view.start }
    ensures others { result ≤ start }
{
    if view.size == 0 {
        start
    } else {
        start.min(view.start)
    }
}

// The end of a text and of those before it.
#[inline(always)]
fn end_with(end: usize, view: View) -> usize
    requires { view.start + view.size < 2 ^ 64 }
    ensures text { 0 < view.size → view.start + view.size ≤ result }
    ensures others { end ≤ result }
    ensures no_more { (most : ℕ) → end ≤ most → view.start + view.size ≤ most → result ≤ most }
{
    end.max(view.start + view.size)
}
