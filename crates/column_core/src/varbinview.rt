//! Flat columns of texts or of bytes, as views into shared buffers.
ghost use Rattle.std.specs.Prelude.{◌≡◌, ◌<◌, ◌↔◌, IsErrOf, slice_range, Some, length, map, option_map, slice_get, IfOk, IfErr, IfSome, IfNone, IsNone, IsOk, IsOkUnless, IsTrue, [], ℕ};
ghost use Rattle.std.specs.Bool.{OnTrue, OnFalse};
ghost use Rattle.std.specs.Str.{IsUtf8};
ghost use Rattle.column_base.specs.ValidityForm.{AllNull, HasLength, IsNormal};
ghost use Rattle.column_base.specs.Validity.{form_of};
ghost use Rattle.column_core.specs.declared.varbinview.VarBinKind.TheVariants.{Utf8, Binary};
ghost use Rattle.column_core.specs.Value.{Single};
ghost use Rattle.column_core.specs.VarBinForm.{AreVarBins, IsWithinBuffer, varbin_with, varbin_rows, varbin_dtype, view_bytes};
ghost use Rattle.column_core.specs.VarBinFault.{AreWithin, AreOfKind, IsFirstOutside, IsNoText, VarBinFault};
ghost use Rattle.column_core.specs.Ranges.{IsBadRange};
ghost use Rattle.column_core.specs.Refusal.{range_fault, IsRefusedBy};
ghost use Rattle.column_core.specs.ScalarView.{sees, IsViewOf};

use crate::view::ScalarView;
use bytes::Bytes;
use column_base::{Buffer, DType, Validity, VortexError, VortexResult};
use std::alloc::Allocator;
use std::marker::Model;
use std::ops::Range;

/// Names the bytes from `start` to `start + size - 1` of the buffer numbered `buffer`. Buffers and bytes are counted
/// from 0.
#[derive(Clone, Copy, Default, Debug, PartialEq, Eq)]
pub struct View {
    pub buffer: usize,
    pub start: usize,
    pub size: usize,
}

/// Says whether a column has texts, which are UTF-8, or any bytes.
#[derive(Clone, Copy, Debug, PartialEq, Eq)]
pub enum VarBinKind {
    Utf8,
    Binary,
}

/// Holds texts or bytes, and says which rows are null. A row is a view into one of the buffers, which copies share.
/// Under null a view is stored that no row shows, and that need not be within a buffer.
#[derive(Drop)]
pub struct VarBinViewArray<A: Allocator> {
    kind: VarBinKind,
    views: Buffer<View, A>,
    buffers: Vec<Bytes<A>, A>,
    validity: Validity<A>,
}

impl<A: Allocator> Model for VarBinViewArray<A> {
    ghost use Rattle.column_base.specs.Validity.{form_of};
    ghost use Rattle.column_core.specs.VarBinForm.{VarBinForm, AreVarBins, varbin_with};

    ghost Value = { VarBinForm };

    ghost view = { λ a. varbin_with a.kind a.views.items a.buffers.items (form_of a.validity) };

    ghost invariant = { λ a. AreVarBins (varbin_with a.kind a.views.items a.buffers.items (form_of a.validity)) };
}

impl<A: Allocator + Copy> VarBinViewArray<A> {
    /// Returns the column of these views into these buffers, null where the validity says so. Refused, in this order,
    /// as `ColumnLength`, with both lengths, where the validity is of another number of rows; as `OutOfBounds`, with
    /// the row and the number of rows, for the first valid row whose view is not within its buffer; as `TypeMismatch`
    /// where texts are wanted and a valid row is not UTF-8.
    pub fn try_new(
        views: Vec<View, A>,
        buffers: Vec<Bytes<A>, A>,
        kind: VarBinKind,
        validity: Validity<A>,
    ) -> VortexResult<Self>
        ensures ok { IfOk result (λ array. array ≡ varbin_with kind views.items buffers.items (form_of validity)) }
        ensures accepts { IsOk result ↔ AreVarBins (varbin_with kind views.items buffers.items (form_of validity)) }
        ensures refused { IfErr result (λ error. VarBinFault (varbin_with kind views.items buffers.items
            (form_of validity)) error) }
    {
        if let Some(fault) = first_fault(&views, &buffers, kind, &validity) {
            return Err(fault);
        }
        Ok(VarBinViewArray {
            kind,
            views: Buffer::shared(views),
            buffers,
            validity,
        })
    }

    /// Returns the column of parts that `try_new` accepts.
    pub fn new_unchecked(
        views: Vec<View, A>,
        buffers: Vec<Bytes<A>, A>,
        kind: VarBinKind,
        validity: Validity<A>,
    ) -> Self
        requires { AreVarBins (varbin_with kind views.items buffers.items (form_of validity)) }
        ensures { result ≡ varbin_with kind views.items buffers.items (form_of validity) }
    {
        VarBinViewArray {
            kind,
            views: Buffer::shared(views),
            buffers,
            validity,
        }
    }
}

impl<A: Allocator> VarBinViewArray<A> {
    /// Returns how many rows there are.
    pub fn len(&self) -> usize
        ensures views { result ≡ length self.now.views }
        ensures rows { result ≡ length (varbin_rows self.now) }
    {
        self.views.len()
    }

    /// Returns whether the column has no rows.
    pub fn is_empty(&self) -> bool
        ensures { IsTrue result ↔ (self.now.views ≡ []) }
    {
        self.views.is_empty()
    }

    /// Returns the type of the rows.
    pub fn dtype(&self) -> DType
        ensures { result ≡ varbin_dtype self.now }
    {
        match self.kind {
            VarBinKind::Utf8 => DType::Utf8(self.validity.nullability()),
            VarBinKind::Binary => DType::Binary(self.validity.nullability()),
        }
    }

    /// Returns whether the rows are texts or bytes.
    pub fn kind(&self) -> VarBinKind
        ensures { result ≡ self.now.kind }
    {
        self.kind
    }

    /// Returns the views as they are stored, under null too.
    pub fn views(&self) -> &[View]
        ensures stored { result.now ≡ self.now.views }
        ensures accepted { AreVarBins self.now }
    {
        self.views.as_slice()
    }

    /// Returns the buffers that the views cut.
    pub fn buffers(&self) -> &[Bytes<A>]
        ensures { result.now ≡ self.now.buffers }
    {
        &self.buffers
    }

    /// Returns which rows are valid.
    pub fn validity(&self) -> &Validity<A>
        ensures form { form_of result.now ≡ self.now.validity }
        ensures counted { HasLength self.now.validity (length self.now.views) }
    {
        &self.validity
    }

    /// Returns the views, the buffers, whether the rows are texts or bytes, and the validity.
    pub fn into_parts(self) -> (Buffer<View, A>, Vec<Bytes<A>, A>, VarBinKind, Validity<A>)
        ensures whole { self ≡ varbin_with result.2 result.0.items result.1.items (form_of result.3) }
        ensures accepted { AreVarBins (varbin_with result.2 result.0.items result.1.items (form_of result.3)) }
    {
        (self.views, self.buffers, self.kind, self.validity)
    }

    /// Returns the row at `index`, borrowed from its buffer. Takes no memory.
    pub fn get(&self, index: usize) -> ScalarView<'_, A>
        requires { index < length self.now.views }
        ensures row { slice_get (map (option_map Single) (varbin_rows self.now)) index ≡ Some (sees result) }
        ensures of_type { IsViewOf (varbin_dtype self.now) result }
    {
        if !self.validity.is_valid(index) {
            return ScalarView::Null;
        }
        let bytes = cut(&self.buffers, self.views[index]);
        match self.kind {
            VarBinKind::Utf8 => ScalarView::Utf8(unsafe { str::from_utf8_unchecked(bytes) }),
            VarBinKind::Binary => ScalarView::Binary(bytes),
        }
    }
}

impl<A: Allocator + Copy> VarBinViewArray<A> {
    /// Returns a copy of the column in its form. Shares the views and the validity if they are shared, and copies them
    /// otherwise; shares the bytes of the buffers. Refused only as `OutOfMemory`.
    pub fn try_clone(&self, alloc: A) -> VortexResult<VarBinViewArray<A>>
        ensures only { IsOkUnless result VortexError.OutOfMemory }
        ensures form { IfOk result (λ array. array ≡ self.now) }
    {
        let views = self.views.try_clone(alloc)?;
        let buffers = share(alloc, &self.buffers)?;
        let validity = self.validity.try_clone(alloc)?;
        Ok(VarBinViewArray {
            kind: self.kind,
            views,
            buffers,
            validity,
        })
    }

    /// Returns a copy of the column in its form, with views and a validity that nothing else shares. Keeps all buffers,
    /// and shares their bytes. Refused only as `OutOfMemory`.
    pub fn compact(&self, alloc: A) -> VortexResult<VarBinViewArray<A>>
        ensures only { IsOkUnless result VortexError.OutOfMemory }
        ensures form { IfOk result (λ array. array ≡ self.now) }
    {
        let views = self.views.compact(alloc)?;
        let buffers = share(alloc, &self.buffers)?;
        let validity = self.validity.compact(alloc)?;
        Ok(VarBinViewArray {
            kind: self.kind,
            views,
            buffers,
            validity,
        })
    }

    /// Returns the rows from `range.start` to `range.end - 1`. Shares the views and the validity if they are shared,
    /// and copies them otherwise; keeps all buffers, and shares their bytes. Refused as `BadRange`, with both bounds
    /// and the number of rows, exactly where the range begins after its end or ends after the last row, before any
    /// memory is taken; else only as `OutOfMemory`.
    pub fn slice(&self, alloc: A, range: Range<usize>) -> VortexResult<VarBinViewArray<A>>
        ensures refused { let count = length (varbin_rows self.now) in
            IsErrOf result (VortexError.BadRange range.start range.end count) ↔ IsBadRange range.start range.end count }
        ensures only { ¬ IsBadRange range.start range.end (length (varbin_rows self.now)) →
            IsOkUnless result VortexError.OutOfMemory }
        ensures refusal { IsRefusedBy (range_fault range.start range.end (length (varbin_rows self.now))) result }
        ensures rows { IfOk result (λ part. varbin_rows part ≡
            slice_range (varbin_rows self.now) range.start range.end) }
        ensures dtype { IfOk result (λ part. varbin_dtype part ≡ varbin_dtype self.now) }
        ensures stored { IfOk result (λ part. part.views ≡ slice_range self.now.views range.start range.end) }
        ensures shared { IfOk result (λ part. part.buffers ≡ self.now.buffers) }
        ensures normal { IfOk result (λ part. IsNormal part.validity) }
        ensures empty { IfOk result (λ part. part.validity ≡ AllNull → range.start < range.end) }
    {
        let length = self.len();
        if range.start > range.end || range.end > length {
            return Err(VortexError::BadRange {
                start: range.start,
                stop: range.end,
                length,
            });
        }
        let views = self.views.slice(alloc, range.start..range.end)?;
        let buffers = share(alloc, &self.buffers)?;
        let validity = self.validity.slice(alloc, range)?;
        Ok(VarBinViewArray {
            kind: self.kind,
            views,
            buffers,
            validity,
        })
    }
}

// The first fault of these parts, if they do not make a column.
fn first_fault<A: Allocator>(
    views: &[View],
    buffers: &[Bytes<A>],
    kind: VarBinKind,
    validity: &Validity<A>,
) -> Option<VortexError>
    ensures fault { IfSome result (λ error. VarBinFault (varbin_with kind views.now buffers.now
        (form_of validity.now)) error) }
    ensures none { IsNone result ↔ AreVarBins (varbin_with kind views.now buffers.now (form_of validity.now)) }
{
    if let Some(count) = validity.len() {
        if count != views.len() {
            return Some(VortexError::ColumnLength {
                left: views.len(),
                right: count,
            });
        }
    }
    if let Some(row) = first_outside(views, buffers, validity) {
        return Some(VortexError::OutOfBounds {
            index: row as i128,
            length: views.len(),
        });
    }
    if kind == VarBinKind::Utf8 && !are_texts(views, buffers, validity) {
        return Some(VortexError::TypeMismatch);
    }
    None
}

// Is the view within its buffer?
fn is_within<A: Allocator>(buffers: &[Bytes<A>], view: View) -> bool
    ensures { IsTrue result ↔ IsWithinBuffer buffers.now view }
{
    if view.buffer >= buffers.len() {
        return false;
    }
    let length = buffers[view.buffer].len();
    // Not `start + size`, which may not fit.
    view.start <= length && view.size <= length - view.start
}

// The bytes that the view cuts from its buffer.
fn cut<A: Allocator>(buffers: &[Bytes<A>], view: View) -> &[u8]
    requires { IsWithinBuffer buffers.now view }
    ensures { result.now ≡ view_bytes buffers.now view }
{
    let bytes = buffers[view.buffer].as_slice();
    &bytes[view.start..view.start + view.size]
}

// The first valid row whose view is not within its buffer.
fn first_outside<A: Allocator>(
    views: &[View],
    buffers: &[Bytes<A>],
    validity: &Validity<A>,
) -> Option<usize>
    requires { HasLength (form_of validity.now) (length views.now) }
    ensures found { IfSome result (λ row. IsFirstOutside (varbin_with Utf8 views.now buffers.now
        (form_of validity.now)) row) }
    ensures none { IfNone result (AreWithin (varbin_with Utf8 views.now buffers.now (form_of validity.now))) }
{
    for row in 0..views.len() {
        if validity.is_valid(row) && !is_within(buffers, views[row]) {
            return Some(row);
        }
    }
    None
}

// Are the bytes UTF-8?
fn is_text(bytes: &[u8]) -> bool
    ensures { IsTrue result ↔ IsUtf8 bytes.now }
{
    str::from_utf8(bytes).is_ok()
}

// Is each valid row a text?
fn are_texts<A: Allocator>(views: &[View], buffers: &[Bytes<A>], validity: &Validity<A>) -> bool
    requires counted { HasLength (form_of validity.now) (length views.now) }
    requires within { AreWithin (varbin_with Utf8 views.now buffers.now (form_of validity.now)) }
    ensures all { OnTrue result (AreOfKind (varbin_with Utf8 views.now buffers.now (form_of validity.now))) }
    ensures some { OnFalse result ((row : ℕ) × IsNoText (varbin_with Utf8 views.now buffers.now
        (form_of validity.now)) row) }
{
    for row in 0..views.len() {
        if validity.is_valid(row) && !is_text(cut(buffers, views[row])) {
            return false;
        }
    }
    true
}

// A list of these buffers, whose bytes are shared.
fn share<A: Allocator + Copy>(alloc: A, buffers: &[Bytes<A>]) -> VortexResult<Vec<Bytes<A>, A>>
    ensures only { IsOkUnless result VortexError.OutOfMemory }
    ensures same { IfOk result (λ owners. owners.items ≡ buffers.now) }
{
    let mut owners = Vec::with_capacity(alloc, buffers.len())?;
    for buffer in buffers {
        owners.push(buffer.clone()?)?;
    }
    Ok(owners)
}
