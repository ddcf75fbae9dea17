//! Columns of lists over shared elements.
ghost use Rattle.std.specs.Prelude.{◌≡◌, ◌+◌, ◌<◌, ◌≤◌, ◌↔◌, length, IsTrue, slice_range, IfOk, IsErrOf, IsOkUnless, MatchResult, Some};
ghost use Rattle.column_core.specs.FlatColumn.{leaf_of};
ghost use Rattle.column_core.specs.ScalarView.{sees, IsViewOf};
ghost use Rattle.runend_array.specs.Array.{AreListParts, AreListTypes, IsRowValidity, column_of, lists_of, validity_of};
ghost use Rattle.runend_windows.specs.Ends.{IsEndsType, ends_of};
ghost use Rattle.runend_array.specs.Column.{IsIndex, index_of};
ghost use Rattle.runend_windows.specs.Window.{run_rows};
ghost use Rattle.column_core.specs.PrimitiveForm.{primitive_dtype};
ghost use Rattle.column_core.specs.Ranges.{IsBadRange};
ghost use Rattle.runend_windows.specs.Window.{IsWindow};
ghost use Rattle.runend_array.specs.Fault.{ListPartsFault, ListsFault};
ghost use Rattle.runend_array.specs.Lists.{AreLists, list_at, list_count, list_dtype, list_rows};
ghost use Rattle.column_core.specs.Value.{element_of as element_type_of};
ghost use Rattle.runend_array.specs.ListRuns.{AreListsInRuns};
ghost use Rattle.runend_array.specs.ListSlice.{AreListsInRange};
ghost use Rattle.runend_array.specs.ListTake.{AreListsAt, ArePlacesOf, lists_taken, nullability_taken};
ghost use Rattle.column_base.specs.Types.{nullability_of, with_nullability as dtype_with};
ghost use Rattle.column_base.specs.ValidityForm.{HasLength, nullability_in};
ghost use Rattle.column_base.specs.Validity.{form_of};

use crate::array_ref::{ArrayRef, out_of_bounds};
use crate::copies::Buffers;
use crate::lists::index::{index_at, index_len, is_index};
use crate::lists::runs::{index_in_runs, run_validity_of_lists};
use crate::lists::slice::{index_between, validity_between};
use crate::lists::take::{index_taken, validity_taken};
use crate::lists::within::first_outside;
use crate::session::ExecutionCtx;
use crate::validities::RowValidity;
use column_core::{
    DType, ElementDType, FlatColumn, PrimitiveArray, ScalarView, Validity, VortexError,
    VortexResult,
};
use std::alloc::Allocator;
use std::marker::Model;
use std::ops::Range;
use std::rc::Rc;

/// Holds lists over shared elements: a row has as many elements as its size says, from its offset on.
#[cycle(array)]
#[derive(Drop)]
pub struct ListViewArray<A: Allocator> {
    elements: Rc<FlatColumn<A>, A>,
    offsets: ArrayRef<A>,
    sizes: ArrayRef<A>,
    validity: RowValidity<A>,
}

impl<A: Allocator> Model for ListViewArray<A> {
    ghost use Rattle.runend_array.specs.Lists.{Lists, lists_depth};

    ghost Value = { Lists };

    ghost use Rattle.runend_array.specs.ColumnCode.{lists_code};

    ghost coded = { lists_code };

    ghost use Rattle.runend_array.specs.Array.{AreListParts, lists_of};

    ghost view = { λ a. lists_of a.elements.value a.offsets a.sizes a.validity };

    ghost invariant = { λ a. AreListParts a.elements.value a.offsets a.sizes a.validity };

    ghost size = { lists_depth };

    ghost use Rattle.runend_array.specs.Falls.{deep_le-list_parts};

    ghost size_decreases = { λ a h. Prim.search (deep_le-list_parts, h) };
}

impl<A: Allocator + Copy> ListViewArray<A> {
    /// Returns the lists of these parts. Refused by the first fault: `TypeMismatch` unless offsets and sizes are u64
    /// without null, flat or in runs over flat values, and runs of the validity are over flat booleans without null;
    /// `ColumnLength`, with the number of offsets first, where there are more or fewer sizes, then where the validity
    /// is of another number of rows; `OutOfBounds`, with the row and the number of elements, for the first valid row
    /// that does not lie within the elements. Takes no memory.
    pub fn try_new(
        elements: Rc<FlatColumn<A>, A>,
        offsets: ArrayRef<A>,
        sizes: ArrayRef<A>,
        validity: RowValidity<A>,
        ctx: &mut ExecutionCtx<A>,
    ) -> VortexResult<Self>
        ensures parts { MatchResult result
            (λ lists. AreListParts elements.value offsets sizes validity ×
            (lists ≡ lists_of elements.value offsets sizes validity))
            (λ error. ListPartsFault elements.value offsets sizes validity error) }
        ensures session { ctx.new ≡ ctx.old }
    {
        let _ = &ctx;
        match validate_list_parts(&elements, &offsets, &sizes, &validity) {
            Ok(()) => Ok(ListViewArray::new_unchecked(elements, offsets, sizes, validity)),
            Err(error) => {
                drop(validity);
                drop(sizes);
                drop(offsets);
                Err(error)
            }
        }
    }

    /// Returns the elements of all rows.
    pub fn elements(&self) -> &FlatColumn<A>
        ensures { leaf_of result.now ≡ self.now.elements }
    {
        &self.elements
    }

    /// Returns where the elements of each row start.
    pub fn offsets(&self) -> &ArrayRef<A>
        ensures form { index_of (column_of result.now) ≡ self.now.offsets }
        ensures index { IsIndex (column_of result.now) }
    {
        &self.offsets
    }

    /// Returns how many elements each row has.
    pub fn sizes(&self) -> &ArrayRef<A>
        ensures form { index_of (column_of result.now) ≡ self.now.sizes }
        ensures index { IsIndex (column_of result.now) }
    {
        &self.sizes
    }

    /// Returns which rows are valid.
    pub fn validity(&self) -> &RowValidity<A>
        ensures form { validity_of result.now ≡ self.now.validity }
        ensures plain { IsRowValidity result.now }
        ensures lists { AreLists self.now }
    {
        &self.validity
    }

    /// Returns how many rows there are.
    pub fn len(&self) -> usize
        ensures offsets { result ≡ list_count self.now }
        ensures rows { result ≡ length (list_rows self.now) }
    {
        index_len(&self.offsets)
    }

    /// Returns whether the column has no rows.
    pub fn is_empty(&self) -> bool
        ensures { IsTrue result ↔ (list_count self.now ≡ 0) }
    {
        self.len() == 0
    }

    /// Returns the type of the rows.
    pub fn dtype(&self) -> DType
        ensures { result ≡ list_dtype self.now }
    {
        DType::List(
            element_of(self.elements.dtype()),
            self.validity.nullability(),
        )
    }

    /// Returns the row at `index`, borrowed from the elements. Takes no memory.
    pub fn get(&self, index: usize) -> ScalarView<'_, A>
        requires { index < list_count self.now }
        ensures row { sees result ≡ list_at self.now index }
        ensures of_type { IsViewOf (list_dtype self.now) result }
    {
        if !self.validity.is_valid(index, index_len(&self.offsets)) {
            return ScalarView::Null;
        }
        let start = index_at(&self.offsets, index) as usize;
        let size = index_at(&self.sizes, index) as usize;
        let elements: &FlatColumn<A> = &self.elements;
        ScalarView::List {
            elements,
            start,
            size,
        }
    }

    /// Returns the lists of parts that `try_new` accepts. Takes no memory.
    pub(crate) fn new_unchecked(
        elements: Rc<FlatColumn<A>, A>,
        offsets: ArrayRef<A>,
        sizes: ArrayRef<A>,
        validity: RowValidity<A>,
    ) -> Self
        requires { AreListParts elements.value offsets sizes validity }
        ensures { result ≡ lists_of elements.value offsets sizes validity }
    {
        ListViewArray {
            elements,
            offsets,
            sizes,
            validity,
        }
    }

    /// Returns the `count` rows, from row `offset` on, that runs of these lists show: lists over the same elements,
    /// with offsets and sizes in runs, and the validity too where it is stored. Refused only as `OutOfMemory`.
    pub fn decode_with(
        &self,
        alloc: A,
        ends: &PrimitiveArray<A>,
        offset: usize,
        count: usize,
    ) -> VortexResult<ListViewArray<A>>
        requires plain { IsEndsType (primitive_dtype ends.now) }
        requires window { IsWindow (ends_of ends.now) offset count }
        requires paired { list_count self.now ≡ length ends.now.numbers }
        ensures only { IsOkUnless result VortexError.OutOfMemory }
        ensures rows { IfOk result (λ lists. list_rows lists ≡
            run_rows (ends_of ends.now) (list_rows self.now) offset count) }
        ensures dtype { IfOk result (λ lists. list_dtype lists ≡ list_dtype self.now) }
        ensures form { IfOk result (λ lists. AreListsInRuns ends.now.ptype
            (ends_of ends.now) self.now offset count lists) }
    {
        let elements = self.elements.clone()?;
        let offsets = index_in_runs(alloc, ends, &self.offsets, offset, count)?;
        let sizes = match index_in_runs(alloc, ends, &self.sizes, offset, count) {
            Ok(sizes) => sizes,
            Err(error) => {
                drop(offsets);
                return Err(error);
            }
        };
        match run_validity_of_lists(alloc, ends, &self.validity, offset, count) {
            Ok(validity) => Ok(ListViewArray::new_unchecked(elements, offsets, sizes, validity)),
            Err(error) => {
                drop(sizes);
                drop(offsets);
                Err(error)
            }
        }
    }

    /// Returns the rows from `range.start` to `range.end - 1`: lists over the same elements. Offsets, sizes and
    /// validity keep their form: if they are in runs, they are cut to the runs of these rows, else to a range of what
    /// is stored, with bits of validity only where some rows are null and others are not. Refused as `BadRange`, with
    /// both bounds and the number of rows, exactly where the range begins after its end or ends after the last row,
    /// before any memory is taken; else only as `OutOfMemory`.
    pub fn slice(&self, alloc: A, range: Range<usize>) -> VortexResult<ListViewArray<A>>
        ensures refused { let count = list_count self.now in
            IsErrOf result (VortexError.BadRange range.start range.end count) ↔ IsBadRange range.start range.end count }
        ensures only { ¬ IsBadRange range.start range.end (list_count self.now) →
            IsOkUnless result VortexError.OutOfMemory }
        ensures rows { IfOk result (λ part. list_rows part ≡ slice_range (list_rows self.now) range.start range.end) }
        ensures dtype { IfOk result (λ part. list_dtype part ≡ list_dtype self.now) }
        ensures elements { IfOk result (λ part. part.elements ≡ self.now.elements) }
        ensures form { IfOk result (λ part. AreListsInRange self.now range.start range.end part) }
    {
        let count = self.len();
        if range.start > range.end || range.end > count {
            return Err(VortexError::BadRange {
                start: range.start,
                stop: range.end,
                length: count,
            });
        }
        self.rows_between(alloc, range.start, range.end)
    }

    // The rows from `start` to `stop - 1`, which are there.
    fn rows_between(&self, alloc: A, start: usize, stop: usize) -> VortexResult<ListViewArray<A>>
        requires ordered { start ≤ stop }
        requires in_bounds { stop ≤ list_count self.now }
        ensures only { IsOkUnless result VortexError.OutOfMemory }
        ensures rows { IfOk result (λ part. list_rows part ≡ slice_range (list_rows self.now) start stop) }
        ensures dtype { IfOk result (λ part. list_dtype part ≡ list_dtype self.now) }
        ensures form { IfOk result (λ part. AreListsInRange self.now start stop part) }
    {
        let elements = self.elements.clone()?;
        let offsets = index_between(alloc, &self.offsets, start, stop)?;
        let sizes = match index_between(alloc, &self.sizes, start, stop) {
            Ok(sizes) => sizes,
            Err(error) => {
                drop(offsets);
                return Err(error);
            }
        };
        match validity_between(alloc, &self.validity, self.len(), start, stop) {
            Ok(validity) => Ok(ListViewArray::new_unchecked(elements, offsets, sizes, validity)),
            Err(error) => {
                drop(sizes);
                drop(offsets);
                Err(error)
            }
        }
    }

    /// Returns the rows at these positions, null for null, where the valid positions are below the number of rows. They
    /// are lists over the same elements, with flat offsets and sizes as they are stored, 0 for null, and bits of
    /// validity only where some rows are null and others are not. The type has null where the lists or the positions
    /// have. Refused only as `OutOfMemory`.
    pub fn take_at(
        &self,
        alloc: A,
        positions: &[u64],
        places: &Validity<A>,
    ) -> VortexResult<ListViewArray<A>>
        requires counted { HasLength (form_of places.now) (length positions.now) }
        requires within { ArePlacesOf (list_count self.now) positions.now (form_of places.now) }
        ensures only { IsOkUnless result VortexError.OutOfMemory }
        ensures rows { IfOk result (λ part. list_rows part ≡ lists_taken self.now positions.now (form_of places.now)) }
        ensures dtype { IfOk result (λ part. list_dtype part
            ≡ dtype_with (list_dtype self.now) (nullability_taken (nullability_of (list_dtype self.now))
            (nullability_in (form_of places.now)))) }
        ensures form { IfOk result (λ part. AreListsAt self.now positions.now (form_of places.now) part) }
    {
        let elements = self.elements.clone()?;
        let offsets = index_taken(alloc, &self.offsets, positions, places)?;
        let sizes = match index_taken(alloc, &self.sizes, positions, places) {
            Ok(sizes) => sizes,
            Err(error) => {
                drop(offsets);
                return Err(error);
            }
        };
        match validity_taken(alloc, &self.validity, self.len(), positions, places) {
            Ok(validity) => Ok(ListViewArray::new_unchecked(elements, offsets, sizes, validity)),
            Err(error) => {
                drop(sizes);
                drop(offsets);
                Err(error)
            }
        }
    }

    /// Returns the lists in the same form; the elements are shared. Refused only as `OutOfMemory`.
    #[cycle(clone_in)]
    pub(crate) fn clone_in(&self, alloc: A, buffers: Buffers) -> VortexResult<ListViewArray<A>>
        ensures only { IsOkUnless result VortexError.OutOfMemory }
        ensures form { IfOk result (λ lists. lists ≡ self.now) }
    {
        let elements = self.elements.clone()?;
        let offsets = self.offsets.clone_in(alloc, buffers)?;
        let sizes = match self.sizes.clone_in(alloc, buffers) {
            Ok(sizes) => sizes,
            Err(error) => {
                drop(offsets);
                return Err(error);
            }
        };
        let validity = match self.validity.clone_in(alloc, buffers) {
            Ok(validity) => validity,
            Err(error) => {
                drop(sizes);
                drop(offsets);
                return Err(error);
            }
        };
        Ok(ListViewArray {
            elements,
            offsets,
            sizes,
            validity,
        })
    }
}

// Do the parts make a column of lists? Else the first fault.
fn validate_list_parts<A: Allocator + Copy>(
    elements: &FlatColumn<A>,
    offsets: &ArrayRef<A>,
    sizes: &ArrayRef<A>,
    validity: &RowValidity<A>,
) -> VortexResult<()>
    ensures { MatchResult result
        (λ _. AreListParts elements.now offsets.now sizes.now validity.now)
        (λ error. ListPartsFault elements.now offsets.now sizes.now validity.now error) }
{
    if !are_list_types(offsets, sizes, validity) {
        return Err(VortexError::TypeMismatch);
    }
    validate_lists(elements, offsets, sizes, validity)
}

// Are offsets, sizes and validity of the types that a column of lists has?
fn are_list_types<A: Allocator + Copy>(
    offsets: &ArrayRef<A>,
    sizes: &ArrayRef<A>,
    validity: &RowValidity<A>,
) -> bool
    ensures { IsTrue result ↔ AreListTypes offsets.now sizes.now validity.now }
{
    is_index(offsets) && is_index(sizes) && validity.is_plain()
}

// Do parts of the right types make a column of lists? Else the first fault.
fn validate_lists<A: Allocator + Copy>(
    elements: &FlatColumn<A>,
    offsets: &ArrayRef<A>,
    sizes: &ArrayRef<A>,
    validity: &RowValidity<A>,
) -> VortexResult<()>
    requires { AreListTypes offsets.now sizes.now validity.now }
    ensures { MatchResult result
        (λ _. AreLists (lists_of elements.now offsets.now sizes.now validity.now))
        (λ error. ListsFault (lists_of elements.now offsets.now sizes.now validity.now) error) }
{
    let rows = index_len(offsets);
    let sized = index_len(sizes);
    if sized != rows {
        return Err(VortexError::ColumnLength {
            left: rows,
            right: sized,
        });
    }
    if let Some(flagged) = validity.len() {
        if flagged != rows {
            return Err(VortexError::ColumnLength {
                left: rows,
                right: flagged,
            });
        }
    }
    match first_outside(elements, offsets, sizes, validity) {
        Some(row) => Err(out_of_bounds(row, elements.len())),
        None => Ok(()),
    }
}

// The type of elements that lie in a flat column of this type.
fn element_of(dtype: DType) -> ElementDType
    ensures { result ≡ element_type_of dtype }
{
    match dtype {
        DType::Bool(nullability) => ElementDType::Bool(nullability),
        DType::Primitive(ptype, nullability) => ElementDType::Primitive(ptype, nullability),
        DType::Decimal(decimal, nullability) => ElementDType::Decimal(decimal, nullability),
        DType::Utf8(nullability) => ElementDType::Utf8(nullability),
        DType::Binary(nullability) => ElementDType::Binary(nullability),
        DType::List(element, _) => element,
    }
}
