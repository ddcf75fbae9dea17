//! Arrays of any form.
ghost use Rattle.std.specs.Prelude.{◌≡◌, ◌<◌, ◌≤◌, ◌↔◌, Some, [], pos, length, slice_get, IsTrue, IfNone, IfOk, IfSome, IsErrOf, IsOkUnless};
ghost use Rattle.column_core.specs.FlatView.{leaf_in};
ghost use Rattle.column_core.specs.PrimitiveForm.{primitive_dtype};
ghost use Rattle.column_core.specs.ScalarView.{sees, IsViewOf};
ghost use Rattle.runend_windows.specs.Ends.{IsEndsType, ends_of};
ghost use Rattle.runend_windows.specs.Window.{IsWindow, run_rows};
ghost use Rattle.runend_array.specs.Array.{column_of, dtype_of, rows};
ghost use Rattle.runend_array.specs.Canonical.{IsCanonical, IsFlatPart, canonical_column};
ghost use Rattle.runend_array.specs.Column.{OfConstant, OfLeaf, OfLists, IsLeaf, column_dtype, column_of_runs, column_rows};
ghost use Rattle.runend_array.specs.Encoding.{IsComputedFlat};

use crate::array::RunEndArray;
use crate::canonical::{Canonical, array_of};
use crate::constant::ConstantArray;
use crate::copies::{Buffers, copy_flat};
use crate::lists::ListViewArray;
use crate::session::ExecutionCtx;
use crate::written::{no_rows, write_constant};
use column_core::{
    BoolArray, DType, DecimalArray, FlatColumn, FlatView, PrimitiveArray, ScalarView,
    VarBinViewArray, VortexError, VortexResult,
};
use runend_windows::decode_flat;
use std::alloc::Allocator;
use std::sync::Arc;

/// Holds a column in one of its forms: flat, lists, one value in each row, or run-end encoded.
#[cycle(array)]
#[derive(Drop)]
pub enum ArrayRef<A: Allocator> {
    Primitive(PrimitiveArray<A>),
    Bool(BoolArray<A>),
    Decimal(DecimalArray<A>),
    VarBinView(VarBinViewArray<A>),
    ListView(Box<ListViewArray<A>, A>),
    Constant(ConstantArray<A>),
    RunEnd(Arc<RunEndArray<A>, A>),
}

impl<A: Allocator + Copy> ArrayRef<A> {
    /// Returns how many rows there are.
    pub fn len(&self) -> usize
        ensures { result ≡ length (rows self.now) }
    {
        match self {
            ArrayRef::ListView(lists) => lists.len(),
            ArrayRef::Constant(array) => array.len(),
            ArrayRef::RunEnd(array) => array.len(),
            _ => self.as_flat().len(),
        }
    }

    /// Returns whether the array has no rows.
    pub fn is_empty(&self) -> bool
        ensures { IsTrue result ↔ (length (rows self.now) ≡ 0) }
    {
        self.len() == 0
    }

    /// Returns the type of the rows.
    #[cycle(dtype)]
    pub fn dtype(&self) -> DType
        ensures { result ≡ dtype_of self.now }
    {
        match self {
            ArrayRef::ListView(lists) => lists.dtype(),
            ArrayRef::Constant(array) => array.dtype(),
            ArrayRef::RunEnd(array) => array.values_dtype(),
            _ => self.as_flat().dtype(),
        }
    }

    /// Returns a run column, as a column of any form. Refused only as `OutOfMemory`.
    pub fn of_runs(alloc: A, runs: RunEndArray<A>) -> VortexResult<ArrayRef<A>>
        ensures only { IsOkUnless result VortexError.OutOfMemory }
        ensures form { IfOk result (λ array. column_of array ≡ column_of_runs runs) }
    {
        match Arc::new(alloc, runs) {
            Ok(shared) => Ok(ArrayRef::RunEnd(shared)),
            Err(failed) => {
                drop(failed);
                Err(VortexError::OutOfMemory)
            }
        }
    }

    /// Returns the flat column that this array is, borrowed, or `None` for an array of another form.
    pub fn flat_view(&self) -> Option<FlatView<'_, A>>
        ensures flat { IfSome result (λ view. column_of self.now ≡ OfLeaf (leaf_in view)) }
        ensures other { IfNone result (¬ IsLeaf (column_of self.now)) }
    {
        match self {
            ArrayRef::Primitive(array) => Some(FlatView::Primitive(array)),
            ArrayRef::Bool(array) => Some(FlatView::Bool(array)),
            ArrayRef::Decimal(array) => Some(FlatView::Decimal(array)),
            ArrayRef::VarBinView(array) => Some(FlatView::VarBinView(array)),
            ArrayRef::ListView(_) | ArrayRef::Constant(_) | ArrayRef::RunEnd(_) => None,
        }
    }

    // The flat column, borrowed, of an array that has none of the other forms.
    pub(crate) fn as_flat(&self) -> FlatView<'_, A>
        requires { IsLeaf (column_of self.now) }
        ensures { column_of self.now ≡ OfLeaf (leaf_in result) }
    {
        match self.flat_view() {
            Some(flat) => flat,
            None => unreachable!(),
        }
    }

    /// Returns the row at `index`, borrowed from the array. Refused as `OutOfBounds`, with the index and the number of
    /// rows, exactly from that number on. Takes no memory.
    #[cycle(scalar_at)]
    pub fn scalar_at(&self, index: usize) -> VortexResult<ScalarView<'_, A>>
        ensures row { IfOk result (λ view. slice_get (rows self.now) index ≡ Some (sees view)) }
        ensures of_type { IfOk result (λ view. IsViewOf (dtype_of self.now) view) }
        ensures refused { IsErrOf result (VortexError.OutOfBounds (pos index) (length (rows self.now))) ↔
            (length (rows self.now) ≤ index) }
        ensures only { IsOkUnless result (VortexError.OutOfBounds (pos index) (length (rows self.now))) }
    {
        match self {
            ArrayRef::ListView(lists) => {
                if index >= lists.len() {
                    return Err(out_of_bounds(index, lists.len()));
                }
                Ok(lists.get(index))
            }
            ArrayRef::Constant(array) => {
                if index >= array.len() {
                    return Err(out_of_bounds(index, array.len()));
                }
                Ok(array.scalar_view())
            }
            ArrayRef::RunEnd(array) => array.row_at(index),
            _ => {
                let flat = self.as_flat();
                if index >= flat.len() {
                    return Err(out_of_bounds(index, flat.len()));
                }
                Ok(flat.get(index))
            }
        }
    }

    /// Returns an array that is equal in form. Shares the buffers that are shared, and copies the others. Refused only
    /// as `OutOfMemory`.
    pub fn try_clone(&self, ctx: &mut ExecutionCtx<A>) -> VortexResult<ArrayRef<A>>
        ensures only { IsOkUnless result VortexError.OutOfMemory }
        ensures form { IfOk result (λ array. column_of array ≡ column_of self.now) }
        ensures session { ctx.new ≡ ctx.old }
    {
        self.clone_in(*ctx.allocator(), Buffers::Shared)
    }

    /// Returns an array that is equal in form, whose ends, numbers, bits and views are in buffers that nothing else
    /// shares: the longer buffers that this array shows a part of may then be freed. The bytes of texts and the
    /// elements of lists stay shared. Refused only as `OutOfMemory`.
    pub fn compact(&self, ctx: &mut ExecutionCtx<A>) -> VortexResult<ArrayRef<A>>
        ensures only { IsOkUnless result VortexError.OutOfMemory }
        ensures form { IfOk result (λ array. column_of array ≡ column_of self.now) }
        ensures session { ctx.new ≡ ctx.old }
    {
        self.clone_in(*ctx.allocator(), Buffers::Compact)
    }

    #[cycle(clone_in)]
    pub(crate) fn clone_in(&self, alloc: A, buffers: Buffers) -> VortexResult<ArrayRef<A>>
        ensures only { IsOkUnless result VortexError.OutOfMemory }
        ensures form { IfOk result (λ array. column_of array ≡ column_of self.now) }
    {
        match self {
            ArrayRef::ListView(lists) => match lists.clone_in(alloc, buffers) {
                Ok(copy) => of_lists(alloc, copy),
                Err(error) => Err(error),
            },
            ArrayRef::Constant(array) => match array.clone_in(alloc) {
                Ok(copy) => Ok(ArrayRef::Constant(copy)),
                Err(error) => Err(error),
            },
            ArrayRef::RunEnd(array) => match buffers {
                Buffers::Shared => Ok(ArrayRef::RunEnd(array.clone()?)),
                Buffers::Compact => match array.clone_in(alloc, buffers) {
                    Ok(copy) => ArrayRef::of_runs(alloc, copy),
                    Err(error) => Err(error),
                },
            },
            _ => {
                let copy = copy_flat(alloc, self.as_flat(), buffers)?;
                Ok(array_of(copy))
            }
        }
    }

    /// Returns the rows in a flat form. A flat column is copied as it is; a constant and the rows that runs show are
    /// written out, with 0, false or the view of nothing under null; runs of lists become lists over the same elements.
    /// Buffers of texts and elements of lists are shared. Refused only as `OutOfMemory`.
    pub fn canonicalize(&self, ctx: &mut ExecutionCtx<A>) -> VortexResult<ArrayRef<A>>
        ensures only { IsOkUnless result VortexError.OutOfMemory }
        ensures rows { IfOk result (λ array. rows array ≡ rows self.now) }
        ensures dtype { IfOk result (λ array. dtype_of array ≡ dtype_of self.now) }
        ensures form { IfOk result (λ array. IsCanonical (column_of self.now) (column_of array)) }
        ensures session { ctx.new ≡ ctx.old }
    {
        let flat = self.to_canonical(ctx)?;
        flat.into_array(*ctx.allocator())
    }

    /// Returns the rows in a flat form, as `canonicalize` writes them, as a `Canonical`. Refused only as `OutOfMemory`.
    pub fn to_canonical(&self, ctx: &mut ExecutionCtx<A>) -> VortexResult<Canonical<A>>
        ensures only { IsOkUnless result VortexError.OutOfMemory }
        ensures rows { IfOk result (λ flat. column_rows (canonical_column flat) ≡ rows self.now) }
        ensures dtype { IfOk result (λ flat. column_dtype (canonical_column flat) ≡ dtype_of self.now) }
        ensures form { IfOk result (λ flat. IsCanonical (column_of self.now) (canonical_column flat)) }
        ensures session { ctx.new ≡ ctx.old }
    {
        let prefill_runs = ctx.session().thresholds().prefill_runs;
        self.canonicalize_in(*ctx.allocator(), prefill_runs)
    }

    // From `prefill_runs` runs on, all rows of booleans are first filled with what most runs show.
    pub(crate) fn canonicalize_in(
        &self,
        alloc: A,
        prefill_runs: usize,
    ) -> VortexResult<Canonical<A>>
        ensures only { IsOkUnless result VortexError.OutOfMemory }
        ensures rows { IfOk result (λ flat. column_rows (canonical_column flat) ≡ rows self.now) }
        ensures dtype { IfOk result (λ flat. column_dtype (canonical_column flat) ≡ dtype_of self.now) }
        ensures form { IfOk result (λ flat. IsCanonical (column_of self.now) (canonical_column flat)) }
    {
        match self {
            ArrayRef::ListView(lists) => {
                let copy = lists.clone_in(alloc, Buffers::Shared)?;
                Ok(Canonical::List(copy))
            }
            ArrayRef::Constant(array) => write_constant(alloc, array),
            ArrayRef::RunEnd(array) => array.canonicalize_in(alloc, prefill_runs),
            _ => {
                let copy = self.as_flat().try_clone(alloc)?;
                Ok(Canonical::Flat(copy))
            }
        }
    }

    // The `count` rows, from row `offset` on, that runs of these values show, in a flat form, with 0, false or the view
    // of nothing under null. Values that are flat are read where they are; a constant and runs are made flat first.
    #[cycle(canonicalize_in)]
    pub(crate) fn decode_with(
        &self,
        alloc: A,
        ends: &PrimitiveArray<A>,
        offset: usize,
        count: usize,
        prefill_runs: usize,
    ) -> VortexResult<Canonical<A>>
        requires plain { IsEndsType (primitive_dtype ends.now) }
        requires window { IsWindow (ends_of ends.now) offset count }
        requires paired { length (rows self.now) ≡ length ends.now.numbers }
        ensures only { IsOkUnless result VortexError.OutOfMemory }
        ensures rows { IfOk result (λ flat. column_rows (canonical_column flat) ≡
            run_rows (ends_of ends.now) (rows self.now) offset count) }
        ensures dtype { IfOk result (λ flat. column_dtype (canonical_column flat) ≡ dtype_of self.now) }
        ensures form { IfOk result (λ flat. IsComputedFlat (canonical_column flat)) }
    {
        match self {
            ArrayRef::ListView(lists) => {
                let shown = lists.decode_with(alloc, ends, offset, count)?;
                Ok(Canonical::List(shown))
            }
            ArrayRef::Constant(constant) => {
                let values = write_constant(alloc, constant)?;
                values.decode_with(alloc, ends, offset, count, prefill_runs)
            }
            ArrayRef::RunEnd(array) => {
                let values = array.canonicalize_in(alloc, prefill_runs)?;
                values.decode_with(alloc, ends, offset, count, prefill_runs)
            }
            _ => {
                let values = self.as_flat();
                let array = decode_flat(alloc, ends, values, offset, count, prefill_runs)?;
                Ok(Canonical::Flat(array))
            }
        }
    }

    /// Returns the rows from `start` to `stop - 1`, in a flat form. Looks only at those values of a run column that
    /// these rows show, and shares the buffers of a flat form where it can. Refused only as `OutOfMemory`.
    #[cycle(rows_between)]
    pub fn rows_between(&self, alloc: A, start: usize, stop: usize) -> VortexResult<Canonical<A>>
        requires ordered { start ≤ stop }
        requires within { stop ≤ length (rows self.now) }
        ensures only { IsOkUnless result VortexError.OutOfMemory }
        ensures part { IfOk result (λ flat. IsFlatPart (column_of self.now) start stop (canonical_column flat)) }
    {
        if start == stop {
            return no_rows(alloc, self.dtype());
        }
        match self {
            ArrayRef::Primitive(array) => {
                prove!(stop <= array.len());
                match array.slice(alloc, start..stop) {
                    Ok(part) => Ok(Canonical::Flat(FlatColumn::Primitive(part))),
                    Err(error) => Err(error),
                }
            }
            ArrayRef::Bool(array) => {
                prove!(stop <= array.len());
                match array.slice(alloc, start..stop) {
                    Ok(part) => Ok(Canonical::Flat(FlatColumn::Bool(part))),
                    Err(error) => Err(error),
                }
            }
            ArrayRef::Decimal(array) => {
                prove!(stop <= array.len());
                match array.slice(alloc, start..stop) {
                    Ok(part) => Ok(Canonical::Flat(FlatColumn::Decimal(part))),
                    Err(error) => Err(error),
                }
            }
            ArrayRef::VarBinView(array) => {
                prove!(stop <= array.len());
                let part = array.slice(alloc, start..stop)?;
                Ok(Canonical::Flat(FlatColumn::VarBinView(part)))
            }
            ArrayRef::ListView(lists) => {
                prove!(stop <= lists.len());
                let part = lists.slice(alloc, start..stop)?;
                Ok(Canonical::List(part))
            }
            ArrayRef::Constant(array) => constant_between(alloc, array, start, stop),
            ArrayRef::RunEnd(array) => array.rows_between(alloc, start, stop),
        }
    }
}

// The rows of a constant from `start` to `stop - 1`, of which there has to be one at least, written out.
fn constant_between<A: Allocator + Copy>(
    alloc: A,
    array: &ConstantArray<A>,
    start: usize,
    stop: usize,
) -> VortexResult<Canonical<A>>
    requires some { start < stop }
    requires within { stop ≤ array.now.count }
    ensures only { IsOkUnless result VortexError.OutOfMemory }
    ensures part { IfOk result (λ flat. IsFlatPart (OfConstant array.now) start stop (canonical_column flat)) }
{
    let part = array.repeated(alloc, stop - start)?;
    let made = write_constant(alloc, &part);
    drop(part);
    let rows = made?;
    Ok(rows)
}

/// Returns the refusal of an index that is not below the number of rows.
pub(crate) fn out_of_bounds(index: usize, length: usize) -> VortexError
    ensures { result ≡ VortexError.OutOfBounds (pos index) length }
{
    VortexError::OutOfBounds {
        index: index as i128,
        length,
    }
}

/// Lists as an array. Refused only as `OutOfMemory`.
pub(crate) fn of_lists<A: Allocator + Copy>(
    alloc: A,
    lists: ListViewArray<A>,
) -> VortexResult<ArrayRef<A>>
    ensures only { IsOkUnless result VortexError.OutOfMemory }
    ensures form { IfOk result (λ array. column_of array ≡ OfLists lists) }
{
    let boxed = Box::new(alloc, lists)?;
    Ok(ArrayRef::ListView(boxed))
}
