//! Flat columns of any type.
ghost use Rattle.std.specs.Prelude.{◌≡◌, ◌<◌, ◌↔◌, Some, length, map, option_map, slice_get, slice_range, IfOk, IsErrOf, IsOkUnless};
ghost use Rattle.column_core.specs.Value.{Single};
ghost use Rattle.column_core.specs.Leaf.{leaf_count, leaf_rows, leaf_dtype, leaf_validity};
ghost use Rattle.column_base.specs.Validity.{form_of};
ghost use Rattle.column_base.specs.ValidityForm.{AllNull, HasLength, IsNormal};
ghost use Rattle.column_core.specs.FlatColumn.{leaf_of};
ghost use Rattle.column_core.specs.FlatView.{leaf_in};
ghost use Rattle.column_core.specs.ScalarView.{sees, IsViewOf};
ghost use Rattle.column_core.specs.Ranges.{IsBadRange};
ghost use Rattle.column_core.specs.Refusal.{range_fault, IsRefusedBy};

use crate::boolean::BoolArray;
use crate::decimal::DecimalArray;
use crate::flat_view::FlatView;
use crate::primitive::PrimitiveArray;
use crate::varbinview::VarBinViewArray;
use crate::view::ScalarView;
use column_base::{DType, Validity, VortexError, VortexResult};
use std::alloc::Allocator;
use std::ops::Range;

/// Holds a column whose rows are stored one by one.
#[derive(Drop)]
pub enum FlatColumn<A: Allocator> {
    Primitive(PrimitiveArray<A>),
    Bool(BoolArray<A>),
    Decimal(DecimalArray<A>),
    VarBinView(VarBinViewArray<A>),
}

impl<A: Allocator> FlatColumn<A> {
    /// Returns the column, borrowed.
    pub fn view(&self) -> FlatView<'_, A>
        ensures { leaf_in result ≡ leaf_of self.now }
    {
        match self {
            FlatColumn::Primitive(array) => FlatView::Primitive(array),
            FlatColumn::Bool(array) => FlatView::Bool(array),
            FlatColumn::Decimal(array) => FlatView::Decimal(array),
            FlatColumn::VarBinView(array) => FlatView::VarBinView(array),
        }
    }

    /// Returns how many rows there are.
    pub fn len(&self) -> usize
        ensures { result ≡ length (leaf_rows (leaf_of self.now)) }
    {
        match self {
            FlatColumn::Primitive(array) => array.len(),
            FlatColumn::Bool(array) => array.len(),
            FlatColumn::Decimal(array) => array.len(),
            FlatColumn::VarBinView(array) => array.len(),
        }
    }

    /// Returns the type of the rows.
    pub fn dtype(&self) -> DType
        ensures { result ≡ leaf_dtype (leaf_of self.now) }
    {
        match self {
            FlatColumn::Primitive(array) => array.dtype(),
            FlatColumn::Bool(array) => array.dtype(),
            FlatColumn::Decimal(array) => array.dtype(),
            FlatColumn::VarBinView(array) => array.dtype(),
        }
    }

    /// Returns which rows are valid.
    pub fn validity(&self) -> &Validity<A>
        ensures form { form_of result.now ≡ leaf_validity (leaf_of self.now) }
        ensures counted { HasLength (leaf_validity (leaf_of self.now)) (leaf_count (leaf_of self.now)) }
        ensures rows { length (leaf_rows (leaf_of self.now)) ≡ leaf_count (leaf_of self.now) }
    {
        match self {
            FlatColumn::Primitive(array) => array.validity(),
            FlatColumn::Bool(array) => array.validity(),
            FlatColumn::Decimal(array) => array.validity(),
            FlatColumn::VarBinView(array) => array.validity(),
        }
    }

    /// Returns the row at `index`, borrowed.
    #[tactic(auto, using(crate::proofs::OptionalRows::rows_within))]
    pub fn get(&self, index: usize) -> ScalarView<'_, A>
        requires { index < length (leaf_rows (leaf_of self.now)) }
        ensures row { slice_get (map (option_map Single) (leaf_rows (leaf_of self.now))) index ≡ Some (sees result) }
        ensures of_type { IsViewOf (leaf_dtype (leaf_of self.now)) result }
    {
        match self {
            FlatColumn::Primitive(array) => array.get(index),
            FlatColumn::Bool(array) => array.get(index),
            FlatColumn::Decimal(array) => array.get(index),
            FlatColumn::VarBinView(array) => array.get(index),
        }
    }
}

impl<A: Allocator + Copy> FlatColumn<A> {
    /// Returns a copy of the column in its form. Shares the buffers that are shared, and copies the others. Refused
    /// only as `OutOfMemory`.
    pub fn try_clone(&self, alloc: A) -> VortexResult<FlatColumn<A>>
        ensures only { IsOkUnless result VortexError.OutOfMemory }
        ensures form { IfOk result (λ column. leaf_of column ≡ leaf_of self.now) }
    {
        match self {
            FlatColumn::Primitive(array) => Ok(FlatColumn::Primitive(array.try_clone(alloc)?)),
            FlatColumn::Bool(array) => Ok(FlatColumn::Bool(array.try_clone(alloc)?)),
            FlatColumn::Decimal(array) => Ok(FlatColumn::Decimal(array.try_clone(alloc)?)),
            FlatColumn::VarBinView(array) => Ok(FlatColumn::VarBinView(array.try_clone(alloc)?)),
        }
    }

    /// Returns a copy of the column in its form, with buffers that nothing else shares: a longer buffer that these are
    /// a part of may then be freed. The bytes of texts stay shared. Refused only as `OutOfMemory`.
    pub fn compact(&self, alloc: A) -> VortexResult<FlatColumn<A>>
        ensures only { IsOkUnless result VortexError.OutOfMemory }
        ensures form { IfOk result (λ column. leaf_of column ≡ leaf_of self.now) }
    {
        match self {
            FlatColumn::Primitive(array) => Ok(FlatColumn::Primitive(array.compact(alloc)?)),
            FlatColumn::Bool(array) => Ok(FlatColumn::Bool(array.compact(alloc)?)),
            FlatColumn::Decimal(array) => Ok(FlatColumn::Decimal(array.compact(alloc)?)),
            FlatColumn::VarBinView(array) => Ok(FlatColumn::VarBinView(array.compact(alloc)?)),
        }
    }

    /// Returns the rows from `range.start` to `range.end - 1`. Shares the buffers that are shared, and copies the
    /// others. Refused as `BadRange`, with both bounds and the number of rows, exactly where the range begins after its
    /// end or ends after the last row, before any memory is taken; else only as `OutOfMemory`.
    pub fn slice(&self, alloc: A, range: Range<usize>) -> VortexResult<FlatColumn<A>>
        ensures refused { let count = length (leaf_rows (leaf_of self.now)) in
            IsErrOf result (VortexError.BadRange range.start range.end count) ↔ IsBadRange range.start range.end count }
        ensures only { ¬ IsBadRange range.start range.end (length (leaf_rows (leaf_of self.now))) →
            IsOkUnless result VortexError.OutOfMemory }
        ensures refusal { IsRefusedBy (range_fault range.start range.end (length (leaf_rows (leaf_of self.now))))
            result }
        ensures rows { IfOk result (λ part. leaf_rows (leaf_of part) ≡
            slice_range (leaf_rows (leaf_of self.now)) range.start range.end) }
        ensures dtype { IfOk result (λ part. leaf_dtype (leaf_of part) ≡ leaf_dtype (leaf_of self.now)) }
        ensures normal { IfOk result (λ part. IsNormal (leaf_validity (leaf_of part))) }
        ensures empty { IfOk result (λ part. leaf_validity (leaf_of part) ≡ AllNull → range.start < range.end) }
    {
        match self {
            FlatColumn::Primitive(array) => {
                let part = array.slice(alloc, range)?;
                Ok(FlatColumn::Primitive(part))
            }
            FlatColumn::Bool(array) => {
                let part = array.slice(alloc, range)?;
                Ok(FlatColumn::Bool(part))
            }
            FlatColumn::Decimal(array) => {
                let part = array.slice(alloc, range)?;
                Ok(FlatColumn::Decimal(part))
            }
            FlatColumn::VarBinView(array) => {
                let part = array.slice(alloc, range)?;
                Ok(FlatColumn::VarBinView(part))
            }
        }
    }
}
