//! Flat columns of any type, borrowed.
ghost use Rattle.std.specs.Prelude.{◌≡◌, ◌<◌, ◌↔◌, IsTrue, Some, length, map, option_map, slice_get, IfOk, IsOkUnless};
ghost use Rattle.column_base.specs.Validity.{form_of};
ghost use Rattle.column_base.specs.ValidityForm.{HasLength};
ghost use Rattle.column_core.specs.FlatColumn.{leaf_of};
ghost use Rattle.column_core.specs.FlatView.{leaf_in};
ghost use Rattle.column_core.specs.Leaf.{leaf_count, leaf_dtype, leaf_rows, leaf_validity};
ghost use Rattle.column_core.specs.ScalarView.{sees, IsViewOf};
ghost use Rattle.column_core.specs.Value.{Single};

use crate::boolean::BoolArray;
use crate::decimal::DecimalArray;
use crate::flat::FlatColumn;
use crate::primitive::PrimitiveArray;
use crate::varbinview::VarBinViewArray;
use crate::view::ScalarView;
use column_base::{DType, Validity, VortexError, VortexResult};
use std::alloc::Allocator;

/// Borrows a column whose rows are stored one by one. A call that only reads such a column takes
/// this view, so that nothing is copied for it.
#[derive(Clone, Copy)]
pub enum FlatView<'a, A: Allocator> {
    Primitive(&'a PrimitiveArray<A>),
    Bool(&'a BoolArray<A>),
    Decimal(&'a DecimalArray<A>),
    VarBinView(&'a VarBinViewArray<A>),
}

impl<'a, A: Allocator> FlatView<'a, A> {
    /// Returns how many rows there are.
    pub fn len(self) -> usize
        ensures { result ≡ length (leaf_rows (leaf_in self.entry)) }
    {
        match self {
            FlatView::Primitive(array) => array.len(),
            FlatView::Bool(array) => array.len(),
            FlatView::Decimal(array) => array.len(),
            FlatView::VarBinView(array) => array.len(),
        }
    }

    /// Returns whether the column has no rows.
    pub fn is_empty(self) -> bool
        ensures { IsTrue result ↔ (length (leaf_rows (leaf_in self.entry)) ≡ 0) }
    {
        self.len() == 0
    }

    /// Returns the type of the rows.
    pub fn dtype(self) -> DType
        ensures { result ≡ leaf_dtype (leaf_in self.entry) }
    {
        match self {
            FlatView::Primitive(array) => array.dtype(),
            FlatView::Bool(array) => array.dtype(),
            FlatView::Decimal(array) => array.dtype(),
            FlatView::VarBinView(array) => array.dtype(),
        }
    }

    /// Returns which rows are valid.
    pub fn validity(self) -> &'a Validity<A>
        ensures form { form_of result.now ≡ leaf_validity (leaf_in self.entry) }
        ensures counted { HasLength (leaf_validity (leaf_in self.entry)) (leaf_count (leaf_in self.entry)) }
        ensures rows { length (leaf_rows (leaf_in self.entry)) ≡ leaf_count (leaf_in self.entry) }
    {
        match self {
            FlatView::Primitive(array) => array.validity(),
            FlatView::Bool(array) => array.validity(),
            FlatView::Decimal(array) => array.validity(),
            FlatView::VarBinView(array) => array.validity(),
        }
    }

    /// Returns the row at `index`, borrowed from the column for as long as the view borrows it.
    #[tactic(auto, using(crate::proofs::OptionalRows::rows_within))]
    pub fn get(self, index: usize) -> ScalarView<'a, A>
        requires { index < length (leaf_rows (leaf_in self)) }
        ensures row { slice_get (map (option_map Single) (leaf_rows (leaf_in self.entry))) index ≡ Some (sees result) }
        ensures of_type { IsViewOf (leaf_dtype (leaf_in self.entry)) result }
    {
        match self {
            FlatView::Primitive(array) => array.get(index),
            FlatView::Bool(array) => array.get(index),
            FlatView::Decimal(array) => array.get(index),
            FlatView::VarBinView(array) => array.get(index),
        }
    }
}

impl<'a, A: Allocator + Copy> FlatView<'a, A> {
    /// Returns a column in the same form, in memory of its own. Refused only as `OutOfMemory`.
    pub fn try_clone(self, alloc: A) -> VortexResult<FlatColumn<A>>
        ensures only { IsOkUnless result VortexError.OutOfMemory }
        ensures form { IfOk result (λ column. leaf_of column ≡ leaf_in self.entry) }
    {
        match self {
            FlatView::Primitive(array) => Ok(FlatColumn::Primitive(array.try_clone(alloc)?)),
            FlatView::Bool(array) => Ok(FlatColumn::Bool(array.try_clone(alloc)?)),
            FlatView::Decimal(array) => Ok(FlatColumn::Decimal(array.try_clone(alloc)?)),
            FlatView::VarBinView(array) => Ok(FlatColumn::VarBinView(array.try_clone(alloc)?)),
        }
    }
}
