//! Columns whose rows are looked up one by one: booleans, texts and bytes.
ghost use Rattle.std.specs.Prelude.{◌≡◌, ◌<◌, Some, length, slice_get};
ghost use Rattle.column_core.specs.Leaf.{Leaf, leaf_dtype, leaf_rows, single_rows, OfTruths, OfVarBins};
ghost use Rattle.column_core.specs.ScalarView.{sees, IsViewOf};

use column_core::{BoolArray, ScalarView, VarBinViewArray};
use std::alloc::Allocator;

/// Reads the rows of a flat column of one kind. Loops over them are compiled for each kind by
/// itself.
pub(crate) trait FlatRows<A: Allocator> {
    // The form of the column.
    ghost leaf: { Self → Leaf };

    /// Returns the row at `index`, borrowed.
    fn row(&self, index: usize) -> ScalarView<'_, A>
        requires { index < length (leaf_rows (leaf self.now)) }
        ensures row { slice_get (single_rows (leaf self.now)) index ≡ Some (sees result) }
        ensures of_type { IsViewOf (leaf_dtype (leaf self.now)) result };
}

impl<A: Allocator> FlatRows<A> for BoolArray<A> {
    ghost leaf = { λ array. OfTruths array };

    fn row(&self, index: usize) -> ScalarView<'_, A> {
        self.get(index)
    }
}

impl<A: Allocator> FlatRows<A> for VarBinViewArray<A> {
    ghost leaf = { λ array. OfVarBins array };

    fn row(&self, index: usize) -> ScalarView<'_, A> {
        self.get(index)
    }
}
