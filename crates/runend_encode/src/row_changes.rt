//! Which of 64 rows differ from the row before, by the kind of their column.
ghost use Rattle.std.specs.Prelude.{◌≡◌, ◌↔◌, ◌+◌, ◌*◌, ◌<◌, ℕ, length};
ghost use Rattle.std.specs.Int.{bit_at};
ghost use Rattle.column_core.specs.Leaf.{leaf_rows, single_rows};
ghost use Rattle.runend_windows.specs.Starts.{GoesOn};

use crate::item_changes::{changed_integers, changed_numbers};
use crate::view_changes::{changed_views, differing_rows};
use column_core::{BoolArray, DecimalArray, PrimitiveArray, VarBinViewArray};
use column_ops::ColumnOps;
use runend_windows::{changed_bits, changed_optionals};
use std::alloc::Allocator;

/// Finds the changes of a flat column of one kind, 64 rows at a time. Loops over the rows are compiled for each kind by
/// itself.
pub(crate) trait RowChanges<A: Allocator + Copy>: ColumnOps<A> + Drop {
    /// Returns a bit for each of the 64 rows from row `index` * 64 on, the first of them lowest: whether it differs
    /// from the row before, null being equal to null. The bit of the first row of all is false. Bits after the last row
    /// may be any.
    fn change_word(&self, index: usize) -> u64
        requires { index * 64 < length (leaf_rows (Self.leaf self.now)) }
        ensures { (lane : ℕ) → lane < 64 → index * 64 + lane < length (leaf_rows (Self.leaf self.now)) →
            ((bit_at result lane ≡ 0) ↔ GoesOn (single_rows (Self.leaf self.now)) (index * 64 + lane)) };
}

impl<A: Allocator + Copy> RowChanges<A> for PrimitiveArray<A> {
    #[inline(always)]
    fn change_word(&self, index: usize) -> u64 {
        let items = changed_integers(self.values(), index);
        changed_optionals(self.validity(), index, items)
    }
}

impl<A: Allocator + Copy> RowChanges<A> for BoolArray<A> {
    #[inline(always)]
    fn change_word(&self, index: usize) -> u64 {
        let items = changed_bits(self.values().words(), index);
        changed_optionals(self.validity(), index, items)
    }
}

impl<A: Allocator + Copy> RowChanges<A> for DecimalArray<A> {
    #[inline(always)]
    fn change_word(&self, index: usize) -> u64 {
        let items = changed_numbers(self.values(), index * 64);
        changed_optionals(self.validity(), index, items)
    }
}

impl<A: Allocator + Copy> RowChanges<A> for VarBinViewArray<A> {
    #[inline(always)]
    fn change_word(&self, index: usize) -> u64 {
        let stored = self.views();
        let start = index * 64;
        let items = changed_views(stored, start);
        let unlike = changed_optionals(self.validity(), index, items);
        differing_rows(self, start, unlike)
    }
}
