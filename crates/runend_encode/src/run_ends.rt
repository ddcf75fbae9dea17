//! Where the runs of a flat column start and end.
ghost use Rattle.std.specs.Prelude.{◌≡◌, ◌∷◌, ◌++◌, ℕ, List, [], IfOk, IsOkUnless, drop, length};
ghost use Rattle.column_base.specs.Bits.{set_indices_of};
ghost use Rattle.column_core.specs.Leaf.{single_rows};
ghost use Rattle.runend_windows.specs.Starts.{starts_from};
ghost use Rattle.runend_encode.specs.Starts.{AreRunEnds};

use crate::changes::changes_of;
use crate::row_changes::RowChanges;
use column_core::{BitBuffer, VortexError, VortexResult};
use std::alloc::Allocator;
use std::marker::Model;

/// Returns the row that each longest stretch of equal rows ends before, null being equal to null: each row that differs
/// from the row before, and at last the number of rows. Refused only as `OutOfMemory`.
pub(crate) fn run_ends<R: RowChanges<A>, A: Allocator + Copy>(
    alloc: A,
    column: &R,
) -> VortexResult<RunBounds<A>>
    ensures only { IsOkUnless result VortexError.OutOfMemory }
    ensures ends { IfOk result (λ bounds. AreRunEnds (single_rows (R.leaf column.now)) bounds) }
{
    if column.row_count() == 0 {
        return RunBounds::of_none(alloc);
    }
    let changes = changes_of(alloc, column)?;
    let bounds = RunBounds::of_changes(alloc, &changes);
    drop(changes);
    bounds
}

/// Holds where runs start and end; the first starts at row 0. In contracts it is the list of their ends.
#[derive(Drop)]
pub(crate) struct RunBounds<A: Allocator> {
    /// Holds row 0, and the row that each run ends before, at which the next one starts.
    rows: Vec<u64, A>,
}

impl<A: Allocator> Model for RunBounds<A> {
    ghost Value = { List ℕ };

    ghost view = { λ b. drop 1 b.rows.items };

    ghost invariant = { λ b. b.rows.items ≡ 0 ∷ drop 1 b.rows.items };
}

impl<A: Allocator + Copy> RunBounds<A> {
    /// Returns the row that each run ends before.
    pub(crate) fn ends(&self) -> &[u64]
        ensures { result.now ≡ self.now }
    {
        &self.rows[1..]
    }

    /// Returns the first row of each run.
    pub(crate) fn starts(&self) -> &[u64]
        ensures { result.now ≡ starts_from 0 self.now }
    {
        &self.rows[..self.rows.len() - 1]
    }

    // Those of no run.
    fn of_none(alloc: A) -> VortexResult<Self>
        ensures only { IsOkUnless result VortexError.OutOfMemory }
        ensures none { IfOk result (λ bounds. bounds ≡ []) }
    {
        let mut rows = Vec::with_capacity(alloc, 1)?;
        rows.push_reserved(0);
        Ok(RunBounds { rows })
    }

    // The bounds of runs each of which, except the first, starts where a bit is true; the last ends after the bits. All
    // memory is taken at first.
    fn of_changes(alloc: A, bits: &BitBuffer<A>) -> VortexResult<Self>
        ensures only { IsOkUnless result VortexError.OutOfMemory }
        ensures ends { IfOk result (λ bounds. bounds ≡ set_indices_of bits.now ++ length bits.now ∷ []) }
    {
        let mut rows = Vec::with_capacity(alloc, bits.true_count().saturating_add(2))?;
        rows.push_reserved(0);
        for place in bits.set_indices() {
            rows.push_reserved(place as u64);
        }
        rows.push_reserved(bits.len() as u64);
        Ok(RunBounds { rows })
    }
}
