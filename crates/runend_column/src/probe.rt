//! Reads of single rows of one run column.
ghost use Rattle.std.specs.Prelude.{◌≡◌, ◌≤◌, ◌↔◌, Some, pos, slice_get, IfOk, IsErrOf, IsOkUnless};
ghost use Rattle.column_core.specs.ScalarView.{sees, IsViewOf};
ghost use Rattle.runend_array.specs.Column.{column_dtype, column_of_runs, column_rows};

use runend_array::{RunEndArray, ScalarView, VortexError, VortexResult};
use std::alloc::Allocator;
use std::marker::Model;

/// Reads rows of a run column, which it borrows, as often as wanted. A contract sees the column.
#[derive(Drop)]
pub struct RunEndProbe<'a, A: Allocator> {
    array: &'a RunEndArray<A>,
}

impl<'a, A: Allocator> Model for RunEndProbe<'a, A> {
    ghost use Rattle.runend_array.specs.Column.{Runs};

    ghost Value = { Runs };

    ghost use Rattle.runend_array.specs.ColumnCode.{runs_code};

    ghost coded = { runs_code };

    ghost view = { λ probe. probe.array.now };
}

impl<'a, A: Allocator + Copy> RunEndProbe<'a, A> {
    /// Returns a probe of this column. Takes no memory.
    pub fn new(array: &'a RunEndArray<A>) -> Self
        ensures { result ≡ array.now }
    {
        RunEndProbe { array }
    }

    /// Returns the row at `index`, borrowed from the column and not from the probe, which may go first. Refused as
    /// `OutOfBounds`, with the index and the number of rows, exactly from that number on. Takes no memory.
    pub fn execute_scalar(&self, index: usize) -> VortexResult<ScalarView<'a, A>>
        ensures row { IfOk result (λ view. slice_get (column_rows (column_of_runs self.now)) index ≡ Some (sees view)) }
        ensures of_type { IfOk result (λ view. IsViewOf (column_dtype self.now.values) view) }
        ensures refused { IsErrOf result (VortexError.OutOfBounds (pos index) self.now.count) ↔
            (self.now.count ≤ index) }
        ensures only { IsOkUnless result (VortexError.OutOfBounds (pos index) self.now.count) }
    {
        self.array.row_at(index)
    }
}
