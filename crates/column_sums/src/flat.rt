//! The sum of a flat column, row by row.
ghost use Rattle.std.specs.Prelude.{◌≡◌, ◌≢◌, Err, IfOk};
ghost use Rattle.column_base.specs.Types.{IsUnsigned};
ghost use Rattle.column_core.specs.FlatView.{leaf_in};
ghost use Rattle.column_core.specs.Leaf.{leaf_dtype, single_rows};
ghost use Rattle.column_core.specs.PrimitiveForm.{optional_numbers};
ghost use Rattle.column_core.specs.Refusal.{IsRefusedBy};
ghost use Rattle.column_sums.specs.RunSum.{runs_of_rows};
ghost use Rattle.column_sums.specs.SumRange.{sum_range, IsUnsigned-prop};
ghost use Rattle.column_sums.specs.SumAnswer.{answer_of, sum_fault, IsSumAnswer};

use crate::answer::SumAnswer;
use crate::numbers::{signed_at, unsigned_at};
use crate::runs::{Runs, sum_in_runs};
use crate::signed::SignedSum;
use crate::unsigned::UnsignedSum;
use column_core::{FlatView, PrimitiveArray, VortexError, VortexResult};
use std::alloc::Allocator;

/// Returns the sum of the rows of a flat column of integers, added one at a time. Refused as `Unsupported` exactly for
/// columns of other types. Takes no memory.
pub fn sum_view<A: Allocator>(column: FlatView<'_, A>) -> VortexResult<SumAnswer>
    ensures refused { IsRefusedBy (sum_fault (leaf_dtype (leaf_in column.entry))) result }
    ensures no_memory { result ≢ Err VortexError.OutOfMemory }
    ensures answer { IfOk result (IsSumAnswer (leaf_dtype (leaf_in column.entry))
        (single_rows (leaf_in column.entry))) }
{
    match column {
        FlatView::Primitive(array) => Ok(sum_numbers(array)),
        _ => Err(VortexError::Unsupported),
    }
}

fn sum_numbers<A: Allocator>(array: &PrimitiveArray<A>) -> SumAnswer
    ensures { result ≡ answer_of (sum_range array.now.ptype) (optional_numbers array.now) }
{
    if array.ptype().is_unsigned_int() {
        sum_in_runs(&UnsignedRows { array }, &mut UnsignedSum::new())
    } else {
        sum_in_runs(&SignedRows { array }, &mut SignedSum::new())
    }
}

// The rows of a column of signed numbers, as runs of one row each.
#[derive(Drop)]
struct SignedRows<'a, A: Allocator> {
    array: &'a PrimitiveArray<A>,
    ghost signed: { ¬ IsUnsigned array.now.ptype },
}

impl<'a, A: Allocator> Runs<i64> for SignedRows<'a, A> {
    ghost runs = { λ rows. runs_of_rows (optional_numbers rows.array.now) };

    fn run_count(&self) -> usize {
        self.array.len()
    }

    fn value(&self, run: usize) -> Option<i64> {
        signed_at(self.array, run)
    }

    fn row_count(&self, _run: usize) -> usize {
        1
    }
}

// The rows of a column of unsigned numbers, as runs of one row each.
#[derive(Drop)]
struct UnsignedRows<'a, A: Allocator> {
    array: &'a PrimitiveArray<A>,
    ghost unsigned: { IsUnsigned array.now.ptype } by { IsUnsigned-prop array.now.ptype },
}

impl<'a, A: Allocator> Runs<u64> for UnsignedRows<'a, A> {
    ghost runs = { λ rows. runs_of_rows (optional_numbers rows.array.now) };

    fn run_count(&self) -> usize {
        self.array.len()
    }

    fn value(&self, run: usize) -> Option<u64> {
        unsigned_at(self.array, run)
    }

    fn row_count(&self, _run: usize) -> usize {
        1
    }
}
