//! Sums of constant columns: all rows are one run.
ghost use Rattle.std.specs.Prelude.{◌≡◌, ◌≢◌, ◌++◌, ◌<◌, Err, IfOk, IfSome, Some, length, option_map, pos};
ghost use Rattle.column_core.specs.Refusal.{IsRefusedBy};
ghost use Rattle.column_core.specs.Value.{Single};
ghost use Rattle.column_sums.specs.RunSum.{calls_of};
ghost use Rattle.column_sums.specs.SumAnswer.{IsSumAnswer, number_in, sum_fault};
ghost use Rattle.column_sums.specs.SumRange.{SignedRange, UnsignedRange};
ghost use Rattle.column_sums.specs.Reach.{AreFlagsOfEight};
ghost use Rattle.column_sums.specs.Summed.{run_rows, run_value};
ghost use Rattle.runend_array.specs.Column.{OfConstant, column_rows};
ghost use Rattle.runend_aggregate.specs.ShownRuns.{constant_runs, one_run};
ghost use Rattle.runend_aggregate.specs.SignOf.{IsSignedType, IsUnsignedType};

use column_core::{DType, NativePType, ScalarView, VortexError, VortexResult};
use column_sums::{Runs, SignedSum, SumAnswer, UnsignedSum, sum_in_runs};
use runend_array::ConstantArray;
use std::alloc::Allocator;

/// Returns the sum of the rows of a constant column, as `sum` does for runs: adds its value times the number of rows,
/// once. Refused as `Unsupported` exactly for columns of other types than integers. Takes no memory.
pub fn sum_of_constant<A: Allocator>(array: &ConstantArray<A>) -> VortexResult<SumAnswer>
    ensures refused { IsRefusedBy (sum_fault array.now.dtype) result }
    ensures no_memory { result ≢ Err VortexError.OutOfMemory }
    ensures answer { IfOk result (IsSumAnswer array.now.dtype (column_rows (OfConstant array.now))) }
{
    match array.dtype() {
        DType::Primitive(ptype, _) if ptype.is_unsigned_int() => {
            Ok(sum_unsigned_constant(array, &mut UnsignedSum::new()))
        }
        DType::Primitive(_, _) => Ok(sum_signed_constant(array, &mut SignedSum::new())),
        _ => Err(VortexError::Unsupported),
    }
}

// The sum of a constant of signed numbers, by at most one call of `add_run`.
fn sum_signed_constant<A: Allocator>(array: &ConstantArray<A>, sum: &mut SignedSum) -> SumAnswer
    requires signed { IsSignedType array.now.dtype }
    requires zero { sum.old.value ≡ pos 0 }
    ensures answer { IsSumAnswer array.now.dtype (column_rows (OfConstant array.now)) result }
    ensures calls { sum.new.calls ≡ sum.old.calls ++ calls_of SignedRange (constant_runs array.now) }
{
    let signed = OneRun {
        value: signed_number(array),
        row_count: array.len(),
    };
    sum_in_runs(&signed, sum)
}

// The number of a constant that has no unsigned numbers.
fn signed_number<A: Allocator>(array: &ConstantArray<A>) -> Option<i64>
    requires { ¬ IsUnsignedType array.now.dtype }
    ensures { result ≡ number_in (option_map Single array.now.value) }
{
    match array.scalar().view() {
        ScalarView::Signed(number) => Some(number),
        _ => None,
    }
}

// The sum of a constant of unsigned numbers, by at most one call of `add_run`.
fn sum_unsigned_constant<A: Allocator>(array: &ConstantArray<A>, sum: &mut UnsignedSum) -> SumAnswer
    requires unsigned { IsUnsignedType array.now.dtype }
    requires zero { sum.old.value ≡ pos 0 }
    ensures answer { IsSumAnswer array.now.dtype (column_rows (OfConstant array.now)) result }
    ensures calls { sum.new.calls ≡ sum.old.calls ++ calls_of UnsignedRange (constant_runs array.now) }
{
    let unsigned = OneRun {
        value: unsigned_number(array),
        row_count: array.len(),
    };
    sum_in_runs(&unsigned, sum)
}

// The number of a constant that has no signed numbers.
fn unsigned_number<A: Allocator>(array: &ConstantArray<A>) -> Option<u64>
    requires { ¬ IsSignedType array.now.dtype }
    ensures { option_map pos result ≡ number_in (option_map Single array.now.value) }
{
    match array.scalar().view() {
        ScalarView::Unsigned(number) => Some(number),
        _ => None,
    }
}

// The run of all rows of a constant. Without rows there is none.
#[derive(Drop)]
struct OneRun<V: NativePType> {
    value: Option<V>,
    row_count: usize,
}

impl<V: NativePType> Runs<V> for OneRun<V> {
    ghost runs = { λ run. one_run (option_map V.number run.value) run.row_count };

    fn run_count(&self) -> usize {
        usize::from(self.row_count > 0)
    }

    fn value(&self, _run: usize) -> Option<V> {
        self.value
    }

    fn row_count(&self, _run: usize) -> usize {
        self.row_count
    }

    // No run lies between two others: any run may be asked for.
    fn inner_row_count(&self, run: usize) -> usize
        requires { run < length (one_run (option_map V.number self.now.value) self.now.row_count) }
        ensures counted { run_rows (one_run (option_map V.number self.now.value) self.now.row_count) run ≡ Some result }
        ensures shown { 0 < result }
    {
        self.row_count(run)
    }

    // There are never eight runs: flags may be asked for from any run on, and none are known.
    fn flags_of_eight(&self, _from: usize) -> Option<u64>
        ensures { IfSome result
            (λ flags. AreFlagsOfEight flags
            (run_value (one_run (option_map V.number self.now.value) self.now.row_count)) _from) }
    {
        None
    }
}
