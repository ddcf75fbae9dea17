//! `sum_signed_runs` over four runs that are written out: which runs make its sum, and how often is added at most.
ghost use Rattle.std.specs.Prelude.{◌≡◌, ◌+◌, ◌++◌, ◌≤◌, ◌∷◌, [], Ok, Some, false, pos};
ghost use Rattle.column_sums.specs.SumAnswer.{number_in};
ghost use Rattle.runend_array.specs.Column.{column_dtype};
ghost use Rattle.runend_aggregate.specs.ShownRuns.{AreFourRuns};
ghost use Rattle.runend_aggregate.specs.SignOf.{IsSignedType};

use crate::sums::sum_signed_runs;
use column_core::VortexResult;
use column_sums::{SignedSum, SumAnswer, SumValue};
use runend_array::{ExecutionCtx, RunEndArray};
use std::alloc::Allocator;

/// Sums 12 rows by `sum_signed_runs`, over runs that end at 3, 6, 8 and 12 and show 4, null, 4 and 5: the sum is 40. It
/// adds each run that is not null, with its value and its number of rows, by three additions at most.
pub fn sum_of_four_runs<A: Allocator + Copy>(
    four_runs: &RunEndArray<A>,
    sum: &mut SignedSum,
    ctx: &mut ExecutionCtx<A>,
) -> VortexResult<SumAnswer>
    requires signed { IsSignedType (column_dtype four_runs.now.values) }
    requires zero { sum.old.value ≡ pos 0 }
    requires runs { AreFourRuns four_runs.now }
    requires offset { four_runs.now.offset ≡ 0 }
    requires count { four_runs.now.count ≡ 12 }
    ensures answer { result ≡ Ok (record { sum = Some (SumValue.Signed (pos 40)); is_empty = false }) }
    ensures calls { sum.new.calls ≡ sum.old.calls ++ (pos 4, 3) ∷ (pos 4, 2) ∷ (pos 5, 4) ∷ [] }
    ensures additions { sum.new.additions ≤ sum.old.additions + 3 }
    ensures session { ctx.new ≡ ctx.old }
{
    sum_signed_runs(four_runs, sum, ctx)
}

/// Sums 4 of these rows by `sum_signed_runs`, from position 3 on: they are three nulls and a 4, so the sum is 4. It
/// adds the one row that the window shows of the third run, by one addition at most.
pub fn sum_in_four_runs<A: Allocator + Copy>(
    four_runs: &RunEndArray<A>,
    sum: &mut SignedSum,
    ctx: &mut ExecutionCtx<A>,
) -> VortexResult<SumAnswer>
    requires signed { IsSignedType (column_dtype four_runs.now.values) }
    requires zero { sum.old.value ≡ pos 0 }
    requires runs { AreFourRuns four_runs.now }
    requires offset { four_runs.now.offset ≡ 3 }
    requires count { four_runs.now.count ≡ 4 }
    ensures answer { result ≡ Ok (record { sum = Some (SumValue.Signed (pos 4)); is_empty = false }) }
    ensures calls { sum.new.calls ≡ sum.old.calls ++ (pos 4, 1) ∷ [] }
    ensures additions { sum.new.additions ≤ sum.old.additions + 1 }
    ensures session { ctx.new ≡ ctx.old }
{
    sum_signed_runs(four_runs, sum, ctx)
}
