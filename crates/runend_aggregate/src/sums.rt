//! Sums of the rows of a run column, run by run.
ghost use Rattle.std.specs.Prelude.{◌≡◌, ◌≢◌, ◌+◌, ◌++◌, ◌≤◌, ◌<◌, All, Err, IfOk, IsOk, length, map, pos};
ghost use Rattle.column_core.specs.Refusal.{IsRefusedBy};
ghost use Rattle.column_sums.specs.RunSum.{calls_of, rows_of_runs, valid_runs};
ghost use Rattle.column_sums.specs.SumAnswer.{IsSumAnswer, number_in, sum_fault};
ghost use Rattle.column_sums.specs.SumRange.{SignedRange, UnsignedRange};
ghost use Rattle.runend_array.specs.Column.{column_dtype, column_of_runs, column_rows};
ghost use Rattle.runend_aggregate.specs.ShownRuns.{visible_runs};
ghost use Rattle.runend_aggregate.specs.SignOf.{IsSignedType, IsUnsignedType};

use crate::signed_sums::sum_signed_visible;
use crate::unsigned_sums::sum_unsigned_visible;
use column_core::{DType, VortexError, VortexResult};
use column_sums::{SignedSum, SumAnswer, UnsignedSum};
use runend_array::{ExecutionCtx, RunEndArray, RunEndArrayExt};
use std::alloc::Allocator;

/// Returns the sum of the rows of a column of signed numbers, by adding each visible run that is not null, with its
/// value and the number of rows that show it, up to and with the first that leaves the range of `i64`. Adds to `sum` at
/// most as often as there are such runs. Never refused.
pub fn sum_signed_runs<A: Allocator + Copy>(
    array: &RunEndArray<A>,
    sum: &mut SignedSum,
    ctx: &mut ExecutionCtx<A>,
) -> VortexResult<SumAnswer>
    requires signed { IsSignedType (column_dtype array.now.values) }
    requires zero { sum.old.value ≡ pos 0 }
    ensures served { IsOk result }
    ensures answer { IfOk result (IsSumAnswer (column_dtype array.now.values)
        (column_rows (column_of_runs array.now))) }
    ensures calls { sum.new.calls ≡ sum.old.calls ++ calls_of SignedRange (visible_runs array.now) }
    ensures few { length sum.new.calls ≤ length sum.old.calls + length (valid_runs (visible_runs array.now)) }
    ensures additions { sum.new.additions ≤ sum.old.additions + length (valid_runs (visible_runs array.now)) }
    ensures rows { rows_of_runs (visible_runs array.now) ≡ map number_in (column_rows (column_of_runs array.now)) }
    ensures shown { All (λ run. 0 < run.1) (visible_runs array.now) }
    ensures session { ctx.new ≡ ctx.old }
{
    let _ = &ctx;
    Ok(sum_signed_visible(array, sum))
}

/// Returns the sum of the rows of a column of unsigned numbers, by adding each visible run that is not null, with its
/// value and the number of rows that show it, up to and with the first that leaves the range of `u64`. Adds to `sum` at
/// most as often as there are such runs. Never refused.
pub fn sum_unsigned_runs<A: Allocator + Copy>(
    array: &RunEndArray<A>,
    sum: &mut UnsignedSum,
    ctx: &mut ExecutionCtx<A>,
) -> VortexResult<SumAnswer>
    requires unsigned { IsUnsignedType (column_dtype array.now.values) }
    requires zero { sum.old.value ≡ pos 0 }
    ensures served { IsOk result }
    ensures answer { IfOk result (IsSumAnswer (column_dtype array.now.values)
        (column_rows (column_of_runs array.now))) }
    ensures calls { sum.new.calls ≡ sum.old.calls ++ calls_of UnsignedRange (visible_runs array.now) }
    ensures few { length sum.new.calls ≤ length sum.old.calls + length (valid_runs (visible_runs array.now)) }
    ensures additions { sum.new.additions ≤ sum.old.additions + length (valid_runs (visible_runs array.now)) }
    ensures rows { rows_of_runs (visible_runs array.now) ≡ map number_in (column_rows (column_of_runs array.now)) }
    ensures shown { All (λ run. 0 < run.1) (visible_runs array.now) }
    ensures session { ctx.new ≡ ctx.old }
{
    let _ = &ctx;
    Ok(sum_unsigned_visible(array, sum))
}

/// Returns the sum of the rows that are not null, added one at a time in order: null where some partial sum leaves the
/// range of `i64` for signed numbers, or of `u64` for unsigned ones. Takes a step for each visible run. Refused as
/// `Unsupported` exactly for columns of other types. Takes no memory, whatever the form of the run values.
pub fn sum<A: Allocator + Copy>(
    array: &RunEndArray<A>,
    ctx: &mut ExecutionCtx<A>,
) -> VortexResult<SumAnswer>
    ensures refused { IsRefusedBy (sum_fault (column_dtype array.now.values)) result }
    ensures no_memory { result ≢ Err VortexError.OutOfMemory }
    ensures answer { IfOk result (IsSumAnswer (column_dtype array.now.values)
        (column_rows (column_of_runs array.now))) }
    ensures session { ctx.new ≡ ctx.old }
{
    match array.dtype() {
        DType::Primitive(ptype, _) if ptype.is_unsigned_int() => {
            sum_unsigned_runs(array, &mut UnsignedSum::new(), ctx)
        }
        DType::Primitive(_, _) => sum_signed_runs(array, &mut SignedSum::new(), ctx),
        _ => Err(VortexError::Unsupported),
    }
}
