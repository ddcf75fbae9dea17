//! Which rows of a run column are valid.
ghost use Rattle.std.specs.Prelude.{◌≡◌, IfOk, IsOkUnless};
ghost use Rattle.runend_array.specs.Array.{IsRowValidity, validity_of};
ghost use Rattle.runend_array.specs.Column.{column_of_runs};
ghost use Rattle.runend_array.specs.RowFlags.{IsValidityForm, IsValidityOf};

use runend_array::{ExecutionCtx, RowValidity, RunEndArray, VortexError, VortexResult};
use std::alloc::Allocator;

/// Returns which rows of the column are valid, row by row; `NonNullable` exactly for values whose type has no null. The
/// answer is the validity of the values where that is `NonNullable`, `AllValid` or `AllInvalid`, else runs over the
/// same ends and window, with flat values. Refused only as `OutOfMemory`.
pub fn validity<A: Allocator + Copy>(
    array: &RunEndArray<A>,
    ctx: &mut ExecutionCtx<A>,
) -> VortexResult<RowValidity<A>>
    ensures only { IsOkUnless result VortexError.OutOfMemory }
    ensures rows { IfOk result (λ rows. IsValidityOf (column_of_runs array.now) (validity_of rows)) }
    ensures form { IfOk result (λ rows. IsValidityForm (column_of_runs array.now) (validity_of rows)) }
    ensures plain { IfOk result (λ rows. IsRowValidity rows) }
    ensures session { ctx.new ≡ ctx.old }
{
    array.run_validity(*ctx.allocator())
}
