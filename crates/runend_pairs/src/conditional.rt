//! Rows that a mask chooses from two columns.
ghost use Rattle.std.specs.Prelude.{◌≡◌, ◌&&◌, None, Some, length, IfOk, IsErrOf, IsOkUnless};
ghost use Rattle.column_base.specs.declared.dtype.Nullability.TheVariants.{Nullable};
ghost use Rattle.column_base.specs.Types.{with_nullability};
ghost use Rattle.column_core.specs.Refusal.{IsRefusedBy};
ghost use Rattle.runend_array.specs.Array.{column_of, dtype_of, rows};
ghost use Rattle.runend_pairs.specs.Faults.{choice_fault};
ghost use Rattle.runend_pairs.specs.Operations.{chosen_rows};
ghost use Rattle.runend_pairs.specs.Zipped.{are_constant, is_constant, IsAnswerColumn};

use crate::choices::{PickRule, pick};
use crate::fault::fault_of_choice;
use column_core::{Nullability, VortexError, VortexResult};
use runend_array::{ArrayRef, ExecutionCtx};
use std::alloc::Allocator;

/// Returns the left row at each place where the mask is true, the right one where it is false, and null where it is
/// null. The type is the type of the columns, with null. Where all three columns are constants and have a row, the
/// answer is a constant, else the run column of the only tight exact cover of the answers. Takes three walks along two
/// columns, each with a step for each run of either.
///
/// Refused as `Unsupported` where the mask is not of booleans, then as `coalesce` refuses the two columns, then as
/// `ColumnLength` where the mask and the left column differ in rows, and else only as `OutOfMemory`.
pub fn if_else<A: Allocator + Copy>(
    mask: &ArrayRef<A>,
    left: &ArrayRef<A>,
    right: &ArrayRef<A>,
    ctx: &mut ExecutionCtx<A>,
) -> VortexResult<ArrayRef<A>>
    ensures answers { IfOk result (λ answers. IsAnswerColumn
        (is_constant (column_of mask.now) && are_constant (column_of left.now) (column_of right.now))
        (chosen_rows (rows mask.now) (rows left.now) (rows right.now))
        (with_nullability (dtype_of right.now) Nullable) (column_of answers)) }
    ensures refused { IsRefusedBy (choice_fault (dtype_of mask.now) (dtype_of left.now) (dtype_of right.now)
        (length (rows mask.now)) (length (rows left.now)) (length (rows right.now))) result }
    ensures first { (error : VortexError) → choice_fault (dtype_of mask.now) (dtype_of left.now) (dtype_of right.now)
        (length (rows mask.now)) (length (rows left.now)) (length (rows right.now)) ≡ Some error →
        IsErrOf result error }
    ensures session { ctx.new ≡ ctx.old }
{
    let types = (mask.dtype(), left.dtype(), right.dtype());
    if let Some(error) = fault_of_choice(types, (mask.len(), left.len(), right.len())) {
        return Err(error);
    }
    choose(*ctx.allocator(), mask, left, right)
}

// The same for a mask and two columns without a fault: of the rows that the mask keeps of either column, the first that
// is not null.
fn choose<A: Allocator + Copy>(
    alloc: A,
    mask: &ArrayRef<A>,
    left: &ArrayRef<A>,
    right: &ArrayRef<A>,
) -> VortexResult<ArrayRef<A>>
    requires { choice_fault (dtype_of mask.now) (dtype_of left.now) (dtype_of right.now) (length (rows mask.now))
        (length (rows left.now)) (length (rows right.now)) ≡ None }
    ensures only { IsOkUnless result VortexError.OutOfMemory }
    ensures answers { IfOk result (λ answers. IsAnswerColumn
        (is_constant (column_of mask.now) && are_constant (column_of left.now) (column_of right.now))
        (chosen_rows (rows mask.now) (rows left.now) (rows right.now))
        (with_nullability (dtype_of right.now) Nullable) (column_of answers)) }
{
    let kept = pick(
        alloc,
        mask,
        PickRule::WhereTrue,
        left,
        Nullability::Nullable,
    )?;
    let others = match pick(
        alloc,
        mask,
        PickRule::WhereFalse,
        right,
        Nullability::Nullable,
    ) {
        Ok(others) => others,
        Err(error) => {
            drop(kept);
            return Err(error);
        }
    };
    let chosen = pick(
        alloc,
        &kept,
        PickRule::FirstValid,
        &others,
        Nullability::Nullable,
    );
    drop(others);
    drop(kept);
    let chosen = chosen?;
    Ok(chosen)
}
