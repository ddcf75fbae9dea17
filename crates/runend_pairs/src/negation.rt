//! Booleans negated.
ghost use Rattle.std.specs.Prelude.{◌≡◌, None, Some, map, IfOk, IsErrOf};
ghost use Rattle.column_core.specs.Refusal.{IsRefusedBy};
ghost use Rattle.runend_array.specs.Array.{column_of, dtype_of, rows};
ghost use Rattle.runend_pairs.specs.Faults.{truth_fault};
ghost use Rattle.runend_pairs.specs.Operations.{negated};
ghost use Rattle.runend_pairs.specs.Zipped.{is_constant, IsAnswerColumn};

use crate::booleans::truth_in;
use crate::columns::map_truths;
use crate::fault::fault_of_truths;
use crate::pairs::Pairwise;
use crate::stored::Truths;
use column_core::{ScalarView, VortexError, VortexResult};
use runend_array::{ArrayRef, ExecutionCtx};
use std::alloc::Allocator;

/// Returns the opposite of each row, null where it is null, in the type of the column. Where the column is a constant
/// and has a row, the answer is a constant, else the run column of the only tight exact cover of the answers. Takes a
/// step for each run. Refused as `Unsupported` where the column is not of booleans, and else only as `OutOfMemory`.
pub fn not<A: Allocator + Copy>(
    column: &ArrayRef<A>,
    ctx: &mut ExecutionCtx<A>,
) -> VortexResult<ArrayRef<A>>
    ensures answers { IfOk result (λ answers. IsAnswerColumn (is_constant (column_of column.now))
        (map negated (rows column.now)) (dtype_of column.now) (column_of answers)) }
    ensures refused { IsRefusedBy (truth_fault (dtype_of column.now)) result }
    ensures first { (error : VortexError) → truth_fault (dtype_of column.now) ≡ Some error → IsErrOf result error }
    ensures session { ctx.new ≡ ctx.old }
{
    if let Some(error) = fault_of_truths(column.dtype()) {
        return Err(error);
    }
    map_truths(
        *ctx.allocator(),
        column,
        &Negation {},
        column.dtype().nullability(),
    )
}

/// Negates a boolean.
#[derive(Drop)]
struct Negation {}

impl Pairwise<bool, Truths> for Negation {
    ghost takes = { λ negation left right. Unit {0} };

    ghost answer_of = { λ negation left right. negated left };

    ghost has = { λ negation answer. Unit {0} };

    fn answer<A: Allocator>(
        &self,
        left: &ScalarView<'_, A>,
        _right: &ScalarView<'_, A>,
    ) -> Option<Option<bool>> {
        match truth_in(left) {
            Some(truth) => Some(Some(!truth)),
            None => Some(None),
        }
    }
}
