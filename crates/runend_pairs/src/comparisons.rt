//! Comparisons of the rows of two columns.
ghost use Rattle.std.specs.Prelude.{◌≡◌, None, Some, length, IfOk, IsErrOf};
ghost use Rattle.column_core.specs.Refusal.{IsRefusedBy};
ghost use Rattle.column_ops.specs.CompareFault.{compare_column_fault};
ghost use Rattle.column_ops.specs.Comparing.{compare_dtype, compared};
ghost use Rattle.runend_array.specs.Array.{column_of, dtype_of, rows};
ghost use Rattle.runend_pairs.specs.Zipped.{are_constant, zip_rows, IsAnswerColumn};

use crate::columns::zip_truths;
use crate::pairs::Pairwise;
use crate::stored::Truths;
use column_core::{ScalarView, VortexError, VortexResult};
use column_ops::{CompareOperator, column_fault, compare_views};
use runend_array::{ArrayRef, ExecutionCtx};
use std::alloc::Allocator;

/// Returns whether the operator holds of the two rows at each place, null where either is null. Where both columns are
/// constants and have a row, the answer is a constant, else the run column of the only tight exact cover of the
/// answers. Takes a step for each run of either column; a constant is one run.
///
/// Refused as `Unsupported` for lists, then as `TypeMismatch` where the columns are of two kinds, then as
/// `ColumnLength` where they differ in rows, and else only as `OutOfMemory`.
pub fn compare<A: Allocator + Copy>(
    left: &ArrayRef<A>,
    operator: CompareOperator,
    right: &ArrayRef<A>,
    ctx: &mut ExecutionCtx<A>,
) -> VortexResult<ArrayRef<A>>
    ensures answers { IfOk result (λ answers. IsAnswerColumn (are_constant (column_of left.now) (column_of right.now))
        (zip_rows (compared operator) (rows left.now) (rows right.now))
        (compare_dtype (dtype_of left.now) (dtype_of right.now)) (column_of answers)) }
    ensures refused { IsRefusedBy (compare_column_fault (dtype_of left.now) (dtype_of right.now)
        (length (rows left.now)) (length (rows right.now))) result }
    ensures first { (error : VortexError) → compare_column_fault (dtype_of left.now) (dtype_of right.now)
        (length (rows left.now)) (length (rows right.now)) ≡ Some error → IsErrOf result error }
    ensures session { ctx.new ≡ ctx.old }
{
    if let Some(error) = column_fault(left.dtype(), right.dtype(), left.len(), right.len()) {
        return Err(error);
    }
    zip_truths(*ctx.allocator(), left, &Comparing { operator }, right)
}

/// Compares two values.
#[derive(Drop)]
struct Comparing {
    operator: CompareOperator,
}

impl Pairwise<bool, Truths> for Comparing {
    ghost takes = { λ comparing left right. Unit {0} };

    ghost answer_of = { λ comparing. compared comparing.operator };

    ghost has = { λ comparing answer. Unit {0} };

    fn answer<A: Allocator>(
        &self,
        left: &ScalarView<'_, A>,
        right: &ScalarView<'_, A>,
    ) -> Option<Option<bool>> {
        match (left, right) {
            (ScalarView::Null, _) => Some(None),
            (_, ScalarView::Null) => Some(None),
            (left, right) => Some(Some(self.operator.holds(compare_views(left, right)))),
        }
    }
}
