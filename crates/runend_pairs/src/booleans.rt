//! Booleans connected, where null is unknown.
ghost use Rattle.std.specs.Prelude.{◌≡◌, Err, None, Some, length, option_map, Bool, Option, IfOk, IsErrOf};
ghost use Rattle.column_core.specs.Refusal.{IsRefusedBy};
ghost use Rattle.column_core.specs.ScalarView.{sees};
ghost use Rattle.column_ops.specs.Comparing.{compare_dtype};
ghost use Rattle.runend_array.specs.Array.{column_of, dtype_of, rows};
ghost use Rattle.runend_pairs.specs.Faults.{boolean_fault};
ghost use Rattle.runend_pairs.specs.Operations.{boolean_of, connected, truth_of};
ghost use Rattle.runend_pairs.specs.Zipped.{are_constant, zip_rows, IsAnswerColumn};

use crate::columns::zip_truths;
use crate::fault::fault_of_boolean;
use crate::pairs::Pairwise;
use crate::stored::Truths;
use column_core::{ScalarView, VortexError, VortexResult};
use runend_array::{ArrayRef, ExecutionCtx};
use std::alloc::Allocator;

/// Says how two booleans are connected.
#[derive(Debug, Clone, Copy, PartialEq, Eq, Drop)]
pub enum BooleanOperator {
    And,
    Or,
}

/// Returns whether both rows at each place are true, or whether either is. Null is unknown: `false and null` is false,
/// `true or null` is true. Where both columns are constants and have a row, the answer is a constant, else the run
/// column of the only tight exact cover of the answers. Takes a step for each run of either column; a constant is one
/// run.
///
/// Refused as `Unsupported` where either column is not of booleans, then as `ColumnLength` where the columns differ in
/// rows, and else only as `OutOfMemory`.
pub fn boolean<A: Allocator + Copy>(
    left: &ArrayRef<A>,
    operator: BooleanOperator,
    right: &ArrayRef<A>,
    ctx: &mut ExecutionCtx<A>,
) -> VortexResult<ArrayRef<A>>
    ensures answers { IfOk result (λ answers. IsAnswerColumn (are_constant (column_of left.now) (column_of right.now))
        (zip_rows (boolean_of operator) (rows left.now) (rows right.now))
        (compare_dtype (dtype_of left.now) (dtype_of right.now)) (column_of answers)) }
    ensures refused { IsRefusedBy (boolean_fault (dtype_of left.now) (dtype_of right.now) (length (rows left.now))
        (length (rows right.now))) result }
    ensures first { (error : VortexError) → boolean_fault (dtype_of left.now) (dtype_of right.now)
        (length (rows left.now)) (length (rows right.now)) ≡ Some error → IsErrOf result error }
    ensures session { ctx.new ≡ ctx.old }
{
    if let Some(error) = fault_of_boolean(left.dtype(), right.dtype(), left.len(), right.len()) {
        return Err(error);
    }
    zip_truths(*ctx.allocator(), left, &Connection { operator }, right)
}

/// Connects two booleans.
#[derive(Drop)]
struct Connection {
    operator: BooleanOperator,
}

impl Pairwise<bool, Truths> for Connection {
    ghost takes = { λ connection left right. Unit {0} };

    ghost answer_of = { λ connection. boolean_of connection.operator };

    ghost has = { λ connection answer. Unit {0} };

    fn answer<A: Allocator>(
        &self,
        left: &ScalarView<'_, A>,
        right: &ScalarView<'_, A>,
    ) -> Option<Option<bool>> {
        Some(self.operator.connect(truth_in(left), truth_in(right)))
    }
}

impl BooleanOperator {
    // The answer for two booleans; null is unknown.
    fn connect(self, left: Option<bool>, right: Option<bool>) -> Option<bool>
        ensures { result ≡ connected self left right }
    {
        match (self, left, right) {
            (BooleanOperator::And, Some(false), _) => Some(false),
            (BooleanOperator::And, _, Some(false)) => Some(false),
            (BooleanOperator::And, Some(true), right) => right,
            (BooleanOperator::And, None, _) => None,
            (BooleanOperator::Or, Some(true), _) => Some(true),
            (BooleanOperator::Or, _, Some(true)) => Some(true),
            (BooleanOperator::Or, Some(false), right) => right,
            (BooleanOperator::Or, None, _) => None,
        }
    }
}

/// Returns the boolean that a view shows, or null; false where it shows a value of another kind.
pub(crate) fn truth_in<A: Allocator>(view: &ScalarView<'_, A>) -> Option<bool>
    ensures { result ≡ option_map truth_of (sees view.now) }
{
    match view {
        ScalarView::Null => None,
        ScalarView::Bool(truth) => Some(*truth),
        _ => Some(false),
    }
}
