//! Tests of rows for null.
ghost use Rattle.std.specs.Prelude.{◌≡◌, Some, map, IfOk, IsErrOf};
ghost use Rattle.column_core.specs.Kinds.{list_fault};
ghost use Rattle.column_core.specs.Refusal.{IsRefusedBy};
ghost use Rattle.runend_array.specs.Array.{column_of, dtype_of, rows};
ghost use Rattle.runend_pairs.specs.Operations.{null_test, valid_test};
ghost use Rattle.runend_pairs.specs.Zipped.{is_constant, IsAnswerColumn};

use crate::columns::map_truths;
use crate::pairs::Pairwise;
use crate::stored::Truths;
use column_core::{DType, Nullability, ScalarView, VortexError, VortexResult, fault_of_lists};
use runend_array::{ArrayRef, ExecutionCtx};
use std::alloc::Allocator;

/// Returns whether each row is null, in booleans without null. Where the column is a constant and has a row, the answer
/// is a constant, else the run column of the only tight exact cover of the answers. Takes a step for each run. Refused
/// as `Unsupported` exactly for lists, and else only as `OutOfMemory`.
pub fn is_null<A: Allocator + Copy>(
    column: &ArrayRef<A>,
    ctx: &mut ExecutionCtx<A>,
) -> VortexResult<ArrayRef<A>>
    ensures answers { IfOk result (λ answers. IsAnswerColumn (is_constant (column_of column.now))
        (map null_test (rows column.now)) (DType.Bool Nullability.NonNullable) (column_of answers)) }
    ensures refused { IsRefusedBy (list_fault (dtype_of column.now)) result }
    ensures first { (error : VortexError) → list_fault (dtype_of column.now) ≡ Some error → IsErrOf result error }
    ensures session { ctx.new ≡ ctx.old }
{
    if let Some(error) = fault_of_lists(column.dtype()) {
        return Err(error);
    }
    map_truths(
        *ctx.allocator(),
        column,
        &NullTest {},
        Nullability::NonNullable,
    )
}

/// Returns whether each row is not null, in the form in which `is_null` answers. Refused as `is_null` is.
pub fn is_valid<A: Allocator + Copy>(
    column: &ArrayRef<A>,
    ctx: &mut ExecutionCtx<A>,
) -> VortexResult<ArrayRef<A>>
    ensures answers { IfOk result (λ answers. IsAnswerColumn (is_constant (column_of column.now))
        (map valid_test (rows column.now)) (DType.Bool Nullability.NonNullable) (column_of answers)) }
    ensures refused { IsRefusedBy (list_fault (dtype_of column.now)) result }
    ensures first { (error : VortexError) → list_fault (dtype_of column.now) ≡ Some error → IsErrOf result error }
    ensures session { ctx.new ≡ ctx.old }
{
    if let Some(error) = fault_of_lists(column.dtype()) {
        return Err(error);
    }
    map_truths(
        *ctx.allocator(),
        column,
        &ValidTest {},
        Nullability::NonNullable,
    )
}

/// Tests whether a row is null.
#[derive(Drop)]
struct NullTest {}

impl Pairwise<bool, Truths> for NullTest {
    ghost takes = { λ test left right. Unit {0} };

    ghost answer_of = { λ test left right. null_test left };

    ghost has = { λ test answer. Unit {0} };

    fn answer<A: Allocator>(
        &self,
        left: &ScalarView<'_, A>,
        _right: &ScalarView<'_, A>,
    ) -> Option<Option<bool>> {
        match left {
            ScalarView::Null => Some(Some(true)),
            _ => Some(Some(false)),
        }
    }
}

/// Tests whether a row is not null.
#[derive(Drop)]
struct ValidTest {}

impl Pairwise<bool, Truths> for ValidTest {
    ghost takes = { λ test left right. Unit {0} };

    ghost answer_of = { λ test left right. valid_test left };

    ghost has = { λ test answer. Unit {0} };

    fn answer<A: Allocator>(
        &self,
        left: &ScalarView<'_, A>,
        _right: &ScalarView<'_, A>,
    ) -> Option<Option<bool>> {
        match left {
            ScalarView::Null => Some(Some(false)),
            _ => Some(Some(true)),
        }
    }
}
