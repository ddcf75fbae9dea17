//! Whether two columns have the same rows.
ghost use Rattle.std.specs.Prelude.{◌≡◌, ◌↔◌, Some, length, true, IfOk, IsErrOf, IsOkUnless, IsTrue};
ghost use Rattle.column_core.specs.Kinds.{same_kind};
ghost use Rattle.column_core.specs.Refusal.{IsRefusedBy};
ghost use Rattle.column_core.specs.Value.{Single, Truth};
ghost use Rattle.runend_array.specs.Array.{dtype_of, rows};
ghost use Rattle.runend_pairs.specs.Faults.{equality_fault, AreSingle};
ghost use Rattle.runend_pairs.specs.Operations.{same_test};

use crate::fault::ZipError;
use crate::pairs::{Pairwise, zip_runs};
use crate::runs::ColumnRuns;
use crate::stored::Truths;
use column_core::{ScalarView, VortexError, VortexResult, fault_of_lists, is_same_kind};
use column_ops::compare_views;
use runend_array::{ArrayRef, ExecutionCtx};
use std::alloc::Allocator;

/// Returns whether two columns of any form have the same rows, null being equal to null, and are of one type except for
/// nullability. Takes a step for each run of either column up to the first row that differs, and writes no row; a flat
/// column is encoded first. Refused as `Unsupported` where both are lists of one type, and else only as `OutOfMemory`.
pub fn equals<A: Allocator + Copy>(
    left: &ArrayRef<A>,
    right: &ArrayRef<A>,
    ctx: &mut ExecutionCtx<A>,
) -> VortexResult<bool>
    ensures equal { IfOk result (λ equal. IsTrue equal ↔
        ((same_kind (dtype_of left.now) (dtype_of right.now) ≡ true) × (rows left.now ≡ rows right.now))) }
    ensures refused { IsRefusedBy (equality_fault (dtype_of left.now) (dtype_of right.now)) result }
    ensures first { (error : VortexError) → equality_fault (dtype_of left.now) (dtype_of right.now) ≡ Some error →
        IsErrOf result error }
    ensures session { ctx.new ≡ ctx.old }
{
    if !is_same_kind(left.dtype(), right.dtype()) {
        return Ok(false);
    }
    if let Some(error) = fault_of_lists(left.dtype()) {
        return Err(error);
    }
    if left.len() != right.len() {
        return Ok(false);
    }
    have_same_rows(*ctx.allocator(), left, right)
}

// Whether two columns of the same number of rows, of any kind but lists, have the same rows.
fn have_same_rows<A: Allocator + Copy>(
    alloc: A,
    left: &ArrayRef<A>,
    right: &ArrayRef<A>,
) -> VortexResult<bool>
    requires { AreSingle (dtype_of left.now) (dtype_of right.now) (length (rows left.now)) (length (rows right.now)) }
    ensures only { IsOkUnless result VortexError.OutOfMemory }
    ensures equal { IfOk result (λ equal. IsTrue equal ↔ (rows left.now ≡ rows right.now)) }
{
    let count = left.len();
    let left_runs = ColumnRuns::of(alloc, left)?;
    let right_runs = ColumnRuns::of(alloc, right)?;
    let answers = zip_runs::<bool, Truths, SameTest, A>(
        alloc,
        &left_runs,
        &SameTest {},
        &right_runs,
        count,
    );
    match answers {
        Ok(runs) => {
            drop(runs);
            Ok(true)
        }
        Err(error) => match error {
            ZipError::Overflow { row: _ } => Ok(false),
            ZipError::Refused(error) => Err(error),
        },
    }
}

/// Answers true for two equal rows, and has no answer for others.
#[derive(Drop)]
struct SameTest {}

impl Pairwise<bool, Truths> for SameTest {
    ghost takes = { λ test left right. Unit {0} };

    ghost answer_of = { λ test. same_test };

    ghost has = { λ test answer. answer ≡ Some (Single (Truth true)) };

    fn answer<A: Allocator>(
        &self,
        left: &ScalarView<'_, A>,
        right: &ScalarView<'_, A>,
    ) -> Option<Option<bool>> {
        if compare_views(left, right).is_eq() {
            Some(Some(true))
        } else {
            None
        }
    }
}
