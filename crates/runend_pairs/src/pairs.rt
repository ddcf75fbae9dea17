//! A walk along the runs of two columns, which asks for one answer for each stretch of rows in which both stay in one
//! run.
ghost use Rattle.std.specs.Prelude.{◌≡◌, ◌≤◌, ◌+◌, ◌-◌, All, Option, length, map, true, IfErr, IfOk};
ghost use Rattle.column_base.specs.declared.dtype.DType.{DType};
ghost use Rattle.column_base.specs.Types.{nullability_of};
ghost use Rattle.column_core.specs.FlatColumn.{leaf_of};
ghost use Rattle.column_core.specs.Leaf.{leaf_dtype};
ghost use Rattle.column_core.specs.Optionals.{AreBlankAtNulls};
ghost use Rattle.column_core.specs.ScalarView.{sees};
ghost use Rattle.column_core.specs.Value.{Value};
ghost use Rattle.runend_windows.specs.Cover.{IsTightCover};
ghost use Rattle.runend_windows.specs.Ends.{ends_of};
ghost use Rattle.runend_pairs.specs.Answers.{rows_of_items, IsFound};
ghost use Rattle.runend_pairs.specs.Faults.{IsZipRefusal};
ghost use Rattle.runend_pairs.specs.Operations.{AreViewsOf, IsNeverNull};
ghost use Rattle.runend_pairs.specs.Runs.{rows_in, AreColumnRuns};
ghost use Rattle.runend_pairs.specs.Zipped.{zip_rows, AllHave};

use crate::answers::AnswerRuns;
use crate::asked::{Asked, ask};
use crate::fault::ZipError;
use crate::runs::{ColumnRuns, run_after};
use crate::stored::Stored;
use column_core::ScalarView;
use std::alloc::Allocator;

/// Answers two rows, either of which may be null, by an item or null.
pub(crate) trait Pairwise<Z: Copy + Drop, K: Stored<Z>> {
    // The types of columns that it serves.
    ghost takes: { Self → DType → DType → Type 0 };

    // The answer of two rows.
    ghost answer_of: { Self → Option Value → Option Value → Option Value };

    // Whether the type of the answers has this answer.
    ghost has: { Self → Option Value → Type 0 };

    /// Returns the answer for two rows, or `None` where the type of the answers does not have it.
    fn answer<A: Allocator>(
        &self,
        left: &ScalarView<'_, A>,
        right: &ScalarView<'_, A>,
    ) -> Option<Option<Z>>
        requires { AreViewsOf (takes self.now) left.now right.now }
        ensures { IsFound K.shown (has self.now) (answer_of self.now (sees left.now) (sees right.now)) result };
}

/// Returns the runs of the answers for `count` rows, all closed. Asks the operation once for each stretch of rows in
/// which both columns stay in one run. Refused with the first row whose answer does not fit the type of the answers,
/// and as `OutOfMemory`.
pub(crate) fn zip_runs<Z: Copy + Drop, K: Stored<Z>, O: Pairwise<Z, K>, A: Allocator + Copy>(
    alloc: A,
    left: &ColumnRuns<A>,
    operation: &O,
    right: &ColumnRuns<A>,
    count: usize,
) -> Result<AnswerRuns<Z, A>, ZipError>
    requires left { AreColumnRuns left.now.ends left.now.offset (leaf_of left.now.values) count }
    requires right { AreColumnRuns right.now.ends right.now.offset (leaf_of right.now.values) count }
    requires taken { O.takes operation.now (leaf_dtype (leaf_of left.now.values))
        (leaf_dtype (leaf_of right.now.values)) }
    ensures cover { IfOk result (λ runs. IsTightCover (zip_rows (O.answer_of operation.now)
        (rows_in left.now.ends left.now.offset (leaf_of left.now.values) count)
        (rows_in right.now.ends right.now.offset (leaf_of right.now.values) count))
        runs.ends.items (rows_of_items K.shown runs.items.items runs.flags)) }
    ensures paired { IfOk result (λ runs. length runs.flags ≡ length runs.items.items) }
    ensures blank { IfOk result (λ runs. AreBlankAtNulls K.blank_value (map K.shown runs.items.items) runs.flags) }
    ensures filled { IsNeverNull (nullability_of (leaf_dtype (leaf_of left.now.values)))
        (nullability_of (leaf_dtype (leaf_of right.now.values))) (O.answer_of operation.now) →
        IfOk result (λ runs. All (λ flag. flag ≡ true) runs.flags) }
    ensures had { IfOk result (λ runs. AllHave (O.has operation.now) (zip_rows (O.answer_of operation.now)
        (rows_in left.now.ends left.now.offset (leaf_of left.now.values) count)
        (rows_in right.now.ends right.now.offset (leaf_of right.now.values) count))) }
    ensures refused { IfErr result (IsZipRefusal (O.has operation.now) (zip_rows (O.answer_of operation.now)
        (rows_in left.now.ends left.now.offset (leaf_of left.now.values) count)
        (rows_in right.now.ends right.now.offset (leaf_of right.now.values) count))) }
{
    let mut asked = Asked::new(operation);
    walk_runs::<Z, K, O, A>(alloc, left, &mut asked, right, count)
}

// The same for an operation that was not asked yet. For m and n runs it is asked at most m + n - 1 times.
fn walk_runs<Z: Copy + Drop, K: Stored<Z>, O: Pairwise<Z, K>, A: Allocator + Copy>(
    alloc: A,
    left: &ColumnRuns<A>,
    asked: &mut Asked<'_, O>,
    right: &ColumnRuns<A>,
    count: usize,
) -> Result<AnswerRuns<Z, A>, ZipError>
    requires left { AreColumnRuns left.now.ends left.now.offset (leaf_of left.now.values) count }
    requires right { AreColumnRuns right.now.ends right.now.offset (leaf_of right.now.values) count }
    requires taken { O.takes asked.old.operation (leaf_dtype (leaf_of left.now.values))
        (leaf_dtype (leaf_of right.now.values)) }
    requires unasked { asked.old.asks ≡ 0 }
    ensures cover { IfOk result (λ runs. IsTightCover (zip_rows (O.answer_of asked.old.operation)
        (rows_in left.now.ends left.now.offset (leaf_of left.now.values) count)
        (rows_in right.now.ends right.now.offset (leaf_of right.now.values) count))
        runs.ends.items (rows_of_items K.shown runs.items.items runs.flags)) }
    ensures paired { IfOk result (λ runs. length runs.flags ≡ length runs.items.items) }
    ensures blank { IfOk result (λ runs. AreBlankAtNulls K.blank_value (map K.shown runs.items.items) runs.flags) }
    ensures filled { IsNeverNull (nullability_of (leaf_dtype (leaf_of left.now.values)))
        (nullability_of (leaf_dtype (leaf_of right.now.values))) (O.answer_of asked.old.operation) →
        IfOk result (λ runs. All (λ flag. flag ≡ true) runs.flags) }
    ensures few { asked.new.asks ≤ length (ends_of left.now.ends) + length (ends_of right.now.ends) - 1 }
    ensures had { IfOk result (λ runs. AllHave (O.has asked.old.operation)
        (zip_rows (O.answer_of asked.old.operation)
        (rows_in left.now.ends left.now.offset (leaf_of left.now.values) count)
        (rows_in right.now.ends right.now.offset (leaf_of right.now.values) count))) }
    ensures refused { IfErr result (IsZipRefusal (O.has asked.old.operation)
        (zip_rows (O.answer_of asked.old.operation)
        (rows_in left.now.ends left.now.offset (leaf_of left.now.values) count)
        (rows_in right.now.ends right.now.offset (leaf_of right.now.values) count))) }
{
    let mut runs = AnswerRuns::new(alloc)?;
    let mut left_run = 0;
    let mut right_run = 0;
    let mut row = 0;
    while row < count {
        let left_stop = left.stop(left_run);
        let right_stop = right.stop(right_run);
        let stop = left_stop.min(right_stop).min(count);
        let Some(answer) = ask::<Z, K, O, A>(
            asked,
            &left.values.get(left_run),
            &right.values.get(right_run),
        ) else {
            return Err(ZipError::Overflow { row });
        };
        left_run = run_after(left_run, left_stop, stop);
        right_run = run_after(right_run, right_stop, stop);
        row = stop;
        if runs.goes_on::<K>(answer) {
            runs.go_on(answer, stop);
        } else {
            runs.turn_to::<K>(answer, stop)?;
        }
    }
    if row == 0 {
        return Ok(runs);
    }
    runs.close::<K>()?;
    Ok(runs)
}
