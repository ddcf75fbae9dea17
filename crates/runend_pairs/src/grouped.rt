//! Groups of rows by runs of equal keys, and an answer for each.
ghost use Rattle.std.specs.Prelude.{◌≡◌, Err, Some, length, map, true, IfErr, IfOk};
ghost use Rattle.column_base.specs.declared.dtype.DType.TheVariants as column;
ghost use Rattle.column_base.specs.declared.dtype.Nullability.TheVariants.{Nullable};
ghost use Rattle.column_base.specs.Types.{HasNumber};
ghost use Rattle.column_core.specs.Computed.{IsComputed};
ghost use Rattle.column_core.specs.FlatColumn.{leaf_of};
ghost use Rattle.column_core.specs.PrimitiveForm.{optional_numbers, primitive_dtype};
ghost use Rattle.column_core.specs.Kinds.{is_numbers};
ghost use Rattle.column_sums.specs.SumAnswer.{number_in};
ghost use Rattle.runend_array.specs.Array.{dtype_of, rows};
ghost use Rattle.runend_encode.specs.Encoding.{IsRowEncoding};
ghost use Rattle.runend_windows.specs.Ends.{ends_of};
ghost use Rattle.runend_windows.specs.Window.{last_end};
ghost use Rattle.runend_pairs.specs.GroupAnswers.{answer_of, answer_ptype, IsGiven};
ghost use Rattle.runend_pairs.specs.GroupFaults.{groups_fault, large_group, IsFirstLargeGroup, IsFoldRefusal, IsGroupRefusal};
ghost use Rattle.runend_pairs.specs.Groups.{AreGroupAnswers, AreWholeRuns};
ghost use Rattle.runend_pairs.specs.Sums.{sum_of, summed_ptype};

use crate::group_fault::{GroupError, fault_of_groups};
use crate::group_fold::GroupFold;
use crate::number_runs::number_runs;
use crate::numbers::fold_numbers;
use column_core::{FlatColumn, PrimitiveArray, VortexError};
use runend_array::{ArrayRef, ExecutionCtx};
use runend_builder::row_runs;
use std::alloc::Allocator;

/// Holds the groups of rows with equal neighbouring keys, in the order of the rows: one for each run of such rows.
#[derive(Drop)]
pub struct Groups<A: Allocator> {
    /// Holds the row that each group ends before.
    pub ends: PrimitiveArray<A>,
    /// Holds the key of each group.
    pub keys: FlatColumn<A>,
    /// Holds the answer for the values in each group.
    pub answers: PrimitiveArray<A>,
}

/// Returns the groups of rows with equal neighbouring keys, null being equal to null, and the answer for the values in
/// each, as a column that has null. `GroupFold` says what each answer is, and its type. Keys are of any type but lists.
/// Takes a step for each run of either column; a constant is one run.
///
/// Refused as `Unsupported` where keys are lists or values are not integers, then as `ColumnLength` where the numbers
/// of values and of keys differ, then, for sums only, as `SumOverflow` with the first group whose sum does not fit 64
/// bits, and else only as `OutOfMemory`.
pub fn fold_by<A: Allocator + Copy>(
    keys: &ArrayRef<A>,
    values: &ArrayRef<A>,
    fold: GroupFold,
    ctx: &mut ExecutionCtx<A>,
) -> Result<Groups<A>, GroupError>
    ensures groups { IfOk result (λ groups.
        IsRowEncoding (rows keys.now) (dtype_of keys.now) groups.ends (leaf_of groups.keys)) }
    ensures answers { IfOk result (λ groups. AreGroupAnswers (answer_of fold) (ends_of groups.ends)
        (map number_in (rows values.now)) (optional_numbers groups.answers)) }
    ensures dtype { IfOk result (λ groups. primitive_dtype groups.answers ≡
        column.Primitive (answer_ptype fold (dtype_of values.now)) Nullable) }
    ensures computed { IfOk result (λ groups. IsComputed groups.answers) }
    ensures refused { IfErr result (IsGroupRefusal
        (groups_fault (dtype_of keys.now) (dtype_of values.now) (length (rows keys.now)) (length (rows values.now)))
        (large_group fold (dtype_of values.now) (rows keys.now) (map number_in (rows values.now)))) }
    ensures first { (error : VortexError) → groups_fault (dtype_of keys.now) (dtype_of values.now)
        (length (rows keys.now)) (length (rows values.now)) ≡ Some error → result ≡ Err (GroupError.Refused error) }
    ensures session { ctx.new ≡ ctx.old }
{
    if let Some(error) = fault_of_groups(keys.dtype(), values.dtype(), keys.len(), values.len()) {
        return Err(GroupError::Refused(error));
    }
    let alloc = *ctx.allocator();
    let (ends, group_keys) = row_runs(alloc, keys)?;
    let answers = match fold_in(alloc, &ends, values, fold) {
        Ok(answers) => answers,
        Err(error) => {
            drop(group_keys);
            drop(ends);
            return Err(error);
        }
    };
    Ok(Groups {
        ends,
        keys: group_keys,
        answers,
    })
}

/// Returns the groups of rows with equal neighbouring keys, null being equal to null, and the sum of the values in
/// each: `fold_by` with `GroupFold::Sum`. It is the exact sum, whatever the order of the rows.
///
/// Refused as `Unsupported` where keys are lists or values are not integers, then as `ColumnLength` where the numbers
/// of values and of keys differ, then as `SumOverflow` with the first group whose sum does not fit 64 bits, and else
/// only as `OutOfMemory`.
pub fn sum_by<A: Allocator + Copy>(
    keys: &ArrayRef<A>,
    values: &ArrayRef<A>,
    ctx: &mut ExecutionCtx<A>,
) -> Result<Groups<A>, GroupError>
    ensures groups { IfOk result (λ groups.
        IsRowEncoding (rows keys.now) (dtype_of keys.now) groups.ends (leaf_of groups.keys)) }
    ensures sums { IfOk result (λ groups. AreGroupAnswers sum_of (ends_of groups.ends)
        (map number_in (rows values.now)) (optional_numbers groups.answers)) }
    ensures dtype { IfOk result (λ groups. primitive_dtype groups.answers ≡
        column.Primitive (summed_ptype (dtype_of values.now)) Nullable) }
    ensures computed { IfOk result (λ groups. IsComputed groups.answers) }
    ensures refused { IfErr result (IsGroupRefusal
        (groups_fault (dtype_of keys.now) (dtype_of values.now) (length (rows keys.now)) (length (rows values.now)))
        (IsFirstLargeGroup (HasNumber (summed_ptype (dtype_of values.now))) sum_of (rows keys.now)
        (map number_in (rows values.now)))) }
    ensures first { (error : VortexError) → groups_fault (dtype_of keys.now) (dtype_of values.now)
        (length (rows keys.now)) (length (rows values.now)) ≡ Some error → result ≡ Err (GroupError.Refused error) }
    ensures session { ctx.new ≡ ctx.old }
{
    fold_by(keys, values, GroupFold::Sum, ctx)
}

// The answers for the values in the groups that end before these rows, the last of them at the last row.
fn fold_in<A: Allocator + Copy>(
    alloc: A,
    groups: &PrimitiveArray<A>,
    values: &ArrayRef<A>,
    fold: GroupFold,
) -> Result<PrimitiveArray<A>, GroupError>
    requires groups { AreWholeRuns groups.now }
    requires whole { last_end (ends_of groups.now) ≡ length (rows values.now) }
    requires numbers { is_numbers (dtype_of values.now) ≡ true }
    ensures answers { IfOk result (λ answers. AreGroupAnswers (answer_of fold) (ends_of groups.now)
        (map number_in (rows values.now)) (optional_numbers answers)) }
    ensures dtype { IfOk result (λ answers. primitive_dtype answers ≡
        column.Primitive (answer_ptype fold (dtype_of values.now)) Nullable) }
    ensures computed { IfOk result (λ answers. IsComputed answers) }
    ensures refused { IfErr result (IsFoldRefusal (IsGiven fold (dtype_of values.now)) (answer_of fold)
        (ends_of groups.now) (map number_in (rows values.now))) }
{
    let (ends, numbers) = number_runs(alloc, values)?;
    let answers = fold_numbers(alloc, groups, &ends, &numbers, fold);
    drop(numbers);
    drop(ends);
    answers
}
