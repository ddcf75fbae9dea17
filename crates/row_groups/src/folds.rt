//! What is answered of the rows of a column in each group.
ghost use Rattle.std.specs.Prelude.{◌≡◌, IfErr, IfOk, IsOkUnless, length, map, true};
ghost use Rattle.column_base.specs.declared.dtype.DType.TheVariants as column;
ghost use Rattle.column_base.specs.declared.dtype.Nullability.TheVariants.{NonNullable, Nullable};
ghost use Rattle.column_base.specs.declared.dtype.PType.TheVariants.{U64};
ghost use Rattle.column_core.specs.Kinds.{is_numbers};
ghost use Rattle.column_core.specs.PrimitiveForm.{optional_numbers, primitive_dtype};
ghost use Rattle.column_sums.specs.SumAnswer.{number_in};
ghost use Rattle.runend_array.specs.Array.{dtype_of, rows};
ghost use Rattle.runend_pairs.specs.GroupAnswers.{IsGiven, answer_of, answer_ptype};
ghost use Rattle.runend_pairs.specs.GroupFaults.{IsFoldRefusal};
ghost use Rattle.runend_pairs.specs.Groups.{AreGroupAnswers};
ghost use Rattle.runend_windows.specs.Cover.{IsTightCover};
ghost use Rattle.row_groups.specs.Folded.{end_rows, stored_ends};
ghost use Rattle.row_groups.specs.Groups.{AreEndsOf};

use column_core::{NativePType, PrimitiveArray, Validity, VortexError, VortexResult};
use runend_array::{ArrayRef, ExecutionCtx, RunEnd};
use runend_pairs::{GroupError, GroupFold, Groups, fold_by};
use std::alloc::Allocator;

/// Returns what is asked of the values in each of the groups that end before these rows, as a column that has null.
/// `GroupFold` says what each answer is, and its type. Takes a step for each group and for each run of the values.
/// Refused, for sums only, as `SumOverflow` with the first group whose sum does not fit 64 bits, and else only as
/// `Refused(OutOfMemory)`.
pub fn fold_groups<A: Allocator + Copy>(
    ends: &[u64],
    values: &ArrayRef<A>,
    fold: GroupFold,
    ctx: &mut ExecutionCtx<A>,
) -> Result<PrimitiveArray<A>, GroupError>
    requires ends { AreEndsOf (length (rows values.now)) ends.now }
    requires numbers { is_numbers (dtype_of values.now) ≡ true }
    ensures answers { IfOk result (λ answers. AreGroupAnswers (answer_of fold) ends.now
        (map number_in (rows values.now)) (optional_numbers answers)) }
    ensures dtype { IfOk result (λ answers. primitive_dtype answers ≡
        column.Primitive (answer_ptype fold (dtype_of values.now)) Nullable) }
    ensures refused { IfErr result (IsFoldRefusal (IsGiven fold (dtype_of values.now)) (answer_of fold) ends.now
        (map number_in (rows values.now))) }
    ensures session { ctx.new ≡ ctx.old }
{
    let keys = group_keys(*ctx.allocator(), ends, values.len())?;
    let groups = fold_by(&keys, values, fold, ctx);
    drop(keys);
    let groups = groups?;
    Ok(answers_of(groups))
}

// The answers of groups, without their ends and keys.
fn answers_of<A: Allocator>(groups: Groups<A>) -> PrimitiveArray<A>
    ensures { result ≡ groups.answers }
{
    let Groups {
        ends,
        keys,
        answers,
    } = groups;
    drop(ends);
    drop(keys);
    answers
}

// A column of `count` rows that has the end of its group in each.
fn group_keys<A: Allocator + Copy>(
    alloc: A,
    ends: &[u64],
    count: usize,
) -> VortexResult<ArrayRef<A>>
    requires ends { AreEndsOf count ends.now }
    ensures only { IsOkUnless result VortexError.OutOfMemory }
    ensures cover { IfOk result (λ keys. IsTightCover (rows keys) ends.now (end_rows ends.now)) }
    ensures count { IfOk result (λ keys. length (rows keys) ≡ count) }
    ensures dtype { IfOk result (λ keys. dtype_of keys ≡ column.Primitive U64 NonNullable) }
{
    let values = end_column(alloc, ends)?;
    let stops = match end_column(alloc, ends) {
        Ok(stops) => stops,
        Err(error) => {
            drop(values);
            return Err(error);
        }
    };
    let runs = RunEnd::new_unchecked(
        ArrayRef::Primitive(stops),
        ArrayRef::Primitive(values),
        0,
        count,
    );
    ArrayRef::of_runs(alloc, runs)
}

// Ends as a column.
fn end_column<A: Allocator + Copy>(alloc: A, ends: &[u64]) -> VortexResult<PrimitiveArray<A>>
    ensures only { IsOkUnless result VortexError.OutOfMemory }
    ensures stored { IfOk result (λ made. made ≡ stored_ends ends.now) }
{
    let values = u64::wrap(Vec::from_slice(alloc, ends)?);
    Ok(PrimitiveArray::new_unchecked(values, Validity::NonNullable))
}
