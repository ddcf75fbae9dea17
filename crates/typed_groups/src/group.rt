//! The answer of one group.
ghost use Rattle.std.specs.Prelude.{◌≡◌, ◌<◌, IfErr, IfOk, IsOkUnless, length, option_map};
ghost use Rattle.column_core.specs.Value.{Single};
ghost use Rattle.runend_array.specs.Array.{dtype_of, rows};
ghost use Rattle.runend_pairs.specs.Groups.{first_row, group_rows};
ghost use Rattle.row_groups.specs.Groups.{AreEndsOf};
ghost use Rattle.typed_groups.specs.Group.{IsGroupRefusal};
ghost use Rattle.typed_groups.specs.Questions.{IsAnswer, IsAskedOf, question_dtype};

use crate::bounds::{furthest_value, greatest_number, least_number};
use crate::question::Question;
use crate::row_scalars::{first_value, last_value};
use crate::sums::{float_sum, sum_of_decimals, value_count};
use column_core::{Scalar, VortexError, VortexResult};
use runend_array::{ArrayRef, ExecutionCtx};
use runend_commands::compute::slice;
use runend_pairs::GroupError;
use std::alloc::Allocator;
use std::cmp::Ordering;

/// Returns the answer of the rows of the group of this number, among groups that end before these rows. Refused as
/// `SumOverflow` with the group where its decimals add up to more than 38 digits, else only as `Refused(OutOfMemory)`.
pub(crate) fn answer_of_group<A: Allocator + Copy>(
    question: Question,
    array: &ArrayRef<A>,
    ends: &[u64],
    group: usize,
    ctx: &mut ExecutionCtx<A>,
) -> Result<Scalar<A>, GroupError>
    requires asked { IsAskedOf question (dtype_of array.now) }
    requires ends { AreEndsOf (length (rows array.now)) ends.now }
    requires within { group < length ends.now }
    ensures answer { IfOk result (λ scalar. IsAnswer question (group_rows ends.now (rows array.now) group)
        (option_map Single scalar.value)) }
    ensures dtype { IfOk result (λ scalar. scalar.dtype ≡ question_dtype question (dtype_of array.now)) }
    ensures refused { IfErr result (IsGroupRefusal question (group_rows ends.now (rows array.now) group) group) }
    ensures session { ctx.new ≡ ctx.old }
{
    let part = rows_of_group(array, ends, group, ctx)?;
    let answer = answer_of_rows(question, &part, group, ctx);
    drop(part);
    answer
}

// The rows of a group.
fn rows_of_group<A: Allocator + Copy>(
    array: &ArrayRef<A>,
    ends: &[u64],
    group: usize,
    ctx: &mut ExecutionCtx<A>,
) -> VortexResult<ArrayRef<A>>
    requires ends { AreEndsOf (length (rows array.now)) ends.now }
    requires within { group < length ends.now }
    ensures only { IsOkUnless result VortexError.OutOfMemory }
    ensures rows { IfOk result (λ part. rows part ≡ group_rows ends.now (rows array.now) group) }
    ensures dtype { IfOk result (λ part. dtype_of part ≡ dtype_of array.now) }
    ensures session { ctx.new ≡ ctx.old }
{
    let start = start_of(ends, group);
    slice(array, start..ends[group] as usize, ctx)
}

// The row at which a group begins.
fn start_of(ends: &[u64], group: usize) -> usize
    requires { group < length ends.now }
    ensures { result ≡ first_row ends.now group }
{
    if group == 0 {
        0
    } else {
        ends[group - 1] as usize
    }
}

// The answer of rows, which are those of this group.
fn answer_of_rows<A: Allocator + Copy>(
    question: Question,
    part: &ArrayRef<A>,
    group: usize,
    ctx: &mut ExecutionCtx<A>,
) -> Result<Scalar<A>, GroupError>
    requires { IsAskedOf question (dtype_of part.now) }
    ensures answer { IfOk result (λ scalar. IsAnswer question (rows part.now) (option_map Single scalar.value)) }
    ensures dtype { IfOk result (λ scalar. scalar.dtype ≡ question_dtype question (dtype_of part.now)) }
    ensures refused { IfErr result (IsGroupRefusal question (rows part.now) group) }
    ensures session { ctx.new ≡ ctx.old }
{
    match question {
        Question::Count => Ok(value_count(part)),
        Question::FloatSum(format) => Ok(float_sum(format, part, ctx)?),
        Question::DecimalSum => sum_of_decimals(part, group, ctx),
        Question::LeastNumber(format) => Ok(least_number(format, part, ctx)?),
        Question::GreatestNumber(format) => Ok(greatest_number(format, part, ctx)?),
        Question::Least => Ok(furthest_value(part, Ordering::Less, ctx)?),
        Question::Greatest => Ok(furthest_value(part, Ordering::Greater, ctx)?),
        Question::First => Ok(first_value(*ctx.allocator(), part)?),
        Question::Last => Ok(last_value(*ctx.allocator(), part)?),
    }
}
