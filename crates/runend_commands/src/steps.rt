//! One command on one column. The column itself is never written here, so a refusal leaves it as it was.
ghost use Rattle.std.specs.Prelude.{◌≡◌, IfOk, IsOkUnless};
ghost use Rattle.runend_array.specs.Array.{column_of, dtype_of, rows};
ghost use Rattle.runend_array.specs.Column.{IsFlat};
ghost use Rattle.runend_builder.specs.Encoded.{IsConstantForm};
ghost use Rattle.runend_commands.specs.Kept.{LeavesKept};
ghost use Rattle.runend_commands.specs.Outcomes.{IsKeptOutcome, IsOutcome};
ghost use Rattle.runend_commands.specs.Step.{IsDone};
ghost use Rattle.runend_commands.specs.declared.command.Answer.TheVariants.{Done};
ghost use Rattle.runend_commands.specs.declared.command.Command.TheVariants.{At, Cast, CompareColumn, CompareScalar, Decode, Encode, FillNull, Filter, IsConstant, IsSorted, MinMax, Slice, Sum, Take, TakeFrom};

use crate::command::{Answer, Command};
use crate::compute::{self, has_constant_form};
use column_core::{DType, Mask, PrimitiveArray, Scalar, VortexError, VortexResult, fault_of_lists};
use column_ops::CompareOperator;
use runend_array::{ArrayRef, ExecutionCtx};
use std::alloc::Allocator;
use std::ops::Range;

/// Holds what comes of a command that is not refused.
#[derive(Drop)]
pub enum StepResult<A: Allocator> {
    /// Replaces the column by this one, and answers that the command is done.
    Becomes(ArrayRef<A>),
    /// Leaves the column as it is, and answers this.
    Answers(Answer<A>),
}

/// Runs one command, as `execute` leaves it: a constant is written out flat, except after a slice.
pub fn outcome_of<A: Allocator + Copy>(
    command: &Command<A>,
    column: &ArrayRef<A>,
    ctx: &mut ExecutionCtx<A>,
) -> VortexResult<StepResult<A>>
    ensures outcome { IsOutcome ctx.old column.now command.now result }
    ensures session { ctx.new ≡ ctx.old }
{
    match kept_outcome_of(command, column, ctx)? {
        StepResult::Becomes(after) => written_if_constant(command, column, after, ctx),
        StepResult::Answers(answer) => Ok(StepResult::Answers(answer)),
    }
}

// What a command leaves, with a constant that it left of a constant written out, unless it is a slice.
fn written_if_constant<A: Allocator + Copy>(
    command: &Command<A>,
    column: &ArrayRef<A>,
    after: ArrayRef<A>,
    ctx: &mut ExecutionCtx<A>,
) -> VortexResult<StepResult<A>>
    requires done { IsDone column.now command.now Done after }
    requires kept { LeavesKept ctx.old column.now command.now Done after }
    ensures outcome { IsOutcome ctx.old column.now command.now result }
    ensures session { ctx.new ≡ ctx.old }
{
    if let Command::Slice(_) = command {
        return Ok(StepResult::Becomes(after));
    }
    if !has_constant_form(column) {
        return Ok(StepResult::Becomes(after));
    }
    if !has_constant_form(&after) {
        return Ok(StepResult::Becomes(after));
    }
    let written = written_out(&after, ctx);
    drop(after);
    Ok(StepResult::Becomes(written?))
}

// The rows of a constant, flat. Where there is none, none is null, as in each column that a command computes.
fn written_out<A: Allocator + Copy>(
    constant: &ArrayRef<A>,
    ctx: &mut ExecutionCtx<A>,
) -> VortexResult<ArrayRef<A>>
    requires { IsConstantForm (column_of constant.now) }
    ensures only { IsOkUnless result VortexError.OutOfMemory }
    ensures rows { IfOk result (λ written. rows written ≡ rows constant.now) }
    ensures dtype { IfOk result (λ written. dtype_of written ≡ dtype_of constant.now) }
    ensures form { IfOk result (λ written. IsFlat (column_of written)) }
    ensures session { ctx.new ≡ ctx.old }
{
    let written = constant.canonicalize(ctx)?;
    if !written.is_empty() {
        return Ok(written);
    }
    let none = compute::slice(&written, 0..0, ctx);
    drop(written);
    none
}

/// Runs one command, and leaves the form that the calls of `compute` leave: a constant after a filter of a constant,
/// after a cast, fill or comparison with a value of a constant that has a row, and after a comparison of two constants.
pub fn kept_outcome_of<A: Allocator + Copy>(
    command: &Command<A>,
    column: &ArrayRef<A>,
    ctx: &mut ExecutionCtx<A>,
) -> VortexResult<StepResult<A>>
    ensures outcome { IsKeptOutcome ctx.old column.now command.now result }
    ensures session { ctx.new ≡ ctx.old }
{
    match command {
        Command::Slice(range) => slice_column(column, range, ctx),
        Command::Filter(mask) => filter_column(column, mask, ctx),
        Command::Take(indices) => take_of_column(column, indices, ctx),
        Command::TakeFrom(dictionary) => take_from_column(column, dictionary, ctx),
        Command::CompareScalar(operator, value) => {
            compare_column_with_scalar(column, *operator, value, ctx)
        }
        Command::CompareColumn(operator, right) => {
            compare_column_with_column(column, *operator, right, ctx)
        }
        Command::Cast(dtype) => cast_column(column, *dtype, ctx),
        Command::FillNull(value) => fill_column(column, value, ctx),
        Command::Encode => encode_column(column, ctx),
        Command::Decode => decode_column(column, ctx),
        Command::At(index) => look_up(column, *index, ctx),
        Command::Sum => sum_column(column, ctx),
        Command::MinMax => min_max_of_column(column, ctx),
        Command::IsConstant => is_constant_column(column, ctx),
        Command::IsSorted { strict } => is_sorted_column(column, *strict, ctx),
    }
}

// The rows of the range.
fn slice_column<A: Allocator + Copy>(
    column: &ArrayRef<A>,
    range: &Range<usize>,
    ctx: &mut ExecutionCtx<A>,
) -> VortexResult<StepResult<A>>
    ensures outcome { IsKeptOutcome ctx.old column.now (Slice range.now) result }
    ensures session { ctx.new ≡ ctx.old }
{
    let part = compute::slice(column, range.start..range.end, ctx)?;
    Ok(StepResult::Becomes(part))
}

// The rows at which the mask is true.
fn filter_column<A: Allocator + Copy>(
    column: &ArrayRef<A>,
    mask: &Mask<A>,
    ctx: &mut ExecutionCtx<A>,
) -> VortexResult<StepResult<A>>
    ensures outcome { IsKeptOutcome ctx.old column.now (Filter mask.now) result }
    ensures session { ctx.new ≡ ctx.old }
{
    let kept = compute::filter(column, mask, ctx)?;
    Ok(StepResult::Becomes(kept))
}

// The rows at the indices.
fn take_of_column<A: Allocator + Copy>(
    column: &ArrayRef<A>,
    indices: &PrimitiveArray<A>,
    ctx: &mut ExecutionCtx<A>,
) -> VortexResult<StepResult<A>>
    ensures outcome { IsKeptOutcome ctx.old column.now (Take indices.now) result }
    ensures session { ctx.new ≡ ctx.old }
{
    let taken = compute::take(column, indices, ctx)?;
    Ok(StepResult::Becomes(taken))
}

// The dictionary's rows for the codes.
fn take_from_column<A: Allocator + Copy>(
    column: &ArrayRef<A>,
    dictionary: &ArrayRef<A>,
    ctx: &mut ExecutionCtx<A>,
) -> VortexResult<StepResult<A>>
    ensures outcome { IsKeptOutcome ctx.old column.now (TakeFrom dictionary.now) result }
    ensures session { ctx.new ≡ ctx.old }
{
    let taken = compute::take_from(column, dictionary, ctx)?;
    Ok(StepResult::Becomes(taken))
}

// The rows in the type.
fn cast_column<A: Allocator + Copy>(
    column: &ArrayRef<A>,
    dtype: DType,
    ctx: &mut ExecutionCtx<A>,
) -> VortexResult<StepResult<A>>
    ensures outcome { IsKeptOutcome ctx.old column.now (Cast dtype) result }
    ensures session { ctx.new ≡ ctx.old }
{
    let cast = compute::cast(column, dtype, ctx)?;
    Ok(StepResult::Becomes(cast))
}

// The rows with each null filled.
fn fill_column<A: Allocator + Copy>(
    column: &ArrayRef<A>,
    value: &Scalar<A>,
    ctx: &mut ExecutionCtx<A>,
) -> VortexResult<StepResult<A>>
    ensures outcome { IsKeptOutcome ctx.old column.now (FillNull value.now) result }
    ensures session { ctx.new ≡ ctx.old }
{
    let filled = compute::fill_null(column, value, ctx)?;
    Ok(StepResult::Becomes(filled))
}

// Whether the operator holds of each row and the row of `right` at the same place.
fn compare_column_with_column<A: Allocator + Copy>(
    column: &ArrayRef<A>,
    operator: CompareOperator,
    right: &ArrayRef<A>,
    ctx: &mut ExecutionCtx<A>,
) -> VortexResult<StepResult<A>>
    ensures outcome { IsKeptOutcome ctx.old column.now (CompareColumn operator right.now) result }
    ensures session { ctx.new ≡ ctx.old }
{
    let truths = compute::compare(column, operator, right, ctx)?;
    Ok(StepResult::Becomes(truths))
}

// Whether the operator holds of each row and the scalar.
fn compare_column_with_scalar<A: Allocator + Copy>(
    column: &ArrayRef<A>,
    operator: CompareOperator,
    value: &Scalar<A>,
    ctx: &mut ExecutionCtx<A>,
) -> VortexResult<StepResult<A>>
    ensures outcome { IsKeptOutcome ctx.old column.now (CompareScalar operator value.now) result }
    ensures session { ctx.new ≡ ctx.old }
{
    let truths = compute::compare_scalar(column, operator, value, ctx)?;
    Ok(StepResult::Becomes(truths))
}

// The sum of the rows that are not null.
fn sum_column<A: Allocator + Copy>(
    column: &ArrayRef<A>,
    ctx: &mut ExecutionCtx<A>,
) -> VortexResult<StepResult<A>>
    ensures outcome { IsKeptOutcome ctx.old column.now Sum result }
    ensures session { ctx.new ≡ ctx.old }
{
    let total = compute::sum(column, ctx)?;
    Ok(StepResult::Answers(Answer::Sum(total)))
}

// The least and the greatest row that are not null.
fn min_max_of_column<A: Allocator + Copy>(
    column: &ArrayRef<A>,
    ctx: &mut ExecutionCtx<A>,
) -> VortexResult<StepResult<A>>
    ensures outcome { IsKeptOutcome ctx.old column.now MinMax result }
    ensures session { ctx.new ≡ ctx.old }
{
    let extremes = compute::min_max(column, ctx)?;
    Ok(StepResult::Answers(Answer::MinMax(extremes)))
}

// Whether any two rows are equal.
fn is_constant_column<A: Allocator + Copy>(
    column: &ArrayRef<A>,
    ctx: &mut ExecutionCtx<A>,
) -> VortexResult<StepResult<A>>
    ensures outcome { IsKeptOutcome ctx.old column.now IsConstant result }
    ensures session { ctx.new ≡ ctx.old }
{
    let constant = compute::is_constant(column, ctx)?;
    Ok(StepResult::Answers(Answer::Bool(constant)))
}

// Whether no row is above the next, or, where `strict` is asked, each is below the next.
fn is_sorted_column<A: Allocator + Copy>(
    column: &ArrayRef<A>,
    strict: bool,
    ctx: &mut ExecutionCtx<A>,
) -> VortexResult<StepResult<A>>
    ensures outcome { IsKeptOutcome ctx.old column.now (IsSorted strict) result }
    ensures session { ctx.new ≡ ctx.old }
{
    let sorted = compute::is_sorted(column, strict, ctx)?;
    Ok(StepResult::Answers(Answer::Bool(sorted)))
}

// The value of a row. A scalar is not a list, so a column of lists is refused.
fn look_up<A: Allocator + Copy>(
    column: &ArrayRef<A>,
    index: usize,
    ctx: &mut ExecutionCtx<A>,
) -> VortexResult<StepResult<A>>
    ensures outcome { IsKeptOutcome ctx.old column.now (At index) result }
    ensures session { ctx.new ≡ ctx.old }
{
    let dtype = column.dtype();
    if let Some(error) = fault_of_lists(dtype) {
        return Err(error);
    }
    let row = column.scalar_at(index)?;
    let scalar = Scalar::of_view(*ctx.allocator(), dtype, row)?;
    Ok(StepResult::Answers(Answer::Value(scalar)))
}

// The column, written as runs.
fn encode_column<A: Allocator + Copy>(
    column: &ArrayRef<A>,
    ctx: &mut ExecutionCtx<A>,
) -> VortexResult<StepResult<A>>
    ensures outcome { IsKeptOutcome ctx.old column.now Encode result }
    ensures session { ctx.new ≡ ctx.old }
{
    let encoded = compute::encode(column, ctx)?;
    Ok(StepResult::Becomes(encoded))
}

// The column, written row by row.
fn decode_column<A: Allocator + Copy>(
    column: &ArrayRef<A>,
    ctx: &mut ExecutionCtx<A>,
) -> VortexResult<StepResult<A>>
    ensures outcome { IsKeptOutcome ctx.old column.now Decode result }
    ensures session { ctx.new ≡ ctx.old }
{
    let written = column.canonicalize(ctx)?;
    Ok(StepResult::Becomes(written))
}
