//! The answers of groups that are asked one by one.
ghost use Rattle.std.specs.Prelude.{◌≡◌, ◌++◌, ◌∷◌, [], IfErr, IfOk, IsOkUnless, OnOk, length, option_map};
ghost use Rattle.column_core.specs.Value.{Single};
ghost use Rattle.runend_array.specs.Array.{dtype_of, rows};
ghost use Rattle.row_groups.specs.Groups.{AreEndsOf};
ghost use Rattle.typed_groups.specs.Group.{AreAnswersTo, IsEachRefusal};
ghost use Rattle.typed_groups.specs.Questions.{IsAskedOf, question_dtype};

use crate::group::answer_of_group;
use crate::question::Question;
use column_core::{DType, Scalar, VortexError, VortexResult};
use runend_array::{ArrayRef, ExecutionCtx, array_of};
use runend_builder::FlatBuilder;
use runend_pairs::GroupError;
use std::alloc::Allocator;

/// Returns the answer of each of the groups that end before these rows, whose rows are asked by themselves, as a flat
/// column that has null. Refused as `SumOverflow` with the first group whose decimals add up to more than 38 digits,
/// and else only as `Refused(OutOfMemory)`.
pub(crate) fn answers_of_each<A: Allocator + Copy>(
    question: Question,
    array: &ArrayRef<A>,
    ends: &[u64],
    ctx: &mut ExecutionCtx<A>,
) -> Result<ArrayRef<A>, GroupError>
    requires asked { IsAskedOf question (dtype_of array.now) }
    requires ends { AreEndsOf (length (rows array.now)) ends.now }
    ensures answers { IfOk result
        (λ made. AreAnswersTo question ends.now (rows array.now) (length ends.now) (rows made)) }
    ensures dtype { IfOk result (λ made. dtype_of made ≡ question_dtype question (dtype_of array.now)) }
    ensures refused { IfErr result (IsEachRefusal question ends.now (rows array.now)) }
    ensures session { ctx.new ≡ ctx.old }
{
    let mut made = no_answers(*ctx.allocator(), question, array.dtype());
    for group in 0..ends.len() {
        let answer = match answer_of_group(question, array, ends, group, ctx) {
            Ok(answer) => answer,
            Err(error) => {
                drop(made);
                return Err(error);
            }
        };
        push_answer(&mut made, answer)?;
    }
    Ok(column_of_answers(*ctx.allocator(), made)?)
}

// A column without answers to a question to rows of a type.
#[tactic(auto, using(crate::proofs::Types::single_answers))]
fn no_answers<A: Allocator + Copy>(alloc: A, question: Question, dtype: DType) -> FlatBuilder<A>
    requires { IsAskedOf question dtype }
    ensures dtype { result.dtype ≡ question_dtype question dtype }
    ensures rows { result.rows ≡ [] }
{
    FlatBuilder::new(alloc, question.dtype(dtype))
}

// The answers as a column.
fn column_of_answers<A: Allocator + Copy>(
    alloc: A,
    answers: FlatBuilder<A>,
) -> VortexResult<ArrayRef<A>>
    ensures only { IsOkUnless result VortexError.OutOfMemory }
    ensures rows { IfOk result (λ made. rows made ≡ answers.rows) }
    ensures dtype { IfOk result (λ made. dtype_of made ≡ answers.dtype) }
{
    let mut answers = answers;
    let column = answers.take_column(alloc);
    drop(answers);
    Ok(array_of(column?))
}

// Puts the answer of a group after the others.
fn push_answer<A: Allocator + Copy>(
    made: &mut FlatBuilder<A>,
    answer: Scalar<A>,
) -> VortexResult<()>
    requires { answer.dtype ≡ made.old.dtype }
    ensures only { IsOkUnless result VortexError.OutOfMemory }
    ensures rows { OnOk result (made.new.rows ≡ made.old.rows ++ option_map Single answer.value ∷ []) }
    ensures dtype { made.new.dtype ≡ made.old.dtype }
{
    let pushed = made.push(answer.view());
    drop(answer);
    pushed
}
