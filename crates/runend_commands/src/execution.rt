//! Runs commands one after another.
ghost use Rattle.std.specs.Prelude.{◌≡◌, IfOk, IsOkUnless, OnErr};
ghost use Rattle.runend_commands.specs.KernelForms.{IsExecutionIn, IsStepIn};
ghost use Rattle.runend_commands.specs.Step.{IsExecution};

use crate::command::{Answer, Command};
use crate::steps::{StepResult, outcome_of};
use column_core::{VortexError, VortexResult};
use runend_array::{ArrayRef, ExecutionCtx};
use std::alloc::Allocator;
use std::mem::replace;

/// Runs the commands one after another, each on the column that the one before it left, and answers
/// each. A refused command leaves the column as it is, form included, and the next one is done.
///
/// Rows, types, answers and refusals are those of the definitions on the plain list of rows, whatever
/// the column's form, and whichever kernels are registered. These decide which form a step leaves.
///
/// The only error is `OutOfMemory`, before the first command, and leaves the column as it is: there is room for all
/// answers from then on. A command that runs out of memory is answered `Refused(OutOfMemory)`.
pub fn execute<A: Allocator + Copy>(
    column: &mut ArrayRef<A>,
    commands: &[Command<A>],
    ctx: &mut ExecutionCtx<A>,
) -> VortexResult<Vec<Answer<A>, A>>
    ensures run { IfOk result (λ answers. IsExecution column.old commands.now answers.items column.new) }
    ensures forms { IfOk result (λ answers. IsExecutionIn ctx.old column.old commands.now answers.items column.new) }
    ensures only { IsOkUnless result VortexError.OutOfMemory }
    ensures kept { OnErr result (column.new ≡ column.old) }
    ensures session { ctx.new ≡ ctx.old }
{
    let mut answers = Vec::with_capacity(*ctx.allocator(), commands.len())?;
    for command in commands {
        let answer = execute_one(command, column, ctx);
        answers.push(answer).unwrap();
    }
    Ok(answers)
}

/// Runs one command, and answers it, as `execute` does each of its list. A refused command leaves the column as
/// it is, form included. Takes no memory of its own, so there is nothing else to refuse.
pub fn execute_one<A: Allocator + Copy>(
    command: &Command<A>,
    column: &mut ArrayRef<A>,
    ctx: &mut ExecutionCtx<A>,
) -> Answer<A>
    ensures step { IsStepIn ctx.old column.old command.now result column.new }
    ensures session { ctx.new ≡ ctx.old }
{
    match outcome_of(command, column, ctx) {
        Ok(StepResult::Becomes(array)) => {
            drop(replace(column, array));
            Answer::Done
        }
        Ok(StepResult::Answers(answer)) => answer,
        Err(error) => Answer::Refused(error),
    }
}
