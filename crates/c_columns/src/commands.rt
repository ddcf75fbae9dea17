//! Commands on columns of handles, whose answer is a column.
ghost use Rattle.std.specs.Prelude.{◌≡◌, ◌≢◌, Some, pos, IfOk, IfErr};
ghost use Rattle.typed_columns.specs.Typed.{format_of};
ghost use Rattle.column_base.specs.Error.{number_of};
ghost use Rattle.column_core.specs.Refusal.{IsErrorFor};
ghost use Rattle.runend_commands.specs.Refusal.{refusal};
ghost use Rattle.runend_commands.specs.Meaning.{plain};
ghost use Rattle.c_columns.specs.Calls.{Leaves};
ghost use Rattle.c_columns.specs.Formats.{format_after, format_given, keeps_meaning};
ghost use Rattle.c_columns.specs.Handle.{array_in, format_in};
ghost use Rattle.c_columns.specs.Ending.{EndsOn, EndsOnGiven, HasFields, LeavesGiven, WhereBoth, fault_given};

use crate::error_fields::{ErrorFields, NO_COLUMN, refuse};
use crate::flat::{Boxed, boxed, boxed_like};
use crate::handle::Handle;
use crate::runs::copy;
use crate::sessions::{Session, context};
use column_core::VortexResult;
use runend_array::ArrayRef;
use runend_commands::{Command, StepResult, kept_outcome_of};
use std::alloc::Global;
use typed_columns::TypedColumn;

/// Runs a command on the column of a handle, which stays as it is. What the command leaves is put into `out`, with the
/// same format where the rows mean what they meant.
#[tactic(auto, using(crate::proofs::Endings::given_empty, crate::proofs::Endings::given_done, crate::proofs::Endings::given_refused))]
pub fn apply(
    alloc: Global,
    session: &Session,
    column: &mut Handle,
    command: VortexResult<Command<Global>>,
    out: &mut Handle,
    error: &mut ErrorFields,
) -> i32
    ensures same { column.new.column ≡ column.old.column }
    ensures made { result ≡ pos 0
        → WhereBoth (LeavesGiven session.now command) (array_in column.old.column) (array_in out.new.column) }
    ensures typed { result ≡ pos 0 → format_in out.new.column ≡ format_given command (format_in column.old.column) }
    ensures kept { result ≢ pos 0 → out.new.column ≡ out.old.column }
    ensures ended { EndsOnGiven (array_in column.old.column) command result error.new }
{
    let Some(lent) = column.take(alloc) else {
        drop(command);
        return NO_COLUMN;
    };
    let outcome = left_by(alloc, session, &lent, command);
    column.put(lent);
    answer(outcome, out, error)
}

/// Puts a column into `out` and answers 0, or answers the number of an error and writes its fields.
#[tactic(auto, using(crate::proofs::Held::array_some, crate::proofs::Held::format_some))]
pub fn answer(outcome: VortexResult<Boxed>, out: &mut Handle, error: &mut ErrorFields) -> i32
    ensures ok { IfOk outcome (λ made. (result ≡ pos 0) × (out.new.column ≡ Some made.value)) }
    ensures array { IfOk outcome (λ made. array_in out.new.column ≡ Some made.value.array) }
    ensures format { IfOk outcome (λ made. format_in out.new.column ≡ format_of made.value) }
    ensures err { IfErr outcome
        (λ why. (result ≡ pos (number_of why)) × (result ≢ pos 0) × (out.new.column ≡ out.old.column)
        × HasFields why error.new) }
{
    match outcome {
        Ok(made) => {
            out.put(made);
            0
        }
        Err(why) => refuse(why, error),
    }
}

// What the command leaves, where there is one.
fn left_by(
    alloc: Global,
    session: &Session,
    column: &TypedColumn<Global>,
    command: VortexResult<Command<Global>>,
) -> VortexResult<Boxed>
    ensures left { IfOk result (λ made. LeavesGiven session.now command column.now.array made.value.array) }
    ensures typed { IfOk result (λ made. format_of made.value ≡ format_given command (format_of column.now)) }
    ensures refused { IfErr result (λ error. IsErrorFor (fault_given command column.now.array) error) }
{
    match command {
        Ok(command) => {
            let outcome = left_under(alloc, session, column, &command);
            drop(command);
            outcome
        }
        Err(error) => Err(error),
    }
}

// What a command leaves of a column, under the format that it has then.
fn left_under(
    alloc: Global,
    session: &Session,
    column: &TypedColumn<Global>,
    command: &Command<Global>,
) -> VortexResult<Boxed>
    ensures left { IfOk result (λ made. Leaves session.now command.now column.now.array made.value.array) }
    ensures typed { IfOk result (λ made. format_of made.value ≡ format_after command.now (format_of column.now)) }
    ensures refused { IfErr result (λ error. IsErrorFor (refusal (plain column.now.array) command.now) error) }
{
    let left = left_of(alloc, session, &column.array, command)?;
    if keeps_format(command) {
        boxed_like(alloc, left, column)
    } else {
        boxed(alloc, left)
    }
}

// Do the rows that the command leaves mean what those before it did? Truths, casts and rows of a dictionary do not.
fn keeps_format(command: &Command<Global>) -> bool
    ensures { result ≡ keeps_meaning command.now }
{
    match command {
        Command::TakeFrom(_)
        | Command::CompareScalar(_, _)
        | Command::CompareColumn(_, _)
        | Command::Cast(_) => false,
        _ => true,
    }
}

// What a command leaves of the rows. One that only answers leaves them as they are.
#[tactic(auto, using(crate::proofs::Left::left_new, crate::proofs::Left::left_same))]
fn left_of(
    alloc: Global,
    session: &Session,
    array: &ArrayRef<Global>,
    command: &Command<Global>,
) -> VortexResult<ArrayRef<Global>>
    ensures left { IfOk result (λ made. Leaves session.now command.now array.now made) }
    ensures refused { IfErr result (λ error. IsErrorFor (refusal (plain array.now) command.now) error) }
{
    let mut ctx = context(alloc, session);
    match kept_outcome_of(command, array, &mut ctx)? {
        StepResult::Becomes(left) => Ok(left),
        StepResult::Answers(answer) => {
            drop(answer);
            let copied = copy(alloc, array)?;
            Ok(copied)
        }
    }
}
