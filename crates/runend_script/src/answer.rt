//! The answer lines of the script, without their line feeds.
ghost use Rattle.std.specs.Prelude.{◌≡◌, ◌↔◌, ◌++◌, [], ◌∷◌, IfOk, IsOkUnless, IsTrue, OnOk, codes};
ghost use Rattle.std.specs.String.{string_bytes};
ghost use Rattle.column_core.specs.ScalarView.{sees};
ghost use Rattle.column_words.specs.Refusals.{behind_spaces, refusal_text};
ghost use Rattle.column_words.specs.Rows.{IsNullOrNumber, row_word, total_word};
ghost use Rattle.runend_commands.specs.Extremes.{shown};
ghost use Rattle.runend_script.specs.AnswerLine.{HasLine, IsQuestion, answer_text, question_text, sum_words, truth_word};

use column_base::{VortexError, VortexResult};
use column_words::{is_null_or_number, push_refusal_words, push_row_word, push_total_word};
use runend_commands::{Answer, Command};
use std::alloc::{AllocError, Allocator};
use vortex_runend::{ExecutionCtx, Scalar, ScalarView, SumAnswer, SumValue};

/// Returns whether the answer to the command has a line. It has none where it holds a value that is neither null nor
/// an integer, or a truth that the command does not ask for, or where memory was refused.
pub fn has_answer_line<A: Allocator>(command: &Command<A>, answer: &Answer<A>) -> bool
    ensures { IsTrue result ↔ HasLine command.now answer.now }
{
    match answer {
        Answer::Value(row) => is_null_or_number(row.view()),
        Answer::MinMax(Some((least, greatest))) => {
            is_null_or_number(least.view()) && is_null_or_number(greatest.view())
        }
        Answer::Bool(_) => is_question(command),
        Answer::Refused(error) => *error != VortexError::OutOfMemory,
        _ => true,
    }
}

/// Returns the line of the answer to a command, which has to have one: `ok`; `value V`; `sum N`, or `sum overflow`
/// where the sum left its range, or `sum 0 empty` where all rows are null; `minmax V V`, or `minmax none` where all
/// rows are null; `constant`, `sorted` or `strict`, and `true` or `false`; or `refused`, with the error's number and
/// its fields in order. Refused only as `OutOfMemory`.
pub fn answer_line<A: Allocator + Copy>(
    command: &Command<A>,
    answer: &Answer<A>,
    ctx: &mut ExecutionCtx<A>,
) -> VortexResult<String<A>>
    requires { HasLine command.now answer.now }
    ensures line { IfOk result (λ line. string_bytes line ≡ answer_text command.now answer.now) }
    ensures only { IsOkUnless result VortexError.OutOfMemory }
    ensures session { ctx.new ≡ ctx.old }
{
    let alloc = *ctx.allocator();
    Ok(match answer {
        Answer::Done => String::from_str(alloc, "ok")?,
        Answer::Value(row) => value_line(alloc, row)?,
        Answer::Sum(total) => sum_line(alloc, *total)?,
        Answer::MinMax(None) => String::from_str(alloc, "minmax none")?,
        Answer::MinMax(Some((least, greatest))) => extremes_line(alloc, least, greatest)?,
        Answer::Bool(truth) => truth_line(alloc, question_of(command), *truth)?,
        Answer::Refused(error) => refusal_line(alloc, *error)?,
    })
}

// The line `value V` of one row.
fn value_line<A: Allocator + Copy>(alloc: A, row: &Scalar<A>) -> Result<String<A>, AllocError>
    requires { IsNullOrNumber (shown row.now) }
    ensures { IfOk result (λ line. string_bytes line ≡ codes "value" ++ behind_spaces (row_word (shown row.now) ∷ [])) }
{
    let mut line = String::from_str(alloc, "value")?;
    push_word(&mut line, row.view())?;
    Ok(line)
}

// The line `sum N`, `sum overflow` or `sum 0 empty`.
fn sum_line<A: Allocator + Copy>(alloc: A, answer: SumAnswer) -> Result<String<A>, AllocError>
    ensures { IfOk result (λ line. string_bytes line ≡
        codes "sum" ++ behind_spaces (sum_words answer.sum answer.is_empty)) }
{
    match answer.sum {
        None => String::from_str(alloc, "sum overflow"),
        Some(_) if answer.is_empty => String::from_str(alloc, "sum 0 empty"),
        Some(total) => total_line(alloc, total),
    }
}

// The line `sum N` of a total.
fn total_line<A: Allocator + Copy>(alloc: A, total: SumValue) -> Result<String<A>, AllocError>
    ensures { IfOk result (λ line. string_bytes line ≡ codes "sum" ++ behind_spaces (total_word total ∷ [])) }
{
    let mut line = String::from_str(alloc, "sum ")?;
    push_total_word(&mut line, total)?;
    Ok(line)
}

// The line `minmax V V` of the least and the greatest row.
fn extremes_line<A: Allocator + Copy>(
    alloc: A,
    least: &Scalar<A>,
    greatest: &Scalar<A>,
) -> Result<String<A>, AllocError>
    requires least { IsNullOrNumber (shown least.now) }
    requires greatest { IsNullOrNumber (shown greatest.now) }
    ensures { IfOk result (λ line. string_bytes line ≡
        codes "minmax" ++ behind_spaces (row_word (shown least.now) ∷ row_word (shown greatest.now) ∷ [])) }
{
    let mut line = String::from_str(alloc, "minmax")?;
    push_word(&mut line, least.view())?;
    push_word(&mut line, greatest.view())?;
    Ok(line)
}

// How the line of a truth begins that the command asks for.
fn question_of<A: Allocator>(asked: &Command<A>) -> &'static str
    ensures { result.now ≡ question_text asked.now }
{
    match asked {
        Command::IsConstant => "constant",
        Command::IsSorted { strict: true } => "strict",
        _ => "sorted",
    }
}

// The line of a truth: its name, then `true` or `false`.
fn truth_line<A: Allocator + Copy>(
    alloc: A,
    name: &str,
    truth: bool,
) -> Result<String<A>, AllocError>
    ensures { IfOk result (λ line. string_bytes line ≡ name.now ++ behind_spaces (truth_word truth ∷ [])) }
{
    format!(in alloc; "{name} {truth}")
}

/// Returns the line `refused`, the error's number and its fields in order.
pub fn refusal_line<A: Allocator + Copy>(
    alloc: A,
    error: VortexError,
) -> Result<String<A>, AllocError>
    ensures { IfOk result (λ line. string_bytes line ≡ refusal_text error) }
{
    let mut line = String::new(alloc);
    push_refusal_words(&mut line, error)?;
    Ok(line)
}

/// Adds a space and the word of the row, which is null or an integer.
pub fn push_word<A: Allocator + Copy>(
    line: &mut String<A>,
    row: ScalarView<'_, A>,
) -> Result<(), AllocError>
    requires { IsNullOrNumber (sees row) }
    ensures { OnOk result (string_bytes line.new ≡
        string_bytes line.old ++ behind_spaces (row_word (sees row.entry) ∷ [])) }
{
    line.push_str(" ")?;
    push_row_word(line, row)
}

// Does the command ask whether something is true?
fn is_question<A: Allocator>(command: &Command<A>) -> bool
    ensures { IsTrue result ↔ IsQuestion command.now }
{
    match command {
        Command::IsConstant | Command::IsSorted { .. } => true,
        _ => false,
    }
}
