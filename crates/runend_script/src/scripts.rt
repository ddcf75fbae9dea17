//! Runs a script of commands on one column.
ghost use Rattle.std.specs.Prelude.{◌≡◌, ◌≢◌, ◌↔◌, IfOk, IsOkUnless, IsTrue, OnErr};
ghost use Rattle.std.specs.String.{string_bytes};
ghost use Rattle.runend_array.specs.Array.{column_of};
ghost use Rattle.runend_commands.specs.declared.command.Answer.TheVariants.{Done};
ghost use Rattle.runend_script.specs.declared.command.ScriptCommand.TheVariants as line;
ghost use Rattle.runend_script.specs.declared.command.FloatQuestion.{FloatQuestion};
ghost use Rattle.runend_script.specs.AnswerLines.{AddsLines};
ghost use Rattle.runend_script.specs.FloatLines.{IsFloatReply};
ghost use Rattle.runend_script.specs.Lengthened.{IsAppended, IsRepeated};
ghost use Rattle.runend_script.specs.Messages.{IsMessageReply};
ghost use Rattle.runend_script.specs.Outcomes.{IsOutcome};
ghost use Rattle.runend_script.specs.Replies.{IsKeptOrStep, IsReplyOf, IsReplyTo, Tells};
ghost use Rattle.runend_script.specs.Session.{IsSessionAfter};
ghost use Rattle.runend_script.specs.Words.{words_of};

use crate::answer::{answer_line, has_answer_line, refusal_line};
use crate::command::{FloatQuestion, Line, RowWords, ScriptCommand, Setting, read_line};
use crate::floats::float_line;
use crate::lengthened::{with_batch, with_value};
use crate::listed::{plain_of, runs_of_line};
use crate::message::message_line;
use crate::record::{meta_line, read_record};
use crate::reordered::reorder;
use crate::session::set_session;
use crate::shown::{counts_line, form_line, push_line, rows_line};
use crate::values::{read_indices, read_mask, read_scalar};
use crate::words::Words;
use column_base::{DType, VortexError, VortexResult};
use runend_commands::{Answer, Command as ColumnCommand, execute_one};
use std::alloc::{AllocError, Allocator};
use std::mem::replace;
use vortex_runend::{ArrayRef, ExecutionCtx};

/// Holds what a script prints: its answer lines, each with a line feed, and whether the last of them says that a line
/// was not a command, which ended the script.
#[derive(Drop)]
pub struct ScriptAnswer<A: Allocator> {
    pub text: String<A>,
    pub bad: bool,
}

// What comes of a line.
#[derive(Drop)]
enum Reply<A: Allocator> {
    // Nothing, since it has no words.
    Silent,
    // The command is done, and there is nothing more to say.
    Done,
    // This answer line.
    Line(String<A>),
    // It is not a command here.
    Bad,
}

/// Runs the script line by line until a line is not a command. Refusals are answered, and leave the
/// column as it is; only `OutOfMemory` ends the script without an answer.
pub fn script<A: Allocator + Copy>(
    text: &str,
    ctx: &mut ExecutionCtx<A>,
) -> VortexResult<ScriptAnswer<A>>
    ensures only { IsOkUnless result VortexError.OutOfMemory }
{
    let mut answers = String::new(*ctx.allocator());
    match answer_script(text, &mut answers, ctx) {
        Ok(bad) => Ok(ScriptAnswer { text: answers, bad }),
        Err(error) => {
            drop(answers);
            Err(error)
        }
    }
}

/// Runs the script as `script` does, and appends its answer lines to the answers. Does the last of them say that a line
/// was not a command? Refused only as `OutOfMemory`, and then the lines that were answered before are there.
pub(crate) fn answer_script<A: Allocator + Copy>(
    text: &str,
    answers: &mut String<A>,
    ctx: &mut ExecutionCtx<A>,
) -> VortexResult<bool>
    ensures only { IsOkUnless result VortexError.OutOfMemory }
    ensures lines { AddsLines (string_bytes answers.old) (string_bytes answers.new) }
{
    let mut column = None;
    let ended = answer_lines(text, answers, &mut column, ctx);
    drop(column);
    ended
}

// Appends the answer lines of the script to the answers, up to the first line that is not a command. Is there one?
#[tactic(auto, using(crate::proofs::AnswerLines::no_lines, crate::proofs::AnswerLines::more_lines))]
fn answer_lines<A: Allocator + Copy>(
    text: &str,
    answers: &mut String<A>,
    column: &mut Option<ArrayRef<A>>,
    ctx: &mut ExecutionCtx<A>,
) -> VortexResult<bool>
    ensures only { IsOkUnless result VortexError.OutOfMemory }
    ensures lines { AddsLines (string_bytes answers.old) (string_bytes answers.new) }
{
    let mut before = 0usize;
    for line in text.split('\n') {
        let reply = reply_to(line, column, ctx)?;
        let bad = push_reply(*ctx.allocator(), answers, before, reply)?;
        if bad {
            return Ok(true);
        }
        // A text has fewer lines than 2^64.
        before = before.saturating_add(1);
    }
    Ok(false)
}

// Appends the line of the reply to the answers, where it has one: all of it, or nothing of it where memory is refused.
// Was the line, which has `before` lines before it, not a command?
#[tactic(auto, using(crate::proofs::AnswerLines::no_lines, crate::proofs::AnswerLines::one_line, crate::proofs::AnswerLines::done_line))]
fn push_reply<A: Allocator + Copy>(
    alloc: A,
    answers: &mut String<A>,
    before: usize,
    reply: Reply<A>,
) -> Result<bool, AllocError>
    ensures { AddsLines (string_bytes answers.old) (string_bytes answers.new) }
{
    match reply {
        Reply::Silent => {}
        Reply::Done => answers.push_str("ok\n")?,
        Reply::Line(answer) => push_line(answers, answer)?,
        Reply::Bad => {
            let number = before.saturating_add(1);
            let answer = format!(in alloc; "line {number}: bad command")?;
            push_line(answers, answer)?;
            return Ok(true);
        }
    }
    Ok(false)
}

// What comes of the line, where refusals are answers.
fn reply_to<A: Allocator + Copy>(
    line: &str,
    column: &mut Option<ArrayRef<A>>,
    ctx: &mut ExecutionCtx<A>,
) -> VortexResult<Reply<A>>
    ensures only { IsOkUnless result VortexError.OutOfMemory }
{
    let command = match read_line(line) {
        Line::Blank => return Ok(Reply::Silent),
        Line::Bad => return Ok(Reply::Bad),
        Line::Command(command) => command,
    };
    let outcome = perform(command, column, ctx);
    refusal_as_reply(*ctx.allocator(), outcome)
}

// What comes of a line, with a refusal as its line; only refused memory stays refused.
fn refusal_as_reply<A: Allocator + Copy>(
    alloc: A,
    outcome: VortexResult<Reply<A>>,
) -> VortexResult<Reply<A>>
    ensures only { IsOkUnless result VortexError.OutOfMemory }
    ensures told { IfOk result (IsReplyOf outcome) }
{
    match outcome {
        Ok(reply) => Ok(reply),
        Err(VortexError::OutOfMemory) => Err(VortexError::OutOfMemory),
        Err(error) => {
            let line = refusal_line(alloc, error)?;
            Ok(Reply::Line(line))
        }
    }
}

// Does the command. It is bad where it asks for rows that are not of their type, or for a column where there is none
// yet.
#[tactic(auto, using(crate::proofs::Sessions::left_by_others))]
fn perform<A: Allocator + Copy>(
    command: ScriptCommand<'_>,
    column: &mut Option<ArrayRef<A>>,
    ctx: &mut ExecutionCtx<A>,
) -> VortexResult<Reply<A>>
    ensures kept { OnErr result (column.new ≡ column.old) }
    ensures session { IsSessionAfter command.entry column.old ctx.old ctx.new }
{
    let listed = match command {
        ScriptCommand::Col(reading, nullability, words) => {
            plain_of(*ctx.allocator(), reading, nullability, words)?
        }
        ScriptCommand::Runs(line) => runs_of_line(line, ctx)?,
        ScriptCommand::Set(setting) => return Ok(set_beside(setting, column, ctx)),
        _ => {
            return match column {
                Some(array) => perform_on(command, array, ctx),
                None => Ok(Reply::Bad),
            };
        }
    };
    let Some(array) = listed else {
        return Ok(Reply::Bad);
    };
    drop(replace(column, Some(array)));
    Ok(Reply::Done)
}

// Sets the session, and leaves the column as it is. It is bad where there is none yet.
#[tactic(auto, using(crate::proofs::Sessions::unset_without_column, crate::proofs::Sessions::set_beside_column))]
fn set_beside<A: Allocator + Copy>(
    setting: Setting,
    column: &Option<ArrayRef<A>>,
    ctx: &mut ExecutionCtx<A>,
) -> Reply<A>
    ensures session { IsSessionAfter (line.Set setting) column.now ctx.old ctx.new }
{
    if column.is_none() {
        return Reply::Bad;
    }
    set_session(setting, ctx);
    Reply::Done
}

// Runs the command on the column.
#[tactic(auto, using(crate::proofs::Outcomes::of_others))]
fn perform_on<A: Allocator + Copy>(
    command: ScriptCommand<'_>,
    column: &mut ArrayRef<A>,
    ctx: &mut ExecutionCtx<A>,
) -> VortexResult<Reply<A>>
    ensures outcome { IsOutcome command.entry column.old result column.new }
    ensures kept { OnErr result (column.new ≡ column.old) }
    ensures session { ctx.new ≡ ctx.old }
    ensures message { command.entry ≡ line.Bytes → IsMessageReply (column_of column.old) result }
    ensures floats { (question : FloatQuestion) → command.entry ≡ line.Floats question →
        IsFloatReply question column.old result }
{
    match command {
        ScriptCommand::Append(words) => append_reply(words, column, ctx),
        ScriptCommand::Repeat(word, count) => repeat_reply(word, count, column, ctx),
        ScriptCommand::Reorder(order) => {
            reorder(order, column, ctx)?;
            Ok(Reply::Done)
        }
        _ => perform_step(command, column, ctx),
    }
}

// Appends the rows that the words mean to those of the column. It is bad where a word does not mean a row of its type.
#[tactic(auto, using(crate::proofs::RowsBehind::lists_none, crate::proofs::RowsBehind::appended_done, crate::proofs::RowsBehind::appended_refused))]
fn append_reply<A: Allocator + Copy>(
    words: Words<'_>,
    column: &mut ArrayRef<A>,
    ctx: &mut ExecutionCtx<A>,
) -> VortexResult<Reply<A>>
    ensures appended { IsAppended column.old (words_of words.entry.rest.now) result column.new }
    ensures kept { OnErr result (column.new ≡ column.old) }
    ensures session { ctx.new ≡ ctx.old }
{
    let DType::Primitive(ptype, nullability) = column.dtype() else {
        return Ok(Reply::Bad);
    };
    let reading = RowWords::Integers(ptype);
    let Some(batch) = plain_of(*ctx.allocator(), reading, nullability, words)? else {
        return Ok(Reply::Bad);
    };
    let whole = with_batch(column, &batch, ctx);
    drop(batch);
    drop(replace(column, whole?));
    Ok(Reply::Done)
}

// Appends `count` rows of the value that the word means to those of the column. It is bad where the word does not mean
// a value of its type, or null.
#[tactic(auto, using(crate::proofs::RowsBehind::repeated_done, crate::proofs::RowsBehind::repeated_refused))]
fn repeat_reply<A: Allocator + Copy>(
    word: &str,
    count: usize,
    column: &mut ArrayRef<A>,
    ctx: &mut ExecutionCtx<A>,
) -> VortexResult<Reply<A>>
    ensures repeated { IsRepeated column.old word.now count result column.new }
    ensures kept { OnErr result (column.new ≡ column.old) }
    ensures session { ctx.new ≡ ctx.old }
{
    let Some(value) = read_scalar(column.dtype(), word) else {
        return Ok(Reply::Bad);
    };
    let whole = with_value(column, &value, count, ctx);
    drop(value);
    drop(replace(column, whole?));
    Ok(Reply::Done)
}

// Runs a command that appends no rows.
#[tactic(auto, using(crate::proofs::Replies::step_of_reply))]
fn perform_step<A: Allocator + Copy>(
    command: ScriptCommand<'_>,
    column: &mut ArrayRef<A>,
    ctx: &mut ExecutionCtx<A>,
) -> VortexResult<Reply<A>>
    ensures step { IfOk result (λ reply. IsKeptOrStep column.old column.new) }
    ensures kept { OnErr result (column.new ≡ column.old) }
    ensures session { ctx.new ≡ ctx.old }
    ensures message { command.entry ≡ line.Bytes → IsMessageReply (column_of column.old) result }
    ensures floats { (question : FloatQuestion) → command.entry ≡ line.Floats question →
        IsFloatReply question column.old result }
{
    match command {
        ScriptCommand::Show => Ok(Reply::Line(form_line(*ctx.allocator(), column)?)),
        ScriptCommand::Rows => Ok(Reply::Line(rows_line(*ctx.allocator(), column)?)),
        ScriptCommand::Counts => Ok(Reply::Line(counts_line(column, ctx)?)),
        ScriptCommand::Floats(question) => float_reply(question, column, ctx),
        ScriptCommand::Meta => Ok(Reply::Line(meta_line(column, ctx)?)),
        ScriptCommand::Bytes => message_reply(*ctx.allocator(), column),
        ScriptCommand::Read(words) => match read_record(words, ctx)? {
            Some(line) => Ok(Reply::Line(line)),
            None => Ok(Reply::Bad),
        },
        ScriptCommand::Filter(bits) => match read_mask(*ctx.allocator(), bits)? {
            Some(mask) => reply_of(ColumnCommand::Filter(mask), column, ctx),
            None => Ok(Reply::Bad),
        },
        ScriptCommand::Take(words) => match read_indices(*ctx.allocator(), words)? {
            Some(indices) => reply_of(ColumnCommand::Take(indices), column, ctx),
            None => Ok(Reply::Bad),
        },
        _ => match column_command(command, column.dtype()) {
            Some(executed) => reply_of(executed, column, ctx),
            None => Ok(Reply::Bad),
        },
    }
}

// The line of the column's message. Refused as `message_line` is.
fn message_reply<A: Allocator + Copy>(alloc: A, array: &ArrayRef<A>) -> VortexResult<Reply<A>>
    ensures { IsMessageReply (column_of array.now) result }
{
    let line = message_line(alloc, array)?;
    Ok(Reply::Line(line))
}

// The line of what the column is asked as one of floats. Refused as `float_line` is.
fn float_reply<A: Allocator + Copy>(
    question: FloatQuestion,
    array: &ArrayRef<A>,
    ctx: &mut ExecutionCtx<A>,
) -> VortexResult<Reply<A>>
    ensures answered { IsFloatReply question array.now result }
    ensures session { ctx.new ≡ ctx.old }
{
    let line = float_line(question, array, ctx)?;
    Ok(Reply::Line(line))
}

// The command that is executed on a column of the type, or `None` where the line is not such a command, or a word of it
// does not mean a value of the type.
fn column_command<A: Allocator>(
    command: ScriptCommand<'_>,
    dtype: DType,
) -> Option<ColumnCommand<A>> {
    match command {
        ScriptCommand::Encode => Some(ColumnCommand::Encode),
        ScriptCommand::Decode => Some(ColumnCommand::Decode),
        ScriptCommand::At(index) => Some(ColumnCommand::At(index)),
        ScriptCommand::Slice(start, stop) => Some(ColumnCommand::Slice(start..stop)),
        ScriptCommand::Cast(ptype, nullability) => {
            let target = DType::Primitive(ptype, nullability);
            Some(ColumnCommand::Cast(target))
        }
        ScriptCommand::Fill(word) => Some(ColumnCommand::FillNull(read_scalar(dtype, word)?)),
        ScriptCommand::Sum => Some(ColumnCommand::Sum),
        ScriptCommand::MinMax => Some(ColumnCommand::MinMax),
        ScriptCommand::Constant => Some(ColumnCommand::IsConstant),
        ScriptCommand::Sorted => Some(ColumnCommand::IsSorted { strict: false }),
        ScriptCommand::Strict => Some(ColumnCommand::IsSorted { strict: true }),
        _ => None,
    }
}

// Executes the command, and answers by the line of what it was answered.
fn reply_of<A: Allocator + Copy>(
    command: ColumnCommand<A>,
    column: &mut ArrayRef<A>,
    ctx: &mut ExecutionCtx<A>,
) -> VortexResult<Reply<A>>
    ensures answered { IfOk result (λ reply. IsReplyTo column.old command column.new reply) }
    ensures kept { OnErr result (column.new ≡ column.old) }
    ensures session { ctx.new ≡ ctx.old }
{
    let reply = reply_by(&command, column, ctx);
    drop(command);
    reply
}

// Executes a command that its owner drops, and answers by the line of what it was answered.
fn reply_by<A: Allocator + Copy>(
    command: &ColumnCommand<A>,
    column: &mut ArrayRef<A>,
    ctx: &mut ExecutionCtx<A>,
) -> VortexResult<Reply<A>>
    ensures answered { IfOk result (λ reply. IsReplyTo column.old command.now column.new reply) }
    ensures kept { OnErr result (column.new ≡ column.old) }
    ensures session { ctx.new ≡ ctx.old }
{
    let answer = execute_one(command, column, ctx);
    let reply = reply_that(command, &answer, ctx);
    drop(answer);
    reply
}

// What says the answer. A command that is done needs no line, so that memory that is refused for one leaves the column
// as it was. `Unsupported` for an answer without a line: only integers have one.
#[tactic(auto, using(crate::proofs::Replies::not_short))]
fn reply_that<A: Allocator + Copy>(
    command: &ColumnCommand<A>,
    answer: &Answer<A>,
    ctx: &mut ExecutionCtx<A>,
) -> VortexResult<Reply<A>>
    ensures told { IfOk result (λ reply. Tells command.now answer.now reply) }
    ensures undone { OnErr result (answer.now ≢ Done) }
    ensures session { ctx.new ≡ ctx.old }
{
    if is_done(answer) {
        return Ok(Reply::Done);
    }
    if !has_answer_line(command, answer) {
        return Err(refusal_of(answer));
    }
    let line = answer_line(command, answer, ctx)?;
    Ok(Reply::Line(line))
}

// Is it answered that the command is done?
fn is_done<A: Allocator>(answer: &Answer<A>) -> bool
    ensures { IsTrue result ↔ (answer.now ≡ Done) }
{
    matches!(answer, Answer::Done)
}

// Why an answer has no line.
fn refusal_of<A: Allocator>(answer: &Answer<A>) -> VortexError {
    match answer {
        Answer::Refused(error) => *error,
        _ => VortexError::Unsupported,
    }
}
