//! The lines of what a column of floats is asked, without their line feeds.
ghost use Rattle.std.specs.Prelude.{◌≡◌, ◌<◌, [], ◌∷◌, ℕ, IfOk, IfSome, MatchOption, OnOk, Some, codes, length, map, true};
ghost use Rattle.std.specs.String.{string_bytes};
ghost use Rattle.column_core.specs.Refusal.{IsRefusedBy};
ghost use Rattle.float_bits.specs.declared.formats.FloatFormat.TheVariants.{F64};
ghost use Rattle.runend_array.specs.Array.{dtype_of};
ghost use Rattle.runend_script.specs.FloatLines.{IsFloatAnswer, IsPushed, question_fault};

use crate::command::FloatQuestion;
use column_base::VortexResult;
use column_floats::{FloatFormat, format_of_column};
use column_words::push_float;
use runend_floats::{float_at, min_max_numbers, sum_floats};
use std::alloc::{AllocError, Allocator};
use vortex_runend::{ArrayRef, ExecutionCtx};

/// Returns the line of what the column is asked for as one of floats, which are stored by their keys: `rows F ..`,
/// `value F`, `sum F` of the exact sum, rounded once to 64 bits, or `minmax F F` of the least and the greatest number,
/// or `minmax none`. Refused as `TypeMismatch` where the column is not of `i16`, `i32` or `i64`, then for a row as
/// `OutOfBounds`, with its index and the number of rows; else only as `OutOfMemory`.
pub fn float_line<A: Allocator + Copy>(
    question: FloatQuestion,
    column: &ArrayRef<A>,
    ctx: &mut ExecutionCtx<A>,
) -> VortexResult<String<A>>
    ensures refused { IsRefusedBy (question_fault question column.now) result }
    ensures answer { IfOk result (λ line. IsFloatAnswer question column.now (string_bytes line)) }
    ensures session { ctx.new ≡ ctx.old }
{
    match question {
        FloatQuestion::Rows => rows_line(*ctx.allocator(), column),
        FloatQuestion::At(index) => row_line(*ctx.allocator(), column, index),
        FloatQuestion::Sum => sum_line(column, ctx),
        FloatQuestion::MinMax => extremes_line(column, ctx),
    }
}

// The line `rows F ..` of all rows.
#[tactic(auto, using(crate::proofs::FloatLines::line_of_none))]
fn rows_line<A: Allocator + Copy>(alloc: A, column: &ArrayRef<A>) -> VortexResult<String<A>>
    ensures refused { IsRefusedBy (question_fault FloatQuestion.Rows column.now) result }
    ensures answer { IfOk result (λ line. IsFloatAnswer FloatQuestion.Rows column.now (string_bytes line)) }
{
    let format = format_of_column(column.dtype())?;
    let mut line = String::from_str(alloc, "rows")?;
    // A row takes four bytes at least: what no memory can show is refused before the first row.
    line.reserve(column.len().saturating_mul(4))?;
    for index in 0..column.len() {
        push_row(&mut line, format, float_at(column, index)?)?;
    }
    Ok(line)
}

// The line `value F` of one row.
fn row_line<A: Allocator + Copy>(
    alloc: A,
    column: &ArrayRef<A>,
    index: usize,
) -> VortexResult<String<A>>
    ensures refused { IsRefusedBy (question_fault (FloatQuestion.At index) column.now) result }
    ensures answer { IfOk result (λ line. IsFloatAnswer (FloatQuestion.At index) column.now (string_bytes line)) }
{
    let format = format_of_column(column.dtype())?;
    let float = float_at(column, index)?;
    let mut line = String::from_str(alloc, "value")?;
    push_row(&mut line, format, float)?;
    Ok(line)
}

// The line `sum F`.
fn sum_line<A: Allocator + Copy>(
    column: &ArrayRef<A>,
    ctx: &mut ExecutionCtx<A>,
) -> VortexResult<String<A>>
    ensures refused { IsRefusedBy (question_fault FloatQuestion.Sum column.now) result }
    ensures answer { IfOk result (λ line. IsFloatAnswer FloatQuestion.Sum column.now (string_bytes line)) }
    ensures session { ctx.new ≡ ctx.old }
{
    let sum = sum_floats(column, ctx)?;
    let mut line = String::from_str(*ctx.allocator(), "sum")?;
    push_row(&mut line, FloatFormat::F64, Some(sum.rounded()))?;
    Ok(line)
}

// The line `minmax F F` of the least and the greatest number, or `minmax none`.
fn extremes_line<A: Allocator + Copy>(
    column: &ArrayRef<A>,
    ctx: &mut ExecutionCtx<A>,
) -> VortexResult<String<A>>
    ensures refused { IsRefusedBy (question_fault FloatQuestion.MinMax column.now) result }
    ensures answer { IfOk result (λ line. IsFloatAnswer FloatQuestion.MinMax column.now (string_bytes line)) }
    ensures session { ctx.new ≡ ctx.old }
{
    let format = format_of_column(column.dtype())?;
    let found = min_max_numbers(column, ctx)?;
    let Some(ends) = found else {
        return Ok(String::from_str(*ctx.allocator(), "minmax none")?);
    };
    let mut line = String::from_str(*ctx.allocator(), "minmax")?;
    push_row(&mut line, format, Some(ends.0))?;
    push_row(&mut line, format, Some(ends.1))?;
    Ok(line)
}

// Adds a space and the word of a row: `null`, `nan` for the quiet NaN with a plus and no payload, or the word of the
// float with these bits.
fn push_row<A: Allocator + Copy>(
    line: &mut String<A>,
    format: FloatFormat,
    float: Option<u64>,
) -> Result<(), AllocError>
    ensures { OnOk result (IsPushed format float (string_bytes line.old) (string_bytes line.new)) }
{
    match float {
        None => line.push_str(" null"),
        Some(bits) if bits == format.quiet_nan() => line.push_str(" nan"),
        Some(bits) => {
            line.push_str(" ")?;
            push_float(line, format, bits)
        }
    }
}
