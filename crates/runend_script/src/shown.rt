//! The lines of rows, of their counts and of forms, without their line feeds, and how a line is appended to others.
ghost use Rattle.std.specs.Prelude.{◌≡◌, ◌++◌, ◌∷◌, [], OnErr, OnOk};
ghost use Rattle.std.specs.String.{string_bytes};

use crate::answer::push_word;
use column_base::{DType, VortexError, VortexResult};
use column_words::{is_null_or_number, name_of, push_marked};
use runend_sorts::{ValueCounts, value_counts};
use std::alloc::{AllocError, Allocator};
use vortex_runend::{
    ArrayRef, ConstantArray, ExecutionCtx, RunEndArray, RunEndArrayExt, RunEndArraySlotsExt,
    ScalarView,
};

/// Returns the line `rows V ..` of all rows. Refused as `Unsupported` where a row is neither null nor an integer, and
/// as `OutOfMemory`.
pub fn rows_line<A: Allocator + Copy>(alloc: A, array: &ArrayRef<A>) -> VortexResult<String<A>> {
    let mut line = String::from_str(alloc, "rows")?;
    push_rows(&mut line, array)?;
    Ok(line)
}

/// Returns the line `counts V N ..`: each distinct row, null first, and how many rows are equal to it. Refused as
/// `Unsupported` where a row is neither null nor an integer, and as `OutOfMemory`.
pub fn counts_line<A: Allocator + Copy>(
    array: &ArrayRef<A>,
    ctx: &mut ExecutionCtx<A>,
) -> VortexResult<String<A>>
    ensures session { ctx.new ≡ ctx.old }
{
    let mut line = String::from_str(*ctx.allocator(), "counts")?;
    let counts = value_counts(array, ctx)?;
    let pushed = push_counts(&mut line, &counts);
    drop(counts);
    pushed?;
    Ok(line)
}

/// Returns the line of the form of a column: `flat TYPE V ..`, `const TYPE V length N`, or `runs TYPE ETYPE offset N
/// length N ends e .. values V ..`. Refused as `Unsupported` unless the rows are integers, and as `OutOfMemory`.
pub fn form_line<A: Allocator + Copy>(alloc: A, array: &ArrayRef<A>) -> VortexResult<String<A>> {
    let mut line = String::new(alloc);
    match array {
        ArrayRef::Constant(constant) => push_constant(&mut line, constant)?,
        ArrayRef::RunEnd(runs) => push_runs(&mut line, runs)?,
        _ => {
            line.push_str("flat")?;
            push_type(&mut line, array.dtype())?;
            push_rows(&mut line, array)?;
        }
    }
    Ok(line)
}

/// Appends a line and its line feed to the answers, or nothing where memory is refused.
pub fn push_line<A: Allocator + Copy>(
    answers: &mut String<A>,
    mut line: String<A>,
) -> Result<(), AllocError>
    ensures line { OnOk result (string_bytes answers.new ≡
        string_bytes answers.old ++ (string_bytes line ++ 10 ∷ [])) }
    ensures kept { OnErr result (string_bytes answers.new ≡ string_bytes answers.old) }
{
    let pushed = match line.push('\n') {
        Ok(()) => answers.push_str(line.as_str()),
        Err(error) => Err(error),
    };
    drop(line);
    pushed
}

// The type as a word, after a space.
fn push_type<A: Allocator + Copy>(line: &mut String<A>, dtype: DType) -> VortexResult<()> {
    let DType::Primitive(ptype, nullability) = dtype else {
        return Err(VortexError::Unsupported);
    };
    line.push_str(" ")?;
    push_marked(line, name_of(ptype), nullability)?;
    Ok(())
}

// The row as a word, after a space. Refused as `Unsupported` where it is neither null nor an integer.
fn push_row<A: Allocator + Copy>(line: &mut String<A>, row: ScalarView<'_, A>) -> VortexResult<()> {
    if !is_null_or_number(row) {
        return Err(VortexError::Unsupported);
    }
    push_word(line, row)?;
    Ok(())
}

// A word for each row, each after a space.
fn push_rows<A: Allocator + Copy>(line: &mut String<A>, array: &ArrayRef<A>) -> VortexResult<()> {
    // A row takes two bytes at least: what no memory can show is refused before the first row.
    line.reserve(array.len().saturating_mul(2))?;
    for index in 0..array.len() {
        push_row(line, array.scalar_at(index)?)?;
    }
    Ok(())
}

// A word for each value, and one for its count.
fn push_counts<A: Allocator + Copy>(
    line: &mut String<A>,
    counts: &ValueCounts<A>,
) -> VortexResult<()> {
    for index in 0..counts.values.len() {
        push_row(line, counts.values.scalar_at(index)?)?;
        push_row(line, counts.counts.scalar_at(index)?)?;
    }
    Ok(())
}

fn push_constant<A: Allocator + Copy>(
    line: &mut String<A>,
    constant: &ConstantArray<A>,
) -> VortexResult<()> {
    line.push_str("const")?;
    push_type(line, constant.dtype())?;
    push_row(line, constant.scalar().view())?;
    let length = constant.len();
    write!(line, " length {length}")?;
    Ok(())
}

fn push_runs<A: Allocator + Copy>(line: &mut String<A>, runs: &RunEndArray<A>) -> VortexResult<()> {
    line.push_str("runs")?;
    push_type(line, runs.dtype())?;
    push_type(line, runs.ends().dtype())?;
    let offset = runs.offset();
    let length = runs.len();
    write!(line, " offset {offset} length {length} ends")?;
    push_rows(line, runs.ends())?;
    line.push_str(" values")?;
    push_rows(line, runs.values())
}
