//! Commands as a table has them, what each is due, and the rows that a list leaves.
use crate::columns::required;
use crate::parts::bits;
use std::alloc::Allocator;
use vortex_runend::compute::CompareOperator;
use vortex_runend::{
    Answer, ArrayRef, Command, DType, ExecutionCtx, Mask, Nullability, PType, Scalar, ScalarValue,
    ScalarView, SumAnswer, SumValue, VortexError, VortexResult,
};

/// Names a command, as a table of lists has it.
#[derive(Clone, Copy)]
pub(crate) enum Step<'a> {
    Slice(usize, usize),
    Filter(&'a [bool]),
    Take(&'a [u8]),
    /// Looks the rows up in a dictionary of these rows.
    Codes(&'a [i64]),
    CompareWith(CompareOperator, i64),
    CompareBeside(CompareOperator, &'a [i64]),
    Cast(DType),
    Fill(i64),
    Encode,
    Decode,
    At(usize),
    Sum,
    MinMax,
    IsConstant,
    /// Asks whether the rows rise, each above the one before where it is true.
    IsSorted(bool),
}

/// Names the answer that a command is due.
#[derive(Clone, Copy)]
pub(crate) enum Due {
    Done,
    Value(Option<i64>),
    Sum(SumValue),
    /// Names the sum where no row is valid, in a signed type.
    EmptySum,
    MinMax(i64, i64),
    NoMinMax,
    Bool(bool),
    Refused(VortexError),
}

/// Makes the command of a step.
pub(crate) fn command_of<A: Allocator + Copy>(
    step: &Step<'_>,
    ctx: &mut ExecutionCtx<A>,
) -> VortexResult<Command<A>> {
    let alloc = *ctx.allocator();
    Ok(match step {
        Step::Slice(start, stop) => Command::Slice(*start..*stop),
        Step::Filter(flags) => Command::Filter(Mask::from_buffer(bits(alloc, flags)?)),
        Step::Take(indices) => Command::Take(required(alloc, indices)?),
        Step::Codes(rows) => Command::TakeFrom(numbers(alloc, rows)?),
        Step::CompareWith(operator, number) => Command::CompareScalar(*operator, scalar(*number)?),
        Step::CompareBeside(operator, rows) => {
            Command::CompareColumn(*operator, numbers(alloc, rows)?)
        }
        Step::Cast(dtype) => Command::Cast(*dtype),
        Step::Fill(number) => Command::FillNull(scalar(*number)?),
        Step::Encode => Command::Encode,
        Step::Decode => Command::Decode,
        Step::At(index) => Command::At(*index),
        Step::Sum => Command::Sum,
        Step::MinMax => Command::MinMax,
        Step::IsConstant => Command::IsConstant,
        Step::IsSorted(strict) => Command::IsSorted { strict: *strict },
    })
}

/// Returns whether the rows are these.
pub(crate) fn shows<A: Allocator + Copy>(column: &ArrayRef<A>, rows: &[Option<i64>]) -> bool {
    for index in 0..rows.len() {
        match column.scalar_at(index) {
            Ok(view) if shown(view) == Some(rows[index]) => {}
            _ => return false,
        }
    }
    column.len() == rows.len()
}

/// Returns whether the answers are those that are due. Refused where a command was refused for memory.
pub(crate) fn are_due<A: Allocator>(answers: &[Answer<A>], due: &[Due]) -> VortexResult<bool> {
    if answers.len() != due.len() {
        return Ok(false);
    }
    for index in 0..due.len() {
        if matches!(&answers[index], Answer::Refused(VortexError::OutOfMemory)) {
            return Err(VortexError::OutOfMemory);
        }
        if !is_due(&answers[index], due[index]) {
            return Ok(false);
        }
    }
    Ok(true)
}

// The number in a type with null.
fn scalar<A: Allocator>(number: i64) -> VortexResult<Scalar<A>> {
    let dtype = DType::Primitive(PType::I64, Nullability::Nullable);
    Scalar::try_new(dtype, Some(ScalarValue::Signed(number)))
}

// A flat column of the numbers.
fn numbers<A: Allocator + Copy>(alloc: A, items: &[i64]) -> VortexResult<ArrayRef<A>> {
    Ok(ArrayRef::Primitive(required(alloc, items)?))
}

// The number that a view shows, 1 or 0 for a boolean, or `None` for null; nothing for texts and lists.
fn shown<A: Allocator>(view: ScalarView<'_, A>) -> Option<Option<i64>> {
    match view {
        ScalarView::Null => Some(None),
        ScalarView::Signed(number) => Some(Some(number)),
        ScalarView::Unsigned(number) => Some(i64::try_from(number).ok()),
        ScalarView::Bool(truth) => Some(Some(i64::from(truth))),
        _ => None,
    }
}

// Is the answer the one that is due?
fn is_due<A: Allocator>(answer: &Answer<A>, due: Due) -> bool {
    match (answer, due) {
        (Answer::Done, Due::Done) => true,
        (Answer::Value(value), Due::Value(number)) => shown(value.view()) == Some(number),
        (Answer::Sum(sum), Due::Sum(value)) => *sum == sum_of(value, false),
        (Answer::Sum(sum), Due::EmptySum) => *sum == sum_of(SumValue::Signed(0), true),
        (Answer::MinMax(Some((least, greatest))), Due::MinMax(low, high)) => {
            shown(least.view()) == Some(Some(low)) && shown(greatest.view()) == Some(Some(high))
        }
        (Answer::MinMax(None), Due::NoMinMax) => true,
        (Answer::Bool(truth), Due::Bool(expected)) => *truth == expected,
        (Answer::Refused(error), Due::Refused(expected)) => *error == expected,
        _ => false,
    }
}

// A sum that is in the range.
fn sum_of(value: SumValue, is_empty: bool) -> SumAnswer {
    SumAnswer {
        sum: Some(value),
        is_empty,
    }
}
