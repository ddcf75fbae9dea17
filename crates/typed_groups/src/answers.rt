//! What is answered of the rows of a column in each group.
ghost use Rattle.std.specs.Prelude.{◌≡◌, ℕ, IfErr, IfOk, Some, length};
ghost use Rattle.runend_array.specs.Array.{dtype_of, rows};
ghost use Rattle.row_groups.specs.Groups.{AreEndsOf};
ghost use Rattle.typed_columns.specs.Typed.{typed_of};
ghost use Rattle.typed_groups.specs.Answering.{IsAnswered, IsPossible, answering_of};
ghost use Rattle.typed_groups.specs.Answers.{AreAnswersBy, IsFolded, IsFoldedRefusal, IsLargeGroup, answer_dtype, answer_format, sum_format};
ghost use Rattle.typed_kernels.specs.Served.{served};

use crate::answering::Answering;
use crate::each::answers_of_each;
use crate::folds::{counted_rows, folded_numbers};
use runend_array::{ArrayRef, ExecutionCtx};
use runend_pairs::{GroupError, GroupFold};
use std::alloc::Allocator;
use typed_columns::TypedColumn;
use typed_kernels::Served;

/// Returns what is answered of the rows of a column in each of the groups that end before these rows, as a column that
/// has null: `GroupFold` says what each answer is. Floats are added exactly and rounded once, to 64 bits, and their
/// least and greatest are numbers; decimals are added in 38 digits. A value of the column has the format of the column,
/// a sum of floats that of floats of 64 bits, a sum of lengths of time theirs, and other sums and numbers of rows have
/// none. Takes a step for each run where rows are stored as integers, and else for each run of each group; a first and
/// a last value take one for each row of the group up to it.
///
/// Refused as `SumOverflow` with the first group whose sum does not fit 64 bits, or 38 digits, and else only as
/// `Refused(OutOfMemory)`.
pub fn answer_groups<A: Allocator + Copy>(
    column: &TypedColumn<A>,
    ends: &[u64],
    fold: GroupFold,
    ctx: &mut ExecutionCtx<A>,
) -> Result<TypedColumn<A>, GroupError>
    requires ends { AreEndsOf (length (rows column.now.array)) ends.now }
    requires answered { IsAnswered fold (typed_of column.now) }
    ensures folded { IfOk result (λ made. IsFolded ends.now fold (typed_of column.now) (typed_of made)) }
    ensures fits { IfOk result (λ made. (group : ℕ) → ¬ IsLargeGroup ends.now fold (typed_of column.now) group) }
    ensures refused { IfErr result (IsFoldedRefusal ends.now fold (typed_of column.now)) }
    ensures session { ctx.new ≡ ctx.old }
{
    let answering = answering_for(column, fold);
    let array = answers_by(answering, column, ends, fold, ctx)?;
    let format = answer_format(column, fold);
    Ok(TypedColumn::with_format(*ctx.allocator(), array, format)?)
}

// How the groups of a column are answered, which they are.
fn answering_for<A: Allocator + Copy>(column: &TypedColumn<A>, fold: GroupFold) -> Answering
    requires { IsAnswered fold (typed_of column.now) }
    ensures answering { answering_of fold (typed_of column.now) ≡ Some result }
    ensures possible { IsPossible (dtype_of column.now.array) result }
{
    Answering::of(column, fold).unwrap()
}

// The same without a format, answered in this way.
fn answers_by<A: Allocator + Copy>(
    answering: Answering,
    column: &TypedColumn<A>,
    ends: &[u64],
    fold: GroupFold,
    ctx: &mut ExecutionCtx<A>,
) -> Result<ArrayRef<A>, GroupError>
    requires ends { AreEndsOf (length (rows column.now.array)) ends.now }
    requires answering { answering_of fold (typed_of column.now) ≡ Some answering }
    requires possible { IsPossible (dtype_of column.now.array) answering }
    ensures answers { IfOk result (λ made. AreAnswersBy answering fold ends.now (rows column.now.array) (rows made)) }
    ensures counted { IfOk result (λ made. length (rows made) ≡ length ends.now) }
    ensures dtype { IfOk result (λ made. dtype_of made ≡ answer_dtype answering fold (dtype_of column.now.array)) }
    ensures fits { IfOk result (λ made. (group : ℕ) → ¬ IsLargeGroup ends.now fold (typed_of column.now) group) }
    ensures refused { IfErr result (IsFoldedRefusal ends.now fold (typed_of column.now)) }
    ensures session { ctx.new ≡ ctx.old }
{
    match answering {
        Answering::Rows => counted_rows(&column.array, ends, ctx),
        Answering::Numbers => folded_numbers(&column.array, ends, fold, ctx),
        Answering::Each(question) => answers_of_each(question, &column.array, ends, ctx),
    }
}

// The format of an answer.
fn answer_format<A: Allocator + Copy>(column: &TypedColumn<A>, fold: GroupFold) -> &str
    ensures { result.now ≡ answer_format fold (served (typed_of column.now)) (typed_of column.now).format }
{
    match fold {
        GroupFold::Rows | GroupFold::Count => "",
        GroupFold::Sum => sum_format(column),
        GroupFold::Least | GroupFold::Greatest | GroupFold::First | GroupFold::Last => {
            column.format.as_str()
        }
    }
}

// The format of a sum: of floats that of 64 bits, of lengths of time theirs.
fn sum_format<A: Allocator + Copy>(column: &TypedColumn<A>) -> &str
    ensures { result.now ≡ sum_format (served (typed_of column.now)) (typed_of column.now).format }
{
    match Served::of(column) {
        Served::Stored => "",
        Served::Floats(_) => "g",
        Served::Times(_) => column.format.as_str(),
    }
}
