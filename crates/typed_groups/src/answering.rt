//! How what is asked of the groups of a column is answered.
ghost use Rattle.std.specs.Prelude.{◌≡◌, ◌↔◌, IfSome, IsTrue};
ghost use Rattle.runend_array.specs.Array.{dtype_of};
ghost use Rattle.typed_columns.specs.Typed.{typed_of};
ghost use Rattle.typed_kernels.specs.Sums.{IsSummable};
ghost use Rattle.typed_groups.specs.Answering.{IsAnswered, IsPossible, answering_of, numbers_or, sum_answering, value_or};

use crate::question::Question;
use column_core::{DType, is_list_type, is_number_type};
use runend_pairs::GroupFold;
use std::alloc::Allocator;
use typed_columns::TypedColumn;
use typed_kernels::{Served, Summand};

/// Says how the rows of groups are answered.
#[derive(Clone, Copy, Debug, PartialEq, Eq, Drop)]
pub enum Answering {
    /// Counts the rows, by the ends of the groups alone.
    Rows,
    /// Folds integers as they are stored, over the runs of all groups.
    Numbers,
    /// Asks the rows of each group by themselves.
    Each(Question),
}

/// Returns whether the groups of a column have an answer. Rows and values of any type are counted. Integers, floats,
/// decimals and lengths of time are added; dates, times of a day and timestamps are not. All but lists have a least, a
/// greatest, a first and a last value.
pub fn is_answered<A: Allocator + Copy>(column: &TypedColumn<A>, fold: GroupFold) -> bool
    ensures { IsTrue result ↔ IsAnswered fold (typed_of column.now) }
{
    Answering::of(column, fold).is_some()
}

impl Answering {
    /// Returns how what is asked of the groups of a column is answered, `None` where it is not.
    pub fn of<A: Allocator + Copy>(column: &TypedColumn<A>, fold: GroupFold) -> Option<Answering>
        ensures answering { result ≡ answering_of fold (typed_of column.now) }
        ensures possible { IfSome result (IsPossible (dtype_of column.now.array)) }
    {
        let dtype = column.array.dtype();
        match fold {
            GroupFold::Rows => Some(Answering::Rows),
            GroupFold::Count => Some(numbers_or(Question::Count, dtype)),
            GroupFold::Sum => match Summand::of(column) {
                Some(summand) => Some(sum_answering(summand, dtype)),
                None => None,
            },
            GroupFold::Least => match Served::of(column) {
                Served::Floats(format) => Some(Answering::Each(Question::LeastNumber(format))),
                _ => value_or(Question::Least, dtype),
            },
            GroupFold::Greatest => match Served::of(column) {
                Served::Floats(format) => Some(Answering::Each(Question::GreatestNumber(format))),
                _ => value_or(Question::Greatest, dtype),
            },
            GroupFold::First => value_or(Question::First, dtype),
            GroupFold::Last => value_or(Question::Last, dtype),
        }
    }
}

// How the sum of rows of a type that are added so is answered.
fn sum_answering(summand: Summand, dtype: DType) -> Answering
    requires { IsSummable dtype summand }
    ensures answering { result ≡ sum_answering summand }
    ensures possible { IsPossible dtype result }
{
    match summand {
        Summand::Integers => Answering::Numbers,
        Summand::Decimals => Answering::Each(Question::DecimalSum),
        Summand::Floats(format) => Answering::Each(Question::FloatSum(format)),
    }
}

// How a question is answered that any rows have, but integers by their runs.
fn numbers_or(question: Question, dtype: DType) -> Answering
    ensures { result ≡ numbers_or question dtype }
{
    if is_number_type(dtype) {
        Answering::Numbers
    } else {
        Answering::Each(question)
    }
}

// The same of one that lists have not.
fn value_or(question: Question, dtype: DType) -> Option<Answering>
    ensures { result ≡ value_or question dtype }
{
    if is_list_type(dtype) {
        None
    } else {
        Some(numbers_or(question, dtype))
    }
}
