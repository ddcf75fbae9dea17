//! Comparisons with a number of any type, decided by comparisons with a number that the type of the rows has.
ghost use Rattle.std.specs.Prelude.{◌≡◌, ◌⊎◌, ◌≤ℤ◌, ℤ, None};
ghost use Rattle.std.specs.Ordering.{int_cmp};
ghost use Rattle.std.specs.declared.cmp.Ordering.TheVariants.{Greater, Less};
ghost use Rattle.column_ops.specs.Comparing.{holds_of};
ghost use Rattle.exact_numbers.specs.Decisions.{IsDecidedFor, IsDecidedAmong};
ghost use Rattle.exact_numbers.specs.Exact.{holds_exactly};
ghost use Rattle.exact_numbers.specs.Positions.{IsWithin, NamesWithin};

use crate::numbers::ExactNumber;
use crate::positions::Position;
use column_ops::CompareOperator;

/// Holds a comparison that answers for each row of a type what a comparison with a number of any type answers.
#[derive(Clone, Copy, Debug, PartialEq, Eq, Drop)]
pub struct Decision {
    pub operator: CompareOperator,
    /// Holds an integer that the type has, or the integer of a decimal that it has.
    pub number: i128,
}

impl ExactNumber {
    /// Returns the comparison that answers for each integer of a range, as the decimal of a scale that it is, what the
    /// operator answers of it and this number: with this number where it is one of them, else with the greatest one
    /// below it, or one that holds of all of the range or of none.
    pub fn decide(
        self,
        operator: CompareOperator,
        scale: i8,
        least: i128,
        greatest: i128,
    ) -> Decision
        requires { least ≤ℤ greatest }
        ensures within { IsWithin least greatest result.number }
        ensures decided { IsDecidedAmong operator self scale least greatest result }
    {
        let position = self.position(scale).within(least, greatest);
        position.decide(operator, greatest)
    }
}

impl Position {
    // Returns the comparison that answers for each integer up to the greatest one what the operator answers of it and
    // the number that is here.
    fn decide(self, operator: CompareOperator, greatest: i128) -> Decision
        ensures within { (least : ℤ) → least ≤ℤ greatest → NamesWithin least greatest self →
            IsWithin least greatest result.number }
        ensures decided { (row : ℤ) → row ≤ℤ greatest → IsDecidedFor operator self result row }
    {
        match self {
            Position::At(number) => Decision { operator, number },
            Position::Between(number) => between(operator, number, greatest),
            Position::BelowAll => all_or_none(is_from_above(operator), greatest),
            Position::AboveAll => all_or_none(is_from_below(operator), greatest),
            Position::Nowhere => all_or_none(is_unequal(operator), greatest),
        }
    }
}

// Returns the comparison for a number that is above an integer and below the next.
fn between(operator: CompareOperator, number: i128, greatest: i128) -> Decision
    ensures decided { (row : ℤ) → row ≤ℤ greatest → IsDecidedFor operator (Position.Between number) result row }
    ensures number { (result.number ≡ number) ⊎ (result.number ≡ greatest) }
{
    match operator {
        CompareOperator::Lt | CompareOperator::Lte => Decision {
            operator: CompareOperator::Lte,
            number,
        },
        CompareOperator::Gt | CompareOperator::Gte => Decision {
            operator: CompareOperator::Gt,
            number,
        },
        CompareOperator::Eq => all_or_none(false, greatest),
        CompareOperator::NotEq => all_or_none(true, greatest),
    }
}

// Returns a comparison that holds of all integers up to the greatest one, or of none.
fn all_or_none(all: bool, greatest: i128) -> Decision
    ensures number { result.number ≡ greatest }
    ensures decided { (row : ℤ) → row ≤ℤ greatest → holds_of result.operator (int_cmp row result.number) ≡ all }
{
    let operator = if all {
        CompareOperator::Lte
    } else {
        CompareOperator::Gt
    };
    Decision {
        operator,
        number: greatest,
    }
}

// Returns whether a comparison holds of what is above a number.
fn is_from_above(operator: CompareOperator) -> bool
    ensures { result ≡ holds_of operator Greater }
{
    match operator {
        CompareOperator::Gt | CompareOperator::Gte | CompareOperator::NotEq => true,
        _ => false,
    }
}

// Returns whether a comparison holds of what is below a number.
fn is_from_below(operator: CompareOperator) -> bool
    ensures { result ≡ holds_of operator Less }
{
    match operator {
        CompareOperator::Lt | CompareOperator::Lte | CompareOperator::NotEq => true,
        _ => false,
    }
}

// Returns whether a comparison holds of what is not in order.
fn is_unequal(operator: CompareOperator) -> bool
    ensures { result ≡ holds_exactly operator None }
{
    match operator {
        CompareOperator::NotEq => true,
        _ => false,
    }
}
