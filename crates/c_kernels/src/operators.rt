//! Operators on the two rows at each place, by number as C passes them.
ghost use Rattle.std.specs.Prelude.{◌≡◌};
ghost use Rattle.c_kernels.specs.Combined.{operator_numbered};

use column_ops::CompareOperator;
use runend_pairs::{BooleanOperator, NumericOperator};

/// Names what is calculated from the two rows at each place.
#[derive(Debug, Clone, Copy, PartialEq, Eq)]
pub enum PairOperator {
    /// Compares the rows of two columns of one kind: booleans.
    Compare(CompareOperator),
    /// Calculates with integers of one native type, which gives integers of that type, or with decimals.
    Calculate(NumericOperator),
    /// Connects booleans, where null is unknown.
    Connect(BooleanOperator),
    /// Picks the left row, or the right one where the left one is null.
    Coalesce,
    /// Picks the lesser row, null where either is null.
    Least,
    /// Picks the greater row, null where either is null.
    Greatest,
}

/// Returns the operator of a number: 0 to 5 compare, 6 to 8 add, subtract and multiply, 9 and 10 are `And` and `Or`,
/// 11 to 13 pick a row: the first that is not null, the lesser, the greater.
pub fn pair_operator_by(number: u8) -> Option<PairOperator>
    ensures { result ≡ operator_numbered number }
{
    match number {
        0 => Some(PairOperator::Compare(CompareOperator::Eq)),
        1 => Some(PairOperator::Compare(CompareOperator::NotEq)),
        2 => Some(PairOperator::Compare(CompareOperator::Gt)),
        3 => Some(PairOperator::Compare(CompareOperator::Gte)),
        4 => Some(PairOperator::Compare(CompareOperator::Lt)),
        5 => Some(PairOperator::Compare(CompareOperator::Lte)),
        6 => Some(PairOperator::Calculate(NumericOperator::Add)),
        7 => Some(PairOperator::Calculate(NumericOperator::Subtract)),
        8 => Some(PairOperator::Calculate(NumericOperator::Multiply)),
        9 => Some(PairOperator::Connect(BooleanOperator::And)),
        10 => Some(PairOperator::Connect(BooleanOperator::Or)),
        11 => Some(PairOperator::Coalesce),
        12 => Some(PairOperator::Least),
        13 => Some(PairOperator::Greatest),
        _ => None,
    }
}
