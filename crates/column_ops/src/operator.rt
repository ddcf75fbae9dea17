//! The operators of comparisons.
ghost use Rattle.std.specs.Prelude.{◌≡◌};

use std::cmp::Ordering;

/// Says how the left side of a comparison has to relate to the right one.
#[derive(Debug, Clone, Copy, PartialEq, Eq)]
pub enum CompareOperator {
    Eq,
    NotEq,
    Gt,
    Gte,
    Lt,
    Lte,
}

impl CompareOperator {
    ghost use Rattle.column_ops.specs.Comparing.{holds_of};

    /// Returns whether the operator holds of a left and a right value in this order.
    #[inline]
    pub fn holds(self, ordering: Ordering) -> bool
        ensures { result ≡ holds_of self ordering }
    {
        match self {
            CompareOperator::Eq => ordering.is_eq(),
            CompareOperator::NotEq => ordering.is_ne(),
            CompareOperator::Gt => ordering.is_gt(),
            CompareOperator::Gte => ordering.is_ge(),
            CompareOperator::Lt => ordering.is_lt(),
            CompareOperator::Lte => ordering.is_le(),
        }
    }
}
