//! What an operation makes of a logical type.
ghost use Rattle.std.specs.Prelude.{◌≡◌, ◌↔◌, IsTrue};
ghost use Rattle.logical_types.specs.Operations.{IsCompared, answer_of, sum_of};

use crate::annotation::Annotation;
use crate::types::LogicalType;
use column_base::PType;

/// Says what is done to a column, or asked of it.
#[derive(Clone, Copy, Debug, PartialEq, Eq)]
pub enum Operation {
    Slice,
    Take,
    Filter,
    FillNull,
    Append,
    Least,
    Greatest,
    Sum,
}

impl LogicalType {
    /// Returns the type of an operation's answer: that of the column, except that a sum of integers is of 64 bits.
    /// `None` where the operation has no meaning for such values: sums of dates, times, timestamps and keys of floats,
    /// and sums of decimals, which have a precision of their own.
    pub fn answer(self, operation: Operation) -> Option<LogicalType>
        ensures { result ≡ answer_of self operation }
    {
        match operation {
            Operation::Sum => self.sum(),
            _ => Some(self),
        }
    }

    // Returns the type of a sum.
    fn sum(self) -> Option<LogicalType>
        ensures { result ≡ sum_of self }
    {
        match self {
            LogicalType::Integer(ptype) if ptype.is_unsigned_int() => Some(LogicalType::Integer(
                PType::U64,
            )),
            LogicalType::Integer(_) => Some(LogicalType::Integer(PType::I64)),
            LogicalType::Duration(unit) => Some(LogicalType::Duration(unit)),
            _ => None,
        }
    }
}

impl Annotation<'_> {
    /// Returns whether rows of both are compared by their numbers: they are of one type, and timestamps both have a
    /// zone, whichever it is, or neither has one.
    pub fn is_compared_with(self, other: Annotation<'_>) -> bool
        ensures { IsTrue result ↔
            IsCompared self.entry.logical self.entry.zone.now other.entry.logical other.entry.zone.now }
    {
        self.logical == other.logical && self.zone.is_empty() == other.zone.is_empty()
    }
}
