//! What is asked of the rows of a group by themselves.
ghost use Rattle.std.specs.Prelude.{◌≡◌};
ghost use Rattle.typed_groups.specs.Questions.{decimal_sum_dtype, question_dtype};

use column_core::{DType, DecimalDType, Nullability, PType};
use column_floats::FloatFormat;

/// Says what is asked of the rows of a group.
#[derive(Clone, Copy, Debug, PartialEq, Eq, Drop)]
pub enum Question {
    /// Counts the values that are not null, of any type.
    Count,
    /// Adds floats of this format exactly, and rounds the sum once, to 64 bits.
    FloatSum(FloatFormat),
    /// Adds decimals exactly, in 38 digits at most.
    DecimalSum,
    /// Finds the least float of this format that is a number.
    LeastNumber(FloatFormat),
    /// Finds the greatest float of this format that is a number.
    GreatestNumber(FloatFormat),
    /// Finds the least value, of any type but lists.
    Least,
    /// Finds the greatest value, of any type but lists.
    Greatest,
    /// Finds the first value, of any type but lists.
    First,
    /// Finds the last value, of any type but lists.
    Last,
}

impl Question {
    /// Returns the type of the answers of groups of rows of a type. It has null.
    pub fn dtype(self, dtype: DType) -> DType
        ensures { result ≡ question_dtype self dtype }
    {
        match self {
            Question::Count => DType::Primitive(PType::U64, Nullability::Nullable),
            Question::FloatSum(_) => DType::Primitive(PType::I64, Nullability::Nullable),
            Question::DecimalSum => decimal_sum_dtype(dtype),
            Question::LeastNumber(_)
            | Question::GreatestNumber(_)
            | Question::Least
            | Question::Greatest
            | Question::First
            | Question::Last => dtype.with_nullability(Nullability::Nullable),
        }
    }
}

// The type of sums of decimals of a type: 38 digits at their scale.
fn decimal_sum_dtype(dtype: DType) -> DType
    ensures { result ≡ decimal_sum_dtype dtype }
{
    match dtype {
        DType::Decimal(decimal, _) => {
            let decimal = DecimalDType {
                precision: 38,
                scale: decimal.scale,
            };
            DType::Decimal(decimal, Nullability::Nullable)
        }
        _ => dtype.with_nullability(Nullability::Nullable),
    }
}
