//! Numbers that C passes to be compared, whatever the type of the column is.
ghost use Rattle.std.specs.Prelude.{◌≡◌, pos};
ghost use Rattle.c_columns.specs.Numbers.{number_passed};

use crate::pairs::{Pair, number_of};
use crate::row_value::RowValue;
use exact_numbers::ExactNumber;

/// Returns the number that a value is: an integer (kinds 1 and 2), a double (7), or a decimal of any scale (8); `None`
/// for null, truths, texts and bytes, and for the decimals of kind 4, whose scale is that of a column.
pub fn number_passed(value: &RowValue) -> Option<ExactNumber>
    ensures { result ≡ number_passed value.now }
{
    match value.kind {
        1 => Some(whole(i128::from(value.as_unsigned))),
        2 => Some(whole(i128::from(value.as_signed))),
        7 => Some(ExactNumber::Double {
            bits: value.as_unsigned,
        }),
        8 => Some(ExactNumber::Decimal {
            digits: number_of(Pair {
                low: value.as_unsigned,
                high: value.as_signed,
            }),
            scale: value.scale,
        }),
        _ => None,
    }
}

// Returns an integer as a number.
fn whole(digits: i128) -> ExactNumber
    ensures { result ≡ ExactNumber.Decimal digits (pos 0) }
{
    ExactNumber::Decimal { digits, scale: 0 }
}
