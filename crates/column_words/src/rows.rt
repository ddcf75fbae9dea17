//! Rows that are null or integers, and totals, as words.
ghost use Rattle.std.specs.Prelude.{◌≡◌, ◌↔◌, ◌++◌, IsTrue, OnErr, OnOk};
ghost use Rattle.std.specs.String.{string_bytes};
ghost use Rattle.column_core.specs.ScalarView.{sees};
ghost use Rattle.column_words.specs.Rows.{IsNullOrNumber, row_word, total_word};

use column_core::ScalarView;
use column_sums::SumValue;
use itoa::Buffer;
use std::alloc::{AllocError, Allocator};

/// Returns whether the row is null, or an integer.
pub fn is_null_or_number<A: Allocator>(row: ScalarView<'_, A>) -> bool
    ensures { IsTrue result ↔ IsNullOrNumber (sees row.entry) }
{
    match row {
        ScalarView::Null | ScalarView::Unsigned(_) | ScalarView::Signed(_) => true,
        _ => false,
    }
}

/// Appends the word of the row, which is null or an integer, to the text. Where memory is refused, the text stays as it
/// was.
pub fn push_row_word<A: Allocator + Copy>(
    text: &mut String<A>,
    row: ScalarView<'_, A>,
) -> Result<(), AllocError>
    requires { IsNullOrNumber (sees row) }
    ensures written { OnOk result (string_bytes text.new ≡ string_bytes text.old ++ row_word (sees row.entry)) }
    ensures kept { OnErr result (string_bytes text.new ≡ string_bytes text.old) }
{
    match row {
        ScalarView::Unsigned(number) => text.push_str(Buffer::new().format(number)),
        ScalarView::Signed(number) => text.push_str(Buffer::new().format(number)),
        _ => text.push_str("null"),
    }
}

/// Appends the digits of the total to the text. Where memory is refused, the text stays as it was.
pub fn push_total_word<A: Allocator + Copy>(
    text: &mut String<A>,
    total: SumValue,
) -> Result<(), AllocError>
    ensures written { OnOk result (string_bytes text.new ≡ string_bytes text.old ++ total_word total) }
    ensures kept { OnErr result (string_bytes text.new ≡ string_bytes text.old) }
{
    match total {
        SumValue::Unsigned(number) => text.push_str(Buffer::new().format(number)),
        SumValue::Signed(number) => text.push_str(Buffer::new().format(number)),
    }
}
