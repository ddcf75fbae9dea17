//! One row of the column of a handle, by what its rows are worked as.
ghost use Rattle.std.specs.Prelude.{◌≡◌, ◌≢◌, IfErr, IfOk, IsSomeAnd, None, OnErr, length, pos};
ghost use Rattle.std.specs.Global.{Global};
ghost use Rattle.float_bits.specs.Format.{IsPattern};
ghost use Rattle.runend_commands.specs.Meaning.{plain};
ghost use Rattle.runend_commands.specs.Refusal.{refusal};
ghost use Rattle.runend_commands.specs.declared.command.Command.TheVariants.{At};
ghost use Rattle.c_columns.specs.Ending.{EndsOnRow, IsLookUpFault};
ghost use Rattle.c_columns.specs.Handle.{array_in};
ghost use Rattle.c_kernels.specs.TypedRows.{IsDoubleTold, IsRowTold};

use c_columns::error_fields::{ErrorFields, NO_COLUMN, write_answer};
use c_columns::handle::Handle;
use c_columns::row_value::{RowValue, row_value_of};
use column_core::{VortexResult, fault_of_lists};
use float_bits::{FloatFormat, round_float};
use std::alloc::Global;
use typed_columns::TypedColumn;
use typed_kernels::{TypedView, typed_at};

/// Writes the row at `row` of the column of a handle, which takes no memory, and returns 0: a float as the one of 64
/// bits that it is, and any other row as it is stored. A text or bytes go to the front of `text`. Else returns the
/// number of an error, and writes nothing: 22 for an empty handle, then 13 for lists, then 8 past the last row, and 11,
/// with their number and the room, where a text or bytes have no room in `text`.
#[tactic(auto, using(c_columns::proofs::LookUps::row_empty, c_columns::proofs::LookUps::row_done, c_columns::proofs::LookUps::row_refused, crate::proofs::TypedRowEndings::row_told))]
pub fn typed_row_in_handle(
    alloc: Global,
    column: &mut Handle,
    row: usize,
    value: &mut RowValue,
    text: &mut [u8],
    error: &mut ErrorFields,
) -> i32
    ensures same { column.new.column ≡ column.old.column }
    ensures told { result ≡ pos 0 → IsSomeAnd column.old.column (λ c. IsRowTold row c text.new value.new) }
    ensures kept_value { result ≢ pos 0 → value.new ≡ value.old }
    ensures kept_text { result ≢ pos 0 → text.new ≡ text.old }
    ensures ended { EndsOnRow row (length text.old) (array_in column.old.column) result error.new }
{
    let Some(held) = column.take(alloc) else {
        return NO_COLUMN;
    };
    let outcome = row_of(&held, row, text);
    column.put(held);
    write_answer(outcome, value, error)
}

// Returns the row for C. Refused as `typed_row_in_handle` says.
#[tactic(auto, using(c_columns::proofs::LookUps::refused_lists, crate::proofs::TypedRowEndings::outside, crate::proofs::TypedRowEndings::accepted, crate::proofs::TypedRowEndings::no_room, crate::proofs::TypedRowEndings::stored_told, crate::proofs::TypedRowEndings::float_told, crate::proofs::TypedRowEndings::pattern_shown))]
fn row_of(column: &TypedColumn<Global>, row: usize, text: &mut [u8]) -> VortexResult<RowValue>
    ensures told { IfOk result (λ value. IsRowTold row column.now text.new value) }
    ensures accepted { IfOk result (λ _. refusal {A = Global} (plain column.now.array) (At row) ≡ None) }
    ensures refused { IfErr result (λ error. IsLookUpFault (plain column.now.array) row (length text.old) error) }
    ensures kept { OnErr result (text.new ≡ text.old) }
{
    if let Some(error) = fault_of_lists(column.array.dtype()) {
        return Err(error);
    }
    match typed_at(column, row)? {
        TypedView::Stored(view) => row_value_of(view, text),
        TypedView::Float(format, bits) => Ok(double_of(format, bits)),
    }
}

/// Returns the float of 64 bits that a float of this format is, for C.
pub(crate) fn double_of(format: FloatFormat, bits: u64) -> RowValue
    requires { IsPattern format bits }
    ensures { IsDoubleTold format bits result }
{
    RowValue {
        as_unsigned: round_float(format, FloatFormat::F64, bits),
        as_signed: 0,
        kind: 7,
        truth: 0,
        scale: 0,
    }
}
