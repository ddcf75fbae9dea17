//! Calls that set and read the format of Arrow that says what the rows of a column mean.
ghost use Rattle.std.specs.Prelude.{◌≡◌, ◌≢◌, drop, length, pos};
ghost use Rattle.c_columns.specs.Ending.{WhereBoth};
ghost use Rattle.c_columns.specs.Formats.{EndsOnFormat, EndsOnTyping, IsFormatAtFront};
ghost use Rattle.c_columns.specs.Handle.{array_in, format_in};
ghost use Rattle.c_columns.specs.Makers.{IsCopyOf};

use c_columns::commands::answer;
use c_columns::error_fields::{ErrorFields, NO_COLUMN, write_answer};
use c_columns::formats;
use c_columns::handle::Handle;
use std::alloc::Global;

/// Makes a copy of a column under this format; an empty one says that it has none. Any text is kept, also one that
/// names no type. Refused as `TypeMismatch` exactly where it is not UTF-8, else as `OutOfMemory` only.
#[tactic(auto, using(crate::proofs::FormatEndings::typing_empty, crate::proofs::FormatEndings::typing_done, crate::proofs::FormatEndings::typing_refused))]
#[unsafe(no_mangle)]
pub extern "C" fn hv_with_type(
    alloc: Global,
    column: &mut Handle,
    format: &[u8],
    out: &mut Handle,
    error: &mut ErrorFields,
) -> i32
    ensures same { column.new.column ≡ column.old.column }
    ensures made { result ≡ pos 0 → WhereBoth IsCopyOf (array_in column.old.column) (array_in out.new.column) }
    ensures typed { result ≡ pos 0 → format_in out.new.column ≡ format.now }
    ensures kept { result ≢ pos 0 → out.new.column ≡ out.old.column }
    ensures ended { EndsOnTyping format.now (array_in column.old.column) result error.new }
{
    let Some(held) = column.take(alloc) else {
        return NO_COLUMN;
    };
    let outcome = formats::with_type(alloc, &held.array, format);
    column.put(held);
    answer(outcome, out, error)
}

/// Writes the format of a column: its bytes go to the front of `format`, and `size` says how many they are, 0 where the
/// column has none; those after them stay. Takes no memory. Answers 11, with their number and the room, exactly where
/// they have no room there.
#[tactic(auto, using(crate::proofs::FormatEndings::format_empty, crate::proofs::FormatEndings::format_ends, crate::proofs::FormatEndings::format_written))]
#[unsafe(no_mangle)]
pub extern "C" fn hv_type(
    alloc: Global,
    column: &mut Handle,
    format: &mut [u8],
    size: &mut usize,
    error: &mut ErrorFields,
) -> i32
    ensures same { column.new.column ≡ column.old.column }
    ensures told { result ≡ pos 0 → IsFormatAtFront (format_in column.old.column) size.new format.new }
    ensures after { result ≡ pos 0 → drop size.new format.new ≡ drop size.new format.old }
    ensures kept { result ≢ pos 0 → format.new ≡ format.old }
    ensures kept_size { result ≢ pos 0 → size.new ≡ size.old }
    ensures ended { EndsOnFormat (length format.old) column.old.column result error.new }
{
    let Some(held) = column.take(alloc) else {
        return NO_COLUMN;
    };
    let outcome = formats::put_type(&held, format);
    column.put(held);
    write_answer(outcome, size, error)
}
