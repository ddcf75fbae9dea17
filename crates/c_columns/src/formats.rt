//! The format of Arrow that says what the rows of a column mean.
ghost use Rattle.std.specs.Prelude.{◌≡◌, drop, length, IfErr, IfOk, OnErr, OnOk};
ghost use Rattle.std.specs.Str.{IsUtf8};
ghost use Rattle.typed_columns.specs.Typed.{format_of};
ghost use Rattle.c_columns.specs.Formats.{IsFormatAtFront, IsNoFormat, TypingFault, format_fault};
ghost use Rattle.c_columns.specs.Makers.{IsCopyOf};
ghost use Rattle.c_columns.specs.ReadFaults.{IsRefusedOnlyBy};

use crate::flat::{Boxed, boxed_under};
use crate::row_value::put_bytes;
use crate::runs::copy;
use column_core::{VortexError, VortexResult};
use runend_array::ArrayRef;
use std::alloc::Global;
use std::str;
use typed_columns::TypedColumn;

/// Returns a copy in the same form with this format, on the heap; an empty text says that it has no format. Any text is
/// kept, also one that names no type. Refused as `TypeMismatch` exactly where the bytes are not UTF-8, else only for
/// memory.
pub fn with_type(alloc: Global, array: &ArrayRef<Global>, format: &[u8]) -> VortexResult<Boxed>
    ensures same { IfOk result (λ made. IsCopyOf array.now made.value.array) }
    ensures typed { IfOk result (λ made. format_of made.value ≡ format.now) }
    ensures refused { IfErr result (λ error. TypingFault format.now error) }
    ensures served { OnOk result (IsUtf8 format.now) }
{
    let name = text_of(format)?;
    let array = copy(alloc, array)?;
    boxed_under(alloc, array, name)
}

/// Writes the format of a column to the front of `room`, and returns how many bytes it has: 0 where the column has
/// none. The bytes after it stay. Takes no memory. Refused exactly where the format does not fit, as `ColumnLength`,
/// with its number of bytes and the room; then `room` is as it was.
pub fn put_type(column: &TypedColumn<Global>, room: &mut [u8]) -> VortexResult<usize>
    ensures put { IfOk result (λ size. IsFormatAtFront (format_of column.now) size room.new) }
    ensures after { IfOk result (λ size. drop size room.new ≡ drop size room.old) }
    ensures refused { IsRefusedOnlyBy (format_fault (format_of column.now) (length room.old)) result }
    ensures kept { OnErr result (room.new ≡ room.old) }
    ensures len { length room.new ≡ length room.old }
{
    let size = put_bytes(column.format.as_bytes(), room)?;
    Ok(size as usize)
}

// Returns the text that these bytes are. Refused as `TypeMismatch` exactly where they are not UTF-8.
fn text_of(format: &[u8]) -> VortexResult<&str>
    ensures same { IfOk result (λ name. name.now ≡ format.now) }
    ensures text { OnOk result (IsUtf8 format.now) }
    ensures other { IfErr result (λ error. IsNoFormat format.now error) }
{
    match str::from_utf8(format) {
        Ok(name) => Ok(name),
        Err(_) => Err(VortexError::TypeMismatch),
    }
}
