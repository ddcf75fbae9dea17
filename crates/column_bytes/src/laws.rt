//! The laws of columns as bytes. But for the last, each function here does nothing: its clause is the law.
ghost use Rattle.std.specs.Prelude.{◌≡◌, IfOk, IfErr};
ghost use Rattle.runend_array.specs.Array.{column_of};
ghost use Rattle.runend_array.specs.Column.{plain_of};
ghost use Rattle.column_bytes.specs.Laws.{SpellingIsUnique, WrittenIsAMessage, EqualRowsEqualBytes, EqualBytesEqualRows, ReadTakesFewBytes};
ghost use Rattle.column_bytes.specs.Packed.{packed_column};
ghost use Rattle.column_bytes.specs.Read.{IsUnsupportedOrMemory};

use crate::column::{read_column, write_column};
use column_base::VortexResult;
use runend_array::ArrayRef;
use std::alloc::Allocator;

/// Proves that bytes are those of at most one column.
pub fn spelling_is_unique()
    ensures { SpellingIsUnique }
{}

/// Proves that what is written of a column is a message of the same column, with its texts and bytes packed.
/// For file writers: no reader may refuse it as `BadMetadata`.
pub fn written_is_a_message()
    ensures { WrittenIsAMessage }
{}

/// Proves that two encodings of the same rows and type, unless they are lists, have the same message, byte for byte,
/// whichever columns they were made of and wherever their texts lie. An encoding is what `encode_rows` of
/// `runend_builder` returns: the tight exact cover, from the first row on, with ends of the least type and flat values
/// as a call computes them. `RunEnd::encode` returns it too, except for a column whose validity says by its form that
/// all rows are null.
/// For caches, group-by and databases: bytes can be compared and hashed in place of rows.
pub fn equal_rows_equal_bytes()
    ensures { EqualRowsEqualBytes }
{}

/// Proves that columns which have the same message have the same type and the same rows.
/// For caches and group-by: a comparison of bytes takes no two columns for one.
pub fn equal_bytes_equal_rows()
    ensures { EqualBytesEqualRows }
{}

/// Proves that a column that was read takes at most 24 bytes for each byte of its message, as `bytes_used` counts them:
/// the view of an empty text has 24 bytes, and its size is one byte of the message.
/// For servers: the length of a message says, before it is read, how much memory it can ask for.
pub fn read_takes_few_bytes()
    ensures { ReadTakesFewBytes }
{}

/// Writes a column and reads what was written: it is a column with the same rows, in the same form, except that the
/// views and buffers of texts and bytes are packed. Refused as `Unsupported` where `write_column` is, else only as
/// `OutOfMemory`.
pub fn write_then_read<A: Allocator + Copy>(
    alloc: A,
    array: &ArrayRef<A>,
) -> VortexResult<ArrayRef<A>>
    ensures same { IfOk result (λ read. column_of read ≡ packed_column (column_of array.now)) }
    ensures rows { IfOk result (λ read. plain_of (column_of read) ≡ plain_of (column_of array.now)) }
    ensures only { IfErr result IsUnsupportedOrMemory }
{
    let bytes = write_column(alloc, array)?;
    match read_column(alloc, &bytes) {
        Ok(read) => Ok(read),
        Err(error) => Err(error),
    }
}
