//! Columns with a logical type as bytes: a message of version 2 around that of the column.
ghost use Rattle.std.specs.Prelude.{◌≡◌, ◌≢◌, ◌^◌, ◌<◌, ◌≤◌, ◌++◌, ℕ, List, [], IfErr, IfOk, IsErrOf, MatchOption, OnOk, length};
ghost use Rattle.std.specs.Bool.{OnFalse, OnTrue};
ghost use Rattle.runend_array.specs.Array.{column_of};
ghost use Rattle.runend_array.specs.Column.{Column, depth};
ghost use Rattle.column_bytes.specs.Bytes.{column_bytes};
ghost use Rattle.column_bytes.specs.Read.{IsUnsupportedOrMemory, IsWritable};
ghost use Rattle.column_bytes.specs.Typed.{HasTypedParts, IsNoTypedMessage, IsTypedMessage, TypedSpellingIsUnique, name_start, typed_bytes};
ghost use Rattle.column_fields.specs.Kept.{StaysInFront};
ghost use Rattle.column_fields.specs.Refusal.{IsBadOrMemory};
ghost use Rattle.column_fields.specs.Room.{UsesCountedRoom};

use crate::column::{put_message, read_column};
use crate::message_checks::is_message;
use crate::sizes::message_size;
use bytes::BufMut;
use column_base::{VortexError, VortexResult};
use column_fields::{
    bytes_key_size, number_size, put_bytes, put_bytes_key, put_number, read_bytes, read_constant,
    read_last_bytes, size_of_total,
};
use runend_array::ArrayRef;
use std::alloc::Allocator;
use std::str;

/// Returns how many bytes the message of a column with the logical type of this name has. An empty name says that the
/// column has none: the message is the one that `put_message` writes. Takes no memory. Refused as `Unsupported` exactly
/// where the column has more than 16 levels of runs, and as `OutOfMemory` exactly where the message has 2^64 bytes or
/// more.
pub fn typed_size<A: Allocator + Copy>(format: &str, array: &ArrayRef<A>) -> VortexResult<usize>
    ensures size { IfOk result (λ size.
        size ≡ length (typed_bytes format.now (column_bytes (column_of array.now)))) }
    ensures writable { OnOk result (IsWritable 16 (column_of array.now)) }
    ensures deep { IsErrOf result VortexError.Unsupported → 16 < depth (column_of array.now) }
    ensures exact { 16 < depth (column_of array.now) → IsErrOf result VortexError.Unsupported }
    ensures refused { IsErrOf result VortexError.Unsupported → ¬ IsWritable 16 (column_of array.now) }
    ensures past { IsErrOf result VortexError.OutOfMemory →
        2 ^ 64 ≤ length (typed_bytes format.now (column_bytes (column_of array.now))) }
    ensures only { IfErr result IsUnsupportedOrMemory }
{
    let size = message_size(array)?;
    if format.len() == 0 {
        return Ok(size);
    }
    let front = number_size(1, 2) + bytes_key_size(22, format.len()) + bytes_key_size(23, size);
    size_of_total(front as u128 + format.len() as u128 + size as u128)
}

/// Writes the message of a column with the logical type of this name to the end of a buffer: version 2, the name, and
/// the message of the column. An empty name says that the column has none: then it is only that message. Refused as
/// `put_message` is, and an `Err` leaves the same.
pub fn put_typed<A: Allocator + Copy, W: BufMut>(
    out: &mut W,
    format: &str,
    array: &ArrayRef<A>,
) -> VortexResult<()>
    ensures ok { OnOk result (W.written out.new ≡
        W.written out.old ++ typed_bytes format.now (column_bytes (column_of array.now))) }
    ensures room { UsesCountedRoom result (W.spare out.old) (W.spare out.new)
        (length (typed_bytes format.now (column_bytes (column_of array.now)))) }
    ensures writable { OnOk result (IsWritable 16 (column_of array.now)) }
    ensures deep { IsErrOf result VortexError.Unsupported → 16 < depth (column_of array.now) }
    ensures exact { 16 < depth (column_of array.now) → IsErrOf result VortexError.Unsupported }
    ensures refused { IsErrOf result VortexError.Unsupported → ¬ IsWritable 16 (column_of array.now) }
    ensures kept { StaysInFront (W.written out.old) (W.written out.new) }
    ensures only { IfErr result IsUnsupportedOrMemory }
{
    if format.len() == 0 {
        return put_message(out, array);
    }
    let size = message_size(array)?;
    put_number(out, 1, 2)?;
    put_bytes(out, 22, format.as_bytes())?;
    put_bytes_key(out, 23, size)?;
    put_message(out, array)
}

/// Returns the message of a column with the logical type of this name, in memory of the allocator `alloc` that is taken
/// once. Refused as `Unsupported` exactly where there are more than 16 levels of runs, before any memory is taken; else
/// only as `OutOfMemory`.
pub fn write_typed<A: Allocator + Copy, B: Allocator + Copy>(
    alloc: B,
    format: &str,
    array: &ArrayRef<A>,
) -> VortexResult<Vec<u8, B>>
    ensures bytes { IfOk result (λ out.
        out.items ≡ typed_bytes format.now (column_bytes (column_of array.now))) }
    ensures writable { OnOk result (IsWritable 16 (column_of array.now)) }
    ensures deep { IsErrOf result VortexError.Unsupported → 16 < depth (column_of array.now) }
    ensures exact { 16 < depth (column_of array.now) → IsErrOf result VortexError.Unsupported }
    ensures refused { IsErrOf result VortexError.Unsupported → ¬ IsWritable 16 (column_of array.now) }
    ensures only { IfErr result IsUnsupportedOrMemory }
{
    let size = typed_size(format, array)?;
    let mut out = Vec::with_capacity(alloc, size)?;
    put_typed(&mut out, format, array)?;
    Ok(out)
}

/// Returns the column that the bytes are the message of, and the name of its logical type, which is empty where it has
/// none. Refused as `BadMetadata` exactly where they are not the message of a column with at most 16 levels of runs,
/// with or without a logical type; else only as `OutOfMemory`.
pub fn read_typed<A: Allocator + Copy>(alloc: A, bytes: &[u8]) -> VortexResult<(&str, ArrayRef<A>)>
    ensures found { IfOk result (λ read. IsTypedMessage 16 bytes.now read.0.now (column_of read.1)) }
    ensures bad { IsErrOf result VortexError.BadMetadata → IsNoTypedMessage 16 bytes.now }
    ensures short { IsErrOf result VortexError.OutOfMemory →
        (format : List ℕ) × (c : Column) × IsTypedMessage 16 bytes.now format c }
    ensures only { IfErr result IsBadOrMemory }
{
    let Some((format, message)) = parts_of(bytes) else {
        return Err(VortexError::BadMetadata);
    };
    let array = read_column(alloc, message)?;
    Ok((format, array))
}

/// Returns whether the bytes are the message of a column, with or without a logical type. Takes no memory.
pub fn is_typed_message(bytes: &[u8]) -> bool
    ensures yes { OnTrue result ((format : List ℕ) × (c : Column) × IsTypedMessage 16 bytes.now format c) }
    ensures no { OnFalse result (IsNoTypedMessage 16 bytes.now) }
{
    match parts_of(bytes) {
        Some((_, message)) => is_message(message),
        None => false,
    }
}

/// Returns how many bytes are before the name of a logical type in a message that has it: 0 where the name is empty.
pub fn type_start(format: &str) -> usize
    ensures start { result ≡ name_start format.now }
    ensures most { result ≤ 40 }
{
    if format.len() == 0 {
        return 0;
    }
    number_size(1, 2) + bytes_key_size(22, format.len())
}

/// Proves that bytes are those of at most one logical type and column. The function does nothing: its clause is the
/// law.
pub fn typed_spelling_is_unique()
    ensures { TypedSpellingIsUnique }
{}

// The name of the type, and the bytes in the place of the column's message: all, where version 2 is not at the front.
fn parts_of(bytes: &[u8]) -> Option<(&str, &[u8])>
    ensures { MatchOption result (IsNoTypedMessage 16 bytes.now)
        (λ parts. HasTypedParts 16 bytes.now parts.0.now parts.1.now) }
{
    let Some(fields) = read_constant(bytes, 1, 2) else {
        return Some(("", bytes));
    };
    let (format, rest) = read_bytes(fields, 22)?;
    if format.len() == 0 {
        return None;
    }
    let message = read_last_bytes(rest, 23)?;
    match str::from_utf8(format) {
        Ok(format) => Some((format, message)),
        Err(_) => None,
    }
}
