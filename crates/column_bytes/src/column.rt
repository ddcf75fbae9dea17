//! A column of any form, written and read.
ghost use Rattle.std.specs.Prelude.{◌≡◌, ◌<◌, ◌++◌, length, IfOk, IfErr, IsErrOf, OnOk};
ghost use Rattle.runend_array.specs.Array.{column_of};
ghost use Rattle.runend_array.specs.Column.{Column, depth};
ghost use Rattle.column_bytes.specs.Bytes.{column_bytes};
ghost use Rattle.column_bytes.specs.Read.{IsMessage, IsNoMessage, IsWritable, IsUnsupportedOrMemory};
ghost use Rattle.column_fields.specs.Kept.{StaysInFront};
ghost use Rattle.column_fields.specs.Room.{UsesCountedRoom};
ghost use Rattle.column_fields.specs.Refusal.{IsBadOrMemory};

use crate::constants::{put_constant, read_constant};
use crate::flat::{put_decimal_rows, put_numbers, put_truths, read_leaf};
use crate::list_reading::read_lists;
use crate::lists::put_lists;
use crate::message_checks::is_message;
use crate::runs::{put_runs, read_runs};
use crate::sizes::{message_size, size_within};
use crate::texts::put_texts;
use bytes::BufMut;
use column_base::{VortexError, VortexResult};
use column_fields::{read_header, read_run_fields};
use runend_array::{ArrayRef, RunEndArraySlotsExt};
use std::alloc::Allocator;

/// Bounds the levels of runs of a message. Lists whose offsets, sizes or validity are in runs count as two.
pub const MOST_LEVELS: usize = 16;

/// Returns the message of a column, in memory of the allocator `alloc` that is taken once. Refused as `Unsupported`
/// exactly where there are more than 16 levels of runs, before any memory is taken; else only as `OutOfMemory`.
pub fn write_column<A: Allocator + Copy, B: Allocator + Copy>(
    alloc: B,
    array: &ArrayRef<A>,
) -> VortexResult<Vec<u8, B>>
    ensures bytes { IfOk result (λ out. out.items ≡ column_bytes (column_of array.now)) }
    ensures deep { IsErrOf result VortexError.Unsupported → 16 < depth (column_of array.now) }
    ensures exact { 16 < depth (column_of array.now) → IsErrOf result VortexError.Unsupported }
    ensures refused { IsErrOf result VortexError.Unsupported → ¬ IsWritable 16 (column_of array.now) }
    ensures writable { OnOk result (IsWritable 16 (column_of array.now)) }
    ensures only { IfErr result IsUnsupportedOrMemory }
{
    let size = message_size(array)?;
    let mut out = Vec::with_capacity(alloc, size)?;
    put_message(&mut out, array)?;
    Ok(out)
}

/// Writes the message of a column to the end of a buffer: a vector, or any other of the crate `bytes`. Takes only the
/// memory that the buffer takes for these bytes. Refused as `Unsupported` exactly where there are more than 16 levels
/// of runs, else as `OutOfMemory`, and this only where the buffer is sure of less room than `message_size` says, or the
/// size does not fit `usize`. An `Err` may leave a part of the message at the end. The earlier content of the buffer
/// stays in front in any case: cut to its old length, the buffer is as it was.
pub fn put_message<A: Allocator + Copy, W: BufMut>(
    out: &mut W,
    array: &ArrayRef<A>,
) -> VortexResult<()>
    ensures ok { OnOk result (W.written out.new ≡ W.written out.old ++ column_bytes (column_of array.now)) }
    ensures room { UsesCountedRoom result (W.spare out.old) (W.spare out.new)
        (length (column_bytes (column_of array.now))) }
    ensures deep { IsErrOf result VortexError.Unsupported → 16 < depth (column_of array.now) }
    ensures exact { 16 < depth (column_of array.now) → IsErrOf result VortexError.Unsupported }
    ensures refused { IsErrOf result VortexError.Unsupported → ¬ IsWritable 16 (column_of array.now) }
    ensures writable { OnOk result (IsWritable 16 (column_of array.now)) }
    ensures kept { StaysInFront (W.written out.old) (W.written out.new) }
    ensures only { IfErr result IsUnsupportedOrMemory }
{
    put_column(out, array, MOST_LEVELS)
}

/// Returns the column that the bytes are the message of. Refused as `BadMetadata` exactly where they are not the
/// message of a column with at most 16 levels of runs, else only as `OutOfMemory`: after a refusal for memory
/// `is_message` looks at the bytes once more, without memory.
pub fn read_column<A: Allocator + Copy>(alloc: A, bytes: &[u8]) -> VortexResult<ArrayRef<A>>
    ensures found { IfOk result (λ array. IsMessage 16 bytes.now (column_of array)) }
    ensures bad { IsErrOf result VortexError.BadMetadata → IsNoMessage 16 bytes.now }
    ensures short { IsErrOf result VortexError.OutOfMemory → (c : Column) × IsMessage 16 bytes.now c }
    ensures only { IfErr result IsBadOrMemory }
{
    match read_message(alloc, bytes, MOST_LEVELS) {
        Ok(array) => Ok(array),
        Err(VortexError::OutOfMemory) => {
            if is_message(bytes) {
                Err(VortexError::OutOfMemory)
            } else {
                Err(VortexError::BadMetadata)
            }
        }
        Err(error) => Err(error),
    }
}

// Appends the message of a column with at most `levels` levels of runs.
fn put_column<A: Allocator + Copy, W: BufMut>(
    out: &mut W,
    array: &ArrayRef<A>,
    levels: usize,
) -> VortexResult<()>
    ensures ok { OnOk result (W.written out.new ≡ W.written out.old ++ column_bytes (column_of array.now)) }
    ensures room { UsesCountedRoom result (W.spare out.old) (W.spare out.new)
        (length (column_bytes (column_of array.now))) }
    ensures writable { OnOk result (IsWritable levels (column_of array.now)) }
    ensures deep { IsErrOf result VortexError.Unsupported → levels < depth (column_of array.now) }
    ensures exact { levels < depth (column_of array.now) → IsErrOf result VortexError.Unsupported }
    ensures refused { IsErrOf result VortexError.Unsupported → ¬ IsWritable levels (column_of array.now) }
    ensures kept { StaysInFront (W.written out.old) (W.written out.new) }
    ensures only { IfErr result IsUnsupportedOrMemory }
{
    match array {
        ArrayRef::Primitive(numbers) => put_numbers(out, numbers),
        ArrayRef::Bool(truths) => put_truths(out, truths),
        ArrayRef::Decimal(decimals) => put_decimal_rows(out, decimals),
        ArrayRef::VarBinView(texts) => put_texts(out, texts),
        ArrayRef::Constant(constant) => put_constant(out, constant),
        ArrayRef::RunEnd(runs) => {
            if levels == 0 {
                return Err(VortexError::Unsupported);
            }
            let values = size_within(runs.values(), levels - 1)?;
            put_runs(out, runs, values)?;
            put_column(out, runs.values(), levels - 1)?;
            Ok(())
        }
        ArrayRef::ListView(lists) => put_lists(out, lists, levels),
    }
}

// The column that the bytes are the message of, with at most `levels` levels of runs.
fn read_message<A: Allocator + Copy>(
    alloc: A,
    bytes: &[u8],
    levels: usize,
) -> VortexResult<ArrayRef<A>>
    ensures found { IfOk result (λ array. IsMessage levels bytes.now (column_of array)) }
    ensures bad { IsErrOf result VortexError.BadMetadata → IsNoMessage levels bytes.now }
    ensures only { IfErr result IsBadOrMemory }
{
    let Some((header, body)) = read_header(bytes) else {
        return Err(VortexError::BadMetadata);
    };
    if header.form == 1 {
        return read_leaf(alloc, header, body);
    }
    if header.form == 3 {
        return read_constant(alloc, header, body);
    }
    if header.form == 4 {
        return read_lists(alloc, header, body, levels);
    }
    if header.form != 2 {
        return Err(VortexError::BadMetadata);
    }
    if levels == 0 {
        return Err(VortexError::BadMetadata);
    }
    let Some(fields) = read_run_fields(body) else {
        return Err(VortexError::BadMetadata);
    };
    let values = read_message(alloc, fields.values, levels - 1)?;
    read_runs(alloc, header, fields, values)
}
