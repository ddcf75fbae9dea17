//! How many bytes the message of a column has, counted without writing it.
ghost use Rattle.std.specs.Prelude.{◌≡◌, ◌^◌, ◌<◌, ◌≤◌, length, OnOk, IfOk, IfErr, IsErrOf};
ghost use Rattle.runend_array.specs.Array.{column_of};
ghost use Rattle.runend_array.specs.Column.{depth};
ghost use Rattle.column_bytes.specs.Bytes.{column_bytes};
ghost use Rattle.column_bytes.specs.Read.{IsWritable, IsUnsupportedOrMemory};

use crate::column::MOST_LEVELS;
use crate::constant_sizes::constant_size;
use crate::flat_sizes::{decimals_size, numbers_size, texts_size, truths_size};
use crate::list_sizes::lists_size;
use crate::runs::runs_size;
use column_base::{VortexError, VortexResult};
use runend_array::{ArrayRef, RunEndArraySlotsExt};
use std::alloc::Allocator;

/// Returns how many bytes the message of a column has. Takes no memory. Refused as `Unsupported` exactly where
/// `write_column` is, and as `OutOfMemory` exactly where their number does not fit `usize`: no memory has them.
pub fn message_size<A: Allocator + Copy>(array: &ArrayRef<A>) -> VortexResult<usize>
    ensures size { IfOk result (λ size. size ≡ length (column_bytes (column_of array.now))) }
    ensures writable { OnOk result (IsWritable 16 (column_of array.now)) }
    ensures deep { IsErrOf result VortexError.Unsupported → 16 < depth (column_of array.now) }
    ensures exact { 16 < depth (column_of array.now) → IsErrOf result VortexError.Unsupported }
    ensures refused { IsErrOf result VortexError.Unsupported → ¬ IsWritable 16 (column_of array.now) }
    ensures past { IsErrOf result VortexError.OutOfMemory → 2 ^ 64 ≤ length (column_bytes (column_of array.now)) }
    ensures only { IfErr result IsUnsupportedOrMemory }
{
    size_within(array, MOST_LEVELS)
}

/// Returns the same for a message with at most `levels` levels of runs.
pub(crate) fn size_within<A: Allocator + Copy>(
    array: &ArrayRef<A>,
    levels: usize,
) -> VortexResult<usize>
    ensures size { IfOk result (λ size. size ≡ length (column_bytes (column_of array.now))) }
    ensures writable { OnOk result (IsWritable levels (column_of array.now)) }
    ensures deep { IsErrOf result VortexError.Unsupported → levels < depth (column_of array.now) }
    ensures exact { levels < depth (column_of array.now) → IsErrOf result VortexError.Unsupported }
    ensures refused { IsErrOf result VortexError.Unsupported → ¬ IsWritable levels (column_of array.now) }
    ensures past { IsErrOf result VortexError.OutOfMemory → 2 ^ 64 ≤ length (column_bytes (column_of array.now)) }
    ensures only { IfErr result IsUnsupportedOrMemory }
{
    match array {
        ArrayRef::Primitive(numbers) => match numbers_size(numbers) {
            Ok(size) => Ok(size),
            Err(error) => Err(error),
        },
        ArrayRef::Bool(truths) => match truths_size(truths) {
            Ok(size) => Ok(size),
            Err(error) => Err(error),
        },
        ArrayRef::Decimal(decimals) => match decimals_size(decimals) {
            Ok(size) => Ok(size),
            Err(error) => Err(error),
        },
        ArrayRef::VarBinView(texts) => match texts_size(texts) {
            Ok(size) => Ok(size),
            Err(error) => Err(error),
        },
        ArrayRef::Constant(constant) => constant_size(constant),
        ArrayRef::RunEnd(runs) => {
            if levels == 0 {
                return Err(VortexError::Unsupported);
            }
            let values = size_within(runs.values(), levels - 1)?;
            match runs_size(runs, values) {
                Ok(size) => Ok(size),
                Err(error) => Err(error),
            }
        }
        ArrayRef::ListView(lists) => lists_size(lists, levels),
    }
}
