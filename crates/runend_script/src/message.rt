//! The line of a column's message.
ghost use Rattle.std.specs.Prelude.{◌≡◌, IfErr, IfOk, IsErrOf, OnOk};
ghost use Rattle.std.specs.String.{string_bytes};
ghost use Rattle.column_bytes.specs.Read.{IsUnsupportedOrMemory, IsWritable};
ghost use Rattle.runend_array.specs.Array.{column_of};
ghost use Rattle.runend_script.specs.Messages.{message_text};

use crate::record::bytes_line;
use column_base::{VortexError, VortexResult};
use column_bytes::write_column;
use std::alloc::Allocator;
use vortex_runend::ArrayRef;

/// Returns the line `bytes HH ..` of the column's message. Refused as `Unsupported` exactly for a column that has none,
/// as `write_column` is, else only as `OutOfMemory`.
pub fn message_line<A: Allocator + Copy>(alloc: A, array: &ArrayRef<A>) -> VortexResult<String<A>>
    ensures line { IfOk result (λ line. string_bytes line ≡ message_text (column_of array.now)) }
    ensures writable { OnOk result (IsWritable 16 (column_of array.now)) }
    ensures refused { IsErrOf result VortexError.Unsupported → ¬ IsWritable 16 (column_of array.now) }
    ensures only { IfErr result IsUnsupportedOrMemory }
{
    let bytes = write_column(alloc, array)?;
    Ok(bytes_line(alloc, "bytes", &bytes)?)
}
