//! The lines of metadata records.
ghost use Rattle.std.specs.Prelude.{◌≡◌, IfOk, IsOkUnless};
ghost use Rattle.std.specs.String.{string_bytes};
ghost use Rattle.column_fields.specs.EndsType.{IsEndsTypeNumber};
ghost use Rattle.runend_script.specs.Messages.{bytes_text};

use crate::words::Words;
use column_base::{VortexError, VortexResult};
use column_words::{name_of, parse_bytes, push_bytes};
use std::alloc::{AllocError, Allocator};
use vortex_runend::{ArrayRef, ExecutionCtx, RunEndMetadata, serialize};

/// Returns the line of a run column's record, or `not runs` for a column of another form. Refused only as
/// `OutOfMemory`.
pub fn meta_line<A: Allocator + Copy>(
    array: &ArrayRef<A>,
    ctx: &mut ExecutionCtx<A>,
) -> VortexResult<String<A>>
    ensures only { IsOkUnless result VortexError.OutOfMemory }
    ensures session { ctx.new ≡ ctx.old }
{
    let alloc = *ctx.allocator();
    let ArrayRef::RunEnd(runs) = array else {
        return Ok(String::from_str(alloc, "not runs")?);
    };
    let bytes = serialize(runs, ctx)?;
    Ok(bytes_line(alloc, "meta", &bytes)?)
}

/// Returns the line of the record that the words spell, a byte each, or `None` where a word is not a byte. Refused as
/// `RunEndMetadata::decode` is, and as `OutOfMemory`.
pub fn read_record<A: Allocator + Copy>(
    words: Words<'_>,
    ctx: &mut ExecutionCtx<A>,
) -> VortexResult<Option<String<A>>>
    ensures session { ctx.new ≡ ctx.old }
{
    let alloc = *ctx.allocator();
    let Some(bytes) = parse_bytes(alloc, words)? else {
        return Ok(None);
    };
    let metadata = RunEndMetadata::decode(&bytes)?;
    let line = record_line(alloc, &metadata)?;
    Ok(Some(line))
}

// The line `NAME HH ..` of bytes, each as two upper case hexadecimal digits.
pub(crate) fn bytes_line<A: Allocator + Copy>(
    alloc: A,
    name: &str,
    bytes: &[u8],
) -> Result<String<A>, AllocError>
    ensures { IfOk result (λ line. string_bytes line ≡ bytes_text name.now bytes.now) }
{
    let mut line = String::from_str(alloc, name)?;
    push_bytes(&mut line, bytes)?;
    Ok(line)
}

// The line `read ETYPE runs N offset N` of a record.
fn record_line<A: Allocator + Copy>(
    alloc: A,
    metadata: &RunEndMetadata,
) -> Result<String<A>, AllocError>
    requires { IsEndsTypeNumber metadata.now.ends_ptype }
{
    let name = name_of(metadata.ends_ptype());
    let runs = metadata.num_runs;
    let offset = metadata.offset;
    format!(in alloc; "read {name} runs {runs} offset {offset}")
}
