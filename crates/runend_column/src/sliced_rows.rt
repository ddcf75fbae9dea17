//! The rows of a range of a column of any form, cut without a kernel.
ghost use Rattle.std.specs.Prelude.{◌≡◌, ◌≤◌, length, slice_range, IfOk, IsErrOf, IsOkUnless, Some};
ghost use Rattle.column_base.specs.declared.error.VortexError.{VortexError};
ghost use Rattle.column_core.specs.Refusal.{range_fault, IsRefusedBy};
ghost use Rattle.runend_array.specs.Array.{column_of, dtype_of, rows};
ghost use Rattle.runend_column.specs.Parts.{IsPlainPart};

use column_core::{VortexError, VortexResult};
use runend_array::{ArrayRef, ExecutionCtx};
use std::alloc::Allocator;
use std::ops::Range;

/// Returns the rows from `range.start` to `range.end - 1`: a constant stays one, and any other column becomes flat,
/// with buffers that are shared where they can be.
///
/// Refused as `BadRange`, with both bounds and the number of rows, where the range begins after its
/// end or ends after the last row, before any memory is taken; else only as `OutOfMemory`.
pub fn slice_rows<A: Allocator + Copy>(
    column: &ArrayRef<A>,
    range: Range<usize>,
    ctx: &mut ExecutionCtx<A>,
) -> VortexResult<ArrayRef<A>>
    ensures refused { IsRefusedBy (range_fault range.start range.end (length (rows column.now))) result }
    ensures first { (error : VortexError) → range_fault range.start range.end (length (rows column.now)) ≡ Some error →
        IsErrOf result error }
    ensures rows { IfOk result (λ part. rows part ≡ slice_range (rows column.now) range.start range.end) }
    ensures dtype { IfOk result (λ part. dtype_of part ≡ dtype_of column.now) }
    ensures form { IfOk result (λ part. IsPlainPart (column_of column.now) range.start range.end (column_of part)) }
    ensures session { ctx.new ≡ ctx.old }
{
    if range.start > range.end || range.end > column.len() {
        return Err(VortexError::BadRange {
            start: range.start,
            stop: range.end,
            length: column.len(),
        });
    }
    part_within(column, range, ctx)
}

// The rows of a range that is known to lie within them.
fn part_within<A: Allocator + Copy>(
    column: &ArrayRef<A>,
    range: Range<usize>,
    ctx: &mut ExecutionCtx<A>,
) -> VortexResult<ArrayRef<A>>
    requires ordered { range.start ≤ range.end }
    requires in_bounds { range.end ≤ length (rows column.now) }
    ensures only { IsOkUnless result VortexError.OutOfMemory }
    ensures rows { IfOk result (λ part. rows part ≡ slice_range (rows column.now) range.start range.end) }
    ensures dtype { IfOk result (λ part. dtype_of part ≡ dtype_of column.now) }
    ensures form { IfOk result (λ part. IsPlainPart (column_of column.now) range.start range.end (column_of part)) }
    ensures session { ctx.new ≡ ctx.old }
{
    let alloc = *ctx.allocator();
    match column {
        ArrayRef::Constant(constant) => {
            let part = constant.repeated(alloc, range.end - range.start)?;
            Ok(ArrayRef::Constant(part))
        }
        _ => {
            let flat = column.rows_between(alloc, range.start, range.end)?;
            let part = flat.into_array(alloc)?;
            Ok(part)
        }
    }
}
