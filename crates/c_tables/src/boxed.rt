//! Tables on the heap, and the context in which they are worked on.
ghost use Rattle.std.specs.Prelude.{◌≡◌, IfOk, IsOkUnless};

use c_columns::sessions::{context, initial};
use column_core::{VortexError, VortexResult};
use runend_array::ExecutionCtx;
use std::alloc::Global;
use tables::Table;

/// Holds a table on the heap.
pub type BoxedTable = Box<Table<Global>>;

/// Puts a table on the heap. Refused only for memory.
pub(crate) fn boxed(alloc: Global, table: Table<Global>) -> VortexResult<BoxedTable>
    ensures only { IsOkUnless result VortexError.OutOfMemory }
    ensures table { IfOk result (λ made. made.value ≡ table) }
{
    Ok(Box::new(alloc, table)?)
}

/// Returns the context that has every kernel, with the thresholds of the ported crate.
pub(crate) fn usual_context(alloc: Global) -> ExecutionCtx<Global> {
    context(alloc, &initial())
}
