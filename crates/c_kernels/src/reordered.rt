//! The rows of a column in another order, on the heap, under its format.
ghost use Rattle.std.specs.Prelude.{◌≡◌, IfOk, IsErrOf, Some};
ghost use Rattle.column_core.specs.Kinds.{list_fault};
ghost use Rattle.column_core.specs.Refusal.{IsRefusedBy};
ghost use Rattle.runend_array.specs.Array.{dtype_of};
ghost use Rattle.typed_columns.specs.Typed.{format_of};
ghost use Rattle.c_kernels.specs.Ordered.{AreReversed, AreSorted};

use c_columns::flat::{Boxed, boxed_like};
use c_columns::sessions::plain_context;
use column_core::{VortexError, VortexResult};
use runend_sorts::{reverse, sort};
use std::alloc::Global;
use typed_columns::TypedColumn;

/// Returns the rows in reverse order, under the same format: a constant stays one, and any other column becomes the
/// least number of runs. Refused as `Unsupported` exactly for lists, before any memory is taken, else only as
/// `OutOfMemory`.
pub fn reversed(alloc: Global, column: &TypedColumn<Global>) -> VortexResult<Boxed>
    ensures made { IfOk result (λ made. AreReversed column.now.array made.value.array) }
    ensures typed { IfOk result (λ made. format_of made.value ≡ format_of column.now) }
    ensures refused { IsRefusedBy (list_fault (dtype_of column.now.array)) result }
    ensures first { (error : VortexError) → list_fault (dtype_of column.now.array) ≡ Some error →
        IsErrOf result error }
{
    let reversed = reverse(&column.array, &mut plain_context(alloc))?;
    boxed_like(alloc, reversed, column)
}

/// Returns the rows in order, null first, under the same format: a constant stays one, and any other column becomes
/// runs, one for each distinct row. Refused as `Unsupported` exactly for lists, before any memory is taken, else only
/// as `OutOfMemory`.
pub fn sorted(alloc: Global, column: &TypedColumn<Global>) -> VortexResult<Boxed>
    ensures made { IfOk result (λ made. AreSorted column.now.array made.value.array) }
    ensures typed { IfOk result (λ made. format_of made.value ≡ format_of column.now) }
    ensures refused { IsRefusedBy (list_fault (dtype_of column.now.array)) result }
    ensures first { (error : VortexError) → list_fault (dtype_of column.now.array) ≡ Some error →
        IsErrOf result error }
{
    let sorted = sort(&column.array, &mut plain_context(alloc))?;
    boxed_like(alloc, sorted, column)
}
