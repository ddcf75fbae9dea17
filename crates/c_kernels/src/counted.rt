//! The distinct rows of a column counted, on the heap.
ghost use Rattle.std.specs.Prelude.{◌≡◌, [], IfOk, IsErrOf, Some};
ghost use Rattle.column_core.specs.Kinds.{list_fault};
ghost use Rattle.column_core.specs.Refusal.{IsRefusedBy};
ghost use Rattle.runend_array.specs.Array.{dtype_of};
ghost use Rattle.typed_columns.specs.Typed.{format_of};
ghost use Rattle.c_kernels.specs.Ordered.{AreCounted};

use c_columns::flat::{Boxed, boxed, boxed_like};
use c_columns::sessions::plain_context;
use column_core::{VortexError, VortexResult};
use runend_sorts::{ValueCounts, value_counts};
use std::alloc::Global;
use typed_columns::TypedColumn;

/// Holds the distinct rows of a column, and how many rows are equal to each, as two columns on the heap.
#[derive(Drop)]
pub struct BoxedCounts {
    pub values: Boxed,
    pub counts: Boxed,
}

/// Returns the distinct rows in order, null first, under the column's format, and how many rows are equal to each, both
/// flat. Refused as `Unsupported` exactly for lists, before any memory is taken, else only as `OutOfMemory`.
pub fn count_values(alloc: Global, column: &TypedColumn<Global>) -> VortexResult<BoxedCounts>
    ensures made { IfOk result (λ made. AreCounted column.now.array made.values.value.array made.counts.value.array) }
    ensures typed { IfOk result (λ made. format_of made.values.value ≡ format_of column.now) }
    ensures untyped { IfOk result (λ made. format_of made.counts.value ≡ []) }
    ensures refused { IsRefusedBy (list_fault (dtype_of column.now.array)) result }
    ensures first { (error : VortexError) → list_fault (dtype_of column.now.array) ≡ Some error →
        IsErrOf result error }
{
    let ValueCounts { values, counts } = value_counts(&column.array, &mut plain_context(alloc))?;
    let values = match boxed_like(alloc, values, column) {
        Ok(values) => values,
        Err(error) => {
            drop(counts);
            return Err(error);
        }
    };
    let counts = match boxed(alloc, counts) {
        Ok(counts) => counts,
        Err(error) => {
            drop(values);
            return Err(error);
        }
    };
    Ok(BoxedCounts { values, counts })
}
