//! The hash of the rows of the column of a handle.
ghost use Rattle.std.specs.Prelude.{◌≡◌, ◌≢◌, IfOk, IsSomeAnd, pos};
ghost use Rattle.column_core.specs.Kinds.{list_fault};
ghost use Rattle.column_core.specs.Refusal.{IsRefusedBy};
ghost use Rattle.runend_array.specs.Array.{dtype_of};
ghost use Rattle.c_columns.specs.Handle.{array_in};
ghost use Rattle.c_kernels.specs.Hashed.{EndsOnHash, HasHash};

use c_columns::error_fields::{ErrorFields, NO_COLUMN, write_answer};
use c_columns::handle::Handle;
use c_columns::sessions::plain_context;
use column_core::VortexResult;
use runend_array::ArrayRef;
use runend_pairs::hash;
use std::alloc::Global;

/// Writes the hash of the rows of a column, and returns 0. Else returns the number of an error: 22 for an empty handle,
/// else as `hash_of` is refused.
pub fn hash_handle(
    alloc: Global,
    column: &mut Handle,
    hash: &mut u64,
    error: &mut ErrorFields,
) -> i32
    ensures same { column.new.column ≡ column.old.column }
    ensures told { result ≡ pos 0 → IsSomeAnd (array_in column.old.column) (λ c. HasHash c hash.new) }
    ensures kept { result ≢ pos 0 → hash.new ≡ hash.old }
    ensures ended { EndsOnHash (array_in column.old.column) result error.new }
{
    let Some(held) = column.take(alloc) else {
        return NO_COLUMN;
    };
    let outcome = hash_of(alloc, &held.array);
    column.put(held);
    write_answer(outcome, hash, error)
}

/// Returns the hash of the rows of a column, which all columns with these rows have. Refused as `Unsupported` for
/// lists, and for memory.
pub fn hash_of(alloc: Global, array: &ArrayRef<Global>) -> VortexResult<u64>
    ensures hash { IfOk result (λ hash. HasHash array.now hash) }
    ensures refused { IsRefusedBy (list_fault (dtype_of array.now)) result }
{
    let mut ctx = plain_context(alloc);
    hash(array, &mut ctx)
}
