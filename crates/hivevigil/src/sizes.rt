//! The call that tells how much memory a column takes.
ghost use Rattle.std.specs.Prelude.{◌≡◌, MatchOption};
ghost use Rattle.runend_array.specs.Array.{column_of};
ghost use Rattle.runend_column.specs.BytesUsed.{column_bytes, in_usize};
ghost use Rattle.c_columns.specs.Handle.{array_in};

use c_columns::handle::Handle;
use runend_column::bytes_used;
use std::alloc::Global;

/// Returns how many bytes the buffers of the column take, as `bytes_used` counts them; 0 of no column.
#[unsafe(no_mangle)]
pub extern "C" fn hv_bytes_used(alloc: Global, column: &mut Handle) -> usize
    ensures same { column.new.column ≡ column.old.column }
    ensures told { MatchOption (array_in column.old.column) (result ≡ 0)
        (λ c. result ≡ in_usize (column_bytes (column_of c))) }
{
    let Some(held) = column.take(alloc) else {
        return 0;
    };
    let found = bytes_used(&held.array);
    column.put(held);
    found
}
