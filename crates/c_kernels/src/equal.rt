//! Whether the columns of two handles have the same rows.
ghost use Rattle.std.specs.Prelude.{◌≡◌, ◌≢◌, IfOk, pos};
ghost use Rattle.column_core.specs.Refusal.{IsRefusedBy};
ghost use Rattle.c_columns.specs.Ending.{WhereBoth};
ghost use Rattle.c_columns.specs.Flags.{Tells};
ghost use Rattle.c_columns.specs.Handle.{array_in};
ghost use Rattle.c_columns.specs.TwoColumns.{EndsOnTwo};
ghost use Rattle.c_kernels.specs.Equal.{equal_fault, AreEqual};

use c_columns::error_fields::{ErrorFields, NO_COLUMN, write_answer};
use c_columns::handle::Handle;
use c_columns::sessions::plain_context;
use column_core::VortexResult;
use runend_array::ArrayRef;
use runend_pairs::equals;
use std::alloc::Global;

/// Writes 1 or 0, whether two columns have the same rows and are of one type except for nullability, and returns 0.
/// Else returns the number of an error: 22 for an empty handle, else as `are_equal` is refused.
pub fn equal_handles(
    alloc: Global,
    left: &mut Handle,
    right: &mut Handle,
    truth: &mut u8,
    error: &mut ErrorFields,
) -> i32
    ensures same { left.new.column ≡ left.old.column }
    ensures same_right { right.new.column ≡ right.old.column }
    ensures told { result ≡ pos 0 →
        WhereBoth (λ c d. Tells truth.new (AreEqual c d)) (array_in left.old.column) (array_in right.old.column) }
    ensures kept { result ≢ pos 0 → truth.new ≡ truth.old }
    ensures ended { EndsOnTwo equal_fault (array_in left.old.column) (array_in right.old.column) result error.new }
{
    let Some(lent) = left.take(alloc) else {
        return NO_COLUMN;
    };
    let Some(held) = right.take(alloc) else {
        left.put(lent);
        return NO_COLUMN;
    };
    let outcome = are_equal(alloc, &lent.array, &held.array);
    left.put(lent);
    right.put(held);
    write_answer(outcome, truth, error)
}

/// Returns 1 or 0, whether two columns have the same rows, null being equal to null, and are of one type except for
/// nullability. Refused as `Unsupported` for two columns of lists of one type, and for memory.
pub fn are_equal(
    alloc: Global,
    left: &ArrayRef<Global>,
    right: &ArrayRef<Global>,
) -> VortexResult<u8>
    ensures told { IfOk result (λ truth. Tells truth (AreEqual left.now right.now)) }
    ensures refused { IsRefusedBy (equal_fault left.now right.now) result }
{
    let mut ctx = plain_context(alloc);
    let equal = equals(left, right, &mut ctx)?;
    if equal { Ok(1) } else { Ok(0) }
}
