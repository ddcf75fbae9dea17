//! The answers for the rows of one column, on the heap, and the call on a handle.
ghost use Rattle.std.specs.Prelude.{◌≡◌, ◌≢◌, [], IfOk, pos};
ghost use Rattle.column_core.specs.Refusal.{IsRefusedBy};
ghost use Rattle.typed_columns.specs.Typed.{format_of};
ghost use Rattle.c_columns.specs.Ending.{WhereBoth};
ghost use Rattle.c_columns.specs.Handle.{array_in, format_in};
ghost use Rattle.c_kernels.specs.Tested.{test_fault, EndsOnTested, IsTested};

use c_columns::commands::answer;
use c_columns::error_fields::{ErrorFields, NO_COLUMN};
use c_columns::flat::{Boxed, boxed};
use c_columns::handle::Handle;
use c_columns::sessions::plain_context;
use column_core::VortexResult;
use runend_array::ArrayRef;
use runend_pairs::{is_null, is_valid, not};
use std::alloc::Global;

/// Names what is answered for each row.
#[derive(Debug, Clone, Copy, PartialEq, Eq)]
pub enum RowTest {
    /// Answers the other boolean, null for null.
    Not,
    /// Says whether it is null.
    Null,
    /// Says whether it is not null.
    Valid,
}

/// Puts the answer for each row into a handle, and returns 0. Else returns the number of an error, and leaves that
/// handle: 22 for an empty handle, else as `tested` is refused.
pub fn test_handle(
    alloc: Global,
    column: &mut Handle,
    test: RowTest,
    out: &mut Handle,
    error: &mut ErrorFields,
) -> i32
    ensures same { column.new.column ≡ column.old.column }
    ensures made { result ≡ pos 0 → WhereBoth (IsTested test) (array_in column.old.column) (array_in out.new.column) }
    ensures untyped { result ≡ pos 0 → format_in out.new.column ≡ [] }
    ensures kept { result ≢ pos 0 → out.new.column ≡ out.old.column }
    ensures ended { EndsOnTested test (array_in column.old.column) result error.new }
{
    let Some(held) = column.take(alloc) else {
        return NO_COLUMN;
    };
    let outcome = tested(alloc, &held.array, test);
    column.put(held);
    answer(outcome, out, error)
}

/// Returns the answer for each row: a constant where the column is a constant and has a row, else the least number of
/// runs. Refused as `Unsupported` unless the rows are booleans, or, by a test for null, exactly for lists, and for
/// memory.
pub fn tested(alloc: Global, array: &ArrayRef<Global>, test: RowTest) -> VortexResult<Boxed>
    ensures made { IfOk result (λ made. IsTested test array.now made.value.array) }
    ensures untyped { IfOk result (λ made. format_of made.value ≡ []) }
    ensures refused { IsRefusedBy (test_fault test array.now) result }
{
    let answers = answers_of(alloc, array, test)?;
    boxed(alloc, answers)
}

// The same, not yet on the heap.
fn answers_of(
    alloc: Global,
    array: &ArrayRef<Global>,
    test: RowTest,
) -> VortexResult<ArrayRef<Global>>
    ensures made { IfOk result (λ made. IsTested test array.now made) }
    ensures refused { IsRefusedBy (test_fault test array.now) result }
{
    let mut ctx = plain_context(alloc);
    match test {
        RowTest::Not => not(array, &mut ctx),
        RowTest::Null => is_null(array, &mut ctx),
        RowTest::Valid => is_valid(array, &mut ctx),
    }
}
