//! Slices of columns of handles.
ghost use Rattle.std.specs.Prelude.{◌≡◌, ◌≢◌, Some, pos, length, IfOk, IfErr};
ghost use Rattle.column_core.specs.Refusal.{IsErrorFor, range_fault};
ghost use Rattle.runend_array.specs.Array.{rows};
ghost use Rattle.typed_columns.specs.Typed.{format_of};
ghost use Rattle.runend_commands.specs.declared.command.Command.TheVariants.{Slice};
ghost use Rattle.c_columns.specs.Calls.{Leaves};
ghost use Rattle.c_columns.specs.Ending.{EndsOn, WhereBoth};
ghost use Rattle.c_columns.specs.Handle.{array_in, format_in};

use crate::commands::answer;
use crate::error_fields::{ErrorFields, NO_COLUMN};
use crate::flat::{Boxed, boxed_like};
use crate::handle::Handle;
use crate::sessions::{Session, context};
use column_core::VortexResult;
use runend_commands::compute;
use std::alloc::Global;
use std::ops::Range;
use typed_columns::TypedColumn;

/// Returns the rows from `range.start` to `range.end - 1` of the column of a handle, which stays. They are put into
/// `out`, with the same format, in the form that the command `Slice` leaves; no command is made, since making one takes
/// as long as sharing the buffers.
#[tactic(auto, using(crate::proofs::Endings::asked_empty, crate::proofs::Endings::asked_left, crate::proofs::Endings::asked_refused))]
pub fn slice(
    alloc: Global,
    session: &Session,
    column: &mut Handle,
    range: Range<usize>,
    out: &mut Handle,
    error: &mut ErrorFields,
) -> i32
    ensures same { column.new.column ≡ column.old.column }
    ensures made { result ≡ pos 0
        → WhereBoth (Leaves session.now (Slice range)) (array_in column.old.column) (array_in out.new.column) }
    ensures typed { result ≡ pos 0 → format_in out.new.column ≡ format_in column.old.column }
    ensures kept { result ≢ pos 0 → out.new.column ≡ out.old.column }
    ensures ended { EndsOn (array_in column.old.column) (Some (Slice range)) result error.new }
{
    let Some(lent) = column.take(alloc) else {
        return NO_COLUMN;
    };
    let outcome = sliced(alloc, session, &lent, range);
    column.put(lent);
    answer(outcome, out, error)
}

// The rows of the range.
#[tactic(auto, using(crate::proofs::Left::left_sliced))]
fn sliced(
    alloc: Global,
    session: &Session,
    column: &TypedColumn<Global>,
    range: Range<usize>,
) -> VortexResult<Boxed>
    ensures left { IfOk result (λ made. Leaves session.now (Slice range) column.now.array made.value.array) }
    ensures typed { IfOk result (λ made. format_of made.value ≡ format_of column.now) }
    ensures refused { IfErr result
        (λ error. IsErrorFor (range_fault range.start range.end (length (rows column.now.array))) error) }
{
    let mut ctx = context(alloc, session);
    let part = compute::slice(&column.array, range, &mut ctx)?;
    boxed_like(alloc, part, column)
}
