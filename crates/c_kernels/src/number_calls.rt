//! The column of a handle compared with a number that C passes, of any type.
ghost use Rattle.std.specs.Prelude.{◌≡◌, ◌≢◌, [], IfOk, IsSomeAnd, MatchOption, pos};
ghost use Rattle.tables.specs.TableFaults.{IsRefusedFirstBy};
ghost use Rattle.typed_columns.specs.Typed.{format_of, typed_of};
ghost use Rattle.c_columns.specs.Ending.{WhereBoth};
ghost use Rattle.c_columns.specs.Handle.{array_in, format_in};
ghost use Rattle.c_columns.specs.Kinds.{operator_by};
ghost use Rattle.c_kernels.specs.Numbers.{comparing_fault, AreComparedWith, EndsOnComparing};

use c_columns::commands::answer;
use c_columns::error_fields::{BAD_NUMBER, ErrorFields, NO_COLUMN};
use c_columns::flat::{Boxed, boxed};
use c_columns::handle::Handle;
use c_columns::kinds::operator_by;
use c_columns::numbers::number_passed;
use c_columns::row_value::RowValue;
use c_columns::sessions::plain_context;
use column_core::{VortexError, VortexResult};
use column_ops::CompareOperator;
use exact_comparisons::{compare_number, number_fault};
use std::alloc::Global;
use typed_columns::TypedColumn;

/// Puts into a handle whether the operator of this number holds of each row of a column and a number, both as the exact
/// numbers that they are, null where the row is, and returns 0. Else returns the number of an error, and leaves the
/// handle: 23 for a number that names no operator, then 22 for an empty handle, then as `compared_with` is refused.
pub fn compare_number_handle(
    alloc: Global,
    column: &mut Handle,
    operator: u8,
    value: &RowValue,
    out: &mut Handle,
    error: &mut ErrorFields,
) -> i32
    ensures same { column.new.column ≡ column.old.column }
    ensures made { result ≡ pos 0 → IsSomeAnd (operator_by operator)
        (λ op. WhereBoth (AreComparedWith op value.now) column.old.column (array_in out.new.column)) }
    ensures untyped { result ≡ pos 0 → format_in out.new.column ≡ [] }
    ensures kept { result ≢ pos 0 → out.new.column ≡ out.old.column }
    ensures ended { MatchOption (operator_by operator) (result ≡ pos 23)
        (λ op. EndsOnComparing value.now column.old.column result error.new) }
{
    match operator_by(operator) {
        Some(operator) => compare_held(alloc, column, operator, value, out, error),
        None => BAD_NUMBER,
    }
}

// The same comparison, by an operator.
#[tactic(auto, using(crate::proofs::NumberEndings::comparing_empty, crate::proofs::NumberEndings::comparing_ends, crate::proofs::NumberEndings::comparing_made))]
fn compare_held(
    alloc: Global,
    column: &mut Handle,
    operator: CompareOperator,
    value: &RowValue,
    out: &mut Handle,
    error: &mut ErrorFields,
) -> i32
    ensures same { column.new.column ≡ column.old.column }
    ensures made { result ≡ pos 0 →
        WhereBoth (AreComparedWith operator value.now) column.old.column (array_in out.new.column) }
    ensures untyped { result ≡ pos 0 → format_in out.new.column ≡ [] }
    ensures kept { result ≢ pos 0 → out.new.column ≡ out.old.column }
    ensures ended { EndsOnComparing value.now column.old.column result error.new }
{
    let Some(held) = column.take(alloc) else {
        return NO_COLUMN;
    };
    let outcome = compared_with(alloc, &held, operator, value);
    column.put(held);
    answer(outcome, out, error)
}

// Returns whether the operator holds of each row and the number that is passed. Refused as `Unsupported` for lists, and
// as `TypeMismatch` for other rows that are not numbers and for a value that is none, before any memory is taken; else
// only as `OutOfMemory`.
#[tactic(auto, using(crate::proofs::NumberEndings::fault_first, crate::proofs::NumberEndings::no_number, crate::proofs::NumberEndings::short_of_memory, crate::proofs::NumberEndings::boxed_refused, crate::proofs::NumberEndings::boxed_made))]
fn compared_with(
    alloc: Global,
    column: &TypedColumn<Global>,
    operator: CompareOperator,
    value: &RowValue,
) -> VortexResult<Boxed>
    ensures made { IfOk result (λ made. AreComparedWith operator value.now column.now made.value.array) }
    ensures untyped { IfOk result (λ made. format_of made.value ≡ []) }
    ensures refused { IsRefusedFirstBy (comparing_fault value.now (typed_of column.now)) result }
{
    if let Some(error) = number_fault(column) {
        return Err(error);
    }
    let Some(number) = number_passed(value) else {
        return Err(VortexError::TypeMismatch);
    };
    let truths = compare_number(column, operator, number, &mut plain_context(alloc))?;
    boxed(alloc, truths)
}
