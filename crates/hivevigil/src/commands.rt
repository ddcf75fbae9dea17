//! Calls of commands whose answer is a column.
ghost use Rattle.std.specs.Prelude.{◌≡◌, ◌≢◌, [], IsSomeAnd, MatchOption, Some, pos};
ghost use Rattle.runend_commands.specs.declared.command.Command.TheVariants.{Slice, Cast, Encode, Decode};
ghost use Rattle.c_columns.specs.Calls.{Leaves, compare_with_passed, fill_with_passed};
ghost use Rattle.c_columns.specs.Ending.{EndsOn, EndsOnPassed, LeavesPassed, WhereAll, WhereBoth};
ghost use Rattle.c_columns.specs.Handle.{array_in, format_in};
ghost use Rattle.c_columns.specs.Kinds.{dtype_by, operator_by};
ghost use Rattle.c_columns.specs.TwoColumns.{EndsOnTwo, IsComparedIn, IsFilteredIn, IsLookedUpIn, IsTakenIn, LeavesPlain, beside_fault, code_look_up_fault, compared_by, filtered_by, looked_up_by, mask_filter_fault};
ghost use Rattle.c_kernels.specs.Numbers.{AreComparedWith, EndsOnComparing};

use c_columns::arguments::{compare_scalar_command, fill_command};
use c_columns::commands::{answer, apply};
use c_columns::error_fields::{BAD_NUMBER, ErrorFields, NO_COLUMN};
use c_columns::handle::Handle;
use c_columns::kinds::{self, Kind};
use c_columns::row_value::RowValue;
use c_columns::sessions::Session;
use c_columns::slices::slice;
use c_columns::two_columns;
use c_kernels::compare_number_handle;
use column_ops::CompareOperator;
use runend_commands::Command;
use std::alloc::Global;

/// Returns the column as runs, as few as there can be. Refused as `OnlyPrimitive` unless the rows are integers.
#[tactic(auto, using(c_columns::proofs::Endings::left_with, c_columns::proofs::Endings::ends_with))]
#[unsafe(no_mangle)]
pub extern "C" fn hv_encode(
    alloc: Global,
    session: &Session,
    column: &mut Handle,
    out: &mut Handle,
    error: &mut ErrorFields,
) -> i32
    ensures same { column.new.column ≡ column.old.column }
    ensures made { result ≡ pos 0 →
        WhereBoth (Leaves session.now Encode) (array_in column.old.column) (array_in out.new.column) }
    ensures typed { result ≡ pos 0 → format_in out.new.column ≡ format_in column.old.column }
    ensures kept { result ≢ pos 0 → out.new.column ≡ out.old.column }
    ensures ended { EndsOn (array_in column.old.column) (Some Encode) result error.new }
{
    apply(alloc, session, column, Ok(Command::Encode), out, error)
}

/// Returns the rows in a flat form.
#[tactic(auto, using(c_columns::proofs::Endings::left_with, c_columns::proofs::Endings::ends_with))]
#[unsafe(no_mangle)]
pub extern "C" fn hv_decode(
    alloc: Global,
    session: &Session,
    column: &mut Handle,
    out: &mut Handle,
    error: &mut ErrorFields,
) -> i32
    ensures same { column.new.column ≡ column.old.column }
    ensures made { result ≡ pos 0 →
        WhereBoth (Leaves session.now Decode) (array_in column.old.column) (array_in out.new.column) }
    ensures typed { result ≡ pos 0 → format_in out.new.column ≡ format_in column.old.column }
    ensures kept { result ≢ pos 0 → out.new.column ≡ out.old.column }
    ensures ended { EndsOn (array_in column.old.column) (Some Decode) result error.new }
{
    apply(alloc, session, column, Ok(Command::Decode), out, error)
}

/// Returns the rows from `start` to `stop - 1`. Refused as `BadRange`.
#[unsafe(no_mangle)]
pub extern "C" fn hv_slice(
    alloc: Global,
    session: &Session,
    column: &mut Handle,
    start: usize,
    stop: usize,
    out: &mut Handle,
    error: &mut ErrorFields,
) -> i32
    ensures same { column.new.column ≡ column.old.column }
    ensures made { result ≡ pos 0
        → WhereBoth (Leaves session.now (Slice (record { start = start; end = stop })))
        (array_in column.old.column) (array_in out.new.column) }
    ensures typed { result ≡ pos 0 → format_in out.new.column ≡ format_in column.old.column }
    ensures kept { result ≢ pos 0 → out.new.column ≡ out.old.column }
    ensures ended { EndsOn (array_in column.old.column)
        (Some (Slice (record { start = start; end = stop }))) result error.new }
{
    slice(alloc, session, column, start..stop, out, error)
}

/// Returns each row as the same value of this type. Answers 23 where the number is of no type, or of lists.
#[tactic(auto, using(c_columns::proofs::Endings::left_with, c_columns::proofs::Endings::ends_with))]
#[unsafe(no_mangle)]
pub extern "C" fn hv_cast(
    alloc: Global,
    session: &Session,
    column: &mut Handle,
    kind: &Kind,
    out: &mut Handle,
    error: &mut ErrorFields,
) -> i32
    ensures same { column.new.column ≡ column.old.column }
    ensures made { result ≡ pos 0
        → IsSomeAnd (dtype_by kind.now.number kind.now)
        (λ dtype. WhereBoth (Leaves session.now (Cast dtype)) (array_in column.old.column) (array_in out.new.column)) }
    ensures untyped { result ≡ pos 0 → format_in out.new.column ≡ [] }
    ensures kept { result ≢ pos 0 → out.new.column ≡ out.old.column }
    ensures ended { MatchOption (dtype_by kind.now.number kind.now) (result ≡ pos 23)
        (λ dtype. EndsOn (array_in column.old.column) (Some (Cast dtype)) result error.new) }
{
    match kinds::dtype_of(kind) {
        Some(dtype) => apply(alloc, session, column, Ok(Command::Cast(dtype)), out, error),
        None => BAD_NUMBER,
    }
}

/// Returns the rows at the indices, integers in any form: null at a null index.
#[tactic(auto, using(crate::proofs::TwoColumns::no_first, crate::proofs::TwoColumns::no_second, crate::proofs::TwoColumns::two_done, crate::proofs::TwoColumns::two_refused))]
#[unsafe(no_mangle)]
pub extern "C" fn hv_take(
    alloc: Global,
    session: &Session,
    column: &mut Handle,
    indices: &mut Handle,
    out: &mut Handle,
    error: &mut ErrorFields,
) -> i32
    ensures same { column.new.column ≡ column.old.column }
    ensures same_indices { indices.new.column ≡ indices.old.column }
    ensures made { result ≡ pos 0
        → WhereAll (LeavesPlain looked_up_by (IsTakenIn session.now))
        (array_in indices.old.column) (array_in column.old.column) (array_in out.new.column) }
    ensures typed { result ≡ pos 0 → format_in out.new.column ≡ format_in column.old.column }
    ensures kept { result ≢ pos 0 → out.new.column ≡ out.old.column }
    ensures ended { EndsOnTwo code_look_up_fault (array_in indices.old.column)
        (array_in column.old.column) result error.new }
{
    let Some(lent) = indices.take(alloc) else {
        return NO_COLUMN;
    };
    let Some(held) = column.take(alloc) else {
        indices.put(lent);
        return NO_COLUMN;
    };
    let outcome = two_columns::taken(alloc, session, &lent.array, &held);
    indices.put(lent);
    column.put(held);
    answer(outcome, out, error)
}

/// Returns the rows at which the mask, booleans in any form, is true: null selects nothing.
#[tactic(auto, using(crate::proofs::TwoColumns::no_first, crate::proofs::TwoColumns::no_second, crate::proofs::TwoColumns::two_done, crate::proofs::TwoColumns::two_refused))]
#[unsafe(no_mangle)]
pub extern "C" fn hv_filter(
    alloc: Global,
    session: &Session,
    column: &mut Handle,
    mask: &mut Handle,
    out: &mut Handle,
    error: &mut ErrorFields,
) -> i32
    ensures same { column.new.column ≡ column.old.column }
    ensures same_mask { mask.new.column ≡ mask.old.column }
    ensures made { result ≡ pos 0
        → WhereAll (LeavesPlain filtered_by (IsFilteredIn session.now))
        (array_in mask.old.column) (array_in column.old.column) (array_in out.new.column) }
    ensures typed { result ≡ pos 0 → format_in out.new.column ≡ format_in column.old.column }
    ensures kept { result ≢ pos 0 → out.new.column ≡ out.old.column }
    ensures ended { EndsOnTwo mask_filter_fault (array_in mask.old.column)
        (array_in column.old.column) result error.new }
{
    let Some(lent) = mask.take(alloc) else {
        return NO_COLUMN;
    };
    let Some(held) = column.take(alloc) else {
        mask.put(lent);
        return NO_COLUMN;
    };
    let outcome = two_columns::filtered(alloc, session, &lent.array, &held);
    mask.put(lent);
    column.put(held);
    answer(outcome, out, error)
}

/// Returns the dictionary's row for each row, which is its number there; null stays null.
#[tactic(auto, using(crate::proofs::TwoColumns::no_first, crate::proofs::TwoColumns::no_second, crate::proofs::TwoColumns::two_done, crate::proofs::TwoColumns::two_refused))]
#[unsafe(no_mangle)]
pub extern "C" fn hv_take_from(
    alloc: Global,
    session: &Session,
    column: &mut Handle,
    dictionary: &mut Handle,
    out: &mut Handle,
    error: &mut ErrorFields,
) -> i32
    ensures same { column.new.column ≡ column.old.column }
    ensures same_dictionary { dictionary.new.column ≡ dictionary.old.column }
    ensures made { result ≡ pos 0
        → WhereAll (LeavesPlain looked_up_by (IsLookedUpIn session.now))
        (array_in column.old.column) (array_in dictionary.old.column) (array_in out.new.column) }
    ensures typed { result ≡ pos 0 → format_in out.new.column ≡ format_in dictionary.old.column }
    ensures kept { result ≢ pos 0 → out.new.column ≡ out.old.column }
    ensures ended { EndsOnTwo code_look_up_fault (array_in column.old.column)
        (array_in dictionary.old.column) result error.new }
{
    let Some(codes) = column.take(alloc) else {
        return NO_COLUMN;
    };
    let Some(lent) = dictionary.take(alloc) else {
        column.put(codes);
        return NO_COLUMN;
    };
    let outcome = two_columns::looked_up(alloc, session, &codes.array, &lent);
    column.put(codes);
    dictionary.put(lent);
    answer(outcome, out, error)
}

/// Row by row whether the operator holds, by number: 0 =, 1 not =, 2 >, 3 >=, 4 <, 5 <=; any other answers 23.
#[unsafe(no_mangle)]
pub extern "C" fn hv_compare(
    alloc: Global,
    session: &Session,
    column: &mut Handle,
    operator: u8,
    right: &mut Handle,
    out: &mut Handle,
    error: &mut ErrorFields,
) -> i32
    ensures same { column.new.column ≡ column.old.column }
    ensures same_right { right.new.column ≡ right.old.column }
    ensures made { result ≡ pos 0
        → IsSomeAnd (operator_by operator)
        (λ op. WhereAll (LeavesPlain (compared_by op) (IsComparedIn op session.now))
        (array_in column.old.column) (array_in right.old.column) (array_in out.new.column)) }
    ensures untyped { result ≡ pos 0 → format_in out.new.column ≡ [] }
    ensures kept { result ≢ pos 0 → out.new.column ≡ out.old.column }
    ensures ended { MatchOption (operator_by operator) (result ≡ pos 23)
        (λ op. EndsOnTwo beside_fault (array_in column.old.column) (array_in right.old.column) result error.new) }
{
    match kinds::operator_by(operator) {
        Some(operator) => compare_columns(alloc, session, column, operator, right, out, error),
        None => BAD_NUMBER,
    }
}

/// Row by row whether the operator holds of the row and a value of the column's type; operators as to `hv_compare`.
/// Refused as `TypeMismatch` where the value is none of the type.
#[unsafe(no_mangle)]
pub extern "C" fn hv_compare_scalar(
    alloc: Global,
    session: &Session,
    column: &mut Handle,
    operator: u8,
    value: &RowValue,
    text: &[u8],
    out: &mut Handle,
    error: &mut ErrorFields,
) -> i32
    ensures same { column.new.column ≡ column.old.column }
    ensures made { result ≡ pos 0
        → IsSomeAnd (operator_by operator)
        (λ op. WhereBoth (LeavesPassed session.now (compare_with_passed op value.now text.now))
        (array_in column.old.column) (array_in out.new.column)) }
    ensures untyped { result ≡ pos 0 → format_in out.new.column ≡ [] }
    ensures kept { result ≢ pos 0 → out.new.column ≡ out.old.column }
    ensures ended { MatchOption (operator_by operator) (result ≡ pos 23)
        (λ op. EndsOnPassed value.now text.now
        (compare_with_passed op value.now text.now) (array_in column.old.column) result error.new) }
{
    match kinds::operator_by(operator) {
        Some(operator) => {
            compare_with_value(alloc, session, column, operator, value, text, out, error)
        }
        None => BAD_NUMBER,
    }
}

/// Says row by row whether the operator, by its number as to `hv_compare`, holds of the row and a number of any type,
/// both as the exact numbers that they are; rows are what the column's format says. Refused as `Unsupported` for lists,
/// then as `TypeMismatch` where the rows or the value are not numbers.
#[unsafe(no_mangle)]
pub extern "C" fn hv_compare_number(
    alloc: Global,
    column: &mut Handle,
    operator: u8,
    value: &RowValue,
    out: &mut Handle,
    error: &mut ErrorFields,
) -> i32
    ensures same { column.new.column ≡ column.old.column }
    ensures made { result ≡ pos 0 → IsSomeAnd (operator_by operator)
        (λ op. WhereBoth (AreComparedWith op value.now) column.old.column (array_in out.new.column)) }
    ensures untyped { result ≡ pos 0 → format_in out.new.column ≡ [] }
    ensures kept { result ≢ pos 0 → out.new.column ≡ out.old.column }
    ensures ended { MatchOption (operator_by operator) (result ≡ pos 23)
        (λ op. EndsOnComparing value.now column.old.column result error.new) }
{
    compare_number_handle(alloc, column, operator, value, out, error)
}

/// Returns a value of the column's type in place of each null. Refused as `TypeMismatch` where it is none of the type.
#[tactic(auto, using(c_columns::proofs::Endings::left_filled, c_columns::proofs::Endings::ends_filled, c_columns::proofs::Endings::passed_empty))]
#[unsafe(no_mangle)]
pub extern "C" fn hv_fill(
    alloc: Global,
    session: &Session,
    column: &mut Handle,
    value: &RowValue,
    text: &[u8],
    out: &mut Handle,
    error: &mut ErrorFields,
) -> i32
    ensures same { column.new.column ≡ column.old.column }
    ensures made { result ≡ pos 0
        → WhereBoth (LeavesPassed session.now (fill_with_passed value.now text.now))
        (array_in column.old.column) (array_in out.new.column) }
    ensures typed { result ≡ pos 0 → format_in out.new.column ≡ format_in column.old.column }
    ensures kept { result ≢ pos 0 → out.new.column ≡ out.old.column }
    ensures ended { EndsOnPassed value.now text.now
        (fill_with_passed value.now text.now) (array_in column.old.column) result error.new }
{
    let Some(held) = column.take(alloc) else {
        return NO_COLUMN;
    };
    let command = fill_command(alloc, &held.array, value, text);
    column.put(held);
    apply(alloc, session, column, command, out, error)
}

// The comparison with the column of a handle.
#[tactic(auto, using(crate::proofs::TwoColumns::no_first, crate::proofs::TwoColumns::no_second, crate::proofs::TwoColumns::two_done, crate::proofs::TwoColumns::two_refused))]
fn compare_columns(
    alloc: Global,
    session: &Session,
    column: &mut Handle,
    operator: CompareOperator,
    right: &mut Handle,
    out: &mut Handle,
    error: &mut ErrorFields,
) -> i32
    ensures same { column.new.column ≡ column.old.column }
    ensures same_right { right.new.column ≡ right.old.column }
    ensures made { result ≡ pos 0
        → WhereAll (LeavesPlain (compared_by operator) (IsComparedIn operator session.now))
        (array_in column.old.column) (array_in right.old.column) (array_in out.new.column) }
    ensures untyped { result ≡ pos 0 → format_in out.new.column ≡ [] }
    ensures kept { result ≢ pos 0 → out.new.column ≡ out.old.column }
    ensures ended { EndsOnTwo beside_fault (array_in column.old.column) (array_in right.old.column) result error.new }
{
    let Some(held) = column.take(alloc) else {
        return NO_COLUMN;
    };
    let Some(lent) = right.take(alloc) else {
        column.put(held);
        return NO_COLUMN;
    };
    let outcome = two_columns::compared(alloc, session, &held.array, operator, &lent.array);
    column.put(held);
    right.put(lent);
    answer(outcome, out, error)
}

// The comparison with a value of the column's type.
#[tactic(auto, using(c_columns::proofs::Endings::left_compared, c_columns::proofs::Endings::ends_compared, c_columns::proofs::Endings::passed_empty))]
fn compare_with_value(
    alloc: Global,
    session: &Session,
    column: &mut Handle,
    operator: CompareOperator,
    value: &RowValue,
    text: &[u8],
    out: &mut Handle,
    error: &mut ErrorFields,
) -> i32
    ensures same { column.new.column ≡ column.old.column }
    ensures made { result ≡ pos 0
        → WhereBoth (LeavesPassed session.now (compare_with_passed operator value.now text.now))
        (array_in column.old.column) (array_in out.new.column) }
    ensures untyped { result ≡ pos 0 → format_in out.new.column ≡ [] }
    ensures kept { result ≢ pos 0 → out.new.column ≡ out.old.column }
    ensures ended { EndsOnPassed value.now text.now
        (compare_with_passed operator value.now text.now) (array_in column.old.column) result error.new }
{
    let Some(held) = column.take(alloc) else {
        return NO_COLUMN;
    };
    let command = compare_scalar_command(alloc, operator, &held.array, value, text);
    column.put(held);
    apply(alloc, session, column, command, out, error)
}
