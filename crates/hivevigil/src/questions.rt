//! Calls that ask about a column.
ghost use Rattle.std.specs.Prelude.{◌≡◌, ◌≢◌, false, true, IsSomeAnd, MatchOption, length, pos, Some};
ghost use Rattle.column_ops.specs.OrderFacts as order;
ghost use Rattle.runend_array.specs.Array.{column_of, dtype_of, rows};
ghost use Rattle.runend_array.specs.declared.session.Kernel.TheVariants as kernel;
ghost use Rattle.runend_commands.specs.declared.command.Command.TheVariants.{IsConstant, IsSorted};
ghost use Rattle.runend_commands.specs.Meaning.{plain};
ghost use Rattle.c_columns.specs.Ending.{EndsOn, EndsOnEnds, EndsOnExtreme, EndsOnRow};
ghost use Rattle.c_columns.specs.Flags.{Tells, flag_of};
ghost use Rattle.typed_columns.specs.Typed.{typed_of};
ghost use Rattle.c_columns.specs.Handle.{array_in};
ghost use Rattle.c_columns.specs.InPlace.{IsExtremeNeverShortOn, IsNeverShortOn};
ghost use Rattle.c_columns.specs.Kinds.{IsKindOf};
ghost use Rattle.c_columns.specs.Reads.{form_number, offset_in};
ghost use Rattle.c_columns.specs.Values.{IsExtremeOf};
ghost use Rattle.c_kernels.specs.TypedEnds.{IsEndNeverShortOn, IsEndOf};
ghost use Rattle.c_kernels.specs.TypedRows.{IsRowTold};
ghost use Rattle.c_kernels.specs.TypedSums.{EndsOnSum, IsSumNeverShortOn, IsSumOf};

use c_columns::error_fields::{ErrorFields, NO_COLUMN, write_answer};
use c_columns::handle::Handle;
use c_columns::kinds::{self, Kind};
use c_columns::row_value::RowValue;
use c_columns::sessions::Session;
use c_columns::{questions, runs};
use c_kernels::{Total, typed_min_max_in_handle, typed_row_in_handle, typed_sum_in_handle};
use std::alloc::Global;

/// Returns the sum of the rows that are not null, by what they are worked as: of integers and of lengths of time, added
/// one at a time in 64 bits; of floats exactly, rounded once to 64 bits; of decimals exactly, at the scale of the
/// column. Refused as `Unsupported` for dates, times of a day and timestamps, and for rows that are neither integers
/// nor decimals; decimals then as `CastOutOfRange`, with the first row such that the rows up to it add up to more than
/// 38 digits. Never 21 over a flat column of integers, nor, where the kernel is registered, over runs of them or a
/// constant.
#[unsafe(no_mangle)]
pub extern "C" fn hv_sum(
    alloc: Global,
    session: &Session,
    column: &mut Handle,
    total: &mut Total,
    error: &mut ErrorFields,
) -> i32
    ensures same { column.new.column ≡ column.old.column }
    ensures told { result ≡ pos 0 → IsSomeAnd column.old.column (λ c. IsSumOf (typed_of c) total.new) }
    ensures kept { result ≢ pos 0 → total.new ≡ total.old }
    ensures ended { EndsOnSum column.old.column result error.new }
    ensures memory { IsSumNeverShortOn session.now column.old.column result }
{
    typed_sum_in_handle(alloc, session, column, total, error)
}

/// Returns whether any two rows are equal, null equal to null: 1, or 0. Refused as `Unsupported` for lists. Never 21
/// over a flat column, nor, where the kernel is registered, over runs or a constant.
#[tactic(auto, using(c_columns::proofs::Endings::asked_empty, c_columns::proofs::Endings::asked_done, c_columns::proofs::Endings::asked_refused, c_columns::proofs::Endings::told_constant, c_columns::proofs::Short::short_empty))]
#[unsafe(no_mangle)]
pub extern "C" fn hv_is_constant(
    alloc: Global,
    session: &Session,
    column: &mut Handle,
    truth: &mut u8,
    error: &mut ErrorFields,
) -> i32
    ensures same { column.new.column ≡ column.old.column }
    ensures told { result ≡ pos 0 →
        IsSomeAnd (array_in column.old.column) (λ c. Tells truth.new (order.IsConstant (rows c))) }
    ensures kept { result ≢ pos 0 → truth.new ≡ truth.old }
    ensures ended { EndsOn (array_in column.old.column) (Some IsConstant) result error.new }
    ensures memory { IsNeverShortOn session.now kernel.IsConstant (array_in column.old.column) result }
{
    let Some(held) = column.take(alloc) else {
        return NO_COLUMN;
    };
    let outcome = questions::is_constant(alloc, session, &held.array);
    column.put(held);
    write_answer(outcome, truth, error)
}

/// Returns whether no row is above the next, or, where `strict` is not 0, each below it, null being below all else: 1,
/// or 0. Refused as `Unsupported` for lists. Never 21 over a flat column, nor, where the kernel is registered, over
/// runs or a constant.
#[tactic(auto, using(c_columns::proofs::Endings::asked_empty, c_columns::proofs::Endings::asked_done, c_columns::proofs::Endings::asked_refused, c_columns::proofs::Endings::told_sorted, c_columns::proofs::Short::short_empty))]
#[unsafe(no_mangle)]
pub extern "C" fn hv_is_sorted(
    alloc: Global,
    session: &Session,
    column: &mut Handle,
    strict: u8,
    truth: &mut u8,
    error: &mut ErrorFields,
) -> i32
    ensures same { column.new.column ≡ column.old.column }
    ensures told { result ≡ pos 0
        → IsSomeAnd (array_in column.old.column) (λ c. Tells truth.new (order.IsSorted (flag_of strict) (rows c))) }
    ensures kept { result ≢ pos 0 → truth.new ≡ truth.old }
    ensures ended { EndsOn (array_in column.old.column) (Some (IsSorted (flag_of strict))) result error.new }
    ensures memory { IsNeverShortOn session.now kernel.IsSorted (array_in column.old.column) result }
{
    let Some(held) = column.take(alloc) else {
        return NO_COLUMN;
    };
    let outcome = questions::is_sorted(alloc, session, &held.array, kinds::is_set(strict));
    column.put(held);
    write_answer(outcome, truth, error)
}

/// Returns the least row that is not null, or the greatest where `greatest` is not 0; null where all are. A text or
/// bytes go to the front of `text`: 11, with their number and the room, where they have no room there. But for texts
/// and bytes never 21 over a flat column, nor, where the kernel is registered, over runs or a constant.
#[tactic(auto, using(c_columns::proofs::Extremes::extreme_empty, c_columns::proofs::Extremes::extreme_done, c_columns::proofs::Extremes::extreme_refused, c_columns::proofs::Short::extreme_short_empty))]
#[unsafe(no_mangle)]
pub extern "C" fn hv_extreme(
    alloc: Global,
    session: &Session,
    column: &mut Handle,
    greatest: u8,
    value: &mut RowValue,
    text: &mut [u8],
    error: &mut ErrorFields,
) -> i32
    ensures same { column.new.column ≡ column.old.column }
    ensures told { result ≡ pos 0
        → IsSomeAnd (array_in column.old.column) (λ c. IsExtremeOf (flag_of greatest) (plain c) text.new value.new) }
    ensures kept_value { result ≢ pos 0 → value.new ≡ value.old }
    ensures kept_text { result ≢ pos 0 → text.new ≡ text.old }
    ensures ended { EndsOnExtreme (flag_of greatest) (length text.old) (array_in column.old.column) result error.new }
    ensures memory { IsExtremeNeverShortOn session.now (array_in column.old.column) result }
{
    let Some(held) = column.take(alloc) else {
        return NO_COLUMN;
    };
    let outcome = questions::extreme_of(alloc, session, &held.array, kinds::is_set(greatest), text);
    column.put(held);
    write_answer(outcome, value, error)
}

/// Returns the least and the greatest row that are not null, null twice where all are: of floats the least and the
/// greatest number, in which NaNs have no place, as floats of 64 bits. A text or bytes of each go to the front of a
/// buffer of its own: 11, with their number and the room, where they have no room there. Refused as `Unsupported` for
/// lists. But for floats, texts and bytes never 21 over a flat column, nor, where the kernel is registered, over runs
/// or a constant.
#[unsafe(no_mangle)]
pub extern "C" fn hv_min_max(
    alloc: Global,
    session: &Session,
    column: &mut Handle,
    least: &mut RowValue,
    least_text: &mut [u8],
    greatest: &mut RowValue,
    greatest_text: &mut [u8],
    error: &mut ErrorFields,
) -> i32
    ensures same { column.new.column ≡ column.old.column }
    ensures told_least { result ≡ pos 0 → IsSomeAnd column.old.column (λ c. IsEndOf false c least_text.new least.new) }
    ensures told_greatest { result ≡ pos 0 →
        IsSomeAnd column.old.column (λ c. IsEndOf true c greatest_text.new greatest.new) }
    ensures kept_least { result ≢ pos 0 → least.new ≡ least.old }
    ensures kept_least_text { result ≢ pos 0 → least_text.new ≡ least_text.old }
    ensures kept_greatest { result ≢ pos 0 → greatest.new ≡ greatest.old }
    ensures kept_greatest_text { result ≢ pos 0 → greatest_text.new ≡ greatest_text.old }
    ensures ended { EndsOnEnds (length least_text.old) (length greatest_text.old)
        (array_in column.old.column) result error.new }
    ensures memory { IsEndNeverShortOn session.now column.old.column result }
{
    typed_min_max_in_handle(
        alloc,
        session,
        column,
        least,
        least_text,
        greatest,
        greatest_text,
        error,
    )
}

/// Returns the row at `row`, which takes no memory: a float as the one of 64 bits that it is. A text or bytes go to the
/// front of `text`: 11, with their number and the room, where they have no room there. Refused as `Unsupported` for
/// lists, and then as `OutOfBounds`.
#[unsafe(no_mangle)]
pub extern "C" fn hv_at(
    alloc: Global,
    column: &mut Handle,
    row: usize,
    value: &mut RowValue,
    text: &mut [u8],
    error: &mut ErrorFields,
) -> i32
    ensures same { column.new.column ≡ column.old.column }
    ensures told { result ≡ pos 0 → IsSomeAnd column.old.column (λ c. IsRowTold row c text.new value.new) }
    ensures kept_value { result ≢ pos 0 → value.new ≡ value.old }
    ensures kept_text { result ≢ pos 0 → text.new ≡ text.old }
    ensures ended { EndsOnRow row (length text.old) (array_in column.old.column) result error.new }
{
    typed_row_in_handle(alloc, column, row, value, text, error)
}

/// Returns how many rows there are; 0 of no column.
#[unsafe(no_mangle)]
pub extern "C" fn hv_length(alloc: Global, column: &mut Handle) -> usize
    ensures same { column.new.column ≡ column.old.column }
    ensures told { MatchOption (array_in column.old.column) (result ≡ 0) (λ c. result ≡ length (rows c)) }
{
    let Some(held) = column.take(alloc) else {
        return 0;
    };
    let found = held.array.len();
    column.put(held);
    found
}

/// Returns the type of the rows; the number is 255 of no column.
#[unsafe(no_mangle)]
pub extern "C" fn hv_kind_of(alloc: Global, column: &mut Handle) -> Kind
    ensures same { column.new.column ≡ column.old.column }
    ensures told { MatchOption (array_in column.old.column) (result.number ≡ 255) (λ c. IsKindOf (dtype_of c) result) }
{
    let Some(held) = column.take(alloc) else {
        return kinds::no_kind();
    };
    let found = kinds::kind_of(held.array.dtype());
    column.put(held);
    found
}

/// 0 flat, 1 a constant, 2 lists, 3 runs, 255 no column.
#[unsafe(no_mangle)]
pub extern "C" fn hv_form(alloc: Global, column: &mut Handle) -> u8
    ensures same { column.new.column ≡ column.old.column }
    ensures told { MatchOption (array_in column.old.column) (result ≡ 255) (λ c. result ≡ form_number (column_of c)) }
{
    let Some(held) = column.take(alloc) else {
        return 255;
    };
    let found = runs::form_of_array(&held.array);
    column.put(held);
    found
}

/// Returns how many rows of the runs of a run column lie before its window; 0 of any other.
#[unsafe(no_mangle)]
pub extern "C" fn hv_offset(alloc: Global, column: &mut Handle) -> usize
    ensures same { column.new.column ≡ column.old.column }
    ensures told { MatchOption (array_in column.old.column) (result ≡ 0) (λ c. result ≡ offset_in (column_of c)) }
{
    let Some(held) = column.take(alloc) else {
        return 0;
    };
    let found = runs::offset_of(&held.array);
    column.put(held);
    found
}
