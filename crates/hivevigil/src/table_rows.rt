//! Calls that make a table of some of the columns or of the rows of another one.
ghost use Rattle.std.specs.Prelude.{◌≡◌, ◌≢◌, All, IsSomeAnd, MatchOption, pos};
ghost use Rattle.column_core.specs.Refusal.{range_fault};
ghost use Rattle.c_columns.specs.Ending.{WhereAll, WhereBoth};
ghost use Rattle.c_columns.specs.Handle.{array_in};
ghost use Rattle.c_columns.specs.Kinds.{operator_by};
ghost use Rattle.c_tables.specs.Groups.{IsFold, IsGroupRefusal, IsGroupedBy};
ghost use Rattle.c_tables.specs.Sorts.{IsSortRefusal, IsSortedBy};
ghost use Rattle.c_tables.specs.Filters.{IsFilterBy, IsFilterByRefusal};
ghost use Rattle.c_tables.specs.TableCalls.{IsFilterOf, IsNullDropped, IsRenameRefusal, IsRenamedBy, IsSelectRefusal, IsSelectedBy, IsSliceOf, IsTakeRefusal, IsTakenAt, masking_fault};
ghost use Rattle.c_tables.specs.TableEnding.{EndsOnBoth, EndsOnFour, EndsOnOne, EndsOnThree, IsFaultFirst};
ghost use Rattle.c_tables.specs.TableHandle.{WhereFive, WhereFour};
ghost use Rattle.tables.specs.Appended.{IsAppendError, IsAppended};

use c_columns::error_fields::{BAD_NUMBER, ErrorFields, NO_COLUMN};
use c_columns::handle::Handle;
use c_columns::kinds;
use c_columns::row_value::RowValue;
use c_tables::answers::answer_table;
use c_tables::columns::{renamed, selected, without_null};
use c_tables::groups::{are_folds, grouped};
use c_tables::rows::{appended, filtered, filtered_by, sliced, taken};
use c_tables::sorts::sorted;
use c_tables::table_handle::TableHandle;
use column_ops::CompareOperator;
use std::alloc::Global;

/// Returns the columns of the names in a column of texts, in their order, each in the same form. Refused as `selected`
/// is.
#[tactic(auto, using(c_tables::proofs::TableEndings::no_first, c_tables::proofs::TableEndings::no_second, c_tables::proofs::TableEndings::both_done, c_tables::proofs::TableEndings::both_refused))]
#[unsafe(no_mangle)]
pub extern "C" fn hv_table_select(
    alloc: Global,
    table: &mut TableHandle,
    names: &mut Handle,
    out: &mut TableHandle,
    error: &mut ErrorFields,
) -> i32
    ensures same { table.new.table ≡ table.old.table }
    ensures same_names { names.new.column ≡ names.old.column }
    ensures made { result ≡ pos 0 → WhereAll IsSelectedBy table.old.table (array_in names.old.column)
        out.new.table }
    ensures kept { result ≢ pos 0 → out.new.table ≡ out.old.table }
    ensures ended { EndsOnBoth IsSelectRefusal table.old.table (array_in names.old.column) result error.new }
{
    let Some(held) = table.take(alloc) else {
        return NO_COLUMN;
    };
    let Some(lent) = names.take(alloc) else {
        table.put(held);
        return NO_COLUMN;
    };
    let outcome = selected(alloc, &held, &lent.array);
    table.put(held);
    names.put(lent);
    answer_table(outcome, out, error)
}

/// Returns the same columns, those of the names in a column of texts each under the text at its place in another one.
/// Refused as `renamed` is.
#[tactic(auto, using(c_tables::proofs::TableEndings::none_of_three, c_tables::proofs::TableEndings::one_of_three, c_tables::proofs::TableEndings::two_of_three, c_tables::proofs::TableEndings::three_done, c_tables::proofs::TableEndings::three_refused))]
#[unsafe(no_mangle)]
pub extern "C" fn hv_table_rename(
    alloc: Global,
    table: &mut TableHandle,
    names: &mut Handle,
    new_names: &mut Handle,
    out: &mut TableHandle,
    error: &mut ErrorFields,
) -> i32
    ensures same { table.new.table ≡ table.old.table }
    ensures same_names { names.new.column ≡ names.old.column }
    ensures same_new_names { new_names.new.column ≡ new_names.old.column }
    ensures made { result ≡ pos 0 → WhereFour IsRenamedBy table.old.table (array_in names.old.column)
        (array_in new_names.old.column) out.new.table }
    ensures kept { result ≢ pos 0 → out.new.table ≡ out.old.table }
    ensures ended { EndsOnThree IsRenameRefusal table.old.table (array_in names.old.column)
        (array_in new_names.old.column) result error.new }
{
    let Some(held) = table.take(alloc) else {
        return NO_COLUMN;
    };
    let Some(lent) = names.take(alloc) else {
        table.put(held);
        return NO_COLUMN;
    };
    let Some(given) = new_names.take(alloc) else {
        table.put(held);
        names.put(lent);
        return NO_COLUMN;
    };
    let outcome = renamed(alloc, &held, &lent.array, &given.array);
    table.put(held);
    names.put(lent);
    new_names.put(given);
    answer_table(outcome, out, error)
}

/// Returns the rows from `start` to `stop` - 1 of each column. Answers 9 exactly where these are not rows, else refused
/// only for memory.
#[tactic(auto, using(c_tables::proofs::TableEndings::one_empty, c_tables::proofs::TableEndings::one_done, c_tables::proofs::TableEndings::one_refused))]
#[unsafe(no_mangle)]
pub extern "C" fn hv_table_slice(
    alloc: Global,
    table: &mut TableHandle,
    start: usize,
    stop: usize,
    out: &mut TableHandle,
    error: &mut ErrorFields,
) -> i32
    ensures same { table.new.table ≡ table.old.table }
    ensures made { result ≡ pos 0 → WhereBoth (IsSliceOf start stop) table.old.table out.new.table }
    ensures kept { result ≢ pos 0 → out.new.table ≡ out.old.table }
    ensures ended { EndsOnOne (λ t. IsFaultFirst (range_fault start stop t.count)) table.old.table result error.new }
{
    let Some(held) = table.take(alloc) else {
        return NO_COLUMN;
    };
    let outcome = sliced(alloc, &held, start, stop);
    table.put(held);
    answer_table(outcome, out, error)
}

/// Returns the rows of each column at which a mask of any form is true. Answers 12 exactly where the mask is not of
/// booleans, and then 10, with its length and the number of rows, where they differ, else refused only for memory.
#[tactic(auto, using(c_tables::proofs::TableEndings::no_first, c_tables::proofs::TableEndings::no_second, c_tables::proofs::TableEndings::both_done, c_tables::proofs::TableEndings::both_refused))]
#[unsafe(no_mangle)]
pub extern "C" fn hv_table_filter(
    alloc: Global,
    table: &mut TableHandle,
    mask: &mut Handle,
    out: &mut TableHandle,
    error: &mut ErrorFields,
) -> i32
    ensures same { table.new.table ≡ table.old.table }
    ensures same_mask { mask.new.column ≡ mask.old.column }
    ensures made { result ≡ pos 0 → WhereAll IsFilterOf table.old.table (array_in mask.old.column) out.new.table }
    ensures kept { result ≢ pos 0 → out.new.table ≡ out.old.table }
    ensures ended { EndsOnBoth (λ t c. IsFaultFirst (masking_fault t c)) table.old.table (array_in mask.old.column)
        result error.new }
{
    let Some(held) = table.take(alloc) else {
        return NO_COLUMN;
    };
    let Some(lent) = mask.take(alloc) else {
        table.put(held);
        return NO_COLUMN;
    };
    let outcome = filtered(alloc, &held, &lent.array);
    table.put(held);
    mask.put(lent);
    answer_table(outcome, out, error)
}

/// Returns the rows at which the operator, by its number, holds of the row of the column of this name and a value of
/// its type. Answers 23 for a number of no operator, then 22 for an empty handle; else refused as `filtered_by` is.
#[unsafe(no_mangle)]
pub extern "C" fn hv_table_filter_by(
    alloc: Global,
    table: &mut TableHandle,
    name: &[u8],
    operator: u8,
    value: &RowValue,
    text: &[u8],
    out: &mut TableHandle,
    error: &mut ErrorFields,
) -> i32
    ensures same { table.new.table ≡ table.old.table }
    ensures made { result ≡ pos 0 → IsSomeAnd (operator_by operator)
        (λ op. WhereBoth (IsFilterBy name.now op value.now text.now) table.old.table out.new.table) }
    ensures kept { result ≢ pos 0 → out.new.table ≡ out.old.table }
    ensures ended { MatchOption (operator_by operator) (result ≡ pos 23)
        (λ op. EndsOnOne (IsFilterByRefusal name.now value.now text.now) table.old.table result error.new) }
{
    match kinds::operator_by(operator) {
        Some(operator) => filter_held(alloc, table, name, operator, value, text, out, error),
        None => BAD_NUMBER,
    }
}

/// Returns the row of each column at each index, integers in any form, null at a null one. Refused as `taken` is.
#[tactic(auto, using(c_tables::proofs::TableEndings::no_first, c_tables::proofs::TableEndings::no_second, c_tables::proofs::TableEndings::both_done, c_tables::proofs::TableEndings::both_refused))]
#[unsafe(no_mangle)]
pub extern "C" fn hv_table_take(
    alloc: Global,
    table: &mut TableHandle,
    indices: &mut Handle,
    out: &mut TableHandle,
    error: &mut ErrorFields,
) -> i32
    ensures same { table.new.table ≡ table.old.table }
    ensures same_indices { indices.new.column ≡ indices.old.column }
    ensures made { result ≡ pos 0 → WhereAll IsTakenAt table.old.table (array_in indices.old.column)
        out.new.table }
    ensures kept { result ≢ pos 0 → out.new.table ≡ out.old.table }
    ensures ended { EndsOnBoth IsTakeRefusal table.old.table (array_in indices.old.column) result error.new }
{
    let Some(held) = table.take(alloc) else {
        return NO_COLUMN;
    };
    let Some(lent) = indices.take(alloc) else {
        table.put(held);
        return NO_COLUMN;
    };
    let outcome = taken(alloc, &held, &lent.array);
    table.put(held);
    indices.put(lent);
    answer_table(outcome, out, error)
}

/// Returns the rows of a table and then those of another one with the same names, types and formats. Refused as
/// `appended` is.
#[tactic(auto, using(c_tables::proofs::TableEndings::no_first, c_tables::proofs::TableEndings::no_second, c_tables::proofs::TableEndings::both_done, c_tables::proofs::TableEndings::both_refused))]
#[unsafe(no_mangle)]
pub extern "C" fn hv_table_append(
    alloc: Global,
    table: &mut TableHandle,
    other: &mut TableHandle,
    out: &mut TableHandle,
    error: &mut ErrorFields,
) -> i32
    ensures same { table.new.table ≡ table.old.table }
    ensures same_other { other.new.table ≡ other.old.table }
    ensures made { result ≡ pos 0 → WhereAll IsAppended table.old.table other.old.table out.new.table }
    ensures kept { result ≢ pos 0 → out.new.table ≡ out.old.table }
    ensures ended { EndsOnBoth IsAppendError table.old.table other.old.table result error.new }
{
    let Some(held) = table.take(alloc) else {
        return NO_COLUMN;
    };
    let Some(lent) = other.take(alloc) else {
        table.put(held);
        return NO_COLUMN;
    };
    let outcome = appended(alloc, &held, &lent);
    table.put(held);
    other.put(lent);
    answer_table(outcome, out, error)
}

/// Returns the rows at which none of the columns of the names in a column of texts is null, or no column at all where
/// none is named. Refused as `without_null` is.
#[tactic(auto, using(c_tables::proofs::TableEndings::no_first, c_tables::proofs::TableEndings::no_second, c_tables::proofs::TableEndings::both_done, c_tables::proofs::TableEndings::both_refused))]
#[unsafe(no_mangle)]
pub extern "C" fn hv_table_drop_null(
    alloc: Global,
    table: &mut TableHandle,
    names: &mut Handle,
    out: &mut TableHandle,
    error: &mut ErrorFields,
) -> i32
    ensures same { table.new.table ≡ table.old.table }
    ensures same_names { names.new.column ≡ names.old.column }
    ensures made { result ≡ pos 0 → WhereAll IsNullDropped table.old.table (array_in names.old.column)
        out.new.table }
    ensures kept { result ≢ pos 0 → out.new.table ≡ out.old.table }
    ensures ended { EndsOnBoth IsSelectRefusal table.old.table (array_in names.old.column) result error.new }
{
    let Some(held) = table.take(alloc) else {
        return NO_COLUMN;
    };
    let Some(lent) = names.take(alloc) else {
        table.put(held);
        return NO_COLUMN;
    };
    let outcome = without_null(alloc, &held, &lent.array);
    table.put(held);
    names.put(lent);
    answer_table(outcome, out, error)
}

/// Returns the rows in order by the columns of the names in a column of texts, each in the order of its flags. Refused
/// as `sorted` is.
#[tactic(auto, using(c_tables::proofs::TableEndings::no_first, c_tables::proofs::TableEndings::no_second, c_tables::proofs::TableEndings::both_done, c_tables::proofs::TableEndings::both_refused))]
#[unsafe(no_mangle)]
pub extern "C" fn hv_table_sort(
    alloc: Global,
    table: &mut TableHandle,
    names: &mut Handle,
    flags: &[u8],
    out: &mut TableHandle,
    error: &mut ErrorFields,
) -> i32
    ensures same { table.new.table ≡ table.old.table }
    ensures same_names { names.new.column ≡ names.old.column }
    ensures made { result ≡ pos 0 → WhereAll (λ before asked. IsSortedBy asked flags.now before) table.old.table
        (array_in names.old.column) out.new.table }
    ensures kept { result ≢ pos 0 → out.new.table ≡ out.old.table }
    ensures ended { EndsOnBoth (λ t asked. IsSortRefusal asked flags.now t) table.old.table
        (array_in names.old.column) result error.new }
{
    let Some(held) = table.take(alloc) else {
        return NO_COLUMN;
    };
    let Some(lent) = names.take(alloc) else {
        table.put(held);
        return NO_COLUMN;
    };
    let outcome = sorted(alloc, &held, &lent.array, flags);
    table.put(held);
    names.put(lent);
    answer_table(outcome, out, error)
}

/// Returns a row for each group of neighbouring rows that are equal in the columns of the names in `keys`, with an
/// answer for each name in `answers`: that of the fold of its number in the column that `columns` names. Answers 23
/// where a number is of no fold, then 22 for an empty handle; else refused as `grouped` is.
#[unsafe(no_mangle)]
pub extern "C" fn hv_table_group_by(
    alloc: Global,
    table: &mut TableHandle,
    keys: &mut Handle,
    answers: &mut Handle,
    columns: &mut Handle,
    folds: &[u8],
    out: &mut TableHandle,
    error: &mut ErrorFields,
) -> i32
    ensures same { table.new.table ≡ table.old.table }
    ensures same_keys { keys.new.column ≡ keys.old.column }
    ensures same_answers { answers.new.column ≡ answers.old.column }
    ensures same_columns { columns.new.column ≡ columns.old.column }
    ensures made { result ≡ pos 0 → WhereFive (λ before k a c after. IsGroupedBy k a c folds.now before after)
        table.old.table (array_in keys.old.column) (array_in answers.old.column) (array_in columns.old.column)
        out.new.table }
    ensures kept { result ≢ pos 0 → out.new.table ≡ out.old.table }
    ensures number { ¬ All IsFold folds.now → result ≡ pos 23 }
    ensures ended { All IsFold folds.now → EndsOnFour (λ t k a c. IsGroupRefusal k a c folds.now t) table.old.table
        (array_in keys.old.column) (array_in answers.old.column) (array_in columns.old.column) result error.new }
{
    if are_folds(folds) {
        group_held(alloc, table, keys, answers, columns, folds, out, error)
    } else {
        BAD_NUMBER
    }
}

// The same, of an operator.
#[tactic(auto, using(c_tables::proofs::TableEndings::one_empty, c_tables::proofs::TableEndings::one_done, c_tables::proofs::TableEndings::one_refused))]
fn filter_held(
    alloc: Global,
    table: &mut TableHandle,
    name: &[u8],
    operator: CompareOperator,
    value: &RowValue,
    text: &[u8],
    out: &mut TableHandle,
    error: &mut ErrorFields,
) -> i32
    ensures same { table.new.table ≡ table.old.table }
    ensures made { result ≡ pos 0 →
        WhereBoth (IsFilterBy name.now operator value.now text.now) table.old.table out.new.table }
    ensures kept { result ≢ pos 0 → out.new.table ≡ out.old.table }
    ensures ended { EndsOnOne (IsFilterByRefusal name.now value.now text.now) table.old.table result error.new }
{
    let Some(held) = table.take(alloc) else {
        return NO_COLUMN;
    };
    let outcome = filtered_by(alloc, &held, name, operator, value, text);
    table.put(held);
    answer_table(outcome, out, error)
}

// The same, of numbers of folds.
#[tactic(auto, using(c_tables::proofs::TableEndings::none_of_four, c_tables::proofs::TableEndings::one_of_four, c_tables::proofs::TableEndings::two_of_four, c_tables::proofs::TableEndings::three_of_four, c_tables::proofs::TableEndings::four_done, c_tables::proofs::TableEndings::four_refused))]
fn group_held(
    alloc: Global,
    table: &mut TableHandle,
    keys: &mut Handle,
    answers: &mut Handle,
    columns: &mut Handle,
    folds: &[u8],
    out: &mut TableHandle,
    error: &mut ErrorFields,
) -> i32
    requires { All IsFold folds.now }
    ensures same { table.new.table ≡ table.old.table }
    ensures same_keys { keys.new.column ≡ keys.old.column }
    ensures same_answers { answers.new.column ≡ answers.old.column }
    ensures same_columns { columns.new.column ≡ columns.old.column }
    ensures made { result ≡ pos 0 → WhereFive (λ before k a c after. IsGroupedBy k a c folds.now before after)
        table.old.table (array_in keys.old.column) (array_in answers.old.column) (array_in columns.old.column)
        out.new.table }
    ensures kept { result ≢ pos 0 → out.new.table ≡ out.old.table }
    ensures ended { EndsOnFour (λ t k a c. IsGroupRefusal k a c folds.now t) table.old.table
        (array_in keys.old.column) (array_in answers.old.column) (array_in columns.old.column) result error.new }
{
    let Some(held) = table.take(alloc) else {
        return NO_COLUMN;
    };
    let Some(named) = keys.take(alloc) else {
        table.put(held);
        return NO_COLUMN;
    };
    let Some(asked) = answers.take(alloc) else {
        table.put(held);
        keys.put(named);
        return NO_COLUMN;
    };
    let Some(given) = columns.take(alloc) else {
        table.put(held);
        keys.put(named);
        answers.put(asked);
        return NO_COLUMN;
    };
    let outcome = grouped(
        alloc,
        &held,
        &named.array,
        &asked.array,
        &given.array,
        folds,
    );
    table.put(held);
    keys.put(named);
    answers.put(asked);
    columns.put(given);
    answer_table(outcome, out, error)
}
