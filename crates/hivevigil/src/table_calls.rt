//! Calls that make tables, put columns into them, look at them, and free them.
ghost use Rattle.std.specs.Prelude.{◌≡◌, ◌≢◌, [], IsSomeAnd, MatchOption, None, Some, drop, length, pos};
ghost use Rattle.c_columns.specs.Ending.{WhereAll, WhereBoth};
ghost use Rattle.c_tables.specs.TableCalls.{IsColumnAt, IsNameAtFront, IsNoName, IsPutRefusal, IsPutUnder, name_fault, place_fault};
ghost use Rattle.c_tables.specs.TableEnding.{EndsFor, EndsOnBoth, EndsOnOne, IsFault, IsFaultFirst, IsMemory};
ghost use Rattle.c_tables.specs.TableHandle.{typed_in};
ghost use Rattle.tables.specs.Tables.{IsPlaceOf, table_with};

use c_columns::error_fields::{ErrorFields, NO_COLUMN};
use c_columns::handle::Handle;
use c_tables::answers::{answer_column, answer_table, write_table_answer, write_table_status};
use c_tables::columns::{column_at, copied, new_table, put_column};
use c_tables::names::{place_of, put_name};
use c_tables::table_handle::TableHandle;
use std::alloc::Global;

/// Makes the table without columns that has `count` rows. Refused only for memory.
#[tactic(auto, using(c_tables::proofs::TableEndings::for_done, c_tables::proofs::TableEndings::for_refused))]
#[unsafe(no_mangle)]
pub extern "C" fn hv_table_new(
    alloc: Global,
    count: usize,
    out: &mut TableHandle,
    error: &mut ErrorFields,
) -> i32
    ensures made { result ≡ pos 0 → out.new.table ≡ Some (table_with [] [] count) }
    ensures kept { result ≢ pos 0 → out.new.table ≡ out.old.table }
    ensures ended { EndsFor IsMemory result error.new }
{
    answer_table(new_table(alloc, count), out, error)
}

/// Puts a copy of a column, with its format, under a name: in the place of the column of this name, or after the last
/// where none has it. Refused as `put_column` is.
#[tactic(auto, using(c_tables::proofs::TableEndings::no_first, c_tables::proofs::TableEndings::no_second, c_tables::proofs::TableEndings::both_done, c_tables::proofs::TableEndings::both_refused, c_tables::proofs::TableEndings::typed_none, c_tables::proofs::TableEndings::typed_some))]
#[unsafe(no_mangle)]
pub extern "C" fn hv_table_put(
    alloc: Global,
    table: &mut TableHandle,
    name: &[u8],
    column: &mut Handle,
    error: &mut ErrorFields,
) -> i32
    ensures same { column.new.column ≡ column.old.column }
    ensures put { result ≡ pos 0 → WhereAll (IsPutUnder name.now) table.old.table (typed_in column.old.column)
        table.new.table }
    ensures kept { result ≢ pos 0 → table.new.table ≡ table.old.table }
    ensures ended { EndsOnBoth (IsPutRefusal name.now) table.old.table (typed_in column.old.column) result error.new }
{
    let Some(mut held) = table.take(alloc) else {
        return NO_COLUMN;
    };
    let Some(lent) = column.take(alloc) else {
        table.put(held);
        return NO_COLUMN;
    };
    let outcome = put_column(alloc, &mut held, name, &lent);
    table.put(held);
    column.put(lent);
    write_table_status(outcome, error)
}

/// Returns how many rows each column has; 0 of no table.
#[unsafe(no_mangle)]
pub extern "C" fn hv_table_len(alloc: Global, table: &mut TableHandle) -> usize
    ensures same { table.new.table ≡ table.old.table }
    ensures shown { MatchOption table.old.table (result ≡ 0) (λ t. result ≡ t.count) }
{
    let Some(held) = table.take(alloc) else {
        return 0;
    };
    let found = held.len();
    table.put(held);
    found
}

/// Returns how many columns there are; 0 of no table.
#[unsafe(no_mangle)]
pub extern "C" fn hv_table_width(alloc: Global, table: &mut TableHandle) -> usize
    ensures same { table.new.table ≡ table.old.table }
    ensures shown { MatchOption table.old.table (result ≡ 0) (λ t. result ≡ length t.columns) }
{
    let Some(held) = table.take(alloc) else {
        return 0;
    };
    let found = held.columns().len();
    table.put(held);
    found
}

/// Writes the name of the column of a place: its bytes go to the front of `name`, and `size` says how many they are;
/// those after them stay. Takes no memory. Answers 8, with the place and the number of columns, exactly where no column
/// has this place, and then 11, with the number of bytes and the room, where they have no room there.
#[tactic(auto, using(c_tables::proofs::TableEndings::one_empty, c_tables::proofs::TableEndings::one_done, c_tables::proofs::TableEndings::one_refused))]
#[unsafe(no_mangle)]
pub extern "C" fn hv_table_name(
    alloc: Global,
    table: &mut TableHandle,
    place: usize,
    name: &mut [u8],
    size: &mut usize,
    error: &mut ErrorFields,
) -> i32
    ensures same { table.new.table ≡ table.old.table }
    ensures shown { result ≡ pos 0 →
        IsSomeAnd table.old.table (λ t. IsNameAtFront place t size.new name.new) }
    ensures after { result ≡ pos 0 → drop size.new name.new ≡ drop size.new name.old }
    ensures kept { result ≢ pos 0 → name.new ≡ name.old }
    ensures kept_size { result ≢ pos 0 → size.new ≡ size.old }
    ensures ended { EndsOnOne (λ t. IsFault (name_fault place (length name.old) t)) table.old.table result error.new }
{
    let Some(held) = table.take(alloc) else {
        return NO_COLUMN;
    };
    let outcome = put_name(&held, place, name);
    table.put(held);
    write_table_answer(outcome, size, error)
}

/// Writes the place of the column of a name. Takes no memory. Answers 201 exactly where no column has it.
#[tactic(auto, using(c_tables::proofs::TableEndings::one_empty, c_tables::proofs::TableEndings::one_done, c_tables::proofs::TableEndings::one_refused))]
#[unsafe(no_mangle)]
pub extern "C" fn hv_table_place(
    alloc: Global,
    table: &mut TableHandle,
    name: &[u8],
    place: &mut usize,
    error: &mut ErrorFields,
) -> i32
    ensures same { table.new.table ≡ table.old.table }
    ensures shown { result ≡ pos 0 → IsSomeAnd table.old.table (λ t. IsPlaceOf t.names name.now place.new) }
    ensures kept { result ≢ pos 0 → place.new ≡ place.old }
    ensures ended { EndsOnOne (IsNoName name.now) table.old.table result error.new }
{
    let Some(held) = table.take(alloc) else {
        return NO_COLUMN;
    };
    let outcome = place_of(&held, name);
    table.put(held);
    write_table_answer(outcome, place, error)
}

/// Makes a copy of the column of a place, in the same form and with its format. Answers 8, with the place and the
/// number of columns, exactly where there is none, else refused only for memory.
#[tactic(auto, using(c_tables::proofs::TableEndings::one_empty, c_tables::proofs::TableEndings::one_done, c_tables::proofs::TableEndings::one_refused, c_tables::proofs::TableEndings::typed_some))]
#[unsafe(no_mangle)]
pub extern "C" fn hv_table_column(
    alloc: Global,
    table: &mut TableHandle,
    place: usize,
    out: &mut Handle,
    error: &mut ErrorFields,
) -> i32
    ensures same { table.new.table ≡ table.old.table }
    ensures made { result ≡ pos 0 → WhereBoth (IsColumnAt place) table.old.table (typed_in out.new.column) }
    ensures kept { result ≢ pos 0 → out.new.column ≡ out.old.column }
    ensures ended { EndsOnOne (λ t. IsFaultFirst (place_fault place t)) table.old.table result error.new }
{
    let Some(held) = table.take(alloc) else {
        return NO_COLUMN;
    };
    let outcome = column_at(alloc, &held, place);
    table.put(held);
    answer_column(outcome, out, error)
}

/// Makes a table that is equal in form. Refused only for memory.
#[tactic(auto, using(c_tables::proofs::TableEndings::one_empty, c_tables::proofs::TableEndings::one_done, c_tables::proofs::TableEndings::one_refused))]
#[unsafe(no_mangle)]
pub extern "C" fn hv_table_clone(
    alloc: Global,
    table: &mut TableHandle,
    out: &mut TableHandle,
    error: &mut ErrorFields,
) -> i32
    ensures same { table.new.table ≡ table.old.table }
    ensures made { result ≡ pos 0 → out.new.table ≡ table.old.table }
    ensures kept { result ≢ pos 0 → out.new.table ≡ out.old.table }
    ensures ended { EndsOnOne (λ t. IsMemory) table.old.table result error.new }
{
    let Some(held) = table.take(alloc) else {
        return NO_COLUMN;
    };
    let outcome = copied(alloc, &held);
    table.put(held);
    answer_table(outcome, out, error)
}

/// Frees the table, if there is one. The handle is empty after.
#[unsafe(no_mangle)]
pub extern "C" fn hv_table_free(alloc: Global, table: &mut TableHandle)
    ensures { table.new.table ≡ None }
{
    drop(table.take(alloc));
}
