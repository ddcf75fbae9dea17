//! What a call on tables answers.
ghost use Rattle.std.specs.Prelude.{◌≡◌, ◌≢◌, pos, IfErr, IfOk, OnErr, Some};
ghost use Rattle.c_columns.specs.Ending.{AreFields};
ghost use Rattle.c_tables.specs.TableEnding.{HasTableFields, table_number};

use crate::boxed::BoxedTable;
use crate::table_handle::TableHandle;
use c_columns::error_fields::{ErrorFields, refuse};
use c_columns::flat::Boxed;
use c_columns::handle::Handle;
use tables::TableError;

/// Puts a table into `out` and answers 0, or answers the number of an error and writes its fields.
pub fn answer_table(
    outcome: Result<BoxedTable, TableError>,
    out: &mut TableHandle,
    error: &mut ErrorFields,
) -> i32
    ensures ok { IfOk outcome (λ made. (result ≡ pos 0) × (out.new.table ≡ Some made.value)) }
    ensures err { IfErr outcome
        (λ why. (result ≡ pos (table_number why)) × (result ≢ pos 0) × (out.new.table ≡ out.old.table)
        × HasTableFields why error.new) }
{
    match outcome {
        Ok(made) => {
            out.put(made);
            0
        }
        Err(why) => refuse_table(why, error),
    }
}

/// Puts a column into `out` and answers 0, or answers the number of an error and writes its fields.
pub fn answer_column(
    outcome: Result<Boxed, TableError>,
    out: &mut Handle,
    error: &mut ErrorFields,
) -> i32
    ensures ok { IfOk outcome (λ made. (result ≡ pos 0) × (out.new.column ≡ Some made.value)) }
    ensures err { IfErr outcome
        (λ why. (result ≡ pos (table_number why)) × (result ≢ pos 0) × (out.new.column ≡ out.old.column)
        × HasTableFields why error.new) }
{
    match outcome {
        Ok(made) => {
            out.put(made);
            0
        }
        Err(why) => refuse_table(why, error),
    }
}

/// Returns 0 and puts what was found in its place, or returns the number of an error and writes only its fields.
pub fn write_table_answer<T: Drop>(
    outcome: Result<T, TableError>,
    place: &mut T,
    fields: &mut ErrorFields,
) -> i32
    ensures ok { IfOk outcome (λ found. (result ≡ pos 0) × (place.new ≡ found)) }
    ensures err { IfErr outcome
        (λ why. (result ≡ pos (table_number why)) × (result ≢ pos 0) × HasTableFields why fields.new) }
    ensures kept { OnErr outcome (place.new ≡ place.old) }
{
    match outcome {
        Ok(found) => {
            *place = found;
            0
        }
        Err(why) => refuse_table(why, fields),
    }
}

/// Returns 0, or the number of an error, whose fields are written.
pub fn write_table_status(outcome: Result<(), TableError>, fields: &mut ErrorFields) -> i32
    ensures ok { IfOk outcome (λ _. result ≡ pos 0) }
    ensures err { IfErr outcome
        (λ why. (result ≡ pos (table_number why)) × (result ≢ pos 0) × HasTableFields why fields.new) }
{
    match outcome {
        Ok(()) => 0,
        Err(why) => refuse_table(why, fields),
    }
}

// Writes the fields of an error, and answers its number.
fn refuse_table(why: TableError, fields: &mut ErrorFields) -> i32
    ensures number { result ≡ pos (table_number why) }
    ensures fields { HasTableFields why fields.new }
    ensures fails { result ≢ pos 0 }
{
    match why {
        TableError::Refused(error) => refuse(error, fields),
        TableError::UnknownName { name } => refused_with(201, name, 0, 0, fields),
        TableError::RepeatedName { earlier, name } => refused_with(202, earlier, name, 0, fields),
        TableError::NameCount { names, columns } => refused_with(205, names, columns, 0, fields),
        TableError::RowCount {
            column,
            rows,
            wanted,
        } => refused_with(206, column, rows, wanted, fields),
        TableError::NewNameCount { names, new_names } => refused_with(
            207, names, new_names, 0, fields,
        ),
        TableError::OtherNames => refused_with(208, 0, 0, 0, fields),
        TableError::OtherType { column } => refused_with(209, column, 0, 0, fields),
        TableError::RepeatedNewName { earlier, column } => refused_with(
            210, earlier, column, 0, fields,
        ),
        TableError::NoKeys => refused_with(211, 0, 0, 0, fields),
        TableError::UnsupportedKey { key } => refused_with(212, key, 0, 0, fields),
        TableError::UnknownColumn { answer } => refused_with(213, answer, 0, 0, fields),
        TableError::UnsupportedAnswer { answer } => refused_with(214, answer, 0, 0, fields),
        TableError::RepeatedAnswer { earlier, answer } => refused_with(
            215, earlier, answer, 0, fields,
        ),
        TableError::SumOverflow { answer, group } => refused_with(216, answer, group, 0, fields),
    }
}

// Writes these fields, and answers this number.
fn refused_with(
    number: i32,
    first: usize,
    second: usize,
    third: usize,
    fields: &mut ErrorFields,
) -> i32
    ensures number { result ≡ number }
    ensures fields { AreFields fields.new first second third }
{
    *fields = ErrorFields {
        first: first as u64,
        second: second as u64,
        third: third as u64,
    };
    number
}
