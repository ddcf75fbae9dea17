//! Tables without columns, columns put into a table and read out of it, and tables of some of the columns of another.
ghost use Rattle.std.specs.Prelude.{◌≡◌, [], IfErr, IfOk, OnErr, OnOk};
ghost use Rattle.c_tables.specs.TableCalls.{IsColumnAt, IsNullDropped, IsPutRefusal, IsPutUnder, IsRenameRefusal, IsRenamedBy, IsSelectRefusal, IsSelectedBy, place_fault};
ghost use Rattle.c_tables.specs.TableEnding.{IsFaultFirst, IsMemory};
ghost use Rattle.tables.specs.Tables.{table_with};
ghost use Rattle.typed_columns.specs.Typed.{typed_of};

use crate::boxed::{BoxedTable, boxed, usual_context};
use crate::names::{names_of, owned_name};
use c_columns::flat::Boxed;
use c_columns::runs::boxed_copy;
use column_core::VortexError;
use runend_array::ArrayRef;
use std::alloc::Global;
use tables::{Table, TableError};
use typed_columns::TypedColumn;

/// Returns the table without columns that has `count` rows. Refused only for memory.
pub fn new_table(alloc: Global, count: usize) -> Result<BoxedTable, TableError>
    ensures made { IfOk result (λ made. made.value ≡ table_with [] [] count) }
    ensures only { IfErr result IsMemory }
{
    Ok(boxed(alloc, Table::new(alloc, count))?)
}

/// Returns a table that is equal in form. Refused only for memory.
#[tactic(auto, using(crate::proofs::TableCopies::selection_same, crate::proofs::TableCopies::selection_short))]
pub fn copied(alloc: Global, table: &Table<Global>) -> Result<BoxedTable, TableError>
    ensures same { IfOk result (λ made. made.value ≡ table.now) }
    ensures only { IfErr result IsMemory }
{
    let copy = table.select(table.names(), &mut usual_context(alloc))?;
    Ok(boxed(alloc, copy)?)
}

/// Puts a copy of a column, with its format, under a name: in the place of the column of this name, or after the last
/// where none has it. A table that has neither columns nor rows takes a column of any number of rows.
///
/// Refused, and the table is as it was, as `TypeMismatch` exactly where the name is not UTF-8, and then as `RowCount`
/// where the column has another number of rows than the table, or for memory.
pub fn put_column(
    alloc: Global,
    table: &mut Table<Global>,
    name: &[u8],
    column: &TypedColumn<Global>,
) -> Result<(), TableError>
    ensures put { OnOk result (IsPutUnder name.now table.old (typed_of column.now) table.new) }
    ensures refused { IfErr result (IsPutRefusal name.now table.old (typed_of column.now)) }
    ensures kept { OnErr result (table.new ≡ table.old) }
{
    let name = owned_name(alloc, name)?;
    let copy = match column.try_clone(&mut usual_context(alloc)) {
        Ok(copy) => copy,
        Err(error) => {
            drop(name);
            return Err(TableError::Refused(error));
        }
    };
    table.put(name, copy)
}

/// Returns a copy of the column of a place, with its format, on the heap. Refused as `OutOfBounds`, with the place and
/// how many columns there are, exactly where there is none, else only for memory.
pub fn column_at(alloc: Global, table: &Table<Global>, place: usize) -> Result<Boxed, TableError>
    ensures column { IfOk result (λ made. IsColumnAt place table.now (typed_of made.value)) }
    ensures refused { IfErr result (IsFaultFirst (place_fault place table.now)) }
{
    let columns = table.columns();
    if place >= columns.len() {
        return Err(TableError::Refused(VortexError::OutOfBounds {
            index: place as i128,
            length: columns.len(),
        }));
    }
    Ok(boxed_copy(alloc, &columns[place])?)
}

/// Returns the columns of the names in a column of texts, in their order, each in the same form. Refused as
/// `TypeMismatch` unless these are texts, then as `NullNotAllowed` where one is null, and then as `Table::select` is,
/// or for memory.
#[tactic(auto, using(crate::proofs::Refusals::select_refused, crate::proofs::Refusals::select_short, crate::proofs::Refusals::select_by_table, crate::proofs::Refusals::select_made))]
pub fn selected(
    alloc: Global,
    table: &Table<Global>,
    names: &ArrayRef<Global>,
) -> Result<BoxedTable, TableError>
    ensures selected { IfOk result (λ made. IsSelectedBy table.now names.now made.value) }
    ensures refused { IfErr result (IsSelectRefusal table.now names.now) }
{
    let names = names_of(alloc, names)?;
    let chosen = table.select(&names, &mut usual_context(alloc));
    drop(names);
    Ok(boxed(alloc, chosen?)?)
}

/// Returns the rows at which none of the columns of the names in a column of texts is null, or no column at all where
/// none is named, of each column. Refused as `selected` is.
#[tactic(auto, using(crate::proofs::Refusals::select_refused, crate::proofs::Refusals::select_short, crate::proofs::Refusals::select_by_table, crate::proofs::Refusals::null_dropped))]
pub fn without_null(
    alloc: Global,
    table: &Table<Global>,
    names: &ArrayRef<Global>,
) -> Result<BoxedTable, TableError>
    ensures dropped { IfOk result (λ made. IsNullDropped table.now names.now made.value) }
    ensures refused { IfErr result (IsSelectRefusal table.now names.now) }
{
    let names = names_of(alloc, names)?;
    let kept = table.drop_null(&names, &mut usual_context(alloc));
    drop(names);
    Ok(boxed(alloc, kept?)?)
}

/// Returns the same columns, those of `names`, a column of texts, each under the text at its place in `new_names`.
/// Refused as `TypeMismatch` unless the names are texts, then as `NullNotAllowed` where one is null, then for the same
/// of the new names, and then as `Table::rename` is, or for memory.
#[tactic(auto, using(crate::proofs::Refusals::rename_refused, crate::proofs::Refusals::rename_new_refused, crate::proofs::Refusals::rename_short, crate::proofs::Refusals::rename_by_table, crate::proofs::Refusals::rename_made))]
pub fn renamed(
    alloc: Global,
    table: &Table<Global>,
    names: &ArrayRef<Global>,
    new_names: &ArrayRef<Global>,
) -> Result<BoxedTable, TableError>
    ensures renamed { IfOk result (λ made. IsRenamedBy table.now names.now new_names.now made.value) }
    ensures refused { IfErr result (IsRenameRefusal table.now names.now new_names.now) }
{
    let names = names_of(alloc, names)?;
    let new_names = match names_of(alloc, new_names) {
        Ok(new_names) => new_names,
        Err(error) => {
            drop(names);
            return Err(TableError::Refused(error));
        }
    };
    let made = table.rename(&names, &new_names, &mut usual_context(alloc));
    drop(names);
    drop(new_names);
    Ok(boxed(alloc, made?)?)
}
