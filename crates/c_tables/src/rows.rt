//! Tables of some of the rows of another one, and of the rows of two.
ghost use Rattle.std.specs.Prelude.{◌≡◌, IfErr, IfOk, OnOk, None};
ghost use Rattle.column_core.specs.PrimitiveForm.{optional_numbers, primitive_dtype};
ghost use Rattle.column_core.specs.Refusal.{range_fault};
ghost use Rattle.column_ops.specs.Take.{take_fault};
ghost use Rattle.c_tables.specs.Filters.{IsFilterBy, IsFilterByRefusal, compared_number};
ghost use Rattle.c_tables.specs.TableCalls.{IsFilterOf, IsSliceOf, IsTakeRefusal, IsTakenAt, masking_fault};
ghost use Rattle.c_tables.specs.TableEnding.{IsFaultFirst};
ghost use Rattle.tables.specs.Appended.{IsAppendError, IsAppendable, IsAppended};
ghost use Rattle.tables.specs.Selected.{IsTaken};
ghost use Rattle.typed_columns.specs.Typed.{typed_of};

use crate::boxed::{BoxedTable, boxed, usual_context};
use crate::indices::numbers_of;
use crate::names::text_of;
use c_columns::numbers::number_passed;
use c_columns::row_value::{RowValue, scalar_of};
use column_core::{PrimitiveArray, fault_of_lists};
use column_ops::CompareOperator;
use exact_comparisons::{filter_by_number, number_fault};
use exact_numbers::ExactNumber;
use runend_array::ArrayRef;
use std::alloc::Global;
use tables::{Table, TableError};
use typed_columns::TypedColumn;

/// Returns the rows from `start` to `stop` - 1 of each column. Refused as `BadRange` exactly where these are not rows,
/// else only for memory.
pub fn sliced(
    alloc: Global,
    table: &Table<Global>,
    start: usize,
    stop: usize,
) -> Result<BoxedTable, TableError>
    ensures sliced { IfOk result (λ made. IsSliceOf start stop table.now made.value) }
    ensures refused { IfErr result (IsFaultFirst (range_fault start stop table.now.count)) }
{
    let part = table.slice(start..stop, &mut usual_context(alloc))?;
    Ok(boxed(alloc, part)?)
}

/// Returns the rows of each column at which a mask of any form is true. Refused exactly as `TypeMismatch` unless the
/// mask is of booleans, and then as `MaskLength` where it has another number of rows, else only for memory.
pub fn filtered(
    alloc: Global,
    table: &Table<Global>,
    mask: &ArrayRef<Global>,
) -> Result<BoxedTable, TableError>
    ensures filtered { IfOk result (λ made. IsFilterOf table.now mask.now made.value) }
    ensures refused { IfErr result (IsFaultFirst (masking_fault table.now mask.now)) }
{
    let kept = table.filter(mask, &mut usual_context(alloc))?;
    Ok(boxed(alloc, kept)?)
}

/// Returns the rows at which the operator holds of the row of the column of this name and what C passes: a number of
/// any type next to integers, decimals and floats, both as the exact numbers that they are, and else a value of the
/// column's type. Refused as `UnknownName` where no column has the name, then as `Unsupported` where that column has
/// lists, then as `TypeMismatch` where the value is neither, else only for memory.
#[tactic(auto, using(crate::proofs::Comparings::filter_lists, crate::proofs::Comparings::exact_refused, crate::proofs::Comparings::exact_made, crate::proofs::Comparings::filter_other, crate::proofs::Comparings::filter_boxed, crate::proofs::Comparings::filter_failed, crate::proofs::Comparings::filter_made))]
pub fn filtered_by(
    alloc: Global,
    table: &Table<Global>,
    name: &[u8],
    operator: CompareOperator,
    value: &RowValue,
    text: &[u8],
) -> Result<BoxedTable, TableError>
    ensures filtered { IfOk result (λ made.
        IsFilterBy name.now operator value.now text.now table.now made.value) }
    ensures refused { IfErr result (IsFilterByRefusal name.now value.now text.now table.now) }
{
    let name = text_of(table, name)?;
    let Some(column) = table.column(name) else {
        return Err(TableError::UnknownName { name: 0 });
    };
    if let Some(error) = fault_of_lists(column.array.dtype()) {
        return Err(TableError::Refused(error));
    }
    if let Some(number) = compared_number(column, value) {
        let kept = filter_by_number(table, name, operator, number, &mut usual_context(alloc))?;
        return Ok(boxed(alloc, kept)?);
    }
    let scalar = scalar_of(alloc, &column.array, value, text)?;
    let kept = table.filter_by(name, operator, &scalar, &mut usual_context(alloc));
    drop(scalar);
    Ok(boxed(alloc, kept?)?)
}

/// Returns the row of each column at each index, null at a null one. Refused as `TypeMismatch` unless the indices are
/// integers, and then as `OutOfBounds` at the first that is of no row, or for memory.
#[tactic(auto, using(crate::proofs::IndexRows::flat_taken, crate::proofs::IndexRows::flat_refused, crate::proofs::IndexRows::other_taken, crate::proofs::IndexRows::other_refused, crate::proofs::IndexRows::others_refused))]
pub fn taken(
    alloc: Global,
    table: &Table<Global>,
    indices: &ArrayRef<Global>,
) -> Result<BoxedTable, TableError>
    ensures taken { IfOk result (λ made. IsTakenAt table.now indices.now made.value) }
    ensures refused { IfErr result (IsTakeRefusal table.now indices.now) }
{
    if let ArrayRef::Primitive(numbers) = indices {
        return taken_at(alloc, table, numbers);
    }
    let numbers = numbers_of(alloc, indices)?;
    let taken = taken_at(alloc, table, &numbers);
    drop(numbers);
    taken
}

/// Returns the rows of a table and then those of another one with the same names, types and formats. Refused exactly as
/// `Table::append` is.
pub fn appended(
    alloc: Global,
    table: &Table<Global>,
    other: &Table<Global>,
) -> Result<BoxedTable, TableError>
    ensures appended { IfOk result (λ made. IsAppended table.now other.now made.value) }
    ensures allowed { OnOk result (IsAppendable table.now other.now) }
    ensures refused { IfErr result (IsAppendError table.now other.now) }
{
    let both = table.append(other, &mut usual_context(alloc))?;
    Ok(boxed(alloc, both)?)
}

// The row of each column at each number.
fn taken_at(
    alloc: Global,
    table: &Table<Global>,
    numbers: &PrimitiveArray<Global>,
) -> Result<BoxedTable, TableError>
    ensures taken { IfOk result (λ made.
        IsTaken table.now (optional_numbers numbers.now) (primitive_dtype numbers.now) made.value) }
    ensures accepted { OnOk result (take_fault (optional_numbers numbers.now) table.now.count ≡ None) }
    ensures refused { IfErr result (IsFaultFirst (take_fault (optional_numbers numbers.now) table.now.count)) }
{
    let taken = table.take(numbers, &mut usual_context(alloc))?;
    Ok(boxed(alloc, taken)?)
}

// Returns the number as which a value is compared with the rows of a column, where both are numbers.
fn compared_number(column: &TypedColumn<Global>, value: &RowValue) -> Option<ExactNumber>
    ensures { result ≡ compared_number (typed_of column.now) value.now }
{
    match number_fault(column) {
        Some(_) => None,
        None => number_passed(value),
    }
}
