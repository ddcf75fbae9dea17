//! Groups of the rows of a table, and what is answered of each.
ghost use Rattle.std.specs.Prelude.{◌≡◌, ◌<◌, ◌↔◌, All, IfErr, IfOk, IsTrue, Some, length, map};
ghost use Rattle.std.specs.String.{string_bytes};
ghost use Rattle.column_core.specs.Refusal.{IsRefusedBy};
ghost use Rattle.runend_array.specs.Array.{rows};
ghost use Rattle.c_columns.specs.Reads.{bytes_of};
ghost use Rattle.c_kernels.specs.Grouped.{fold_numbered};
ghost use Rattle.c_tables.specs.Groups.{IsAskedBy, IsFold, IsGroupRefusal, IsGroupedBy, asked_fault, asked_shape_fault, row_at, two_names_fault};
ghost use Rattle.tables.specs.Grouping.{asked_of};

use crate::boxed::{BoxedTable, boxed, usual_context};
use crate::names::{name_at, names_of};
use crate::sorts::fault_of_shape;
use c_kernels::fold_named;
use column_core::{VortexError, VortexResult};
use runend_array::ArrayRef;
use std::alloc::Global;
use tables::{Asked, GroupFold, Table, TableError};

/// Returns a row for each group of neighbouring rows that are equal in the columns of the names in `keys`, a column of
/// texts: the keys, and then for each row of `answers` an answer under the name in it. `columns` has the name of the
/// column that it is of, and `folds` the number of its fold. The number of rows is that of any column.
///
/// Refused as `TypeMismatch` unless the keys are texts, then as `NullNotAllowed` where one is null; then as
/// `TypeMismatch` unless the answers are texts, and as `ColumnLength` where there are not as many as folds, then for
/// the same of the columns, then as `NullNotAllowed` where an answer or a column is null; and then as `Table::group_by`
/// is, or for memory.
#[tactic(auto, using(crate::proofs::AskedNames::keys_refused, crate::proofs::AskedNames::asked_refused, crate::proofs::AskedNames::groups_short))]
pub fn grouped(
    alloc: Global,
    table: &Table<Global>,
    keys: &ArrayRef<Global>,
    answers: &ArrayRef<Global>,
    columns: &ArrayRef<Global>,
    folds: &[u8],
) -> Result<BoxedTable, TableError>
    requires numbers { All IsFold folds.now }
    ensures grouped { IfOk result
        (λ made. IsGroupedBy keys.now answers.now columns.now folds.now table.now made.value) }
    ensures refused { IfErr result (IsGroupRefusal keys.now answers.now columns.now folds.now table.now) }
{
    let keys = names_of(alloc, keys)?;
    let asked = match asked_by(alloc, answers, columns, folds) {
        Ok(asked) => asked,
        Err(error) => {
            drop(keys);
            return Err(TableError::Refused(error));
        }
    };
    let made = table.group_by(&keys, &asked, &mut usual_context(alloc));
    drop(keys);
    drop(asked);
    Ok(boxed(alloc, made?)?)
}

/// Returns whether each is the number of a fold: 0 to 6.
pub fn are_folds(numbers: &[u8]) -> bool
    ensures { IsTrue result ↔ All IsFold numbers.now }
{
    for place in 0..numbers.len() {
        if fold_named(numbers[place]).is_none() {
            return false;
        }
    }
    true
}

// What each row asks.
fn asked_by(
    alloc: Global,
    answers: &ArrayRef<Global>,
    columns: &ArrayRef<Global>,
    folds: &[u8],
) -> VortexResult<Vec<Asked<Global>>>
    requires numbers { All IsFold folds.now }
    ensures asked { IfOk result (λ asked. IsAskedBy answers.now columns.now folds.now (map asked_of asked.items)) }
    ensures refused { IsRefusedBy (asked_fault answers.now columns.now folds.now) result }
{
    if let Some(error) = fault_of_asked(answers, columns, folds.len()) {
        return Err(error);
    }
    let mut asked = Vec::with_capacity(alloc, folds.len())?;
    for row in 0..folds.len() {
        let one = asked_at(alloc, answers, columns, row, fold_of(folds[row]))?;
        asked.push_reserved(one);
    }
    Ok(asked)
}

// Why these are not the names of `count` answers and of their columns, if they are not.
fn fault_of_asked(
    answers: &ArrayRef<Global>,
    columns: &ArrayRef<Global>,
    count: usize,
) -> Option<VortexError>
    ensures { result ≡ asked_shape_fault answers.now columns.now count }
{
    if let Some(error) = fault_of_shape(answers, count) {
        return Some(error);
    }
    fault_of_shape(columns, count)
}

// What a row asks, with this fold.
fn asked_at(
    alloc: Global,
    answers: &ArrayRef<Global>,
    columns: &ArrayRef<Global>,
    row: usize,
    fold: GroupFold,
) -> VortexResult<Asked<Global>>
    requires within { row < length (rows answers.now) }
    requires column_within { row < length (rows columns.now) }
    ensures name { IfOk result (λ one. string_bytes one.name ≡ bytes_of (row_at answers.now row)) }
    ensures column { IfOk result (λ one. string_bytes one.column ≡ bytes_of (row_at columns.now row)) }
    ensures fold { IfOk result (λ one. one.fold ≡ fold) }
    ensures refused { IsRefusedBy (two_names_fault (row_at answers.now row, row_at columns.now row)) result }
{
    let name = name_at(alloc, answers, row)?;
    match name_at(alloc, columns, row) {
        Ok(column) => Ok(Asked { name, column, fold }),
        Err(error) => {
            drop(name);
            Err(error)
        }
    }
}

// The fold of a number.
fn fold_of(number: u8) -> GroupFold
    requires { IsFold number }
    ensures { fold_numbered number ≡ Some result }
{
    fold_named(number).unwrap()
}
