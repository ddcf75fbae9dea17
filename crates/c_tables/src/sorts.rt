//! Tables with their rows in another order.
ghost use Rattle.std.specs.Prelude.{◌≡◌, IfErr, IfOk, length, map};
ghost use Rattle.std.specs.String.{string_bytes};
ghost use Rattle.column_core.specs.Refusal.{IsRefusedBy};
ghost use Rattle.runend_array.specs.Array.{dtype_of, rows};
ghost use Rattle.c_tables.specs.Sorts.{IsSortRefusal, IsSortedBy, keys_fault, order_by, shape_fault};
ghost use Rattle.c_tables.specs.TableCalls.{names_in};

use crate::boxed::{BoxedTable, boxed, usual_context};
use crate::names::{fault_of_texts, name_at};
use column_core::{VortexError, VortexResult};
use runend_array::ArrayRef;
use std::alloc::Global;
use tables::{KeyOrder, RowOrder, Table, TableError};

/// Returns the rows in order by the columns of the names in a column of texts, those that are equal in the first by the
/// second, and so on, and those that are equal in all as they are. `flags` has a number for each name, whose lowest bit
/// says that greater rows come first, and the next one that nulls come last.
///
/// Refused as `TypeMismatch` unless the names are texts, then as `ColumnLength` where there are not as many flags as
/// names, then as `NullNotAllowed` where a name is null, and then as `Table::sort` is, or for memory.
#[tactic(auto, using(crate::proofs::SortKeys::sort_refused, crate::proofs::SortKeys::sort_short, crate::proofs::SortKeys::sort_by_table, crate::proofs::SortKeys::sort_made))]
pub fn sorted(
    alloc: Global,
    table: &Table<Global>,
    names: &ArrayRef<Global>,
    flags: &[u8],
) -> Result<BoxedTable, TableError>
    ensures sorted { IfOk result (λ made. IsSortedBy names.now flags.now table.now made.value) }
    ensures refused { IfErr result (IsSortRefusal names.now flags.now table.now) }
{
    let keys = keys_of(alloc, names, flags)?;
    let made = table.sort(&keys, &mut usual_context(alloc));
    drop(keys);
    Ok(boxed(alloc, made?)?)
}

// The name of each row, and the order that its flags say.
#[tactic(auto, using(crate::proofs::SortKeys::one_flag_each, crate::proofs::SortKeys::shape_refused, crate::proofs::SortKeys::keys_fine))]
fn keys_of(
    alloc: Global,
    names: &ArrayRef<Global>,
    flags: &[u8],
) -> VortexResult<Vec<KeyOrder<Global>>>
    ensures names { IfOk result (λ keys. map (λ key. string_bytes key.name) keys.items ≡ names_in names.now) }
    ensures orders { IfOk result (λ keys. map (λ key. key.order) keys.items ≡ map order_by flags.now) }
    ensures refused { IsRefusedBy (keys_fault names.now flags.now) result }
{
    if let Some(error) = fault_of_shape(names, flags.len()) {
        return Err(error);
    }
    let mut keys = Vec::with_capacity(alloc, flags.len())?;
    for row in 0..flags.len() {
        let name = name_at(alloc, names, row)?;
        keys.push_reserved(KeyOrder {
            name,
            order: order_of(flags[row]),
        });
    }
    Ok(keys)
}

/// Returns `TypeMismatch` unless the names are texts, then `ColumnLength` unless there are `count`.
pub(crate) fn fault_of_shape(names: &ArrayRef<Global>, count: usize) -> Option<VortexError>
    ensures { result ≡ shape_fault (dtype_of names.now) (length (rows names.now)) count }
{
    if let Some(error) = fault_of_texts(names.dtype()) {
        return Some(error);
    }
    if names.len() == count {
        return None;
    }
    Some(VortexError::ColumnLength {
        left: names.len(),
        right: count,
    })
}

// The order that a number says.
fn order_of(flags: u8) -> RowOrder
    ensures { result ≡ order_by flags }
{
    RowOrder {
        descending: flags % 2 == 1,
        nulls_last: flags / 2 % 2 == 1,
    }
}
