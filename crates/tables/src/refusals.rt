//! Why names and columns make no table, and why a range, a mask or indices do not suit a number of rows. None of these
//! tests takes memory.
ghost use Rattle.std.specs.Prelude.{◌≡◌, ◌<◌, ℤ, Option, Some, MatchOption, length, map, slice_get};
ghost use Rattle.std.specs.Option.{option_or};
ghost use Rattle.std.specs.String.{string_bytes};
ghost use Rattle.column_core.specs.PrimitiveForm.{optional_numbers};
ghost use Rattle.column_core.specs.Refusal.{range_fault};
ghost use Rattle.column_ops.specs.Filter.{filter_fault};
ghost use Rattle.column_ops.specs.Take.{index_fault, take_fault};
ghost use Rattle.row_stretches.specs.Masks.{mask_fault};
ghost use Rattle.tables.specs.TableFaults.{AreAsked, IsNameFault, IsTableError};
ghost use Rattle.tables.specs.Tables.{IsTable, table_with};
ghost use Rattle.typed_columns.specs.Typed.{typed_of};

use crate::columns::first_uneven;
use crate::fault::TableError;
use crate::names::{Named, first_repeated, first_unknown};
use column_core::{DType, PrimitiveArray, VortexError};
use column_ops::checked_index;
use std::alloc::Allocator;
use typed_columns::TypedColumn;

/// Returns why names, columns and a number of rows make no table: `NameCount`, `RowCount` or `RepeatedName`, the first
/// that holds.
pub(crate) fn fault_of_parts<A: Allocator + Copy>(
    names: &[String<A>],
    columns: &[TypedColumn<A>],
    rows: usize,
) -> Option<TableError>
    ensures { MatchOption result (IsTable (table_with (map string_bytes names.now) (map typed_of columns.now) rows))
        (IsTableError (map string_bytes names.now) (map typed_of columns.now) rows) }
{
    if names.len() != columns.len() {
        return Some(TableError::NameCount {
            names: names.len(),
            columns: columns.len(),
        });
    }
    if let Some(found) = first_uneven(columns, rows) {
        return Some(TableError::RowCount {
            column: found.0,
            rows: found.1,
            wanted: rows,
        });
    }
    let found = first_repeated(names)?;
    Some(TableError::RepeatedName {
        earlier: found.0,
        name: found.1,
    })
}

/// Returns why columns of these names are not chosen: `RepeatedName` or `UnknownName`, the first that holds.
pub(crate) fn fault_of_names<A: Allocator, N: Named>(
    own: &[String<A>],
    names: &[N],
) -> Option<TableError>
    ensures { MatchOption result (AreAsked (map string_bytes own.now) (map N.named names.now))
        (IsNameFault (map string_bytes own.now) (map N.named names.now)) }
{
    if let Some(found) = first_repeated(names) {
        return Some(TableError::RepeatedName {
            earlier: found.0,
            name: found.1,
        });
    }
    let name = first_unknown(own, names)?;
    Some(TableError::UnknownName { name })
}

/// Returns why a range is not one of `count` rows: `BadRange`, with both bounds and `count`, where it begins after its
/// end or ends after the last row.
pub(crate) fn fault_of_range(start: usize, stop: usize, count: usize) -> Option<VortexError>
    ensures { result ≡ range_fault start stop count }
{
    if start > stop || stop > count {
        return Some(VortexError::BadRange {
            start,
            stop,
            length: count,
        });
    }
    None
}

/// Returns why `length` rows of a type do not mask `count` rows: `TypeMismatch` unless they are booleans, then
/// `MaskLength` where the numbers differ.
#[tactic(auto, using(runend_column::proofs::FilterFaults::no_fault, runend_column::proofs::FilterFaults::fault_told))]
pub(crate) fn fault_of_mask(dtype: DType, length: usize, count: usize) -> Option<VortexError>
    ensures { result ≡ option_or (mask_fault dtype) (filter_fault length count) }
{
    match dtype {
        DType::Bool(_) if length == count => None,
        DType::Bool(_) => Some(VortexError::MaskLength {
            mask: length,
            length: count,
        }),
        _ => Some(VortexError::TypeMismatch),
    }
}

/// Returns why the indices are not all those of `count` rows: `OutOfBounds`, with the index and `count`, at the first
/// valid one that is negative or not below `count`.
pub(crate) fn fault_of_indices<A: Allocator + Copy>(
    indices: &PrimitiveArray<A>,
    count: usize,
) -> Option<VortexError>
    ensures { result ≡ take_fault (optional_numbers indices.now) count }
{
    for place in 0..indices.len() {
        if let Some(error) = fault_at(indices, place, count) {
            return Some(error);
        }
    }
    None
}

// Why the index at a place is not that of one of `count` rows: a null one is refused by none.
fn fault_at<A: Allocator + Copy>(
    indices: &PrimitiveArray<A>,
    place: usize,
    count: usize,
) -> Option<VortexError>
    requires { place < length indices.now.numbers }
    ensures { (index : Option ℤ) × (slice_get (optional_numbers indices.now) place ≡ Some index)
        × (result ≡ index_fault count index) }
{
    let index = indices.values().get(place);
    if !indices.validity().is_valid(place) {
        return None;
    }
    match checked_index(index, count) {
        Ok(_) => None,
        Err(error) => Some(error),
    }
}
