//! Calls of a flat column that no line of vectors makes, with each request for memory refused in turn: lines select,
//! change and compare the same three rows by commands.
use crate::parts::{nullable, required};
use column_core::{FlatColumn, ScalarView, VortexResult};
use column_ops::{ColumnOps, FlatOrder};
use refusing::{Calls, are_answered_in_turn};
use std::alloc::Allocator;
use std::test::Fail;

// The rows 4, null and 7.
fn three_rows<A: Allocator + Copy>(alloc: A) -> VortexResult<FlatColumn<A>> {
    let rows = nullable(alloc, &[4i64, 0, 7], &[true, false, true])?;
    Ok(FlatColumn::Primitive(rows))
}

// Is it the row, where nothing is null?
fn is_row<A: Allocator>(row: Option<i64>, view: ScalarView<'_, A>) -> bool {
    match view {
        ScalarView::Null => row.is_none(),
        ScalarView::Signed(number) => row == Some(number),
        _ => false,
    }
}

// Are the rows these?
fn shows<A: Allocator + Copy>(column: &FlatColumn<A>, rows: &[Option<i64>]) -> bool {
    for index in 0..rows.len() {
        if index >= column.len() || !is_row(rows[index], column.get(index)) {
            return false;
        }
    }
    column.len() == rows.len()
}

// Are the rows that are answered these?
fn are_rows<A: Allocator + Copy>(
    made: VortexResult<FlatColumn<A>>,
    rows: &[Option<i64>],
) -> VortexResult<bool> {
    match made {
        Ok(column) => {
            let are_shown = shows(&column, rows);
            drop(column);
            Ok(are_shown)
        }
        Err(error) => Err(error),
    }
}

// The rows 2 and 1 by codes.
fn coded<A: Allocator + Copy>(alloc: A, column: &FlatColumn<A>) -> VortexResult<FlatColumn<A>> {
    let codes = FlatColumn::Primitive(required(alloc, &[2u8, 1])?);
    let coded = column.take_codes(alloc, &codes);
    drop(codes);
    coded
}

// Are rows looked up by codes, cloned and sliced as they should be?
fn are_selected<A: Allocator + Copy>(alloc: A, column: &FlatColumn<A>) -> VortexResult<bool> {
    Ok(
        are_rows(coded(alloc, column), &[Some(7), None])?
            && are_rows(column.try_clone(alloc), &[Some(4), None, Some(7)])?
            && are_rows(column.slice(alloc, 1..3), &[None, Some(7)])?,
    )
}

// Is their order seen as it is?
fn are_ordered<A: Allocator + Copy>(column: &FlatColumn<A>) -> bool {
    column.len() == 3
        && column.is_sorted(1..3, true)
        && !column.is_sorted(0..3, false)
        && column.is_constant(1..2)
        && matches!(
            column.min_max(0..3),
            Some((ScalarView::Signed(4), ScalarView::Signed(7)))
        )
}

// Each call on three rows.
struct FlatCalls {}

impl Calls for FlatCalls {
    fn are_answered<A: Allocator + Copy>(alloc: A) -> VortexResult<bool> {
        let column = three_rows(alloc)?;
        let selected = are_selected(alloc, &column);
        let is_ordered = are_ordered(&column);
        drop(column);
        Ok(selected? && is_ordered)
    }
}

#[test]
fn flat_columns_are_selected_and_ordered(rt: HostRuntime) -> Result<(), Fail> {
    assert!(rt; are_answered_in_turn::<FlatCalls>(rt.alloc()));
    Ok(())
}
