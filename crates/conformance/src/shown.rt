//! What rows of any type are compared with.
use std::alloc::Allocator;
use vortex_runend::{ArrayRef, FlatColumn, ScalarView, VortexResult};

/// Compares a value with what a row shows.
pub(crate) trait Shown {
    /// Returns whether it is the value that is seen.
    fn is_seen<A: Allocator>(&self, view: ScalarView<'_, A>) -> bool;
}

impl Shown for bool {
    fn is_seen<A: Allocator>(&self, view: ScalarView<'_, A>) -> bool {
        matches!(view, ScalarView::Bool(truth) if truth == *self)
    }
}

impl Shown for i64 {
    fn is_seen<A: Allocator>(&self, view: ScalarView<'_, A>) -> bool {
        matches!(view, ScalarView::Signed(number) if number == *self)
    }
}

impl Shown for i128 {
    fn is_seen<A: Allocator>(&self, view: ScalarView<'_, A>) -> bool {
        matches!(view, ScalarView::Decimal(number) if number == *self)
    }
}

impl<'a> Shown for &'a str {
    fn is_seen<A: Allocator>(&self, view: ScalarView<'_, A>) -> bool {
        matches!(view, ScalarView::Utf8(text) if text == *self)
    }
}

impl<'a, S: Shown> Shown for &'a [S] {
    fn is_seen<A: Allocator>(&self, view: ScalarView<'_, A>) -> bool {
        match view {
            ScalarView::List {
                elements,
                start,
                size,
            } => size == self.len() && are_elements(self, elements, start),
            _ => false,
        }
    }
}

/// Returns whether the rows that a call makes are these.
pub(crate) fn are_shown<S: Shown, A: Allocator + Copy>(
    made: VortexResult<ArrayRef<A>>,
    rows: &[Option<S>],
) -> VortexResult<bool> {
    let array = made?;
    let are_seen = are_rows(&array, rows);
    drop(array);
    Ok(are_seen)
}

// Are the rows these?
fn are_rows<S: Shown, A: Allocator + Copy>(array: &ArrayRef<A>, rows: &[Option<S>]) -> bool {
    for index in 0..rows.len() {
        match array.scalar_at(index) {
            Ok(view) if is_row(&rows[index], view) => {}
            _ => return false,
        }
    }
    array.len() == rows.len()
}

// Are the items the elements from `start` on?
fn are_elements<S: Shown, A: Allocator>(
    items: &[S],
    elements: &FlatColumn<A>,
    start: usize,
) -> bool {
    for item in 0..items.len() {
        let index = start.saturating_add(item);
        if index >= elements.len() || !items[item].is_seen(elements.get(index)) {
            return false;
        }
    }
    true
}

// Is it the row, where nothing is null?
fn is_row<S: Shown, A: Allocator>(row: &Option<S>, view: ScalarView<'_, A>) -> bool {
    match row {
        Some(value) => value.is_seen(view),
        None => matches!(view, ScalarView::Null),
    }
}
