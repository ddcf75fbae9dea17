//! Whether bytes are those of lists, looked at where they lie.
ghost use Rattle.std.specs.Prelude.{◌≡◌, ◌↔◌, ℕ, IsTrue};
ghost use Rattle.std.specs.Bool.{OnTrue, OnFalse};
ghost use Rattle.column_core.specs.Leaf.{Leaf};
ghost use Rattle.runend_array.specs.Column.{Column};
ghost use Rattle.runend_array.specs.Lists.{Lists, RowValidityForm, HasRows, lists_depth};
ghost use Rattle.column_bytes.specs.ListRead.{AreListsBehind, AreListsOf, AreNoListsBehind};
ghost use Rattle.column_bytes.specs.ListViews.{ShowsLists, ShowsValidity};
ghost use Rattle.column_bytes.specs.Read.{IsBody, IsNoBody};

use crate::list_views::{
    ListsView, RowValidityView, count_elements, view_index, view_row_validity,
};
use crate::list_walks::rows_fit;
use crate::lists::LISTS;
use column_fields::{Header, read_list_fields};

/// Returns whether the bytes are what the message of lists says after this header, with at most that number of levels
/// of runs. Takes no memory.
pub(crate) fn are_lists(header: Header, bytes: &[u8], levels: usize) -> bool
    ensures yes { OnTrue result ((c : Column) × IsBody levels header.kind 4 header.rows bytes.now c) }
    ensures no { OnFalse result (IsNoBody levels header.kind 4 header.rows bytes.now) }
{
    if header.kind != LISTS {
        return false;
    }
    let Some((validity, rest)) = view_row_validity(bytes, header.rows) else {
        return false;
    };
    are_behind_validity(header.rows, levels, rest, validity)
}

// Are the bytes all else that the message of that number of lists with this validity says?
fn are_behind_validity(
    rows: u64,
    levels: usize,
    bytes: &[u8],
    validity: RowValidityView<'_>,
) -> bool
    ensures yes { (form : RowValidityForm) → ShowsValidity rows validity.entry form → HasRows form rows →
        OnTrue result ((c : Column) × AreListsBehind levels rows form bytes.now c) }
    ensures no { (form : RowValidityForm) → ShowsValidity rows validity.entry form → HasRows form rows →
        OnFalse result (AreNoListsBehind levels rows form bytes.now) }
{
    let Some(fields) = read_list_fields(bytes) else {
        return false;
    };
    let Some(elements) = count_elements(fields.elements) else {
        return false;
    };
    let Some(offsets) = view_index(fields.offsets) else {
        return false;
    };
    let Some(sizes) = view_index(fields.sizes) else {
        return false;
    };
    let view = ListsView {
        elements,
        offsets,
        sizes,
        validity,
    };
    make_lists(view, rows, levels)
}

// Do these parts make that number of lists, with at most that number of levels of runs?
fn make_lists(view: ListsView<'_>, rows: u64, levels: usize) -> bool
    ensures { (lists : Lists) → ShowsLists rows view.entry lists → (IsTrue result ↔ AreListsOf levels rows lists) }
{
    if view.offsets.rows() != rows {
        return false;
    }
    if view.sizes.rows() != rows {
        return false;
    }
    if levels_of(view) > levels {
        return false;
    }
    rows_fit(view, rows)
}

// A bound of the levels of runs.
fn levels_of(view: ListsView<'_>) -> usize
    ensures { (rows : ℕ) (lists : Lists) → ShowsLists rows view.entry lists → result ≡ lists_depth lists }
{
    view.offsets
        .levels()
        .max(view.sizes.levels().max(view.validity.levels()))
}
