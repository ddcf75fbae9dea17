//! The parts of lists, looked at where their messages lie.
ghost use Rattle.std.specs.Prelude.{◌≡◌, ◌++◌, ℕ, length, max, IfSome, IfNone};
ghost use Rattle.column_core.specs.Leaf.{Leaf, leaf_rows};
ghost use Rattle.column_fields.specs.Field.{number_field};
ghost use Rattle.runend_array.specs.Lists.{Index, RowValidityForm, index_count, index_depth, validity_depth};
ghost use Rattle.column_bytes.specs.ListRead.{IsLeafMessage, IsNoLeafMessage, IsIndexMessage, IsNoIndexMessage};
ghost use Rattle.column_bytes.specs.ListRead.{BeginsWithValidity, BeginsWithNoValidity};
ghost use Rattle.column_bytes.specs.ListViews.{ShowsIndex, ShowsValidity};

use crate::flat::TRUTHS;
use crate::leaf_checks::is_leaf;
use crate::run_views::{RunsView, view_flat, view_runs};
use column_base::PType;
use column_fields::{
    ValidityView, holds_bits, holds_values, read_bytes, read_constant, read_header, view_validity,
};

/// Numbers the type of offsets and of sizes.
const INDICES: u64 = 4;

/// Holds the number of elements, and the offsets, sizes and validity of lists.
#[derive(Clone, Copy)]
pub(crate) struct ListsView<'a> {
    pub(crate) elements: u64,
    pub(crate) offsets: IndexView<'a>,
    pub(crate) sizes: IndexView<'a>,
    pub(crate) validity: RowValidityView<'a>,
}

/// Holds offsets or sizes: the bytes of flat ones, or runs.
#[derive(Clone, Copy)]
pub(crate) enum IndexView<'a> {
    Flat(&'a [u8]),
    Runs(RunsView<'a>),
}

/// Says which lists are valid, row by row or in runs.
#[derive(Clone, Copy)]
pub(crate) enum RowValidityView<'a> {
    Rows(ValidityView<'a>),
    Runs(RunsView<'a>),
}

/// Returns the offsets or sizes that the bytes are the message of, or `None` exactly where they are not such a message.
/// Takes no memory.
pub(crate) fn view_index(bytes: &[u8]) -> Option<IndexView<'_>>
    ensures found { IfSome result (λ v. (index : Index) × IsIndexMessage bytes.now index × ShowsIndex v index) }
    ensures none { IfNone result (IsNoIndexMessage bytes.now) }
{
    if let Some((rows, items)) = view_flat(bytes, INDICES) {
        if !holds_values(PType::U64, items, rows as usize) {
            return None;
        }
        return Some(IndexView::Flat(items));
    }
    let runs = view_runs(bytes, INDICES)?;
    if !holds_values(PType::U64, runs.items, runs.count) {
        return None;
    }
    Some(IndexView::Runs(runs))
}

/// Returns which of that number of lists are valid, and the bytes after it, or `None` exactly where the bytes begin
/// with no such validity. Takes no memory.
pub(crate) fn view_row_validity(bytes: &[u8], rows: u64) -> Option<(RowValidityView<'_>, &[u8])>
    ensures found { IfSome result (λ r. (form : RowValidityForm) × BeginsWithValidity rows bytes.now form r.1.now ×
        ShowsValidity rows r.0 form) }
    ensures none { IfNone result (BeginsWithNoValidity rows bytes.now) }
{
    if let Some(after) = read_constant(bytes, 5, 5) {
        return view_run_validity(after, rows);
    }
    let (validity, rest) = view_validity(bytes, rows as usize)?;
    Some((RowValidityView::Rows(validity), rest))
}

// The validity in runs of booleans, after the field that says so, and the bytes after it.
fn view_run_validity(bytes: &[u8], rows: u64) -> Option<(RowValidityView<'_>, &[u8])>
    ensures found { IfSome result (λ r. (form : RowValidityForm) ×
        BeginsWithValidity rows (number_field 5 5 ++ bytes.now) form r.1.now × ShowsValidity rows r.0 form) }
    ensures none { IfNone result (BeginsWithNoValidity rows (number_field 5 5 ++ bytes.now)) }
{
    let (flags, rest) = read_bytes(bytes, 16)?;
    let runs = view_runs(flags, TRUTHS)?;
    if runs.rows != rows {
        return None;
    }
    if !holds_bits(runs.items, runs.count) {
        return None;
    }
    Some((RowValidityView::Runs(runs), rest))
}

/// Returns how many elements the flat column has that the bytes are the message of, or `None` exactly where they are
/// not such a message. Takes no memory.
pub(crate) fn count_elements(bytes: &[u8]) -> Option<u64>
    ensures found { IfSome result (λ n. (leaf : Leaf) × IsLeafMessage bytes.now leaf × (length (leaf_rows leaf) ≡ n)) }
    ensures none { IfNone result (IsNoLeafMessage bytes.now) }
{
    let (header, body) = read_header(bytes)?;
    if header.form != 1 {
        return None;
    }
    if !is_leaf(header, body) {
        return None;
    }
    Some(header.rows)
}

impl IndexView<'_> {
    /// Returns how many offsets or sizes there are.
    pub(crate) fn rows(self) -> u64
        ensures { (index : Index) → ShowsIndex self.entry index → result ≡ index_count index }
    {
        match self {
            IndexView::Flat(items) => (items.len() / 8) as u64,
            IndexView::Runs(runs) => runs.rows,
        }
    }

    /// Returns a bound of the levels of runs.
    pub(crate) fn levels(self) -> usize
        ensures { (index : Index) → ShowsIndex self.entry index → result ≡ index_depth index }
    {
        match self {
            IndexView::Flat(_) => 0,
            IndexView::Runs(_) => 2,
        }
    }
}

impl RowValidityView<'_> {
    /// Returns a bound of the levels of runs.
    pub(crate) fn levels(self) -> usize
        ensures { (rows : ℕ) (form : RowValidityForm) → ShowsValidity rows self.entry form →
            result ≡ validity_depth form }
    {
        match self {
            RowValidityView::Rows(_) => 0,
            RowValidityView::Runs(_) => 2,
        }
    }
}
