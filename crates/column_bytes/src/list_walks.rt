//! The rows of lists, walked where the messages of their parts lie.
ghost use Rattle.std.specs.Prelude.{◌≡◌, ◌+◌, ◌^◌, ◌<◌, ◌≤◌, ◌↔◌, ℕ, List, All, IsTrue, length, min, slice_index, IfSome, MatchOption};
ghost use Rattle.std.specs.Int.{to_le_bytes, w64};
ghost use Rattle.column_fields.specs.ValidityViews.{form_in};
ghost use Rattle.runend_array.specs.Lists.{ByRows, Index, RowValidityForm, Lists, flag_stop, index_at as number_in_row, index_count, index_stop, row_flag_at};
ghost use Rattle.column_bytes.specs.Bytes.{index_form};
ghost use Rattle.column_bytes.specs.Stored.{AreNumbers};
ghost use Rattle.column_bytes.specs.ListViews.{AreFlagsReadTo, HasNumberBytes, IsIndexReadTo, ShowsIndex, ShowsLists, ShowsValidity};
ghost use Rattle.column_bytes.specs.ListWalks.{AreReadTo, FitsEachRow, IsStep};

use crate::list_views::{IndexView, ListsView, RowValidityView};
use crate::run_cursors::{RunCursor, before_runs};
use column_fields::ValidityView;

/// Returns whether the elements of each valid row lie within those that there are. A step is a stretch of rows whose
/// offset, size and flag stay the same, so rows in runs take no more steps than there are runs. Takes no memory.
pub(crate) fn rows_fit(view: ListsView<'_>, rows: u64) -> bool
    ensures { (lists : Lists) → ShowsLists rows view.entry lists → index_count lists.offsets ≡ rows →
        index_count lists.sizes ≡ rows → (IsTrue result ↔ FitsEachRow lists rows) }
{
    let mut cursors = view.before_runs();
    let mut row = 0;
    while row < rows {
        let Some(step) = view.step(cursors, row, rows) else {
            return false;
        };
        if !step.fits {
            return false;
        }
        cursors = step.cursors;
        row = step.stop;
    }
    true
}

/// Says how far the run lengths of the parts of lists are read.
#[derive(Clone, Copy)]
pub(crate) struct Cursors<'a> {
    pub(crate) flags: RunCursor<'a>,
    pub(crate) offsets: RunCursor<'a>,
    pub(crate) sizes: RunCursor<'a>,
}

/// Says whether a row is null or its elements lie within those that there are, and how far the rows from it on are like
/// it.
#[derive(Clone, Copy)]
pub(crate) struct Step<'a> {
    pub(crate) fits: bool,
    pub(crate) stop: u64,
    pub(crate) cursors: Cursors<'a>,
}

impl<'a> ListsView<'a> {
    // The cursors before the first runs.
    fn before_runs(self) -> Cursors<'a>
        ensures { (rows : ℕ) (lists : Lists) → ShowsLists rows self.entry lists → AreReadTo lists 0 result }
    {
        Cursors {
            flags: self.validity.before_runs(),
            offsets: self.offsets.before_runs(),
            sizes: self.sizes.before_runs(),
        }
    }

    // The step from a row on, or `None` where the runs of a part end before it.
    fn step(self, cursors: Cursors<'a>, row: u64, rows: u64) -> Option<Step<'a>>
        requires { row < rows }
        ensures past { IfSome result (λ s. row < s.stop) }
        ensures found { (lists : Lists) → ShowsLists rows self.entry lists → index_count lists.offsets ≡ rows →
            index_count lists.sizes ≡ rows → AreReadTo lists row cursors.entry →
            MatchOption result ⊥ (IsStep lists rows row) }
    {
        let flag = self.validity.flag_from(cursors.flags, row, rows)?;
        let offset = self.offsets.number_from(cursors.offsets, row)?;
        let size = self.sizes.number_from(cursors.sizes, row)?;
        Some(Step {
            fits: !flag.value || is_within(offset.value, size.value, self.elements),
            stop: flag.stop.min(offset.stop).min(size.stop),
            cursors: Cursors {
                flags: flag.cursor,
                offsets: offset.cursor,
                sizes: size.cursor,
            },
        })
    }
}

// Does the list of `size` elements from `offset` on lie within that number of elements?
fn is_within(offset: u64, size: u64, elements: u64) -> bool
    ensures { IsTrue result ↔ (offset + size ≤ elements) }
{
    offset <= elements && size <= elements - offset
}

// What a row shows, and before which row the rows from it on stop to show the same.
#[derive(Clone, Copy)]
struct Stretch<'a, T> {
    value: T,
    stop: u64,
    cursor: RunCursor<'a>,
}

impl<'a> RowValidityView<'a> {
    fn before_runs(self) -> RunCursor<'a>
        ensures { (rows : ℕ) (form : RowValidityForm) → ShowsValidity rows self.entry form →
            AreFlagsReadTo form 0 result }
    {
        match self {
            RowValidityView::Rows(_) => before_runs(&[]),
            RowValidityView::Runs(runs) => before_runs(runs.lengths),
        }
    }

    // Whether the row is valid: where there is a bit for each row that row only, in runs up to the end of its run, else
    // all rows.
    fn flag_from(self, cursor: RunCursor<'a>, row: u64, rows: u64) -> Option<Stretch<'a, bool>>
        requires { row < rows }
        ensures past { IfSome result (λ s. row < s.stop) }
        ensures found { (form : RowValidityForm) → ShowsValidity rows self.entry form →
            AreFlagsReadTo form row cursor.entry →
            MatchOption result ⊥ (λ s. (s.value ≡ row_flag_at form row) ×
            (min s.stop rows ≡ flag_stop form rows row) × AreFlagsReadTo form row s.cursor) }
    {
        match self {
            RowValidityView::Rows(view) => Some(Stretch {
                value: view.is_valid(row as usize),
                stop: same_until(view, row, rows),
                cursor,
            }),
            RowValidityView::Runs(runs) => {
                let cursor = cursor.past_row(runs.offset, row)?;
                Some(Stretch {
                    value: ValidityView::Bits(runs.items).is_valid(cursor.run()),
                    stop: cursor.end.saturating_sub(runs.offset),
                    cursor,
                })
            }
        }
    }
}

// The row before which the rows from this one on are known to be as valid as it: the next where each row has a bit.
fn same_until(view: ValidityView<'_>, row: u64, rows: u64) -> u64
    requires { row < rows }
    ensures past { row < result }
    ensures same { (count : ℕ) → min result rows ≡ flag_stop (ByRows (form_in count view.entry)) rows row }
{
    match view {
        ValidityView::Bits(_) => row + 1,
        _ => rows,
    }
}

impl<'a> IndexView<'a> {
    fn before_runs(self) -> RunCursor<'a>
        ensures { (index : Index) → ShowsIndex self.entry index → IsIndexReadTo index 0 result }
    {
        match self {
            IndexView::Flat(_) => before_runs(&[]),
            IndexView::Runs(runs) => before_runs(runs.lengths),
        }
    }

    // The offset or size of a row, for this row only if they are flat, and up to the end of its run if they are in
    // runs.
    fn number_from(self, cursor: RunCursor<'a>, row: u64) -> Option<Stretch<'a, u64>>
        requires { row + 1 < 2 ^ 64 }
        ensures past { IfSome result (λ s. row < s.stop) }
        ensures found { (index : Index) → ShowsIndex self.entry index → row < index_count index →
            IsIndexReadTo index row cursor.entry → MatchOption result ⊥ (λ s. (s.value ≡ number_in_row index row) ×
            (min s.stop (index_count index) ≡ index_stop index row) × IsIndexReadTo index row s.cursor) }
    {
        match self {
            IndexView::Flat(items) => Some(Stretch {
                value: number_at(items, row as usize),
                stop: row + 1,
                cursor,
            }),
            IndexView::Runs(runs) => {
                let cursor = cursor.past_row(runs.offset, row)?;
                Some(Stretch {
                    value: number_at(runs.items, cursor.run()),
                    stop: cursor.end.saturating_sub(runs.offset),
                    cursor,
                })
            }
        }
    }
}

// The number of 64 bits at that place, or 0 after the last.
fn number_at(bytes: &[u8], place: usize) -> u64
    ensures { (numbers : List ℕ) → AreNumbers (index_form numbers) → HasNumberBytes numbers bytes.now →
        place < length numbers → result ≡ slice_index numbers place }
{
    if place >= bytes.len() / 8 {
        return 0;
    }
    let start = place * 8;
    word_of(&bytes[start..start + 8])
}

// The number of these eight bytes, the lowest first.
fn word_of(bytes: &[u8]) -> u64
    requires { length bytes.now ≡ 8 }
    ensures { to_le_bytes w64 result ≡ bytes.now }
{
    u64::from_le_bytes([
        bytes[0], bytes[1], bytes[2], bytes[3], bytes[4], bytes[5], bytes[6], bytes[7],
    ])
}
