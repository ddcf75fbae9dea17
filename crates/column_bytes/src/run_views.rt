//! Flat columns without null, and runs over these, looked at where their messages lie.
ghost use Rattle.std.specs.Prelude.{◌≡◌, List, ℕ, IfSome, IfNone};
ghost use Rattle.column_base.specs.declared.dtype.PType.{PType as EndsType};
ghost use Rattle.column_bytes.specs.ListViews.{IsFlatOf, IsFlatOfNone, AreRunsSeen, AreRunsOfNone};

use crate::run_checks::shows_window;
use column_fields::{
    read_constant, read_header, read_last_bytes, read_run_fields, span_of_lengths,
};

/// Holds a window over runs of a flat column without null: how many rows it shows, from which offset on, how many runs
/// there are, and the bytes of the run lengths and of the items.
#[derive(Clone, Copy)]
pub(crate) struct RunsView<'a> {
    pub(crate) rows: u64,
    pub(crate) offset: u64,
    pub(crate) count: usize,
    pub(crate) lengths: &'a [u8],
    pub(crate) items: &'a [u8],
}

/// Returns the runs over a flat column without null whose type has this number, or `None` exactly where the bytes are
/// not the message of such runs, whatever their items. The items are not looked at. Takes no memory.
pub(crate) fn view_runs(bytes: &[u8], kind: u64) -> Option<RunsView<'_>>
    ensures found { IfSome result (λ v. (t : EndsType) × (ends : List ℕ) × AreRunsSeen kind bytes.now t ends v) }
    ensures none { IfNone result (AreRunsOfNone kind bytes.now) }
{
    let (header, body) = read_header(bytes)?;
    if header.kind != kind {
        return None;
    }
    if header.form != 2 {
        return None;
    }
    let fields = read_run_fields(body)?;
    let (runs, items) = view_flat(fields.values, kind)?;
    let span = span_of_lengths(fields.ends_type, fields.lengths)?;
    if !shows_window(span, runs, fields.offset, header.rows) {
        return None;
    }
    Some(RunsView {
        rows: header.rows,
        offset: fields.offset,
        count: span.count,
        lengths: fields.lengths,
        items,
    })
}

/// Returns how many rows a flat column without null has whose type has this number, and the bytes of its items, or
/// `None` exactly where the bytes are not the message of such a column, whatever its items. The items are not looked
/// at. Takes no memory.
pub(crate) fn view_flat(bytes: &[u8], kind: u64) -> Option<(u64, &[u8])>
    ensures found { IfSome result (λ r. IsFlatOf kind bytes.now r.0 r.1.now) }
    ensures none { IfNone result (IsFlatOfNone kind bytes.now) }
{
    let (header, body) = read_header(bytes)?;
    if header.kind != kind {
        return None;
    }
    if header.form != 1 {
        return None;
    }
    let rest = read_constant(body, 5, 1)?;
    let items = read_last_bytes(rest, 7)?;
    Some((header.rows, items))
}
