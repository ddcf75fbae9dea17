//! Whether the fields of runs fit values whose message is not read, looked at where they lie.
ghost use Rattle.std.specs.Prelude.{◌≡◌, ◌-◌, ◌↔◌, IsTrue, ℕ, List, true, length, get_or};
ghost use Rattle.std.specs.Bool.{OnTrue, OnFalse};
ghost use Rattle.column_fields.specs.Lengths.{Rises};
ghost use Rattle.runend_windows.specs.Window.{IsWindow};
ghost use Rattle.column_bytes.specs.Read.{JoinsRuns, JoinsNoRuns};

use column_fields::{EndsSpan, Header, RunFields, read_header, span_of_lengths};

/// Returns whether runs can have this header and these fields, over the column that the values are the message of, if
/// they are a message. Looks only at the header of the values.
pub(crate) fn joins_runs(header: Header, fields: RunFields<'_>) -> bool
    ensures yes { OnTrue result (JoinsRuns header.kind header.rows fields.entry.offset fields.entry.ends_type
        fields.entry.lengths.now fields.entry.values.now) }
    ensures no { OnFalse result (JoinsNoRuns header.kind header.rows fields.entry.offset fields.entry.ends_type
        fields.entry.lengths.now fields.entry.values.now) }
{
    let Some((values, _body)) = read_header(fields.values) else {
        return false;
    };
    if values.kind != header.kind {
        return false;
    }
    let Some(span) = span_of_lengths(fields.ends_type, fields.lengths) else {
        return false;
    };
    shows_window(span, values.rows, fields.offset, header.rows)
}

/// Returns whether runs with ends of this span, and that number of values, show that number of rows from an offset on.
pub(crate) fn shows_window(span: EndsSpan, values: u64, offset: u64, rows: u64) -> bool
    ensures { (ends : List ℕ) → Rises true 0 ends → length ends ≡ span.count → get_or ends 0 0 ≡ span.first →
        get_or ends (span.count - 1) 0 ≡ span.last →
        (IsTrue result ↔ (IsWindow ends offset rows × (values ≡ length ends))) }
{
    if span.count as u64 != values {
        return false;
    }
    if values == 0 {
        return offset == 0 && rows == 0;
    }
    let Some(stop) = offset.checked_add(rows) else {
        return false;
    };
    if rows == 0 {
        return true;
    }
    if span.first < offset {
        return false;
    }
    stop <= span.last
}
