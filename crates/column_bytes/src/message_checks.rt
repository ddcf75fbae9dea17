//! Whether bytes are a message, looked at where they lie.
ghost use Rattle.std.specs.Bool.{OnTrue, OnFalse};
ghost use Rattle.runend_array.specs.Column.{Column};
ghost use Rattle.column_bytes.specs.Read.{IsMessage, IsNoMessage};

use crate::column::MOST_LEVELS;
use crate::constant_checks::is_constant;
use crate::leaf_checks::is_leaf;
use crate::list_checks::are_lists;
use crate::run_checks::joins_runs;
use column_fields::{read_header, read_run_fields};

/// Returns whether the bytes are the message of a column with at most 16 levels of runs, for bytes that are not trusted
/// yet. Takes no memory. Rows in runs are not walked one by one, so the cost is that of a few passes over the bytes.
pub fn is_message(bytes: &[u8]) -> bool
    ensures yes { OnTrue result ((c : Column) × IsMessage 16 bytes.now c) }
    ensures no { OnFalse result (IsNoMessage 16 bytes.now) }
{
    is_message_within(bytes, MOST_LEVELS)
}

// Are the bytes the message of a column with at most that number of levels of runs?
fn is_message_within(bytes: &[u8], levels: usize) -> bool
    ensures yes { OnTrue result ((c : Column) × IsMessage levels bytes.now c) }
    ensures no { OnFalse result (IsNoMessage levels bytes.now) }
{
    let Some((header, body)) = read_header(bytes) else {
        return false;
    };
    if header.form == 1 {
        return is_leaf(header, body);
    }
    if header.form == 3 {
        return is_constant(header, body);
    }
    if header.form == 4 {
        return are_lists(header, body, levels);
    }
    if header.form != 2 {
        return false;
    }
    if levels == 0 {
        return false;
    }
    let Some(fields) = read_run_fields(body) else {
        return false;
    };
    if !joins_runs(header, fields) {
        return false;
    }
    is_message_within(fields.values, levels - 1)
}
