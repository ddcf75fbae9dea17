//! Whether bytes are the fields of texts or of bytes, looked at where they lie.
ghost use Rattle.std.specs.Bool.{OnTrue, OnFalse};
ghost use Rattle.column_core.specs.VarBinForm.{VarBinForm};
ghost use Rattle.column_fields.specs.ValidityViews.{form_in, HoldsRows};
ghost use Rattle.column_bytes.specs.TextReading.{AreNoTextsIn, AreNoTextsOf, AreTextsIn, AreTextsOf, FitsRow};

use crate::text_reading::read_text_items;
use column_core::VarBinKind;
use column_fields::{ValidityView, read_shortest, view_validity};
use std::str;

/// Returns whether the bytes are the fields of a flat column of that number of rows of texts, or of bytes, which is
/// packed. Takes no memory.
pub fn are_text_fields(kind: VarBinKind, rows: usize, bytes: &[u8]) -> bool
    ensures yes { OnTrue result ((form : VarBinForm) × AreTextsOf kind rows bytes.now form) }
    ensures no { OnFalse result (AreNoTextsOf kind rows bytes.now) }
{
    let Some((validity, rest)) = view_validity(bytes, rows) else {
        return false;
    };
    let Some((sizes, content)) = read_text_items(rest) else {
        return false;
    };
    are_rows(kind, rows, validity, sizes, content)
}

// Are these the bytes of the sizes, and those that the rows show, of that number of rows with this validity?
fn are_rows(
    kind: VarBinKind,
    rows: usize,
    validity: ValidityView<'_>,
    sizes: &[u8],
    content: &[u8],
) -> bool
    requires { HoldsRows rows validity }
    ensures yes { OnTrue result
        ((form : VarBinForm) × AreTextsIn kind rows (form_in rows validity.entry) sizes.now content.now form) }
    ensures no { OnFalse result (AreNoTextsIn kind rows (form_in rows validity.entry) sizes.now content.now) }
{
    let mut rest = sizes;
    let mut start = 0usize;
    for row in 0..rows {
        let Some((number, after)) = read_shortest(rest) else {
            return false;
        };
        let size = number as usize;
        if size > content.len() - start {
            return false;
        }
        let valid = validity.is_valid(row);
        if !fits_row(kind, valid, &content[start..start + size]) {
            return false;
        }
        rest = after;
        start += size;
    }
    if rest.len() != 0 || start != content.len() {
        return false;
    }
    true
}

// May a row show these bytes: a text where texts are wanted, and none where it is null?
fn fits_row(kind: VarBinKind, valid: bool, bytes: &[u8]) -> bool
    ensures yes { OnTrue result (FitsRow kind valid bytes.now) }
    ensures no { OnFalse result (¬ FitsRow kind valid bytes.now) }
{
    if !valid {
        if bytes.len() != 0 {
            return false;
        }
        return true;
    }
    match kind {
        VarBinKind::Binary => true,
        VarBinKind::Utf8 => match str::from_utf8(bytes) {
            Ok(_text) => true,
            Err(_) => false,
        },
    }
}
