//! Whether bytes are those of a flat column, looked at where they lie.
ghost use Rattle.std.specs.Prelude.{ℕ};
ghost use Rattle.std.specs.Bool.{OnTrue, OnFalse};
ghost use Rattle.column_core.specs.PrimitiveForm.{PrimitiveForm};
ghost use Rattle.column_core.specs.BoolForm.{BoolForm};
ghost use Rattle.column_core.specs.DecimalForm.{DecimalForm};
ghost use Rattle.runend_array.specs.Column.{Column};
ghost use Rattle.column_bytes.specs.Read.{IsBody, IsNoBody, AreNumbersOf, AreNoNumbersOf, AreTruthsOf, AreNoTruthsOf, AreDecimalsOf, AreNoDecimalsOf};

use crate::flat::{BYTES, DECIMALS, TEXTS, TRUTHS};
use crate::text_checks::are_text_fields;
use column_base::PType;
use column_core::VarBinKind;
use column_fields::{
    Header, holds_bits, holds_decimals, holds_values, type_of_number, view_decimal_fields,
    view_flat_fields,
};

/// Returns whether the bytes are what the message of a flat column says after this header.
pub(crate) fn is_leaf(header: Header, bytes: &[u8]) -> bool
    ensures yes { OnTrue result ((c : Column) × IsBody 0 header.kind 1 header.rows bytes.now c) }
    ensures no { OnFalse result ((levels : ℕ) → IsNoBody levels header.kind 1 header.rows bytes.now) }
{
    let rows = header.rows as usize;
    if header.kind == TRUTHS {
        return are_truths(rows, bytes);
    }
    if header.kind == DECIMALS {
        return are_decimals(rows, bytes);
    }
    if header.kind == TEXTS {
        return are_text_fields(VarBinKind::Utf8, rows, bytes);
    }
    if header.kind == BYTES {
        return are_text_fields(VarBinKind::Binary, rows, bytes);
    }
    let Some(ptype) = type_of_number(header.kind) else {
        return false;
    };
    are_numbers(ptype, rows, bytes)
}

fn are_numbers(ptype: PType, rows: usize, bytes: &[u8]) -> bool
    ensures yes { OnTrue result ((form : PrimitiveForm) × AreNumbersOf ptype rows bytes.now form) }
    ensures no { OnFalse result (AreNoNumbersOf ptype rows bytes.now) }
{
    let Some((_validity, items)) = view_flat_fields(bytes, rows) else {
        return false;
    };
    holds_values(ptype, items, rows)
}

fn are_truths(rows: usize, bytes: &[u8]) -> bool
    ensures yes { OnTrue result ((form : BoolForm) × AreTruthsOf rows bytes.now form) }
    ensures no { OnFalse result (AreNoTruthsOf rows bytes.now) }
{
    let Some((_validity, items)) = view_flat_fields(bytes, rows) else {
        return false;
    };
    holds_bits(items, rows)
}

fn are_decimals(rows: usize, bytes: &[u8]) -> bool
    ensures yes { OnTrue result ((form : DecimalForm) × AreDecimalsOf rows bytes.now form) }
    ensures no { OnFalse result (AreNoDecimalsOf rows bytes.now) }
{
    let Some((_validity, _decimal, items)) = view_decimal_fields(bytes, rows) else {
        return false;
    };
    holds_decimals(items, rows)
}
