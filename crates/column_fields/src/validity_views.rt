//! The fields that say which rows are null, looked at where they lie.
ghost use Rattle.std.specs.Prelude.{◌≡◌, ◌++◌, ◌+◌, ◌/◌, ◌<◌, ℕ, false, length, slice_index_or, IfSome, IfNone};
ghost use Rattle.column_base.specs.ValidityForm.{HasLength, flag_at};
ghost use Rattle.column_fields.specs.BitBytes.{bits_from};
ghost use Rattle.column_fields.specs.Validity.{validity_field, HasNoValidity};
ghost use Rattle.column_fields.specs.ValidityViews.{form_in, HoldsRows};

use crate::fields::{read_bytes, read_number};
use crate::held::holds_bits;

/// Says which rows are null, as a message has it. Bits are its bytes, in which no bit after those of the rows is set.
#[derive(Clone, Copy)]
pub enum ValidityView<'a> {
    NonNullable,
    AllValid,
    AllInvalid,
    Bits(&'a [u8]),
}

/// Returns the validity of that number of rows at the front, and the bytes after it, or `None` exactly where none is
/// there. Takes no memory.
pub fn view_validity(bytes: &[u8], rows: usize) -> Option<(ValidityView<'_>, &[u8])>
    ensures found { IfSome result (λ r. bytes.now ≡ validity_field (form_in rows r.0) ++ r.1.now) }
    ensures counted { IfSome result (λ r. HasLength (form_in rows r.0) rows) }
    ensures held { IfSome result (λ r. HoldsRows rows r.0) }
    ensures none { IfNone result (HasNoValidity rows bytes.now) }
{
    let (kind, rest) = read_number(bytes, 5)?;
    match kind {
        1 => Some((ValidityView::NonNullable, rest)),
        2 => Some((ValidityView::AllValid, rest)),
        3 => Some((ValidityView::AllInvalid, rest)),
        4 => {
            let (content, after) = read_bytes(rest, 6)?;
            if !holds_bits(content, rows) {
                return None;
            }
            Some((ValidityView::Bits(content), after))
        }
        _ => None,
    }
}

impl ValidityView<'_> {
    /// Returns whether the row is valid.
    pub fn is_valid(self, row: usize) -> bool
        ensures { (rows : ℕ) → HoldsRows rows self.entry → row < rows → result ≡ flag_at (form_in rows self.entry) row }
    {
        match self {
            ValidityView::NonNullable => true,
            ValidityView::AllValid => true,
            ValidityView::AllInvalid => false,
            ValidityView::Bits(bytes) => is_set(bytes, row),
        }
    }
}

// Is that bit set? The lowest of a byte is the first.
fn is_set(bytes: &[u8], place: usize) -> bool
    ensures { (count : ℕ) → length bytes.now ≡ (count + 7) / 8 → place < count →
        result ≡ slice_index_or (bits_from count bytes.now) place false }
{
    let byte = place / 8;
    if byte >= bytes.len() {
        return false;
    }
    (bytes[byte] >> (place % 8)) % 2 == 1
}
