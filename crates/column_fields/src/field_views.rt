//! What messages of stored rows and of decimals end with, looked at where it lies.
ghost use Rattle.std.specs.Prelude.{◌≡◌, ◌^◌, ◌<◌, length, IfSome, IfNone};
ghost use Rattle.column_base.specs.ValidityForm.{HasLength};
ghost use Rattle.column_fields.specs.DecimalFields.{decimal_fields, AreNoDecimalFields, IsDecimalType};
ghost use Rattle.column_fields.specs.FlatFields.{flat_fields, AreNoFlatFields};
ghost use Rattle.column_fields.specs.ValidityViews.{form_in};

use crate::decimal_fields::read_decimal_items;
use crate::fields::read_last_bytes;
use crate::validity_views::{ValidityView, view_validity};
use column_base::DecimalDType;

/// Returns the validity of that number of rows and the bytes of the items, which the bytes consist of, or `None`
/// exactly where they consist of anything else. Takes no memory.
pub fn view_flat_fields(bytes: &[u8], rows: usize) -> Option<(ValidityView<'_>, &[u8])>
    ensures found { IfSome result (λ r. bytes.now ≡ flat_fields (form_in rows r.0) r.1.now) }
    ensures counted { IfSome result (λ r. HasLength (form_in rows r.0) rows) }
    ensures small { IfSome result (λ r. length r.1.now < 2 ^ 64) }
    ensures none { IfNone result (AreNoFlatFields rows bytes.now) }
{
    let (validity, rest) = view_validity(bytes, rows)?;
    let items = read_last_bytes(rest, 7)?;
    Some((validity, items))
}

/// Returns the validity of that number of rows, the precision and the scale, and the bytes of the items, which the
/// bytes consist of, or `None` exactly where they consist of anything else. Takes no memory.
pub fn view_decimal_fields(
    bytes: &[u8],
    rows: usize,
) -> Option<(ValidityView<'_>, DecimalDType, &[u8])>
    ensures found { IfSome result (λ r. bytes.now ≡ decimal_fields (form_in rows r.0) r.1 r.2.now) }
    ensures counted { IfSome result (λ r. HasLength (form_in rows r.0) rows) }
    ensures typed { IfSome result (λ r. IsDecimalType r.1) }
    ensures small { IfSome result (λ r. length r.2.now < 2 ^ 64) }
    ensures none { IfNone result (AreNoDecimalFields rows bytes.now) }
{
    let (validity, rest) = view_validity(bytes, rows)?;
    let (decimal, items) = read_decimal_items(rest)?;
    Some((validity, decimal, items))
}
