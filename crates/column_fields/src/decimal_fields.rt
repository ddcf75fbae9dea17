//! What a message of decimals ends with: which rows are null, the items, the precision, and the scale.
ghost use Rattle.std.specs.Prelude.{◌≡◌, ◌^◌, ◌<◌, ◌*◌, ◌++◌, length, IfSome, IfNone, IfOk, IfErr, IsErrOf, OnOk, IsOkUnless, FitsSigned};
ghost use Rattle.std.specs.Int.{w8};
ghost use Rattle.column_base.specs.Validity.{form_of};
ghost use Rattle.column_base.specs.ValidityForm.{HasLength};
ghost use Rattle.column_fields.specs.DecimalFields.{decimal_fields, decimal_items, decimal_type, AreNoDecimalFields, AreNoDecimalItems, BeginsWithNoDecimalType, IsDecimalType, scale_number, HasNoScale};
ghost use Rattle.column_fields.specs.Kept.{StaysInFront};
ghost use Rattle.column_fields.specs.Room.{UsesRoom};
ghost use Rattle.column_fields.specs.Refusal.{IsBadOrMemory};

use crate::fields::{put_number, read_bytes, read_number};
use crate::validity::read_validity;
use bytes::BufMut;
use column_base::{DecimalDType, Validity, VortexError, VortexResult};
use std::alloc::Allocator;

/// Writes the precision and the scale at the end. Refused only as `OutOfMemory`.
pub fn put_decimal_type<W: BufMut>(out: &mut W, decimal: DecimalDType) -> VortexResult<()>
    ensures ok { OnOk result (W.written out.new ≡ W.written out.old ++ decimal_type decimal) }
    ensures room { UsesRoom result (W.spare out.old) (W.spare out.new) (length (decimal_type decimal)) }
    ensures typed { IsDecimalType decimal }
    ensures kept { StaysInFront (W.written out.old) (W.written out.new) }
    ensures only { IsOkUnless result VortexError.OutOfMemory }
{
    put_number(out, 14, u64::from(decimal.precision))?;
    put_number(out, 15, number_of_scale(decimal.scale))?;
    Ok(())
}

/// Returns the precision and the scale at the front, and the bytes after them.
pub(crate) fn read_decimal_type(bytes: &[u8]) -> Option<(DecimalDType, &[u8])>
    ensures found { IfSome result (λ r. bytes.now ≡ decimal_type r.0 ++ r.1.now) }
    ensures typed { IfSome result (λ r. IsDecimalType r.0) }
    ensures none { IfNone result (BeginsWithNoDecimalType bytes.now) }
{
    let (precision, after_precision) = read_number(bytes, 14)?;
    if precision > 255 {
        return None;
    }
    let (number, rest) = read_number(after_precision, 15)?;
    let scale = scale_of_number(number)?;
    let precision = precision as u8;
    Some((DecimalDType { precision, scale }, rest))
}

/// Returns the validity of `rows` rows, the precision and the scale, and the bytes of the items, which the bytes
/// consist of. Refused as `BadMetadata` exactly where they consist of anything else, else only as `OutOfMemory`.
pub fn read_decimal_fields<A: Allocator + Copy>(
    alloc: A,
    bytes: &[u8],
    rows: usize,
) -> VortexResult<(Validity<A>, DecimalDType, &[u8])>
    ensures found { IfOk result (λ r. bytes.now ≡ decimal_fields (form_of r.0) r.1 r.2.now) }
    ensures counted { IfOk result (λ r. HasLength (form_of r.0) rows) }
    ensures typed { IfOk result (λ r. IsDecimalType r.1) }
    ensures small { IfOk result (λ r. length r.2.now < 2 ^ 64) }
    ensures bad { IsErrOf result VortexError.BadMetadata → AreNoDecimalFields rows bytes.now }
    ensures only { IfErr result IsBadOrMemory }
{
    let (validity, rest) = read_validity(alloc, bytes, rows)?;
    match read_decimal_items(rest) {
        Some((decimal, items)) => Ok((validity, decimal, items)),
        None => {
            drop(validity);
            Err(VortexError::BadMetadata)
        }
    }
}

// The precision and the scale, and the bytes of the items, which the bytes are.
pub(crate) fn read_decimal_items(bytes: &[u8]) -> Option<(DecimalDType, &[u8])>
    ensures found { IfSome result (λ r. bytes.now ≡ decimal_items r.0 r.1.now) }
    ensures typed { IfSome result (λ r. IsDecimalType r.0) }
    ensures small { IfSome result (λ r. length r.1.now < 2 ^ 64) }
    ensures none { IfNone result (AreNoDecimalItems bytes.now) }
{
    let (items, after_items) = read_bytes(bytes, 7)?;
    let (decimal, rest) = read_decimal_type(after_items)?;
    if rest.len() != 0 {
        return None;
    }
    Some((decimal, items))
}

// The number of a scale: even for scales from 0 on, odd for those below 0.
pub(crate) fn number_of_scale(scale: i8) -> u64
    ensures number { result ≡ scale_number scale }
    ensures fits { FitsSigned w8 scale }
{
    let size = u64::from(scale.unsigned_abs()) * 2;
    if scale < 0 { size - 1 } else { size }
}

// The scale that a number means.
fn scale_of_number(number: u64) -> Option<i8>
    ensures found { IfSome result (λ scale. scale_number scale ≡ number) }
    ensures fits { IfSome result (λ scale. FitsSigned w8 scale) }
    ensures none { IfNone result (HasNoScale number) }
{
    if number > 255 {
        return None;
    }
    let half = (number / 2) as i8;
    Some(if number % 2 == 0 { half } else { -1 - half })
}
