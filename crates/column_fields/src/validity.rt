//! The fields that say which rows are null.
ghost use Rattle.std.specs.Prelude.{◌≡◌, ◌++◌, length, OnOk, IfOk, IfErr, IsErrOf, IsOkUnless};
ghost use Rattle.column_base.specs.Validity.{form_of};
ghost use Rattle.column_base.specs.ValidityForm.{HasLength, ByBits};
ghost use Rattle.column_fields.specs.Kept.{StaysInFront};
ghost use Rattle.column_fields.specs.Room.{UsesRoom};
ghost use Rattle.column_fields.specs.Validity.{validity_field, HasNoValidity};
ghost use Rattle.column_fields.specs.Refusal.{IsBadOrMemory};

use crate::bit_bytes::{bytes_for, load_bits, put_bits};
use crate::fields::{put_bytes_key, put_number, read_bytes, read_number};
use bytes::BufMut;
use column_base::{BitBuffer, Validity, VortexError, VortexResult};
use std::alloc::Allocator;

/// Writes a validity. Refused only as `OutOfMemory`.
#[tactic(auto, unfolding(crate::specs::Validity::validity_field))]
pub fn put_validity<A: Allocator, W: BufMut>(
    out: &mut W,
    validity: &Validity<A>,
) -> VortexResult<()>
    ensures ok { OnOk result (W.written out.new ≡ W.written out.old ++ validity_field (form_of validity.now)) }
    ensures room { UsesRoom result (W.spare out.old) (W.spare out.new)
        (length (validity_field (form_of validity.now))) }
    ensures kept { StaysInFront (W.written out.old) (W.written out.new) }
    ensures only { IsOkUnless result VortexError.OutOfMemory }
{
    match validity {
        Validity::NonNullable => put_number(out, 5, 1),
        Validity::AllValid => put_number(out, 5, 2),
        Validity::AllInvalid => put_number(out, 5, 3),
        Validity::Bits(bits) => put_bit_validity(out, bits),
    }
}

/// Writes that a validity is in bits, and the bits. Refused only as `OutOfMemory`.
pub fn put_bit_validity<A: Allocator, W: BufMut>(
    out: &mut W,
    bits: &BitBuffer<A>,
) -> VortexResult<()>
    ensures ok { OnOk result (W.written out.new ≡ W.written out.old ++ validity_field (ByBits bits.now)) }
    ensures room { UsesRoom result (W.spare out.old) (W.spare out.new) (length (validity_field (ByBits bits.now))) }
    ensures kept { StaysInFront (W.written out.old) (W.written out.new) }
    ensures only { IsOkUnless result VortexError.OutOfMemory }
{
    let count = bytes_for(bits.len());
    put_number(out, 5, 4)?;
    put_bytes_key(out, 6, count)?;
    put_bits(out, bits)?;
    Ok(())
}

/// Returns the validity of `rows` rows at the front, and the bytes after it. Refused as
/// `BadMetadata` exactly where there is none, else only as `OutOfMemory`.
pub fn read_validity<A: Allocator + Copy>(
    alloc: A,
    bytes: &[u8],
    rows: usize,
) -> VortexResult<(Validity<A>, &[u8])>
    ensures found { IfOk result (λ r. bytes.now ≡ validity_field (form_of r.0) ++ r.1.now) }
    ensures counted { IfOk result (λ r. HasLength (form_of r.0) rows) }
    ensures bad { IsErrOf result VortexError.BadMetadata → HasNoValidity rows bytes.now }
    ensures only { IfErr result IsBadOrMemory }
{
    let Some((kind, rest)) = read_number(bytes, 5) else {
        return Err(VortexError::BadMetadata);
    };
    match kind {
        1 => Ok((Validity::NonNullable, rest)),
        2 => Ok((Validity::AllValid, rest)),
        3 => Ok((Validity::AllInvalid, rest)),
        4 => {
            let Some((content, after)) = read_bytes(rest, 6) else {
                return Err(VortexError::BadMetadata);
            };
            if content.len() != bytes_for(rows) {
                return Err(VortexError::BadMetadata);
            }
            let bits = load_bits(alloc, content, rows)?;
            Ok((Validity::Bits(bits), after))
        }
        _ => Err(VortexError::BadMetadata),
    }
}
