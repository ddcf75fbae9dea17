//! How many bytes the fields of a message have, counted without writing them.
ghost use Rattle.std.specs.Prelude.{◌≡◌, ◌+◌, ◌*◌, ◌^◌, ◌<◌, ◌≤◌, ◌++◌, length, IfOk, IfErr};
ghost use Rattle.column_base.specs.Validity.{form_of};
ghost use Rattle.column_base.specs.ValidityForm.{ByBits};
ghost use Rattle.column_fields.specs.DecimalFields.{decimal_type, IsDecimalType};
ghost use Rattle.column_fields.specs.Field.{number_field};
ghost use Rattle.column_fields.specs.Header.{header_bytes};
ghost use Rattle.column_fields.specs.Sizes.{IsPast};
ghost use Rattle.column_fields.specs.Validity.{validity_field};
ghost use Rattle.column_fields.specs.Varint.{varint};

use crate::bit_bytes::bytes_for;
use crate::decimal_fields::number_of_scale;
use crate::header::Header;
use column_base::{BitBuffer, DecimalDType, Validity, VortexError, VortexResult};
use std::alloc::Allocator;

/// Returns a number of bytes as a `usize`. Refused as `OutOfMemory` exactly where it does not fit, since no memory has
/// as many bytes.
pub fn size_of_total(total: u128) -> VortexResult<usize>
    ensures size { IfOk result (λ size. size ≡ total) }
    ensures past { IfErr result (λ error. IsPast total error) }
{
    match usize::try_from(total) {
        Ok(size) => Ok(size),
        Err(_) => Err(VortexError::OutOfMemory),
    }
}

/// Returns how many bytes the shortest varint of a number has.
#[inline(always)]
pub fn varint_size(number: u64) -> usize
    ensures size { result ≡ length (varint number) }
    ensures most { result ≤ 10 }
{
    let bits = 64 - number.leading_zeros();
    // One for each seven bits, and one for none: up to 64 bits that is this, which divides by nothing.
    ((bits * 9 + 64) / 64) as usize
}

/// Returns how many bytes a field with a number has.
pub fn number_size(field: u64, number: u64) -> usize
    requires { field < 32 }
    ensures size { result ≡ length (number_field field number) }
    ensures most { result ≤ 20 }
{
    varint_size(field * 8) + varint_size(number)
}

/// Returns how many bytes the key and the length of a field of `count` bytes have.
pub fn bytes_key_size(field: u64, count: usize) -> usize
    requires { field < 32 }
    ensures size { result ≡ length (varint (field * 8 + 2) ++ varint count) }
    ensures most { result ≤ 20 }
{
    varint_size(field * 8 + 2) + varint_size(count as u64)
}

/// Returns how many bytes a header has.
pub fn header_size(stated: Header) -> usize
    ensures size { result ≡ length (header_bytes stated.kind stated.form stated.rows) }
    ensures most { result ≤ 80 }
{
    number_size(1, 1)
        + number_size(2, stated.kind)
        + number_size(3, stated.form)
        + number_size(4, stated.rows)
}

/// Returns how many bytes the fields have that say which rows are null.
#[tactic(auto, unfolding(crate::specs::Validity::validity_field))]
pub fn validity_size<A: Allocator>(validity: &Validity<A>) -> usize
    ensures size { result ≡ length (validity_field (form_of validity.now)) }
    ensures most { result ≤ 2 ^ 62 }
{
    match validity {
        Validity::NonNullable => number_size(5, 1),
        Validity::AllValid => number_size(5, 2),
        Validity::AllInvalid => number_size(5, 3),
        Validity::Bits(bits) => bit_validity_size(bits),
    }
}

/// Returns how many bytes these fields have for a validity in bits.
pub fn bit_validity_size<A: Allocator>(bits: &BitBuffer<A>) -> usize
    ensures size { result ≡ length (validity_field (ByBits bits.now)) }
    ensures most { result ≤ 2 ^ 62 }
{
    let count = bytes_for(bits.len());
    number_size(5, 4) + bytes_key_size(6, count) + count
}

/// Returns how many bytes the precision and the scale have.
pub fn decimal_type_size(decimal: DecimalDType) -> usize
    ensures size { result ≡ length (decimal_type decimal) }
    ensures typed { IsDecimalType decimal }
    ensures most { result ≤ 40 }
{
    number_size(14, u64::from(decimal.precision)) + number_size(15, number_of_scale(decimal.scale))
}
