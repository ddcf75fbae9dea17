//! Bits that C passes as bytes.
ghost use Rattle.std.specs.Prelude.{◌≡◌, ◌↔◌, ◌/◌, ◌<◌, length, IfOk, IsOkUnless, IsTrue};
ghost use Rattle.column_base.specs.Validity.{form_of};
ghost use Rattle.column_base.specs.ValidityForm.{HasLength};
ghost use Rattle.column_core.specs.Refusal.{IsRefusedBy};
ghost use Rattle.c_columns.specs.Bits.{HasBits, bit_in, bits_fault, bits_in, validity_by, validity_fault};

use column_core::{BitBuffer, BitBufferMut, Validity, VortexError, VortexResult};
use std::alloc::Global;

/// Returns the validity of `count` rows, by `nulls`: 0 says that the type has no null; 1 that it has null and no row is
/// null; any other number that the bits from `first` on are the validity. Refused as `bits_of` is.
pub fn validity_of(
    alloc: Global,
    nulls: u8,
    bytes: &[u8],
    first: usize,
    count: usize,
) -> VortexResult<Validity<Global>>
    ensures validity { IfOk result (λ validity. form_of validity ≡ validity_by nulls bytes.now first count) }
    ensures counted { IfOk result (λ validity. HasLength (form_of validity) count) }
    ensures refused { IsRefusedBy (validity_fault nulls bytes.now first count) result }
{
    match nulls {
        0 => Ok(Validity::NonNullable),
        1 => Ok(Validity::AllValid),
        _ => Ok(Validity::Bits(bits_of(alloc, bytes, first, count)?)),
    }
}

/// Returns `count` bits of the bytes, from bit `first` on. Refused as `ColumnLength`, with the wanted number of bits
/// and the number of bytes, where there are fewer bits, or where their numbers go past 2^64 - 1.
pub fn bits_of(
    alloc: Global,
    bytes: &[u8],
    first: usize,
    count: usize,
) -> VortexResult<BitBuffer<Global>>
    ensures bits { IfOk result (λ bits. bits ≡ bits_in bytes.now first count) }
    ensures counted { IfOk result (λ bits. length bits ≡ count) }
    ensures refused { IsRefusedBy (bits_fault bytes.now first count) result }
{
    if !has_bits(bytes, first, count) {
        return Err(VortexError::ColumnLength {
            left: count,
            right: bytes.len(),
        });
    }
    copy_bits(alloc, bytes, first, count)
}

// `count` bits, all of which are there. Refused only for memory.
#[tactic(auto, using(crate::proofs::CountedRows::counted_bits))]
fn copy_bits(
    alloc: Global,
    bytes: &[u8],
    first: usize,
    count: usize,
) -> VortexResult<BitBuffer<Global>>
    requires { HasBits bytes.now first count }
    ensures bits { IfOk result (λ bits. bits ≡ bits_in bytes.now first count) }
    ensures counted { IfOk result (λ bits. length bits ≡ count) }
    ensures only { IsOkUnless result VortexError.OutOfMemory }
{
    let mut bits = BitBufferMut::with_capacity(alloc, count)?;
    for row in 0..count {
        bits.append(bit_of(bytes, first + row))?;
    }
    Ok(bits.freeze())
}

// Are there `count` bits from `first` on?
fn has_bits(bytes: &[u8], first: usize, count: usize) -> bool
    ensures { IsTrue result ↔ HasBits bytes.now first count }
{
    match first.checked_add(count) {
        Some(stop) => stop as u128 <= (bytes.len() as u128) * 8,
        None => false,
    }
}

// The bit at a place.
fn bit_of(bytes: &[u8], place: usize) -> bool
    requires { place / 8 < length bytes.now }
    ensures { result ≡ bit_in bytes.now place }
{
    (bytes[place / 8] >> (place % 8)) & 1 == 1
}
