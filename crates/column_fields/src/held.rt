//! What bytes hold, looked at where they lie.
ghost use Rattle.std.specs.Prelude.{◌≡◌, ◌*◌, length};
ghost use Rattle.std.specs.Bool.{OnTrue, OnFalse};
ghost use Rattle.column_fields.specs.BitBytes.{HasNoBits};
ghost use Rattle.column_fields.specs.Held.{HeldNumbers, HeldDecimals, AreHeldBits};
ghost use Rattle.column_fields.specs.NumberBytes.{size_of};

use crate::bit_bytes::{bytes_for, is_padded};
use crate::decimals::DECIMAL_SIZE;
use crate::numbers::size_of_type;
use column_base::PType;

/// Returns whether these are the bytes of that number of numbers of the type, as bytes of the right length are.
pub fn holds_values(ptype: PType, bytes: &[u8], count: usize) -> bool
    ensures yes { OnTrue result (HeldNumbers ptype count bytes.now) }
    ensures no { OnFalse result (¬ (length bytes.now ≡ count * size_of ptype)) }
{
    let Some(size) = count.checked_mul(size_of_type(ptype)) else {
        return false;
    };
    if bytes.len() != size {
        return false;
    }
    true
}

/// Returns whether these are the bytes of that number of decimals, as bytes of the right length are.
pub fn holds_decimals(bytes: &[u8], count: usize) -> bool
    ensures yes { OnTrue result (HeldDecimals count bytes.now) }
    ensures no { OnFalse result (¬ (length bytes.now ≡ count * 16)) }
{
    let Some(size) = count.checked_mul(DECIMAL_SIZE) else {
        return false;
    };
    if bytes.len() != size {
        return false;
    }
    true
}

/// Returns whether these are the bytes of that number of bits: the least number of bytes that hold them, with no bit
/// above them set.
pub fn holds_bits(bytes: &[u8], count: usize) -> bool
    ensures yes { OnTrue result (AreHeldBits count bytes.now) }
    ensures no { OnFalse result (HasNoBits count bytes.now) }
{
    if bytes.len() != bytes_for(count) {
        return false;
    }
    if !is_padded(bytes, count) {
        return false;
    }
    true
}
