//! Decimals as bytes.
ghost use Rattle.std.specs.Prelude.{◌≡◌, ◌*◌, ◌++◌, length, All, OnOk, IfOk, IsOkUnless, FitsSigned, vec_capacity};
ghost use Rattle.std.specs.Int.{w64, w128, to_le_bytes};
ghost use Rattle.column_fields.specs.DecimalBytes.{decimal_bytes, decimals_bytes};
ghost use Rattle.column_fields.specs.Kept.{StaysInFront};
ghost use Rattle.column_fields.specs.Room.{UsesRoom};

use bytes::BufMut;
use column_base::{VortexError, VortexResult};
use std::alloc::Allocator;

/// Counts the bytes of a decimal.
pub const DECIMAL_SIZE: usize = 16;

// What the upper half of a decimal counts by.
const WORD: u128 = 1 << 64;

/// Writes the integers of decimals at the end.
pub fn put_decimals<W: BufMut>(out: &mut W, numbers: &[i128]) -> VortexResult<()>
    ensures ok { OnOk result (W.written out.new ≡ W.written out.old ++ decimals_bytes numbers.now) }
    ensures room { UsesRoom result (W.spare out.old) (W.spare out.new) (length (decimals_bytes numbers.now)) }
    ensures fits { OnOk result (All (λ n. FitsSigned w128 n) numbers.now) }
    ensures kept { StaysInFront (W.written out.old) (W.written out.new) }
    ensures only { IsOkUnless result VortexError.OutOfMemory }
{
    out.reserve(numbers.len().saturating_mul(DECIMAL_SIZE))?;
    let mut rest = numbers;
    while rest.len() >= 4 {
        let (front, back) = rest.split_at(4);
        put_four(out, front)?;
        rest = back;
    }
    put_each(out, rest)
}

// Writes the integers of four decimals at the end, in one step.
fn put_four<W: BufMut>(out: &mut W, numbers: &[i128]) -> VortexResult<()>
    requires { length numbers.now ≡ 4 }
    ensures ok { OnOk result (W.written out.new ≡ W.written out.old ++ decimals_bytes numbers.now) }
    ensures room { UsesRoom result (W.spare out.old) (W.spare out.new) (length (decimals_bytes numbers.now)) }
    ensures fits { All (λ n. FitsSigned w128 n) numbers.now }
    ensures kept { StaysInFront (W.written out.old) (W.written out.new) }
    ensures only { IsOkUnless result VortexError.OutOfMemory }
{
    let (first_low, first_high) = words_of(numbers[0]);
    let (second_low, second_high) = words_of(numbers[1]);
    let (third_low, third_high) = words_of(numbers[2]);
    let (fourth_low, fourth_high) = words_of(numbers[3]);
    let bytes = [
        first_low.to_le_bytes(),
        first_high.to_le_bytes(),
        second_low.to_le_bytes(),
        second_high.to_le_bytes(),
        third_low.to_le_bytes(),
        third_high.to_le_bytes(),
        fourth_low.to_le_bytes(),
        fourth_high.to_le_bytes(),
    ];
    out.put_slice(bytes.as_flattened())?;
    Ok(())
}

// Writes the integers of decimals at the end, one by one.
fn put_each<W: BufMut>(out: &mut W, numbers: &[i128]) -> VortexResult<()>
    ensures ok { OnOk result (W.written out.new ≡ W.written out.old ++ decimals_bytes numbers.now) }
    ensures room { UsesRoom result (W.spare out.old) (W.spare out.new) (length (decimals_bytes numbers.now)) }
    ensures fits { OnOk result (All (λ n. FitsSigned w128 n) numbers.now) }
    ensures kept { StaysInFront (W.written out.old) (W.written out.new) }
    ensures only { IsOkUnless result VortexError.OutOfMemory }
{
    for number in numbers {
        put_decimal(out, *number)?;
    }
    Ok(())
}

/// Writes the integer of one decimal at the end.
pub fn put_decimal<W: BufMut>(out: &mut W, number: i128) -> VortexResult<()>
    ensures ok { OnOk result (W.written out.new ≡ W.written out.old ++ decimal_bytes number) }
    ensures room { UsesRoom result (W.spare out.old) (W.spare out.new) (length (decimal_bytes number)) }
    ensures fits { FitsSigned w128 number }
    ensures kept { StaysInFront (W.written out.old) (W.written out.new) }
    ensures only { IsOkUnless result VortexError.OutOfMemory }
{
    let (low, high) = words_of(number);
    let bytes = [low.to_le_bytes(), high.to_le_bytes()];
    out.put_slice(bytes.as_flattened())?;
    Ok(())
}

// The lower and the upper word of the integer of a decimal.
fn words_of(number: i128) -> (u64, u64)
    ensures { to_le_bytes w64 result.0 ++ to_le_bytes w64 result.1 ≡ decimal_bytes number }
{
    let unsigned = number.cast_unsigned();
    ((unsigned % WORD) as u64, (unsigned / WORD) as u64)
}

/// Returns the integers of the `count` decimals that these bytes hold. Takes memory only for them.
pub fn load_decimals<A: Allocator>(
    alloc: A,
    bytes: &[u8],
    count: usize,
) -> VortexResult<Vec<i128, A>>
    requires { length bytes.now ≡ count * 16 }
    ensures shows { IfOk result (λ v. decimals_bytes v.items ≡ bytes.now) }
    ensures counted { IfOk result (λ v. length v.items ≡ count) }
    ensures fits { IfOk result (λ v. All (λ n. FitsSigned w128 n) v.items) }
    ensures memory { IfOk result (λ v. vec_capacity v ≡ count) }
    ensures only { IsOkUnless result VortexError.OutOfMemory }
{
    let mut numbers = Vec::with_capacity(alloc, count)?;
    let mut rest = bytes;
    for _row in 0..count {
        let (front, back) = rest.split_at(DECIMAL_SIZE);
        numbers.push_reserved(load_decimal(front));
        rest = back;
    }
    Ok(numbers)
}

/// Returns the integer of the decimal that these bytes hold.
pub fn load_decimal(bytes: &[u8]) -> i128
    requires { length bytes.now ≡ 16 }
    ensures shows { decimal_bytes result ≡ bytes.now }
    ensures fits { FitsSigned w128 result }
{
    let (front, back) = bytes.split_at(8);
    let (low, high) = (load_word(front), load_word(back));
    (u128::from(high) * WORD + u128::from(low)).cast_signed()
}

// The number that these bytes hold, the lowest first.
pub(crate) fn load_word(bytes: &[u8]) -> u64
    requires { length bytes.now ≡ 8 }
    ensures { to_le_bytes w64 result ≡ bytes.now }
{
    u64::from_le_bytes([
        bytes[0], bytes[1], bytes[2], bytes[3], bytes[4], bytes[5], bytes[6], bytes[7],
    ])
}
