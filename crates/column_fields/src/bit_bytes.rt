//! Bits as bytes.
ghost use Rattle.std.specs.Prelude.{◌↔◌, IsTrue, ◌≡◌, ◌+◌, ◌-◌, ◌*◌, ◌/◌, ◌^◌, ◌<◌, ◌≤◌, ◌++◌, length, replicate, OnOk, IfOk, IsOkUnless, IsErrOf, IfErr};
ghost use Rattle.std.specs.Int.{w64, to_le_bytes};
ghost use Rattle.column_fields.specs.BitBytes.{bit_bytes, words_bytes, IsPadded, HasNoBits};
ghost use Rattle.column_fields.specs.Kept.{StaysInFront};
ghost use Rattle.column_fields.specs.Room.{UsesRoom};
ghost use Rattle.column_fields.specs.Refusal.{IsBadOrMemory};

use crate::decimals::load_word;
use crate::numbers::put_all;
use bytes::BufMut;
use column_base::{BitBuffer, BitBufferMut, VortexError, VortexResult};
use std::alloc::Allocator;

/// Returns the least number of bytes that hold `count` bits.
pub fn bytes_for(count: usize) -> usize
    ensures { result ≡ (count + 7) / 8 }
{
    if count % 8 == 0 {
        count / 8
    } else {
        count / 8 + 1
    }
}

/// Writes the bits at the end. Refused only as `OutOfMemory`.
pub fn put_bits<A: Allocator, W: BufMut>(out: &mut W, bits: &BitBuffer<A>) -> VortexResult<()>
    ensures ok { OnOk result (W.written out.new ≡ W.written out.old ++ bit_bytes bits.now) }
    ensures room { UsesRoom result (W.spare out.old) (W.spare out.new) (length (bit_bytes bits.now)) }
    ensures kept { StaysInFront (W.written out.old) (W.written out.new) }
    ensures only { IsOkUnless result VortexError.OutOfMemory }
{
    let Some((last, whole)) = bits.words().split_last() else {
        return Ok(());
    };
    put_words(out, whole)?;
    // The last word may have bytes above the last bit, which do not belong to the message.
    let left = bytes_for(bits.len()) - whole.len() * 8;
    out.put_slice(&last.to_le_bytes()[..left])?;
    Ok(())
}

// Writes words at the end.
fn put_words<W: BufMut>(out: &mut W, words: &[u64]) -> VortexResult<()>
    ensures ok { OnOk result (W.written out.new ≡ W.written out.old ++ words_bytes words.now) }
    ensures room { UsesRoom result (W.spare out.old) (W.spare out.new) (length (words_bytes words.now)) }
    ensures kept { StaysInFront (W.written out.old) (W.written out.new) }
    ensures only { IsOkUnless result VortexError.OutOfMemory }
{
    put_all(out, words)
}

/// Returns the `count` bits that these bytes hold. Takes memory only for them. Refused as
/// `BadMetadata` where a bit after the last of them is set, else only as `OutOfMemory`.
pub fn load_bits<A: Allocator + Copy>(
    alloc: A,
    bytes: &[u8],
    count: usize,
) -> VortexResult<BitBuffer<A>>
    requires { length bytes.now ≡ (count + 7) / 8 }
    ensures shows { IfOk result (λ bits. bit_bytes bits ≡ bytes.now) }
    ensures counted { IfOk result (λ bits. length bits ≡ count) }
    ensures bad { IsErrOf result VortexError.BadMetadata → HasNoBits count bytes.now }
    ensures only { IfErr result IsBadOrMemory }
{
    if !is_padded(bytes, count) {
        return Err(VortexError::BadMetadata);
    }
    let words = load_words(alloc, bytes)?;
    Ok(BitBufferMut::from_words(words, count).freeze())
}

// Is each bit above the first ones 0? Only the last byte has such bits.
pub(crate) fn is_padded(bytes: &[u8], count: usize) -> bool
    requires { length bytes.now ≡ (count + 7) / 8 }
    ensures { IsTrue result ↔ IsPadded count bytes.now }
{
    let used = count % 8;
    if used == 0 {
        return true;
    }
    let last = bytes[bytes.len() - 1];
    u32::from(last) < limit_of(used)
}

// The first number with more than `count` bits.
#[tactic(auto, using(std::proofs::lemmas::Nat::one_shl))]
fn limit_of(count: usize) -> u32
    requires { count ≤ 8 }
    ensures { result ≡ 2 ^ count }
{
    1 << count
}

// The words that these bytes hold, with 0 above the last byte.
fn load_words<A: Allocator>(alloc: A, bytes: &[u8]) -> VortexResult<Vec<u64, A>>
    ensures shows { IfOk result
        (λ v. words_bytes v.items ≡ bytes.now ++ replicate (length v.items * 8 - length bytes.now) 0) }
    ensures counted { IfOk result (λ v. length v.items ≡ (length bytes.now + 7) / 8) }
    ensures only { IsOkUnless result VortexError.OutOfMemory }
{
    let mut words = Vec::with_capacity(alloc, bytes.len().div_ceil(8))?;
    let mut rest = bytes;
    while rest.len() >= 8 {
        let (front, back) = rest.split_at(8);
        words.push_reserved(load_word(front));
        rest = back;
    }
    if !rest.is_empty() {
        words.push_reserved(last_word(rest));
    }
    Ok(words)
}

// The word of fewer than eight bytes, with 0 above them.
fn last_word(bytes: &[u8]) -> u64
    requires { length bytes.now < 8 }
    ensures { to_le_bytes w64 result ≡ bytes.now ++ replicate (8 - length bytes.now) 0 }
{
    let mut word = [0; 8];
    word[..bytes.len()].copy_from_slice(bytes);
    load_word(&word)
}
