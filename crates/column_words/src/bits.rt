//! Bits as words: a digit 0 or 1 for each.
ghost use Rattle.std.specs.Prelude.{◌≡◌, ◌↔◌, false, IfOk, IfSome, IsOkUnless, IsSome, MatchOption};
ghost use Rattle.column_words.specs.Bits.{IsBitWord, bit_digit, bit_word, is_bit_digit};

use column_base::{BitBuffer, BitBufferMut, VortexError, VortexResult};
use std::alloc::Allocator;

/// Returns the bits of the word: one for each `0` or `1`, true where it is `1`. `None` where a byte is neither. Refused
/// only as `OutOfMemory`.
pub fn parse_bits<A: Allocator + Copy>(alloc: A, word: &str) -> VortexResult<Option<BitBuffer<A>>>
    ensures only { IsOkUnless result VortexError.OutOfMemory }
    ensures bits { IfOk result (λ read. IfSome read (λ bits. bit_word bits ≡ word.now)) }
    ensures found { IfOk result (λ read. IsSome read ↔ IsBitWord word.now) }
{
    let mut bits = BitBufferMut::with_capacity(alloc, word.len())?;
    for byte in word.as_bytes() {
        let Some(bit) = bit_of(*byte) else {
            return Ok(None);
        };
        bits.append(bit)?;
    }
    Ok(Some(bits.freeze()))
}

// The bit whose digit the byte is, where it is one.
fn bit_of(byte: u8) -> Option<bool>
    ensures { MatchOption result (is_bit_digit byte ≡ false) (λ bit. byte ≡ bit_digit bit) }
{
    match byte {
        b'0' => Some(false),
        b'1' => Some(true),
        _ => None,
    }
}
