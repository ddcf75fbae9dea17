//! Bytes as words: two hexadecimal digits for each.
ghost use Rattle.std.specs.Prelude.{◌≡◌, ◌↔◌, ◌++◌, [], ◌∷◌, Ok, IfOk, IfSome, IsOkUnless, IsSome, OnErr, OnOk};
ghost use Rattle.std.specs.Iterator.{IsFinite};
ghost use Rattle.std.specs.String.{string_bytes};
ghost use Rattle.hex.specs.Hex.{decode_of, encode_upper};
ghost use Rattle.column_words.specs.Bytes.{IsByteWord, byte_words};
ghost use Rattle.column_words.specs.Refusals.{behind_spaces};

use column_base::{VortexError, VortexResult};
use hex::FromHex;
use std::alloc::{AllocError, Allocator};

/// Returns the bytes that the words mean, or `None` where a word does not mean a byte. Refused only as `OutOfMemory`.
pub fn parse_bytes<'a, I: Iterator<Item = &'a str> + Drop, A: Allocator + Copy>(
    alloc: A,
    words: I,
) -> VortexResult<Option<Vec<u8, A>>>
    requires can { I.can_next words }
    requires finite { IsFinite (I.remaining words) }
    ensures only { IsOkUnless result VortexError.OutOfMemory }
{
    let mut bytes = Vec::new(alloc);
    for word in words {
        let Some(byte) = parse_byte(word) else {
            return Ok(None);
        };
        bytes.push(byte)?;
    }
    Ok(Some(bytes))
}

/// Returns the byte of a word of two hexadecimal digits of either case, or `None` where the word is anything else.
pub fn parse_byte(word: &str) -> Option<u8>
    ensures byte { IfSome result (λ byte. decode_of word.now ≡ Ok (byte ∷ [])) }
    ensures found { IsSome result ↔ IsByteWord word.now }
{
    Some(decode_byte(word)?[0])
}

fn decode_byte(word: &str) -> Option<[u8; 1]>
    ensures byte { IfSome result (λ bytes. decode_of word.now ≡ Ok bytes) }
    ensures found { IsSome result ↔ IsByteWord word.now }
{
    <[u8; 1] as FromHex>::from_hex(word).ok()
}

/// Appends the bytes to the text, each as two upper case hexadecimal digits after a space. Where memory is refused, the
/// text stays as it was.
pub fn push_bytes<A: Allocator + Copy>(text: &mut String<A>, bytes: &[u8]) -> Result<(), AllocError>
    ensures written { OnOk result (string_bytes text.new ≡
        string_bytes text.old ++ behind_spaces (byte_words bytes.now)) }
    ensures kept { OnErr result (string_bytes text.new ≡ string_bytes text.old) }
{
    let words = words_of_bytes(*text.allocator(), bytes)?;
    text.push_str(words.as_str())
}

// Returns the words of the bytes, each after a space.
fn words_of_bytes<A: Allocator + Copy>(alloc: A, bytes: &[u8]) -> Result<String<A>, AllocError>
    ensures { IfOk result (λ words. string_bytes words ≡ behind_spaces (byte_words bytes.now)) }
{
    let mut words = String::new(alloc);
    for byte in bytes {
        words.push_str(" ")?;
        push_byte(&mut words, *byte)?;
    }
    Ok(words)
}

/// Appends two upper case hexadecimal digits of the byte to the text. Where memory is refused, the text stays as it
/// was.
pub fn push_byte<A: Allocator + Copy>(text: &mut String<A>, byte: u8) -> Result<(), AllocError>
    ensures written { OnOk result (string_bytes text.new ≡ string_bytes text.old ++ encode_upper (byte ∷ [])) }
    ensures kept { OnErr result (string_bytes text.new ≡ string_bytes text.old) }
{
    let digits = digits_of_byte(*text.allocator(), byte)?;
    text.push_str(digits.as_str())
}

fn digits_of_byte<A: Allocator + Copy>(alloc: A, byte: u8) -> Result<String<A>, AllocError>
    ensures { IfOk result (λ digits. string_bytes digits ≡ encode_upper (byte ∷ [])) }
{
    format!(in alloc; "{byte:02X}")
}
