//! Floats as words: a name, their bits in hexadecimal digits, or a decimal.
ghost use Rattle.std.specs.Prelude.{◌≡◌, ◌≢◌, ◌↔◌, ◌++◌, ℕ, List, IfSome, IsTrue, MatchOption, OnErr, OnOk, from_bits};
ghost use Rattle.std.specs.Float.{binary32, binary64};
ghost use Rattle.std.specs.List.{AllPass};
ghost use Rattle.std.specs.String.{string_bytes};
ghost use Rattle.float_bits.specs.declared.formats.FloatFormat.{FloatFormat};
ghost use Rattle.float_bits.specs.Format.{IsPattern};
ghost use Rattle.column_words.specs.Floats.{AreDigitsOf, IsDecimalWord, IsFloatText, IsFloatWord, IsNearestFloat, IsNumberText, IsWrittenFloat, format_name, is_decimal_byte, nearest_bits};

use float_bits::{FloatFormat, is_nan, round_float};
use ryu::Buffer;
use std::alloc::{AllocError, Allocator};
use std::num::{
    f32_from_bits_with_nan, f32_to_bits_with_nan, f64_from_bits_with_nan, f64_to_bits_with_nan,
};

/// Returns the format of floats that a word names, as `f64`.
pub fn parse_format(word: &str) -> Option<FloatFormat>
    ensures { MatchOption result ((format : FloatFormat) → word.now ≢ format_name format)
        (λ format. word.now ≡ format_name format) }
{
    match word {
        "f16" => Some(FloatFormat::F16),
        "f32" => Some(FloatFormat::F32),
        "f64" => Some(FloatFormat::F64),
        _ => None,
    }
}

/// Returns the bits of the float of this format that a word means, or `None` where it means none: `nan` for the quiet
/// NaN with a plus and no payload, `inf`, `-inf`, the bits themselves in hexadecimal digits after `0x`, or a
/// decimal for the nearest float, at a tie the even one. For 16 bits that is the nearest to the nearest of 64 bits.
pub fn parse_float(format: FloatFormat, word: &str) -> Option<u64>
    ensures float { MatchOption result ((bits : ℕ) → ¬ IsFloatWord format word.now bits)
        (IsFloatWord format word.now) }
    ensures pattern { IfSome result (IsPattern format) }
{
    match word {
        "nan" => Some(format.quiet_nan()),
        "inf" => Some(format.infinity()),
        "-inf" => Some(format.sign_bit() + format.infinity()),
        _ => match word.strip_prefix("0x") {
            Some(digits) => parse_bits_of(format, digits),
            None => parse_decimal(format, word),
        },
    }
}

// Returns the bits that these hexadecimal digits write, where the format has as many.
fn parse_bits_of(format: FloatFormat, digits: &str) -> Option<u64>
    ensures { MatchOption result ((bits : ℕ) → ¬ AreDigitsOf format digits.now bits)
        (AreDigitsOf format digits.now) }
{
    // The library's numbers may have a plus before them, and these may not.
    if digits.starts_with('+') {
        return None;
    }
    let bits = u64::from_str_radix(digits, 16).ok()?;
    if bits / 2 < format.sign_bit() {
        Some(bits)
    } else {
        None
    }
}

// Returns the bits of the float that is nearest to a decimal.
fn parse_decimal(format: FloatFormat, word: &str) -> Option<u64>
    ensures float { MatchOption result ((bits : ℕ) → ¬ IsDecimalWord format word.now bits)
        (IsDecimalWord format word.now) }
    ensures pattern { IfSome result (IsPattern format) }
{
    // The library's decimals may have a plus before them or be words, and these may not.
    if !is_decimal(word) {
        return None;
    }
    nearest_float(format, word)
}

// Returns whether each byte of a word may be in a decimal.
#[tactic(auto, using(crate::proofs::FloatWords::none_taken, crate::proofs::FloatWords::one_taken, crate::proofs::FloatWords::all_taken, crate::proofs::FloatWords::not_taken))]
fn is_decimal(word: &str) -> bool
    ensures { IsTrue result ↔ AllPass is_decimal_byte word.now }
{
    for byte in word.as_bytes() {
        if !may_be_in_decimal(*byte) {
            return false;
        }
    }
    true
}

fn may_be_in_decimal(byte: u8) -> bool
    ensures { result ≡ is_decimal_byte byte }
{
    byte.is_ascii_digit() || matches!(byte, b'-' | b'.' | b'e')
}

// Returns the bits of the float that is nearest to the number that a text writes.
fn nearest_float(format: FloatFormat, text: &str) -> Option<u64>
    ensures float { MatchOption result ((bits : ℕ) → ¬ IsNearestFloat format text.now bits)
        (IsNearestFloat format text.now) }
    ensures pattern { IfSome result (IsPattern format) }
{
    match format {
        FloatFormat::F16 => {
            Some(round_float(FloatFormat::F64, FloatFormat::F16, nearest_double(text)?))
        }
        FloatFormat::F32 => nearest_single(text),
        FloatFormat::F64 => nearest_double(text),
    }
}

fn nearest_single(text: &str) -> Option<u64>
    ensures float { result ≡ nearest_bits binary32 text.now }
    ensures pattern { IfSome result (IsPattern FloatFormat.F32) }
{
    let number: f32 = fast_float::parse(text).ok()?;
    Some(u64::from(f32_to_bits_with_nan(number)))
}

fn nearest_double(text: &str) -> Option<u64>
    ensures { result ≡ nearest_bits binary64 text.now }
{
    let number: f64 = fast_float::parse(text).ok()?;
    Some(f64_to_bits_with_nan(number))
}

/// Appends the word of the float with these bits to the text: the bits of a NaN; `inf`, `-inf` or, for any other float,
/// a decimal that reads back as the same float, which was the shortest one in all that was tried. A float of 16 bits
/// has the word of the same float of 32 bits. Where memory is refused, the text stays as it was.
pub fn push_float<A: Allocator + Copy>(
    text: &mut String<A>,
    format: FloatFormat,
    bits: u64,
) -> Result<(), AllocError>
    ensures written { OnOk result ((word : List ℕ) × (string_bytes text.new ≡ string_bytes text.old ++ word) ×
        IsWrittenFloat format bits word) }
    ensures kept { OnErr result (string_bytes text.new ≡ string_bytes text.old) }
{
    if is_nan(format, bits) {
        let word = format!(in *text.allocator(); "0x{bits:x}")?;
        return text.push_str(word.as_str());
    }
    push_number(text, format, bits)
}

// Puts the word of a float that is not a NaN right after the text, from the bits that the format has.
fn push_number<A: Allocator + Copy>(
    text: &mut String<A>,
    format: FloatFormat,
    bits: u64,
) -> Result<(), AllocError>
    ensures written { OnOk result ((word : List ℕ) × (string_bytes text.new ≡ string_bytes text.old ++ word) ×
        IsFloatText format bits word) }
    ensures kept { OnErr result (string_bytes text.new ≡ string_bytes text.old) }
{
    match format {
        FloatFormat::F16 => {
            let single = round_float(FloatFormat::F16, FloatFormat::F32, bits % (1 << 16));
            push_single(text, single as u32)
        }
        FloatFormat::F32 => push_single(text, (bits % (1 << 32)) as u32),
        FloatFormat::F64 => push_double(text, bits),
    }
}

fn push_single<A: Allocator + Copy>(text: &mut String<A>, bits: u32) -> Result<(), AllocError>
    ensures written { OnOk result ((word : List ℕ) × (string_bytes text.new ≡ string_bytes text.old ++ word) ×
        IsNumberText binary32 13 5 (from_bits binary32 bits) word) }
    ensures kept { OnErr result (string_bytes text.new ≡ string_bytes text.old) }
{
    text.push_str(Buffer::new().format(f32_from_bits_with_nan(bits)))
}

fn push_double<A: Allocator + Copy>(text: &mut String<A>, bits: u64) -> Result<(), AllocError>
    ensures written { OnOk result ((word : List ℕ) × (string_bytes text.new ≡ string_bytes text.old ++ word) ×
        IsNumberText binary64 16 4 (from_bits binary64 bits) word) }
    ensures kept { OnErr result (string_bytes text.new ≡ string_bytes text.old) }
{
    text.push_str(Buffer::new().format(f64_from_bits_with_nan(bits)))
}
