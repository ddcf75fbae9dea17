//! Varints: a number as bytes of seven bits each, the lowest first.
ghost use Rattle.std.specs.Prelude.{◌≡◌, ◌++◌, ◌+◌, ◌*◌, ◌^◌, ◌<◌, ◌≤◌, ◌∷◌, [], IfSome, IfNone, vec_len, vec_capacity};
ghost use Rattle.column_fields.specs.Spelling.{Begins, BeginsWithNone, Appends, HasLength, FitsBehind};
ghost use Rattle.column_fields.specs.Varint.{IsVarint, IsShortestVarint, varint, BeginsWithNoShortest};

use std::alloc::Allocator;

/// Gives the place of the only bit of a tenth byte that fits 64 bits.
const LAST_SHIFT: u32 = 63;

/// Returns the varint at the front, and the bytes after it.
pub fn read_varint(bytes: &[u8]) -> Option<(u64, &[u8])>
    ensures found { IfSome result (λ r. Begins IsVarint bytes.now r.0 r.1.now) }
    ensures none { IfNone result (BeginsWithNone IsVarint bytes.now) }
{
    let mut rest = bytes;
    let mut value = 0;
    let mut shift = 0;
    while shift < LAST_SHIFT {
        let (byte, after) = first_byte(rest)?;
        value = with_bits(value, byte % 128, shift);
        if byte < 128 {
            return Some((value, after));
        }
        rest = after;
        shift += 7;
    }
    let (last, after) = first_byte(rest)?;
    if last > 1 {
        return None;
    }
    Some((with_bits(value, last, LAST_SHIFT), after))
}

/// Returns the first byte, and the bytes after it.
fn first_byte(bytes: &[u8]) -> Option<(u8, &[u8])>
    ensures found { IfSome result (λ r. bytes.now ≡ r.0 ∷ r.1.now) }
    ensures none { IfNone result (bytes.now ≡ []) }
{
    let (first, rest) = bytes.split_first()?;
    Some((*first, rest))
}

/// Returns the number with further bits above those that it has.
#[tactic(auto, using(crate::proofs::VarintReading::shifted_whole))]
fn with_bits(value: u64, bits: u8, shift: u32) -> u64
    requires in_range { shift < 64 }
    requires fits { value + bits * 2 ^ shift < 2 ^ 64 }
    ensures { result ≡ value + bits * 2 ^ shift }
{
    value + (u64::from(bits) << shift)
}

/// Returns the shortest varint at the front, and the bytes after it. A varint with more bytes than its number needs is
/// none.
pub fn read_shortest(bytes: &[u8]) -> Option<(u64, &[u8])>
    ensures found { IfSome result (λ r. bytes.now ≡ varint r.0 ++ r.1.now) }
    ensures small { IfSome result (λ r. r.0 < 2 ^ 64) }
    ensures none { IfNone result (BeginsWithNoShortest bytes.now) }
{
    let (number, rest) = read_varint(bytes)?;
    let count = varint_len(number);
    if rest.len() + count != bytes.len() {
        return None;
    }
    Some((number, rest))
}

/// Returns how many bytes the shortest varint of a number has.
pub fn varint_len(n: u64) -> usize
    ensures exact { HasLength IsShortestVarint n result }
    ensures most { result ≤ 10 }
{
    let mut len = 1;
    let mut rest = n;
    while rest >= 128 {
        len += 1;
        rest /= 128;
    }
    len
}

/// Writes the shortest varint of a number at the end, where there is room for it.
pub fn push_varint<A: Allocator>(out: &mut Vec<u8, A>, n: u64)
    requires room { FitsBehind IsShortestVarint (vec_len out.old) (vec_capacity out.old) n }
    ensures written { Appends IsShortestVarint out.old.items n out.new.items }
    ensures capacity { vec_capacity out.new ≡ vec_capacity out.old }
{
    let mut rest = n;
    while rest >= 128 {
        out.push_reserved((rest % 128 + 128) as u8);
        rest /= 128;
    }
    out.push_reserved(rest as u8);
}
