//! Ends of runs, read from the lengths of these.
ghost use Rattle.std.specs.Prelude.{◌≡◌, ◌++◌, ◌+◌, ◌-◌, ◌^◌, ◌<◌, ◌≤◌, All, IsTrue, length, map, drop, pos, unsigned_abs, true, false, vec_len, vec_capacity, IfOk, IfErr, IfSome, IfNone, IsErrOf};
ghost use Rattle.column_base.specs.Number.{Narrows};
ghost use Rattle.column_base.specs.Numbers.{numbers, ptype_of};
ghost use Rattle.column_base.specs.Types.{HasNumber};
ghost use Rattle.column_fields.specs.Lengths.{lengths_bytes, lengths_from, Rises, AreEndsOf, HasNoEndsOf, BeginsWithLength};
ghost use Rattle.column_fields.specs.Refusal.{IsBadOrMemory};
ghost use Rattle.column_fields.specs.Varint.{varint, BeginsWithNoShortest};

use crate::stored::StoredEnd;
use crate::varint::read_shortest;
use column_base::{PType, PrimitiveValues, VortexError, VortexResult};
use std::alloc::Allocator;

// The highest bit of each byte of a word, and all others.
const HIGH_BITS: u64 = 0x8080_8080_8080_8080;

const LOW_BITS: u64 = !HIGH_BITS;

/// Returns the ends, of that type, of runs with these lengths: each run but the first has a row. Refused as
/// `BadMetadata` exactly where no ends of the type have these lengths, as for every signed type, else only as
/// `OutOfMemory`. Takes memory for as many ends as there are bytes.
pub fn load_ends<A: Allocator + Copy>(
    alloc: A,
    ptype: PType,
    bytes: &[u8],
) -> VortexResult<PrimitiveValues<A>>
    ensures typed { IfOk result (λ v. ptype_of v ≡ ptype) }
    ensures found { IfOk result (λ v. bytes.now ≡ lengths_bytes 0 (map unsigned_abs (numbers v))) }
    ensures rises { IfOk result (λ v. Rises true 0 (map unsigned_abs (numbers v))) }
    ensures fit { IfOk result (λ v. AreEndsOf ptype (map unsigned_abs (numbers v))) }
    ensures bad { IsErrOf result VortexError.BadMetadata → HasNoEndsOf ptype bytes.now }
    ensures only { IfErr result IsBadOrMemory }
{
    match ptype {
        PType::U8 => load_as::<u8, A>(alloc, bytes),
        PType::U16 => load_as::<u16, A>(alloc, bytes),
        PType::U32 => load_as::<u32, A>(alloc, bytes),
        PType::U64 => load_as::<u64, A>(alloc, bytes),
        _ => Err(VortexError::BadMetadata),
    }
}

fn load_as<E: StoredEnd, A: Allocator + Copy>(
    alloc: A,
    bytes: &[u8],
) -> VortexResult<PrimitiveValues<A>>
    ensures typed { IfOk result (λ v. ptype_of v ≡ E.PTYPE) }
    ensures found { IfOk result (λ v. bytes.now ≡ lengths_bytes 0 (map unsigned_abs (numbers v))) }
    ensures rises { IfOk result (λ v. Rises true 0 (map unsigned_abs (numbers v))) }
    ensures fit { IfOk result (λ v. AreEndsOf E.PTYPE (map unsigned_abs (numbers v))) }
    ensures bad { IsErrOf result VortexError.BadMetadata → HasNoEndsOf E.PTYPE bytes.now }
    ensures only { IfErr result IsBadOrMemory }
{
    match load_all::<E, A>(alloc, bytes) {
        Ok(ends) => Ok(E::wrap(ends)),
        Err(error) => Err(error),
    }
}

// The ends of runs with these lengths: eight in one step where each length has one byte, four where each has one or
// two.
fn load_all<E: StoredEnd, A: Allocator>(alloc: A, bytes: &[u8]) -> VortexResult<Vec<E, A>>
    ensures found { IfOk result (λ v. bytes.now ≡ lengths_bytes 0 (map E.natural v.items)) }
    ensures rises { IfOk result (λ v. Rises true 0 (map E.natural v.items)) }
    ensures fit { IfOk result (λ v. AreEndsOf E.PTYPE (map E.natural v.items)) }
    ensures memory { IfOk result (λ v. vec_capacity v ≤ length bytes.now) }
    ensures bad { IsErrOf result VortexError.BadMetadata → HasNoEndsOf E.PTYPE bytes.now }
    ensures only { IfErr result IsBadOrMemory }
{
    let mut ends = Vec::with_capacity(alloc, bytes.len())?;
    let mut rest = bytes;
    let mut start = 0;
    let mut first = true;
    while !rest.is_empty() {
        if let Some(eight) = eight_ends::<E>(start, rest) {
            push_all(&mut ends, &eight);
            let (_lengths, after) = rest.split_at(8);
            rest = after;
            start = eight[7];
            first = false;
            continue;
        }
        if let Some(read) = four_ends::<E>(start, rest) {
            let four = read.0;
            push_all(&mut ends, &four);
            rest = read.1;
            start = four[3];
            first = false;
            continue;
        }
        let Some((length, after)) = read_length(rest) else {
            return Err(VortexError::BadMetadata);
        };
        if !first && length == 0 {
            return Err(VortexError::BadMetadata);
        }
        let Some(item) = end_behind::<E>(start, length) else {
            return Err(VortexError::BadMetadata);
        };
        let end = item.end();
        ends.push_reserved(item);
        rest = after;
        start = end;
        first = false;
    }
    // Lengths of more than one byte left room.
    ends.shrink_to_fit();
    Ok(ends)
}

// The ends of eight runs that begin there, where each of the first eight lengths is one byte and none is 0, and where
// the type has the last of these ends: it has all then.
#[inline(always)]
fn eight_ends<E: StoredEnd>(start: u64, bytes: &[u8]) -> Option<[u64; 8]>
    ensures found { IfSome result (λ ends. bytes.now ≡ lengths_bytes start ends ++ drop 8 bytes.now) }
    ensures rises { IfSome result (λ ends. Rises false start ends) }
    ensures fit { IfSome result (λ ends. All (λ end. HasNumber E.PTYPE (pos end)) ends) }
    ensures counted { IfSome result (λ ends. length ends ≡ 8) }
    ensures enough { IfSome result (λ ends. 8 ≤ length bytes.now) }
{
    let lengths = bytes.first_chunk::<8>()?;
    if !are_short(lengths) {
        return None;
    }
    let sums = running_sums(lengths);
    let last = start.checked_add(sums[7])?;
    E::of_end(last)?;
    Some([
        start + sums[0],
        start + sums[1],
        start + sums[2],
        start + sums[3],
        start + sums[4],
        start + sums[5],
        start + sums[6],
        last,
    ])
}

// Is each byte a length by itself, and none of them 0? No byte has its high bit, and each has it with 127 on top.
#[inline(always)]
fn are_short(bytes: &[u8; 8]) -> bool
    ensures { IsTrue result → All (λ n. (0 < n) × (n < 128)) bytes.now }
{
    let word = u64::from_le_bytes(*bytes);
    word & HIGH_BITS == 0 && (word + LOW_BITS) & HIGH_BITS == HIGH_BITS
}

// How many rows the first of eight runs has, the first two, and so on.
#[inline(always)]
fn running_sums(lengths: &[u8; 8]) -> [u64; 8]
    ensures { lengths_from 0 result ≡ lengths.now }
{
    let first = u64::from(lengths[0]);
    let second = first + u64::from(lengths[1]);
    let third = second + u64::from(lengths[2]);
    let fourth = third + u64::from(lengths[3]);
    let fifth = fourth + u64::from(lengths[4]);
    let sixth = fifth + u64::from(lengths[5]);
    let seventh = sixth + u64::from(lengths[6]);
    let eighth = seventh + u64::from(lengths[7]);
    [first, second, third, fourth, fifth, sixth, seventh, eighth]
}

// A run's end, what is left of the word that began with the run's length, and how many bytes that length had.
#[derive(Clone, Copy)]
struct WordEnd {
    end: u64,
    rest: u64,
    size: usize,
}

// The ends of four runs that begin there, and the bytes after their lengths, where each of these is one byte or two and
// none is 0, and where the type has the last of these ends. All four are read from one word.
#[inline(always)]
fn four_ends<E: StoredEnd>(start: u64, bytes: &[u8]) -> Option<([u64; 4], &[u8])>
    ensures found { IfSome result (λ r. bytes.now ≡ lengths_bytes start r.0 ++ r.1.now) }
    ensures rises { IfSome result (λ r. Rises false start r.0) }
    ensures fit { IfSome result (λ r. All (λ end. HasNumber E.PTYPE (pos end)) r.0) }
    ensures counted { IfSome result (λ r. length r.0 ≡ 4) }
    ensures shorter { IfSome result (λ r. length r.1.now + 4 ≤ length bytes.now) }
{
    let word = u64::from_le_bytes(*bytes.first_chunk::<8>()?);
    let first = word_end(start, word)?;
    let second = word_end(first.end, first.rest)?;
    let third = word_end(second.end, second.rest)?;
    let fourth = word_end(third.end, third.rest)?;
    E::of_end(fourth.end)?;
    let (_lengths, after) = bytes.split_at(first.size + second.size + third.size + fourth.size);
    Some(([first.end, second.end, third.end, fourth.end], after))
}

// The end of a run that begins there, where the word begins with its length, which is one byte or two and not 0. No
// branch decides which: where lengths of both are mixed, a processor would predict it wrongly.
#[inline(always)]
fn word_end(start: u64, word: u64) -> Option<WordEnd>
    ensures { IfSome result (λ r. BeginsWithLength word (r.end - start) r.size r.rest) }
{
    let first = word % 256;
    let longer = first / 128;
    let high = longer * (word / 256 % 256);
    let length = first % 128 + high * 128;
    if high < longer || high >= 128 || length == 0 {
        return None;
    }
    Some(WordEnd {
        end: start.checked_add(length)?,
        rest: word >> (8 + 8 * longer),
        size: 1 + longer as usize,
    })
}

// Appends the ends, for which there has to be room.
#[inline(always)]
fn push_all<E: StoredEnd, A: Allocator>(ends: &mut Vec<E, A>, numbers: &[u64])
    requires fit { All (λ end. HasNumber E.PTYPE (pos end)) numbers.now }
    requires room { vec_len ends.old + length numbers.now ≤ vec_capacity ends.old }
    ensures items { map E.natural ends.new.items ≡ map E.natural ends.old.items ++ numbers.now }
    ensures len { vec_len ends.new ≡ vec_len ends.old + length numbers.now }
    ensures capacity { vec_capacity ends.new ≡ vec_capacity ends.old }
{
    for number in numbers {
        ends.push_reserved(known_end(*number));
    }
}

// The end of that number, which the type has.
#[inline(always)]
fn known_end<E: StoredEnd>(number: u64) -> E
    requires { HasNumber E.PTYPE (pos number) }
    ensures { E.natural result ≡ number }
{
    let Some(end) = E::of_end(number) else {
        unreachable!()
    };
    end
}

// The end of a run of that length, where its type has it.
pub(crate) fn end_behind<E: StoredEnd>(start: u64, length: u64) -> Option<E>
    ensures { Narrows E.number (HasNumber E.PTYPE) (pos (start + length)) result }
{
    E::of_end(start.checked_add(length)?)
}

// The shortest varint at the front, and the bytes after it. One byte or two are most.
#[inline(always)]
pub(crate) fn read_length(bytes: &[u8]) -> Option<(u64, &[u8])>
    ensures found { IfSome result (λ r. bytes.now ≡ varint r.0 ++ r.1.now) }
    ensures small { IfSome result (λ r. r.0 < 2 ^ 64) }
    ensures none { IfNone result (BeginsWithNoShortest bytes.now) }
{
    let Some((first, after_first)) = bytes.split_first() else {
        return read_long(bytes);
    };
    if *first < 128 {
        return Some((u64::from(*first), after_first));
    }
    let Some((second, after_second)) = after_first.split_first() else {
        return read_long(bytes);
    };
    if *second == 0 || *second >= 128 {
        return read_long(bytes);
    }
    Some((
        u64::from(*first) - 128 + u64::from(*second) * 128,
        after_second,
    ))
}

// The same, however many bytes it has. What `read_shortest` answers lies in memory: it is taken apart here, so that the
// lengths of one byte or two stay in registers.
#[inline(always)]
fn read_long(bytes: &[u8]) -> Option<(u64, &[u8])>
    ensures found { IfSome result (λ r. bytes.now ≡ varint r.0 ++ r.1.now) }
    ensures small { IfSome result (λ r. r.0 < 2 ^ 64) }
    ensures none { IfNone result (BeginsWithNoShortest bytes.now) }
{
    match read_shortest(bytes) {
        Some((length, after)) => Some((length, after)),
        None => None,
    }
}
