//! How many bytes run lengths have, counted from the ends without writing them.
ghost use Rattle.std.specs.Prelude.{◌≡◌, ◌+◌, ◌*◌, ◌≤◌, All, length, map, nat_le, pos, unsigned_abs, IfOk, IfErr};
ghost use Rattle.std.specs.List.{count_by};
ghost use Rattle.column_base.specs.Numbers.{numbers, ptype_of};
ghost use Rattle.column_base.specs.Types.{IsUnsigned, HasNumber};
ghost use Rattle.column_fields.specs.Sizes.{IsPast};
ghost use Rattle.column_fields.specs.Lengths.{greatest, lengths_bytes, lengths_from, AreEndsOf};

use crate::sizes::{size_of_total, varint_size};
use crate::stored::StoredEnd;
use column_base::{PrimitiveValues, VortexResult, match_each_unsigned};
use std::alloc::Allocator;

// How many run lengths are measured by the longest of them.
const BLOCK: usize = 64;

/// Returns how many bytes the lengths of the runs with these ends have, in one pass over the ends. Refused as
/// `OutOfMemory` exactly where their number does not fit `usize`.
#[tactic(auto, using(crate::proofs::LengthLaws::ends_stored))]
pub fn lengths_size<A: Allocator>(ends: &PrimitiveValues<A>) -> VortexResult<usize>
    requires { IsUnsigned (ptype_of ends.now) }
    ensures size { IfOk result (λ size. size ≡ length (lengths_bytes 0 (map unsigned_abs (numbers ends.now)))) }
    ensures fit { AreEndsOf (ptype_of ends.now) (map unsigned_abs (numbers ends.now)) }
    ensures past { IfErr result
        (λ error. IsPast (length (lengths_bytes 0 (map unsigned_abs (numbers ends.now)))) error) }
{
    let total = match_each_unsigned!(ends, items => measure(items.as_slice()));
    size_of_total(total)
}

// How many bytes the lengths of runs with these ends have.
fn measure<E: StoredEnd>(ends: &[E]) -> u128
    ensures size { result ≡ length (lengths_bytes 0 (map E.natural ends.now)) }
    ensures fit { AreEndsOf E.PTYPE (map E.natural ends.now) }
{
    let Some((first, others)) = ends.split_first() else {
        return 0;
    };
    varint_size(first.end()) as u128 + measure_behind(*first, others)
}

// How many bytes the lengths of the runs after one that ends there have, block by block.
fn measure_behind<E: StoredEnd>(first: E, ends: &[E]) -> u128
    ensures size { result ≡ length (lengths_bytes (E.natural first) (map E.natural ends.now)) }
    ensures most { result ≤ length ends.now * 10 }
    ensures fit { All (λ end. HasNumber E.PTYPE (pos end)) (map E.natural ends.now) }
{
    let mut total = 0;
    let mut start = first;
    let mut rest = ends;
    while rest.len() > BLOCK {
        let (front, back) = rest.split_at(BLOCK);
        total += u128::from(measure_block(start, front));
        start = front[BLOCK - 1];
        rest = back;
    }
    total + u128::from(measure_block(start, rest))
}

// How many bytes the lengths of the runs of one block have that begin there. Mostly the longest of them says that each
// is one byte, and seldom has one more than two.
#[inline(always)]
fn measure_block<E: StoredEnd>(start: E, ends: &[E]) -> u32
    requires { length ends.now ≤ 64 }
    ensures size { result ≡ length (lengths_bytes (E.natural start) (map E.natural ends.now)) }
    ensures most { result ≤ length ends.now * 10 }
    ensures fit { All (λ end. HasNumber E.PTYPE (pos end)) (map E.natural ends.now) }
{
    let count = ends.len() as u32;
    let longest = longest_run(start, ends).end();
    if longest < 128 {
        return count;
    }
    if longest < 16_384 {
        return count + long_runs(start, ends);
    }
    count + longer_bytes(start, ends)
}

// How many rows the longest of the runs has that begin there.
#[inline(always)]
fn longest_run<E: StoredEnd>(start: E, ends: &[E]) -> E
    ensures longest { E.natural result ≡ greatest (lengths_from (E.natural start) (map E.natural ends.now)) }
    ensures fit { All (λ end. HasNumber E.PTYPE (pos end)) (map E.natural ends.now) }
{
    let mut longest = E::default();
    let mut begin = start;
    for stop in ends {
        longest = longest.greater(E::length(begin, *stop));
        begin = *stop;
    }
    longest
}

// How many of the runs that begin there have 128 rows or more.
#[inline(always)]
fn long_runs<E: StoredEnd>(start: E, ends: &[E]) -> u32
    requires { length ends.now ≤ 64 }
    ensures count { result ≡ count_by (nat_le 128) (lengths_from (E.natural start) (map E.natural ends.now)) }
    ensures most { result ≤ length ends.now }
{
    let mut long = 0;
    let mut begin = start;
    for stop in ends {
        long += u32::from(E::length(begin, *stop).end() >= 128);
        begin = *stop;
    }
    long
}

// How many bytes the lengths of the runs have that begin there, without the first byte of each.
#[inline(always)]
fn longer_bytes<E: StoredEnd>(start: E, ends: &[E]) -> u32
    requires { length ends.now ≤ 64 }
    ensures size { length ends.now + result ≡ length (lengths_bytes (E.natural start) (map E.natural ends.now)) }
    ensures most { result ≤ length ends.now * 9 }
{
    let mut longer = 0;
    let mut begin = start;
    for stop in ends {
        longer += E::longer(begin, *stop);
        begin = *stop;
    }
    longer
}
