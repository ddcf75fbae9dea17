//! Run lengths, each as the shortest varint.
ghost use Rattle.std.specs.Prelude.{◌≡◌, ◌++◌, ◌+◌, ◌<◌, All, length, map, pos, unsigned_abs, OnOk, IsOkUnless};
ghost use Rattle.column_base.specs.Numbers.{numbers, ptype_of};
ghost use Rattle.column_base.specs.Types.{IsUnsigned, HasNumber};
ghost use Rattle.column_fields.specs.Field.{bytes_field};
ghost use Rattle.column_fields.specs.Kept.{StaysInFront};
ghost use Rattle.column_fields.specs.Room.{UsesRoom, UsesCountedRoom};
ghost use Rattle.column_fields.specs.Lengths.{lengths_bytes, lengths_from, AreEndsOf};
ghost use Rattle.column_fields.specs.Varint.{varint};

use crate::fields::{put_bytes_key, put_varint};
use crate::length_bytes::{are_varints, length_bytes};
use crate::length_sizes::lengths_size;
use crate::short_varints::{one_byte_each, two_bytes_at_most};
use crate::stored::StoredEnd;
use bytes::BufMut;
use column_base::{PrimitiveValues, VortexError, VortexResult, match_each_unsigned};
use std::alloc::Allocator;

/// Writes the field of the lengths of the runs with these ends at the end.
pub fn put_lengths_field<A: Allocator, W: BufMut>(
    out: &mut W,
    field: u64,
    ends: &PrimitiveValues<A>,
) -> VortexResult<()>
    requires field { field < 32 }
    requires unsigned { IsUnsigned (ptype_of ends.now) }
    ensures ok { OnOk result (W.written out.new ≡ W.written out.old ++
        bytes_field field (lengths_bytes 0 (map unsigned_abs (numbers ends.now)))) }
    ensures room { UsesCountedRoom result (W.spare out.old) (W.spare out.new)
        (length (bytes_field field (lengths_bytes 0 (map unsigned_abs (numbers ends.now))))) }
    ensures fit { AreEndsOf (ptype_of ends.now) (map unsigned_abs (numbers ends.now)) }
    ensures kept { StaysInFront (W.written out.old) (W.written out.new) }
    ensures only { IsOkUnless result VortexError.OutOfMemory }
{
    let count = lengths_size(ends)?;
    put_bytes_key(out, field, count)?;
    out.reserve(count)?;
    put_lengths_of(out, ends)
}

#[tactic(auto, using(crate::proofs::LengthLaws::ends_stored))]
// Writes the lengths of the runs with these ends at the end.
fn put_lengths_of<A: Allocator, W: BufMut>(
    out: &mut W,
    ends: &PrimitiveValues<A>,
) -> VortexResult<()>
    requires { IsUnsigned (ptype_of ends.now) }
    ensures ok { OnOk result
        (W.written out.new ≡ W.written out.old ++ lengths_bytes 0 (map unsigned_abs (numbers ends.now))) }
    ensures room { UsesRoom result (W.spare out.old) (W.spare out.new)
        (length (lengths_bytes 0 (map unsigned_abs (numbers ends.now)))) }
    ensures kept { StaysInFront (W.written out.old) (W.written out.new) }
    ensures only { IsOkUnless result VortexError.OutOfMemory }
{
    match_each_unsigned!(ends, items => put_lengths(out, items.as_slice()))
}

// Writes the lengths of runs with these ends at the end.
fn put_lengths<E: StoredEnd, W: BufMut>(out: &mut W, ends: &[E]) -> VortexResult<()>
    ensures ok { OnOk result (W.written out.new ≡ W.written out.old ++ lengths_bytes 0 (map E.natural ends.now)) }
    ensures room { UsesRoom result (W.spare out.old) (W.spare out.new)
        (length (lengths_bytes 0 (map E.natural ends.now))) }
    ensures kept { StaysInFront (W.written out.old) (W.written out.new) }
    ensures only { IsOkUnless result VortexError.OutOfMemory }
{
    let Some((first, others)) = ends.split_first() else {
        return Ok(());
    };
    put_varint(out, first.end())?;
    put_behind(out, *first, others)
}

// Writes the lengths of the runs after one that ends there at the end, 64 in one step.
fn put_behind<E: StoredEnd, W: BufMut>(out: &mut W, first: E, ends: &[E]) -> VortexResult<()>
    ensures ok { OnOk result
        (W.written out.new ≡ W.written out.old ++ lengths_bytes (E.natural first) (map E.natural ends.now)) }
    ensures room { UsesRoom result (W.spare out.old) (W.spare out.new)
        (length (lengths_bytes (E.natural first) (map E.natural ends.now))) }
    ensures kept { StaysInFront (W.written out.old) (W.written out.new) }
    ensures only { IsOkUnless result VortexError.OutOfMemory }
{
    let mut start = first;
    let mut rest = ends;
    while rest.len() >= 64 {
        let (front, back) = rest.split_at(64);
        put_block(out, start, front)?;
        start = front[63];
        rest = back;
    }
    put_eights(out, start.end(), rest)
}

// Writes the lengths of 64 runs that begin there at the end. Mostly each is one byte, and where the runs have more rows
// than such lengths can have, that is not looked into.
#[inline(always)]
fn put_block<E: StoredEnd, W: BufMut>(out: &mut W, start: E, ends: &[E]) -> VortexResult<()>
    requires { length ends.now ≡ 64 }
    ensures ok { OnOk result
        (W.written out.new ≡ W.written out.old ++ lengths_bytes (E.natural start) (map E.natural ends.now)) }
    ensures room { UsesRoom result (W.spare out.old) (W.spare out.new)
        (length (lengths_bytes (E.natural start) (map E.natural ends.now))) }
    ensures kept { StaysInFront (W.written out.old) (W.written out.new) }
    ensures only { IsOkUnless result VortexError.OutOfMemory }
{
    if E::length(start, ends[63]).end() < 64 * 128 {
        let bytes = length_bytes(start, ends);
        if are_varints(&bytes) {
            out.put_slice(&bytes)?;
            return Ok(());
        }
    }
    put_eights(out, start.end(), ends)
}

// Writes the lengths of runs that begin there at the end, eight in one step.
fn put_eights<E: StoredEnd, W: BufMut>(out: &mut W, first: u64, ends: &[E]) -> VortexResult<()>
    ensures ok { OnOk result (W.written out.new ≡ W.written out.old ++ lengths_bytes first (map E.natural ends.now)) }
    ensures room { UsesRoom result (W.spare out.old) (W.spare out.new)
        (length (lengths_bytes first (map E.natural ends.now))) }
    ensures kept { StaysInFront (W.written out.old) (W.written out.new) }
    ensures only { IsOkUnless result VortexError.OutOfMemory }
{
    let mut start = first;
    let mut rest = ends;
    while rest.len() >= 8 {
        let (front, back) = rest.split_at(8);
        put_eight(out, start, front)?;
        start = front[7].end();
        rest = back;
    }
    put_each(out, start, rest)
}

// Writes the lengths of eight runs that begin there at the end. Mostly each is one byte, and seldom has one more than
// two.
#[inline(always)]
fn put_eight<E: StoredEnd, W: BufMut>(out: &mut W, start: u64, ends: &[E]) -> VortexResult<()>
    requires { length ends.now ≡ 8 }
    ensures ok { OnOk result (W.written out.new ≡ W.written out.old ++ lengths_bytes start (map E.natural ends.now)) }
    ensures room { UsesRoom result (W.spare out.old) (W.spare out.new)
        (length (lengths_bytes start (map E.natural ends.now))) }
    ensures kept { StaysInFront (W.written out.old) (W.written out.new) }
    ensures only { IsOkUnless result VortexError.OutOfMemory }
{
    let lengths = eight_lengths(start, ends);
    if let Some(bytes) = one_byte_each(&lengths) {
        out.put_slice(&bytes)?;
        return Ok(());
    }
    if let Some(varints) = two_bytes_at_most(&lengths) {
        out.put_slice(&varints.0[..varints.1])?;
        return Ok(());
    }
    put_each(out, start, ends)
}

// The lengths of eight runs that begin there.
#[inline(always)]
fn eight_lengths<E: StoredEnd>(start: u64, ends: &[E]) -> [u64; 8]
    requires { length ends.now ≡ 8 }
    ensures lengths { result ≡ lengths_from start (map E.natural ends.now) }
    ensures fit { All (λ end. HasNumber E.PTYPE (pos end)) (map E.natural ends.now) }
{
    let first = ends[0].end();
    let second = ends[1].end();
    let third = ends[2].end();
    let fourth = ends[3].end();
    let fifth = ends[4].end();
    let sixth = ends[5].end();
    let seventh = ends[6].end();
    let eighth = ends[7].end();
    [
        first.saturating_sub(start),
        second.saturating_sub(first),
        third.saturating_sub(second),
        fourth.saturating_sub(third),
        fifth.saturating_sub(fourth),
        sixth.saturating_sub(fifth),
        seventh.saturating_sub(sixth),
        eighth.saturating_sub(seventh),
    ]
}

// Writes the lengths of runs that begin there at the end, one by one.
fn put_each<E: StoredEnd, W: BufMut>(out: &mut W, start: u64, ends: &[E]) -> VortexResult<()>
    ensures ok { OnOk result (W.written out.new ≡ W.written out.old ++ lengths_bytes start (map E.natural ends.now)) }
    ensures room { UsesRoom result (W.spare out.old) (W.spare out.new)
        (length (lengths_bytes start (map E.natural ends.now))) }
    ensures kept { StaysInFront (W.written out.old) (W.written out.new) }
    ensures only { IsOkUnless result VortexError.OutOfMemory }
{
    let mut begin = start;
    for stop in ends {
        let end = stop.end();
        put_varint(out, end.saturating_sub(begin))?;
        begin = end;
    }
    Ok(())
}
