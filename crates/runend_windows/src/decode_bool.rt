//! The decoder of booleans.
ghost use Rattle.std.specs.Prelude.{◌≡◌, ◌≤◌, ◌↔◌, IfOk, IsOkUnless, IsTrue, length as item_count, false};
ghost use Rattle.column_base.specs.ValidityForm.{HasLength};
ghost use Rattle.column_base.specs.Validity.{form_of};
ghost use Rattle.column_core.specs.Optionals.{optionals};
ghost use Rattle.column_core.specs.PrimitiveForm.{primitive_dtype};
ghost use Rattle.column_core.specs.Leaf.{OfTruths};
ghost use Rattle.runend_windows.specs.Window.{IsWindow, typed_ends};
ghost use Rattle.runend_windows.specs.Cover.{Covers};
ghost use Rattle.runend_windows.specs.Ends.{IsEndsType, ends_of};
ghost use Rattle.runend_windows.specs.Decoding.{AreDecoded};
ghost use Rattle.runend_windows.specs.Encoding.{IsDecodedLeaf, blanked};
ghost use Rattle.runend_windows.specs.BitRunsForm.{majority_of};

use crate::bit_runs::is_majority;
use crate::decode::decode_validity;
use crate::filled_runs::{fill_runs, runs_unlike};
use column_base::match_each_unsigned;
use column_core::{
    BitBuffer, BitBufferMut, BoolArray, PrimitiveArray, UnsignedPType, Validity, VortexError,
    VortexResult,
};
use std::alloc::Allocator;

/// Returns the `count` rows, from row `offset` on, that runs of booleans show, as a flat column with false under null.
/// From `prefill_runs` runs on, all rows are first filled with the boolean of most runs, with fewer runs with false,
/// and only the other runs are written; the answer is the same. Refused only as `OutOfMemory`.
pub fn decode_truths<A: Allocator + Copy>(
    alloc: A,
    ends: &PrimitiveArray<A>,
    values: &BoolArray<A>,
    offset: usize,
    count: usize,
    prefill_runs: usize,
) -> VortexResult<BoolArray<A>>
    requires plain { IsEndsType (primitive_dtype ends.now) }
    requires window { IsWindow (ends_of ends.now) offset count }
    requires paired { item_count values.now.bits ≡ item_count ends.now.numbers }
    ensures only { IsOkUnless result VortexError.OutOfMemory }
    ensures flat { IfOk result (λ array. IsDecodedLeaf (ends_of ends.now) (OfTruths values.now) offset count
        (OfTruths array)) }
{
    match_each_unsigned!(ends.values(), items => decode_under(alloc, items.as_slice(), values, offset, count,
    prefill_runs))
}

fn decode_under<E: UnsignedPType, A: Allocator + Copy>(
    alloc: A,
    ends: &[E],
    values: &BoolArray<A>,
    offset: usize,
    count: usize,
    prefill_runs: usize,
) -> VortexResult<BoolArray<A>>
    requires window { IsWindow (typed_ends E.number ends.now) offset count }
    requires paired { item_count values.now.bits ≡ item_count ends.now }
    ensures only { IsOkUnless result VortexError.OutOfMemory }
    ensures flat { IfOk result (λ array. IsDecodedLeaf (typed_ends E.number ends.now)
        (OfTruths values.now) offset count (OfTruths array)) }
{
    let (bits, rows) = decode_parts(
        alloc,
        ends,
        values.values(),
        values.validity(),
        offset,
        count,
        prefill_runs,
    )?;
    Ok(BoolArray::new_unchecked(bits, rows))
}

// The booleans and the validity of the rows that the runs show in the window.
fn decode_parts<E: UnsignedPType, A: Allocator + Copy>(
    alloc: A,
    ends: &[E],
    values: &BitBuffer<A>,
    validity: &Validity<A>,
    offset: usize,
    count: usize,
    prefill_runs: usize,
) -> VortexResult<(BitBuffer<A>, Validity<A>)>
    requires window { IsWindow (typed_ends E.number ends.now) offset count }
    requires paired { item_count values.now ≡ item_count ends.now }
    requires fits { HasLength (form_of validity.now) (item_count values.now) }
    ensures only { IsOkUnless result VortexError.OutOfMemory }
    ensures decoded { IfOk result (λ parts. AreDecoded false (typed_ends E.number ends.now) values.now
        (form_of validity.now) offset count
        parts.0 (form_of parts.1)) }
{
    match validity {
        Validity::NonNullable => {
            let bits = decode_bits(alloc, ends, values, offset, count, prefill_runs)?;
            Ok((bits, Validity::NonNullable))
        }
        Validity::AllValid => {
            let bits = decode_bits(alloc, ends, values, offset, count, prefill_runs)?;
            Ok((bits, Validity::AllValid))
        }
        Validity::AllInvalid => {
            let rows = decode_validity(alloc, ends, validity, offset, count)?;
            let bits = BitBufferMut::full(alloc, false, count)?;
            Ok((bits.freeze(), rows))
        }
        Validity::Bits(marks) => {
            let (bits, flags) = decode_marked(
                alloc,
                ends,
                values,
                marks,
                offset,
                count,
                prefill_runs,
            )?;
            Ok((bits, Validity::from_bits(flags)))
        }
    }
}

// Do the rows start true? From `prefill_runs` runs on they start as most runs are, false on a tie; below, false.
fn starts_true<A: Allocator>(bits: &BitBuffer<A>, prefill_runs: usize) -> bool
    ensures { IsTrue result ↔ ((prefill_runs ≤ item_count bits.now) × IsTrue (majority_of bits.now)) }
{
    bits.len() >= prefill_runs && is_majority(bits.true_count(), bits.len())
}

// The booleans that the runs show in the window, where no run is null.
fn decode_bits<E: UnsignedPType, A: Allocator + Copy>(
    alloc: A,
    ends: &[E],
    values: &BitBuffer<A>,
    offset: usize,
    count: usize,
    prefill_runs: usize,
) -> VortexResult<BitBuffer<A>>
    requires window { IsWindow (typed_ends E.number ends.now) offset count }
    requires paired { item_count values.now ≡ item_count ends.now }
    ensures only { IsOkUnless result VortexError.OutOfMemory }
    ensures cover { IfOk result (λ bits. Covers bits (typed_ends E.number ends.now) values.now offset
        count) }
{
    let start = starts_true(values, prefill_runs);
    let mut rows = BitBufferMut::full(alloc, start, count)?;
    let words = values.words();
    for index in 0..words.len() {
        let runs = runs_unlike(words[index], start);
        fill_runs(&mut rows, ends, runs, index * 64, !start, offset, count);
    }
    Ok(rows.freeze())
}

// The booleans that the runs show in the window, false for null, and whether each row is valid, in one
// walk over the runs.
fn decode_marked<E: UnsignedPType, A: Allocator + Copy>(
    alloc: A,
    ends: &[E],
    values: &BitBuffer<A>,
    marks: &BitBuffer<A>,
    offset: usize,
    count: usize,
    prefill_runs: usize,
) -> VortexResult<(BitBuffer<A>, BitBuffer<A>)>
    requires window { IsWindow (typed_ends E.number ends.now) offset count }
    requires paired { item_count values.now ≡ item_count ends.now }
    requires fits { item_count marks.now ≡ item_count values.now }
    ensures only { IsOkUnless result VortexError.OutOfMemory }
    ensures bits { IfOk result (λ parts. Covers parts.0 (typed_ends E.number ends.now)
        (blanked false (optionals values.now marks.now)) offset count) }
    ensures flags { IfOk result (λ parts. Covers parts.1 (typed_ends E.number ends.now) marks.now offset
        count) }
{
    let start = starts_true(values, prefill_runs);
    let valid = starts_true(marks, prefill_runs);
    let mut rows = BitBufferMut::full(alloc, start, count)?;
    let mut flags = BitBufferMut::full(alloc, valid, count)?;
    let words = values.words();
    let marked = marks.words();
    for index in 0..words.len() {
        let first = index * 64;
        let truths = runs_unlike(words[index] & marked[index], start);
        fill_runs(&mut rows, ends, truths, first, !start, offset, count);
        let nulls = runs_unlike(marked[index], valid);
        fill_runs(&mut flags, ends, nulls, first, !valid, offset, count);
    }
    Ok((rows.freeze(), flags.freeze()))
}
