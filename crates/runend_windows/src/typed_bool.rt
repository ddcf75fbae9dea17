//! The decoder of booleans, whose ends come from any iterator, so that runs may be empty.
ghost use Rattle.std.specs.Prelude.{◌≡◌, [], count_by, ◌<◌, ◌↔◌, IsTrue, ℕ, List, Some, false, slice_get, IfOk, IsOkUnless, length, length as item_count};
ghost use Rattle.column_base.specs.Mask.{mask_bits};
ghost use Rattle.column_base.specs.ValidityForm.{HasLength, IsNormal, flags, nullability_in};
ghost use Rattle.column_base.specs.Validity.{form_of, validity_flags};
ghost use Rattle.column_core.specs.Optionals.{AreBlankAtNulls, optionals};
ghost use Rattle.runend_windows.specs.Window.{run_rows};
ghost use Rattle.runend_windows.specs.RunEnds.{AreRunEnds, Fills, FitsMask, masked_truths};
ghost use Rattle.column_core.specs.Computed.{HasRowIfAllNull};
ghost use Rattle.column_base.specs.declared.dtype.DType.TheVariants as column;
ghost use Rattle.runend_windows.specs.Encoding.{HasNullsAlone, blanked};
ghost use Rattle.runend_windows.specs.BitRunsForm.{background_of};

use crate::bit_runs::{BitRuns, count_marked, is_majority, start_over};
use crate::typed::{next_end, no_null, no_value};
use column_core::{
    BitBuffer, BitBufferMut, BoolArray, DType, Mask, Nullability, Validity, VortexError,
    VortexResult,
};
use std::alloc::Allocator;

/// Returns the rows of runs whose ends come from an iterator, as bits and a validity, with false under null: row i is
/// the bit of the first run that ends past it, null where the mask is false there. Ends count rows; a run that ends
/// where the one before it does shows no row. The validity of a type with null is the one that `Validity::from_bits`
/// makes. From `prefill_runs` runs on, all rows are first filled with the bit of most runs, and only the other runs are
/// written; the answer is the same. Refused only as `OutOfMemory`.
///
/// The iterator has to give an end for each value, none below the one before it, and `count` as the last one. The mask
/// has a bit for each value; only under `Mask::AllTrue` may the type have no null.
pub fn decode_typed_bits<I: Iterator<Item = usize>, A: Allocator + Copy>(
    alloc: A,
    run_ends: I,
    values: &BitBuffer<A>,
    mask: &Mask<A>,
    nullability: Nullability,
    count: usize,
    prefill_runs: usize,
) -> VortexResult<(BitBuffer<A>, Validity<A>)>
    requires can { I.can_next run_ends }
    requires ends { (ends : List ℕ) × AreRunEnds I.next_gives run_ends (length values.now) count ends }
    requires masked { length (mask_bits mask.now) ≡ length values.now }
    requires nullable { FitsMask nullability mask.now }
    ensures only { IsOkUnless result VortexError.OutOfMemory }
    ensures rows { IfOk result (λ rows. (ends : List ℕ) →
        AreRunEnds I.next_gives run_ends (length values.now) count ends →
        optionals rows.0 (validity_flags rows.1 count) ≡
        run_rows ends (optionals values.now (mask_bits mask.now)) 0 count) }
    ensures blanks { IfOk result (λ rows. AreBlankAtNulls false rows.0 (validity_flags rows.1 count)) }
    ensures counted { IfOk result (λ rows. length rows.0 ≡ count) }
    ensures fits { IfOk result (λ rows. HasLength (form_of rows.1) count) }
    ensures normal { IfOk result (λ rows. IsNormal (form_of rows.1)) }
    ensures nullability { IfOk result (λ rows. nullability_in (form_of rows.1) ≡ nullability) }
    ensures some { IfOk result (λ rows. HasRowIfAllNull (form_of rows.1) count) }
{
    match mask {
        Mask::AllTrue(_) => {
            let bits = repeat_bits(alloc, run_ends, values, count, prefill_runs)?;
            Ok((bits, no_null(nullability)))
        }
        Mask::AllFalse(_) => {
            let bits = BitBufferMut::full(alloc, false, count)?;
            Ok((bits.freeze(), no_value(count)))
        }
        Mask::Values(_) => {
            let (bits, flags) = repeat_masked(alloc, run_ends, values, mask, count, prefill_runs)?;
            Ok((bits, Validity::from_bits(flags)))
        }
    }
}

/// Returns whether there is a run, and the mask is nowhere true.
pub fn masks_all<A: Allocator>(mask: &Mask<A>, values: &BitBuffer<A>) -> bool
    requires { item_count (mask_bits mask.now) ≡ item_count values.now }
    ensures { IsTrue result ↔ HasNullsAlone (masked_truths values.now (mask_bits mask.now)) }
{
    mask.true_count() == 0 && values.len() != 0
}

// The bit of each run, repeated up to the run's end.
fn repeat_bits<I: Iterator<Item = usize>, A: Allocator + Copy>(
    alloc: A,
    mut run_ends: I,
    values: &BitBuffer<A>,
    count: usize,
    prefill_runs: usize,
) -> VortexResult<BitBuffer<A>>
    requires can { I.can_next run_ends }
    requires ends { (ends : List ℕ) × AreRunEnds I.next_gives run_ends (length values.now) count ends }
    ensures only { IsOkUnless result VortexError.OutOfMemory }
    ensures fills { IfOk result (λ bits. (ends : List ℕ) →
        AreRunEnds I.next_gives run_ends (length values.now) count ends →
        Fills bits ends values.now count) }
{
    let mut bits = start_over(alloc, values, count, prefill_runs)?;
    for run in 0..values.len() {
        let end = next_end(&mut run_ends);
        bits.repeat_to(values.value(run), end)?;
    }
    Ok(bits.finish())
}

// The bit of a run, false where the mask is false.
fn bit_at<A: Allocator>(values: &BitBuffer<A>, mask: &Mask<A>, run: usize) -> bool
    requires within { run < length values.now }
    requires masked { length (mask_bits mask.now) ≡ length values.now }
    ensures { slice_get (blanked false (optionals values.now (mask_bits mask.now))) run ≡ Some result }
{
    mask.value(run) && values.value(run)
}

// How many runs are true under the mask.
fn count_masked<A: Allocator>(values: &BitBuffer<A>, mask: &Mask<A>) -> usize
    requires { length (mask_bits mask.now) ≡ length values.now }
    ensures { result ≡ count_by (λ bit. bit) (blanked false (optionals values.now (mask_bits mask.now))) }
{
    match mask {
        Mask::AllTrue(_) => values.true_count(),
        Mask::AllFalse(_) => 0,
        Mask::Values(marks) => count_marked(values, marks),
    }
}

// No bits yet, of `count` rows. From `prefill_runs` runs on each row starts as the bit of most runs under the
// mask, false on a tie, so that only the other runs are written.
fn start_bits<A: Allocator + Copy>(
    alloc: A,
    values: &BitBuffer<A>,
    mask: &Mask<A>,
    count: usize,
    prefill_runs: usize,
) -> VortexResult<BitRuns<A>>
    requires masked { length (mask_bits mask.now) ≡ length values.now }
    ensures only { IsOkUnless result VortexError.OutOfMemory }
    ensures start { IfOk result (λ runs. runs ≡ record {
      written = [];
      prefilled = background_of (blanked false (optionals values.now (mask_bits mask.now))) count prefill_runs;
    }) }
{
    if values.len() < prefill_runs {
        return BitRuns::with_room(alloc, count);
    }
    let majority = is_majority(count_masked(values, mask), values.len());
    BitRuns::prefilled(alloc, majority, count)
}

// No bits yet, of `count` rows, or from `prefill_runs` runs on the bit of most runs of the mask in each row, false on
// a tie.
fn start_flags<A: Allocator + Copy>(
    alloc: A,
    mask: &Mask<A>,
    count: usize,
    prefill_runs: usize,
) -> VortexResult<BitRuns<A>>
    ensures only { IsOkUnless result VortexError.OutOfMemory }
    ensures start { IfOk result (λ runs. runs ≡ record {
      written = [];
      prefilled = background_of
          (mask_bits mask.now) count prefill_runs;
    }) }
{
    if mask.len() < prefill_runs {
        return BitRuns::with_room(alloc, count);
    }
    let majority = is_majority(mask.true_count(), mask.len());
    BitRuns::prefilled(alloc, majority, count)
}

// The bit of each run, false for null, and whether it is valid, repeated up to the run's end.
fn repeat_masked<I: Iterator<Item = usize>, A: Allocator + Copy>(
    alloc: A,
    mut run_ends: I,
    values: &BitBuffer<A>,
    mask: &Mask<A>,
    count: usize,
    prefill_runs: usize,
) -> VortexResult<(BitBuffer<A>, BitBuffer<A>)>
    requires can { I.can_next run_ends }
    requires ends { (ends : List ℕ) × AreRunEnds I.next_gives run_ends (length values.now) count ends }
    requires masked { length (mask_bits mask.now) ≡ length values.now }
    ensures only { IsOkUnless result VortexError.OutOfMemory }
    ensures bits { IfOk result (λ rows. (ends : List ℕ) →
        AreRunEnds I.next_gives run_ends (length values.now) count ends →
        Fills rows.0 ends (blanked false (optionals values.now (mask_bits mask.now))) count) }
    ensures flags { IfOk result (λ rows. (ends : List ℕ) →
        AreRunEnds I.next_gives run_ends (length values.now) count ends →
        Fills rows.1 ends (mask_bits mask.now) count) }
{
    let mut bits = start_bits(alloc, values, mask, count, prefill_runs)?;
    let mut flags = start_flags(alloc, mask, count, prefill_runs)?;
    for run in 0..values.len() {
        let end = next_end(&mut run_ends);
        bits.repeat_to(bit_at(values, mask, run), end)?;
        flags.repeat_to(mask.value(run), end)?;
    }
    Ok((bits.finish(), flags.finish()))
}
