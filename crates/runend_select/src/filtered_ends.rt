//! The runs of the rows that a mask selects: which they are, and where they end among these rows.
ghost use Rattle.std.specs.Prelude.{◌≡◌, ◌↔◌, ℕ, ◌+◌, ◌<◌, ◌≤◌, ◌∷◌, ◌++◌, [], true, false, vec_capacity, vec_len, pos, All, Contains, IfOk, IsOkUnless, Some, length as item_count, map, slice_get, unsigned_abs};
ghost use Rattle.std.specs.List.Sorted.{IsStrictlyIncreasing};
ghost use Rattle.column_base.specs.Mask.{mask_bits, IsNormalMask};
ghost use Rattle.column_base.specs.Numbers.{numbers, ptype_of};
ghost use Rattle.column_base.specs.Types.{HasNumber, IsUnsigned};
ghost use Rattle.column_base.specs.ValidityForm.{NeverNull};
ghost use Rattle.runend_windows.specs.Ends.{ends_of};
ghost use Rattle.runend_windows.specs.Window.{last_end, typed_ends};
ghost use Rattle.runend_select.specs.KeptRuns.{AreKept, AreKeptAt};

use crate::rank::BitRanks;
use crate::ranked::Ranked;
use column_base::match_each_unsigned;
use column_core::{
    BitBuffer, Mask, NativePType, PrimitiveArray, PrimitiveValues, UnsignedPType, Validity,
    VortexError, VortexResult,
};
use runend_array::ExecutionCtx;
use runend_windows::reach_of;
use std::alloc::Allocator;

/// Returns which runs have a row that the mask selects, and where these runs end among the selected rows: after the
/// number of rows that are selected up to the end of the run. The runs show `length` rows from position `offset` on,
/// and the mask has a bit for each row. Refused only as `OutOfMemory`.
pub fn filter_run_end_primitive<E: UnsignedPType, A: Allocator + Copy>(
    ends: &[E],
    offset: u64,
    length: u64,
    mask: &BitBuffer<A>,
    ctx: &mut ExecutionCtx<A>,
) -> VortexResult<(PrimitiveArray<A>, Mask<A>)>
    requires increasing { IsStrictlyIncreasing (map E.natural ends.now) }
    requires last { 0 < length → offset + length ≤ last_end (map E.natural ends.now) }
    requires masked { item_count mask.now ≡ length }
    ensures only { IsOkUnless result VortexError.OutOfMemory }
    ensures kept { IfOk result (λ parts. AreKept (map E.natural ends.now) offset mask.now (mask_bits parts.1)
        (ends_of parts.0)) }
    ensures typed { IfOk result (λ parts. parts.0.ptype ≡ E.PTYPE) }
    ensures required { IfOk result (λ parts. parts.0.validity ≡ NeverNull) }
    ensures normal { IfOk result (λ parts. IsNormalMask parts.1) }
    ensures session { ctx.new ≡ ctx.old }
{
    let alloc = *ctx.allocator();
    let mut selected = BitRanks::of(alloc, mask)?;
    // The numbers of a buffer are known to fit its type, so counts that are no greater fit it too.
    let stored = E::wrap(Vec::from_slice(alloc, ends)?);
    let parts = filter_ends(
        alloc,
        &stored,
        offset as usize,
        length as usize,
        &mut selected,
    );
    drop(stored);
    drop(selected);
    let (kept_ends, places) = parts?;
    let kept = mask_of_places(alloc, places.as_slice(), ends.len());
    drop(places);
    match kept {
        Ok(kept) => Ok((kept_ends, kept)),
        Err(error) => {
            drop(kept_ends);
            Err(error)
        }
    }
}

// The mask of all runs that is true at these places.
fn mask_of_places<A: Allocator + Copy>(
    alloc: A,
    places: &[u64],
    runs: usize,
) -> VortexResult<Mask<A>>
    requires ascending { IsStrictlyIncreasing places.now }
    requires within { All (λ place. place < runs) places.now }
    ensures only { IsOkUnless result VortexError.OutOfMemory }
    ensures selected { IfOk result (λ mask. (run : ℕ) → run < runs → ((slice_get (mask_bits mask) run ≡ Some true) ↔
        Contains places.now run)) }
    ensures len { IfOk result (λ mask. item_count (mask_bits mask) ≡ runs) }
    ensures normal { IfOk result (λ mask. IsNormalMask mask) }
{
    let mut indices = Vec::with_capacity(alloc, places.len())?;
    for place in places {
        indices.push_reserved(*place as usize);
    }
    let mask = Mask::from_indices(alloc, runs, indices.as_slice());
    drop(indices);
    mask
}

/// Returns the ends of the kept runs among the selected rows, as `filter_run_end_primitive` makes them, and the places
/// of these runs among the given ones, in ascending order. Refused only as `OutOfMemory`.
pub(crate) fn filter_ends<S: Ranked, A: Allocator + Copy>(
    alloc: A,
    ends: &PrimitiveValues<A>,
    offset: usize,
    count: usize,
    selected: &mut S,
) -> VortexResult<(PrimitiveArray<A>, Vec<u64, A>)>
    requires unsigned { IsUnsigned (ptype_of ends.now) }
    requires increasing { IsStrictlyIncreasing (map unsigned_abs (numbers ends.now)) }
    requires last { 0 < count → offset + count ≤ last_end (map unsigned_abs (numbers ends.now)) }
    requires masked { item_count (S.bits selected.old) ≡ count }
    requires ranked { S.is_ranked selected.old }
    requires first { S.passed selected.old ≡ 0 }
    ensures only { IsOkUnless result VortexError.OutOfMemory }
    ensures kept { IfOk result (λ parts. AreKeptAt (map unsigned_abs (numbers ends.now)) offset
        (S.bits selected.old) parts.1.items (ends_of parts.0)) }
    ensures typed { IfOk result (λ parts. parts.0.ptype ≡ ptype_of ends.now) }
    ensures required { IfOk result (λ parts. parts.0.validity ≡ NeverNull) }
{
    match_each_unsigned!(ends, items => {
        let stored = items.as_slice();
        filter_stored(alloc, stored, offset, count, selected)
    })
}

// The same for ends as they are stored.
fn filter_stored<E: UnsignedPType, S: Ranked, A: Allocator + Copy>(
    alloc: A,
    ends: &[E],
    offset: usize,
    count: usize,
    selected: &mut S,
) -> VortexResult<(PrimitiveArray<A>, Vec<u64, A>)>
    requires fits { All (λ end. HasNumber E.PTYPE (E.number end)) ends.now }
    requires increasing { IsStrictlyIncreasing (typed_ends E.number ends.now) }
    requires last { 0 < count → offset + count ≤ last_end (typed_ends E.number ends.now) }
    requires masked { item_count (S.bits selected.old) ≡ count }
    requires ranked { S.is_ranked selected.old }
    requires first { S.passed selected.old ≡ 0 }
    ensures only { IsOkUnless result VortexError.OutOfMemory }
    ensures kept { IfOk result (λ parts. AreKeptAt (typed_ends E.number ends.now) offset
        (S.bits selected.old) parts.1.items (ends_of parts.0)) }
    ensures typed { IfOk result (λ parts. parts.0.ptype ≡ E.PTYPE) }
    ensures required { IfOk result (λ parts. parts.0.validity ≡ NeverNull) }
{
    let (counts, places) = kept_places(alloc, ends, offset, count, selected)?;
    let kept_ends = PrimitiveArray::new_unchecked(E::wrap(counts), Validity::NonNullable);
    Ok((kept_ends, places))
}

// The ends of the kept runs, and their places. Rows are counted up to where each run ends, in one walk.
fn kept_places<E: UnsignedPType, S: Ranked, A: Allocator + Copy>(
    alloc: A,
    ends: &[E],
    offset: usize,
    count: usize,
    selected: &mut S,
) -> VortexResult<(Vec<E, A>, Vec<u64, A>)>
    requires fits { All (λ end. HasNumber E.PTYPE (E.number end)) ends.now }
    requires increasing { IsStrictlyIncreasing (typed_ends E.number ends.now) }
    requires last { 0 < count → offset + count ≤ last_end (typed_ends E.number ends.now) }
    requires masked { item_count (S.bits selected.old) ≡ count }
    requires ranked { S.is_ranked selected.old }
    requires first { S.passed selected.old ≡ 0 }
    ensures only { IsOkUnless result VortexError.OutOfMemory }
    ensures kept { IfOk result (λ parts. AreKeptAt (typed_ends E.number ends.now) offset (S.bits selected.old)
        parts.1.items (typed_ends E.number parts.0.items)) }
{
    let mut kept_ends = Vec::with_capacity(alloc, ends.len())?;
    let mut places = Vec::with_capacity(alloc, ends.len())?;
    let mut rows = 0;
    for run in 0..ends.len() {
        let reach = reach_of(ends, run, offset, count);
        let passed = selected.rank(reach);
        let more = passed - rows;
        push_where(&mut kept_ends, end_of(passed), more > 0);
        push_where(&mut places, run as u64, more > 0);
        rows = passed;
    }
    Ok((kept_ends, places))
}

// Appends an item of a run if that run is kept. It is written in any case, and cut off again if the run is not kept: so
// no branch depends on the mask, which a processor cannot predict.
#[inline(always)]
fn push_where<T: Copy + Drop, A: Allocator>(items: &mut Vec<T, A>, item: T, is_kept: bool)
    requires { vec_len items.old < vec_capacity items.old }
    ensures kept { is_kept ≡ true → items.new.items ≡ items.old.items ++ item ∷ [] }
    ensures dropped { is_kept ≡ false → items.new.items ≡ items.old.items }
    ensures few { vec_len items.new ≤ vec_len items.old + 1 }
    ensures capacity { vec_capacity items.old ≤ vec_capacity items.new }
{
    let count = items.len() + usize::from(is_kept);
    items.push_reserved(item);
    items.truncate(count);
}

// A number of rows, as an end.
#[inline(always)]
fn end_of<E: NativePType>(rows: usize) -> E
    requires { HasNumber E.PTYPE (pos rows) }
    ensures { E.number result ≡ pos rows }
{
    E::narrow(rows as i128).unwrap()
}
