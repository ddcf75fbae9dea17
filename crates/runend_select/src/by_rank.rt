//! The runs of indices, by the ranks of the rows that they name.
ghost use Rattle.std.specs.Prelude.{◌≡◌, ◌+◌, ◌-◌, ◌*◌, ◌^◌, ◌<◌, ◌≤◌, All, IfOk, IsOkUnless, OnErr, length as item_count, map, true, vec_capacity, []};
ghost use Rattle.column_base.specs.Mask.{mask_bits};
ghost use Rattle.runend_windows.specs.Window.{IsWindow, run_at};
ghost use Rattle.runend_select.specs.Indices.{AreInBounds, runs_of, masked_indices};
ghost use Rattle.runend_select.specs.Ranks.{AreCounted, rank_at};

use crate::ranks::{rank_of, run_ranks};
use crate::rows::{named_row, selects_all};
use column_core::{CountedEnds, Mask, NativePType, UnsignedPType, VortexError, VortexResult};
use std::alloc::Allocator;

/// Returns the run of each valid index among `length` rows, and the run of row 0 for a null one. It finds what a table
/// of the run of each row would say, in 16 bytes for 64 rows. It tests at most one end for each row and one for each
/// run but the last, as making the table does. Refused only as `OutOfMemory`, before any test.
pub(crate) fn runs_by_rank<E: UnsignedPType, T: NativePType, A: Allocator + Copy>(
    alloc: A,
    ends: &mut CountedEnds<'_, E>,
    offset: usize,
    length: usize,
    indices: &[T],
    mask: &Mask<A>,
) -> VortexResult<Vec<u64, A>>
    requires window { IsWindow ends.old.ends offset length }
    requires some { 0 < length }
    requires masked { item_count (mask_bits mask.now) ≡ item_count indices.now }
    requires in_bounds { AreInBounds (masked_indices T.number indices.now mask.now) length }
    ensures only { IsOkUnless result VortexError.OutOfMemory }
    ensures runs { IfOk result (λ runs. runs.items ≡ runs_of ends.old.ends offset (run_at ends.old.ends offset)
        (masked_indices T.number indices.now mask.now)) }
    ensures same { ends.new.ends ≡ ends.old.ends }
    ensures cost { ends.new.tests ≤ ends.old.tests + (item_count ends.old.ends - 1 + length) }
    ensures untested { OnErr result (ends.new.tests ≡ ends.old.tests) }
{
    // The room for the answers is taken first, so that a refused call has tested nothing.
    let room = Vec::with_capacity(alloc, indices.len())?;
    let ranks = run_ranks(alloc, ends, offset, length)?;
    let words = ranks.words.as_slice();
    let counts = ranks.counts.as_slice();
    Ok(ranked(words, counts, room, indices, mask))
}

// The rank of the row that each index names, and the rank of row 0 for a null one, put into room that is there. No end
// is tested, since none is lent.
fn ranked<T: NativePType, A: Allocator>(
    words: &[u64],
    counts: &[u64],
    room: Vec<u64, A>,
    indices: &[T],
    mask: &Mask<A>,
) -> Vec<u64, A>
    requires counted { AreCounted words.now counts.now }
    requires some { 0 < item_count words.now }
    requires empty { room.items ≡ [] }
    requires room { item_count indices.now ≤ vec_capacity room }
    requires masked { item_count (mask_bits mask.now) ≡ item_count indices.now }
    requires in_bounds { AreInBounds (masked_indices T.number indices.now mask.now) (2 ^ 64) }
    requires in_words { AreInBounds (masked_indices T.number indices.now mask.now)
        (item_count words.now * 64) }
    ensures { result.items ≡ map (rank_at words.now) (masked_indices T.number indices.now mask.now) }
{
    if selects_all(mask) {
        ranks_of::<true, T, A>(words, counts, room, indices, mask)
    } else {
        ranks_of::<false, T, A>(words, counts, room, indices, mask)
    }
}

// The same, where `ALL` says that no index is null.
fn ranks_of<const ALL: bool, T: NativePType, A: Allocator>(
    words: &[u64],
    counts: &[u64],
    mut ranks: Vec<u64, A>,
    indices: &[T],
    mask: &Mask<A>,
) -> Vec<u64, A>
    requires counted { AreCounted words.now counts.now }
    requires some { 0 < item_count words.now }
    requires empty { ranks.items ≡ [] }
    requires room { item_count indices.now ≤ vec_capacity ranks }
    requires masked { item_count (mask_bits mask.now) ≡ item_count indices.now }
    requires all { ALL ≡ true → All (λ bit. bit ≡ true) (mask_bits mask.now) }
    requires in_bounds { AreInBounds (masked_indices T.number indices.now mask.now) (2 ^ 64) }
    requires in_words { AreInBounds (masked_indices T.number indices.now mask.now)
        (item_count words.now * 64) }
    ensures { result.items ≡ map (rank_at words.now) (masked_indices T.number indices.now mask.now) }
{
    for place in 0..indices.len() {
        let row = named_row::<ALL, T, A>(indices, mask, place).unwrap_or(0);
        ranks.push_reserved(rank_of(words, counts, row));
    }
    ranks
}
