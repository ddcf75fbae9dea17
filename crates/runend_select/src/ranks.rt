//! Ranks of the rows of a window: a bit for each row, set where a run ends there, and the number of set bits before
//! each word of 64. A count of bits then gives the run of a row: it reads no end, searches nothing and takes no branch.
ghost use Rattle.std.specs.Prelude.{◌≡◌, ◌+◌, ◌-◌, ◌*◌, ◌/◌, ◌^◌, ◌<◌, ◌≤◌, [], IfOk, IsOkUnless, OnErr, length as item_count, replicate, vec_capacity};
ghost use Rattle.runend_windows.specs.Window.{IsWindow};
ghost use Rattle.runend_select.specs.Ranks.{AreCounted, AreMarked, ones_before};

use column_core::{CountedEnds, UnsignedPType, VortexError, VortexResult};
use std::alloc::Allocator;

/// Holds the bits of the rows, 64 to a word, and how many are set before each word: 16 bytes for 64 rows.
#[derive(Drop)]
pub(crate) struct RunRanks<A: Allocator> {
    pub(crate) words: Vec<u64, A>,
    pub(crate) counts: Vec<u64, A>,
}

/// Ranks `length` rows from position `offset` on. It reads each end up to the last row once, and tests at most one
/// end for each row and one for each run but the last, as making a table does. Refused only as `OutOfMemory`, before
/// any test.
pub(crate) fn run_ranks<E: UnsignedPType, A: Allocator + Copy>(
    alloc: A,
    ends: &mut CountedEnds<'_, E>,
    offset: usize,
    length: usize,
) -> VortexResult<RunRanks<A>>
    requires window { IsWindow ends.old.ends offset length }
    requires some { 0 < length }
    ensures only { IsOkUnless result VortexError.OutOfMemory }
    ensures marked { IfOk result (λ ranks. AreMarked ends.old.ends offset length ranks.words.items) }
    ensures counted { IfOk result (λ ranks. AreCounted ranks.words.items ranks.counts.items) }
    ensures same { ends.new.ends ≡ ends.old.ends }
    ensures cost { ends.new.tests ≤ ends.old.tests + (item_count ends.old.ends - 1 + length) }
    ensures untested { OnErr result (ends.new.tests ≡ ends.old.tests) }
{
    let size = length.div_ceil(64);
    let mut words = vec![in alloc; 0; size]?;
    let room = Vec::with_capacity(alloc, size)?;
    mark_ends(ends, offset, length, words.as_mut_slice());
    let counts = ones_before_words(words.as_slice(), room);
    Ok(RunRanks { words, counts })
}

/// Returns how many bits are set up to the bit of a row, with it: the run of the row, where the bits mark the rows at
/// which runs end.
#[inline(always)]
pub(crate) fn rank_of(words: &[u64], counts: &[u64], row: usize) -> u64
    requires counted { AreCounted words.now counts.now }
    requires within { row < item_count words.now * 64 }
    ensures { result ≡ ones_before words.now (row + 1) }
{
    let index = row / 64;
    // The bits past the row are shifted out.
    counts[index] + (words[index] << (63 - row % 64)).count_ones() as u64
}

// Sets the bit of each row at which a run ends. The last end is past every row, and is not read.
fn mark_ends<E: UnsignedPType>(
    ends: &mut CountedEnds<'_, E>,
    offset: usize,
    length: usize,
    words: &mut [u64],
)
    requires window { IsWindow ends.old.ends offset length }
    requires some { 0 < length }
    requires zeros { words.old ≡ replicate ((length + 63) / 64) 0 }
    ensures marked { AreMarked ends.old.ends offset length words.new }
    ensures same { ends.new.ends ≡ ends.old.ends }
    ensures cost { ends.new.tests ≤ ends.old.tests + (item_count ends.old.ends - 1 + length) }
{
    let mut reach = 0;
    for run in 0..ends.len() - 1 {
        reach += ends.rows_to_end(run, offset + reach, length - reach);
        if reach == length {
            break;
        }
        words[reach / 64] |= 1 << (reach % 64);
    }
}

// How many bits are set before each word, put into room that is there.
fn ones_before_words<A: Allocator>(words: &[u64], mut counts: Vec<u64, A>) -> Vec<u64, A>
    requires empty { counts.items ≡ [] }
    requires room { item_count words.now ≤ vec_capacity counts }
    requires few { ones_before words.now (item_count words.now * 64) < 2 ^ 64 }
    ensures { AreCounted words.now result.items }
{
    let mut count = 0;
    for index in 0..words.len() {
        counts.push_reserved(count);
        count += words[index].count_ones() as u64;
    }
    counts
}
