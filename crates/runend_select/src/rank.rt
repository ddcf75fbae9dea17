//! How many of the first bits are true, by counts of the bits before each word.
ghost use Rattle.std.specs.Prelude.{◌≡◌, ◌-◌, ◌*◌, ◌/◌, ◌^◌, ◌<◌, ◌≤◌, IfOk, IsOkUnless, count_by, length, take};
ghost use Rattle.runend_select.specs.WordRanks.{AreWordRanks};

use crate::ranked::Ranked;
use column_core::{BitBuffer, VortexError, VortexResult};
use std::alloc::Allocator;

/// Selects the rows whose bit is true, and counts them by the ranks of words.
#[derive(Drop)]
pub(crate) struct BitRanks<'a, A: Allocator> {
    bits: &'a BitBuffer<A>,
    ranks: Vec<usize, A>,
}

impl<'a, A: Allocator + Copy> BitRanks<'a, A> {
    /// Counts the true bits before each word. Refused only as `OutOfMemory`.
    pub(crate) fn of(alloc: A, bits: &'a BitBuffer<A>) -> VortexResult<BitRanks<'a, A>>
        ensures only { IsOkUnless result VortexError.OutOfMemory }
        ensures bits { IfOk result (λ made. made.bits.now ≡ bits.now) }
        ensures ranked { IfOk result (λ made. AreWordRanks made.bits.now made.ranks.items) }
    {
        let ranks = word_ranks(alloc, bits)?;
        Ok(BitRanks { bits, ranks })
    }
}

impl<'a, A: Allocator + Copy> Ranked for BitRanks<'a, A> {
    ghost bits = { λ s. s.bits.now };

    ghost is_ranked = { λ s. AreWordRanks s.bits.now s.ranks.items };

    ghost passed = { λ s. 0 };

    #[inline(always)]
    fn rank(&mut self, place: usize) -> usize {
        rank_of(self.bits, self.ranks.as_slice(), place)
    }
}

// Counts for each word of 64 bits how many of the bits before it are true; the place after the last bit has a count
// too. Refused only as `OutOfMemory`.
fn word_ranks<A: Allocator + Copy>(alloc: A, bits: &BitBuffer<A>) -> VortexResult<Vec<usize, A>>
    ensures only { IsOkUnless result VortexError.OutOfMemory }
    ensures ranks { IfOk result (λ ranks. AreWordRanks bits.now ranks.items) }
{
    let words = bits.words();
    let whole = bits.len() / 64;
    let mut ranks = Vec::with_capacity(alloc, whole + 1)?;
    let mut rank = 0;
    ranks.push_reserved(0);
    for word in 0..whole {
        rank += words[word].count_ones() as usize;
        ranks.push_reserved(rank);
    }
    Ok(ranks)
}

// Returns how many of the bits before `place` are true, by the ranks of their words.
#[inline(always)]
fn rank_of<A: Allocator>(bits: &BitBuffer<A>, ranks: &[usize], place: usize) -> usize
    requires within { place ≤ length bits.now }
    requires ranks { AreWordRanks bits.now ranks.now }
    ensures { result ≡ count_by (λ bit. bit) (take place bits.now) }
{
    rank_within_word(bits, ranks[place / 64], place)
}

// Returns how many of the bits before `place` are true, where `before` bits before its word are true.
#[inline]
fn rank_within_word<A: Allocator>(bits: &BitBuffer<A>, before: usize, place: usize) -> usize
    requires within { place ≤ length bits.now }
    requires counted { before ≡ count_by (λ bit. bit) (take (place / 64 * 64) bits.now) }
    ensures { result ≡ count_by (λ bit. bit) (take place bits.now) }
{
    let words = bits.words();
    let index = place / 64;
    if index == words.len() {
        return before;
    }
    before + (words[index] & low_mask(place % 64)).count_ones() as usize
}

// The lowest `count` bits.
#[inline]
fn low_mask(count: usize) -> u64
    requires { count < 64 }
    ensures { result ≡ 2 ^ count - 1 }
{
    (1 << count) - 1
}
