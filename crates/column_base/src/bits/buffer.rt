//! A list of bits to read, 64 to a word.
ghost use Rattle.std.specs.Prelude.{◌≡◌, ◌<◌, ◌≤◌, ◌%◌, ◌⊎◌, ◌↔◌, IsTrue, Some, [], length, slice_get, slice_range, count_by, IfOk, IsOkUnless};
ghost use Rattle.column_base.specs.Bits.{set_indices_of};
ghost use Rattle.column_base.specs.Words.{Packs, first_bits};

use crate::bits::copies::copy_bits;
use crate::bits::counts::{ones_between, ones_of};
use crate::bits::fills::clear_from;
use crate::bits::masks::words_for;
use crate::bits::set_indices::SetIndices;
use crate::error::{VortexError, VortexResult};
use shared_buffer::Buffer;
use std::alloc::Allocator;
use std::marker::Model;
use std::ops::Range;

/// Holds bits, which do not change, in words that columns may share.
#[derive(Drop)]
pub struct BitBuffer<A: Allocator> {
    words: Buffer<u64, A>,
    count: usize,
}

impl<A: Allocator> Model for BitBuffer<A> {
    ghost use Rattle.std.specs.Prelude.{List, Bool};
    ghost use Rattle.column_base.specs.Words.{Packs, first_bits};

    ghost Value = { List Bool };

    ghost view = { λ buffer. first_bits buffer.count buffer.words.items };

    ghost invariant = { λ buffer. Packs buffer.words.items (first_bits buffer.count buffer.words.items) };
}

impl<A: Allocator> BitBuffer<A> {
    /// Returns how many bits there are.
    pub fn len(&self) -> usize
        ensures { result ≡ length self.now }
    {
        self.count
    }

    /// Returns whether the buffer has no bits.
    pub fn is_empty(&self) -> bool
        ensures { IsTrue result ↔ (self.now ≡ []) }
    {
        self.count == 0
    }

    /// Returns the bit at `index`.
    pub fn value(&self, index: usize) -> bool
        requires { index < length self.now }
        ensures { slice_get self.now index ≡ Some result }
    {
        (self.words[index / 64] >> (index % 64)) & 1 == 1
    }

    /// Returns the words that hold the bits, 64 to a word from its lowest bit up: as few words as hold them, with 0
    /// after the last bit.
    pub fn words(&self) -> &[u64]
        ensures { Packs result.now self.now }
    {
        self.words.as_slice()
    }

    /// Returns how many bits are true.
    pub fn true_count(&self) -> usize
        ensures { result ≡ count_by (λ bit. bit) self.now }
    {
        // Read for its range: the count of 1s is not larger.
        let _count = self.count;
        let words = self.words.as_slice();
        ones_of(words)
    }

    /// Returns how many of the bits from `start` to `stop - 1` are true.
    pub fn count_range(&self, start: usize, stop: usize) -> usize
        requires ordered { start ≤ stop }
        requires in_bounds { stop ≤ length self.now }
        ensures { result ≡ count_by (λ bit. bit) (slice_range self.now start stop) }
    {
        if start == stop {
            return 0;
        }
        let words = self.words.as_slice();
        let first = start / 64;
        let last = stop / 64;
        if first == last {
            return ones_between(words[first], start % 64, stop % 64);
        }
        let front = ones_between(words[first], start % 64, 64);
        let middle = ones_of(&words[first + 1..last]);
        if stop % 64 == 0 {
            return front + middle;
        }
        let back = ones_between(words[last], 0, stop % 64);
        front + middle + back
    }

    /// Returns the places of the true bits, from the first to the last.
    pub fn set_indices(&self) -> SetIndices<'_>
        ensures { result ≡ set_indices_of self.now }
    {
        // Read for its range: a buffer has no more than 2^58 words.
        let _count = self.count;
        let words = self.words.as_slice();
        SetIndices::in_words(words)
    }
}

impl<A: Allocator + Copy> BitBuffer<A> {
    // The first `count` bits of the words, which have no further word and no 1 after them.
    pub(crate) fn of_words(words: Vec<u64, A>, count: usize) -> BitBuffer<A>
        requires { Packs words.items (first_bits count words.items) }
        ensures { result ≡ first_bits count words.items }
    {
        BitBuffer {
            words: Buffer::shared(words),
            count,
        }
    }

    /// Returns the bits from `range.start` to `range.end - 1`. Shares them if they are shared, and the range begins
    /// with a word and ends with a word or the last bit; copies them otherwise. Refused only for memory.
    pub fn slice(&self, alloc: A, range: Range<usize>) -> VortexResult<BitBuffer<A>>
        requires ordered { range.start ≤ range.end }
        requires in_bounds { range.end ≤ length self.now }
        ensures bits { IfOk result (λ part. part ≡ slice_range self.now range.start range.end) }
        ensures only { IsOkUnless result VortexError.OutOfMemory }
    {
        let ends_whole = range.end % 64 == 0 || range.end == self.count;
        if range.start % 64 == 0 && ends_whole {
            return self.whole_words(alloc, range.start, range.end);
        }
        self.copied_bits(alloc, range.start, range.end)
    }

    // The bits from `start` to `stop - 1`, in words that have no other bit.
    fn whole_words(&self, alloc: A, start: usize, stop: usize) -> VortexResult<BitBuffer<A>>
        requires ordered { start ≤ stop }
        requires in_bounds { stop ≤ length self.now }
        requires first_of_word { start % 64 ≡ 0 }
        requires last_of_word { (stop % 64 ≡ 0) ⊎ (stop ≡ length self.now) }
        ensures bits { IfOk result (λ part. part ≡ slice_range self.now start stop) }
        ensures only { IsOkUnless result VortexError.OutOfMemory }
    {
        let words = self.words.slice(alloc, start / 64..words_for(stop))?;
        Ok(BitBuffer {
            words,
            count: stop - start,
        })
    }

    // The bits from `start` to `stop - 1`, in words of their own.
    fn copied_bits(&self, alloc: A, start: usize, stop: usize) -> VortexResult<BitBuffer<A>>
        requires ordered { start ≤ stop }
        requires in_bounds { stop ≤ length self.now }
        ensures bits { IfOk result (λ part. part ≡ slice_range self.now start stop) }
        ensures only { IsOkUnless result VortexError.OutOfMemory }
    {
        let count = stop - start;
        let mut part = vec![in alloc; 0; words_for(count)]?;
        let words = part.as_mut_slice();
        copy_bits(words, self.words.as_slice(), start);
        clear_from(words, count);
        Ok(BitBuffer::of_words(part, count))
    }

    /// Returns a copy of the bits. Shares them if they are shared, and copies them otherwise. Refused only for memory.
    pub fn try_clone(&self, alloc: A) -> VortexResult<BitBuffer<A>>
        ensures bits { IfOk result (λ copy. copy ≡ self.now) }
        ensures only { IsOkUnless result VortexError.OutOfMemory }
    {
        Ok(BitBuffer {
            words: self.words.try_clone(alloc)?,
            count: self.count,
        })
    }
    /// Returns a copy of the bits that nothing else shares: a longer buffer that these are a part of may then be freed.
    /// Refused only for memory.
    pub fn compact(&self, alloc: A) -> VortexResult<BitBuffer<A>>
        ensures bits { IfOk result (λ copy. copy ≡ self.now) }
        ensures only { IsOkUnless result VortexError.OutOfMemory }
    {
        Ok(BitBuffer {
            words: self.words.compact(alloc)?,
            count: self.count,
        })
    }
}
