//! A list of bits that grows, 64 to a word.
ghost use Rattle.std.specs.Prelude.{◌≡◌, ◌-◌, ◌*◌, ◌≤◌, ◌↔◌, IsTrue, [], ◌∷◌, ◌++◌, length, replicate, take, drop, IfOk, OnOk, OnErr, IsOkUnless};
ghost use Rattle.column_base.specs.Words.{first_bits};

use crate::bits::buffer::BitBuffer;
use crate::bits::fills::{clear_from, fill_bits, fill_rest_of_word};
use crate::bits::masks::{splat, words_for};
use crate::error::{VortexError, VortexResult};
use std::alloc::Allocator;
use std::marker::Model;

/// Holds bits that are being written. It grows by the allocator that it was made with.
#[derive(Drop)]
pub struct BitBufferMut<A: Allocator> {
    words: Vec<u64, A>,
    count: usize,
}

impl<A: Allocator> Model for BitBufferMut<A> {
    ghost use Rattle.std.specs.Prelude.{List, Bool};
    ghost use Rattle.column_base.specs.Words.{Packs, first_bits};

    ghost Value = { List Bool };

    ghost view = { λ buffer. first_bits buffer.count buffer.words.items };

    ghost invariant = { λ buffer. Packs buffer.words.items (first_bits buffer.count buffer.words.items) };
}

impl<A: Allocator + Copy> BitBufferMut<A> {
    /// Returns no bits, and room for `capacity` bits. Refused only for memory.
    pub fn with_capacity(alloc: A, capacity: usize) -> VortexResult<Self>
        ensures empty { IfOk result (λ buffer. buffer ≡ []) }
        ensures only { IsOkUnless result VortexError.OutOfMemory }
    {
        Ok(BitBufferMut {
            words: Vec::with_capacity(alloc, words_for(capacity))?,
            count: 0,
        })
    }

    /// Makes `count` bits, each of them `value`. Refused only for memory.
    pub fn full(alloc: A, value: bool, count: usize) -> VortexResult<Self>
        ensures bits { IfOk result (λ buffer. buffer ≡ replicate count value) }
        ensures only { IsOkUnless result VortexError.OutOfMemory }
    {
        let mut words = vec![in alloc; splat(value); words_for(count)]?;
        clear_from(&mut words, count);
        Ok(BitBufferMut { words, count })
    }

    /// Returns the first `count` bits of the words, 64 to a word from its lowest bit up. Whatever comes after them in
    /// the words is dropped. Takes no memory.
    pub fn from_words(mut words: Vec<u64, A>, count: usize) -> Self
        requires in_words { count ≤ length words.items * 64 }
        ensures { result ≡ first_bits count words.items }
    {
        words.truncate(words_for(count));
        clear_from(words.as_mut_slice(), count);
        BitBufferMut { words, count }
    }

    /// Returns how many bits there are.
    pub fn len(&self) -> usize
        ensures { result ≡ length self.now }
    {
        self.count
    }

    /// Returns whether it has no bits.
    pub fn is_empty(&self) -> bool
        ensures { IsTrue result ↔ (self.now ≡ []) }
    {
        self.count == 0
    }

    /// Appends `bit`. Refused only for memory, and then the bits stay as they are.
    pub fn append(&mut self, bit: bool) -> VortexResult<()>
        ensures ok { OnOk result (self.new ≡ self.old ++ bit ∷ []) }
        ensures err { OnErr result (self.new ≡ self.old) }
        ensures only { IsOkUnless result VortexError.OutOfMemory }
    {
        // No memory has these bits, but their number would not fit `usize`.
        if self.count == usize::MAX {
            return Err(VortexError::OutOfMemory);
        }
        let low = self.count % 64;
        if low == 0 {
            self.words.push(u64::from(bit))?;
            self.count += 1;
            return Ok(());
        }
        let last = self.count / 64;
        self.words[last] |= u64::from(bit) << low;
        self.count += 1;
        Ok(())
    }

    /// Appends `bit` `count` times. Refused only for memory, and then the bits stay as they are.
    pub fn append_n(&mut self, bit: bool, count: usize) -> VortexResult<()>
        ensures ok { OnOk result (self.new ≡ self.old ++ replicate count bit) }
        ensures err { OnErr result (self.new ≡ self.old) }
        ensures only { IsOkUnless result VortexError.OutOfMemory }
    {
        if count > usize::MAX - self.count {
            return Err(VortexError::OutOfMemory);
        }
        let end = self.count + count;
        let needed = words_for(end);
        if needed == self.words.len() {
            // Short runs mostly end in the word that they begin in.
            fill_bits(&mut self.words, self.count, end, bit);
            self.count = end;
            return Ok(());
        }
        // All the memory at first, so that no later step can fail half-way.
        self.words.resize(needed, splat(bit))?;
        let words = self.words.as_mut_slice();
        fill_rest_of_word(words, self.count, bit);
        clear_from(words, end);
        self.count = end;
        Ok(())
    }

    /// Sets each bit from `start` to `stop - 1` to `bit`, and changes no other.
    pub fn fill_range(&mut self, start: usize, stop: usize, bit: bool)
        requires ordered { start ≤ stop }
        requires in_bounds { stop ≤ length self.old }
        ensures { self.new ≡ take start self.old ++ (replicate (stop - start) bit ++ drop stop self.old) }
    {
        fill_bits(&mut self.words, start, stop, bit);
    }

    /// Keeps the first `count` bits, or all bits where there are fewer.
    pub fn truncate(&mut self, count: usize)
        ensures { self.new ≡ take count self.old }
    {
        if count >= self.count {
            return;
        }
        self.words.truncate(words_for(count));
        clear_from(&mut self.words, count);
        self.count = count;
    }

    /// Returns the bits as a buffer, in which they do not change any more. Shares their words as `Buffer::shared` does,
    /// copies nothing, and is not refused where memory runs out.
    pub fn freeze(self) -> BitBuffer<A>
        ensures { result ≡ self }
    {
        BitBuffer::of_words(self.words, self.count)
    }
}
