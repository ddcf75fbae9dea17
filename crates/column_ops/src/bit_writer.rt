//! Bits that are written one after the other, 64 to a word. The word that is not full yet is kept in a register, so
//! that no bit waits for memory.
ghost use Rattle.std.specs.Prelude.{◌≡◌, ◌∷◌, ◌++◌, [], length, IfOk, IsOkUnless, OnErr, OnOk};

use column_core::{BitBufferMut, VortexError, VortexResult};
use std::alloc::Allocator;
use std::marker::Model;

/// Holds bits that are being written.
#[derive(Drop)]
pub struct BitWriter<A: Allocator> {
    words: Vec<u64, A>,
    // The last bits, fewer than 64 of them.
    word: u64,
    filled: usize,
}

impl<A: Allocator> Model for BitWriter<A> {
    ghost use Rattle.std.specs.Prelude.{List, Bool};
    ghost use Rattle.column_ops.specs.WrittenBits.{written_bits, IsPartWord};

    ghost Value = { List Bool };

    ghost view = { λ writer. written_bits writer.words.items writer.word writer.filled };

    ghost invariant = { λ writer. IsPartWord writer.word writer.filled };
}

impl<A: Allocator + Copy> BitWriter<A> {
    /// Returns no bits, and room for `capacity` bits. Refused only for memory.
    pub fn with_capacity(alloc: A, capacity: usize) -> VortexResult<Self>
        ensures empty { IfOk result (λ writer. writer ≡ []) }
        ensures only { IsOkUnless result VortexError.OutOfMemory }
    {
        Ok(BitWriter {
            words: Vec::with_capacity(alloc, capacity.div_ceil(64))?,
            word: 0,
            filled: 0,
        })
    }

    /// Appends `bit`. Refused only for memory, and then the bits stay as they were.
    #[inline(always)]
    pub fn append(&mut self, bit: bool) -> VortexResult<()>
        ensures ok { OnOk result (self.new ≡ self.old ++ bit ∷ []) }
        ensures kept { OnErr result (self.new ≡ self.old) }
        ensures only { IsOkUnless result VortexError.OutOfMemory }
    {
        let word = self.word | (u64::from(bit) << self.filled);
        if self.filled < 63 {
            self.word = word;
            self.filled += 1;
            return Ok(());
        }
        self.words.push(word)?;
        self.word = 0;
        self.filled = 0;
        Ok(())
    }

    /// Returns the bits that were written, `count` of them. Refused only for memory.
    pub fn finish(self, count: usize) -> VortexResult<BitBufferMut<A>>
        requires { count ≡ length self }
        ensures only { IsOkUnless result VortexError.OutOfMemory }
        ensures bits { IfOk result (λ bits. bits ≡ self) }
    {
        if self.filled == 0 {
            return Ok(BitBufferMut::from_words(self.words, count));
        }
        let word = self.word;
        let mut words = self.words;
        words.push(word)?;
        Ok(BitBufferMut::from_words(words, count))
    }
}
