//! Which of some items are valid. The type of flags is that of the reader, so that a loop over it asks for none.
ghost use Rattle.std.specs.Prelude.{◌≡◌, ◌<◌, ◌≤◌, ◌+◌, ◌-◌, ◌/◌, ◌%◌, ℕ, Bool, List, Some, true, false, length, replicate, slice_get, slice_index_or};
ghost use Rattle.std.specs.Int.{bit_at};
ghost use Rattle.column_base.specs.Words.{digit_at, one_if};

use column_core::BitBuffer;
use std::alloc::Allocator;

/// Says of each item whether it is valid.
pub trait ItemFlags {
    // A flag for each item.
    ghost flags: { Self → List Bool };

    /// Returns whether the item at `index` is valid.
    fn is_valid(&self, index: usize) -> bool
        requires { index < length (flags self.now) }
        ensures { slice_get (flags self.now) index ≡ Some result };

    /// Returns the flags of eight items from `index` on in its lowest eight bits.
    fn flags_of_eight(&self, index: usize) -> u64
        requires { index + 8 ≤ length (flags self.now) }
        ensures { (k : ℕ) → k < 8 → bit_at result k ≡ one_if (slice_index_or (flags self.now) (index + k) false) };
}

/// Counts items that are all valid.
#[derive(Drop)]
pub struct AllValid {
    pub count: usize,
}

impl ItemFlags for AllValid {
    ghost flags = { λ items. replicate items.count true };

    #[inline]
    fn is_valid(&self, _index: usize) -> bool {
        true
    }

    #[inline(always)]
    fn flags_of_eight(&self, _index: usize) -> u64 {
        255
    }
}

/// Has a bit for each item, which says whether it is valid.
#[derive(Drop)]
pub struct ByBits<'a, A: Allocator> {
    pub bits: &'a BitBuffer<A>,
}

impl<'a, A: Allocator> ItemFlags for ByBits<'a, A> {
    ghost flags = { λ items. items.bits.now };

    #[inline]
    fn is_valid(&self, index: usize) -> bool {
        self.bits.value(index)
    }

    #[inline(always)]
    fn flags_of_eight(&self, index: usize) -> u64 {
        // Read for its range: there are less than 2^64 bits.
        let _count = self.bits.len();
        let words = self.bits.words();
        prove!((index + 7) / 64 < words.len());
        eight_bits(words, index)
    }
}

// Eight bits from `index` on, in the lowest eight of the result. They come from one word, or from two.
#[inline(always)]
fn eight_bits(words: &[u64], index: usize) -> u64
    requires { (index + 7) / 64 < length words.now }
    ensures { (k : ℕ) → k < 8 → bit_at result k ≡ digit_at words.now (index + k) }
{
    let low = index % 64;
    let word = words[index / 64] >> low;
    if low <= 56 {
        return word & 255;
    }
    (word | (words[index / 64 + 1] << (64 - low))) & 255
}
