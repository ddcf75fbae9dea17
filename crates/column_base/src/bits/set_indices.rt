//! The places of true bits, word by word.
ghost use Rattle.std.specs.Prelude.{◌≡◌, ◌^◌, ◌≤◌, length, slice_index};
ghost use Rattle.std.specs.Iterator.{YieldsFirst, item_count};
ghost use Rattle.column_base.specs.Words.{places_left};

use crate::bits::copies::word_or_zero;
use std::marker::Model;

/// Iterates over the places of true bits, counted from 0, from the first to the last.
#[derive(Drop)]
pub struct SetIndices<'a> {
    words: &'a [u64],
    // What is left of the word at `index`.
    current: u64,
    index: usize,
}

impl<'a> Model for SetIndices<'a> {
    ghost use Rattle.std.specs.Prelude.{List, ℕ, ◌<◌, ◌≤◌, ◌^◌, length};
    ghost use Rattle.column_base.specs.Words.{places_left};

    ghost Value = { List ℕ };

    ghost view = { λ indices. places_left indices.words.now indices.current indices.index };

    ghost invariant = { λ indices. (indices.index < 2 ^ 58) × (length indices.words.now ≤ 2 ^ 58) };
}

impl<'a> SetIndices<'a> {
    // The places of all 1s of the words.
    pub(crate) fn in_words(words: &'a [u64]) -> SetIndices<'a>
        requires { length words.now ≤ 2 ^ 58 }
        ensures { result ≡ places_left words.now (slice_index words.now 0) 0 }
    {
        SetIndices {
            words,
            current: word_or_zero(words, 0),
            index: 0,
        }
    }
}

impl<'a> Iterator for SetIndices<'a> {
    type Item = usize;

    ghost next_gives = { YieldsFirst (λ indices. indices) };

    ghost remaining = { item_count (λ indices. indices) };

    fn next(&mut self) -> Option<usize> {
        while self.current == 0 {
            let index = self.index + 1;
            if index >= self.words.len() {
                return None;
            }
            self.index = index;
            self.current = self.words[index];
        }
        let place = self.index * 64 + self.current.trailing_zeros() as usize;
        // The lowest 1 goes.
        self.current &= self.current - 1;
        Some(place)
    }
}
