//! The first and the last number of a group.
ghost use Rattle.std.specs.Prelude.{◌≡◌, ◌+◌, ◌^◌, ◌<◌, ◌++◌, ⊤, ℤ, List, Option, length, option_map, replicate};
ghost use Rattle.runend_pairs.specs.GroupAnswers.{first_of, last_of};

use crate::folds::Fold;
use column_core::NativePType;

// The first number so far.
#[derive(Drop)]
pub(crate) struct First<T: NativePType> {
    found: Option<T>,
}

impl<T: NativePType> Fold<T, T> for First<T> {
    ghost keeps = { λ rows kept. first_of rows ≡ option_map T.number kept.found };

    ghost answer_of = { first_of };

    ghost gives = { λ n. ⊤ };

    fn start() -> First<T> {
        First { found: None }
    }

    fn add(&mut self, value: Option<T>, rows: usize)
        ensures { (before : List (Option ℤ)) → 0 < rows → length before + rows < 2 ^ 64 →
            first_of before ≡ option_map T.number self.old.found →
            first_of (before ++ replicate rows (option_map T.number value)) ≡ option_map T.number self.new.found }
    {
        self.found = self.found.or(value);
    }

    fn finish(&self) -> Option<Option<T>> {
        Some(self.found)
    }
}

// The last number so far.
#[derive(Drop)]
pub(crate) struct Last<T: NativePType> {
    found: Option<T>,
}

impl<T: NativePType> Fold<T, T> for Last<T> {
    ghost keeps = { λ rows kept. last_of rows ≡ option_map T.number kept.found };

    ghost answer_of = { last_of };

    ghost gives = { λ n. ⊤ };

    fn start() -> Last<T> {
        Last { found: None }
    }

    fn add(&mut self, value: Option<T>, rows: usize)
        ensures { (before : List (Option ℤ)) → 0 < rows → length before + rows < 2 ^ 64 →
            last_of before ≡ option_map T.number self.old.found →
            last_of (before ++ replicate rows (option_map T.number value)) ≡ option_map T.number self.new.found }
    {
        self.found = value.or(self.found);
    }

    fn finish(&self) -> Option<Option<T>> {
        Some(self.found)
    }
}
