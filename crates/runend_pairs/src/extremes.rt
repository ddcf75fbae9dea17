//! The least and the greatest number of a group.
ghost use Rattle.std.specs.Prelude.{◌≡◌, ◌+◌, ◌^◌, ◌<◌, ◌++◌, ⊤, ℤ, List, Option, length, option_map, replicate, MatchOption};
ghost use Rattle.std.specs.Ordering.{ord_max, ord_min};
ghost use Rattle.runend_pairs.specs.GroupAnswers.{greatest_of, least_of, is_at_least, is_at_most, IsBound};

use crate::folds::Fold;
use column_core::NativePType;

// The least number so far.
#[derive(Drop)]
pub(crate) struct Least<T: NativePType> {
    found: Option<T>,
}

impl<T: NativePType> Fold<T, T> for Least<T> {
    ghost keeps = { λ rows kept. IsBound is_at_most rows (option_map T.number kept.found) };

    ghost answer_of = { least_of };

    ghost gives = { λ n. ⊤ };

    fn start() -> Least<T> {
        Least { found: None }
    }

    fn add(&mut self, value: Option<T>, rows: usize)
        ensures { (before : List (Option ℤ)) → 0 < rows → length before + rows < 2 ^ 64 →
            IsBound is_at_most before (option_map T.number self.old.found) →
            IsBound is_at_most (before ++ replicate rows (option_map T.number value))
            (option_map T.number self.new.found) }
    {
        if let Some(number) = value {
            self.found = Some(lesser(self.found, number));
        }
    }

    fn finish(&self) -> Option<Option<T>> {
        Some(self.found)
    }
}

// The lesser of the least number so far and the next one.
#[inline(always)]
fn lesser<T: NativePType>(found: Option<T>, number: T) -> T
    ensures { MatchOption found (result ≡ number) (λ least. result ≡ ord_min T.cmp least number) }
{
    match found {
        Some(least) => least.min(number),
        None => number,
    }
}

// The greatest number so far.
#[derive(Drop)]
pub(crate) struct Greatest<T: NativePType> {
    found: Option<T>,
}

impl<T: NativePType> Fold<T, T> for Greatest<T> {
    ghost keeps = { λ rows kept. IsBound is_at_least rows (option_map T.number kept.found) };

    ghost answer_of = { greatest_of };

    ghost gives = { λ n. ⊤ };

    fn start() -> Greatest<T> {
        Greatest { found: None }
    }

    fn add(&mut self, value: Option<T>, rows: usize)
        ensures { (before : List (Option ℤ)) → 0 < rows → length before + rows < 2 ^ 64 →
            IsBound is_at_least before (option_map T.number self.old.found) →
            IsBound is_at_least (before ++ replicate rows (option_map T.number value))
            (option_map T.number self.new.found) }
    {
        if let Some(number) = value {
            self.found = Some(greater(self.found, number));
        }
    }

    fn finish(&self) -> Option<Option<T>> {
        Some(self.found)
    }
}

// The greater of the greatest number so far and the next one.
#[inline(always)]
fn greater<T: NativePType>(found: Option<T>, number: T) -> T
    ensures { MatchOption found (result ≡ number) (λ greatest. result ≡ ord_max T.cmp greatest number) }
{
    match found {
        Some(greatest) => greatest.max(number),
        None => number,
    }
}
