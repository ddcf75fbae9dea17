//! Counts of the rows of a group.
ghost use Rattle.std.specs.Prelude.{◌≡◌, ◌+◌, ◌^◌, ◌<◌, ◌++◌, ⊤, ℤ, List, Option, length, option_map, replicate};
ghost use Rattle.runend_pairs.specs.GroupAnswers.{count_of, numbers_of, row_count_of};

use crate::folds::Fold;
use column_core::NativePType;

// The number of rows.
#[derive(Drop)]
pub(crate) struct RowCount {
    rows: usize,
}

impl<T: NativePType> Fold<T, u64> for RowCount {
    ghost keeps = { λ rows kept. kept.rows ≡ length rows };

    ghost answer_of = { row_count_of };

    ghost gives = { λ n. ⊤ };

    fn start() -> RowCount {
        RowCount { rows: 0 }
    }

    fn add(&mut self, value: Option<T>, rows: usize)
        ensures { (before : List (Option ℤ)) → 0 < rows → length before + rows < 2 ^ 64 →
            self.old.rows ≡ length before →
            self.new.rows ≡ length (before ++ replicate rows (option_map T.number value)) }
    {
        self.rows = self.rows.saturating_add(rows);
    }

    fn finish(&self) -> Option<Option<u64>> {
        Some(Some(self.rows as u64))
    }
}

// The number of rows that are not null.
#[derive(Drop)]
pub(crate) struct ValidCount {
    rows: usize,
}

impl<T: NativePType> Fold<T, u64> for ValidCount {
    ghost keeps = { λ rows kept. kept.rows ≡ length (numbers_of rows) };

    ghost answer_of = { count_of };

    ghost gives = { λ n. ⊤ };

    fn start() -> ValidCount {
        ValidCount { rows: 0 }
    }

    fn add(&mut self, value: Option<T>, rows: usize)
        ensures { (before : List (Option ℤ)) → 0 < rows → length before + rows < 2 ^ 64 →
            self.old.rows ≡ length (numbers_of before) →
            self.new.rows ≡ length (numbers_of (before ++ replicate rows (option_map T.number value))) }
    {
        if value.is_some() {
            self.rows = self.rows.saturating_add(rows);
        }
    }

    fn finish(&self) -> Option<Option<u64>> {
        Some(Some(self.rows as u64))
    }
}
