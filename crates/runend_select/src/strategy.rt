//! The strategies, and the thresholds by which one is picked.

/// Names a way to find the run of each index.
#[derive(Clone, Copy, Debug, PartialEq, Eq)]
pub enum Strategy {
    /// Merges indices that are sorted with the ends, in one walk over both.
    SortedMerge,
    /// Makes a bit for each row, set where a run ends. The run of an index is the number of bits that are set up to its
    /// row: a table of the runs of all rows, in 16 bytes for 64 rows.
    Table,
    /// Sorts the indices, and then merges them with the ends.
    SortAndMerge,
    /// Searches the ends for each index, by binary search.
    Binary,
}

/// Limits where each strategy but the last is picked, in numbers of runs or rows. With 0 in all four, each index of a
/// row is found by binary search.
#[derive(Clone, Copy, Debug, PartialEq, Eq)]
pub struct TakeThresholds {
    /// Sets the greatest number of runs for each valid index at which sorted indices are merged.
    pub sorted_runs_per_index: usize,
    /// Sets the greatest number of rows for each valid index at which each row gets a bit (`Strategy::Table`).
    pub table_len_per_index: usize,
    /// Sets the least number of runs at which indices are sorted: fewer ends stay in the processor's caches, and a
    /// binary search is faster.
    pub unsorted_min_runs: usize,
    /// Sets the greatest number of runs for each valid index at which indices are sorted and merged.
    pub unsorted_runs_per_index: usize,
}
