//! What is calculated from the values in each group.

/// Names what is calculated from the values in a group. Each answer but `Rows` looks only at the values that are not
/// null.
#[derive(Clone, Copy, Debug, Drop, PartialEq, Eq)]
pub enum GroupFold {
    /// Adds the values, in `i64` for signed ones and in `u64` for unsigned ones; null where all are null.
    Sum,
    /// Counts the rows, in `u64`: null values count.
    Rows,
    /// Counts the values that are not null, in `u64`: 0 where all are null.
    Count,
    /// Finds the least value; null where all are null.
    Least,
    /// Finds the greatest value; null where all are null.
    Greatest,
    /// Finds the first value that is not null, in the order of the rows; null where all are null.
    First,
    /// Finds the last value that is not null, in the order of the rows; null where all are null.
    Last,
}
