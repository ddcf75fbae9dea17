//! What a sum answers.

/// Holds a sum: unsigned numbers are summed in `u64`, signed ones in `i64`.
#[derive(Debug, Clone, Copy, PartialEq, Eq)]
pub enum SumValue {
    Unsigned(u64),
    Signed(i64),
}

/// Holds the sum of the rows that are not null, added one at a time in order from 0, or `None`
/// where some partial sum leaves the range of `u64` or `i64`; and whether no row is valid, where
/// the sum is 0.
#[derive(Debug, Clone, Copy, PartialEq, Eq)]
pub struct SumAnswer {
    pub sum: Option<SumValue>,
    pub is_empty: bool,
}
