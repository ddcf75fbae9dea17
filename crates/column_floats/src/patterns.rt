//! Which patterns of floats are stored.

/// Says which patterns of floats are stored.
#[derive(Clone, Copy, Debug, PartialEq, Eq)]
pub enum FloatPatterns {
    /// Keeps each float as it is: 0.0 and -0.0 differ, and each NaN keeps its sign and its payload.
    Exact,
    /// Keeps one pattern for each value: 0.0 for both zeros, and one quiet NaN for all NaNs.
    Canonical,
}
