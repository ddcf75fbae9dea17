//! Neighbouring rows that show the same.

/// Holds what a row shows, and the row before which the equal rows from it on end.
#[derive(Clone, Copy)]
pub(crate) struct Stretch<T> {
    pub(crate) value: T,
    pub(crate) stop: usize,
}
