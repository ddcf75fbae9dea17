//! A count of tests that only contracts see. It takes no bytes, and its functions do nothing when the program runs.
//!
//! Its makers are proved by hand, as only such a proof can say what the count is. So this module has
//! nothing else, and the count can be made at 0 or grow by a number, but cannot be copied or set.
ghost use Rattle.std.specs.Prelude.{◌≡◌, ◌+◌, ℕ};
ghost use Rattle.std.specs.Borrow.{ftrue};

use std::marker::Model;

/// Counts the tests that were made.
#[derive(Drop)]
pub(crate) struct TestCount {
    pub(crate) ghost count: { ℕ },
}

// A struct without fields owns nothing, whatever its count.
impl Model for TestCount {
    ghost also_owns = { λ _. ftrue };
}

impl TestCount {
    /// Returns a count of 0 tests.
    pub(crate) fn new() -> TestCount
        ensures { result.count ≡ 0 }
    {
        TestCount {}
    }

    /// Returns the count with `_tests` more tests. Nothing reads the number when the program runs.
    #[inline]
    pub(crate) fn plus(&self, _tests: usize) -> TestCount
        ensures { result.count ≡ self.now.count + _tests }
    {
        TestCount {}
    }
}
