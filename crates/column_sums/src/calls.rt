//! A list of the runs that a sum was given, and how often anything was added to it, which only contracts see. They take
//! no bytes, and their functions do nothing when the program runs.
//!
//! Their makers are proved by hand, as only such a proof can say what they are. So this module has nothing else: list
//! and number begin empty and at 0, and grow by one at a time, but cannot be copied or set.
ghost use Rattle.std.specs.Prelude.{◌≡◌, ◌+◌, ℕ, ℤ, pos, List, [], ◌∷◌, ◌++◌};
ghost use Rattle.std.specs.Borrow.{ftrue};

use std::marker::Model;

/// Lists the runs that a sum was given, in order, each value with its number of rows, and counts how often anything was
/// added to it.
#[derive(Drop)]
pub(crate) struct Calls {
    pub(crate) ghost runs: { List (ℤ × ℕ) },
    pub(crate) ghost additions: { ℕ },
}

// A struct without fields owns nothing, whatever its list and its number.
impl Model for Calls {
    ghost also_owns = { λ _. ftrue };
}

const _: () = prove!(size_of::<Calls>() == 0);

impl Calls {
    /// Returns the list of no runs, where nothing was added yet.
    #[inline]
    pub(crate) fn new() -> Calls
        ensures { result ≡ record { runs = []; additions = 0 } }
    {
        Calls {}
    }

    /// Returns the list with one more run, of a signed value.
    #[inline]
    pub(crate) fn and_signed(&self, _value: &i64, _len: &usize) -> Calls
        ensures { result ≡ record {
          runs = self.now.runs ++ (_value.now, _len.now) ∷ [];
          additions = self.now.additions;
        } }
    {
        Calls {}
    }

    /// Returns the list with one more run, of an unsigned value.
    #[inline]
    pub(crate) fn and_unsigned(&self, _value: &u64, _len: &usize) -> Calls
        ensures { result ≡ record {
          runs = self.now.runs ++ (pos _value.now, _len.now) ∷ [];
          additions = self.now.additions;
        } }
    {
        Calls {}
    }

    /// Returns the list after one more addition.
    #[inline]
    pub(crate) fn and_addition(&self) -> Calls
        ensures { result ≡ record { runs = self.now.runs; additions = self.now.additions + 1 } }
    {
        Calls {}
    }
}
