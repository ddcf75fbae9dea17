//! Runs of integers of one type, for walks along them.
ghost use Rattle.std.specs.Prelude.{◌≡◌, ◌<◌, Some, length, map, option_map, slice_get, slice_index};
ghost use Rattle.column_base.specs.Validity.{form_of, validity_flags};
ghost use Rattle.column_core.specs.Optionals.{optionals};
ghost use Rattle.runend_windows.specs.Ends.{ends_of};
ghost use Rattle.runend_pairs.specs.Groups.{AreValueRuns};

use crate::ends::end_of;
use column_core::{NativePType, PrimitiveArray, Validity};
use std::alloc::Allocator;

/// Lends runs from the first row on: the row that each ends before, its number, and which of them are null.
#[derive(Drop)]
pub(crate) struct ValueRuns<'a, T: NativePType, A: Allocator> {
    pub(crate) ends: &'a PrimitiveArray<A>,
    pub(crate) items: &'a [T],
    pub(crate) validity: &'a Validity<A>,
}

impl<'a, T: NativePType, A: Allocator> ValueRuns<'a, T, A> {
    /// Returns the row that a run ends before.
    #[inline]
    pub(crate) fn end(&self, run: usize) -> usize
        requires runs { AreValueRuns self.now.ends.now (length self.now.items.now) (form_of self.now.validity.now) }
        requires there { run < length (ends_of self.now.ends.now) }
        ensures end { result ≡ slice_index (ends_of self.now.ends.now) run }
        ensures bounded { run < usize.MAX }
    {
        end_of(self.ends, run)
    }

    /// Returns the number of a run, or `None` for a run of nulls.
    #[inline]
    pub(crate) fn value(&self, run: usize) -> Option<T>
        requires runs { AreValueRuns self.now.ends.now (length self.now.items.now) (form_of self.now.validity.now) }
        requires there { run < length (ends_of self.now.ends.now) }
        ensures { slice_get (optionals (map T.number self.now.items.now) (validity_flags self.now.validity.now
            (length self.now.items.now))) run ≡ Some (option_map T.number result) }
    {
        let items = self.items;
        if self.validity.is_valid(run) {
            Some(items[run])
        } else {
            None
        }
    }
}
