//! The ends of runs. Each test of an end is counted, which only contracts see.
ghost use Rattle.std.specs.Prelude.{◌≡◌, ◌+◌, ◌-◌, ◌^◌, ◌<◌, ◌≤◌, ◌↔◌, IsTrue, length, map, min, slice_index};

mod test_count;

use crate::counted::test_count::TestCount;
use column_base::UnsignedPType;
use std::marker::Model;

/// Lends the ends of runs, of which only the number, `test`, `number_if_ended` and `rows_to_end` can be read. A call of
/// `test` or `number_if_ended` counts as one test, and a call of `rows_to_end` as the tests that would say the same. So
/// a contract on the number of tests bounds all that a search can learn of the ends.
///
/// A contract sees a record: `ends`, the ends as natural numbers (in rows), and `tests`, the number of tests so far.
/// The count takes no bytes and no time.
#[derive(Drop)]
pub struct CountedEnds<'a, E: UnsignedPType> {
    ends: &'a [E],
    tests: TestCount,
}

impl<'a, E: UnsignedPType> Model for CountedEnds<'a, E> {
    ghost use Rattle.std.specs.Prelude.{map};
    ghost use Rattle.column_core.specs.Counted.{Counted};

    ghost Value = { Counted };

    ghost view = { λ s. record { ends = map E.natural s.ends.now; tests = s.tests.count } };
}

impl<'a, E: UnsignedPType> CountedEnds<'a, E> {
    /// Returns these ends, of which none was tested yet.
    pub fn new(ends: &'a [E]) -> CountedEnds<'a, E>
        ensures { result ≡ record { ends = map E.natural ends.now; tests = 0 } }
    {
        CountedEnds {
            ends,
            tests: TestCount::new(),
        }
    }

    /// Returns how many runs there are.
    pub fn len(&self) -> usize
        ensures { result ≡ length self.now.ends }
    {
        self.ends.len()
    }

    /// Returns whether it has no runs.
    pub fn is_empty(&self) -> bool
        ensures { IsTrue result ↔ (length self.now.ends ≡ 0) }
    {
        self.ends.is_empty()
    }

    /// Returns whether the run ends at or below the row. This is one test.
    #[inline]
    pub fn test(&mut self, run: usize, row: usize) -> bool
        requires { run < length self.old.ends }
        ensures says { IsTrue result ↔ (slice_index self.old.ends run ≤ row) }
        ensures same { self.new.ends ≡ self.old.ends }
        ensures counted { self.new.tests ≡ self.old.tests + 1 }
    {
        self.tested_end(run) <= row as u64
    }

    /// Returns the number where the run ends at or below the row, and else 0. This is one test. A search that adds the
    /// number needs no branch on the test.
    #[inline(always)]
    pub fn number_if_ended(&mut self, run: usize, row: usize, number: usize) -> usize
        requires { run < length self.old.ends }
        ensures ended { slice_index self.old.ends run ≤ row → result ≡ number }
        ensures past { row < slice_index self.old.ends run → result ≡ 0 }
        ensures same { self.new.ends ≡ self.old.ends }
        ensures counted { self.new.tests ≡ self.old.tests + 1 }
    {
        number & ended_mask(self.tested_end(run), row as u64) as usize
    }

    /// Returns how many of `limit` rows, from `position` on, lie before the end of the run. Tests of one row after the
    /// other would find this, up to the first row that is not before the end, and it counts as many tests: one for each
    /// row that lies before the end, and one more where the end comes before the limit. The end is read once.
    #[inline]
    pub fn rows_to_end(&mut self, run: usize, position: usize, limit: usize) -> usize
        requires { run < length self.old.ends }
        ensures rows { result ≡ min (slice_index self.old.ends run - position) limit }
        ensures same { self.new.ends ≡ self.old.ends }
        ensures counted { self.new.tests ≡ self.old.tests + min (result + 1) limit }
    {
        let rows_left = self.end(run).saturating_sub(position as u64);
        let rows = rows_left.min(limit as u64) as usize;
        self.tests = self.tests.plus(rows.saturating_add(1).min(limit));
        rows
    }

    // The end of a run, which counts as one test.
    #[inline(always)]
    fn tested_end(&mut self, run: usize) -> u64
        requires { run < length self.old.ends }
        ensures end { result ≡ slice_index self.old.ends run }
        ensures same { self.new.ends ≡ self.old.ends }
        ensures counted { self.new.tests ≡ self.old.tests + 1 }
    {
        self.tests = self.tests.plus(1);
        self.end(run)
    }

    // The end of a run, only for callers that count the test.
    #[inline]
    fn end(&self, run: usize) -> u64
        requires { run < length self.now.ends }
        ensures { result ≡ slice_index self.now.ends run }
    {
        let ends = self.ends;
        ends[run].to_u64()
    }
}

// All ones where the end is at or below the row, and else 0: the upper 64 bits of a difference of 128 bits, which are
// what it borrowed. The compiler would make a branch of a comparison again, and a search mispredicts every other test.
#[inline(always)]
fn ended_mask(end: u64, row: u64) -> u64
    ensures ended { end ≤ row → result ≡ 2 ^ 64 - 1 }
    ensures past { row < end → result ≡ 0 }
{
    let gap = u128::from(end).wrapping_sub(u128::from(row) + 1);
    (gap >> 64) as u64
}
