//! Runs found one after another, while their lengths are read where they lie.
ghost use Rattle.std.specs.Prelude.{◌≡◌, ◌+◌, ◌-◌, ◌^◌, ◌<◌, ◌≤◌, ℕ, List, true, length, IfSome, IfNone, MatchOption};
ghost use Rattle.column_fields.specs.Lengths.{lengths_bytes, Rises};
ghost use Rattle.runend_windows.specs.Window.{last_end, IsRunAt};
ghost use Rattle.column_bytes.specs.ListViews.{IsReadTo};

use column_fields::read_shortest;

/// Says how far run lengths are read: how many runs, the end of the last of them (0 before the first), and the bytes of
/// the lengths after it.
#[derive(Clone, Copy)]
pub(crate) struct RunCursor<'a> {
    pub(crate) count: usize,
    pub(crate) end: u64,
    pub(crate) rest: &'a [u8],
}

/// Returns the cursor before the first run.
pub(crate) fn before_runs(lengths: &[u8]) -> RunCursor<'_>
    ensures { (ends : List ℕ) (position : ℕ) → Rises true 0 ends → length ends < 2 ^ 64 →
        lengths.now ≡ lengths_bytes 0 ends → IsReadTo ends position result }
{
    RunCursor {
        count: 0,
        end: 0,
        rest: lengths,
    }
}

impl<'a> RunCursor<'a> {
    /// Returns the cursor after the run that holds the row of a window that begins at this offset, or `None` exactly
    /// where the runs end before it.
    pub(crate) fn past_row(self, offset: u64, row: u64) -> Option<RunCursor<'a>>
        ensures past { IfSome result (λ c. row < c.end - offset) }
        ensures found { (ends : List ℕ) → IsReadTo ends (offset + row) self.entry → offset + row < last_end ends →
            MatchOption result ⊥ (λ c. IsReadTo ends (offset + row) c × IsRunAt ends (offset + row) (c.count - 1)) }
    {
        let mut cursor = self;
        while cursor.end.saturating_sub(offset) <= row {
            cursor = cursor.past_run()?;
        }
        Some(cursor)
    }

    /// Returns the place of the last run that is read, or 0 before the first.
    pub(crate) fn run(self) -> usize
        ensures { result ≡ self.entry.count - 1 }
    {
        self.count.saturating_sub(1)
    }

    // The cursor after one more run.
    fn past_run(self) -> Option<RunCursor<'a>>
        ensures shorter { IfSome result (λ c. length c.rest.now < length self.entry.rest.now) }
        ensures found { (ends : List ℕ) (position : ℕ) → IsReadTo ends position self.entry → self.entry.end ≤ position →
            position < last_end ends → MatchOption result ⊥ (λ c. IsReadTo ends position c) }
    {
        let (length, rest) = read_shortest(self.rest)?;
        Some(RunCursor {
            count: self.count.checked_add(1)?,
            end: self.end.checked_add(length)?,
            rest,
        })
    }
}
