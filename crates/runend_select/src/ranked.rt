//! What a filter asks of the selected rows, whether bits or the runs of a mask select them.
ghost use Rattle.std.specs.Prelude.{◌≡◌, ℕ, ◌≤◌, List, Bool, count_by, length, take};

/// Selects rows, and counts them up to places, each of which is no less than the place before.
pub(crate) trait Ranked {
    // Whether each row is selected.
    ghost bits: { Self → List Bool };

    // It can count.
    ghost is_ranked: { Self → Type 0 };

    // The place up to which rows are passed: no place before it may be asked for any more.
    ghost passed: { Self → ℕ };

    /// Returns how many of the rows before `place` are selected.
    fn rank(&mut self, place: usize) -> usize
        requires ranked { is_ranked self.old }
        requires within { place ≤ length (bits self.old) }
        requires onward { passed self.old ≤ place }
        ensures rank { result ≡ count_by (λ bit. bit) (take place (bits self.old)) }
        ensures bits { bits self.new ≡ bits self.old }
        ensures ranked { is_ranked self.new }
        ensures passed { passed self.new ≤ place };
}
