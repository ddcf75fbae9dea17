//! Sums of runs.
ghost use Rattle.std.specs.Prelude.{◌≡◌, ◌<◌, ◌+◌, ◌≤◌, ◌++◌, ℕ, ℤ, pos, List, Option, None, Some, length, option_map, IfSome, false, true};
ghost use Rattle.column_sums.specs.Summed.{IsLeftAfter, IsSummed, IsSummedOn, IsSumOfRuns, run_rows, run_value};
ghost use Rattle.column_sums.specs.SumRange.{sum_range};
ghost use Rattle.column_sums.specs.Reach.{AreFlagsOfEight, AreSized, IsStored};
ghost use Rattle.column_sums.specs.RunSum.{calls_of, rows_of_runs, valid_runs};
ghost use Rattle.column_sums.specs.SumAnswer.{answer_of, value_in};
ghost use Rattle.column_sums.specs.SumState.{IsCounted};

use crate::answer::SumAnswer;
use crate::known_runs::add_known_runs;
use crate::run_sum::RunSum;
use column_core::NativePType;
use std::mem;

// How many runs are looked at together, to find what the greatest of them can add.
const BLOCK: usize = 256;

/// Gives runs of numbers, each of which some row shows.
pub trait Runs<V: NativePType> {
    // Each run's value, or null, and how many rows show it.
    ghost runs: { Self → List (Option ℤ × ℕ) };

    /// Returns how many runs there are.
    fn run_count(&self) -> usize
        ensures { result ≡ length (runs self.now) };

    /// Returns the run's value, or `None` for a run of nulls.
    fn value(&self, run: usize) -> Option<V>
        requires { run < length (runs self.now) }
        ensures { run_value (runs self.now) run ≡ Some (option_map V.number result) };

    /// Returns how many rows show the run: at least one.
    fn row_count(&self, run: usize) -> usize
        requires { run < length (runs self.now) }
        ensures counted { run_rows (runs self.now) run ≡ Some result }
        ensures shown { 0 < result };

    /// Returns how many rows show a run that is neither the first nor the last: at least one. Only those two can be cut
    /// by a window, so that others may be counted in a simpler way.
    #[inline(always)]
    fn inner_row_count(&self, run: usize) -> usize
        requires inner { (0 < run) × (run + 1 < length (runs self.now)) }
        ensures counted { run_rows (runs self.now) run ≡ Some result }
        ensures shown { 0 < result }
    {
        self.row_count(run)
    }

    /// Returns a number of rows that all runs together do not exceed, where it is known. It lets values that cannot
    /// take the sum out of the range be added untested.
    #[inline(always)]
    fn row_bound(&self) -> Option<u32>
        ensures { IfSome result (λ rows. length (rows_of_runs (runs self.now)) ≤ rows) }
    {
        None
    }

    /// Returns a size that no value of the runs from `from` to `to - 1` exceeds, where values can be read at little
    /// cost.
    #[inline(always)]
    fn size_between(&self, from: usize, to: usize) -> Option<u64>
        requires some { from < to }
        requires within { to ≤ length (runs self.now) }
        ensures { IfSome result (λ size. AreSized (sum_range V.PTYPE) size (run_value (runs self.now)) from to) }
    {
        None
    }

    /// Returns in its lowest eight bits which of eight runs are not null, where that can be read at little cost.
    #[inline(always)]
    fn flags_of_eight(&self, from: usize) -> Option<u64>
        requires { from + 8 ≤ length (runs self.now) }
        ensures { IfSome result (λ flags. AreFlagsOfEight flags (run_value (runs self.now)) from) }
    {
        None
    }

    /// Returns the run's value, and any number for a run of nulls.
    #[inline(always)]
    fn stored(&self, run: usize) -> V
        requires { run < length (runs self.now) }
        ensures { IsStored (run_value (runs self.now) run) (V.number result) }
    {
        match self.value(run) {
            Some(value) => value,
            None => V::default(),
        }
    }
}

/// Returns the sum of the rows of the runs, by adding each run that is not null, up to and with the first that leaves
/// the range. It adds nothing else, and at most as often as there are such runs. Where there is a sum, the accumulator
/// has it too.
#[inline]
pub fn sum_in_runs<V: NativePType, S: RunSum<V>, R: Runs<V>>(runs: &R, sum: &mut S) -> SumAnswer
    requires { (S.state sum.old).value ≡ pos 0 }
    ensures answer { result ≡ answer_of (sum_range V.PTYPE) (rows_of_runs (R.runs runs.now)) }
    ensures calls { (S.state sum.new).calls ≡ (S.state sum.old).calls ++
        calls_of (sum_range V.PTYPE) (R.runs runs.now) }
    ensures few { length (S.state sum.new).calls ≤ length (S.state sum.old).calls +
        length (valid_runs (R.runs runs.now)) }
    ensures additions { (S.state sum.new).additions ≤ (S.state sum.old).additions +
        length (valid_runs (R.runs runs.now)) }
    ensures value { IfSome result.sum (λ value. value ≡ value_in (sum_range V.PTYPE) (S.state sum.new).value) }
{
    // (the sum is a local while it grows, so that no run waits for memory)
    let mut running = mem::replace(sum, S::empty());
    let answer = add_runs(runs, &mut running);
    *sum = running;
    answer
}

// The sum of the rows of the runs, over the accumulator where it is.
#[inline(always)]
fn add_runs<V: NativePType, S: RunSum<V>, R: Runs<V>>(runs: &R, sum: &mut S) -> SumAnswer
    requires { (S.state sum.old).value ≡ pos 0 }
    ensures answer { result ≡ answer_of (sum_range V.PTYPE) (rows_of_runs (R.runs runs.now)) }
    ensures calls { (S.state sum.new).calls ≡ (S.state sum.old).calls ++
        calls_of (sum_range V.PTYPE) (R.runs runs.now) }
    ensures few { length (S.state sum.new).calls ≤ length (S.state sum.old).calls +
        length (valid_runs (R.runs runs.now)) }
    ensures additions { (S.state sum.new).additions ≤ (S.state sum.old).additions +
        length (valid_runs (R.runs runs.now)) }
    ensures value { IfSome result.sum (λ value. value ≡ value_in (sum_range V.PTYPE) (S.state sum.new).value) }
{
    match add_parts(runs, sum) {
        Some(is_empty) => SumAnswer {
            sum: Some(sum.total()),
            is_empty,
        },
        None => SumAnswer {
            sum: None,
            is_empty: false,
        },
    }
}

// The first run, those between, and the last. Returns whether all are null, and nothing where the sum leaves the range.
#[inline(always)]
fn add_parts<V: NativePType, S: RunSum<V>, R: Runs<V>>(runs: &R, sum: &mut S) -> Option<bool>
    requires { (S.state sum.old).value ≡ pos 0 }
    ensures summed { IfSome result (λ is_empty. IsSummed (sum_range V.PTYPE) (S.state sum.old).calls
        (R.runs runs.now) (length (R.runs runs.now)) (S.state sum.new) is_empty) }
    ensures left { result ≡ None → IsSumOfRuns (sum_range V.PTYPE) (S.state sum.old).calls (R.runs runs.now) None
        (S.state sum.new).calls false }
    ensures counted { IsCounted (S.state sum.old) (S.state sum.new) }
{
    let count = runs.run_count();
    let first = count.min(1);
    let last = count.saturating_sub(1).max(first);
    let start_empty = add_between::<false, V, S, R>(runs, 0, first, sum, true)?;
    let inner_empty = add_inner::<V, S, R>(runs, first, last, sum, start_empty)?;
    add_between::<false, V, S, R>(runs, last, count, sum, inner_empty)
}

// The runs from one to before another, block by block. The first and the last of all runs are not among them.
#[inline(always)]
fn add_inner<V: NativePType, S: RunSum<V>, R: Runs<V>>(
    runs: &R,
    from: usize,
    to: usize,
    sum: &mut S,
    is_empty: bool,
) -> Option<bool>
    requires within { to ≤ length (R.runs runs.now) }
    requires ordered { from ≤ to }
    requires inner { from < to → (0 < from) × (to < length (R.runs runs.now)) }
    ensures summed { IfSome result (λ empty. IsSummedOn (sum_range V.PTYPE) (R.runs runs.now) from (S.state sum.old)
        is_empty to (S.state sum.new) empty) }
    ensures left { result ≡ None → IsLeftAfter (sum_range V.PTYPE) (R.runs runs.now) from (S.state sum.old) is_empty
        (S.state sum.new) }
    ensures counted { IsCounted (S.state sum.old) (S.state sum.new) }
{
    let mut empty = is_empty;
    let mut run = from;
    while run < to {
        let stop = block_end(run, to);
        let known = add_known_runs::<V, S, R>(runs, run, stop, sum, empty);
        empty = add_between::<true, V, S, R>(runs, known.end, stop, sum, known.is_empty)?;
        run = stop;
    }
    Some(empty)
}

// Where the block of runs ends that begins with a run.
#[inline(always)]
fn block_end(run: usize, to: usize) -> usize
    requires { run < to }
    ensures low { run < result }
    ensures high { result ≤ to }
{
    run + BLOCK.min(to - run)
}

// The runs from one to before another, each tested, where `INNER` says that neither the first nor the last of all is
// among them.
#[inline(always)]
fn add_between<const INNER: bool, V: NativePType, S: RunSum<V>, R: Runs<V>>(
    runs: &R,
    from: usize,
    to: usize,
    sum: &mut S,
    is_empty: bool,
) -> Option<bool>
    requires within { to ≤ length (R.runs runs.now) }
    requires ordered { from ≤ to }
    requires inner { INNER ≡ true → from < to → (0 < from) × (to < length (R.runs runs.now)) }
    ensures summed { IfSome result (λ empty. IsSummedOn (sum_range V.PTYPE) (R.runs runs.now) from (S.state sum.old)
        is_empty to (S.state sum.new) empty) }
    ensures left { result ≡ None → IsLeftAfter (sum_range V.PTYPE) (R.runs runs.now) from (S.state sum.old) is_empty
        (S.state sum.new) }
    ensures counted { IsCounted (S.state sum.old) (S.state sum.new) }
{
    let mut empty = is_empty;
    for run in from..to {
        if let Some(value) = runs.value(run) {
            empty = false;
            if !sum.add(value, rows_of::<INNER, V, R>(runs, run)) {
                return None;
            }
        }
    }
    Some(empty)
}

// How many rows show a run.
#[inline(always)]
fn rows_of<const INNER: bool, V: NativePType, R: Runs<V>>(runs: &R, run: usize) -> usize
    requires within { run < length (R.runs runs.now) }
    requires inner { INNER ≡ true → (0 < run) × (run + 1 < length (R.runs runs.now)) }
    ensures counted { run_rows (R.runs runs.now) run ≡ Some result }
    ensures shown { 0 < result }
{
    if INNER {
        runs.inner_row_count(run)
    } else {
        runs.row_count(run)
    }
}
