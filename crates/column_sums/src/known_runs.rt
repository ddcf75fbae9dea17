//! Runs that are added untested, since what their values can add at most leaves the sum in the range: eight at a time,
//! without a branch for a null among them.
ghost use Rattle.std.specs.Prelude.{◌≡◌, ◌<◌, ◌+◌, ◌-◌, ◌^◌, ◌≤◌, Some, length, drop, option_map, IfSome, true};
ghost use Rattle.column_sums.specs.Reach.{AreFlagsOfEight, AreSized, StaysWithin};
ghost use Rattle.column_sums.specs.RunSum.{rows_of_runs};
ghost use Rattle.column_sums.specs.Summed.{IsSummedOn, run_value};
ghost use Rattle.column_sums.specs.SumRange.{sum_range};
ghost use Rattle.column_sums.specs.SumState.{IsCounted};

use crate::run_sum::RunSum;
use crate::runs::Runs;
use column_core::NativePType;

// The size that numbers of 31 bits and a sign have at most.
const SHORT_SIZE: u64 = (1 << 31) - 1;

/// Says that the runs before `end` are added, and whether none of them was valid.
#[derive(Drop)]
pub(crate) struct Part {
    pub(crate) end: usize,
    pub(crate) is_empty: bool,
}

/// Adds those of these runs that can be added untested, from the first on: all but up to seven, or none. Neither the
/// first nor the last run of all is among them.
#[inline(always)]
pub(crate) fn add_known_runs<V: NativePType, S: RunSum<V>, R: Runs<V>>(
    runs: &R,
    from: usize,
    to: usize,
    sum: &mut S,
    is_empty: bool,
) -> Part
    requires within { to ≤ length (R.runs runs.now) }
    requires some { from < to }
    requires inner { (0 < from) × (to < length (R.runs runs.now)) }
    ensures from { from ≤ result.end }
    ensures to { result.end ≤ to }
    ensures summed { IsSummedOn (sum_range V.PTYPE) (R.runs runs.now) from (S.state sum.old) is_empty
        result.end (S.state sum.new) result.is_empty }
    ensures counted { IsCounted (S.state sum.old) (S.state sum.new) }
{
    match size_in_reach::<V, S, R>(runs, from, to, sum) {
        Some(size) if size <= SHORT_SIZE => {
            add_eights::<true, V, S, R>(runs, from, to, size, sum, is_empty)
        }
        Some(size) => add_eights::<false, V, S, R>(runs, from, to, size, sum, is_empty),
        None => Part {
            end: from,
            is_empty,
        },
    }
}

// A size that no value of the runs exceeds, if the rows of all runs, with values of this size, leave the sum in the
// range.
#[inline(always)]
fn size_in_reach<V: NativePType, S: RunSum<V>, R: Runs<V>>(
    runs: &R,
    from: usize,
    to: usize,
    sum: &S,
) -> Option<u64>
    requires some { from < to }
    requires within { to ≤ length (R.runs runs.now) }
    ensures sized { IfSome result (λ size. AreSized (sum_range V.PTYPE) size (run_value (R.runs runs.now)) from to) }
    ensures few { IfSome result (λ size. length (rows_of_runs (R.runs runs.now)) < 2 ^ 31) }
    ensures stays { IfSome result (λ size. StaysWithin (sum_range V.PTYPE) size (S.state sum.now).value
        (length (rows_of_runs (R.runs runs.now)))) }
{
    let rows = runs.row_bound()?;
    let size = runs.size_between(from, to)?;
    if sum.stays_within(size, rows) {
        Some(size)
    } else {
        None
    }
}

// As many of the runs as make eights, where their flags can be read.
#[inline(always)]
fn add_eights<const SHORT: bool, V: NativePType, S: RunSum<V>, R: Runs<V>>(
    runs: &R,
    from: usize,
    to: usize,
    size: u64,
    sum: &mut S,
    is_empty: bool,
) -> Part
    requires within { to ≤ length (R.runs runs.now) }
    requires ordered { from ≤ to }
    requires inner { (0 < from) × (to < length (R.runs runs.now)) }
    requires sized { AreSized (sum_range V.PTYPE) size (run_value (R.runs runs.now)) from to }
    requires short { SHORT ≡ true → size ≤ 2 ^ 31 - 1 }
    requires few { length (rows_of_runs (R.runs runs.now)) < 2 ^ 31 }
    requires stays { StaysWithin (sum_range V.PTYPE) size (S.state sum.old).value
        (length (rows_of_runs (drop from (R.runs runs.now)))) }
    ensures from { from ≤ result.end }
    ensures to { result.end ≤ to }
    ensures summed { IsSummedOn (sum_range V.PTYPE) (R.runs runs.now) from (S.state sum.old) is_empty
        result.end (S.state sum.new) result.is_empty }
    ensures counted { IsCounted (S.state sum.old) (S.state sum.new) }
{
    let last = to - (to - from) % 8;
    let mut all_null = is_empty;
    let mut run = from;
    while run < last {
        let Some(flags) = runs.flags_of_eight(run) else {
            break;
        };
        all_null = add_eight::<SHORT, V, S, R>(runs, run, flags, size, sum, all_null);
        run += 8;
    }
    Part {
        end: run,
        is_empty: all_null,
    }
}

// Adds eight runs; flags say which of them are not null. Their sum is worked out in lanes of its own, and added at
// once, where one of them is valid. Returns whether all runs so far are null.
#[inline(always)]
fn add_eight<const SHORT: bool, V: NativePType, S: RunSum<V>, R: Runs<V>>(
    runs: &R,
    from: usize,
    flags: u64,
    size: u64,
    sum: &mut S,
    is_empty: bool,
) -> bool
    requires inner { (0 < from) × (from + 8 < length (R.runs runs.now)) }
    requires in_range { from + 8 < 2 ^ 64 }
    requires flags { AreFlagsOfEight flags (run_value (R.runs runs.now)) from }
    requires sized { AreSized (sum_range V.PTYPE) size (run_value (R.runs runs.now)) from (from + 8) }
    requires short { SHORT ≡ true → size ≤ 2 ^ 31 - 1 }
    requires few { length (rows_of_runs (R.runs runs.now)) < 2 ^ 31 }
    requires stays { StaysWithin (sum_range V.PTYPE) size (S.state sum.old).value
        (length (rows_of_runs (drop from (R.runs runs.now)))) }
    ensures stays { StaysWithin (sum_range V.PTYPE) size (S.state sum.new).value
        (length (rows_of_runs (drop (from + 8) (R.runs runs.now)))) }
    ensures summed { IsSummedOn (sum_range V.PTYPE) (R.runs runs.now) from (S.state sum.old) is_empty
        (from + 8) (S.state sum.new) result }
    ensures counted { IsCounted (S.state sum.old) (S.state sum.new) }
{
    let mut lanes = V::default();
    let mut all_null = true;
    for lane in 0..8 {
        let value = value_of_lane::<V, R>(runs, from, flags, lane);
        let len = runs.inner_row_count(from + lane);
        all_null = all_null & value.is_none();
        lanes = S::lane_added(lanes, value, len, SHORT);
        sum.list(value, len);
    }
    if !all_null {
        sum.add_lanes(lanes);
    }
    is_empty & all_null
}

// The value of one of eight runs. It is read before its flag is asked, so that eight values are read without a branch.
#[inline(always)]
fn value_of_lane<V: NativePType, R: Runs<V>>(
    runs: &R,
    from: usize,
    flags: u64,
    lane: usize,
) -> Option<V>
    requires lane { lane < 8 }
    requires within { from + 8 ≤ length (R.runs runs.now) }
    requires in_range { from + 8 < 2 ^ 64 }
    requires flags { AreFlagsOfEight flags (run_value (R.runs runs.now)) from }
    ensures { run_value (R.runs runs.now) (from + lane) ≡ Some (option_map V.number result) }
{
    let stored = runs.stored(from + lane);
    if (flags >> lane) & 1 == 1 {
        Some(stored)
    } else {
        None
    }
}
