//! Sums of numbers of either sign over the visible runs, whose types were matched before: the loop reads slices.
ghost use Rattle.std.specs.Prelude.{◌≡◌, ◌+◌, ◌++◌, ◌-◌, ◌≤◌, length, map, pos};
ghost use Rattle.column_base.specs.ValidityForm.{flags};
ghost use Rattle.column_base.specs.Validity.{validity_flags};
ghost use Rattle.column_core.specs.Optionals.{optionals};
ghost use Rattle.column_sums.specs.RunSum.{calls_of, rows_of_runs, valid_runs};
ghost use Rattle.column_sums.specs.SumAnswer.{answer_of, number_in};
ghost use Rattle.column_sums.specs.SumRange.{sum_range};
ghost use Rattle.runend_windows.specs.Window.{IsWindow};
ghost use Rattle.runend_array.specs.Column.{column_rows};
ghost use Rattle.runend_array.specs.RowRuns.{first_visible, stop_visible};
ghost use Rattle.runend_aggregate.specs.ShownRuns.{runs_from, visible_runs};

use crate::visible;
use column_core::{NativePType, UnsignedPType, Validity};
use column_sums::{
    AllNull, AllValid, ByBits, Items, Numbers, RunSum, Runs, SumAnswer, SummedIn, sum_in_runs,
};
use runend_array::{RunEndArray, RunEndArrayExt};
use std::alloc::Allocator;
use std::marker::PhantomData;

/// Returns the sum of the rows, of values that are these items where they are valid.
pub(crate) fn sum_items<V, S, E, T, A>(
    array: &RunEndArray<A>,
    ends: &[E],
    items: &[T],
    validity: &Validity<A>,
    sum: &mut S,
) -> SumAnswer
where
    V: NativePType,
    S: RunSum<V>,
    E: UnsignedPType,
    T: SummedIn<V>,
    A: Allocator + Copy,
    requires ends { map E.natural ends.now ≡ array.now.ends }
    requires items { optionals (map T.number items.now) (validity_flags validity.now (length items.now)) ≡
        map number_in (column_rows array.now.values) }
    requires zero { (S.state sum.old).value ≡ pos 0 }
    ensures answer { result ≡ answer_of (sum_range V.PTYPE) (rows_of_runs (visible_runs array.now)) }
    ensures calls { (S.state sum.new).calls ≡ (S.state sum.old).calls ++
        calls_of (sum_range V.PTYPE) (visible_runs array.now) }
    ensures few { length (S.state sum.new).calls ≤ length (S.state sum.old).calls +
        length (valid_runs (visible_runs array.now)) }
    ensures additions { (S.state sum.new).additions ≤ (S.state sum.old).additions +
        length (valid_runs (visible_runs array.now)) }
{
    let count = items.len();
    match validity {
        Validity::NonNullable | Validity::AllValid => {
            let flags = &AllValid { count };
            sum_numbers(array, ends, &Items { items, flags }, sum)
        }
        Validity::AllInvalid => sum_numbers(array, ends, &AllNull { count }, sum),
        Validity::Bits(bits) => {
            let flags = &ByBits { bits };
            sum_numbers(array, ends, &Items { items, flags }, sum)
        }
    }
}

/// Returns the sum of the rows, of values that are these numbers. A call, so that each loop has the registers to
/// itself.
#[inline(never)]
pub(crate) fn sum_numbers<V, S, E, N, A>(
    array: &RunEndArray<A>,
    ends: &[E],
    numbers: &N,
    sum: &mut S,
) -> SumAnswer
where
    V: NativePType,
    S: RunSum<V>,
    E: UnsignedPType,
    N: Numbers<V>,
    A: Allocator + Copy,
    requires ends { map E.natural ends.now ≡ array.now.ends }
    requires numbers { N.numbers numbers.now ≡ map number_in (column_rows array.now.values) }
    requires zero { (S.state sum.old).value ≡ pos 0 }
    ensures answer { result ≡ answer_of (sum_range V.PTYPE) (rows_of_runs (visible_runs array.now)) }
    ensures calls { (S.state sum.new).calls ≡ (S.state sum.old).calls ++
        calls_of (sum_range V.PTYPE) (visible_runs array.now) }
    ensures few { length (S.state sum.new).calls ≤ length (S.state sum.old).calls +
        length (valid_runs (visible_runs array.now)) }
    ensures additions { (S.state sum.new).additions ≤ (S.state sum.old).additions +
        length (valid_runs (visible_runs array.now)) }
{
    let runs = array.visible_runs();
    let visible: Visible<'_, V, E, N> = Visible {
        ends,
        numbers,
        first: runs.start,
        stop: runs.end,
        offset: array.offset(),
        count: array.len(),
        summed_in: PhantomData,
    };
    sum_in_runs(&visible, sum)
}

// Runs from `first` to `stop - 1`, which a window of `count` rows from position `offset` on shows.
#[derive(Drop)]
struct Visible<'a, V: NativePType, E: UnsignedPType, N: Numbers<V>> {
    ends: &'a [E],
    numbers: &'a N,
    first: usize,
    stop: usize,
    offset: usize,
    count: usize,
    summed_in: PhantomData<V>,
    ghost window: { IsWindow (map E.natural ends.now) offset count },
    ghost paired: { length (N.numbers numbers.now) ≡ length ends.now },
    ghost begun: { first ≡ first_visible (map E.natural ends.now) offset count },
    ghost ended: { stop ≡ stop_visible (map E.natural ends.now) offset count },
    ghost inside: { stop ≤ length ends.now },
}

impl<'a, V: NativePType, E: UnsignedPType, N: Numbers<V>> Runs<V> for Visible<'a, V, E, N> {
    ghost runs = { λ s. runs_from (map E.natural s.ends.now) (N.numbers s.numbers.now) s.offset s.count s.first
        (s.stop - s.first) };

    #[inline]
    fn run_count(&self) -> usize {
        self.stop.saturating_sub(self.first)
    }

    #[inline]
    fn value(&self, run: usize) -> Option<V> {
        prove!(run < self.stop - self.first);
        self.numbers.number(self.first + run)
    }

    #[inline]
    fn row_count(&self, run: usize) -> usize {
        prove!(run < self.stop - self.first);
        visible::rows_of_run(self.ends, self.first + run, self.offset, self.count)
    }

    #[inline(always)]
    fn inner_row_count(&self, run: usize) -> usize {
        prove!(run < self.stop - self.first);
        visible::rows_between(self.ends, self.first + run)
    }

    #[inline(always)]
    fn size_between(&self, from: usize, to: usize) -> Option<u64> {
        prove!(to <= self.stop - self.first);
        self.numbers
            .size_between(self.first + from, self.first + to)
    }

    #[inline(always)]
    fn flags_of_eight(&self, from: usize) -> Option<u64> {
        prove!(from < self.stop - self.first);
        self.numbers.flags_of_eight(self.first + from)
    }

    #[inline(always)]
    fn stored(&self, run: usize) -> V {
        prove!(run < self.stop - self.first);
        self.numbers.stored(self.first + run)
    }

    #[inline(always)]
    fn row_bound(&self) -> Option<u32> {
        match u32::try_from(self.count) {
            Ok(rows) => Some(rows),
            Err(_) => None,
        }
    }
}
