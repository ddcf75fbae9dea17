//! Which run a row is in. Ends and rows count rows, and runs are counted from 0.
ghost use Rattle.std.specs.Prelude.{◌≡◌, ℕ, ◌+◌, ◌-◌, ◌*◌, ◌^◌, ◌<◌, ◌≤◌, IsTrue, count_by, length, map, min, nat_le, nat_lt, unsigned_abs};
ghost use Rattle.std.specs.List.Sorted.{IsStrictlyIncreasing};
ghost use Rattle.column_base.specs.Numbers.{numbers, ptype_of};
ghost use Rattle.column_base.specs.Types.{IsUnsigned};
ghost use Rattle.column_core.specs.Digits.{digits};
ghost use Rattle.column_core.specs.PrimitiveForm.{primitive_dtype};
ghost use Rattle.runend_windows.specs.Window.{run_at, last_end};
ghost use Rattle.runend_windows.specs.Ends.{IsEndsType, ends_of};

use column_base::match_each_unsigned;
use column_core::{CountedEnds, PrimitiveArray, PrimitiveValues, UnsignedPType};
use std::alloc::Allocator;

// Up to this number of runs a search takes no branch. With more runs, ends of `u32` do not fit a second-level cache of
// 1 MiB: to wait for an end then costs more than a wrong prediction of a branch, and a right one fetches the next end
// meanwhile.
const NEAR_RUNS: usize = 1 << 18;

/// Returns the run of a row: the first run that ends past it, or the number of runs where none does. As the ends
/// increase, that is also the number of ends at or below the row.
///
/// The search is binary, so it tests at most as many ends as their number has binary digits, as the clauses `cost` and
/// `bound` say.
pub fn first_past<E: UnsignedPType>(ends: &mut CountedEnds<'_, E>, row: usize) -> usize
    requires { IsStrictlyIncreasing ends.old.ends }
    ensures place { result ≡ run_at ends.old.ends row }
    ensures count { result ≡ count_by (λ e. nat_le e row) ends.old.ends }
    ensures same { ends.new.ends ≡ ends.old.ends }

    ensures cost { ends.new.tests ≤ ends.old.tests + digits (length ends.old.ends) }
    // How many ends are tested, without the word `digits`.
    ensures bound { (k : ℕ) → length ends.old.ends < 2 ^ k → ends.new.tests ≤ ends.old.tests + k }
{
    if ends.len() > NEAR_RUNS {
        search_by_branch(ends, row)
    } else {
        search_by_mask(ends, row)
    }
}

// The binary search whose next test waits for this one. What is left is halved whatever a test says, so that a step
// waits for one end and one mask.
fn search_by_mask<E: UnsignedPType>(ends: &mut CountedEnds<'_, E>, row: usize) -> usize
    requires { IsStrictlyIncreasing ends.old.ends }
    ensures place { result ≡ run_at ends.old.ends row }
    ensures same { ends.new.ends ≡ ends.old.ends }
    ensures cost { ends.new.tests ≤ ends.old.tests + digits (length ends.old.ends) }
{
    let mut run = 0;
    // The run of the row is at most `left` runs after `run`.
    let mut left = ends.len();
    while left != 0 {
        let step = left - left / 2;
        run += ends.number_if_ended(run + step - 1, row, step);
        left -= step;
    }
    run
}

// The binary search whose next test is predicted. As a call of its own it stays a branch.
#[inline(never)]
fn search_by_branch<E: UnsignedPType>(ends: &mut CountedEnds<'_, E>, row: usize) -> usize
    requires { IsStrictlyIncreasing ends.old.ends }
    ensures place { result ≡ run_at ends.old.ends row }
    ensures same { ends.new.ends ≡ ends.old.ends }
    ensures cost { ends.new.tests ≤ ends.old.tests + digits (length ends.old.ends) }
{
    let mut low = 0;
    let mut high = ends.len();
    while low < high {
        let middle = low + (high - low) / 2;
        if ends.test(middle, row) {
            low = middle + 1;
        } else {
            high = middle;
        }
    }
    low
}

/// Returns the runs of four rows, searched side by side, so that their ends are waited for together. It tests no more
/// ends for a row than a search for only that row.
pub fn first_past_four<E: UnsignedPType>(
    ends: &mut CountedEnds<'_, E>,
    rows: (usize, usize, usize, usize),
) -> (usize, usize, usize, usize)
    requires { IsStrictlyIncreasing ends.old.ends }
    ensures first { result.0 ≡ run_at ends.old.ends rows.0 }
    ensures second { result.1 ≡ run_at ends.old.ends rows.1 }
    ensures third { result.2 ≡ run_at ends.old.ends rows.2 }
    ensures fourth { result.3 ≡ run_at ends.old.ends rows.3 }
    ensures same { ends.new.ends ≡ ends.old.ends }
    ensures cost { ends.new.tests ≤ ends.old.tests + 4 * digits (length ends.old.ends) }
{
    let (mut first, mut second, mut third, mut fourth) = (0, 0, 0, 0);
    let mut left = ends.len();
    while left != 0 {
        let half = left - left / 2;
        let first_step = ends.number_if_ended(first + half - 1, rows.0, half);
        let second_step = ends.number_if_ended(second + half - 1, rows.1, half);
        let third_step = ends.number_if_ended(third + half - 1, rows.2, half);
        let fourth_step = ends.number_if_ended(fourth + half - 1, rows.3, half);
        first += first_step;
        second += second_step;
        third += third_step;
        fourth += fourth_step;
        left -= half;
    }
    (first, second, third, fourth)
}

// The run of a row, over ends as they are stored.
fn first_past_in<E: UnsignedPType>(ends: &[E], row: usize) -> usize
    requires { IsStrictlyIncreasing (map E.natural ends.now) }
    ensures place { result ≡ run_at (map E.natural ends.now) row }
    ensures count { result ≡ count_by (λ e. nat_le e row) (map E.natural ends.now) }
{
    first_past(&mut CountedEnds::new(ends), row)
}

/// Returns the run of a row, over flat ends: the first run that ends past it, or the number of runs where none does.
pub fn first_past_of<A: Allocator>(ends: &PrimitiveArray<A>, row: usize) -> usize
    requires plain { IsEndsType (primitive_dtype ends.now) }
    requires increasing { IsStrictlyIncreasing (ends_of ends.now) }
    ensures place { result ≡ run_at (ends_of ends.now) row }
    ensures count { result ≡ count_by (λ e. nat_le e row) (ends_of ends.now) }
{
    first_past_among(ends.values(), row)
}

#[tactic(auto, using(crate::proofs::Ends::ends_stored))]
fn first_past_among<A: Allocator>(ends: &PrimitiveValues<A>, row: usize) -> usize
    requires unsigned { IsUnsigned (ptype_of ends.now) }
    requires increasing { IsStrictlyIncreasing (map unsigned_abs (numbers ends.now)) }
    ensures place { result ≡ run_at (map unsigned_abs (numbers ends.now)) row }
    ensures count { result ≡ count_by (λ e. nat_le e row) (map unsigned_abs (numbers ends.now)) }
{
    match_each_unsigned!(ends, items => first_past_in(items.as_slice(), row))
}

fn last_item<E: UnsignedPType>(ends: &[E]) -> usize
    ensures { result ≡ last_end (map E.natural ends.now) }
{
    match ends.last() {
        Some(end) => end.to_u64() as usize,
        None => 0,
    }
}

/// Returns the last of flat ends, or 0 where there is none.
pub fn last_end_of<A: Allocator>(ends: &PrimitiveArray<A>) -> usize
    requires { IsEndsType (primitive_dtype ends.now) }
    ensures { result ≡ last_end (ends_of ends.now) }
{
    match_each_unsigned!(ends.values(), items => last_item(items.as_slice()))
}

/// Returns how many of flat ends are below a row.
pub fn ended_before<A: Allocator>(ends: &PrimitiveArray<A>, row: usize) -> usize
    requires plain { IsEndsType (primitive_dtype ends.now) }
    requires increasing { IsStrictlyIncreasing (ends_of ends.now) }
    ensures place { result ≡ count_by (λ e. nat_lt e row) (ends_of ends.now) }
    ensures bound { result ≤ length ends.now.numbers }
{
    if row == 0 {
        return 0;
    }
    first_past_of(ends, row - 1)
}
