//! The loops that join runs: each run shows a row, and is looked at once.
ghost use Rattle.std.specs.Prelude.{◌≡◌, ◌+◌, ◌-◌, ◌<◌, ◌≤◌, ◌++◌, ◌↔◌, [], ◌∷◌, ℕ, Some, pos, true, false, All, IfOk, IsOkUnless, IsTrue, drop, length, map, min, replicate, slice_get, slice_index, take};
ghost use Rattle.std.specs.Prelude.{◌≢◌};
ghost use Rattle.std.specs.List.{AllAdjacentBelow};
ghost use Rattle.column_base.specs.Types.{HasNumber};
ghost use Rattle.column_base.specs.ValidityForm.{HasLength, flags};
ghost use Rattle.column_base.specs.Validity.{form_of, validity_flags};
ghost use Rattle.column_core.specs.PrimitiveForm.{AreZeroAtNulls, optionals};
ghost use Rattle.runend_windows.specs.Cover.{IsTightCover};
ghost use Rattle.runend_windows.specs.Window.{run_rows, IsWindow, typed_ends};
ghost use Rattle.runend_encode.specs.Joined.{AllHaveRows};

use column_core::{
    BitBuffer, BitBufferMut, NativePType, UnsignedPType, Validity, VortexError, VortexResult,
};
use std::alloc::Allocator;

/// Holds the runs that are closed, in order.
#[derive(Drop)]
pub(crate) struct JoinedRuns<E: Drop, T: Drop, A: Allocator> {
    /// Holds the row that each run ends before.
    pub(crate) ends: Vec<E, A>,
    /// Holds the number of each run, 0 for null.
    pub(crate) values: Vec<T, A>,
    /// Says of each run whether it shows a number.
    pub(crate) flags: BitBufferMut<A>,
}

/// Returns the ends and the numbers of the joined runs, where none is null.
pub(crate) fn valid_runs<E: UnsignedPType, T: NativePType, A: Allocator + Copy>(
    alloc: A,
    ends: &[E],
    items: &[T],
    offset: usize,
    count: usize,
) -> VortexResult<(Vec<E, A>, Vec<T, A>)>
    requires fits { All (λ end. HasNumber E.PTYPE (E.number end)) ends.now }
    requires window { IsWindow (typed_ends E.number ends.now) offset count }
    requires paired { length items.now ≡ length ends.now }
    requires shown { AllHaveRows (typed_ends E.number ends.now) offset count }
    ensures only { IsOkUnless result VortexError.OutOfMemory }
    ensures cover { IfOk result (λ runs. IsTightCover
        (run_rows (typed_ends E.number ends.now) (map (λ n. Some n) (map T.number items.now)) offset count)
        (typed_ends E.number runs.0.items) (map (λ n. Some n) (map T.number runs.1.items))) }
{
    let runs = items.len();
    let mut joined_ends = Vec::with_capacity(alloc, runs)?;
    let mut joined_items = Vec::with_capacity(alloc, runs)?;
    if runs == 0 {
        return Ok((joined_ends, joined_items));
    }
    let mut open = items[0];
    for run in 1..runs {
        let item = items[run];
        if item != open {
            joined_ends.push_reserved(end_in_window(ends, run - 1, offset, count));
            joined_items.push_reserved(open);
            open = item;
        }
    }
    joined_ends.push_reserved(end_in_window(ends, runs - 1, offset, count));
    joined_items.push_reserved(open);
    Ok((joined_ends, joined_items))
}

/// Returns the joined runs, where any may be null.
pub(crate) fn join_nullable<E: UnsignedPType, T: NativePType, A: Allocator + Copy>(
    alloc: A,
    ends: &[E],
    items: &[T],
    validity: &Validity<A>,
    offset: usize,
    count: usize,
) -> VortexResult<JoinedRuns<E, T, A>>
    requires fits { All (λ end. HasNumber E.PTYPE (E.number end)) ends.now }
    requires window { IsWindow (typed_ends E.number ends.now) offset count }
    requires paired { length items.now ≡ length ends.now }
    requires shown { AllHaveRows (typed_ends E.number ends.now) offset count }
    requires counted { HasLength (form_of validity.now) (length items.now) }
    requires zeroed { AreZeroAtNulls (map T.number items.now) (validity_flags validity.now (length items.now)) }
    ensures only { IsOkUnless result VortexError.OutOfMemory }
    ensures cover { IfOk result (λ runs. IsTightCover
        (run_rows (typed_ends E.number ends.now) (optionals (map T.number items.now)
        (validity_flags validity.now (length items.now))) offset count)
        (typed_ends E.number runs.ends.items) (optionals (map T.number runs.values.items) runs.flags)) }
    ensures paired { IfOk result (λ runs. length runs.flags ≡ length runs.values.items) }
    ensures zeroed { IfOk result (λ runs. AreZeroAtNulls (map T.number runs.values.items) runs.flags) }
{
    match validity {
        Validity::NonNullable => join_alike(alloc, ends, items, true, offset, count),
        Validity::AllValid => join_alike(alloc, ends, items, true, offset, count),
        Validity::AllInvalid => join_alike(alloc, ends, items, false, offset, count),
        Validity::Bits(marks) => join_marked(alloc, ends, items, marks, offset, count),
    }
}

// The joined runs, where all show numbers, or all null.
fn join_alike<E: UnsignedPType, T: NativePType, A: Allocator + Copy>(
    alloc: A,
    ends: &[E],
    items: &[T],
    valid: bool,
    offset: usize,
    count: usize,
) -> VortexResult<JoinedRuns<E, T, A>>
    requires fits { All (λ end. HasNumber E.PTYPE (E.number end)) ends.now }
    requires window { IsWindow (typed_ends E.number ends.now) offset count }
    requires paired { length items.now ≡ length ends.now }
    requires shown { AllHaveRows (typed_ends E.number ends.now) offset count }
    requires zeroed { AreZeroAtNulls (map T.number items.now) (replicate (length items.now) valid) }
    ensures only { IsOkUnless result VortexError.OutOfMemory }
    ensures cover { IfOk result (λ runs. IsTightCover
        (run_rows (typed_ends E.number ends.now) (optionals (map T.number items.now)
        (replicate (length items.now) valid)) offset count)
        (typed_ends E.number runs.ends.items) (optionals (map T.number runs.values.items) runs.flags)) }
    ensures paired { IfOk result (λ runs. length runs.flags ≡ length runs.values.items) }
    ensures zeroed { IfOk result (λ runs. AreZeroAtNulls (map T.number runs.values.items) runs.flags) }
{
    let marks = BitBufferMut::full(alloc, valid, items.len())?.freeze();
    join_marked(alloc, ends, items, &marks, offset, count)
}

// The joined runs, where each run has a bit that says whether it shows a number.
fn join_marked<E: UnsignedPType, T: NativePType, A: Allocator + Copy>(
    alloc: A,
    ends: &[E],
    items: &[T],
    marks: &BitBuffer<A>,
    offset: usize,
    count: usize,
) -> VortexResult<JoinedRuns<E, T, A>>
    requires fits { All (λ end. HasNumber E.PTYPE (E.number end)) ends.now }
    requires window { IsWindow (typed_ends E.number ends.now) offset count }
    requires paired { length items.now ≡ length ends.now }
    requires shown { AllHaveRows (typed_ends E.number ends.now) offset count }
    requires counted { length marks.now ≡ length items.now }
    requires zeroed { AreZeroAtNulls (map T.number items.now) marks.now }
    ensures only { IsOkUnless result VortexError.OutOfMemory }
    ensures cover { IfOk result (λ runs. IsTightCover
        (run_rows (typed_ends E.number ends.now)
        (optionals (map T.number items.now) marks.now) offset count)
        (typed_ends E.number runs.ends.items) (optionals (map T.number runs.values.items) runs.flags)) }
    ensures paired { IfOk result (λ runs. length runs.flags ≡ length runs.values.items) }
    ensures zeroed { IfOk result (λ runs. AreZeroAtNulls (map T.number runs.values.items) runs.flags) }
{
    let runs = items.len();
    let mut joined_ends = Vec::with_capacity(alloc, runs)?;
    let mut values = Vec::with_capacity(alloc, runs)?;
    let mut flags = BitBufferMut::full(alloc, true, runs)?;
    if runs == 0 {
        return Ok(JoinedRuns {
            ends: joined_ends,
            values,
            flags,
        });
    }
    for run in 1..runs {
        if shows_other(items, marks, run) {
            put_flag(
                &mut flags,
                values.len(),
                shows_number(items, marks, run - 1),
            );
            joined_ends.push_reserved(end_in_window(ends, run - 1, offset, count));
            values.push_reserved(items[run - 1]);
        }
    }
    put_flag(
        &mut flags,
        values.len(),
        shows_number(items, marks, runs - 1),
    );
    joined_ends.push_reserved(end_in_window(ends, runs - 1, offset, count));
    values.push_reserved(items[runs - 1]);
    flags.truncate(values.len());
    Ok(JoinedRuns {
        ends: joined_ends,
        values,
        flags,
    })
}

// Does a run show another value than the one before it?
#[inline(always)]
fn shows_other<T: NativePType, A: Allocator>(items: &[T], marks: &BitBuffer<A>, run: usize) -> bool
    requires later { 0 < run }
    requires within { run < length items.now }
    requires counted { length marks.now ≡ length items.now }
    requires zeroed { AreZeroAtNulls (map T.number items.now) marks.now }
    ensures yes { result ≡ true → slice_get (optionals (map T.number items.now) marks.now) (run - 1) ≢
        slice_get (optionals (map T.number items.now) marks.now) run }
    ensures no { result ≡ false → slice_get (optionals (map T.number items.now) marks.now) (run - 1) ≡
        slice_get (optionals (map T.number items.now) marks.now) run }
{
    // Marks are looked at only where the numbers are equal, which they seldom are: the number of a null is 0.
    if items[run] != items[run - 1] {
        return true;
    }
    marks.value(run) != marks.value(run - 1)
}

// Does a run show a number?
#[inline(always)]
fn shows_number<T: NativePType, A: Allocator>(items: &[T], marks: &BitBuffer<A>, run: usize) -> bool
    requires within { run < length items.now }
    requires counted { length marks.now ≡ length items.now }
    requires zeroed { AreZeroAtNulls (map T.number items.now) marks.now }
    ensures { slice_get marks.now run ≡ Some result }
{
    // The number of a null is 0, and marks are read in more steps than numbers.
    if items[run] != T::default() {
        return true;
    }
    marks.value(run)
}

// Sets the flag at `place`, where it and all flags after it are true.
#[inline(always)]
fn put_flag<A: Allocator + Copy>(flags: &mut BitBufferMut<A>, place: usize, flag: bool)
    requires within { place < length flags.old }
    requires rest { drop place flags.old ≡ replicate (length flags.old - place) true }
    ensures put { take (place + 1) flags.new ≡ take place flags.old ++ flag ∷ [] }
    ensures rest { drop (place + 1) flags.new ≡ replicate (length flags.new - (place + 1)) true }
    ensures len { length flags.new ≡ length flags.old }
{
    // Read for its range: there is a number past each place.
    let _count = flags.len();
    if !flag {
        flags.fill_range(place, place + 1, false);
    }
}

// Where a run ends in the window of `count` rows from position `offset` on.
fn end_in_window<E: UnsignedPType>(ends: &[E], run: usize, offset: usize, count: usize) -> E
    requires within { run < length ends.now }
    requires fits { All (λ end. HasNumber E.PTYPE (E.number end)) ends.now }
    ensures { E.number result ≡ pos (min (slice_index (typed_ends E.number ends.now) run - offset) count) }
{
    let rows = ends[run].to_u64().saturating_sub(offset as u64);
    end_of(rows.min(count as u64))
}

// So many rows, as an end.
fn end_of<E: UnsignedPType>(rows: u64) -> E
    requires { HasNumber E.PTYPE (pos rows) }
    ensures { E.number result ≡ pos rows }
{
    E::narrow(i128::from(rows)).unwrap()
}

// How many stored numbers are compared with those before them until the answer is looked at: a loop without a branch
// compares several at once, and past two equal neighbours at most this number is looked at for nothing.
const COMPARED_AT_ONCE: usize = 256;

/// Returns whether each run shows another value than the one before it.
pub(crate) fn differ_in<T: NativePType, A: Allocator>(items: &[T], validity: &Validity<A>) -> bool
    requires counted { HasLength (form_of validity.now) (length items.now) }
    requires zeroed { AreZeroAtNulls (map T.number items.now) (validity_flags validity.now (length items.now)) }
    ensures { IsTrue result → AllAdjacentBelow (λ x y. x ≢
        y) (optionals (map T.number items.now) (validity_flags validity.now (length items.now))) (length items.now) }
{
    let mut start = 1;
    while start < items.len() {
        let stop = start + COMPARED_AT_ONCE.min(items.len() - start);
        if has_equal(items, start, stop) {
            if !differ_between(items, validity, start, stop) {
                return false;
            }
        }
        start = stop;
    }
    true
}

// Is a stored number from `start` to before `stop` that of the run before it?
fn has_equal<T: NativePType>(items: &[T], start: usize, stop: usize) -> bool
    requires later { 0 < start }
    requires within { stop ≤ length items.now }
    ensures { result ≡ false → (run : ℕ) → start ≤ run → run < stop →
        slice_get (map T.number items.now) (run - 1) ≢ slice_get (map T.number items.now) run }
{
    let mut equal = false;
    for run in start..stop {
        if items[run] == items[run - 1] {
            equal = true;
        }
    }
    equal
}

// Does each run from `start` to before `stop` show another value than the one before it?
fn differ_between<T: NativePType, A: Allocator>(
    items: &[T],
    validity: &Validity<A>,
    start: usize,
    stop: usize,
) -> bool
    requires later { 0 < start }
    requires within { stop ≤ length items.now }
    requires ordered { start ≤ stop }
    requires counted { HasLength (form_of validity.now) (length items.now) }
    requires zeroed { AreZeroAtNulls (map T.number items.now) (validity_flags validity.now (length items.now)) }
    ensures { IsTrue result → AllAdjacentBelow (λ x y. x ≢
        y) (optionals (map T.number items.now) (validity_flags validity.now (length items.now))) start
        → AllAdjacentBelow (λ x y. x ≢ y) (optionals (map T.number items.now) (validity_flags validity.now
        (length items.now))) stop }
{
    for run in start..stop {
        let item = items[run];
        let before = items[run - 1];
        if item == before {
            if validity.is_valid(run) == validity.is_valid(run - 1) {
                return false;
            }
        }
    }
    true
}
