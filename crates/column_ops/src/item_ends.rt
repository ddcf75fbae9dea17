//! The least and the greatest of the items of a flat column.
ghost use Rattle.std.specs.Prelude.{◌≡◌, ◌≢◌, ◌+◌, ◌/◌, ◌%◌, ◌<◌, ◌≤◌, ℕ, All, IfNone, IfSome, None, length, slice_index, slice_range, MatchOption};
ghost use Rattle.std.specs.Int.{bit_at};
ghost use Rattle.column_base.specs.ValidityForm.{HasLength, flags};
ghost use Rattle.column_base.specs.Validity.{form_of, validity_flags};
ghost use Rattle.column_base.specs.declared.dtype.DecimalDType.{DecimalDType};
ghost use Rattle.column_base.specs.declared.dtype.Nullability.{Nullability};
ghost use Rattle.column_ops.specs.Items.{flagged_rows, item_row, item_rows, IsFirstValid};
ghost use Rattle.column_ops.specs.OrderFacts.{AreEnds, IsEnd, IsGreatest, IsLeast};
ghost use Rattle.column_ops.specs.Steps.{AreEndsSoFar};

use crate::items::FlatItem;
use column_core::{BitBuffer, ScalarView, Validity};
use std::alloc::Allocator;
use std::cmp::Ordering;
use std::hint::select_unpredictable;
use std::ops::Range;

/// Returns the least and the greatest of the items from `range.start` to `range.end - 1` that are not null, as rows, or
/// `None` where all of them are null. Takes no memory.
pub(crate) fn min_max_of<'a, T: FlatItem, A: Allocator>(
    items: &[T],
    validity: &Validity<A>,
    range: Range<usize>,
) -> Option<(ScalarView<'a, A>, ScalarView<'a, A>)>
    requires fits { HasLength (form_of validity.now) (length items.now) }
    requires ordered { range.start ≤ range.end }
    requires in_bounds { range.end ≤ length items.now }
    ensures { (decimal : DecimalDType) (nullability : Nullability) →
        let rows = slice_range (flagged_rows T.value items.now (validity_flags validity.now (length items.now)))
        range.start range.end in
        MatchOption result (All (λ row. row ≡ None) rows) (λ ends.
        AreEnds (T.dtype decimal nullability) rows ends.0 ends.1) }
{
    let (least, greatest) = item_ends(items, validity, range.start, range.end)?;
    Some((least.view(), greatest.view()))
}

/// Returns the item from `range.start` to `range.end - 1` that is not null and furthest to that side, as a row: the
/// least where the side is `Less`, and the greatest where it is `Greater`. `None` where all of them are null. Takes no
/// memory.
pub(crate) fn end_of<'a, T: FlatItem, A: Allocator>(
    items: &[T],
    validity: &Validity<A>,
    range: Range<usize>,
    side: Ordering,
) -> Option<ScalarView<'a, A>>
    requires fits { HasLength (form_of validity.now) (length items.now) }
    requires ordered { range.start ≤ range.end }
    requires in_bounds { range.end ≤ length items.now }
    requires side { side ≢ Ordering.Equal }
    ensures { (decimal : DecimalDType) (nullability : Nullability) →
        let rows = slice_range (flagged_rows T.value items.now (validity_flags validity.now (length items.now)))
        range.start range.end in
        MatchOption result (All (λ row. row ≡ None) rows) (λ row. IsEnd side (T.dtype decimal nullability) rows row) }
{
    match side {
        Ordering::Less => {
            let (least, _) = item_ends(items, validity, range.start, range.end)?;
            Some(least.view())
        }
        _ => {
            let (_, greatest) = item_ends(items, validity, range.start, range.end)?;
            Some(greatest.view())
        }
    }
}

// The least and the greatest of the items from `start` to `stop - 1` that are not null. Inlined with its loops, so that
// a caller who takes one end compares for that end only.
#[inline(always)]
fn item_ends<T: FlatItem, A: Allocator>(
    items: &[T],
    validity: &Validity<A>,
    start: usize,
    stop: usize,
) -> Option<(T, T)>
    requires fits { HasLength (form_of validity.now) (length items.now) }
    requires ordered { start ≤ stop }
    requires in_bounds { stop ≤ length items.now }
    ensures none { IfNone result (All (λ row. row ≡
        None) (slice_range (flagged_rows T.value items.now (validity_flags validity.now (length items.now))) start
        stop)) }
    ensures least { IfSome result (λ ends. IsLeast (slice_range (flagged_rows T.value items.now
        (validity_flags validity.now (length items.now))) start stop) (item_row T.value ends.0)) }
    ensures greatest { IfSome result (λ ends. IsGreatest (slice_range (flagged_rows T.value items.now
        (validity_flags validity.now (length items.now))) start stop) (item_row T.value ends.1)) }
{
    match validity {
        Validity::NonNullable => ends_of_valid(items, start, stop),
        Validity::AllValid => ends_of_valid(items, start, stop),
        Validity::AllInvalid => None,
        Validity::Bits(bits) => ends_of_flagged(items, bits, start, stop),
    }
}

// The least and the greatest of items none of which is null. They are in two parts, and an item of each is looked at at
// once: the lesser of the two is compared with the least, and the greater with the greatest. The middle one of an odd
// number of items is in both parts.
#[inline(always)]
fn ends_of_valid<T: FlatItem>(items: &[T], start: usize, stop: usize) -> Option<(T, T)>
    requires ordered { start ≤ stop }
    requires in_bounds { stop ≤ length items.now }
    ensures none { IfNone result (start ≡ stop) }
    ensures least { IfSome result (λ ends. IsLeast (slice_range (item_rows T.value items.now) start stop)
        (item_row T.value ends.0)) }
    ensures greatest { IfSome result (λ ends. IsGreatest (slice_range (item_rows T.value items.now) start stop)
        (item_row T.value ends.1)) }
{
    if start == stop {
        return None;
    }
    let first = items[start];
    let (mut least, mut greatest) = (first, first);
    let half = (stop - start).div_ceil(2);
    let second = stop - half;
    for step in 0..half {
        let (left, right) = (items[start + step], items[second + step]);
        least = least.min(left.min(right));
        greatest = greatest.max(left.max(right));
    }
    Some((least, greatest))
}

/// Returns the first row from `start` to `stop - 1` whose flag is true, and `stop` where there is none.
pub(crate) fn first_valid<A: Allocator>(flags: &BitBuffer<A>, start: usize, stop: usize) -> usize
    requires ordered { start ≤ stop }
    requires in_bounds { stop ≤ length flags.now }
    ensures { IsFirstValid flags.now start stop result }
{
    for row in start..stop {
        if flags.value(row) {
            return row;
        }
    }
    stop
}

// The least and the greatest of items that are null where their flag is false, a word of flags at a time.
#[inline(always)]
fn ends_of_flagged<T: FlatItem, A: Allocator>(
    items: &[T],
    flags: &BitBuffer<A>,
    start: usize,
    stop: usize,
) -> Option<(T, T)>
    requires fits { length flags.now ≡ length items.now }
    requires ordered { start ≤ stop }
    requires in_bounds { stop ≤ length items.now }
    ensures none { IfNone result (All (λ row. row ≡
        None) (slice_range (flagged_rows T.value items.now flags.now) start stop)) }
    ensures least { IfSome result (λ ends. IsLeast (slice_range (flagged_rows T.value items.now flags.now) start stop)
        (item_row T.value ends.0)) }
    ensures greatest { IfSome result (λ ends. IsGreatest
        (slice_range (flagged_rows T.value items.now flags.now) start stop) (item_row T.value ends.1)) }
{
    let from = first_valid(flags, start, stop);
    if from == stop {
        return None;
    }
    let first = items[from];
    let mut ends = (first, first);
    let mut row = from + 1;
    while row < stop {
        let end = word_end(row, stop);
        ends = ends_in_word(items, flags, row..end, first, ends);
        row = end;
    }
    Some(ends)
}

// Where the rows end that have their flags in the same word as a row.
fn word_end(row: usize, stop: usize) -> usize
    requires { row < stop }
    ensures low { row < result }
    ensures high { result ≤ stop }
    ensures same_word { (k : ℕ) → row ≤ k → k < result → k / 64 ≡ row / 64 }
{
    row + (64 - row % 64).min(stop - row)
}

// The least and the greatest of the items before some rows and of those rows, whose flags are in one word.
#[inline(always)]
fn ends_in_word<T: FlatItem, A: Allocator>(
    items: &[T],
    flags: &BitBuffer<A>,
    range: Range<usize>,
    first: T,
    ends: (T, T),
) -> (T, T)
    requires fits { length flags.now ≡ length items.now }
    requires ordered { range.start < range.end }
    requires in_bounds { range.end ≤ length items.now }
    requires one_word { (k : ℕ) → range.start ≤ k → k < range.end → k / 64 ≡ range.start / 64 }
    ensures { (start : ℕ) → start ≤ range.start
        → AreEndsSoFar (slice_range (flagged_rows T.value items.now flags.now) start range.start)
        (item_row T.value first) (item_row T.value ends.0) (item_row T.value ends.1)
        → AreEndsSoFar (slice_range (flagged_rows T.value items.now flags.now) start range.end)
        (item_row T.value first) (item_row T.value result.0) (item_row T.value result.1) }
{
    let count = range.end - range.start;
    if count == 64 {
        ends_in_whole_word(items, flags, range.start, first, ends)
    } else {
        ends_in_part(items, flags, range, first, ends)
    }
}

// The same for the 64 rows from `from` on, in two parts as in `ends_of_valid`. A byte for each flag says which are
// nulls, so no row waits for a flag, and as many rows are compared at once as a vector has. Each item is read whatever
// its flag is: LLVM makes no vector of a loop in which a flag decides what is read.
#[inline(always)]
fn ends_in_whole_word<T: FlatItem, A: Allocator>(
    items: &[T],
    flags: &BitBuffer<A>,
    from: usize,
    first: T,
    ends: (T, T),
) -> (T, T)
    requires fits { length flags.now ≡ length items.now }
    requires in_bounds { from + 64 ≤ length items.now }
    requires first_of_word { from % 64 ≡ 0 }
    ensures { (start : ℕ) → start ≤ from
        → AreEndsSoFar (slice_range (flagged_rows T.value items.now flags.now) start from)
        (item_row T.value first) (item_row T.value ends.0) (item_row T.value ends.1)
        → AreEndsSoFar (slice_range (flagged_rows T.value items.now flags.now) start (from + 64))
        (item_row T.value first) (item_row T.value result.0) (item_row T.value result.1) }
{
    let marks = bytes_of_bits(flags.words()[from / 64]);
    let (mut least, mut greatest) = ends;
    for lane in 0..32usize {
        let (row, later) = (from + lane, from + 32 + lane);
        let left = select_unpredictable(marks[lane] == 1, items[row], first);
        let right = select_unpredictable(marks[lane + 32] == 1, items[later], first);
        least = least.min(left.min(right));
        greatest = greatest.max(left.max(right));
    }
    (least, greatest)
}

// Each bit of a word, the lowest first, as a byte of its own.
#[inline(always)]
fn bytes_of_bits(word: u64) -> [u8; 64]
    ensures { (lane : ℕ) → lane < 64 → slice_index result lane ≡ bit_at word lane }
{
    let mut bytes = [0u8; 64];
    for eight in 0..8usize {
        put_eight(&mut bytes, word, eight);
    }
    bytes
}

// The same for eight bits, from bit `eight` * 8 on.
#[inline(always)]
fn put_eight(bytes: &mut [u8; 64], word: u64, eight: usize)
    requires { eight < 8 }
    ensures own { (lane : ℕ) → lane / 8 ≡ eight → slice_index bytes.new lane ≡ bit_at word lane }
    ensures others { (lane : ℕ) → lane / 8 ≢ eight → slice_index bytes.new lane ≡ slice_index bytes.old lane }
{
    let byte = ((word >> (eight * 8)) & 255) as u8;
    for lane in 0..8usize {
        bytes[eight * 8 + lane] = (byte >> lane) & 1;
    }
}

// The same for fewer rows than a word has flags, or for rows that begin within a word. In the place of a null the first
// item that is not null is looked at once more, so that each row takes the same steps.
#[inline(always)]
fn ends_in_part<T: FlatItem, A: Allocator>(
    items: &[T],
    flags: &BitBuffer<A>,
    range: Range<usize>,
    first: T,
    ends: (T, T),
) -> (T, T)
    requires fits { length flags.now ≡ length items.now }
    requires ordered { range.start < range.end }
    requires in_bounds { range.end ≤ length items.now }
    requires one_word { (k : ℕ) → range.start ≤ k → k < range.end → k / 64 ≡ range.start / 64 }
    ensures { (start : ℕ) → start ≤ range.start
        → AreEndsSoFar (slice_range (flagged_rows T.value items.now flags.now) start range.start)
        (item_row T.value first) (item_row T.value ends.0) (item_row T.value ends.1)
        → AreEndsSoFar (slice_range (flagged_rows T.value items.now flags.now) start range.end)
        (item_row T.value first) (item_row T.value result.0) (item_row T.value result.1) }
{
    let word = flags.words()[range.start / 64];
    let (mut least, mut greatest) = ends;
    for row in range.start..range.end {
        let is_valid = (word >> (row % 64)) & 1 == 1;
        let shown = select_unpredictable(is_valid, items[row], first);
        least = least.min(shown);
        greatest = greatest.max(shown);
    }
    (least, greatest)
}
