//! Whether the items of a flat column are constant, and whether they are in order.
ghost use Rattle.std.specs.Prelude.{◌≡◌, ◌<◌, ◌≤◌, ◌↔◌, true, false, IsTrue, length, slice_range};
ghost use Rattle.column_base.specs.ValidityForm.{HasLength, flags};
ghost use Rattle.column_base.specs.Validity.{form_of, validity_flags};
ghost use Rattle.column_ops.specs.Items.{flagged_rows, item_row, item_rows, AreAll};
ghost use Rattle.column_ops.specs.OrderFacts.{IsConstant, IsSorted};
ghost use Rattle.column_ops.specs.Steps.{is_step_of, AreSteps};

use crate::item_ends::first_valid;
use crate::items::FlatItem;
use column_core::{BitBuffer, Validity};
use std::alloc::Allocator;
use std::ops::Range;

// How many rows are looked at before a loop may stop. Within this number of rows it has no exit, so that several rows
// are compared at once.
const BLOCK: usize = 256;

/// Returns whether all rows from `range.start` to `range.end - 1` are equal, null being equal to null. Takes no memory.
pub(crate) fn is_constant_of<T: FlatItem, A: Allocator>(
    items: &[T],
    validity: &Validity<A>,
    range: Range<usize>,
) -> bool
    requires fits { HasLength (form_of validity.now) (length items.now) }
    requires ordered { range.start ≤ range.end }
    requires in_bounds { range.end ≤ length items.now }
    ensures { IsTrue result ↔ IsConstant (slice_range (flagged_rows T.value items.now (validity_flags validity.now
        (length items.now))) range.start range.end) }
{
    match validity {
        Validity::NonNullable => is_constant_valid(items, range.start, range.end),
        Validity::AllValid => is_constant_valid(items, range.start, range.end),
        Validity::AllInvalid => true,
        Validity::Bits(bits) => is_constant_flagged(items, bits, range.start, range.end),
    }
}

// Are any two of the rows from `start` to `stop - 1` equal, where none is null?
fn is_constant_valid<T: FlatItem>(items: &[T], start: usize, stop: usize) -> bool
    requires ordered { start ≤ stop }
    requires in_bounds { stop ≤ length items.now }
    ensures { IsTrue result ↔ IsConstant (slice_range (item_rows T.value items.now) start stop) }
{
    if start == stop {
        return true;
    }
    let first = items[start];
    let mut from = start;
    while from < stop {
        let end = block_end(from, stop);
        if !are_all(items, from, end, first) {
            return false;
        }
        from = end;
    }
    true
}

// Is each item from `start` to `stop - 1` the given one?
fn are_all<T: FlatItem>(items: &[T], start: usize, stop: usize, given: T) -> bool
    requires ordered { start ≤ stop }
    requires in_bounds { stop ≤ length items.now }
    ensures { IsTrue result ↔ AreAll (item_rows T.value items.now) start stop (item_row T.value given) }
{
    let mut same = true;
    for row in start..stop {
        same &= items[row] == given;
    }
    same
}

// Are any two of the rows from `start` to `stop - 1` equal, where a row is null that has its flag false?
fn is_constant_flagged<T: FlatItem, A: Allocator>(
    items: &[T],
    flags: &BitBuffer<A>,
    start: usize,
    stop: usize,
) -> bool
    requires fits { length flags.now ≡ length items.now }
    requires ordered { start ≤ stop }
    requires in_bounds { stop ≤ length items.now }
    ensures { IsTrue result ↔ IsConstant (slice_range (flagged_rows T.value items.now flags.now) start stop) }
{
    let valid = flags.count_range(start, stop);
    if valid == 0 {
        return true;
    }
    if valid < stop - start {
        return false;
    }
    is_constant_valid(items, start, stop)
}

/// Returns whether no row from `range.start` to `range.end - 1` is above the next, or, for `strict`, whether each is
/// below the next. Null is below all else. Takes no memory.
pub(crate) fn is_sorted_of<T: FlatItem, A: Allocator>(
    items: &[T],
    validity: &Validity<A>,
    range: Range<usize>,
    strict: bool,
) -> bool
    requires fits { HasLength (form_of validity.now) (length items.now) }
    requires ordered { range.start ≤ range.end }
    requires in_bounds { range.end ≤ length items.now }
    ensures { IsTrue result ↔ IsSorted strict (slice_range (flagged_rows T.value items.now (validity_flags validity.now
        (length items.now))) range.start range.end) }
{
    match validity {
        Validity::NonNullable => is_sorted_valid(items, range.start, range.end, strict),
        Validity::AllValid => is_sorted_valid(items, range.start, range.end, strict),
        Validity::AllInvalid => !strict || range.end - range.start <= 1,
        Validity::Bits(bits) => is_sorted_flagged(items, bits, range.start, range.end, strict),
    }
}

// Are the rows from `start` to `stop - 1` in order, where none is null?
fn is_sorted_valid<T: FlatItem>(items: &[T], start: usize, stop: usize, strict: bool) -> bool
    requires ordered { start ≤ stop }
    requires in_bounds { stop ≤ length items.now }
    ensures { IsTrue result ↔ IsSorted strict (slice_range (item_rows T.value items.now) start stop) }
{
    let last = stop.saturating_sub(1);
    let mut from = start;
    while from < last {
        let end = block_end(from, last);
        if !are_steps(items, from, end, strict) {
            return false;
        }
        from = end;
    }
    true
}

// May a right item come after a left one?
fn is_step_up<T: FlatItem>(left: T, right: T, strict: bool) -> bool
    ensures { result ≡ is_step_of strict (T.cmp left right) }
{
    if strict { left < right } else { left <= right }
}

// May the item after each of those from `start` to `stop - 1` come there? There is one loop for either order, so that
// neither asks in each row which one it is.
fn are_steps<T: FlatItem>(items: &[T], start: usize, stop: usize, strict: bool) -> bool
    requires ordered { start ≤ stop }
    requires in_bounds { stop < length items.now }
    ensures { IsTrue result ↔ AreSteps strict (item_rows T.value items.now) start stop }
{
    if strict {
        are_strict_steps(items, start, stop)
    } else {
        are_level_steps(items, start, stop)
    }
}

// Is each item from `start` to `stop - 1` below the next one?
fn are_strict_steps<T: FlatItem>(items: &[T], start: usize, stop: usize) -> bool
    requires ordered { start ≤ stop }
    requires in_bounds { stop < length items.now }
    ensures { IsTrue result ↔ AreSteps true (item_rows T.value items.now) start stop }
{
    let mut in_order = true;
    for row in start..stop {
        in_order &= is_step_up(items[row], items[row + 1], true);
    }
    in_order
}

// Is no item from `start` to `stop - 1` above the next one?
fn are_level_steps<T: FlatItem>(items: &[T], start: usize, stop: usize) -> bool
    requires ordered { start ≤ stop }
    requires in_bounds { stop < length items.now }
    ensures { IsTrue result ↔ AreSteps false (item_rows T.value items.now) start stop }
{
    let mut in_order = true;
    for row in start..stop {
        in_order &= is_step_up(items[row], items[row + 1], false);
    }
    in_order
}

// Are the rows from `start` to `stop - 1` in order, where a row is null that has its flag false? Nulls are first, and
// where `strict` is asked there is one at most.
fn is_sorted_flagged<T: FlatItem, A: Allocator>(
    items: &[T],
    flags: &BitBuffer<A>,
    start: usize,
    stop: usize,
    strict: bool,
) -> bool
    requires fits { length flags.now ≡ length items.now }
    requires ordered { start ≤ stop }
    requires in_bounds { stop ≤ length items.now }
    ensures { IsTrue result ↔ IsSorted strict (slice_range (flagged_rows T.value items.now flags.now) start stop) }
{
    let from = first_valid(flags, start, stop);
    if strict && from - start > 1 {
        return false;
    }
    if flags.count_range(from, stop) < stop - from {
        return false;
    }
    is_sorted_valid(items, from, stop, strict)
}

// The end of the block that begins at `start`.
fn block_end(start: usize, stop: usize) -> usize
    requires { start < stop }
    ensures low { start < result }
    ensures high { result ≤ stop }
{
    start + BLOCK.min(stop - start)
}
